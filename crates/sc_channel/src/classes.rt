//! The classes of losses that a check looks at, each made from its index.

ghost use Rattle.std.specs.Prelude.{◌≡◌, ◌↔◌, ◌<◌, ◌≤◌, ◌+◌, ◌-◌, ◌^◌, ℕ, List, [], Bool, true, false, ◌++◌, length, replicate, slice_index_or, IsOk, IfOk, IfErr};
ghost use Rattle.std.specs.List.{Contains};
ghost use Rattle.sc_channel.specs.Channel.{ChannelNumbers, IsChannel, IsOrdered};
ghost use Rattle.sc_channel.specs.Flags.{IsSet};
ghost use Rattle.sc_channel.specs.Loss.{IsAdmissible};
ghost use Rattle.sc_channel.specs.Classes.{choose, flags_with, burst_class, IsClass, classes_of, class_count, SetsFirst};

use crate::channel::Channel;
use crate::flags::Flags;
use sc_outside::NoMemory;
use std::alloc::Global;
use std::error::Error;
use std::fmt;
use std::marker::Model;

/// The most classes of a channel that a check takes.
pub const MAX_CLASSES: u64 = 1_000_000;

/// The classes of a channel, for a window longer than the deadline: losses of `t + 1` flags with flag 0 set.
///
/// Class 0 is the burst at the places 0 to `b - 1`. The next classes have flag 0 and `n - 1` of the places 1 to `t` set, in
/// lexicographic order of the sorted places. Equal classes are counted again. Classes are of this project's own.
#[derive(Copy, Clone, Debug, PartialEq, Eq)]
pub struct Classes {
    channel: Channel,
    count: u32,
}

impl Model for Classes {
    ghost use Rattle.std.specs.Prelude.{◌≡◌, ◌≤◌};
    ghost use Rattle.sc_channel.specs.Channel.{ChannelNumbers, IsChannel};
    ghost use Rattle.sc_channel.specs.Classes.{class_count};
    ghost use Rattle.std.proofs.Common.{ap, sym};

    ghost Value = { ChannelNumbers };

    ghost view = { λ c. c.channel };

    ghost invariant = { λ c. IsChannel c.channel × (c.count ≡ class_count c.channel) × (class_count c.channel ≤ 1000000) };

    ghost inverse = { λ channel. record { channel = channel; count = class_count channel } };

    ghost inverse_ok = { λ c h. ap (λ count. record c { count = count }) (sym h.1) };
}

/// There are more classes than a check takes.
#[derive(Copy, Clone, Debug, PartialEq, Eq)]
pub struct TooManyClasses {
    /// How many classes the channel has.
    pub count: u64,
}

impl fmt::Display for TooManyClasses {
    fn fmt<W: fmt::Write>(&self, f: &mut fmt::Formatter<W>) -> fmt::Result {
        write!(f, "{} classes, which is above {MAX_CLASSES}", self.count)
    }
}

impl Error for TooManyClasses {}

/// The classes of a channel. They are refused exactly where there are more than 1,000,000. It takes no memory.
pub fn loss_classes(channel: &Channel) -> Result<Classes, TooManyClasses>
    ensures accepted { IsOk result ↔ (class_count channel.now ≤ MAX_CLASSES) }
    ensures classes { IfOk result (λ classes. classes ≡ channel.now) }
    ensures refused { IfErr result (λ refusal. refusal.count ≡ class_count channel.now) }
{
    let count = ways_to_choose(channel.t(), channel.n() - 1) + 1;
    if count > MAX_CLASSES {
        return Err(TooManyClasses { count });
    }
    Ok(Classes {
        channel: *channel,
        count: count as u32,
    })
}

impl Classes {
    /// The channel whose classes they are.
    pub fn channel(&self) -> Channel
        ensures { result ≡ self.now }
    {
        self.channel
    }

    /// How many classes there are.
    pub fn count(&self) -> u32
        ensures number { result ≡ class_count self.now }
        ensures limits { IsChannel self.now }
        ensures limit { result ≤ MAX_CLASSES }
    {
        self.count
    }

    /// Class `index`, a loss of `t + 1` flags.
    pub fn class(&self, alloc: Global, index: u32) -> Result<Flags, NoMemory>
        requires { index < class_count self.now }
        ensures class { IfOk result (λ class. class ≡ slice_index_or (classes_of self.now) index []) }
        ensures is_class { IfOk result (λ class. IsClass self.now class) }
        ensures limits { IsChannel self.now }
    {
        let mut flags = vec![in alloc; false; self.channel.t() as usize + 1]?;
        self.write_class(index, &mut flags);
        Ok(Flags::from_vec(flags))
    }

    /// Writes class `index` into `t + 1` flags. It takes no memory.
    pub fn write_class(&self, index: u32, flags: &mut [bool])
        requires in_range { index < class_count self.now }
        requires room { length flags.old ≡ self.now.t + 1 }
        ensures class { flags.new ≡ slice_index_or (classes_of self.now) index [] }
        ensures is_class { IsClass self.now flags.new }
        ensures limits { IsChannel self.now }
    {
        if index == 0 {
            write_burst(flags, self.channel.b() as usize);
        } else {
            flags[0] = true;
            write_flags(
                &mut flags[1..],
                self.channel.n() - 1,
                self.count - 1,
                index - 1,
            );
        }
    }
}

// The number of ways to choose `n` of `places`. Each product is divided without a rest.
fn ways_to_choose(places: u32, n: u32) -> u64
    requires limit { places ≤ 40 }
    requires within { n ≤ places }
    ensures value { result ≡ choose places n }
    ensures bound { result ≤ 2 ^ 40 }
{
    let mut ways = 1;
    for i in 0..n {
        ways = ways * u64::from(places - i) / u64::from(i + 1);
    }
    ways
}

// Sets the first `b` flags and clears the others.
fn write_burst(flags: &mut [bool], b: usize)
    requires { b ≤ length flags.old }
    ensures { flags.new ≡ replicate b true ++ replicate (length flags.old - b) false }
{
    for i in 0..flags.len() {
        flags[i] = i < b;
    }
}

// Writes list `index` of the lists of so many flags of which `n` are set; there are `count` of them.
fn write_flags(flags: &mut [bool], n: u32, count: u32, index: u32)
    requires limit { length flags.old ≤ 40 }
    requires counted { count ≡ choose (length flags.old) n }
    requires few { count ≤ MAX_CLASSES }
    requires in_range { index < count }
    ensures { flags.new ≡ slice_index_or (flags_with (length flags.old) n) index [] }
{
    let places = flags.len() as u32;
    let mut left = n;
    let mut ways = count;
    let mut before = index;
    for i in 0..places {
        // Of the `ways` to set `left` of the flags from `i` on, those that set flag `i` come first.
        let with_flag = ways * left / (places - i);
        let set = before < with_flag;
        flags[i as usize] = set;
        if set {
            ways = with_flag;
            left -= 1;
        } else {
            ways -= with_flag;
            before -= with_flag;
        }
    }
}

/// The classes of a channel in order are exactly its classes, and so many; those after the burst are in lexicographic order of
/// their sorted places. Each is an admissible loss of `t + 1` flags, and each such loss with flag 0 set is part of one.
pub fn classes_are_all_classes()
    ensures classes { (channel : ChannelNumbers) (class : List Bool) → IsOrdered channel.w channel.b channel.n channel.t
        → Contains (classes_of channel) class ↔ IsClass channel class }
    ensures count { (channel : ChannelNumbers) → length (classes_of channel) ≡ class_count channel }
    ensures order { (channel : ChannelNumbers) (i j : ℕ) → 0 < i → i < j → j < class_count channel
        → SetsFirst (slice_index_or (classes_of channel) i []) (slice_index_or (classes_of channel) j []) }
    ensures lengths { (channel : ChannelNumbers) (class : List Bool) → IsOrdered channel.w channel.b channel.n channel.t → IsClass channel class
        → length class ≡ channel.t + 1 }
    ensures first_lost { (channel : ChannelNumbers) (class : List Bool) → IsOrdered channel.w channel.b channel.n channel.t → IsClass channel class
        → IsSet class 0 }
    ensures admissible { (channel : ChannelNumbers) (class : List Bool) → IsClass channel class → IsAdmissible channel class }
    ensures contain { (channel : ChannelNumbers) (loss : List Bool) → IsOrdered channel.w channel.b channel.n channel.t → length loss ≡ channel.t + 1 → IsSet loss 0 → IsAdmissible channel loss
        → (class : List Bool) × (IsClass channel class × ((place : ℕ) → IsSet loss place → IsSet class place)) }
{}

#[cfg(test)]
mod tests {
    use super::{TooManyClasses, loss_classes};
    use crate::channel::Channel;
    use crate::flags::Flags;
    use sc_outside::NoMemory;
    use std::alloc::Global;
    use std::test::Fail;

    fn flags_of(alloc: Global, word: &str) -> Result<Flags, NoMemory> {
        let mut flags = Flags::new(alloc);
        for byte in word.as_bytes() {
            flags.push(*byte == b'1')?;
        }
        Ok(flags)
    }

    // Counts of classes as Python's `math.comb(t, n - 1) + 1` gives them.
    const COUNTS: &[(u32, u32, u32, u32, u64)] = &[
        (2, 1, 1, 1, 2),
        (3, 2, 1, 2, 2),
        (4, 3, 2, 3, 4),
        (41, 4, 4, 40, 9881),
        (41, 40, 40, 40, 41),
        (255, 12, 11, 22, 646647),
        (41, 7, 7, 40, 3838381),
        (41, 21, 21, 40, 137846528821),
    ];

    #[test]
    fn counts_classes(rt: HostRuntime) -> Result<(), Fail> {
        for row in COUNTS {
            let (w, b, n, t, want) = *row;
            let channel = Channel::new(w, b, n, t)?;
            let count = match loss_classes(&channel) {
                Ok(classes) => u64::from(classes.count()),
                Err(TooManyClasses { count }) => count,
            };
            assert_eq!(rt; count, want, "at {w} {b} {n} {t}");
        }
        let many = Channel::new(41, 7, 7, 40)?;
        assert!(rt; loss_classes(&many).is_err());
        let text = format!(in rt.alloc(); "{}", TooManyClasses { count: 3838381 })?;
        assert_eq!(rt; text.as_str(), "3838381 classes, which is above 1000000");
        Ok(())
    }

    // Classes as Python's `itertools.combinations` of the places gives them.
    #[test]
    fn lists_classes(rt: HostRuntime) -> Result<(), Fail> {
        for (w, b, n, t, index, want) in [
            (4, 3, 2, 3, 0, "1110"),
            (4, 3, 2, 3, 1, "1100"),
            (4, 3, 2, 3, 2, "1010"),
            (4, 3, 2, 3, 3, "1001"),
            (4, 3, 3, 3, 0, "1110"),
            (4, 3, 3, 3, 1, "1110"),
            (4, 3, 3, 3, 2, "1101"),
            (4, 3, 3, 3, 3, "1011"),
            (3, 2, 2, 2, 0, "110"),
            (3, 2, 2, 2, 1, "110"),
            (3, 2, 2, 2, 2, "101"),
            (
                41,
                4,
                4,
                40,
                5000,
                "10000000010010000000000000000000010000000",
            ),
            (
                41,
                4,
                4,
                40,
                9880,
                "10000000000000000000000000000000000000111",
            ),
        ] {
            let classes = match loss_classes(&Channel::new(w, b, n, t)?) {
                Ok(classes) => classes,
                Err(_) => continue,
            };
            assert!(rt; index < classes.count());
            let want = flags_of(rt.alloc(), want)?;
            let class = classes.class(rt.alloc(), index)?;
            assert_eq!(rt; class.as_slice(), want.as_slice(), "class {index}");
            let mut flags = vec![in rt.alloc(); true; classes.channel().t() as usize + 1]?;
            classes.write_class(index, flags.as_mut_slice());
            assert_eq!(rt; flags.as_slice(), want.as_slice(), "class {index}");
        }
        Ok(())
    }
}
