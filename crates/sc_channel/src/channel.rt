//! A channel: the four numbers of the sliding-window erasure channel, within this project's limits.

ghost use Rattle.std.specs.Prelude.{◌≡◌, ◌<◌, ◌⊎◌, ◌↔◌, true, IsOk, IfOk};
ghost use Rattle.sc_channel.specs.Channel.{ChannelNumbers, IsOrdered, IsChannel, is_channel};

use std::error::Error;
use std::fmt;
use std::marker::Model;

/// The longest window, in slots.
pub const MAX_WINDOW: u32 = 255;

/// The greatest deadline, in slots.
pub const MAX_DEADLINE: u32 = 40;

/// The sliding-window erasure channel after Badr and others, with a deadline.
///
/// In each window of `w` slots at most `n` slots are erased, or all erasures lie within a span of
/// at most `b` slots. A source block is due `t` slots after its own. Always
/// `1 <= n <= b <= t < w <= 255` and `t <= 40`; the limits 255 and 40 are this project's own.
#[derive(Copy, Clone, Debug, PartialEq, Eq)]
pub struct Channel {
    w: u32,
    b: u32,
    n: u32,
    t: u32,
}

impl Model for Channel {
    ghost use Rattle.sc_channel.specs.Channel.{ChannelNumbers, IsChannel};

    ghost Value = { ChannelNumbers };

    ghost view = { λ c. record { w = c.w; b = c.b; n = c.n; t = c.t } };

    ghost invariant = { λ c. IsChannel (record { w = c.w; b = c.b; n = c.n; t = c.t }) };

    ghost inverse = { λ c. record { w = c.w; b = c.b; n = c.n; t = c.t } };
}

/// Why four numbers are no channel.
#[derive(Copy, Clone, Debug, PartialEq, Eq)]
pub enum BadChannel {
    /// Not `1 <= n <= b <= t < w`.
    Order,
    /// In that order, but `w` is above 255 or `t` above 40.
    Range,
}

impl fmt::Display for BadChannel {
    fn fmt<W: fmt::Write>(&self, f: &mut fmt::Formatter<W>) -> fmt::Result {
        match self {
            BadChannel::Order => write!(f, "not 1 <= N <= B <= T < W"),
            BadChannel::Range => write!(f, "W above 255 or T above 40"),
        }
    }
}

impl Error for BadChannel {}

impl Channel {
    /// The channel with windows of `w` slots, spans of at most `b` slots, at most `n` erasures
    /// anywhere in a window, and the deadline `t` in slots.
    pub fn new(w: u32, b: u32, n: u32, t: u32) -> Result<Channel, BadChannel>
        ensures accepted { IsOk result ↔ IsChannel (record { w = w; b = b; n = n; t = t }) }
        ensures numbers { IfOk result (λ channel. channel ≡ record { w = w; b = b; n = n; t = t }) }
        ensures order { (result ≡ Err BadChannel.Order) ↔ ¬ IsOrdered w b n t }
        ensures range { (result ≡ Err BadChannel.Range) ↔ (IsOrdered w b n t × ((MAX_WINDOW < w) ⊎ (MAX_DEADLINE < t))) }
    {
        if !(1 <= n && n <= b && b <= t && t < w) {
            return Err(BadChannel::Order);
        }
        if w > MAX_WINDOW || t > MAX_DEADLINE {
            return Err(BadChannel::Range);
        }
        Ok(Channel { w, b, n, t })
    }

    /// The length of a window, in slots.
    pub fn w(&self) -> u32
        ensures number { result ≡ self.now.w }
        ensures limits { IsChannel self.now }
    {
        self.w
    }

    /// The greatest span of the erasures of a window that has more than `n` of them, in slots.
    pub fn b(&self) -> u32
        ensures number { result ≡ self.now.b }
        ensures limits { IsChannel self.now }
    {
        self.b
    }

    /// How many erasures a window may have whatever their span.
    pub fn n(&self) -> u32
        ensures number { result ≡ self.now.n }
        ensures limits { IsChannel self.now }
    {
        self.n
    }

    /// The deadline: a source block is due this many slots after its own.
    pub fn t(&self) -> u32
        ensures number { result ≡ self.now.t }
        ensures limits { IsChannel self.now }
    {
        self.t
    }
}

/// The test on the numbers of a channel is the definition of a channel.
pub fn one_channel()
    ensures { (numbers : ChannelNumbers) → (is_channel numbers ≡ true) ↔ IsChannel numbers }
{}

#[cfg(test)]
mod tests {
    use super::{BadChannel, Channel};
    use std::test::Fail;

    #[test]
    fn says_why_numbers_are_no_channel(rt: HostRuntime) -> Result<(), Fail> {
        assert_eq!(rt; Channel::new(3, 2, 3, 2), Err(BadChannel::Order));
        assert_eq!(rt; Channel::new(256, 2, 1, 2), Err(BadChannel::Range));
        let order = format!(in rt.alloc(); "{}", BadChannel::Order)?;
        assert_eq!(rt; order.as_str(), "not 1 <= N <= B <= T < W");
        let range = format!(in rt.alloc(); "{}", BadChannel::Range)?;
        assert_eq!(rt; range.as_str(), "W above 255 or T above 40");
        let greatest = Channel::new(255, 40, 40, 40)?;
        assert_eq!(rt;
            (greatest.w(), greatest.b(), greatest.n(), greatest.t()),
            (255, 40, 40, 40)
        );
        Ok(())
    }
}
