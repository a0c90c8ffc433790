//! The judgement of a loss: which of its windows the channel doesn't admit.

ghost use Rattle.std.specs.Prelude.{◌≡◌, ◌+◌, ◌<◌, ◌↔◌, length, IsNone, MatchOption};
ghost use Rattle.sc_channel.specs.Loss.{IsAdmissible, IsFirstBadWindow, AllWindowsFine, bad_window};
ghost use Rattle.sc_channel.specs.Sweep.{IsRecentCount, IsEarlyEnd};

use crate::channel::Channel;

/// The place of the first window of the loss that isn't fine, and `None` exactly where the loss is
/// admissible. One walk over the flags, whatever the length of a window; it takes no memory.
///
/// Window `i` begins at flag `i` and has as many flags as the channel's window, or as many as are
/// left. It is fine where at most `n` of its flags are set, or where all set ones lie within a span
/// of at most `b`. After Badr and others; spans with gaps and short windows are this project's own.
pub fn first_bad_window(channel: &Channel, flags: &[bool]) -> Option<usize>
    ensures value { result ≡ bad_window channel.now flags.now }
    ensures answer { MatchOption result (IsAdmissible channel.now flags.now) (IsFirstBadWindow channel.now flags.now) }
    ensures admissible { IsNone result ↔ IsAdmissible channel.now flags.now }
    ensures by_windows { IsNone result ↔ AllWindowsFine channel.now flags.now }
{
    let w = channel.w() as usize;
    let b = channel.b() as usize;
    let n = channel.n() as usize;
    let mut set = 0;
    let mut early_end = 0;
    for i in 0..flags.len() {
        set = recent_count(flags, w, i, set);
        early_end = early_end_at(flags, b, i, early_end);
        // The parts of at most `w` flags that end before flag `i` are fine. So the longest one that
        // ends with it isn't fine only where flag `i` is set, more than `n` of its flags are, and one
        // of these lies at least `b` places before flag `i`. Then it stands in the window `start`.
        let start = (i + 1).saturating_sub(w);
        if flags[i] && n < set && start < early_end {
            return Some(start);
        }
    }
    None
}

/// How many of the last `w` flags up to flag `i` are set, from how many of those before it are.
fn recent_count(flags: &[bool], w: usize, i: usize, set: usize) -> usize
    requires within { i < length flags.now }
    requires before { IsRecentCount w flags.now i set }
    ensures { IsRecentCount w flags.now (i + 1) result }
{
    let entered = set + usize::from(flags[i]);
    if i < w {
        entered
    } else {
        entered - usize::from(flags[i - w])
    }
}

/// One past the last set flag that lies at least `b` places before flag `i`, from the same for the
/// flag before it; 0 where there is none.
fn early_end_at(flags: &[bool], b: usize, i: usize, early_end: usize) -> usize
    requires within { i < length flags.now }
    requires before { IsEarlyEnd b flags.now i early_end }
    ensures { IsEarlyEnd b flags.now (i + 1) result }
{
    if b <= i && flags[i - b] {
        i - b + 1
    } else {
        early_end
    }
}

#[cfg(test)]
mod tests {
    use super::first_bad_window;
    use crate::channel::Channel;
    use crate::flags::Flags;
    use sc_outside::NoMemory;
    use std::alloc::Global;
    use std::test::Fail;

    fn flags_of(alloc: Global, word: &str) -> Result<Flags, NoMemory> {
        let mut flags = Flags::new(alloc);
        for byte in word.as_bytes() {
            flags.push(*byte == b'1')?;
        }
        Ok(flags)
    }

    const LOSSES: &[(u32, u32, u32, u32, &str, Option<usize>)] = &[
        (3, 2, 1, 2, "", None),
        (3, 2, 1, 2, "010", None),
        (3, 2, 1, 2, "101", Some(0)),
        (3, 2, 1, 2, "11", None),
        (3, 2, 1, 2, "0101", Some(1)),
        (3, 2, 1, 2, "1100110", None),
        (4, 3, 2, 3, "0111", None),
        (4, 3, 2, 3, "1101", Some(0)),
        (4, 3, 2, 3, "001101", Some(2)),
        (4, 3, 2, 3, "1001", None),
        (5, 2, 1, 2, "101", Some(0)),
        (5, 2, 1, 2, "0101", Some(0)),
    ];

    #[test]
    fn judges_losses(rt: HostRuntime) -> Result<(), Fail> {
        for row in LOSSES {
            let (w, b, n, t, word, want) = *row;
            let channel = Channel::new(w, b, n, t)?;
            let flags = flags_of(rt.alloc(), word)?;
            assert_eq!(rt;
                first_bad_window(&channel, flags.as_slice()),
                want,
                "at {word}"
            );
        }
        Ok(())
    }
}
