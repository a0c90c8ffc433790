//! Whether a channel accepts a certificate.

ghost use Rattle.std.specs.Prelude.{◌≡◌, ◌↔◌, ◌+◌, ◌<◌, IsNone, IsTrue, MatchOption, take};
ghost use Rattle.sc_channel.specs.Certificate.{IsAccepted, is_lost, stretch};
ghost use Rattle.sc_channel.specs.Loss.{IsAdmissible};
ghost use Rattle.sc_rate.specs.Residue.{IsFirstBadResidue, bad_residue};

use sc_channel::{Certificate, Channel, MAX_DEADLINE, first_bad_window};

/// The most flags from a slot to its deadline.
const MAX_STRETCH: usize = MAX_DEADLINE as usize + 1;

/// The least residue from which the flags up to the deadline, as many as the channel's `t` and one more, aren't admissible,
/// and `None` exactly where the channel accepts the certificate. It takes no memory.
pub fn first_bad_residue(cert: &Certificate, channel: &Channel) -> Option<u32>
    ensures value { result ≡ bad_residue channel.now cert.now }
    ensures answer { MatchOption result (IsAccepted channel.now cert.now) (IsFirstBadResidue channel.now cert.now) }
    ensures accepted { IsNone result ↔ IsAccepted channel.now cert.now }
{
    let period = cert.period();
    for residue in 0..period {
        if !admits_stretch(channel, cert, residue) {
            return Some(residue);
        }
    }
    None
}

/// Whether the flags from a residue to its deadline are admissible.
fn admits_stretch(channel: &Channel, cert: &Certificate, residue: u32) -> bool
    requires { residue < 4096 }
    ensures { IsTrue result ↔ IsAdmissible channel.now (stretch channel.now cert.now residue) }
{
    let flags = stretch_of(channel, cert, residue);
    let count = channel.t() as usize + 1;
    first_bad_window(channel, &flags[..count]).is_none()
}

/// The flags from a residue to its deadline, and behind them unset ones.
fn stretch_of(channel: &Channel, cert: &Certificate, residue: u32) -> [bool; MAX_STRETCH]
    requires { residue < 4096 }
    ensures { take (channel.now.t + 1) result ≡ stretch channel.now cert.now residue }
{
    let mut flags = [false; MAX_STRETCH];
    for i in 0..channel.t() + 1 {
        flags[i as usize] = is_lost(cert, residue + i);
    }
    flags
}

/// Whether the periodic loss loses a slot.
fn is_lost(cert: &Certificate, slot: u32) -> bool
    ensures { result ≡ is_lost cert.now slot }
{
    let residue = slot % cert.period();
    cert.lost().binary_search(&residue).is_ok()
}
