//! The kind of a record.
ghost use Rattle.std.specs.Prelude.{◌≡◌};
ghost use Rattle.sc_rtpdump.specs.Kind.{HasKind, kind};

use super::record::DumpRecord;
use sc_rtp::RtpView;

/// The kind of a record: the first of these that holds.
#[derive(Clone, Copy, Debug, PartialEq, Eq)]
pub enum Kind {
    /// A packet of the control protocol: its true length is given as 0.
    Rtcp,
    /// The body is the front of a longer packet.
    Cut,
    /// The body is longer than the packet's true length, or isn't an RTP packet.
    Strange,
    /// The body is an RTP packet (RFC 3550, 5.1).
    Rtp,
}

/// The kind of a record. It reads the header of the body and no more, and takes no memory.
#[tactic(auto, unfolding(crate::specs::Kind::kind))]
pub fn kind_of(rec: &DumpRecord) -> Kind
    ensures kind { result ≡ kind rec.now }
    ensures has { HasKind rec.now result }
{
    let plen = usize::from(rec.plen());
    let body = rec.body();
    if plen == 0 {
        return Kind::Rtcp;
    }
    if body.len() < plen {
        return Kind::Cut;
    }
    if body.len() > plen {
        return Kind::Strange;
    }
    match RtpView::read(body) {
        Ok(_) => Kind::Rtp,
        Err(_) => Kind::Strange,
    }
}
