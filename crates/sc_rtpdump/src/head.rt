//! The eight bytes before a record's body.
ghost use Rattle.std.specs.Prelude.{◌≡◌};
ghost use Rattle.sc_rtpdump.specs.Record.{head_bytes};
ghost use Rattle.sc_rtpdump.specs.Head.{HeadGives, IsHead};

use super::fault::DumpFault;
use sc_outside::{Port, read_exact_or_end};

/// The bytes of a record before its body.
pub const HEAD: usize = 8;

/// What stands before a record's body: the length of the record in bytes, the packet's true length and the offset.
#[derive(Clone, Copy, Debug, PartialEq, Eq)]
pub struct Head {
    pub len: u16,
    pub plen: u16,
    pub offset: u32,
}

impl Head {
    /// The head of a record with nothing in it.
    pub const EMPTY: Head = Head {
        len: 8,
        plen: 0,
        offset: 0,
    };

    /// The head that eight bytes spell.
    pub fn from_bytes(bytes: &[u8; HEAD]) -> Head
        ensures spelled { bytes.now ≡ head_bytes result.len result.plen result.offset }
        ensures fits { IsHead result }
    {
        Head {
            len: u16::from_be_bytes([bytes[0], bytes[1]]),
            plen: u16::from_be_bytes([bytes[2], bytes[3]]),
            offset: u32::from_be_bytes([bytes[4], bytes[5], bytes[6], bytes[7]]),
        }
    }

    /// How it is spelled, in big-endian numbers.
    pub fn to_bytes(self) -> [u8; HEAD]
        ensures { result ≡ head_bytes self.len self.plen self.offset }
    {
        let len = self.len.to_be_bytes();
        let plen = self.plen.to_be_bytes();
        let offset = self.offset.to_be_bytes();
        [
            len[0], len[1], plen[0], plen[1], offset[0], offset[1], offset[2], offset[3],
        ]
    }
}

/// Reads the head of the record of this number. `None` at the end of the input.
pub fn read_head<P: Port>(port: &mut P, index: u32) -> Result<Option<Head>, DumpFault>
    ensures { HeadGives index (P.told port.old) (P.told port.new) result }
{
    let mut bytes = [0; HEAD];
    match read_exact_or_end(port, &mut bytes) {
        Ok(0) => Ok(None),
        Ok(HEAD) => {
            let head = Head::from_bytes(&bytes);
            if head.len < 8 {
                return Err(DumpFault::RecordLength(index));
            }
            Ok(Some(head))
        }
        Ok(_) => Err(DumpFault::RecordHead(index)),
        Err(_) => Err(DumpFault::Read),
    }
}
