//! Giving a text that is whole.
ghost use Rattle.sc_outside.specs.Ends.{Ends};
ghost use Rattle.streamcode.specs.Jobs.{giving};

use crate::end::End;
use sc_outside::{Failed, Port, write_whole};

/// Gives a text that is whole. The run ends as it says, or at a failed write.
pub(crate) fn give<P: Port>(port: &mut P, text: &[u8], end: End) -> End
    ensures { Ends (giving end text.now) (P.told port.old) (P.told port.new) result }
{
    match write_whole(port, text) {
        Ok(()) => end,
        Err(Failed) => End::WriteFault,
    }
}
