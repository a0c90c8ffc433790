//! `gen`: a generated capture.
ghost use Rattle.std.specs.Prelude.{◌≤◌};
ghost use Rattle.sc_outside.specs.Ends.{Ends};
ghost use Rattle.sc_trial.specs.declared.capture.TheConstants.{MAX_COUNT, MIN_SIZE, MAX_SIZE};
ghost use Rattle.streamcode.specs.Jobs.{gen_job};

use crate::end::End;
use sc_outside::Port;
use sc_trial::{GenFault, gen_capture};
use std::alloc::Global;

/// Writes the generated capture of a seed, of so many records and of packets of this size.
pub(crate) fn generate<P: Port>(
    alloc: Global,
    seed: u64,
    count: u32,
    size: u16,
    port: &mut P,
) -> End
    requires count { count ≤ MAX_COUNT }
    requires least { MIN_SIZE ≤ size }
    requires greatest { size ≤ MAX_SIZE }
    ensures { Ends (gen_job seed count size) (P.told port.old) (P.told port.new) result }
{
    match gen_capture(alloc, seed, count, size, port) {
        Ok(()) => End::Generated(count),
        Err(GenFault::Write) => End::WriteFault,
        Err(GenFault::Memory) => End::NoMemory,
    }
}
