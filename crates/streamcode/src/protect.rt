//! `protect`: a capture protected by a code.
ghost use Rattle.std.specs.Prelude.{◌≤◌};
ghost use Rattle.sc_slots.specs.declared.protect.TheConstants.{MIN_SIZE, MAX_SIZE};
ghost use Rattle.streamcode.specs.Files.{code_plan};
ghost use Rattle.streamcode.specs.Jobs.{protect_job};
ghost use Rattle.streamcode.specs.Plans.{owes, PlanEnds};

use crate::end::End;
use crate::files::fetch_code;
use sc_outside::{Cabinet, Port};
use sc_slots::protect_all;
use std::alloc::Global;

/// Protects the capture at the port by the code of this file, for RTP packets of at most this size.
pub(crate) fn protect<C: Cabinet, P: Port>(
    alloc: Global,
    name: &str,
    size: u16,
    cabinet: &mut C,
    port: &mut P,
) -> End
    requires least { MIN_SIZE ≤ size }
    requires greatest { size ≤ MAX_SIZE }
    ensures { PlanEnds P.told (code_plan name.now (λ file. owes (protect_job file size)))
        (C.told cabinet.old) (C.told cabinet.new) port.old port.new result }
{
    match fetch_code(alloc, cabinet, name) {
        Ok(file) => End::of_protect(protect_all(alloc, &file, size, port)),
        Err(end) => end,
    }
}
