//! `repair`: a protected capture repaired by its code.
ghost use Rattle.streamcode.specs.Files.{code_plan};
ghost use Rattle.streamcode.specs.InTime.{RepairsInTime};
ghost use Rattle.streamcode.specs.Jobs.{repair_job};
ghost use Rattle.streamcode.specs.Plans.{owes, PlanEnds};

use crate::end::End;
use crate::files::fetch_code;
use sc_outside::{Cabinet, Port};
use sc_repair::repair_all;
use std::alloc::Global;

/// Repairs the capture at the port by the code of this file.
pub(crate) fn repair<C: Cabinet, P: Port>(
    alloc: Global,
    name: &str,
    cabinet: &mut C,
    port: &mut P,
) -> End
    ensures ends { PlanEnds P.told (code_plan name.now (λ file. owes (repair_job file)))
        (C.told cabinet.old) (C.told cabinet.new) port.old port.new result }
    ensures in_time { RepairsInTime name.now (C.told cabinet.old) (P.told port.old) (P.told port.new) }
{
    match fetch_code(alloc, cabinet, name) {
        Ok(file) => End::of_repair(repair_all(alloc, &file, port)),
        Err(end) => end,
    }
}
