//! What is proved of the one reading of blocks and of protected packets.
ghost use Rattle.sc_slots.specs.Laws.{BlocksAreReadOnce, FramesAreReadBack, RecordsAreReadOnce, SlotsAreReadBack, WellShapedAreReadBack, ReadAreWellShaped};

/// A block has one reading, and a frame is read as its offset and its packet. It does nothing; its contract is the law.
pub fn one_frame()
    ensures once { BlocksAreReadOnce }
    ensures back { FramesAreReadBack }
{}

/// A record has one reading. A slot that was written and is read with the same `k` and `r` is the slot where no case of a
/// bad shape holds of it, and what is read as a slot is the record of that slot. It does nothing; its contract is the law.
pub fn one_slot()
    ensures once { RecordsAreReadOnce }
    ensures back { SlotsAreReadBack }
    ensures well_shaped { WellShapedAreReadBack }
    ensures read { ReadAreWellShaped }
{}
