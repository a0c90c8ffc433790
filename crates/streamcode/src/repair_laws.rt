//! What is proved of `repair` in the words of captures, of slots and of the streams that fit them.
ghost use Rattle.streamcode.specs.RepairLaws.{CodeFileSaysWhatIsDue, RecoveredIsDue, ZeroIsNoneMissed, FiveIsSomeMissed, SixIsClash};

/// For the words of `repair`, whose file is a code file, what follows is due for that code file, whatever its code is and whatever
/// was lost. Of a capture of which nothing is refused, the preamble is due and the record of each recovered slot, which is one
/// where all streams that fit the taken slots up to its deadline have the same block: with status 0 exactly where no slot
/// below the known end is missed, and with 5 exactly where one is. Status 6 is due exactly where the first record that is
/// refused contradicts those before it. It does nothing; its contract is the law.
pub fn repair_is_repairing()
    ensures file { CodeFileSaysWhatIsDue }
    ensures recovered { RecoveredIsDue }
    ensures zero { ZeroIsNoneMissed }
    ensures five { FiveIsSomeMissed }
    ensures six { SixIsClash }
{}
