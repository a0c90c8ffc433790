//! What is proved of `trial` in the words of slots and of the streams that fit them.
ghost use Rattle.streamcode.specs.TrialLaws.{WordsSayWhatIsTried, NumbersAreDue, ZeroIsAllRecovered, FiveIsSomeMissed, FourIsTooWide, WideIsTold};

/// For the words of `trial`, whose file is a code file, what follows is due for that code file, whatever its code is and whatever
/// the input is. Where a protected packet fits into a record, the line of a trial's numbers is due: all slots, those that the
/// generated loss takes, the packets whose slot is recovered from the others, which is one where all streams that fit the taken
/// slots up to its deadline have the same block, and the packets that are missed. Status 0 is due exactly where each
/// packet's slot is recovered, 5 exactly where one isn't, and 4 exactly where a protected packet is too wide. It does
/// nothing; its contract is the law.
pub fn trial_is_counting()
    ensures words { WordsSayWhatIsTried }
    ensures numbers { NumbersAreDue }
    ensures zero { ZeroIsAllRecovered }
    ensures five { FiveIsSomeMissed }
    ensures four { FourIsTooWide }
    ensures wide { WideIsTold }
{}
