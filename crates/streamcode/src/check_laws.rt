//! What is proved of `check`, `certify` and `design` in the words of codes.
ghost use Rattle.streamcode.specs.CheckLaws.{ZeroIsMeeting, MeetingIsPrinted, OneIsRefuted, RefutationIsPrinted, ManyAreRefused};
ghost use Rattle.streamcode.specs.CertifyLaws.{ZeroIsAccepted, BoundIsPrinted, AcceptedBoundsRates, NeverAbove, ResidueIsTold};
ghost use Rattle.streamcode.specs.DesignLaws.{ZeroGivesFirst, FirstIsGiven, TenIsNoCode, FourIsTooWide, ElevenIsTooMany};

/// `check` accepts a code file, with status 0, exactly where every block is determined by its deadline under every admissible
/// loss. Else it ends with 1 and prints the least refutation: an admissible loss and two streams that are alike in what
/// arrives. A channel with more than 1,000,000 classes is refused. It does nothing; its contract is the law.
pub fn check_is_meeting()
    ensures zero { ZeroIsMeeting }
    ensures accepted { MeetingIsPrinted }
    ensures one { OneIsRefuted }
    ensures refuted { RefutationIsPrinted }
    ensures many { ManyAreRefused }
{}

/// `certify` accepts a certificate, with status 0, exactly where the channel of the code file does, and prints its bound. Then
/// the bound holds of the rate of every causal code for the channel, and a code that meets the channel is never above it. Else
/// it ends with 1 and tells the first bad residue. It does nothing; its contract is the law.
pub fn certify_is_bounding()
    ensures zero { ZeroIsAccepted }
    ensures printed { BoundIsPrinted }
    ensures bounds { AcceptedBoundsRates }
    ensures never_above { NeverAbove }
    ensures refused { ResidueIsTold }
{}

/// `design` gives a code file, with status 0, exactly where some candidate of the kind meets the channel: that of the first which
/// does, and `check` accepts it. Status 10 is due exactly where the kind is for one loss anywhere and the channel isn't, or where
/// every candidate fails; 4 exactly where the candidates have too many symbols, and 11 where the channel has too many classes.
/// It does nothing; its contract is the law.
pub fn design_is_first_good()
    ensures zero { ZeroGivesFirst }
    ensures first { FirstIsGiven }
    ensures none { TenIsNoCode }
    ensures wide { FourIsTooWide }
    ensures many { ElevenIsTooMany }
{}
