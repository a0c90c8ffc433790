//! What is proved of `lose` in the format's own words.
ghost use Rattle.streamcode.specs.LoseLaws.{FilesSayWhatIsDue, ThinnedAreDue, ZeroIsThinned, OneIsRefused, PreamblesAreRefused, ReadingsAreRefused};

/// For the words of `lose`, whose files are a code file and a loss, what follows is due for the code file's channel and that loss.
/// The thinned capture is due, with status 0, exactly where the input is a capture with as many records as the loss has
/// flags, and the loss is admissible; status 1 exactly where the loss isn't. Every other input is refused with status 3 by
/// its first fault, with the records before it. It does nothing; its contract is the law.
pub fn lose_is_thinning()
    ensures files { FilesSayWhatIsDue }
    ensures thinned { ThinnedAreDue }
    ensures zero { ZeroIsThinned }
    ensures one { OneIsRefused }
    ensures preamble { PreamblesAreRefused }
    ensures refused { ReadingsAreRefused }
{}
