//! What is proved of generated captures in the words of captures and of RTP.
ghost use Rattle.sc_trial.specs.GeneratedLaws.{GeneratedAreCaptures, GeneratedAreCounted, GeneratedAreRtp};

/// The generated capture is a capture: the standard preamble and as many records as were asked for, each of them an RTP
/// packet. It does nothing; its contract is the law.
pub fn generated_is_a_capture()
    ensures capture { GeneratedAreCaptures }
    ensures count { GeneratedAreCounted }
    ensures kind { GeneratedAreRtp }
{}
