//! What is proved of the one reading of bytes.
ghost use Rattle.sc_rtpdump.specs.OneReading.{CapturesAreRead, ReadingsAreThere, ReadingsAreAlone, NoneIsExact, FrontIsExact};

/// Bytes have one reading, which is the one that the grammar gives: a preamble, whole records, and what begins with no
/// record. It does nothing; its contract is the law on which reading and thinning a capture stand.
pub fn one_reading()
    ensures capture { CapturesAreRead }
    ensures sound { ReadingsAreThere }
    ensures alone { ReadingsAreAlone }
    ensures none { NoneIsExact }
    ensures front { FrontIsExact }
{}
