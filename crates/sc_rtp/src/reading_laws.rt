//! What is proved of the one reading of a packet.
ghost use Rattle.sc_rtp.specs.OneReading.{PacketsAreRead, ReadingsArePackets, RefusalsAreRead, ReadingsAreRefused, PacketsAreAlone, ReasonsAreAlone, PacketsAreAccepted};

/// Bytes have one reading, which is the one that the grammar gives: the parts of a packet, or the one reason why they are
/// none. It does nothing; its contract is the law on which `RtpView` stands.
pub fn one_reading()
    ensures packets { PacketsAreRead }
    ensures accepted { ReadingsArePackets }
    ensures refusals { RefusalsAreRead }
    ensures refused { ReadingsAreRefused }
    ensures one_packet { PacketsAreAlone }
    ensures one_reason { ReasonsAreAlone }
    ensures never_both { PacketsAreAccepted }
{}
