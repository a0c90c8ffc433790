//! What is proved of repairing.
ghost use Rattle.std.specs.Prelude.{ℕ, List};
ghost use Rattle.sc_outside.specs.Ends.{IsJob};
ghost use Rattle.sc_code.specs.declared.code.CodeFile.{CodeFile as CodeFileOf};
ghost use Rattle.sc_repair.specs.Repairing.{repairing};
ghost use Rattle.sc_repair.specs.RepairLaws.{IsOfInput};
ghost use Rattle.sc_repair.specs.Restoration.{ProtectedIsCapture, ArrivedIsThinned, EachComesBackOrIsMissed, MissedAreNotRecovered, RtpPartComesBack, RecordsComeInTime, FirstSlotsComeFirst, PromptRunsAreTimely};

/// What repairing gives grows with what it has read: what is due for some bytes is a prefix of what is due for all that go
/// on with them, and so is the preamble. What the input decides is none of the answers of the outside. It does nothing; its
/// contract is the law.
pub fn repairing_is_a_job()
    ensures grows { (file : CodeFileOf) → IsJob (repairing file) }
    ensures decided { (file : CodeFileOf) (input : List ℕ) → IsOfInput ((repairing file).whole input).answer }
{}

/// Of a capture that was protected by any code, whatever slots the channel lost, source and flush slots alike, each RTP record
/// comes back, byte for byte, or is missed: no record is refused, strange or a repeat, and no other byte is given. Those that
/// are missed are exactly those whose slots aren't recovered. Nothing is asked of what the code can do. It does nothing; its
/// contract is the law.
pub fn each_record_comes_back_or_is_missed()
    ensures due { EachComesBackOrIsMissed }
    ensures missed { MissedAreNotRecovered }
    ensures arrived { ArrivedIsThinned }
{}

/// Of a capture that was protected by a code that meets its channel, the RTP part comes back, byte for byte, whatever slots
/// the channel lost, source and flush slots alike: no slot is missed, and no record is refused, strange or a repeat. And each
/// record comes in time: that of slot `t` is due before a byte is read of the first record with a slot number above `t` plus
/// the deadline, so a run that is prompt has written it by then. It does nothing; its contract is the law.
pub fn protected_captures_come_back()
    ensures capture { ProtectedIsCapture }
    ensures arrived { ArrivedIsThinned }
    ensures restored { RtpPartComesBack }
    ensures timely { RecordsComeInTime }
    ensures fronts { FirstSlotsComeFirst }
    ensures runs { PromptRunsAreTimely }
{}
