//! What the slots that are put out write.
ghost use Rattle.std.specs.Prelude.{◌≡◌, ◌<◌, ◌≤◌, ℕ, List, length, take};
ghost use Rattle.sc_rtpdump.specs.Record.{record_bytes};
ghost use Rattle.sc_slots.specs.Taken.{Taken};
ghost use Rattle.sc_repair.specs.Stands.{Stands};
ghost use Rattle.sc_repair.specs.Steps.{AllCounts, AllGives, Done, NextCounts, NextGives, PutsBlock, PutsMore, end_of, values_by};

use super::repairer::{MAX_SLOTS, Put, Repairer};
use sc_outside::{Failed, Pending, Port};
use sc_rtpdump::Head;
use sc_slots::{Frame, unframe};

/// The bytes of a record before its packet.
const RECORD_HEAD: usize = 8;

/// Puts the record of a whole packet behind the bytes that wait.
fn put_packet<P: Port>(
    port: &mut P,
    pending: &mut Pending,
    offset: u32,
    packet: &[u8],
) -> Result<(), Failed>
    requires limit { length packet.now ≤ 65503 }
    ensures { PutsMore (P.told port.old) (P.told port.new) (record_bytes (record { plen = length packet.now; offset = offset; body = packet.now })) pending.old pending.new result }
{
    let plen = packet.len() as u16;
    pending.make_way(port, RECORD_HEAD + packet.len(), 0)?;
    let head = Head {
        len: plen + RECORD_HEAD as u16,
        plen,
        offset,
    };
    pending.push(&head.to_bytes());
    pending.push(packet);
    Ok(())
}

/// Puts what a block writes behind the bytes that wait. False where it is neither zero nor a frame.
fn put_block<P: Port>(port: &mut P, pending: &mut Pending, block: &[u8]) -> Result<bool, Failed>
    requires limit { length block.now ≤ 65503 }
    ensures { PutsBlock (P.told port.old) (P.told port.new) block.now pending.old pending.new result }
{
    match unframe(block) {
        Ok(Frame::Blank) => Ok(true),
        Ok(Frame::Packet { offset, packet }) => {
            put_packet(port, pending, offset, packet)?;
            Ok(true)
        }
        Err(_) => Ok(false),
    }
}

/// What came of the next slot to be put out.
#[derive(Clone, Copy, Debug, PartialEq, Eq)]
enum Next {
    /// There is none.
    Ended,
    /// It was put out.
    More,
    /// Its block, that of this slot, is neither zero nor a frame.
    Bad(u32),
}

/// Puts out the next slot, if it can be. It counts the missed ones.
fn put_next<P: Port>(
    repairer: &mut Repairer,
    port: &mut P,
    pending: &mut Pending,
    missed: &mut u32,
) -> Result<Next, Failed>
    requires few { missed.old ≤ repairer.old.next }
    ensures few { missed.new ≤ repairer.new.next }
    ensures gives { (taken : List (Taken ℕ)) (text : List ℕ) → Stands repairer.old taken → repairer.old.next ≤ length (values_by repairer.old taken)
        → Done (take repairer.old.next (values_by repairer.old taken)) (end_of repairer.old taken) missed.old text
        → NextGives (values_by repairer.old taken) (end_of repairer.old taken) repairer.new.next (P.told port.old) (P.told port.new) pending.old pending.new missed.new text result }
    ensures stands { (taken : List (Taken ℕ)) → Stands repairer.old taken → Stands repairer.new taken }
    ensures counts { NextCounts repairer.old repairer.new result }
{
    match repairer.next_out() {
        None => Ok(Next::Ended),
        Some(Put::Missed(_)) => {
            *missed += 1;
            Ok(Next::More)
        }
        Some(Put::Block(slot)) => {
            if put_block(port, pending, repairer.block())? {
                Ok(Next::More)
            } else {
                Ok(Next::Bad(slot))
            }
        }
    }
}

/// Puts out all slots that can be. It counts the missed ones, and answers the slot of the first block that is neither zero
/// nor a frame.
pub(crate) fn put_all<P: Port>(
    repairer: &mut Repairer,
    port: &mut P,
    pending: &mut Pending,
    missed: &mut u32,
) -> Result<Option<u32>, Failed>
    requires few { missed.old ≤ repairer.old.next }
    ensures few { missed.new ≤ repairer.new.next }
    ensures gives { (taken : List (Taken ℕ)) (text : List ℕ) → Stands repairer.old taken → repairer.old.next ≤ length (values_by repairer.old taken)
        → Done (take repairer.old.next (values_by repairer.old taken)) (end_of repairer.old taken) missed.old text
        → AllGives (values_by repairer.old taken) (end_of repairer.old taken) (P.told port.old) (P.told port.new) pending.old pending.new missed.new text result }
    ensures stands { (taken : List (Taken ℕ)) → Stands repairer.old taken → Stands repairer.new taken }
    ensures counts { AllCounts repairer.old repairer.new result }
{
    for _turn in 0..=MAX_SLOTS {
        match put_next(repairer, port, pending, missed)? {
            Next::Ended => return Ok(None),
            Next::More => {}
            Next::Bad(slot) => return Ok(Some(slot)),
        }
    }
    Ok(None)
}
