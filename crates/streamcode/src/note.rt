//! The note at the end of a run, written into a fixed array: it takes no memory.
ghost use Rattle.std.specs.Prelude.{◌≡◌, ◌+◌, ◌≤◌, ◌++◌, length, decimal};
ghost use Rattle.streamcode.specs.End.{status_of, fault_text, role_text, key_text, file_text, text_of, note_of, IsTold};

use crate::end::{End, Role};
use arrayvec::ArrayString;
use itoa::Buffer;
use sc_codefile::{FileFault, Key};
use sc_outside::{Failed, Sink, tell_whole};
use sc_repair::Repaired;
use sc_rtpdump::{Dropped, DumpFault};
use sc_slots::Protected;

/// The room for a note, in bytes.
const ROOM: usize = 128;

/// The longest number, in bytes.
const LONGEST: usize = 20;

/// A note, or its beginning. Words and numbers are put behind it, one after the other.
#[derive(Drop)]
struct Note {
    text: ArrayString<ROOM>,
}

impl Note {
    /// The note that begins with a word.
    fn of(word: &str) -> Note
        requires { length word.now ≤ ROOM }
        ensures { result.text.bytes ≡ word.now }
    {
        let mut text = ArrayString::new();
        text.push_str(word);
        Note { text }
    }

    /// A word behind it.
    fn word(self, word: &str) -> Note
        requires { length self.text.bytes + length word.now ≤ ROOM }
        ensures { result.text.bytes ≡ self.text.bytes ++ word.now }
    {
        let Note { mut text } = self;
        text.push_str(word);
        Note { text }
    }

    /// A number behind it, in decimal.
    fn number(self, number: u64) -> Note
        requires { length self.text.bytes + LONGEST ≤ ROOM }
        ensures text { result.text.bytes ≡ self.text.bytes ++ decimal number }
        ensures short { length result.text.bytes ≤ length self.text.bytes + LONGEST }
    {
        let mut buffer = Buffer::new();
        let Note { mut text } = self;
        text.push_str(buffer.format(number));
        Note { text }
    }
}

/// The text of a fault of a capture.
fn fault_note(fault: &DumpFault) -> Note
    ensures text { result.text.bytes ≡ fault_text fault.now }
    ensures short { length result.text.bytes ≤ 100 }
{
    match fault {
        DumpFault::Preamble => Note::of("preamble"),
        DumpFault::RecordHead(i) => Note::of("record ").number((*i).into()).word(" head"),
        DumpFault::RecordLength(i) => Note::of("record ").number((*i).into()).word(" length"),
        DumpFault::Truncated(i) => Note::of("record ").number((*i).into()).word(" cut"),
        DumpFault::Read => Note::of("read fault"),
        DumpFault::Memory => Note::of("no memory"),
    }
}

/// What a file is for.
fn role_word(role: Role) -> &'static str
    ensures { result.now ≡ role_text role }
{
    match role {
        Role::Code => "code",
        Role::Certificate => "certificate",
        Role::Loss => "loss",
    }
}

/// The key at which a file is faulty.
fn key_word(key: &Key) -> &'static str
    ensures text { result.now ≡ key_text key.now }
    ensures short { length result.now ≤ 7 }
{
    match key {
        Key::Whole => "whole",
        Key::Other => "other",
        Key::Channel => "channel",
        Key::K => "k",
        Key::Lags => "lags",
        Key::R => "r",
        Key::Lost => "lost",
        Key::Period => "period",
        Key::Loss => "loss",
    }
}

/// The text of a fault of a file.
fn file_note(role: Role, fault: &FileFault) -> Note
    ensures text { result.text.bytes ≡ file_text role fault.now }
    ensures short { length result.text.bytes ≤ 100 }
{
    match fault {
        FileFault::NotJson => Note::of(role_word(role)).word(" not json"),
        FileFault::Shape(key) => Note::of(role_word(role))
            .word(" shape ")
            .word(key_word(key)),
        FileFault::Range(key) => Note::of(role_word(role))
            .word(" range ")
            .word(key_word(key)),
        FileFault::Memory => Note::of("no memory"),
    }
}

/// The text of what thinning did.
fn thinned_note(dropped: &Dropped) -> Note
    ensures text { result.text.bytes ≡ text_of (End.Thinned dropped.now) }
    ensures short { length result.text.bytes ≤ 100 }
{
    Note::of("records ")
        .number(dropped.records.into())
        .word(" lost ")
        .number(dropped.lost.into())
}

/// The text of what protecting did.
fn protected_note(done: &Protected) -> Note
    ensures text { result.text.bytes ≡ text_of (End.Protected done.now) }
    ensures short { length result.text.bytes ≤ 110 }
{
    Note::of("slots ")
        .number(done.slots.into())
        .word(" rtcp ")
        .number(done.rtcp.into())
        .word(" cut ")
        .number(done.cut.into())
        .word(" strange ")
        .number(done.strange.into())
}

/// The text of what repairing did.
fn repaired_note(totals: &Repaired) -> Note
    ensures text { result.text.bytes ≡ text_of (End.Repaired totals.now) }
    ensures short { length result.text.bytes ≤ 120 }
{
    Note::of("slots ")
        .number(totals.end.into())
        .word(" missed ")
        .number(totals.missed.into())
        .word(" strangers ")
        .number(totals.strangers.into())
        .word(" repeats ")
        .number(totals.repeats.into())
}

/// The text of a number between two words.
fn numbered(before: &str, number: u32, after: &str) -> Note
    requires { length before.now + length after.now ≤ 90 }
    ensures text { result.text.bytes ≡ before.now ++ decimal number ++ after.now }
    ensures short { length result.text.bytes ≤ 120 }
{
    Note::of(before).number(number.into()).word(after)
}

/// The text of an end.
fn end_note(end: &End) -> Note
    ensures text { result.text.bytes ≡ text_of end.now }
    ensures short { length result.text.bytes ≤ 120 }
{
    match end {
        End::Thinned(dropped) => thinned_note(dropped),
        End::Generated(records) => Note::of("records ").number((*records).into()),
        End::Protected(done) => protected_note(done),
        End::Repaired(totals) => repaired_note(totals),
        End::Bound(kept, period) => Note::of("bound ")
            .number((*kept).into())
            .word("/")
            .number((*period).into()),
        End::Designed(candidate, k, n) => Note::of("candidate ")
            .number((*candidate).into())
            .word(" rate ")
            .number((*k).into())
            .word("/")
            .number((*n).into()),
        End::CertificateRefused(residue) => {
            Note::of("certificate refused at residue ").number((*residue).into())
        }
        End::Tried(_) => Note::of("trial done"),
        End::Accepted => Note::of("accepted"),
        End::Refused => Note::of("refused"),
        End::LossRefused(window) => Note::of("loss refused at window ").number(*window as u64),
        End::Usage => Note::of("usage"),
        End::Capture(fault) => fault_note(fault),
        End::MoreRecords(flags) => Note::of("flags ")
            .number((*flags).into())
            .word(" more records"),
        End::FewerRecords(flags, records) => Note::of("flags ")
            .number((*flags).into())
            .word(" records ")
            .number((*records).into()),
        End::FileRefused(role, fault) => file_note(*role, fault),
        End::FileTooLong(role) => Note::of(role_word(*role)).word(" limit 4194305"),
        End::PacketTooWide(bytes) => Note::of("limit packet ").number((*bytes).into()),
        End::PacketTooLong(index, length) => Note::of("limit size ")
            .number((*index).into())
            .word(" ")
            .number((*length).into()),
        End::TooManyRecords => Note::of("limit records 8000001"),
        End::TooManySlots(slots) => Note::of("limit slots ").number((*slots).into()),
        End::TooManySymbols(symbols) => Note::of("limit symbols ").number((*symbols).into()),
        End::WrongCode(index) => numbered("record ", *index, " wrong code"),
        End::BadShape(index) => numbered("record ", *index, " bad shape"),
        End::OtherWidth(slot) => numbered("slot ", *slot, " other width"),
        End::OtherEnd(slot) => numbered("slot ", *slot, " other end"),
        End::BadBlock(slot) => numbered("slot ", *slot, " bad block"),
        End::Clash(slot) => numbered("slot ", *slot, " clash"),
        End::NoCode => Note::of("no code"),
        End::TooManyClasses(count) => Note::of("classes ").number(*count),
        End::ReadFault => Note::of("read fault"),
        End::WriteFault => Note::of("write fault"),
        End::NoMemory => Note::of("no memory"),
    }
}

/// Tells the note of an end, which is its text and a newline, and answers the end's status. A failed note changes nothing
/// else.
pub fn conclude<N: Sink>(notes: &mut N, end: End) -> u8
    ensures status { result ≡ status_of end }
    ensures note { IsTold (N.told notes.old) (N.told notes.new) (note_of end) }
{
    let note = end_note(&end).word("\n");
    match tell_whole(notes, note.text.as_str().as_bytes()) {
        Ok(()) => end.status(),
        Err(Failed) => end.status(),
    }
}
