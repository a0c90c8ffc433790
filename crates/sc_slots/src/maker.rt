//! Slots in order, each with its parity, as records behind the bytes that wait to be written.
ghost use Rattle.std.specs.Prelude.{◌≡◌, ◌+◌, ◌*◌, ◌≤◌, [], length, replicate, IfOk};
ghost use Rattle.sc_outside.specs.declared.pending.TheConstants.Pending.{ROOM};
ghost use Rattle.sc_code.specs.Encoder.{StandsFor};
ghost use Rattle.sc_slots.specs.Frame.{frame_bytes};
ghost use Rattle.sc_slots.specs.ProtectSteps.{IsMaker, PutsSlot};

use super::framing::frame;
use super::slot::{Slot, slot_head};
use sc_code::{ByteCode, Encoder};
use sc_field::Gf256;
use sc_outside::{NoMemory, Pending};
use std::alloc::Global;
use std::marker::Model;

/// The bytes of the record of a slot before its block.
const SLOT_HEAD: usize = 32;

/// What a slot says beside its block and its parity, with the offset of its record in milliseconds.
#[derive(Clone, Copy, Debug, PartialEq, Eq)]
pub(crate) struct Label {
    pub number: u32,
    pub end: u8,
    pub timestamp: u32,
    pub offset: u32,
}

/// Makes the slots of a stream, one after the other. It has room for one block and one parity.
#[derive(Drop)]
pub(crate) struct SlotMaker {
    encoder: Encoder<Gf256>,
    m: u16,
    block: Vec<u8>,
    parity: Vec<u8>,
}

impl Model for SlotMaker {
    ghost use Rattle.std.specs.Prelude.{ℕ};
    ghost use Rattle.std.specs.Coded.{coded_ℕ};
    ghost use Rattle.sc_code.specs.Encoder.{Encoder as EncoderOf, encoder_code};
    ghost use Rattle.sc_slots.specs.ProtectSteps.{IsMaker};

    ghost Value = { EncoderOf ℕ };

    ghost coded = { encoder_code coded_ℕ };

    ghost view = { λ s. s.encoder };

    ghost invariant = { λ s. IsMaker s.encoder s.m s.block.items s.parity.items };
}

/// A buffer of so many bytes.
fn zeros(alloc: Global, len: usize) -> Result<Vec<u8>, NoMemory>
    ensures { IfOk result (λ bytes. length bytes.items ≡ len) }
{
    Ok(vec![in alloc; 0; len]?)
}

/// Encodes a block as the next of a stream, and puts the record of its slot behind the bytes that wait.
fn put_slot(
    encoder: &mut Encoder<Gf256>,
    code: &ByteCode,
    m: u16,
    label: Label,
    block: &[u8],
    parity: &mut [u8],
    pending: &mut Pending,
)
    requires code { code.now ≡ encoder.old.code }
    requires maker { IsMaker encoder.old m block.now parity.old }
    requires room { length pending.old + (32 + (encoder.old.code.k + encoder.old.code.r) * m) ≤ ROOM }
    ensures { PutsSlot encoder.old encoder.new label block.now pending.old pending.new }
{
    encoder.next(code, block, parity);
    let slot = Slot {
        number: label.number,
        end: label.end,
        m,
        timestamp: label.timestamp,
        block,
        parity,
    };
    pending.push(&slot_head(label.offset, &slot, code.k(), code.r()));
    pending.push(block);
    pending.push(parity);
}

impl SlotMaker {
    /// A maker for this code, with symbols of `m` bytes. It takes all the memory that the other calls need.
    pub(crate) fn start(alloc: Global, code: &ByteCode, m: u16) -> Result<SlotMaker, NoMemory>
        requires some { 1 ≤ m }
        requires limit { 24 + (code.now.k + code.now.r) * m ≤ 65527 }
        ensures code { IfOk result (λ s. s.code ≡ code.now) }
        ensures width { IfOk result (λ s. s.width ≡ m) }
        ensures stands { IfOk result (λ s. StandsFor s []) }
    {
        let (k, width) = (code.k(), usize::from(m));
        let encoder = Encoder::start(alloc, code, width)?;
        let block = zeros(alloc, k * width)?;
        let parity = zeros(alloc, code.r() * width)?;
        Ok(SlotMaker {
            encoder,
            m,
            block,
            parity,
        })
    }

    /// The bytes of the record of a slot.
    pub(crate) fn slot_len(&self) -> usize
        ensures value { result ≡ 32 + (self.now.code.k + self.now.code.r) * self.now.width }
        ensures limit { result ≤ 65535 }
    {
        SLOT_HEAD + self.block.len() + self.parity.len()
    }

    /// Makes the slot of the frame of a packet.
    pub(crate) fn put_frame(
        &mut self,
        code: &ByteCode,
        label: Label,
        packet: &[u8],
        pending: &mut Pending,
    )
        requires code { code.now ≡ self.old.code }
        requires some { 1 ≤ length packet.now }
        requires length { length packet.now ≤ 65535 }
        requires block { 6 + length packet.now ≤ self.old.code.k * self.old.width }
        requires room { length pending.old + (32 + (self.old.code.k + self.old.code.r) * self.old.width) ≤ ROOM }
        ensures { PutsSlot self.old self.new label (frame_bytes label.offset packet.now (self.old.code.k * self.old.width)) pending.old pending.new }
    {
        frame(label.offset, packet, &mut self.block);
        put_slot(
            &mut self.encoder,
            code,
            self.m,
            label,
            &self.block,
            &mut self.parity,
            pending,
        );
    }

    /// Makes the slot of a zero block.
    pub(crate) fn put_blank(&mut self, code: &ByteCode, label: Label, pending: &mut Pending)
        requires code { code.now ≡ self.old.code }
        requires room { length pending.old + (32 + (self.old.code.k + self.old.code.r) * self.old.width) ≤ ROOM }
        ensures { PutsSlot self.old self.new label (replicate (self.old.code.k * self.old.width) 0) pending.old pending.new }
    {
        self.block.fill(0);
        put_slot(
            &mut self.encoder,
            code,
            self.m,
            label,
            &self.block,
            &mut self.parity,
            pending,
        );
    }
}
