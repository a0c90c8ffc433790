//! The repairer: it takes slots and passes lost ones in order, and gives out each block as soon as it is determined.
ghost use Rattle.std.specs.Prelude.{◌≡◌, ◌≢◌, ◌↔◌, ◌+◌, ◌-◌, ◌*◌, ◌<◌, ◌≤◌, ◌∷◌, ◌++◌, [], ℕ, List, Ok, Err, None, true, false, Bool, length, min, if◌then◌else◌, nat_eq, IfOk, max, All};
ghost use Rattle.sc_field.specs.Gf256.{gf256_product};
ghost use Rattle.sc_matrix.specs.Module.{IsByte};
ghost use Rattle.sc_echelon.specs.Knowledge.{IsSolution};
ghost use Rattle.sc_code.specs.Code.{Code as CodeOf, IsCode};
ghost use Rattle.sc_repair.specs.Equations.{LearnsSlot, RefusesSlot};
ghost use Rattle.sc_slots.specs.Answers.{slot_in};
ghost use Rattle.sc_slots.specs.Taken.{Taken, taken_slot, known_end, HasFittingEnd};
ghost use Rattle.sc_slots.specs.Repair.{IsClash};
ghost use Rattle.sc_slots.specs.History.{next_front};
ghost use Rattle.sc_repair.specs.Repairer.{FitsEnd, IsSound, places_for};
ghost use Rattle.sc_repair.specs.Repairer.{Repairer as Kept};
ghost use Rattle.sc_repair.specs.Stands.{IsLeft, IsNext, OutCounts, Stands};
ghost use Rattle.sc_repair.specs.Takes.{TakeCounts, Takes};
ghost use Rattle.sc_repair.specs.Fit.{FitGives, end_so_far};

use super::columns::Columns;
use super::equations::{find_left, learn_own, learn_slot, read_block, sums_of};
use super::sum::ParitySum;
use sc_code::ByteCode;
use sc_field::{Field, Gf256};
use sc_outside::NoMemory;
use sc_slots::Slot;
use std::alloc::Global;
use std::marker::Model;

/// The most slots of a protected capture.
pub const MAX_SLOTS: u32 = 4_000_000;

/// What is known of the number of source slots.
#[derive(Clone, Copy, Debug, PartialEq, Eq)]
pub enum EndState {
    /// None is claimed: it is at least one more than the greatest source slot taken, or 0.
    Least(u32),
    /// A flush slot claimed this number.
    Known(u32),
}

/// Why a slot doesn't fit the slots taken before it.
#[derive(Clone, Copy, Debug, PartialEq, Eq)]
pub enum Unfit {
    /// Its symbols have another number of bytes.
    OtherWidth {
        /// The slot's number.
        slot: u32,
        /// The bytes of the symbols before it.
        was: u16,
        /// Those of its own.
        now: u16,
    },
    /// It is a source slot after a claim, or it claims another end than one before it, or one that a source slot has passed.
    OtherEnd {
        /// The slot's number.
        slot: u32,
        /// The end before it.
        was: EndState,
        /// Its end byte.
        now: u8,
    },
}

/// Why a slot isn't taken.
#[derive(Clone, Copy, Debug, PartialEq, Eq)]
pub enum TakeFault {
    /// No stream has both this slot and those taken before it.
    Clash(u32),
}

/// A slot that is put out, with its number.
#[derive(Clone, Copy, Debug, PartialEq, Eq)]
pub enum Put {
    /// Its block is determined: [`Repairer::block`] has it.
    Block(u32),
    /// Its deadline is over, and its block isn't determined.
    Missed(u32),
}

/// Takes the slots of a protected stream that arrived, in order, and gives out each block once it is determined.
///
/// It knows what the taken slots say of the last blocks, as many as a parity or the deadline reaches back and one more. A
/// slot is given up only once it has been put out and no later parity reaches it, so nothing that counts is lost. `start`
/// reserves all memory, and no other call takes any.
#[derive(Drop)]
pub struct Repairer {
    k: usize,
    r: usize,
    memory: usize,
    deadline: u32,
    m: u16,
    places: usize,
    front: u32,
    passed: u32,
    next: u32,
    // One above the last taken slot, or 0.
    past: u32,
    claimed: bool,
    // The end that is claimed, or else one above the greatest source slot taken, or 0.
    end: u32,
    finished: bool,
    known: Columns,
    // The code of `start`, and the sum of each of its parity symbols.
    own: ByteCode,
    sums: Vec<ParitySum>,
    // Room for the coefficients of one equation, and for one block.
    row: Vec<Gf256>,
    block: Vec<u8>,
}

impl Model for Repairer {
    ghost use Rattle.sc_repair.specs.Repairer.{Repairer as Kept, repairer_code, kept_by, IsRoomy};

    ghost Value = { Kept };

    ghost coded = { repairer_code };

    ghost view = { λ s. kept_by s.k s.r s.memory s.deadline s.m s.front s.passed s.next s.past s.end s.claimed s.finished s.known s.block.items s.own };

    ghost invariant = { λ s. IsRoomy (kept_by s.k s.r s.memory s.deadline s.m s.front s.passed s.next s.past s.end s.claimed s.finished s.known s.block.items s.own) s.places s.row.items s.sums.items };
}

impl Repairer {
    /// A repairer for codes with the `k`, `r` and greatest lag of this one, and symbols of `m` bytes. Nothing is passed.
    ///
    /// It reserves all that it will need: the most is a square of 4,095 coefficients.
    pub fn start(
        alloc: Global,
        code: &ByteCode,
        deadline: u32,
        m: u16,
    ) -> Result<Repairer, NoMemory>
        requires deadline { deadline ≤ 40 }
        requires some { 1 ≤ m }
        requires small { code.now.k * m ≤ 65503 }
        ensures stands { IfOk result (λ s. Stands s []) }
        ensures code { IfOk result (λ s. (s.k ≡ code.now.k) × (s.r ≡ code.now.r) × (s.memory + 1 ≡ length code.now.lags)) }
        ensures numbers { IfOk result (λ s. (s.deadline ≡ deadline) × (s.m ≡ m) × (s.passed ≡ 0) × (s.next ≡ 0) × (s.finished ≡ false)) }
    {
        Repairer::start_by(alloc, code, deadline, m)
    }

    // The same. It keeps the code.
    pub(crate) fn start_by(
        alloc: Global,
        code: &ByteCode,
        deadline: u32,
        m: u16,
    ) -> Result<Repairer, NoMemory>
        requires deadline { deadline ≤ 40 }
        requires some { 1 ≤ m }
        requires small { code.now.k * m ≤ 65503 }
        ensures stands { IfOk result (λ s. Stands s []) }
        ensures code { IfOk result (λ s. (s.k ≡ code.now.k) × (s.r ≡ code.now.r) × (s.memory + 1 ≡ length code.now.lags)) }
        ensures numbers { IfOk result (λ s. (s.deadline ≡ deadline) × (s.m ≡ m) × (s.passed ≡ 0) × (s.next ≡ 0) × (s.finished ≡ false)) }
        ensures own { IfOk result (λ s. s.own ≡ code.now) }
    {
        let k = code.k();
        let memory = code.memory();
        let places = memory.max(deadline as usize) + 1;
        let width = usize::from(m);
        let known = Columns::start(alloc, places * k, width)?;
        let own = code.copy(alloc)?;
        let sums = sums_of(alloc, code, width)?;
        let row = vec![in alloc; Gf256::zero(); places * k]?;
        let block = vec![in alloc; 0; k * width]?;
        Ok(Repairer {
            k,
            r: code.r(),
            memory,
            deadline,
            m,
            places,
            front: 0,
            passed: 0,
            next: 0,
            past: 0,
            claimed: false,
            end: 0,
            finished: false,
            known,
            own,
            sums,
            row,
            block,
        })
    }

    /// How many slots are passed: all slots below this number were taken or are lost.
    pub fn passed(&self) -> u32
        ensures number { result ≡ self.now.passed }
        ensures limit { result ≤ MAX_SLOTS }
    {
        self.passed
    }

    /// Whether a slot fits the slots taken before it, which says nothing of its block and its parity. `OtherWidth` comes
    /// first, exactly where its symbols have another number of bytes; `OtherEnd` exactly where its end byte doesn't fit the
    /// end so far.
    pub fn fits(&self, slot: &Slot<'_>) -> Result<(), Unfit>
        requires number { slot.now.number < MAX_SLOTS }
        requires end { slot.now.end ≤ slot.now.number + 1 }
        ensures answer { FitGives self.now (slot_in slot.now) result }
        ensures fitting { (taken : List (Taken ℕ)) (code : CodeOf ℕ) → Stands self.now taken
            → FitsEnd self.now.is_claimed self.now.end slot.now.number slot.now.end ↔ HasFittingEnd taken (taken_slot code (slot_in slot.now)) }
    {
        if slot.m != self.m {
            return Err(Unfit::OtherWidth {
                slot: slot.number,
                was: self.m,
                now: slot.m,
            });
        }
        if !fits_end(self.claimed, self.end, slot.number, slot.end) {
            return Err(Unfit::OtherEnd {
                slot: slot.number,
                was: end_state(self.claimed, self.end),
                now: slot.end,
            });
        }
        Ok(())
    }

    // Gives up the places that no later slot needs, and makes as many free ones behind.
    fn give_up(&mut self)
        requires goes_on { self.old.finished ≡ false }
        requires in_time { self.old.passed ≤ self.old.next + self.old.deadline }
        ensures stands { (taken : List (Taken ℕ)) → Stands self.old taken → Stands self.new taken }
        ensures front { self.new.front ≡ next_front self.old.memory self.old.passed self.old.next }
        ensures room { self.new.passed < self.new.front + places_for self.new.memory self.new.deadline }
        ensures same { self.new ≡ record self.old { front = self.new.front; known = self.new.known } }
        ensures sound { IsSound self.new }
    {
        let reached = self.passed.saturating_sub(self.memory as u32);
        let first = self.next.min(reached);
        let count = (first - self.front) as usize;
        self.known.forget_front(count * self.k);
        self.front = first;
    }

    /// The slot with the number `passed` is lost.
    ///
    /// It takes no memory. Where as many slots in a row are lost as have a place, it works on no row.
    pub fn pass_lost(&mut self)
        requires goes_on { self.old.finished ≡ false }
        requires in_time { self.old.passed ≤ self.old.next + self.old.deadline }
        requires limit { self.old.passed < MAX_SLOTS }
        ensures stands { (taken : List (Taken ℕ)) → Stands self.old taken → Stands self.new taken }
        ensures passed { self.new.passed ≡ self.old.passed + 1 }
        ensures same { self.new ≡ record self.old { front = self.new.front; passed = self.new.passed; known = self.new.known } }
    {
        self.give_up();
        self.passed += 1;
    }

    // Adds the equations of a slot at the place behind the passed ones. False where no stream that is left has it.
    fn learn(&mut self, phase: &ByteCode, block: &[u8], parity: &[u8]) -> bool
        requires room { self.old.passed < self.old.front + places_for self.old.memory self.old.deadline }
        requires symbols { phase.now.k ≡ self.old.k }
        requires parities { phase.now.r ≡ self.old.r }
        requires block { length block.now ≡ self.old.k * self.old.m }
        requires parity { length parity.now ≡ self.old.r * self.old.m }
        ensures code { IsCode (λ x. x < 256) phase.now }
        ensures block_bytes { All IsByte block.now }
        ensures parity_bytes { All IsByte parity.now }
        ensures taken { result ≡ true → LearnsSlot self.old.known self.new.known phase.now self.old.m (places_for self.old.memory self.old.deadline) (self.old.passed - self.old.front) block.now parity.now }
        ensures refused { result ≡ false → RefusesSlot self.old.known phase.now self.old.m (places_for self.old.memory self.old.deadline) (self.old.passed - self.old.front) block.now parity.now }
        ensures solvable { (symbols : List (List ℕ)) × IsSolution gf256_product self.new.known symbols }
        ensures same { self.new ≡ record self.old { known = self.new.known } }
        ensures sound { IsSound self.new }
    {
        let (k, m) = (phase.k(), usize::from(self.m));
        let place = (self.passed - self.front) as usize;
        let row = self.row.as_mut_slice();
        let fits = learn_slot(
            &mut self.known,
            row,
            phase,
            m,
            self.places,
            place,
            block,
            parity,
        );
        fits
    }

    // The same, by the code of `start`.
    fn learn_own(&mut self, code: &ByteCode, block: &[u8], parity: &[u8]) -> bool
        requires own { self.old.own ≡ code.now }
        requires room { self.old.passed < self.old.front + places_for self.old.memory self.old.deadline }
        requires symbols { code.now.k ≡ self.old.k }
        requires parities { code.now.r ≡ self.old.r }
        requires block { length block.now ≡ self.old.k * self.old.m }
        requires parity { length parity.now ≡ self.old.r * self.old.m }
        ensures code { IsCode (λ x. x < 256) code.now }
        ensures block_bytes { All IsByte block.now }
        ensures parity_bytes { All IsByte parity.now }
        ensures taken { result ≡ true → LearnsSlot self.old.known self.new.known code.now self.old.m (places_for self.old.memory self.old.deadline) (self.old.passed - self.old.front) block.now parity.now }
        ensures refused { result ≡ false → RefusesSlot self.old.known code.now self.old.m (places_for self.old.memory self.old.deadline) (self.old.passed - self.old.front) block.now parity.now }
        ensures solvable { (symbols : List (List ℕ)) × IsSolution gf256_product self.new.known symbols }
        ensures same { self.new ≡ record self.old { known = self.new.known } }
        ensures sound { IsSound self.new }
    {
        let (k, m) = (code.k(), usize::from(self.m));
        let place = (self.passed - self.front) as usize;
        let row = self.row.as_mut_slice();
        let fits = learn_own(
            &mut self.known,
            row,
            code,
            self.sums.as_slice(),
            m,
            self.places,
            place,
            block,
            parity,
        );
        fits
    }

    // Notes that slot `number` was taken, with this end byte.
    fn note_taken(&mut self, number: u32, end: u8)
        requires number { number ≡ self.old.passed }
        requires limit { self.old.passed < MAX_SLOTS }
        requires in_time { self.old.passed ≤ self.old.next + self.old.deadline }
        requires room { self.old.passed < self.old.front + places_for self.old.memory self.old.deadline }
        requires end { end ≤ number + 1 }
        ensures passed { self.new.passed ≡ self.old.passed + 1 }
        ensures past { self.new.past ≡ self.old.passed + 1 }
        ensures source { end ≡ 0 → (self.new.end ≡ number + 1) × (self.new.is_claimed ≡ self.old.is_claimed) }
        ensures flush { 0 < end → (self.new.end ≡ number + 1 - end) × (self.new.is_claimed ≡ true) }
        ensures same { self.new ≡ record self.old { passed = self.new.passed; past = self.new.past; end = self.new.end; is_claimed = self.new.is_claimed } }
    {
        let above = number + 1;
        self.passed = above;
        self.past = above;
        self.end = above - u32::from(end);
        if end != 0 {
            self.claimed = true;
        }
    }

    /// Takes the slot with the number `passed`, whose parity is by the code of `start`: as `take_with`.
    pub fn take(&mut self, code: &ByteCode, slot: &Slot<'_>) -> Result<(), TakeFault>
        requires goes_on { self.old.finished ≡ false }
        requires in_time { self.old.passed ≤ self.old.next + self.old.deadline }
        requires limit { self.old.passed < MAX_SLOTS }
        requires number { slot.now.number ≡ self.old.passed }
        requires end { slot.now.end ≤ slot.now.number + 1 }
        requires fits { FitsEnd self.old.is_claimed self.old.end slot.now.number slot.now.end }
        requires width { slot.now.m ≡ self.old.m }
        requires symbols { code.now.k ≡ self.old.k }
        requires parities { code.now.r ≡ self.old.r }
        requires lags { length code.now.lags ≡ self.old.memory + 1 }
        requires block { length slot.now.block.now ≡ self.old.k * self.old.m }
        requires parity { length slot.now.parity.now ≡ self.old.r * self.old.m }
        ensures takes { (taken : List (Taken ℕ)) → Stands self.old taken → Takes self.old self.new taken (taken_slot code.now (slot_in slot.now)) result }
        ensures counts { TakeCounts self.old self.new result }
    {
        self.take_with(code, slot)
    }

    // The same, where the code is known to be that of `start`. Its coefficients were prepared then.
    pub(crate) fn take_own(&mut self, code: &ByteCode, slot: &Slot<'_>) -> Result<(), TakeFault>
        requires own { self.old.own ≡ code.now }
        requires goes_on { self.old.finished ≡ false }
        requires in_time { self.old.passed ≤ self.old.next + self.old.deadline }
        requires limit { self.old.passed < MAX_SLOTS }
        requires number { slot.now.number ≡ self.old.passed }
        requires end { slot.now.end ≤ slot.now.number + 1 }
        requires fits { FitsEnd self.old.is_claimed self.old.end slot.now.number slot.now.end }
        requires width { slot.now.m ≡ self.old.m }
        requires symbols { code.now.k ≡ self.old.k }
        requires parities { code.now.r ≡ self.old.r }
        requires lags { length code.now.lags ≡ self.old.memory + 1 }
        requires block { length slot.now.block.now ≡ self.old.k * self.old.m }
        requires parity { length slot.now.parity.now ≡ self.old.r * self.old.m }
        ensures takes { (taken : List (Taken ℕ)) → Stands self.old taken → Takes self.old self.new taken (taken_slot code.now (slot_in slot.now)) result }
        ensures counts { TakeCounts self.old self.new result }
    {
        self.give_up();
        if !self.learn_own(code, slot.block, slot.parity) {
            return Err(TakeFault::Clash(slot.number));
        }
        self.note_taken(slot.number, slot.end);
        Ok(())
    }

    /// Takes the slot with the number `passed`, whose parity is by this code, which has the `k` and `r` of the code of
    /// `start` and at most its memory.
    ///
    /// `Clash` comes exactly where no stream has this slot and all taken ones. Then it isn't taken, and the repairer stands
    /// for nothing any more. It takes no memory.
    pub fn take_with(&mut self, phase: &ByteCode, slot: &Slot<'_>) -> Result<(), TakeFault>
        requires goes_on { self.old.finished ≡ false }
        requires in_time { self.old.passed ≤ self.old.next + self.old.deadline }
        requires limit { self.old.passed < MAX_SLOTS }
        requires number { slot.now.number ≡ self.old.passed }
        requires end { slot.now.end ≤ slot.now.number + 1 }
        requires fits { FitsEnd self.old.is_claimed self.old.end slot.now.number slot.now.end }
        requires width { slot.now.m ≡ self.old.m }
        requires symbols { phase.now.k ≡ self.old.k }
        requires parities { phase.now.r ≡ self.old.r }
        requires lags { length phase.now.lags ≤ self.old.memory + 1 }
        requires block { length slot.now.block.now ≡ self.old.k * self.old.m }
        requires parity { length slot.now.parity.now ≡ self.old.r * self.old.m }
        ensures takes { (taken : List (Taken ℕ)) → Stands self.old taken → Takes self.old self.new taken (taken_slot phase.now (slot_in slot.now)) result }
        ensures counts { TakeCounts self.old self.new result }
    {
        self.give_up();
        if !self.learn(phase, slot.block, slot.parity) {
            return Err(TakeFault::Clash(slot.number));
        }
        self.note_taken(slot.number, slot.end);
        Ok(())
    }

    /// The next slot to be put out, in rising order.
    ///
    /// While the input goes on, it comes once it is settled: as a block as soon as all streams that fit have the same, and
    /// as missed once its deadline is over without that. `None` comes exactly where it isn't settled. After `finish` the
    /// slots up to the last taken one are left: each comes whose block is recovered, and as missed each other one below the
    /// known end. It takes no memory.
    pub fn next_out(&mut self) -> Option<Put>
        ensures next { self.old.finished ≡ false → (taken : List (Taken ℕ)) → Stands self.old taken → IsNext self.old taken self.new.block result }
        ensures left { self.old.finished ≡ true → (taken : List (Taken ℕ)) → Stands self.old taken → IsLeft self.old taken self.new.block result }
        ensures stands { (taken : List (Taken ℕ)) → Stands self.old taken → Stands self.new taken }
        ensures counts { OutCounts self.old self.new result }
        ensures sound { IsSound self.new }
    {
        if self.finished {
            return self.next_left();
        }
        self.next_settled()
    }

    /// The block that was put out last, of `k * m` bytes.
    pub fn block(&self) -> &[u8]
        ensures bytes { result.now ≡ self.now.block }
        ensures count { length result.now ≡ self.now.k * self.now.m }
        ensures limit { length result.now ≤ 65503 }
    {
        self.block.as_slice()
    }

    // The next slot while the input goes on.
    fn next_settled(&mut self) -> Option<Put>
        requires { self.old.finished ≡ false }
        ensures next { (taken : List (Taken ℕ)) → Stands self.old taken → IsNext self.old taken self.new.block result }
        ensures stands { (taken : List (Taken ℕ)) → Stands self.old taken → Stands self.new taken }
        ensures counts { OutCounts self.old self.new result }
        ensures sound { IsSound self.new }
    {
        let slot = self.next;
        if slot == self.passed {
            return None;
        }
        let (place, m) = ((slot - self.front) as usize, usize::from(self.m));
        let block = self.block.as_mut_slice();
        if read_block(&self.known, self.k, m, place, block) {
            self.next = slot + 1;
            return Some(Put::Block(slot));
        }
        if self.passed - slot <= self.deadline {
            return None;
        }
        self.next = slot + 1;
        Some(Put::Missed(slot))
    }

    // The next slot once the input is at its end.
    fn next_left(&mut self) -> Option<Put>
        requires { self.old.finished ≡ true }
        ensures left { (taken : List (Taken ℕ)) → Stands self.old taken → IsLeft self.old taken self.new.block result }
        ensures stands { (taken : List (Taken ℕ)) → Stands self.old taken → Stands self.new taken }
        ensures counts { OutCounts self.old self.new result }
        ensures sound { IsSound self.new }
    {
        let end = if self.claimed { self.end } else { self.past };
        let m = usize::from(self.m);
        let block = self.block.as_mut_slice();
        let found = find_left(
            &self.known,
            self.k,
            m,
            self.front,
            end,
            self.next,
            self.past,
            block,
        );
        match found {
            None => None,
            Some((slot, whole)) => {
                self.next = slot + 1;
                Some(if whole {
                    Put::Block(slot)
                } else {
                    Put::Missed(slot)
                })
            }
        }
    }

    /// The input is at its end. It answers the known end: the end that a flush slot claimed, or else one above the last
    /// taken slot, or 0. No slot is taken or passed after it.
    pub fn finish(&mut self) -> u32
        ensures end { (taken : List (Taken ℕ)) → Stands self.old taken → result ≡ known_end taken }
        ensures stands { (taken : List (Taken ℕ)) → Stands self.old taken → Stands self.new taken }
        ensures same { self.new ≡ record self.old { finished = true } }
        ensures sound { IsSound self.new }
    {
        self.finished = true;
        if self.claimed { self.end } else { self.past }
    }
}

// The end so far.
fn end_state(claimed: bool, end: u32) -> EndState
    ensures { result ≡ end_so_far claimed end }
{
    if claimed {
        EndState::Known(end)
    } else {
        EndState::Least(end)
    }
}

// Whether the end byte of a slot fits the end so far.
fn fits_end(claimed: bool, so_far: u32, number: u32, end: u8) -> bool
    requires number { number < MAX_SLOTS }
    requires end { end ≤ number + 1 }
    ensures yes { result ≡ true → FitsEnd claimed so_far number end }
    ensures no { result ≡ false → FitsEnd claimed so_far number end → ⊥ }
{
    let claim = number + 1 - u32::from(end);
    if claimed {
        return 0 < end && claim == so_far;
    }
    end == 0 || so_far <= claim
}
