//! Runs beside those worked by hand.
ghost use Rattle.std.specs.Prelude.{◌≡◌, ◌+◌, ◌*◌, ◌<◌, ◌≤◌, true, false, length, Ok, IfOk, OnOk};

use super::*;
use sc_code::{ByteCode, Code};
use sc_field::{Field, Gf256};
use sc_matrix::Matrix;
use sc_slots::Slot;
use std::alloc::Global;
use std::process::Abort;
use std::test::Fail;

// The code of one symbol and one parity symbol that gives each symbol again two slots later.
fn repeats(alloc: Global) -> Result<ByteCode, Fail>
    ensures { IfOk result (λ code. (code.k ≡ 1) × (code.r ≡ 1) × (length code.lags ≡ 3)) }
{
    let mut last = Matrix::zeros(alloc, 1, 1)?;
    last.set(0, 0, Gf256::one());
    let mut lags = Vec::new(alloc);
    lags.push(Matrix::zeros(alloc, 1, 1)?)?;
    lags.push(Matrix::zeros(alloc, 1, 1)?)?;
    lags.push(last)?;
    Ok(Code::new(1, 1, lags)?)
}

// The number of a slot that is put out, and its byte, or 255 where it is missed.
fn told(repairer: &Repairer, put: Put) -> [u8; 2] {
    match put {
        Put::Block(slot) => {
            let byte = repairer.block().first().copied().unwrap_or(254);
            [(slot % 256) as u8, byte]
        }
        Put::Missed(slot) => [(slot % 256) as u8, 255],
    }
}

// Writes what is put out.
fn drain(repairer: &mut Repairer, out: &mut Vec<u8>) -> Result<(), Fail>
    ensures same { repairer.new ≡ record repairer.old { next = repairer.new.next; block = repairer.new.block } }
    ensures in_time { OnOk result (repairer.old.finished ≡ false → repairer.new.passed ≤ repairer.new.next + repairer.new.deadline) }
{
    for _turn in 0..200 {
        match repairer.next_out() {
            None => return Ok(()),
            Some(put) => out.extend_from_slice(&told(repairer, put))?,
        }
    }
    Err("no end")?
}

// One slot: it is lost, or it comes with an end, a byte and a parity.
#[derive(Clone, Copy)]
enum Came {
    Lost,
    Slot(u8, u8, u8),
}

// Passes or takes the next slot. False where it doesn't fit or clashes.
fn step(
    repairer: &mut Repairer,
    code: &ByteCode,
    came: Came,
    out: &mut Vec<u8>,
) -> Result<bool, Fail>
    requires code { (code.now.k ≡ 1) × (code.now.r ≡ 1) × (length code.now.lags ≡ 3) }
    requires ready { (repairer.old.k ≡ 1) × (repairer.old.r ≡ 1) × (repairer.old.memory ≡ 2) × (repairer.old.m ≡ 1) }
    requires goes_on { (repairer.old.finished ≡ false) × (repairer.old.passed ≤ repairer.old.next + repairer.old.deadline) }
    ensures ready { (repairer.new.k ≡ 1) × (repairer.new.r ≡ 1) × (repairer.new.memory ≡ 2) × (repairer.new.m ≡ 1) }
    ensures goes_on { OnOk result ((repairer.new.finished ≡ false) × (result ≡ Ok true → repairer.new.passed ≤ repairer.new.next + repairer.new.deadline)) }
{
    let number = repairer.passed();
    match came {
        Came::Lost => {
            if number >= MAX_SLOTS {
                return Ok(false);
            }
            repairer.pass_lost();
        }
        Came::Slot(end, byte, parity) => {
            if number >= MAX_SLOTS || u32::from(end) > number + 1 {
                return Ok(false);
            }
            let slot = Slot {
                number,
                end,
                m: 1,
                timestamp: 0,
                block: &[byte],
                parity: &[parity],
            };
            if repairer.fits(&slot).is_err() {
                return Ok(false);
            }
            if repairer.take(code, &slot).is_err() {
                return Ok(false);
            }
        }
    }
    drain(repairer, out)?;
    Ok(true)
}

// Writes what is left, and the known end.
fn finish(repairer: &mut Repairer, out: &mut Vec<u8>) -> Result<(), Fail> {
    let end = repairer.finish();
    drain(repairer, out)?;
    out.push((end % 256) as u8)?;
    Ok(())
}

// Passes or takes each slot, and finishes. False at the first that doesn't fit or clashes.
fn steps(
    repairer: &mut Repairer,
    code: &ByteCode,
    slots: &[Came],
    out: &mut Vec<u8>,
) -> Result<bool, Fail>
    requires code { (code.now.k ≡ 1) × (code.now.r ≡ 1) × (length code.now.lags ≡ 3) }
    requires ready { (repairer.old.k ≡ 1) × (repairer.old.r ≡ 1) × (repairer.old.memory ≡ 2) × (repairer.old.m ≡ 1) }
    requires goes_on { (repairer.old.finished ≡ false) × (repairer.old.passed ≤ repairer.old.next + repairer.old.deadline) }
{
    for came in slots {
        if !step(repairer, code, *came, out)? {
            return Ok(false);
        }
    }
    finish(repairer, out)?;
    Ok(true)
}

// What is put out of these slots, and then the known end; or what is put out until one doesn't fit.
fn run(alloc: Global, slots: &[Came]) -> Result<(bool, Vec<u8>), Fail> {
    let code = repeats(alloc)?;
    let mut repairer = Repairer::start(alloc, &code, 2, 1)?;
    let mut out = Vec::new(alloc);
    let whole = steps(&mut repairer, &code, slots, &mut out)?;
    Ok((whole, out))
}

// Slots, whether all are taken, and what is put out.
const RUNS: &[(&[Came], bool, &[u8])] = &[
    // nothing at all
    (&[], true, &[0]),
    // one packet and its two flush slots; then without slot 0, and without slots 0 and 1: the lost flush slot is passed over
    (
        &[
            Came::Slot(0, 7, 0),
            Came::Slot(1, 0, 0),
            Came::Slot(2, 0, 7),
        ],
        true,
        &[0, 7, 1, 0, 2, 0, 1],
    ),
    (
        &[Came::Lost, Came::Slot(1, 0, 0), Came::Slot(2, 0, 7)],
        true,
        &[0, 7, 1, 0, 2, 0, 1],
    ),
    (
        &[Came::Lost, Came::Lost, Came::Slot(2, 0, 7)],
        true,
        &[0, 7, 2, 0, 1],
    ),
    // without slots 0 and 2: the block isn't determined
    (&[Came::Lost, Came::Slot(1, 0, 0)], true, &[0, 255, 1, 0, 1]),
    // a changed parity of a known block, and one before slot 0
    (
        &[
            Came::Slot(0, 7, 0),
            Came::Slot(0, 8, 0),
            Came::Slot(0, 9, 6),
        ],
        false,
        &[0, 7, 1, 8],
    ),
    (&[Came::Slot(0, 7, 1)], false, &[]),
    // a source slot after a claim, another claim, and one below a source slot
    (
        &[
            Came::Slot(0, 7, 0),
            Came::Slot(1, 0, 0),
            Came::Slot(0, 9, 7),
        ],
        false,
        &[0, 7, 1, 0],
    ),
    (
        &[
            Came::Slot(0, 7, 0),
            Came::Slot(1, 0, 0),
            Came::Slot(1, 0, 7),
        ],
        false,
        &[0, 7, 1, 0],
    ),
    (&[Came::Slot(0, 7, 0), Came::Slot(2, 0, 0)], false, &[0, 7]),
    // a gap that is too long: two blocks are missed, and the last of it comes back by the deadline
    (
        &[
            Came::Slot(0, 7, 0),
            Came::Lost,
            Came::Lost,
            Came::Lost,
            Came::Lost,
            Came::Slot(0, 5, 3),
            Came::Slot(0, 6, 4),
        ],
        true,
        &[0, 7, 1, 255, 2, 255, 3, 3, 4, 4, 5, 5, 6, 6, 7],
    ),
];

#[test]
fn worked_runs(rt: HostRuntime) -> Result<(), Fail> {
    for row in RUNS {
        let (slots, whole, want) = *row;
        let (have, out) = run(rt.alloc(), slots)?;
        assert_eq!(rt; (have, out.as_slice()), (whole, want));
    }
    Ok(())
}
