//! The matrix of a loss: a column for each lost symbol and a row for each kept parity.

ghost use Rattle.std.specs.Prelude.{◌≡◌, ◌↔◌, ◌<◌, ◌≤◌, ◌-◌, ◌*◌, ◌++◌, [], List, length, map, IfOk, OnOk};
ghost use Rattle.sc_channel.specs.Flags.{set_count};
ghost use Rattle.sc_matrix.specs.Matrix.{row_count};
ghost use Rattle.sc_matrix.specs.Vector.{IsVector};
ghost use Rattle.sc_echelon.specs.Kernel.{IsKernelVector};
ghost use Rattle.sc_window.specs.Window.{spelled, IsZeroWhereKept};
ghost use Rattle.sc_window.specs.Rows.{window_entry, block_entries, window_row, slot_rows, window_of};

use sc_code::Code;
use sc_field::Field;
use sc_matrix::Matrix;
use sc_outside::NoMemory;
use std::alloc::Global;

/// The matrix whose kernel is the streams that are zero in each kept slot, in block and parity.
///
/// `class` has a flag for each slot from slot 0 on, which is set where the slot is lost; there are at most 41. The matrix has a
/// column for each symbol of a lost slot, in the order of the slots, and a row for each parity symbol of a kept slot. A vector
/// of an entry for each column spells a stream, whose kept blocks are zero.
///
/// It costs a look at one coefficient for each entry.
pub fn window_matrix<F: Field>(
    alloc: Global,
    code: &Code<F>,
    class: &[bool],
) -> Result<Matrix<F>, NoMemory>
    requires { length class.now ≤ 41 }
    ensures cols { IfOk result (λ m. m.cols ≡ code.now.k * set_count class.now) }
    ensures rows { IfOk result (λ m. row_count m ≡ code.now.r * (length class.now - set_count class.now)) }
    ensures kernel { IfOk result (λ m. (v : List F) → IsKernelVector F.IsElement F.zero F.add F.mul m.cols m.rows v
        ↔ (IsVector F.IsElement (code.now.k * set_count class.now) v × IsZeroWhereKept F.zero F.add F.mul code.now class.now (spelled F.zero code.now.k class.now v))) }
{
    let lost = count_lost(class);
    let cols = code.k() * lost;
    let rows = code.r() * (class.len() - lost);
    let mut matrix = Matrix::with_capacity(alloc, rows, cols)?;
    let mut row = Vec::with_capacity(alloc, cols)?;
    push_rows(&mut matrix, &mut row, code, class)?;
    Ok(matrix)
}

// How many flags are set.
fn count_lost(class: &[bool]) -> usize
    ensures count { result ≡ set_count class.now }
    ensures within { result ≤ length class.now }
{
    class.iter().filter(|lost| **lost).count()
}

// Fills an empty matrix. What the buffer holds doesn't count.
fn push_rows<F: Field>(
    matrix: &mut Matrix<F>,
    row: &mut Vec<u8>,
    code: &Code<F>,
    class: &[bool],
) -> Result<(), NoMemory>
    requires few { length class.now ≤ 41 }
    requires empty { matrix.old ≡ record { cols = code.now.k * set_count class.now; rows = [] } }
    ensures { OnOk result (matrix.new ≡ window_of F.zero code.now class.now) }
{
    for t in 0..class.len() {
        let lost = class[t];
        if !lost {
            push_slot(matrix, row, code, class, t)?;
        }
    }
    Ok(())
}

// Appends the rows of slot `t`, one for each of its parity symbols.
fn push_slot<F: Field>(
    matrix: &mut Matrix<F>,
    row: &mut Vec<u8>,
    code: &Code<F>,
    class: &[bool],
    t: usize,
) -> Result<(), NoMemory>
    requires few { length class.now ≤ 41 }
    requires slot { t < length class.now }
    requires cols { matrix.old.cols ≡ code.now.k * set_count class.now }
    requires room { row_count matrix.old ≤ code.now.r * t }
    ensures { OnOk result (matrix.new ≡ record { cols = matrix.old.cols; rows = matrix.old.rows ++ slot_rows F.zero code.now class.now t }) }
{
    for j in 0..code.r() {
        write_row(row, code, class, t, j)?;
        matrix.push_row(row.as_slice())?;
    }
    Ok(())
}

// Writes the row of parity symbol `j` of slot `t`.
fn write_row<F: Field>(
    row: &mut Vec<u8>,
    code: &Code<F>,
    class: &[bool],
    t: usize,
    j: usize,
) -> Result<(), NoMemory>
    requires parity { j < code.now.r }
    ensures { OnOk result (row.new.items ≡ map F.number (window_row F.zero code.now t j 0 class.now)) }
{
    row.clear();
    for s in 0..class.len() {
        let lost = class[s];
        if lost {
            push_block(row, code, t, j, s)?;
        }
    }
    Ok(())
}

// Appends what the symbols of slot `s` give to parity symbol `j` of slot `t`.
fn push_block<F: Field>(
    row: &mut Vec<u8>,
    code: &Code<F>,
    t: usize,
    j: usize,
    s: usize,
) -> Result<(), NoMemory>
    requires parity { j < code.now.r }
    ensures { OnOk result (row.new.items ≡ row.old.items ++ map F.number (block_entries F.zero code.now t j s)) }
{
    for i in 0..code.k() {
        let entry = entry_at(code, t, j, s, i);
        row.push(entry)?;
    }
    Ok(())
}

// The number of what symbol `i` of slot `s` gives to parity symbol `j` of slot `t`.
fn entry_at<F: Field>(code: &Code<F>, t: usize, j: usize, s: usize, i: usize) -> u8
    requires parity { j < code.now.r }
    requires symbol { i < code.now.k }
    ensures { result ≡ F.number (window_entry F.zero code.now t j s i) }
{
    if s > t || t - s > code.memory() {
        return F::zero().number();
    }
    code.coefficient(t - s, i, j).number()
}
