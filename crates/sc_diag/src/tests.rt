//! An interleaved code beside one worked by hand.

use super::interleave;
use sc_code::ByteCode;
use sc_field::{Field, Gf256};
use sc_matrix::Matrix;
use std::process::Abort;
use std::test::Fail;

// Writes a one at a place of a matrix.
fn set_one(p: &mut Matrix<Gf256>, i: usize, j: usize) {
    if i < p.rows() && j < p.cols() {
        p.set(i, j, Gf256::one());
    }
}

// The number of a coefficient, and 255 past the code's sizes.
fn number_at(code: &ByteCode, lag: usize, i: usize, j: usize) -> u8 {
    if lag <= code.memory() && i < code.k() && j < code.r() {
        code.coefficient(lag, i, j).number()
    } else {
        255
    }
}

// The matrix (1, 1, 0), (1, 0, 1): symbol i gives to parity j at lag 2 + j - i.
#[test]
fn lays_a_matrix_over_diagonals(rt: HostRuntime) -> Result<(), Fail> {
    let mut p: Matrix<Gf256> = Matrix::zeros(rt.alloc(), 2, 3)?;
    for (i, j) in [(0, 0), (0, 1), (1, 0), (1, 2)] {
        set_one(&mut p, i, j);
    }
    assert!(rt; p.rows() == 2 && p.cols() == 3);
    let code = interleave(rt.alloc(), &p)?;
    assert_eq!(rt; (code.k(), code.r(), code.memory()), (2, 3, 4));
    let want = [
        0, 0, 0, 0, 0, 0, //
        0, 0, 0, 1, 0, 0, //
        1, 0, 0, 0, 0, 0, //
        0, 1, 0, 0, 0, 1, //
        0, 0, 0, 0, 0, 0,
    ];
    for (place, number) in want.iter().enumerate() {
        let (lag, i, j) = (place / 6, place / 3 % 2, place % 3);
        assert_eq!(rt; number_at(&code, lag, i, j), *number, "at {lag} {i} {j}");
    }
    Ok(())
}
