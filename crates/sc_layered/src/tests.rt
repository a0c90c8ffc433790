//! Layered candidates as an implementation in Python gives them.

use super::{WideFault, layered_candidate};
use sc_channel::Channel;
use sc_code::ByteCode;
use sc_field::Field;
use std::process::Abort;
use std::test::Fail;

// The number of a coefficient, and 255 past the code's sizes.
fn number_at(code: &ByteCode, lag: usize, i: usize, j: usize) -> u8 {
    if lag <= code.memory() && i < code.k() && j < code.r() {
        code.coefficient(lag, i, j).number()
    } else {
        255
    }
}

// The numbers of a code's coefficients by lag, row and column, each times its place from 1 on, in a sum by 1000003.
fn sum_of(code: &ByteCode) -> u64 {
    let (k, r) = (code.k(), code.r());
    let mut sum = 0u64;
    for place in 0..(code.memory() + 1) * k * r {
        let (lag, i, j) = (place / r / k, place / r % k, place % r);
        let number = u64::from(number_at(code, lag, i, j));
        sum = sum.wrapping_add(number.wrapping_mul(place as u64 + 1)) % 1_000_003;
    }
    sum
}

#[test]
fn makes_candidates(rt: HostRuntime) -> Result<(), Fail> {
    for (numbers, c, k, r, memory, sum) in [
        ((2, 1, 1, 1), 0, 1, 2, 1, 963),
        ((11, 4, 2, 10), 0, 10, 5, 10, 200114),
        ((41, 20, 2, 40), 15, 40, 22, 40, 525724),
        ((41, 12, 6, 33), 3, 33, 15, 33, 218554),
    ] {
        let (w, b, n, t) = numbers;
        let code = layered_candidate(rt.alloc(), &Channel::new(w, b, n, t)?, c)?;
        assert_eq!(rt; (code.k(), code.r(), code.memory()), (k, r, memory));
        assert_eq!(rt; sum_of(&code), sum, "of {w} {b} {n} {t}");
    }
    Ok(())
}

#[test]
fn makes_each_coefficient(rt: HostRuntime) -> Result<(), Fail> {
    let code = layered_candidate(rt.alloc(), &Channel::new(4, 2, 1, 3)?, 5)?;
    let want = [
        0, 0, 244, 0, 0, 63, 129, 78, 0, //
        0, 0, 89, 0, 0, 32, 85, 121, 0, //
        0, 0, 70, 0, 0, 22, 150, 147, 0, //
        1, 0, 195, 0, 1, 19, 0, 0, 0,
    ];
    for (place, number) in want.iter().enumerate() {
        let (lag, i, j) = (place / 9, place / 3 % 3, place % 3);
        assert_eq!(rt; number_at(&code, lag, i, j), *number, "at {lag} {i} {j}");
    }
    Ok(())
}

#[test]
fn refuses_wide_candidates(rt: HostRuntime) -> Result<(), Fail> {
    let wide = layered_candidate(rt.alloc(), &Channel::new(41, 40, 40, 40)?, 1);
    assert!(rt; matches!(&wide, Err(WideFault::TooWide(1680))));
    for (fault, text) in [
        (WideFault::TooWide(65), "65 symbols, which is above 64"),
        (WideFault::Memory, "no memory"),
    ] {
        let shown = format!(in rt.alloc(); "{fault}")?;
        assert_eq!(rt; shown.as_str(), text);
    }
    Ok(())
}
