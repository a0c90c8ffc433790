//! Burst codes as an implementation in Python gives them.

use super::{MakeFault, ms_code};
use sc_channel::Channel;
use sc_code::ByteCode;
use sc_field::Field;
use std::process::Abort;
use std::test::Fail;

// The number of a coefficient, and 255 past the code's sizes.
fn number_at(code: &ByteCode, lag: usize, i: usize, j: usize) -> u8 {
    if lag <= code.memory() && i < code.k() && j < code.r() {
        code.coefficient(lag, i, j).number()
    } else {
        255
    }
}

// The numbers of a code's coefficients by lag, row and column, each times its place from 1 on, in a sum by 1000003.
fn sum_of(code: &ByteCode) -> u64 {
    let (k, r) = (code.k(), code.r());
    let mut sum = 0u64;
    for place in 0..(code.memory() + 1) * k * r {
        let (lag, i, j) = (place / r / k, place / r % k, place % r);
        let number = u64::from(number_at(code, lag, i, j));
        sum = sum.wrapping_add(number.wrapping_mul(place as u64 + 1)) % 1_000_003;
    }
    sum
}

#[test]
fn makes_burst_codes(rt: HostRuntime) -> Result<(), Fail> {
    for (numbers, k, r, memory, sum) in [
        ((3, 2, 1, 2), 2, 2, 3, 21),
        ((4, 1, 1, 3), 3, 1, 3, 870),
        ((6, 2, 1, 5), 5, 2, 6, 34642),
        ((41, 24, 1, 40), 40, 24, 63, 655600),
    ] {
        let (w, b, n, t) = numbers;
        let code = ms_code(rt.alloc(), &Channel::new(w, b, n, t)?)?;
        assert_eq!(rt; (code.k(), code.r(), code.memory()), (k, r, memory));
        assert_eq!(rt; sum_of(&code), sum, "of {w} {b} {n} {t}");
    }
    Ok(())
}

// 142 is the inverse of 2.
#[test]
fn has_a_cauchy_matrix(rt: HostRuntime) -> Result<(), Fail> {
    let code = ms_code(rt.alloc(), &Channel::new(4, 1, 1, 3)?)?;
    assert_eq!(rt; number_at(&code, 1, 2, 0), 142);
    assert_eq!(rt; number_at(&code, 2, 1, 0), 1);
    assert_eq!(rt; number_at(&code, 3, 0, 0), 1);
    Ok(())
}

#[test]
fn refuses_other_channels(rt: HostRuntime) -> Result<(), Fail> {
    let spread = ms_code(rt.alloc(), &Channel::new(3, 2, 2, 2)?);
    assert!(rt; matches!(&spread, Err(MakeFault::NotBurst)));
    let wide = ms_code(rt.alloc(), &Channel::new(41, 25, 1, 40)?);
    assert!(rt; matches!(&wide, Err(MakeFault::TooWide(65))));
    for (fault, text) in [
        (
            MakeFault::NotBurst,
            "no code for more than one loss in a window",
        ),
        (MakeFault::TooWide(65), "65 symbols, which is above 64"),
        (MakeFault::Memory, "no memory"),
    ] {
        let shown = format!(in rt.alloc(); "{fault}")?;
        assert_eq!(rt; shown.as_str(), text);
    }
    Ok(())
}
