//! Rate-optimal candidates and first good ones, as an implementation in Python gives them.

use super::{DesignFault, Found, MakerKind, first_good, optimal_candidate};
use sc_channel::Channel;
use sc_check::NoGate;
use sc_code::ByteCode;
use sc_field::Field;
use sc_layered::WideFault;
use std::alloc::Global;
use std::process::Abort;
use std::test::Fail;
use std::thread::Threads;

// The number of a coefficient, and 255 past the code's sizes.
fn number_at(code: &ByteCode, lag: usize, i: usize, j: usize) -> u8 {
    if lag <= code.memory() && i < code.k() && j < code.r() {
        code.coefficient(lag, i, j).number()
    } else {
        255
    }
}

// The numbers of a code's coefficients by lag, row and column, each times its place from 1 on, in a sum by 1000003.
fn sum_of(code: &ByteCode) -> u64 {
    let (k, r) = (code.k(), code.r());
    let mut sum = 0u64;
    for place in 0..(code.memory() + 1) * k * r {
        let (lag, i, j) = (place / r / k, place / r % k, place % r);
        let number = u64::from(number_at(code, lag, i, j));
        sum = sum.wrapping_add(number.wrapping_mul(place as u64 + 1)) % 1_000_003;
    }
    sum
}

// The first channel has whole columns and no product, the second a product, the third a diagonal of one draw and last rows.
#[test]
fn makes_candidates(rt: HostRuntime) -> Result<(), Fail> {
    for (numbers, c, k, r, memory, sum) in [
        ((5, 4, 3, 4), 3, 2, 4, 5, 17969),
        ((5, 3, 2, 4), 0, 3, 3, 5, 29824),
        ((6, 2, 2, 5), 1, 4, 2, 5, 15636),
        ((6, 3, 3, 3), 255, 1, 3, 3, 3892),
        ((11, 4, 2, 10), 0, 9, 4, 12, 988453),
        ((33, 6, 6, 32), 255, 27, 6, 32, 146214),
        ((41, 24, 3, 40), 9, 38, 24, 61, 901743),
        ((41, 20, 19, 30), 1, 12, 20, 31, 949280),
    ] {
        let (w, b, n, t) = numbers;
        let code = optimal_candidate(rt.alloc(), &Channel::new(w, b, n, t)?, c)?;
        assert_eq!(rt; (code.k(), code.r(), code.memory()), (k, r, memory));
        assert_eq!(rt; sum_of(&code), sum, "of {w} {b} {n} {t}");
    }
    let wide = optimal_candidate(rt.alloc(), &Channel::new(41, 40, 1, 40)?, 0);
    assert!(rt; matches!(&wide, Err(WideFault::TooWide(80))));
    Ok(())
}

#[test]
fn makes_each_coefficient(rt: HostRuntime) -> Result<(), Fail> {
    let code = optimal_candidate(rt.alloc(), &Channel::new(6, 2, 2, 5)?, 1)?;
    let want = [
        0, 0, 0, 0, 0, 0, 0, 0, //
        0, 0, 0, 0, 0, 0, 68, 0, //
        0, 0, 0, 0, 83, 0, 0, 42, //
        0, 0, 159, 0, 0, 47, 0, 0, //
        120, 0, 0, 32, 0, 0, 0, 0, //
        0, 25, 0, 0, 0, 0, 0, 0,
    ];
    for (place, number) in want.iter().enumerate() {
        let (lag, i, j) = (place / 8, place / 2 % 4, place % 2);
        assert_eq!(rt; number_at(&code, lag, i, j), *number, "at {lag} {i} {j}");
    }
    Ok(())
}

// The first good candidate of a kind for a channel.
fn design<R: Threads + Sync>(
    rt: &R,
    alloc: Global,
    kind: MakerKind,
    numbers: (u32, u32, u32, u32),
) -> Result<Result<Found, DesignFault>, Fail> {
    let (w, b, n, t) = numbers;
    Ok(first_good(rt, alloc, kind, &Channel::new(w, b, n, t)?, &NoGate))
}

// Which candidate is the first was found with linear algebra in Python.
#[test]
fn finds_the_first_good_candidate(rt: HostRuntime) -> Result<(), Fail> {
    for (kind, numbers, number, k, r) in [
        (MakerKind::Optimal, (2, 1, 1, 1), 0, 1, 1),
        (MakerKind::Optimal, (11, 4, 2, 10), 0, 9, 4),
        (MakerKind::Optimal, (11, 4, 4, 10), 4, 7, 4),
        (MakerKind::Optimal, (11, 5, 5, 10), 10, 6, 5),
        (MakerKind::Layered, (2, 1, 1, 1), 0, 1, 2),
        (MakerKind::Layered, (8, 4, 3, 7), 0, 7, 7),
        (MakerKind::Ms, (3, 2, 1, 2), 0, 2, 2),
        (MakerKind::Ms, (4, 1, 1, 3), 0, 3, 1),
    ] {
        let found = design(&rt, rt.alloc(), kind, numbers)??;
        assert_eq!(rt;
            (found.candidate, found.code.k(), found.code.r()),
            (number, k, r)
        );
    }
    Ok(())
}

#[test]
fn refuses_in_order(rt: HostRuntime) -> Result<(), Fail> {
    for (kind, numbers, want) in [
        (MakerKind::Ms, (3, 2, 2, 2), DesignFault::NotBurst),
        (MakerKind::Ms, (41, 40, 40, 40), DesignFault::NotBurst),
        (MakerKind::Ms, (41, 25, 1, 40), DesignFault::TooWide(65)),
        (
            MakerKind::Layered,
            (41, 20, 20, 40),
            DesignFault::TooWide(80),
        ),
        (
            MakerKind::Optimal,
            (41, 7, 7, 40),
            DesignFault::TooManyClasses(3838381),
        ),
        (MakerKind::Optimal, (14, 5, 5, 13), DesignFault::NoCode),
    ] {
        match design(&rt, rt.alloc(), kind, numbers)? {
            Ok(_) => Err("a code was found")?,
            Err(fault) => assert_eq!(rt; fault, want),
        }
    }
    for (fault, text) in [
        (
            DesignFault::NotBurst,
            "no code for more than one loss in a window",
        ),
        (DesignFault::TooWide(65), "65 symbols, which is above 64"),
        (
            DesignFault::TooManyClasses(3838381),
            "3838381 classes, which is above 1000000",
        ),
        (DesignFault::NoCode, "no candidate meets the channel"),
        (DesignFault::Memory, "no memory"),
    ] {
        let shown = format!(in rt.alloc(); "{fault}")?;
        assert_eq!(rt; shown.as_str(), text);
    }
    Ok(())
}
