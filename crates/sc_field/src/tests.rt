//! Worked values of both fields, and each public call once at each field.
ghost use Rattle.std.specs.Prelude.{◌≡◌, ◌≢◌, ◌≤◌};

use super::*;
use std::process::Abort;
use std::test::Fail;

// The element with this number.
fn element<F: Field>(n: u8) -> Result<F, Fail> {
    Ok(F::from_number(n).ok_or("no element has this number")?)
}

// By the bound alone.
fn quotient<F: Field>(a: F, b: F) -> F
    requires { b ≢ F.zero }
{
    a.mul(b.inv())
}

// Kept as a byte, and read back.
fn kept<F: Field>(a: F) -> F
    ensures { result ≡ a }
{
    a.known();
    let byte = a.number();
    element_of(byte)
}

#[test]
fn gf256_products(rt: HostRuntime) -> Result<(), Fail> {
    let table = [
        (0x02, 0x80, 0x1d),
        (0x02, 0x8e, 0x01),
        (0x03, 0x03, 0x05),
        (0x00, 0x53, 0x00),
        (0xca, 0x00, 0x00),
        (0x01, 0xff, 0xff),
    ];
    for (x, y, product) in table {
        let a = element::<Gf256>(x)?;
        let b = element::<Gf256>(y)?;
        assert_eq!(rt; a.mul(b).number(), product, "{x} * {y}");
        assert_eq!(rt; b.mul(a).number(), product, "{y} * {x}");
        assert_eq!(rt; a.act(y), product, "{x} on {y}");
        assert_eq!(rt; a.add(b).number(), x ^ y);
        assert_eq!(rt; a.add(b).sub(b), a);
        assert_eq!(rt; kept(b), b);
        b.known();
    }
    let two = Gf256::from(2);
    assert_eq!(rt; two, element(2)?);
    assert!(rt; two != Gf256::zero());
    assert_eq!(rt; two.inv().number(), 0x8e);
    assert_eq!(rt; quotient(Gf256::one(), two).number(), 0x8e);
    Ok(())
}

#[test]
fn gf2_products(rt: HostRuntime) -> Result<(), Fail> {
    for (x, y, sum, product) in [(0, 0, 0, 0), (0, 1, 1, 0), (1, 0, 1, 0), (1, 1, 0, 1)] {
        let a = element::<Gf2>(x)?;
        let b = element::<Gf2>(y)?;
        assert_eq!(rt; a.add(b).number(), sum, "{x} + {y}");
        assert_eq!(rt; a.sub(b).number(), sum, "{x} - {y}");
        assert_eq!(rt; a.mul(b).number(), product, "{x} * {y}");
        assert_eq!(rt; a.act(0x53), 0x53 * x, "{x} on a byte");
        assert_eq!(rt; kept(b), b);
        b.known();
    }
    assert_eq!(rt; Gf2::from_number(2), None);
    assert!(rt; Gf2::one() != Gf2::zero());
    assert_eq!(rt; quotient(Gf2::one(), Gf2::one()), Gf2::one());
    Ok(())
}

// The product of two bytes as its definition has it: x shifted for each set bit of y, reduced by 0x11D on the way.
fn product_by_bits(x: u8, y: u8) -> u8 {
    let mut sum = 0;
    let mut shifted = x;
    let mut bits = y;
    for _ in 0..8 {
        if bits & 1 == 1 {
            sum ^= shifted;
        }
        bits >>= 1;
        let low = (shifted & 127) << 1;
        shifted = if shifted >= 128 { low ^ 0x1d } else { low };
    }
    sum
}

#[test]
fn all_products(rt: HostRuntime) -> Result<(), Fail> {
    for x in 0..=255 {
        for y in 0..=255 {
            let product = product_by_bits(x, y);
            assert_eq!(rt; Gf256::from(x).act(y), product, "{x} on {y}");
            assert_eq!(rt;
                Gf256::from(x).mul(Gf256::from(y)).number(),
                product,
                "{x} * {y}"
            );
        }
    }
    Ok(())
}

// A byte that goes through many values with i.
fn byte_at(i: usize, start: u8) -> u8 {
    start.wrapping_add(((i % 256) as u8).wrapping_mul(37))
}

fn filled(start: u8) -> [u8; 1700] {
    let mut bytes = [0; 1700];
    for i in 0..1700 {
        bytes[i] = byte_at(i, start);
    }
    bytes
}

// The numbers of the coefficients that are tried, which have zero, one and bytes with high and low halves.
const NUMBERS: [u8; 6] = [0, 1, 2, 29, 142, 255];

// Compares what was written to the `n` bytes from place 3 on with what was to be there, and all others with what was there.
fn written(
    rt: &impl Abort,
    name: &str,
    now: &[u8; 1700],
    old: &[u8; 1700],
    due: &[u8; 1700],
    n: usize,
) {
    for i in 0..1700 {
        let byte = if 3 <= i && i - 3 < n {
            due[i - 3]
        } else {
            old[i]
        };
        assert_eq!(rt; now[i], byte, "{name}: place {i} of {n} bytes");
    }
}

// Each call with one coefficient, at n bytes that begin at an odd place.
fn one_source(rt: &impl Abort, number: u8, n: usize)
    requires { n ≤ 200 }
{
    let c = Gf256::from(number);
    let src = filled(11);
    let old = filled(200);
    let mut product = [0; 1700];
    let mut sum = [0; 1700];
    let mut xor = [0; 1700];
    let mut scaled = [0; 1700];
    for i in 0..n {
        product[i] = product_by_bits(number, src[i]);
        sum[i] = old[i + 3] ^ product[i];
        xor[i] = old[i + 3] ^ src[i];
        scaled[i] = product_by_bits(number, old[i + 3]);
    }
    let mut now = old;
    scale_add(&mut now[3..n + 3], c, &src[..n]);
    written(rt, "scale_add", &now, &old, &sum, n);
    now = old;
    Multiplier::new(c).scale_add(&mut now[3..n + 3], &src[..n]);
    written(rt, "Multiplier::scale_add", &now, &old, &sum, n);
    now = old;
    let mut other = old;
    Multiplier::new(c).scale_add_both(
        &mut now[3..n + 3],
        &src[..n],
        &mut other[3..n + 3],
        &src[..n],
    );
    written(rt, "the first of scale_add_both", &now, &old, &sum, n);
    written(rt, "the second of scale_add_both", &other, &old, &sum, n);
    now = old;
    Multiplier::new(c).set(&mut now[3..n + 3], &src[..n]);
    written(rt, "Multiplier::set", &now, &old, &product, n);
    now = old;
    Multiplier::new(c).scale(&mut now[3..n + 3]);
    written(rt, "Multiplier::scale", &now, &old, &scaled, n);
    now = old;
    add_bytes(&mut now[3..n + 3], &src[..n]);
    written(rt, "add_bytes", &now, &old, &xor, n);
}

#[test]
fn one_source_at_each_width(rt: HostRuntime) -> Result<(), Fail> {
    for number in NUMBERS {
        for n in 0..=100 {
            one_source(&rt, number, n);
        }
        one_source(&rt, number, 148);
    }
    Ok(())
}

// Both calls with so many sources, which overlap, lie in no order, and the last of which ends with the source.
fn many_sources(rt: &impl Abort, count: usize, n: usize)
    requires count { count ≤ 10 }
    requires width { (1 ≤ n) × (n ≤ 148) }
{
    let src = filled(11);
    let old = filled(200);
    let none = Term {
        multiplier: Multiplier::new(Gf256::zero()),
        at: 0,
    };
    let mut terms = [none; 10];
    let mut alone = [0; 1700];
    let mut added = [0; 1700];
    for i in 0..n {
        added[i] = old[i + 3];
    }
    for k in 0..count {
        let number = byte_at(k, 29);
        let at = if k + 1 == count {
            1700 - n
        } else {
            k * 97 % 700
        };
        terms[k] = Term {
            multiplier: Multiplier::new(Gf256::from(number)),
            at,
        };
        for i in 0..n {
            let product = if at + i < 1700 {
                product_by_bits(number, src[at + i])
            } else {
                0
            };
            alone[i] ^= product;
            added[i] ^= product;
        }
    }
    let terms = &terms[..count];
    assert!(rt;
        !all_within(terms, n + 1, &src) || count == 0,
        "{count} sources have no room for more than {n} bytes"
    );
    assert!(rt;
        all_within(terms, n, &src),
        "{count} sources have room for {n} bytes"
    );
    let mut now = old;
    combine(&mut now[3..n + 3], terms, &src);
    written(rt, "combine", &now, &old, &alone, n);
    now = old;
    combine_add(&mut now[3..n + 3], terms, &src);
    written(rt, "combine_add", &now, &old, &added, n);
}

#[test]
fn many_sources_at_each_width(rt: HostRuntime) -> Result<(), Fail> {
    for n in [
        1, 2, 3, 4, 5, 6, 7, 8, 15, 16, 17, 20, 31, 32, 33, 41, 64, 65, 96, 97, 134, 148,
    ] {
        for count in 0..=10 {
            many_sources(&rt, count, n);
        }
    }
    Ok(())
}

#[test]
fn no_bytes_and_no_terms(rt: HostRuntime) -> Result<(), Fail> {
    let mut none: [u8; 0] = [];
    let terms: [Term<Gf2>; 0] = [];
    combine(&mut none, &terms, &[]);
    combine_add(&mut none, &terms, &[]);
    let mut some = [5; 20];
    combine_add(&mut some, &terms, &[]);
    assert_eq!(rt; some, [5; 20]);
    combine(&mut some, &terms, &[]);
    assert_eq!(rt; some, [0; 20]);
    number_laws::<Gf2>();
    sum_laws::<Term<Gf256>>();
    Ok(())
}

#[test]
fn sums_over_two_elements(rt: HostRuntime) -> Result<(), Fail> {
    let src = [0x53; 40];
    let mut dst = [0x11; 33];
    scale_add(&mut dst, Gf2::zero(), &src[..33]);
    assert_eq!(rt; dst, [0x11; 33]);
    Multiplier::new(Gf2::one())
        .clone()?
        .scale_add(&mut dst, &src[..33]);
    assert_eq!(rt; dst, [0x42; 33]);
    let one = Term {
        multiplier: Multiplier::new(Gf2::one()),
        at: 7,
    };
    let terms = [one, one.clone()?, one];
    assert!(rt; all_within(&terms, 33, &src));
    combine_add(&mut dst, &terms, &src);
    assert_eq!(rt; dst, [0x11; 33]);
    Ok(())
}

#[test]
fn products_over_two_elements(rt: HostRuntime) -> Result<(), Fail> {
    let src = [0x53; 33];
    let mut dst = [0x11; 33];
    Multiplier::new(Gf2::one()).scale(&mut dst);
    assert_eq!(rt; dst, [0x11; 33]);
    Multiplier::new(Gf2::one()).set(&mut dst, &src);
    assert_eq!(rt; dst, [0x53; 33]);
    Multiplier::new(Gf2::zero()).scale(&mut dst);
    assert_eq!(rt; dst, [0; 33]);
    dst = [0x11; 33];
    Multiplier::new(Gf2::zero()).set(&mut dst, &src);
    assert_eq!(rt; dst, [0; 33]);
    Ok(())
}
