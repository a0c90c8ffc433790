//! Whether the ways to work out a sum of multiples agree in the program that was built.
ghost use Rattle.std.specs.Prelude.{◌≡◌, true, IfOk};

use crate::bytes::patterned;
use sc_field::{Field, Gf256, Multiplier, Term, all_within, combine, combine_add, scale_add};
use std::alloc::{AllocError, Global};
use std::io;

/// The lengths that are compared: around the widths of vectors, those of symbols, and the longest that packets need.
const LENGTHS: [usize; 13] = [1, 6, 15, 16, 20, 31, 33, 41, 134, 148, 512, 1472, 65503];

/// The numbers of the coefficients that are compared.
const COEFFICIENTS: [u8; 6] = [0, 1, 2, 29, 142, 255];

/// Whether `scale_add` and its prepared form write the same, at this coefficient and length. It is proved that they do.
fn agrees(alloc: Global, c: Gf256, n: usize) -> Result<bool, AllocError>
    ensures { IfOk result (λ same. same ≡ true) }
{
    let src = patterned(alloc, n, 11)?;
    let mut plain = patterned(alloc, n, 200)?;
    let mut prepared = plain.to_vec(alloc)?;
    scale_add(&mut plain, c, &src);
    Multiplier::new(c).scale_add(&mut prepared, &src);
    Ok(plain == prepared)
}

/// Adds `c` times the bytes of `src` from `at` on to `dst`, a byte at a time.
fn add_by_act(dst: &mut [u8], c: Gf256, src: &[u8], at: usize) {
    for i in 0..dst.len() {
        let place = at.saturating_add(i);
        if place < src.len() {
            dst[i] ^= c.act(src[place]);
        }
    }
}

/// Whether one output from these terms is what the walk over bytes gives, and the same once more added to it is zero.
fn walk_agrees(
    alloc: Global,
    terms: &[Term<Gf256>],
    n: usize,
    src: &[u8],
) -> Result<bool, AllocError> {
    let mut fused = patterned(alloc, n, 200)?;
    let mut walked = vec![in alloc; 0; n]?;
    if !all_within(terms, fused.len(), src) {
        return Ok(false);
    }
    combine(&mut fused, terms, src);
    for term in terms {
        add_by_act(&mut walked, term.multiplier.coefficient, src, term.at);
    }
    if fused != walked || !all_within(terms, fused.len(), src) {
        return Ok(false);
    }
    combine_add(&mut fused, terms, src);
    Ok(fused.iter().all(|byte| *byte == 0))
}

/// Whether all ways agree at this length.
fn all_agree(alloc: Global, n: usize) -> Result<bool, AllocError> {
    let src = patterned(alloc, n.saturating_add(6), 11)?;
    let mut terms = Vec::new(alloc);
    for number in COEFFICIENTS {
        let c = Gf256::from(number);
        if !agrees(alloc, c, n)? {
            return Ok(false);
        }
        terms.push(Term {
            multiplier: Multiplier::new(c),
            at: terms.len(),
        })?;
        if !walk_agrees(alloc, &terms, n, &src)? {
            return Ok(false);
        }
    }
    Ok(true)
}

/// Prints for each length whether all ways agree there.
pub fn print<R: AllocGlobal + Print>(rt: &R) -> io::Result<()> {
    for n in LENGTHS {
        let verdict = if all_agree(rt.alloc(), n)? {
            "equal"
        } else {
            "different"
        };
        println!(rt; "{n} bytes: {verdict}")?;
    }
    Ok(())
}
