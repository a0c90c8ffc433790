//! Residues beside those of a script in another language, the standard certificate, and rates beside bounds.

ghost use Rattle.std.specs.Prelude.{◌<◌};

use super::*;
use sc_channel::{Certificate, Channel};
use sc_code::{ByteCode, Code};
use sc_matrix::Matrix;
use std::alloc::Global;
use std::test::Fail;

// The certificate of a period and its lost residues.
fn certificate(alloc: Global, period: u32, lost: &[u32]) -> Result<Certificate, Fail> {
    let mut residues = Vec::with_capacity(alloc, lost.len())?;
    for residue in lost {
        residues.push(*residue)?;
    }
    Ok(Certificate::new(period, residues).ok_or("no certificate")?)
}

const RESIDUES: &[(u32, u32, u32, u32, u32, &[u32], Option<u32>)] = &[
    (3, 2, 1, 2, 4, &[0, 1], None),
    (3, 2, 1, 2, 3, &[0, 1], Some(1)),
    (3, 2, 1, 2, 1, &[], None),
    (3, 2, 1, 2, 1, &[0], Some(0)),
    (6, 3, 3, 5, 14, &[3, 10, 12], None),
    (8, 3, 3, 5, 14, &[4, 11, 12], None),
    (4, 2, 1, 2, 12, &[4, 5, 6, 7], Some(4)),
    (11, 4, 3, 7, 11, &[1, 3, 8, 9], Some(7)),
    (9, 5, 1, 5, 6, &[4, 5], Some(5)),
    (10, 4, 2, 6, 10, &[0, 2, 7], Some(6)),
    (7, 3, 3, 5, 8, &[0, 1, 2, 7], Some(5)),
    (41, 5, 3, 40, 4096, &[0, 4092, 4093, 4095], None),
    (41, 5, 3, 40, 4096, &[4080, 4083, 4085, 4095], Some(4055)),
];

#[test]
fn finds_the_first_bad_residue(rt: HostRuntime) -> Result<(), Fail> {
    for row in RESIDUES {
        let (w, b, n, t, period, lost, want) = *row;
        let channel = Channel::new(w, b, n, t)?;
        let cert = certificate(rt.alloc(), period, lost)?;
        assert_eq!(rt; first_bad_residue(&cert, &channel), want, "{period}");
    }
    Ok(())
}

const STANDARD: &[(u32, u32, u32, u32, u32)] = &[
    (3, 2, 1, 2, 4),
    (4, 3, 2, 3, 5),
    (2, 1, 1, 1, 2),
    (255, 40, 1, 40, 80),
    (255, 40, 17, 40, 64),
    (255, 40, 40, 40, 41),
];

#[test]
fn standard_certificates(rt: HostRuntime) -> Result<(), Fail> {
    for row in STANDARD {
        let (w, b, n, t, period) = *row;
        let channel = Channel::new(w, b, n, t)?;
        let cert = standard(rt.alloc(), &channel)?;
        assert_eq!(rt; standard_numbers(&channel), (period, b));
        assert_eq!(rt; (cert.period(), cert.lost().len() as u32), (period, b));
        assert!(rt;
            cert.lost()
                .iter()
                .enumerate()
                .all(|(i, r)| *r as usize == i)
        );
        assert!(rt; first_bad_residue(&cert, &channel).is_none());
    }
    Ok(())
}

// A code of these sizes whose parities are all zero.
fn code(alloc: Global, k: usize, r: usize) -> Result<ByteCode, Fail>
    requires { (k < 65) × (r < 65) }
{
    let mut lags = Vec::new(alloc);
    lags.push(Matrix::zeros(alloc, k, r)?)?;
    Ok(Code::new(k, r, lags)?)
}

#[test]
fn rates_beside_bounds(rt: HostRuntime) -> Result<(), Fail> {
    for (k, r, period, lost, want) in [
        (1, 1, 4, [0, 1].as_slice(), Rate::Equal),
        (2, 2, 4, [0, 1].as_slice(), Rate::Equal),
        (1, 2, 4, [0, 1].as_slice(), Rate::Below),
        (2, 1, 4, [0, 1].as_slice(), Rate::Above),
        (1, 1, 4, [2].as_slice(), Rate::Below),
        (2, 3, 5, [0, 1, 2].as_slice(), Rate::Equal),
        (3, 1, 4096, [1023, 4095].as_slice(), Rate::Below),
        (63, 1, 1, [].as_slice(), Rate::Below),
        (1, 63, 1, [0].as_slice(), Rate::Above),
    ] {
        let code = code(rt.alloc(), k, r)?;
        let cert = certificate(rt.alloc(), period, lost)?;
        assert_eq!(rt; compare(&code, &cert), want, "{k} {r} {period}");
    }
    Ok(())
}
