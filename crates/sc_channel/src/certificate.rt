//! A certificate: a periodic loss, by its period and its lost residues.

ghost use Rattle.std.specs.Prelude.{◌≡◌, ◌↔◌, true, IsSome, IfSome};
ghost use Rattle.sc_channel.specs.Certificate.{CertificateNumbers, IsCertificate, is_period, are_residues, is_certificate};

use std::marker::Model;

/// The longest period of a certificate, in slots.
pub const MAX_PERIOD: u32 = 4096;

/// A certificate, of this project: a period in slots, and the residues by it that are lost.
///
/// The periodic loss loses each slot whose number has a lost residue. The period is 1 to 4,096, and
/// the lost residues are strictly rising, each below the period. Whether a channel accepts the
/// certificate is another matter.
#[derive(Debug, Drop)]
pub struct Certificate {
    period: u32,
    lost: Vec<u32>,
}

impl Model for Certificate {
    ghost use Rattle.sc_channel.specs.Certificate.{CertificateNumbers, IsCertificate};

    ghost Value = { CertificateNumbers };

    ghost view = { λ c. record { period = c.period; lost = c.lost.items } };

    ghost invariant = { λ c. IsCertificate (record { period = c.period; lost = c.lost.items }) };
}

impl Certificate {
    /// The certificate of a period, in slots, and the residues that are lost. `None` exactly where the
    /// period isn't 1 to 4,096, the residues aren't strictly rising, or one isn't below the period. It
    /// takes no memory.
    pub fn new(period: u32, lost: Vec<u32>) -> Option<Certificate>
        ensures accepted { IsSome result ↔ IsCertificate (record { period = period; lost = lost.items }) }
        ensures numbers { IfSome result (λ certificate. certificate ≡ record { period = period; lost = lost.items }) }
    {
        if are_residues(period, &lost) && is_period(period) {
            Some(Certificate { period, lost })
        } else {
            None
        }
    }

    /// The period, in slots.
    pub fn period(&self) -> u32
        ensures number { result ≡ self.now.period }
        ensures limits { IsCertificate self.now }
    {
        self.period
    }

    /// The lost residues, strictly rising.
    pub fn lost(&self) -> &[u32]
        ensures residues { result.now ≡ self.now.lost }
        ensures limits { IsCertificate self.now }
    {
        self.lost.as_slice()
    }
}

/// Whether this may be a period.
fn is_period(period: u32) -> bool
    ensures { result ≡ is_period period }
{
    1 <= period && period <= MAX_PERIOD
}

/// Whether the numbers are strictly rising and below the period.
fn are_residues(period: u32, lost: &[u32]) -> bool
    ensures { result ≡ are_residues period 0 lost.now }
{
    let mut least = 0;
    for residue in lost {
        if *residue < least || period <= *residue {
            return false;
        }
        least = *residue + 1;
    }
    true
}

/// The test on the numbers of a certificate is the definition of a certificate.
pub fn one_certificate()
    ensures { (numbers : CertificateNumbers) → (is_certificate numbers ≡ true) ↔ IsCertificate numbers }
{}

#[cfg(test)]
mod tests {
    use super::Certificate;
    use std::test::Fail;

    #[test]
    fn takes_periods_and_rising_residues(rt: HostRuntime) -> Result<(), Fail> {
        let alloc = rt.alloc();
        for (period, lost, want) in [
            (4, [0, 1], true),
            (4, [1, 3], true),
            (4096, [0, 4095], true),
            (4097, [0, 1], false),
            (0, [0, 1], false),
            (4, [1, 1], false),
            (4, [1, 0], false),
            (4, [1, 4], false),
            (2, [4294967295, 0], false),
        ] {
            let certificate = Certificate::new(period, vec![in alloc; lost[0], lost[1]]?);
            assert_eq!(rt; certificate.is_some(), want, "at {period}");
            if let Some(kept) = certificate {
                assert_eq!(rt; (kept.period(), kept.lost()), (period, lost.as_slice()));
            }
        }
        assert!(rt; Certificate::new(1, Vec::new(alloc)).is_some());
        assert!(rt; Certificate::new(0, Vec::new(alloc)).is_none());
        Ok(())
    }
}
