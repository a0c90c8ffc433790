//! The rate of a code beside the bound of a certificate.

ghost use Rattle.std.specs.Prelude.{◌≡◌, ◌≢◌, ◌↔◌, ◌+◌, ◌*◌, ◌<◌, ◌≤◌};
ghost use Rattle.sc_field.specs.Gf256.{gf256_product};
ghost use Rattle.sc_channel.specs.Channel.{ChannelNumbers};
ghost use Rattle.sc_channel.specs.Certificate.{IsAccepted, IsCertificate};
ghost use Rattle.sc_code.specs.Determined.{Meets};
ghost use Rattle.sc_rate.specs.Rate.{kept_count};
ghost use Rattle.sc_rate.specs.Compared.{beside, compared};
ghost use Rattle.sc_rate.specs.declared.rate.Rate.TheVariants.{Below, Equal, Above};

use sc_channel::Certificate;
use sc_code::ByteCode;
use std::cmp::Ordering;

/// How the rate of a code, `k / (k + r)`, stands to the bound of a certificate, `(P - l) / P`.
#[derive(Copy, Clone, Debug, PartialEq, Eq)]
pub enum Rate {
    /// Below the bound.
    Below,
    /// Equal to it.
    Equal,
    /// Above it. It never comes where the code meets a channel that accepts the certificate.
    Above,
}

/// How many slots of a period a certificate keeps: its period less its lost residues.
pub fn kept_slots(cert: &Certificate) -> u32
    ensures kept { result ≡ kept_count cert.now }
    ensures bound { result ≤ cert.now.period }
    ensures limits { IsCertificate cert.now }
{
    cert.period() - cert.lost().len() as u32
}

/// How the rate of a code, `k` symbols of a block out of the `k + r` that are sent in a slot, stands to the bound of a
/// certificate, its kept slots out of its period: as `k * P` to `(P - l) * (k + r)`, for the period `P` and `l` lost residues.
/// `Above` never comes where the code meets a channel that accepts the certificate. It takes no memory.
pub fn compare(code: &ByteCode, cert: &Certificate) -> Rate
    ensures value { result ≡ compared code.now cert.now }
    ensures below { (result ≡ Below) ↔ (code.now.k * cert.now.period < kept_count cert.now * (code.now.k + code.now.r)) }
    ensures equal { (result ≡ Equal) ↔ (code.now.k * cert.now.period ≡ kept_count cert.now * (code.now.k + code.now.r)) }
    ensures above { (result ≡ Above) ↔ (kept_count cert.now * (code.now.k + code.now.r) < code.now.k * cert.now.period) }
    ensures bounded { (channel : ChannelNumbers) → Meets 0 gf256_product code.now channel → IsAccepted channel cert.now → result ≢ Above }
{
    let period = cert.period() as usize;
    let kept = kept_slots(cert) as usize;
    rate_of(code.k() * period, kept * (code.k() + code.r()))
}

/// How a rate stands to a bound, over one denominator.
fn rate_of(rate: usize, bound: usize) -> Rate
    ensures value { result ≡ beside rate bound }
    ensures below { (result ≡ Below) ↔ (rate < bound) }
    ensures equal { (result ≡ Equal) ↔ (rate ≡ bound) }
    ensures above { (result ≡ Above) ↔ (bound < rate) }
{
    match rate.cmp(&bound) {
        Ordering::Less => Rate::Below,
        Ordering::Equal => Rate::Equal,
        Ordering::Greater => Rate::Above,
    }
}
