//! The laws of accepted certificates. The functions do nothing: each has a law as its contract.

ghost use Rattle.std.specs.Prelude.{ℕ, MatchOption, ◌+◌, ◌*◌, ◌≤◌};
ghost use Rattle.sc_field.specs.Gf256.{gf256_product};
ghost use Rattle.sc_matrix.specs.Module.{IsByte};
ghost use Rattle.sc_channel.specs.Channel.{ChannelNumbers, IsChannel};
ghost use Rattle.sc_channel.specs.Certificate.{CertificateNumbers, IsCertificate, IsAccepted};
ghost use Rattle.sc_code.specs.Code.{Code as CodeOf, IsCode};
ghost use Rattle.sc_code.specs.Determined.{Meets};
ghost use Rattle.sc_rate.specs.Rate.{BoundsRate, BoundsByteRate, BoundIsAttained, kept_count};
ghost use Rattle.sc_rate.specs.Residue.{IsFirstBadResidue, bad_residue};
ghost use Rattle.sc_rate.specs.Standard.{standard_certificate};

/// An accepted certificate bounds the rate of every causal code that meets the channel, whatever the code is made of: with
/// `a` numbers for a slot's source symbol and `b` for what is sent in it, the `a ^ P` ways of a period's numbers are no more
/// than the `b ^ (P - l)` ways of its kept slots. Where these are `k` and `n` bytes, `k * P <= (P - l) * n`. For each `a` some
/// code attains the bound, on the channel in which of two slots in a row at most one is lost.
pub fn certificate_bounds_rate()
    ensures symbols { BoundsRate }
    ensures bytes { BoundsByteRate }
    ensures attained { BoundIsAttained }
{}

/// The standard certificate of a channel is a certificate, and the channel accepts it.
pub fn standard_is_accepted()
    ensures certificate { (channel : ChannelNumbers) → IsChannel channel → IsCertificate (standard_certificate channel) }
    ensures accepted { (channel : ChannelNumbers) → IsChannel channel → IsAccepted channel (standard_certificate channel) }
{}

/// A code over GF(256) that meets a channel which accepts a certificate has `k * P <= (P - l) * (k + r)`, for the period `P` and
/// `l` lost residues: it is a table code at every horizon, with `256 ^ k` and `256 ^ (k + r)` symbols.
pub fn accepted_certificates_bound_byte_codes()
    ensures { (code : CodeOf ℕ) (channel : ChannelNumbers) (certificate : CertificateNumbers) → IsCode IsByte code → Meets 0 gf256_product code channel
        → IsCertificate certificate → IsAccepted channel certificate → code.k * certificate.period ≤ kept_count certificate * (code.k + code.r) }
{}

/// The first bad residue as a function: there is none exactly where the channel accepts the certificate, and else it is the
/// first from which the periodic loss isn't admissible.
pub fn bad_residue_answers()
    ensures { (channel : ChannelNumbers) (certificate : CertificateNumbers)
        → MatchOption (bad_residue channel certificate) (IsAccepted channel certificate) (IsFirstBadResidue channel certificate) }
{}
