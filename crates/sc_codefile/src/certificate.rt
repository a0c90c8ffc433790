//! Certificates as files: reading one, and printing one.

ghost use Rattle.std.specs.Prelude.{◌≡◌, ◌⊎◌, true, Some, Err, IfOk, IfErr, nat_lt};
ghost use Rattle.std.specs.List.{list_all};
ghost use Rattle.serde_json.specs.View.{view};
ghost use Rattle.sc_channel.specs.Certificate.{IsCertificate, are_residues, is_period};
ghost use Rattle.sc_codefile.specs.Value.{array_of, number_value};
ghost use Rattle.sc_codefile.specs.Fault.{first_of, IsRefusedFor};
ghost use Rattle.sc_codefile.specs.Numbers.{IsFound};
ghost use Rattle.sc_codefile.specs.CertificateFile.{lost_at, period_at, certificate_faults, IsCertificateText, certificate_text, certificate_value, HasPeriodNumbers, period_faults, HasCertificate};
ghost use Rattle.sc_codefile.specs.Reading.{certificate_reading};

use crate::fault::{FileFault, Key};
use crate::lists::ListOf;
use crate::numbers::{check_keys, found_at};
use crate::read::value_of;
use sc_channel::{Certificate, MAX_PERIOD};
use sc_outside::NoMemory;
use serde_json::{Value, json};
use std::alloc::Global;

/// The certificate that the bytes are. They are refused for the first fault: no JSON value, then the shapes of the keys in
/// their order, and then the ranges in the same order.
pub fn read_certificate(alloc: Global, text: &[u8]) -> Result<Certificate, FileFault>
    ensures file { IfOk result (IsCertificateText text.now) }
    ensures fault { IfErr result (IsRefusedFor certificate_faults text.now) }
    ensures reading { (result ≡ Err FileFault.Memory) ⊎ (result ≡ certificate_reading text.now) }
{
    read_value(alloc, text)
}

/// The same, by the value that the bytes are.
fn read_value(alloc: Global, text: &[u8]) -> Result<Certificate, FileFault>
    ensures file { IfOk result (IsCertificateText text.now) }
    ensures fault { IfErr result (IsRefusedFor certificate_faults text.now) }
{
    let value = value_of(alloc, text)?;
    let numbers = numbers_of(alloc, &value)?;
    certificate_of(alloc, &numbers)
}

/// The numbers that a value has at the keys of a certificate, within no range yet.
#[derive(Drop)]
struct PeriodNumbers {
    lost: ListOf<u64>,
    period: u64,
}

/// The numbers at the keys of a certificate, or the first fault of a shape.
fn numbers_of(alloc: Global, value: &Value) -> Result<PeriodNumbers, FileFault>
    ensures numbers { IfOk result (HasPeriodNumbers (view value.now)) }
    ensures fault { IfErr result (λ fault. (fault ≡ FileFault.Memory) ⊎ (first_of (certificate_faults (view value.now)) ≡ Some fault)) }
{
    check_keys(value, &["lost", "period"])?;
    let lost = lost_at(alloc, value)?;
    let period = period_at(alloc, value)?;
    Ok(PeriodNumbers { lost, period })
}

/// The list of whole numbers at `lost`.
#[tactic(auto, unfolding(crate::specs::CertificateFile::lost_at))]
fn lost_at(alloc: Global, value: &Value) -> Result<ListOf<u64>, FileFault>
    ensures { IsFound (lost_at (view value.now)) Key.Lost result }
{
    found_at(alloc, value, "lost", Key::Lost)
}

/// The whole number at `period`.
#[tactic(auto, unfolding(crate::specs::CertificateFile::period_at))]
fn period_at(alloc: Global, value: &Value) -> Result<u64, FileFault>
    ensures { IsFound (period_at (view value.now)) Key.Period result }
{
    found_at(alloc, value, "period", Key::Period)
}

/// The certificate of these numbers, or the first fault of a range.
fn certificate_of(alloc: Global, numbers: &PeriodNumbers) -> Result<Certificate, FileFault>
    ensures file { IfOk result (HasCertificate numbers.now) }
    ensures fault { IfErr result (λ fault. (fault ≡ FileFault.Memory) ⊎ (first_of (period_faults numbers.now) ≡ Some fault)) }
{
    if !are_residues(numbers.period, numbers.lost.as_slice()) {
        return Err(FileFault::Range(Key::Lost));
    }
    if !is_period(numbers.period) {
        return Err(FileFault::Range(Key::Period));
    }
    Ok(certificate_in_range(alloc, numbers)?)
}

/// Whether the numbers are strictly rising and below the period.
fn are_residues(period: u64, lost: &[u64]) -> bool
    ensures { result ≡ are_residues period 0 lost.now }
{
    let mut least = 0;
    for residue in lost {
        if *residue < least || period <= *residue {
            return false;
        }
        least = *residue + 1;
    }
    true
}

/// Whether this may be a period.
fn is_period(period: u64) -> bool
    ensures { result ≡ is_period period }
{
    1 <= period && period <= u64::from(MAX_PERIOD)
}

/// The certificate of numbers in range.
fn certificate_in_range(alloc: Global, numbers: &PeriodNumbers) -> Result<Certificate, NoMemory>
    requires residues { are_residues numbers.now.period 0 numbers.now.lost ≡ true }
    requires period { is_period numbers.now.period ≡ true }
    ensures { IfOk result (HasCertificate numbers.now) }
{
    let lost = narrowed(alloc, numbers.lost.as_slice())?;
    Ok(Certificate::new(numbers.period as u32, lost).unwrap())
}

/// The residues in 32 bits.
fn narrowed(alloc: Global, lost: &[u64]) -> Result<Vec<u32>, NoMemory>
    requires { list_all (λ x. nat_lt x 4096) lost.now ≡ true }
    ensures { IfOk result (λ residues. residues.items ≡ lost.now) }
{
    let mut residues = Vec::with_capacity(alloc, lost.len())?;
    for residue in lost {
        residues.push(*residue as u32)?;
    }
    Ok(residues)
}

/// The text of a certificate: compact, its keys in the order of their bytes, numbers in decimal, and no newline behind it. It
/// reads back as the certificate.
pub fn print_certificate(alloc: Global, cert: &Certificate) -> Result<Vec<u8>, NoMemory>
    ensures text { IfOk result (λ text. text.items ≡ certificate_text cert.now) }
    ensures reads_back { IfOk result (λ text. IsCertificateText text.items cert.now) }
{
    let value = certificate_value(alloc, cert)?;
    Ok(value.to_vec(alloc)?)
}

/// The value of a certificate.
fn certificate_value(alloc: Global, cert: &Certificate) -> Result<Value, NoMemory>
    ensures value { IfOk result (λ value. view value ≡ certificate_value cert.now) }
    ensures limits { IfOk result (λ _. IsCertificate cert.now) }
{
    let lost = lost_value(alloc, cert.lost())?;
    let period = cert.period();
    Ok(json!(in alloc; {"lost": lost, "period": period})?)
}

/// The value of the lost residues.
fn lost_value(alloc: Global, lost: &[u32]) -> Result<Value, NoMemory>
    ensures { IfOk result (λ value. view value ≡ array_of number_value lost.now) }
{
    let mut numbers = Vec::with_capacity(alloc, lost.len())?;
    for residue in lost {
        numbers.push(Value::from(*residue))?;
    }
    Ok(Value::Array(numbers))
}
