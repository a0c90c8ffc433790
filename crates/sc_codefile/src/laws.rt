//! Laws of files. The functions do nothing: each has a law as its contract.

ghost use Rattle.std.specs.Prelude.{◌≡◌, ◌≢◌, ℕ, List, Bool, None};
ghost use Rattle.serde_json.specs.Data.{Data};
ghost use Rattle.sc_channel.specs.Certificate.{CertificateNumbers};
ghost use Rattle.sc_code.specs.declared.code.CodeFile.{CodeFile};
ghost use Rattle.sc_codefile.specs.Value.{IsValueOf};
ghost use Rattle.sc_codefile.specs.Fault.{first_of, IsRefusedFor};
ghost use Rattle.sc_codefile.specs.CodeFile.{IsCodeFile, IsCodeFileText, code_faults};
ghost use Rattle.sc_codefile.specs.CertificateFile.{IsCertificateFile, IsCertificateText, certificate_faults};
ghost use Rattle.sc_codefile.specs.LossFile.{IsLossFile, IsLossText, loss_faults};

use crate::fault::FileFault;

/// Bytes have at most one value, and a value is a code file of at most one file. It is one exactly where it has no fault. So
/// bytes that are a code file are refused for want of memory alone, and other bytes for one fault beside it.
pub fn one_code_file()
    ensures value { (text : List ℕ) (d e : Data) → IsValueOf text d → IsValueOf text e → d ≡ e }
    ensures file { (d : Data) (file other : CodeFile) → IsCodeFile d file → IsCodeFile d other → file ≡ other }
    ensures no_fault { (d : Data) (file : CodeFile) → IsCodeFile d file → first_of (code_faults d) ≡ None }
    ensures some_file { (d : Data) → first_of (code_faults d) ≡ None → (file : CodeFile) × IsCodeFile d file }
    ensures refused { (text : List ℕ) (file : CodeFile) (fault : FileFault) → IsCodeFileText text file → IsRefusedFor code_faults text fault → fault ≡ FileFault.Memory }
    ensures refusal { (text : List ℕ) (fault other : FileFault) → IsRefusedFor code_faults text fault → IsRefusedFor code_faults text other → fault ≢ FileFault.Memory → other ≢ FileFault.Memory → fault ≡ other }
{}

/// The same of certificates: a value is at most one certificate, and it is one exactly where it has no fault. Bytes that are a
/// certificate are refused for want of memory alone, and other bytes for one fault beside it.
pub fn one_certificate_file()
    ensures certificate { (d : Data) (certificate other : CertificateNumbers) → IsCertificateFile d certificate → IsCertificateFile d other → certificate ≡ other }
    ensures no_fault { (d : Data) (certificate : CertificateNumbers) → IsCertificateFile d certificate → first_of (certificate_faults d) ≡ None }
    ensures some_certificate { (d : Data) → first_of (certificate_faults d) ≡ None → (certificate : CertificateNumbers) × IsCertificateFile d certificate }
    ensures refused { (text : List ℕ) (certificate : CertificateNumbers) (fault : FileFault) → IsCertificateText text certificate → IsRefusedFor certificate_faults text fault → fault ≡ FileFault.Memory }
    ensures refusal { (text : List ℕ) (fault other : FileFault) → IsRefusedFor certificate_faults text fault → IsRefusedFor certificate_faults text other → fault ≢ FileFault.Memory → other ≢ FileFault.Memory → fault ≡ other }
{}

/// The same of losses: a value is at most one loss, and it is one exactly where it has no fault. Bytes that are a loss are
/// refused for want of memory alone, and other bytes for one fault beside it.
pub fn one_loss_file()
    ensures loss { (d : Data) (flags other : List Bool) → IsLossFile d flags → IsLossFile d other → flags ≡ other }
    ensures no_fault { (d : Data) (flags : List Bool) → IsLossFile d flags → first_of (loss_faults d) ≡ None }
    ensures some_loss { (d : Data) → first_of (loss_faults d) ≡ None → (flags : List Bool) × IsLossFile d flags }
    ensures refused { (text : List ℕ) (flags : List Bool) (fault : FileFault) → IsLossText text flags → IsRefusedFor loss_faults text fault → fault ≡ FileFault.Memory }
    ensures refusal { (text : List ℕ) (fault other : FileFault) → IsRefusedFor loss_faults text fault → IsRefusedFor loss_faults text other → fault ≢ FileFault.Memory → other ≢ FileFault.Memory → fault ≡ other }
{}
