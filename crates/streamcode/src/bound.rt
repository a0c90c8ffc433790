//! `bound` and `certify`: certificates, and the bounds on rates that they give.
ghost use Rattle.std.specs.Prelude.{◌≡◌, ◌++◌, IfOk, OnOk, string_bytes};
ghost use Rattle.sc_outside.specs.Ends.{Ends};
ghost use Rattle.streamcode.specs.Bound.{rate_word, bound_line};
ghost use Rattle.streamcode.specs.Files.{code_plan, certificate_plan};
ghost use Rattle.streamcode.specs.Jobs.{bound_job, certify_job, IsSilent};
ghost use Rattle.streamcode.specs.Plans.{owes, PlanEnds};

use crate::end::End;
use crate::files::{fetch_certificate, fetch_code};
use crate::give::give;
use crate::verdict::{push_number, push_rate};
use sc_channel::{Certificate, Channel};
use sc_code::{ByteCode, CodeFile};
use sc_codefile::print_certificate;
use sc_outside::{Cabinet, NoMemory, Port};
use sc_rate::{Rate, compare, first_bad_residue, kept_slots, standard};
use std::alloc::Global;

/// Gives the standard certificate of a channel.
pub(crate) fn bound<P: Port>(alloc: Global, channel: Channel, port: &mut P) -> End
    ensures { Ends (bound_job channel) (P.told port.old) (P.told port.new) result }
{
    let certificate = match standard(alloc, &channel) {
        Ok(certificate) => certificate,
        Err(NoMemory) => return End::NoMemory,
    };
    let mut text = match print_certificate(alloc, &certificate) {
        Ok(text) => text,
        Err(NoMemory) => return End::NoMemory,
    };
    if text.push(b'\n').is_err() {
        return End::NoMemory;
    }
    let end = End::Bound(kept_slots(&certificate), certificate.period());
    give(port, text.as_slice(), end)
}

/// How a code's rate stands to a bound, in a word.
fn word_of(rate: Rate) -> &'static str
    ensures { result.now ≡ rate_word rate }
{
    match rate {
        Rate::Below => "below",
        Rate::Equal => "equal",
        Rate::Above => "above",
    }
}

/// The line of an accepted certificate: its bound, and the rate of a code beside it.
fn accepted_line(
    alloc: Global,
    code: &ByteCode,
    certificate: &Certificate,
) -> Result<String, NoMemory>
    ensures { IfOk result (λ text. string_bytes text ≡ bound_line code.now certificate.now) }
{
    let mut text = String::from_str(alloc, "bound ")?;
    push_number(&mut text, kept_slots(certificate))?;
    text.push('/')?;
    push_number(&mut text, certificate.period())?;
    text.push_str(" code ")?;
    push_rate(&mut text, code)?;
    text.push(' ')?;
    text.push_str(word_of(compare(code, certificate)))?;
    text.push('\n')?;
    Ok(text)
}

/// Gives the bound of a certificate that the channel of a code file accepts, with the rate of its code.
fn certify_file<P: Port>(
    alloc: Global,
    file: &CodeFile,
    certificate: &Certificate,
    port: &mut P,
) -> End
    ensures ends { Ends (certify_job file.now certificate.now) (P.told port.old) (P.told port.new) result }
    ensures untouched { IsSilent (certify_job file.now certificate.now) → port.new ≡ port.old }
{
    if let Some(residue) = first_bad_residue(certificate, &file.channel) {
        return End::CertificateRefused(residue);
    }
    let text = match accepted_line(alloc, &file.code, certificate) {
        Ok(text) => text,
        Err(NoMemory) => return End::NoMemory,
    };
    give(port, text.as_str().as_bytes(), End::Accepted)
}

/// Judges the certificate of a file for the channel of a code's file.
pub(crate) fn certify<C: Cabinet, P: Port>(
    alloc: Global,
    code: &str,
    cert: &str,
    cabinet: &mut C,
    port: &mut P,
) -> End
    ensures { PlanEnds P.told (code_plan code.now (λ file. certificate_plan cert.now (λ certificate. owes (certify_job file certificate))))
        (C.told cabinet.old) (C.told cabinet.new) port.old port.new result }
{
    match fetch_code(alloc, cabinet, code) {
        Ok(file) => certify_by(alloc, &file, cert, cabinet, port),
        Err(end) => end,
    }
}

/// The same, where the code's file is there.
fn certify_by<C: Cabinet, P: Port>(
    alloc: Global,
    file: &CodeFile,
    cert: &str,
    cabinet: &mut C,
    port: &mut P,
) -> End
    ensures { PlanEnds P.told (certificate_plan cert.now (λ certificate. owes (certify_job file.now certificate)))
        (C.told cabinet.old) (C.told cabinet.new) port.old port.new result }
{
    match fetch_certificate(alloc, cabinet, cert) {
        Ok(certificate) => certify_file(alloc, file, &certificate, port),
        Err(end) => end,
    }
}
