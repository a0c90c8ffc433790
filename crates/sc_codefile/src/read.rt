//! Reading a code file.

ghost use Rattle.std.specs.Prelude.{◌≡◌, ◌⊎◌, Err, IfOk, IfErr};
ghost use Rattle.serde_json.specs.View.{view};
ghost use Rattle.sc_codefile.specs.Value.{IsValueOf, IsNotJson};
ghost use Rattle.sc_codefile.specs.Fault.{IsRefusedFor};
ghost use Rattle.sc_codefile.specs.CodeFile.{IsCodeFileText, code_faults};
ghost use Rattle.sc_codefile.specs.Reading.{code_reading};

use crate::fault::FileFault;
use crate::numbers::numbers_of;
use crate::ranges::code_file;
use sc_code::CodeFile;
use serde_json::Value;
use std::alloc::Global;

/// The code file that the bytes are. They are refused for the first fault: no JSON value, then the shapes of the keys in
/// their order, and then the ranges in the same order.
pub fn read_code(alloc: Global, text: &[u8]) -> Result<CodeFile, FileFault>
    ensures file { IfOk result (IsCodeFileText text.now) }
    ensures fault { IfErr result (IsRefusedFor code_faults text.now) }
    ensures reading { (result ≡ Err FileFault.Memory) ⊎ (result ≡ code_reading text.now) }
{
    read_value(alloc, text)
}

/// The same, by the value that the bytes are.
fn read_value(alloc: Global, text: &[u8]) -> Result<CodeFile, FileFault>
    ensures file { IfOk result (IsCodeFileText text.now) }
    ensures fault { IfErr result (IsRefusedFor code_faults text.now) }
{
    let value = value_of(alloc, text)?;
    let numbers = numbers_of(alloc, &value)?;
    code_file(alloc, &numbers)
}

/// The value that the bytes are.
pub(crate) fn value_of(alloc: Global, text: &[u8]) -> Result<Value, FileFault>
    ensures value { IfOk result (λ value. IsValueOf text.now (view value)) }
    ensures fault { IfErr result (λ fault. (fault ≡ FileFault.Memory) ⊎ ((fault ≡ FileFault.NotJson) × IsNotJson text.now)) }
{
    match Value::from_slice(alloc, text) {
        Ok(value) => Ok(value),
        Err(error) if error.is_memory() => Err(FileFault::Memory),
        Err(_) => Err(FileFault::NotJson),
    }
}
