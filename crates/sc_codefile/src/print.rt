//! Printing a code file.

ghost use Rattle.std.specs.Prelude.{◌≡◌, ◌<◌, IfOk, length};
ghost use Rattle.serde_json.specs.View.{view};
ghost use Rattle.sc_matrix.specs.Matrix.{row};
ghost use Rattle.sc_channel.specs.Channel.{IsChannel};
ghost use Rattle.sc_code.specs.Code.{IsCode, lag_matrix};
ghost use Rattle.sc_codefile.specs.Value.{array_of, number_value};
ghost use Rattle.sc_codefile.specs.CodeFile.{IsCodeFileText, rows_of};
ghost use Rattle.sc_codefile.specs.CodeText.{four_numbers, code_text, code_value};

use sc_channel::Channel;
use sc_code::{ByteCode, CodeFile};
use sc_field::Field;
use sc_outside::NoMemory;
use serde_json::{Value, json};
use std::alloc::Global;

/// The text of a code file: compact, its keys in the order of their bytes, numbers in decimal, and no newline behind it. It
/// reads back as the file.
pub fn print_code(alloc: Global, file: &CodeFile) -> Result<Vec<u8>, NoMemory>
    ensures text { IfOk result (λ text. text.items ≡ code_text file.now) }
    ensures reads_back { IfOk result (λ text. IsCodeFileText text.items file.now) }
{
    let value = code_value(alloc, file)?;
    Ok(value.to_vec(alloc)?)
}

/// The value of a code file.
fn code_value(alloc: Global, file: &CodeFile) -> Result<Value, NoMemory>
    ensures value { IfOk result (λ value. view value ≡ code_value file.now) }
    ensures limits { IfOk result (λ _. IsChannel file.now.channel × IsCode (λ x. x < 256) file.now.code) }
{
    let channel = channel_value(alloc, &file.channel)?;
    let lags = lags_value(alloc, &file.code)?;
    let (k, r) = (file.code.k(), file.code.r());
    Ok(json!(in alloc; {"channel": channel, "k": k, "lags": lags, "r": r})?)
}

/// The value of a channel: the list of its numbers.
fn channel_value(alloc: Global, channel: &Channel) -> Result<Value, NoMemory>
    ensures value { IfOk result (λ value. view value ≡ array_of number_value (four_numbers channel.now)) }
    ensures limits { IfOk result (λ _. IsChannel channel.now) }
{
    let (w, b, n, t) = (channel.w(), channel.b(), channel.n(), channel.t());
    Ok(json!(in alloc; [w, b, n, t])?)
}

/// The value of a code's matrices.
fn lags_value(alloc: Global, code: &ByteCode) -> Result<Value, NoMemory>
    ensures { IfOk result (λ value. view value ≡ array_of (array_of (array_of number_value)) (rows_of code.now.lags)) }
{
    let count = code.memory() + 1;
    let mut lags = Vec::with_capacity(alloc, count)?;
    for lag in 0..count {
        lags.push(matrix_value(alloc, code, lag)?)?;
    }
    Ok(Value::Array(lags))
}

/// The value of the matrix of a lag.
fn matrix_value(alloc: Global, code: &ByteCode, lag: usize) -> Result<Value, NoMemory>
    requires { lag < length code.now.lags }
    ensures { IfOk result (λ value. view value ≡ array_of (array_of number_value) (lag_matrix code.now lag).rows) }
{
    let mut rows = Vec::with_capacity(alloc, code.k())?;
    for i in 0..code.k() {
        rows.push(row_value(alloc, code, lag, i)?)?;
    }
    Ok(Value::Array(rows))
}

/// The value of a row of the matrix of a lag.
fn row_value(alloc: Global, code: &ByteCode, lag: usize, i: usize) -> Result<Value, NoMemory>
    requires lag { lag < length code.now.lags }
    requires row { i < code.now.k }
    ensures { IfOk result (λ value. view value ≡ array_of number_value (row (lag_matrix code.now lag) i)) }
{
    let mut numbers = Vec::with_capacity(alloc, code.r())?;
    for j in 0..code.r() {
        numbers.push(Value::from(code.coefficient(lag, i, j).number()))?;
    }
    Ok(Value::Array(numbers))
}
