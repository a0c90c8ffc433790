//! The standard certificate of a channel.

ghost use Rattle.std.specs.Prelude.{◌≡◌, IfOk};
ghost use Rattle.std.specs.List.{range_with_len};
ghost use Rattle.sc_channel.specs.Channel.{IsChannel};
ghost use Rattle.sc_channel.specs.Certificate.{IsAccepted};
ghost use Rattle.sc_rate.specs.Standard.{standard_period, standard_certificate};

use sc_channel::{Certificate, Channel};
use sc_outside::NoMemory;
use std::alloc::Global;

/// The period of the channel's standard certificate, `t + 1 - n + b` slots, and the number of its lost residues, `b`. It takes
/// no memory.
pub fn standard_numbers(channel: &Channel) -> (u32, u32)
    ensures period { result.0 ≡ standard_period channel.now }
    ensures lost { result.1 ≡ channel.now.b }
    ensures limits { IsChannel channel.now }
{
    (channel.t() + 1 - channel.n() + channel.b(), channel.b())
}

/// The channel's standard certificate: the period `t + 1 - n + b`, with the lost residues 0 to `b - 1`. The channel accepts it.
pub fn standard(alloc: Global, channel: &Channel) -> Result<Certificate, NoMemory>
    ensures numbers { IfOk result (λ cert. cert ≡ standard_certificate channel.now) }
    ensures accepted { IfOk result (IsAccepted channel.now) }
{
    let (period, count) = standard_numbers(channel);
    let lost = first_numbers(alloc, count)?;
    Ok(Certificate::new(period, lost).unwrap())
}

/// The numbers below `count`.
fn first_numbers(alloc: Global, count: u32) -> Result<Vec<u32>, NoMemory>
    ensures { IfOk result (λ numbers. numbers.items ≡ range_with_len 0 count) }
{
    let mut numbers = Vec::with_capacity(alloc, count as usize)?;
    for number in 0..count {
        numbers.push(number)?;
    }
    Ok(numbers)
}
