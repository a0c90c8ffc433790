ghost use Rattle.std.specs.Prelude.{◌≡◌, IfOk, length};

use std::alloc::{AllocError, Global};

/// `n` bytes that take many values: the bytes of `start`, `start + 37`, `start + 74` and so on.
pub fn patterned(alloc: Global, n: usize, start: u8) -> Result<Vec<u8>, AllocError>
    ensures { IfOk result (λ bytes. length bytes.items ≡ n) }
{
    let mut bytes = vec![in alloc; start; n]?;
    let mut next = start;
    for i in 0..n {
        bytes[i] = next;
        next = next.wrapping_add(37);
    }
    Ok(bytes)
}
