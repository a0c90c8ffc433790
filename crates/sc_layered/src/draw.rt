//! The generator of all draws, and nonzero draws.
ghost use Rattle.std.specs.Prelude.{◌≡◌, ◌<◌, IfOk};
ghost use Rattle.rand_pcg.specs.Lcg.{advance};
ghost use Rattle.rand_pcg.specs.Pcg.{multiplier_64};
ghost use Rattle.sc_layered.specs.Draw.{generator, word_at, nonzero_at, nonzero_draws};

use rand_core::utils::NextWord;
use rand_pcg::Pcg32;
use sc_outside::NoMemory;
use std::alloc::Global;
use std::marker::Model;

/// The sequence of PCG32 that all draws of the project use.
const SEQUENCE: u64 = 54;

/// The generator that is started from a number: PCG32 after O'Neill, on this project's sequence. It takes no memory.
pub fn generator(seed: u64) -> Pcg32
    ensures { result ≡ generator seed }
{
    Pcg32::new(seed, SEQUENCE)
}

/// Draws a byte that isn't zero: one more than the remainder of the next word by 255.
fn draw_nonzero(words: &mut Pcg32) -> u8
    ensures byte { result ≡ nonzero_at words.old 0 }
    ensures step { words.new ≡ advance 64 multiplier_64 1 words.old }
{
    (1 + words.next_word() % 255) as u8
}

/// The first nonzero draws of a seed: draw `i` is one more than the remainder of word `i` by 255.
#[derive(Drop)]
pub struct Draws {
    seed: u64,
    bytes: Vec<u8>,
}

impl Model for Draws {
    ghost use Rattle.std.specs.Prelude.{◌≡◌, length};
    ghost use Rattle.sc_layered.specs.Draw.{DrawsOf, generator, nonzero_draws};

    ghost Value = { DrawsOf };

    ghost view = { λ d. record { seed = d.seed; count = length d.bytes.items } };

    ghost invariant = { λ d. d.bytes.items ≡ nonzero_draws (generator d.seed) (length d.bytes.items) };
}

impl Draws {
    /// The first `count` draws of a seed.
    pub fn new(alloc: Global, seed: u64, count: usize) -> Result<Draws, NoMemory>
        ensures { IfOk result (λ draws. draws ≡ record { seed = seed; count = count }) }
    {
        let bytes = nonzero_draws(alloc, seed, count)?;
        Ok(Draws { seed, bytes })
    }

    /// The draw that word `place` gives, counted from 0.
    pub fn get(&self, place: usize) -> u8
        requires { place < self.now.count }
        ensures { result ≡ nonzero_at (generator self.now.seed) place }
    {
        self.bytes[place]
    }
}

/// The bytes of so many draws.
fn nonzero_draws(alloc: Global, seed: u64, count: usize) -> Result<Vec<u8>, NoMemory>
    ensures { IfOk result (λ draws. draws.items ≡ nonzero_draws (generator seed) count) }
{
    let mut words = generator(seed);
    let mut draws = Vec::with_capacity(alloc, count)?;
    for _place in 0..count {
        draws.push(draw_nonzero(&mut words))?;
    }
    Ok(draws)
}

#[cfg(test)]
mod tests {
    use super::{Draws, generator};
    use rand_core::utils::NextWord;
    use std::test::Fail;

    // Words and draws as a PCG32 in Python gives them.
    #[test]
    fn draws_words_of_the_sequence(rt: HostRuntime) -> Result<(), Fail> {
        let mut words = generator(42);
        for want in [
            0xa15c02b7, 0x7b47f409, 0xba1d3330, 0x83d2f293, 0xbfa4784b, 0xcbed606e,
        ] {
            let word: u32 = words.next_word();
            assert_eq!(rt; word, want);
        }
        let draws = Draws::new(rt.alloc(), 0, 20_000)?;
        for (place, want) in [(0, 42), (1, 219), (2, 165), (19_999, 89)] {
            assert!(rt; place < 20_000 && draws.get(place) == want, "draw {place}");
        }
        Ok(())
    }
}
