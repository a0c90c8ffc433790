//! Multipliers that were made once and are used again.
ghost use Rattle.std.specs.Prelude.{◌≡◌, ◌<◌, length, true};

use sc_field::{Field, Multiplier};
use sc_outside::NoMemory;
use std::alloc::Global;

// Multipliers that were made, each at the number of its coefficient.
#[derive(Drop)]
pub(crate) struct Tables<F: Field> {
    made: Vec<Multiplier<F>>,
    ghost size: { length made.items ≡ 256 },
}

impl<F: Field> Tables<F> {
    // None is made yet.
    pub(crate) fn none(alloc: Global) -> Result<Tables<F>, NoMemory> {
        let made = vec![in alloc; Multiplier::new(F::zero()); 256]?;
        Ok(Tables { made })
    }

    // All are made.
    pub(crate) fn all(alloc: Global) -> Result<Tables<F>, NoMemory> {
        let mut tables = Tables::none(alloc)?;
        make_all(tables.made.as_mut_slice());
        Ok(tables)
    }

    // The multiplier of `c`. It is made, if it wasn't yet.
    #[inline(always)]
    pub(crate) fn get(&mut self, c: F) -> &Multiplier<F>
        ensures { result.now.coefficient ≡ c }
    {
        c.known();
        let place = c.number() as usize;
        get_at(self.made.as_mut_slice(), place, c)
    }
}

// The multiplier of `c`, which stands at that place, if it was made.
#[inline(always)]
fn get_at<F: Field>(made: &mut [Multiplier<F>], place: usize, c: F) -> &Multiplier<F>
    requires { place < length made.old }
    ensures { result.now.coefficient ≡ c }
{
    if !is_of(&made[place], c) {
        make(&mut made[place], c);
    }
    let kept = &*made;
    &kept[place]
}
// Whether it multiplies by `c`.
#[inline(always)]
fn is_of<F: Field>(by: &Multiplier<F>, c: F) -> bool
    ensures { result ≡ true → by.now.coefficient ≡ c }
{
    c.known();
    by.coefficient.known();
    by.coefficient == c
}

// Makes it the multiplier of `c`. It stands apart, so that the way of most calls is short.
#[inline(never)]
fn make<F: Field>(by: &mut Multiplier<F>, c: F)
    ensures { by.new.coefficient ≡ c }
{
    *by = Multiplier::new(c);
}

// Writes to each place the multiplier of the element of that number, if there is one.
fn make_all<F: Field>(made: &mut [Multiplier<F>]) {
    for i in 0..made.len() {
        if i < 256 {
            if let Some(c) = F::from_number(i as u8) {
                made[i] = Multiplier::new(c);
            }
        }
    }
}
