//! The flags of a loss, one a slot, set where the slot is lost.

ghost use Rattle.std.specs.Prelude.{◌≡◌, ◌<◌, ◌==◌, [], ◌∷◌, ◌++◌, length, OnOk, OnErr, slice_get};

use sc_outside::NoMemory;
use std::alloc::Global;
use std::marker::Model;

/// The most flags of a loss: a protected capture has at most as many slots.
pub const MAX_FLAGS: usize = 4_000_000;

/// A list of flags, one a slot: a set flag means that the slot is lost.
#[derive(Debug, Drop)]
pub struct Flags {
    flags: Vec<bool>,
}

impl Model for Flags {
    ghost use Rattle.std.specs.Prelude.{List, Bool};

    ghost Value = { List Bool };

    ghost view = { λ s. s.flags.items };
}

impl Flags {
    /// No flags. It takes no memory.
    pub fn new(alloc: Global) -> Flags
        ensures { result ≡ [] }
    {
        Flags {
            flags: Vec::new(alloc),
        }
    }

    /// The flags of a vector. It takes no memory.
    pub fn from_vec(flags: Vec<bool>) -> Flags
        ensures { result ≡ flags.items }
    {
        Flags { flags }
    }

    /// The flags as a vector. It takes no memory.
    pub fn into_vec(self) -> Vec<bool>
        ensures { result.items ≡ self }
    {
        let Flags { flags } = self;
        flags
    }

    /// Appends the flag of the next slot: `lost` where that slot is lost.
    pub fn push(&mut self, lost: bool) -> Result<(), NoMemory>
        ensures ok { OnOk result (self.new ≡ self.old ++ lost ∷ []) }
        ensures err { OnErr result (self.new ≡ self.old) }
    {
        self.flags.push(lost)?;
        Ok(())
    }

    /// The number of flags, which is the number of slots.
    pub fn len(&self) -> usize
        ensures { result ≡ length self.now }
    {
        self.flags.len()
    }

    /// Whether there is no flag.
    pub fn is_empty(&self) -> bool
        ensures { result ≡ (length self.now == 0) }
    {
        self.flags.is_empty()
    }

    /// Flag `i`, counted from 0.
    pub fn get(&self, i: usize) -> bool
        requires { i < length self.now }
        ensures { slice_get self.now i ≡ Some result }
    {
        self.flags[i]
    }

    /// The flags in order.
    pub fn as_slice(&self) -> &[bool]
        ensures { result.now ≡ self.now }
    {
        self.flags.as_slice()
    }
}

#[cfg(test)]
mod tests {
    use super::Flags;
    use std::test::Fail;

    #[test]
    fn keeps_flags_in_order(rt: HostRuntime) -> Result<(), Fail> {
        let mut many = Flags::new(rt.alloc());
        for i in 0..3000u32 {
            many.push(i % 7 == 0)?;
        }
        assert_eq!(rt; many.len(), 3000);
        assert_eq!(rt; many.as_slice().iter().filter(|lost| **lost).count(), 429);
        let mut flags = Flags::new(rt.alloc());
        flags.push(true)?;
        flags.push(false)?;
        let flags = Flags::from_vec(flags.into_vec());
        assert_eq!(rt; flags.len(), 2);
        assert!(rt; !flags.is_empty() && flags.get(0) && !flags.get(1));
        assert_eq!(rt; flags.as_slice(), [true, false].as_slice());
        Ok(())
    }
}
