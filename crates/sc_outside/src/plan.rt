//! Which calls of an object in memory fail.
ghost use Rattle.std.specs.Prelude.{◌≡◌, ◌==◌};
ghost use Rattle.std.specs.List.{list_any};
ghost use Rattle.sc_outside.specs.Faults.{counted};

/// The calls that fail, by their numbers from 0, and how many calls there were so far.
#[derive(Debug, Drop)]
pub struct FailPlan {
    pub fails: Vec<u32>,
    pub calls: usize,
}

impl FailPlan {
    /// A plan before its first call.
    pub fn new(fails: Vec<u32>) -> FailPlan
        ensures { result ≡ record { fails = fails; calls = 0 } }
    {
        FailPlan { fails, calls: 0 }
    }

    /// Whether the call at hand fails.
    pub fn is_due(&self) -> bool
        ensures { result ≡ list_any (λ call. call == self.now.calls) self.now.fails.items }
    {
        let calls = self.calls;
        self.fails.iter().any(|call| *call as usize == calls)
    }

    /// Counts a call.
    pub fn count(&mut self)
        ensures { self.new ≡ record self.old { calls = counted self.old.calls } }
    {
        self.calls = self.calls.saturating_add(1);
    }
}
