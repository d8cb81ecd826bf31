//! Which calls of an object in memory fail.
ghost use Rattle.std.specs.Prelude.{◌≡◌};
ghost use Rattle.gui_edge.specs.FaultPlan.{plan_of, next_fails, after_call};

use std::marker::Model;

/// The numbers of the calls that fail, and a count of the calls. The first call has the number 1, and calls
/// past 2^64 - 1 have none.
pub struct FaultPlan {
    numbers: Vec<u64>,
    calls: u64,
    failed: u64,
}

impl Drop for FaultPlan {
    /// Lets go of every field in one call, which keeps the proofs of its owners short.
    fn drop(self) {
        let FaultPlan {
            numbers: _,
            calls: _,
            failed: _,
        } = self;
    }
}

impl Model for FaultPlan {
    ghost use Rattle.std.specs.Prelude.{◌≤◌};
    ghost use Rattle.gui_edge.specs.FaultPlan.{PlanState};

    ghost Value = { PlanState };

    ghost view = { λ p. record { numbers = p.numbers.items; calls = p.calls; failed = p.failed } };

    ghost invariant = { λ p. p.failed ≤ p.calls };
}

impl FaultPlan {
    /// A plan before the first call.
    pub fn new(numbers: Vec<u64>) -> FaultPlan
        ensures { result ≡ plan_of numbers.items }
    {
        FaultPlan {
            numbers,
            calls: 0,
            failed: 0,
        }
    }

    /// How many calls there were.
    pub fn calls(&self) -> u64
        ensures { result ≡ self.now.calls }
    {
        self.calls
    }

    /// Counts a call, and tells whether it fails.
    pub fn call_fails(&mut self) -> bool
        ensures answer { result ≡ next_fails self.old }
        ensures plan { self.new ≡ after_call self.old }
    {
        if self.calls == u64::MAX {
            return false;
        }
        self.calls += 1;
        let fails = self.numbers.contains(&self.calls);
        if fails {
            self.failed += 1;
        }
        fails
    }
}
