ghost use Rattle.std.specs.Prelude.{◌≡◌, ◌≤◌};
ghost use Rattle.cpog_outside.specs.Causes.{next_count};
ghost use Rattle.cpog_outside.specs.Stores.{next_call, names_next_call};

use std::marker::Model;

/// The numbers of the calls that fail, from 1, and how many calls and faults there were.
#[derive(Drop)]
pub(crate) struct FaultPlan {
    failing: Vec<u32>,
    calls: u32,
    faults: u64,
}

impl Model for FaultPlan {
    ghost use Rattle.cpog_outside.specs.Stores.{Plan};

    ghost Value = { Plan };

    ghost view = { λ p. record { failing = p.failing.items; calls = p.calls; faults = p.faults } };
}

impl FaultPlan {
    /// No call was made yet.
    pub(crate) fn new(failing: Vec<u32>) -> FaultPlan
        ensures { result ≡ record { failing = failing.items; calls = 0; faults = 0 } }
    {
        FaultPlan {
            failing,
            calls: 0,
            faults: 0,
        }
    }

    /// Counts a call, and says whether it is one that fails.
    pub(crate) fn begin_call(&mut self) -> bool
        ensures fails { result ≡ names_next_call self.old }
        ensures same { self.new ≡ record self.old { calls = next_call self.old } }
    {
        self.calls = self.calls.saturating_add(1);
        self.failing.contains(&self.calls)
    }

    /// Counts a fault.
    pub(crate) fn count_fault(&mut self)
        ensures same { self.new ≡ record self.old { faults = next_count self.old.faults } }
        ensures later { self.old.faults ≤ self.new.faults }
    {
        self.faults = self.faults.saturating_add(1);
    }
}
