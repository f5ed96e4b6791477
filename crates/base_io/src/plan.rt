//! The plan of a fake: which calls fail.

ghost use Rattle.std.specs.Prelude.{◌≡◌, ◌↔◌, IsTrue};
ghost use Rattle.base_io.specs.IoFaults.{HasCause};
ghost use Rattle.base_io.specs.Fakes.{FailsNext, after_call, plan_of};

use std::marker::Model;

/// The calls of one kind: the numbers of the calls that fail, and the counts of all calls and of
/// failed calls.
#[derive(Drop)]
pub struct Plan {
    failing: Vec<u64>,
    calls: u64,
    faults: u64,
}

impl Model for Plan {
    ghost use Rattle.base_io.specs.Fakes.{Plan as PlanValue};

    ghost Value = { PlanValue };

    ghost view = { λ p. record { failing = p.failing.items; calls = p.calls; faults = p.faults } };
}

impl Plan {
    /// Creates a plan for which no call was counted yet.
    pub fn new(failing: Vec<u64>) -> Plan
        ensures { result ≡ plan_of failing.items }
    {
        Plan {
            failing,
            calls: 0,
            faults: 0,
        }
    }

    /// Returns true if the next call fails.
    pub fn fails_next(&self) -> bool
        ensures { IsTrue result ↔ FailsNext self.now }
    {
        self.failing.contains(&self.calls)
    }

    /// Adds 1 to the number of calls and, if the call failed, to the number of faults. A number
    /// that has reached its maximum does not change.
    pub fn count_call(&mut self, failed: bool)
        ensures counted { self.new ≡ after_call self.old failed }
        ensures cause { HasCause self.old.faults self.new.faults failed }
    {
        self.calls = self.calls.saturating_add(1);
        if failed {
            self.faults = self.faults.saturating_add(1);
        }
    }

    /// Returns the number of failed calls.
    pub fn faults(&self) -> u64
        ensures { result ≡ self.now.faults }
    {
        self.faults
    }
}
