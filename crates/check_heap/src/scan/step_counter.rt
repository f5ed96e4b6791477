//! A counter of steps.

ghost use Rattle.std.specs.Prelude.{◌≡◌, ◌+◌, ◌^◌, ◌<◌, ◌≤◌};

use std::marker::Model;

/// The number of steps so far, at most `u64::MAX`.
#[derive(Drop)]
pub struct Steps {
    taken: u64,
}

impl Model for Steps {
    ghost use Rattle.std.specs.Prelude.{ℕ};

    ghost Value = { ℕ };

    ghost view = { λ s. s.taken };
}

impl Steps {
    /// Creates a counter at 0.
    pub fn new() -> Steps
        ensures { result ≡ 0 }
    {
        Steps { taken: 0 }
    }

    /// Returns the number of steps so far.
    pub fn taken(&self) -> u64
        ensures { result ≡ self.now }
    {
        self.taken
    }

    /// Adds one step. The counter stays at its maximum.
    pub fn raise(&mut self)
        ensures counted { self.old + 1 < 2 ^ 64 → self.new ≡ self.old + 1 }
        ensures more { self.new ≤ self.old + 1 }
        ensures kept { self.old ≤ self.new }
    {
        self.taken = self.taken.saturating_add(1);
    }
    /// Adds `more` steps. The counter stays at its maximum.
    pub fn raise_by(&mut self, more: u64)
        ensures counted { self.old + more < 2 ^ 64 → self.new ≡ self.old + more }
        ensures more { self.new ≤ self.old + more }
        ensures kept { self.old ≤ self.new }
    {
        self.taken = self.taken.saturating_add(more);
    }
}
