ghost use Rattle.std.specs.Prelude.{◌≡◌, ◌≤◌};
ghost use Rattle.ax_faults.specs.Faults.{raised, Rose};

use std::marker::Model;

/// How often something has failed. Contracts see it as a whole number, which stays at 2^64 - 1 once
/// it has come there.
#[derive(Debug, Drop)]
pub struct FaultCount {
    count: u64,
}

impl Model for FaultCount {
    ghost use Rattle.std.specs.Prelude.{ℕ};

    ghost Value = { ℕ };

    ghost view = { λ faults. faults.count };
}

impl FaultCount {
    /// Nothing has failed.
    pub fn new() -> FaultCount
        ensures { result ≡ 0 }
    {
        FaultCount { count: 0 }
    }

    /// How often something has failed.
    pub fn count(&self) -> u64
        ensures { result ≡ self.now }
    {
        self.count
    }

    /// Counts a failure.
    pub fn raise(&mut self)
        ensures raised { self.new ≡ raised self.old }
        ensures rose { Rose self.old self.new }
        ensures never_falls { self.old ≤ self.new }
    {
        self.count = self.count.saturating_add(1);
    }
}
