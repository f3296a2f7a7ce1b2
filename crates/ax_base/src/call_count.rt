ghost use Rattle.std.specs.Prelude.{◌≡◌, ◌≤◌, ◌↔◌, Contains, OnOk, OnErr, IsErr};
ghost use Rattle.ax_faults.specs.Faults.{raised, HasCause};
ghost use Rattle.ax_base.specs.Calls.{next_call, after_success, after_failure};

use crate::Failed;
use ax_faults::FaultCount;
use std::marker::Model;

/// The calls of a source or a sink in memory, numbered from 1, of which chosen ones fail. A call's number is
/// that of a `u64` that stays at its last value.
#[derive(Drop)]
pub(crate) struct CallCount {
    made: u64,
    faults: FaultCount,
    failing: Vec<u64>,
}

impl Model for CallCount {
    ghost use Rattle.ax_base.specs.Calls.{Calls};

    ghost Value = { Calls };

    ghost view = { λ c. record { made = c.made; faults = c.faults; failing = c.failing.items } };
}

impl CallCount {
    /// No call was made.
    pub(crate) fn new(failing: Vec<u64>) -> CallCount
        ensures { result ≡ record { made = 0; faults = 0; failing = failing.items } }
    {
        CallCount {
            made: 0,
            faults: FaultCount::new(),
            failing,
        }
    }

    /// Counts a call, which fails where it is one of those that are to fail.
    pub(crate) fn next(&mut self) -> Result<(), Failed>
        ensures fails { IsErr result ↔ Contains self.old.failing (next_call self.old) }
        ensures ok { OnOk result (self.new ≡ after_success self.old) }
        ensures err { OnErr result (self.new ≡ after_failure self.old) }
        ensures cause { HasCause result self.old.faults self.new.faults }
    {
        self.made = self.made.saturating_add(1);
        if self.failing.contains(&self.made) {
            self.faults.raise();
            return Err(Failed);
        }
        Ok(())
    }

    /// Counts a fault of the call that was counted last.
    pub(crate) fn fail(&mut self) -> Failed
        ensures raised { self.new ≡ record self.old { faults = raised self.old.faults } }
        ensures never_falls { self.old.faults ≤ self.new.faults }
    {
        self.faults.raise();
        Failed
    }
}
