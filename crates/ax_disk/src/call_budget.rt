//! The calls that a disk in memory may still answer.
ghost use Rattle.std.specs.Prelude.{◌≡◌, ◌+◌, ◌<◌, ◌^◌};
ghost use Rattle.ax_disk.specs.mem_disk.CallBudget.{after_call, GoesSo};

use crate::outcome::Outcome;
use std::marker::Model;

/// So many calls remain. Those that are made are numbered from 1, and chosen ones fail.
#[derive(Drop)]
pub(crate) struct CallBudget {
    remaining: usize,
    made: u64,
    failing: Vec<u64>,
}

impl Model for CallBudget {
    ghost use Rattle.std.specs.Prelude.{◌+◌, ◌<◌, ◌^◌};
    ghost use Rattle.ax_disk.specs.mem_disk.CallBudget.{CallBudget};

    ghost Value = { CallBudget };

    ghost view = { λ c.
        record { remaining = c.remaining; made = c.made; failing = c.failing.items } };

    ghost invariant = { λ c. c.made + c.remaining < 2 ^ 64 };
}

impl CallBudget {
    /// So many calls may be made, and none was.
    pub fn new(remaining: usize, failing: Vec<u64>) -> CallBudget
        ensures { result ≡ record { remaining = remaining; made = 0; failing = failing.items } }
    {
        CallBudget {
            remaining,
            made: 0,
            failing,
        }
    }

    /// Makes a call where one remains, and tells how it goes, where what it asks for fits or not.
    pub fn next(&mut self, fits: bool) -> Outcome
        ensures outcome { GoesSo fits self.old result }
        ensures calls { self.new ≡ after_call self.old }
    {
        if self.remaining == 0 {
            return Outcome::Refused;
        }
        self.remaining -= 1;
        self.made += 1;
        if !fits {
            Outcome::Refused
        } else if self.failing.contains(&self.made) {
            Outcome::Fails
        } else {
            Outcome::Done
        }
    }
}
