//! The environments of a document's rows that pass WHERE.
ghost use Rattle.std.specs.Prelude.{◌≡◌};
ghost use Rattle.ax_mean.specs.Rows.{env_where};
ghost use Rattle.ax_rows.specs.Collected.{Collected, none_collected, both_collected};

use crate::flow::Flow;
use crate::out_of_memory::Memory;
use crate::shown::passes_in;
use crate::walk::Taker;
use ax_eval::{Env, Scope};
use ax_mean::Expr;
use std::alloc::Global;

/// Keeps the environments of the rows that pass WHERE.
#[derive(Drop)]
pub struct EnvTaker<'a> {
    pub condition: &'a Option<Expr>,
    pub envs: Vec<Env>,
}

impl<'a> EnvTaker<'a> {
    pub fn into_envs(self) -> Vec<Env>
        ensures { result ≡ self.entry.envs }
    {
        let EnvTaker { condition: _, envs } = self;
        envs
    }
}

impl<'a> Taker for EnvTaker<'a> {
    ghost Took = { λ old rows new.
        Collected (env_where old.condition.now) old.envs.items rows
        (env_where new.condition.now) new.envs.items };

    fn take(&mut self, alloc: Global, scope: &Scope, _place: &[u32]) -> Result<Flow, Memory> {
        if passes_in(alloc, self.condition, scope)? {
            self.envs.push(scope.to_env(alloc)?)?;
        }
        Ok(Flow::More)
    }

    ghost none = { λ taker. none_collected _ _ };

    ghost both = { λ a b c xs ys. both_collected _ _ _ _ _ _ xs ys };
}
