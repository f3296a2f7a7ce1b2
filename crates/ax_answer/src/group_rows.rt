//! The rows of a document put into groups, one at a time.
ghost use Rattle.std.specs.Prelude.{◌≡◌, List, [], ◌∷◌, ◌++◌, IfOk, OnOk};
ghost use Rattle.ax_mean.specs.Meaning as means;
ghost use Rattle.ax_mean.specs.Rows.{envs_of_tree};
ghost use Rattle.ax_mean.specs.declared.query.Query as queries;
ghost use Rattle.ax_group.specs.States.{Holds};
ghost use Rattle.ax_rows.specs.Taking.{Gains, gains_none, gains_both};
ghost use Rattle.ax_answer.specs.Grouping.{TakesGroups, group_keeps};

use crate::out_of_memory::Memory;
use ax_eval::Scope;
use ax_group::Groups;
use ax_mean::{Expr, Query, Tree};
use ax_rows::{Flow, Taker, passes_in, walk_tree};
use std::alloc::Global;

/// The groups with the rows of a document that pass WHERE.
pub fn add_rows<'a>(
    alloc: Global,
    query: &Query,
    tree: &Tree,
    groups: Groups<'a>,
) -> Result<Groups<'a>, Memory>
    ensures { IfOk result (λ after. (asked : queries.Query) → (envs : List means.Env)
        → Holds groups.entry asked envs
        → Holds after asked (envs ++ envs_of_tree query.now tree.now)) }
{
    let taker = GroupTaker {
        condition: &query.condition,
        groups,
    };
    let taker = walk_tree(alloc, &query.froms, tree, taker)?;
    Ok(taker.into_groups())
}

/// Puts the rows that pass WHERE into their groups.
#[derive(Drop)]
pub struct GroupTaker<'q, 'a> {
    pub condition: &'q Option<Expr>,
    pub groups: Groups<'a>,
}

impl<'q, 'a> GroupTaker<'q, 'a> {
    fn into_groups(self) -> Groups<'a>
        ensures { result ≡ self.entry.groups }
    {
        let GroupTaker {
            condition: _,
            groups,
        } = self;
        groups
    }
}

impl<'q, 'a> Taker for GroupTaker<'q, 'a> {
    ghost Took = { Gains TakesGroups group_keeps };

    fn take(
        &mut self,
        alloc: Global,
        scope: &Scope,
        _place: &[u32],
    ) -> Result<Flow, ax_rows::Memory> {
        if passes_in(alloc, self.condition, scope)? {
            put(alloc, &mut self.groups, scope)?;
        }
        Ok(Flow::More)
    }

    ghost none = { gains_none TakesGroups group_keeps };

    ghost both = { gains_both TakesGroups group_keeps };
}

/// A row in its group.
fn put(alloc: Global, groups: &mut Groups<'_>, scope: &Scope) -> Result<(), ax_rows::Memory>
    ensures { OnOk result ((query : queries.Query) → (envs : List means.Env)
        → Holds groups.old query envs → Holds groups.new query (envs ++ scope.now ∷ [])) }
{
    match groups.add(alloc, scope) {
        Ok(()) => Ok(()),
        Err(_) => Err(ax_rows::Memory),
    }
}
