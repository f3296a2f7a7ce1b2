ghost use Rattle.std.specs.Prelude.{◌≡◌, List, [], ◌∷◌, ◌++◌, ◌||◌, None, map, IfOk, OnOk, OnErr};
ghost use Rattle.std.specs.List.{cons_option, filter_map};
ghost use Rattle.std.specs.BTreeMap.{get, insert_entry};
ghost use Rattle.ax_mean.specs.Aggregates.{has_some};
ghost use Rattle.ax_mean.specs.Meaning as means;
ghost use Rattle.ax_mean.specs.declared.query.Query as queries;
ghost use Rattle.ax_result.specs.Groups.{Group, group_row, group_rows, groups_before, with_row};
ghost use Rattle.ax_group.specs.Keys.{seen_keys, value_key};
ghost use Rattle.ax_group.specs.States.{AreEntries, Holds, arguments_in, tallies_with, state_row};
ghost use Rattle.ax_group.specs.Walks.{asked_by as asked_of, asks_of};

use crate::arguments::{Row, owned};
use crate::asked::{Asked, asked_by};
use crate::key::GroupKey;
use crate::out_of_memory::Memory;
use crate::shown::row_of;
use crate::state::State;
use ax_eval::Scope;
use ax_mean::{ExprList, KeyedRow, Pick, Query};
use std::alloc::Global;
use std::collections::BTreeMap;

/// The groups of a query's rows, which are added one by one.
#[derive(Drop)]
pub struct Groups<'a> {
    query: &'a Query,
    asked: Vec<Asked<'a>>,
    states: BTreeMap<GroupKey, State>,
}

impl<'a> Groups<'a> {
    /// No row yet.
    #[tactic(auto, using(crate::proofs::GroupLaws::begins))]
    pub fn begin(alloc: Global, query: &'a Query) -> Result<Groups<'a>, Memory>
        ensures { IfOk result (λ groups. Holds groups query.now []) }
    {
        let asked = asked_by(alloc, &query.pick)?;
        Ok(Groups {
            query,
            asked,
            states: BTreeMap::new(alloc),
        })
    }

    /// A row in its group, by what its aliases stand for. Of what they stand for only the group's
    /// values and what it shows are copied. Unchanged where memory runs out.
    #[tactic(auto, using(crate::proofs::GroupLaws::stays))]
    pub fn add(&mut self, alloc: Global, scope: &Scope<'_>) -> Result<(), Memory>
        ensures ok { OnOk result ((query : queries.Query) → (envs : List means.Env)
            → Holds self.old query envs → Holds self.new query (envs ++ scope.now ∷ [])) }
        ensures err { OnErr result ((query : queries.Query) → (envs : List means.Env)
            → Holds self.old query envs → Holds self.new query envs) }
    {
        let row = Row::new(alloc, &self.query.groups, self.asked.as_slice(), scope)?;
        put(alloc, &mut self.states, self.asked.as_slice(), row, scope)
    }

    /// The rows of the groups, in their order; DISTINCT, OFFSET and LIMIT come after that. Without
    /// GROUP BY there is one group, also where there is no row.
    pub fn finish(self, alloc: Global) -> Result<Vec<KeyedRow>, Memory>
        ensures { IfOk result (λ rows. (query : queries.Query) → (envs : List means.Env)
            → Holds self.entry query envs → rows.items ≡ group_rows query envs) }
    {
        let Groups {
            query,
            asked,
            states,
        } = self;
        if something_came(&query.groups, &states) {
            drop(asked);
            rows_of(alloc, &query.pick, states)
        } else {
            drop(states);
            row_without_rows(alloc, &query.pick, asked)
        }
    }
}

/// Whether GROUP BY is written or there is a row.
fn something_came(groups: &ExprList, states: &BTreeMap<GroupKey, State>) -> bool
    ensures { result ≡ (has_some groups.now || has_some states.now.entries) }
{
    !groups.as_slice().is_empty() || !states.is_empty()
}

/// What the group of all rows shows, where there is no row.
fn row_without_rows(alloc: Global, pick: &Pick, asked: Vec<Asked>) -> Result<Vec<KeyedRow>, Memory>
    ensures { IfOk result (λ rows. asks_of asked.entry.items ≡ asked_of pick.now
        → rows.items ≡ filter_map (group_row pick.now) (groups_before [])) }
{
    let state = State::without_rows(alloc, asked.as_slice())?;
    let row = row_of(alloc, pick, state)?;
    one_where(alloc, row)
}

/// The row, where there is one.
fn one_where(alloc: Global, row: Option<KeyedRow>) -> Result<Vec<KeyedRow>, Memory>
    ensures { IfOk result (λ rows. rows.items ≡ cons_option row []) }
{
    let mut rows = Vec::new(alloc);
    match row {
        Some(row) => {
            rows.push(row)?;
            Ok(rows)
        }
        None => Ok(rows),
    }
}

/// Puts a group at a key that is not there.
fn insert(states: &mut BTreeMap<GroupKey, State>, key: GroupKey, state: State) -> Result<(), Memory>
    ensures ok { OnOk result (states.new.entries
        ≡ insert_entry ⟦<GroupKey as Ord>⟧.cmp states.old.entries key state) }
    ensures err { OnErr result (states.new.entries ≡ states.old.entries) }
{
    let replaced = states.insert(key, state)?;
    drop(replaced);
    Ok(())
}

/// Puts a row into its group.
fn put<'a>(
    alloc: Global,
    states: &mut BTreeMap<GroupKey, State>,
    asked: &[Asked<'a>],
    row: Row<'a>,
    scope: &Scope<'a>,
) -> Result<(), Memory>
    ensures ok { OnOk result ((groups : List Group)
        → AreEntries (asks_of asked.now) groups states.old.entries
        → seen_keys row.entry.key ≡ map value_key row.entry.values.items
        → row.entry.arguments.items ≡ arguments_in (asks_of asked.now) scope.now
        → AreEntries (asks_of asked.now) (with_row row.entry.values.items scope.now groups)
        states.new.entries) }
    ensures err { OnErr result (states.new.entries ≡ states.old.entries) }
{
    match states.get_mut(&row.key) {
        Some(state) => add_row(alloc, state, row),
        None => put_new(alloc, states, asked, row, scope),
    }
}

/// Adds a row to the state of its group. Unchanged where memory runs out.
fn add_row(alloc: Global, state: &mut State, row: Row) -> Result<(), Memory>
    ensures values { state.new.values ≡ state.old.values }
    ensures tallies { OnOk result (state.new.tallies.items
        ≡ tallies_with state.old.tallies.items row.entry.arguments.items) }
    ensures err { OnErr result (state.new ≡ state.old) }
{
    let Row {
        key,
        values,
        arguments,
    } = row;
    drop(key);
    drop(values);
    state.add(alloc, arguments.as_slice())
}

/// Puts a row into a group of its own.
fn put_new<'a>(
    alloc: Global,
    states: &mut BTreeMap<GroupKey, State>,
    asked: &[Asked<'a>],
    row: Row<'a>,
    scope: &Scope<'a>,
) -> Result<(), Memory>
    ensures ok { OnOk result ((groups : List Group)
        → AreEntries (asks_of asked.now) groups states.old.entries
        → get ⟦<GroupKey as Ord>⟧.cmp states.old row.entry.key ≡ None
        → seen_keys row.entry.key ≡ map value_key row.entry.values.items
        → row.entry.arguments.items ≡ arguments_in (asks_of asked.now) scope.now
        → AreEntries (asks_of asked.now) (with_row row.entry.values.items scope.now groups)
        states.new.entries) }
    ensures err { OnErr result (states.new.entries ≡ states.old.entries) }
{
    let Row {
        key,
        values,
        arguments,
    } = row;
    let Ok(values) = owned(alloc, values) else {
        drop(key);
        drop(arguments);
        return Err(Memory);
    };
    let Ok(state) = State::of_row(alloc, asked, values, scope, arguments.as_slice()) else {
        drop(key);
        return Err(Memory);
    };
    insert(states, key, state)
}

/// The rows that the groups show.
fn rows_of(
    alloc: Global,
    pick: &Pick,
    states: BTreeMap<GroupKey, State>,
) -> Result<Vec<KeyedRow>, Memory>
    ensures { IfOk result (λ rows.
        rows.items ≡ filter_map (λ entry. state_row pick.now entry.1) states.entries) }
{
    let mut rows = Vec::new(alloc);
    for (key, state) in states {
        drop(key);
        if let Some(row) = row_of(alloc, pick, state)? {
            rows.push(row)?;
        }
    }
    Ok(rows)
}
