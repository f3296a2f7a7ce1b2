ghost use Rattle.std.specs.Prelude.{◌≡◌, ◌<◌, length, [], IfOk, OnOk, OnErr};
ghost use Rattle.ax_group.specs.States.{start_in as tally_start_in, started as tallies_started, tallies_with, with_one};
ghost use Rattle.ax_group.specs.Tallies.{tally_with};
ghost use Rattle.ax_group.specs.Walks.{ask_of, asks_of};

use crate::arguments::{first_in, value_in};
use crate::asked::Asked;
use crate::needed::needed_all;
use crate::out_of_memory::Memory;
use crate::tally::Tally;
use ax_eval::Scope;
use ax_func::Seen;
use ax_mean::{Items, Value, ValueList};
use std::alloc::Global;
use std::mem;

/// What is kept of a group: its values, and a tally for each thing that the pick asks for.
#[derive(Drop)]
pub struct State {
    pub values: ValueList,
    pub tallies: Vec<Tally>,
}

impl State {
    /// The group of all rows, where there is no row: its first row binds nothing.
    pub fn without_rows(alloc: Global, asked: &[Asked]) -> Result<State, Memory>
        ensures values { IfOk result (λ state. state.values ≡ []) }
        ensures tallies { IfOk result (λ state.
            state.tallies.items ≡ tallies_started (asks_of asked.now) []) }
    {
        let scope = Scope::new(alloc);
        let tallies = started(alloc, asked, &scope)?;
        Ok(State {
            values: Items::new(alloc),
            tallies,
        })
    }

    /// A group with one row.
    pub fn of_row<'a>(
        alloc: Global,
        asked: &[Asked<'a>],
        values: ValueList,
        scope: &Scope<'a>,
        arguments: &[Seen],
    ) -> Result<State, Memory>
        ensures values { IfOk result (λ state. state.values ≡ values) }
        ensures tallies { IfOk result (λ state. state.tallies.items
            ≡ tallies_with (tallies_started (asks_of asked.now) scope.now) arguments.now) }
    {
        match started_with(alloc, asked, scope, arguments) {
            Ok(tallies) => Ok(State { values, tallies }),
            Err(fault) => {
                drop(values);
                Err(fault)
            }
        }
    }

    /// One row more, by its values for what is asked for. Unchanged where memory runs out.
    pub fn add(&mut self, alloc: Global, arguments: &[Seen]) -> Result<(), Memory>
        ensures values { self.new.values ≡ self.old.values }
        ensures tallies { OnOk result (self.new.tallies.items
            ≡ tallies_with self.old.tallies.items arguments.now) }
        ensures err { OnErr result (self.new ≡ self.old) }
    {
        add_seen(alloc, &mut self.tallies, arguments)
    }
}

/// The tallies that a group begins with, by its first row.
fn started<'a>(alloc: Global, asked: &[Asked<'a>], scope: &Scope<'a>) -> Result<Vec<Tally>, Memory>
    ensures { IfOk result (λ tallies.
        tallies.items ≡ tallies_started (asks_of asked.now) scope.now) }
{
    let mut tallies = Vec::with_capacity(alloc, asked.len())?;
    for one in asked {
        tallies.push(start_in(alloc, one, scope)?)?;
    }
    Ok(tallies)
}

/// The tallies of a group with one row.
fn started_with<'a>(
    alloc: Global,
    asked: &[Asked<'a>],
    scope: &Scope<'a>,
    arguments: &[Seen],
) -> Result<Vec<Tally>, Memory>
    ensures { IfOk result (λ tallies. tallies.items
        ≡ tallies_with (tallies_started (asks_of asked.now) scope.now) arguments.now) }
{
    let mut tallies = started(alloc, asked, scope)?;
    add_seen(alloc, &mut tallies, arguments)?;
    Ok(tallies)
}

fn start_in<'a>(alloc: Global, asked: &Asked<'a>, scope: &Scope<'a>) -> Result<Tally, Memory>
    ensures { IfOk result (λ tally. tally ≡ tally_start_in scope.now (ask_of asked.now)) }
{
    match asked {
        Asked::Total(which, _) => Ok(Tally::start(*which)),
        Asked::Part(part) => Ok(Tally::First(value_in(alloc, part, scope)?)),
        Asked::FirstAlias => Ok(Tally::First(first_in(alloc, scope)?)),
    }
}

/// One value more for each tally, as it is seen. Unchanged where memory runs out.
fn add_seen(alloc: Global, tallies: &mut Vec<Tally>, values: &[Seen]) -> Result<(), Memory>
    ensures ok { OnOk result (tallies.new.items ≡ tallies_with tallies.old.items values.now) }
    ensures err { OnErr result (tallies.new ≡ tallies.old) }
{
    let needed = needed_all(alloc, tallies.as_slice(), values)?;
    add_all(tallies, needed);
    Ok(())
}

/// One value more for each tally.
#[tactic(auto, using(crate::proofs::StateLaws::goes_on, crate::proofs::StateLaws::at_end, crate::proofs::StateLaws::left_over, crate::proofs::StateLaws::with_one_long))]
fn add_all(tallies: &mut Vec<Tally>, values: Vec<Value>)
    ensures { tallies.new.items ≡ tallies_with tallies.old.items values.items }
{
    let mut at = 0;
    for value in values {
        if at < tallies.len() {
            add_at(tallies, at, value);
            at += 1;
        } else {
            drop(value);
        }
    }
}

/// One value more for the tally at that position.
#[tactic(auto, using(crate::proofs::StateLaws::set_is))]
fn add_at(tallies: &mut Vec<Tally>, at: usize, value: Value)
    requires { at < length tallies.old.items }
    ensures { tallies.new.items ≡ with_one at value tallies.old.items }
{
    add_to(&mut tallies[at], value);
}

fn add_to(tally: &mut Tally, value: Value)
    ensures { tally.new ≡ tally_with tally.old value }
{
    let before = mem::replace(tally, Tally::Undefined);
    *tally = before.with(value);
}
