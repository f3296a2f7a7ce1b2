//! Random changes, against a set.

ghost use Rattle.std.specs.Prelude.{◌<◌};
ghost use Rattle.ax_index_support.specs.Ready.{IsReady};

use crate::tests::asking::{fresh_disk, has_pair, numbers};
use ax_cache::{NoPages, PageCache};
use ax_disk::Disk;
use ax_index::Change;
use ax_index_support::{change, open, put};
use ax_store::Store;
use std::alloc::Global;
use std::collections::{BTreeMap, BTreeSet};
use std::test::Fail;

/// How many change lists there are, and of how many changes at most.
const LISTS: u32 = 300;

const MOST: u32 = 8;

/// How many terms there are, and of how many numbers each.
const TERMS: u32 = 60;

const NUMBERS: u32 = 20;

/// With what the generator begins.
const SEED: u32 = 1;

/// A generator of numbers, by multiplying and adding.
#[derive(Drop)]
struct Draws {
    state: u32,
}

impl Draws {
    /// The next number below a bound, which is not 0.
    fn below(&mut self, bound: u32) -> u32
        ensures { 0 < bound → result < bound }
    {
        self.state = self
            .state
            .wrapping_mul(1_664_525)
            .wrapping_add(1_013_904_223);
        (self.state >> 8) % bound.max(1)
    }
}

/// The bytes of a term: its place in the order, and up to 190 bytes.
fn term_of(alloc: Global, term: u32) -> Result<Vec<u8>, Fail> {
    let mut bytes = Vec::from_slice(alloc, &term.to_be_bytes())?;
    bytes.resize((4 + term.wrapping_mul(37) % 190) as usize, b'x')?;
    Ok(bytes)
}

/// Random changes in order: whether each pair is added, by its code.
fn drawn(alloc: Global, draws: &mut Draws) -> Result<BTreeMap<u32, bool>, Fail> {
    let mut list = BTreeMap::new(alloc);
    for _ in 0..draws.below(MOST) + 1 {
        let code = draws.below(TERMS * NUMBERS);
        list.insert(code, draws.below(3) > 0)?;
    }
    Ok(list)
}

/// The changes of a list.
fn changes_of(alloc: Global, list: &BTreeMap<u32, bool>) -> Result<Vec<Change>, Fail> {
    let mut changes = Vec::new(alloc);
    for (code, add) in list.iter() {
        let term = term_of(alloc, *code / NUMBERS)?;
        put(alloc, &mut changes, *add, term.as_slice(), *code % NUMBERS)?;
    }
    Ok(changes)
}

/// Makes the changes of a list in a set.
fn change_set(set: &mut BTreeSet<u32>, list: &BTreeMap<u32, bool>) -> Result<(), Fail> {
    for (code, add) in list.iter() {
        if *add {
            set.insert(*code)?;
        } else {
            set.remove(code);
        }
    }
    Ok(())
}

/// The numbers in a set with a term from one on and before another.
fn numbers_of(alloc: Global, set: &BTreeSet<u32>, from: u32, below: u32) -> Result<Vec<u32>, Fail> {
    let mut found = Vec::new(alloc);
    for number in 0..NUMBERS {
        if has_number(set, from, below, number) {
            found.push(number)?;
        }
    }
    Ok(found)
}

/// Whether a set has a number with a term from one on and before another.
fn has_number(set: &BTreeSet<u32>, from: u32, below: u32, number: u32) -> bool {
    for term in from.min(TERMS)..below.min(TERMS) {
        if set.contains(&(term * NUMBERS + number.min(NUMBERS))) {
            return true;
        }
    }
    false
}

/// Whether the index answers of a random pair what a set does.
fn agree_on_a_pair<D: Disk, C: PageCache>(
    alloc: Global,
    disk: &mut D,
    store: &mut Store<C>,
    set: &BTreeSet<u32>,
    draws: &mut Draws,
) -> Result<bool, Fail>
    requires { IsReady C.pages store.old (D.is_honest disk.old) (D.history disk.old (D.attached disk.old)) }
    ensures { IsReady C.pages store.new (D.is_honest disk.new) (D.history disk.new (D.attached disk.new)) }
{
    let code = draws.below(TERMS * NUMBERS);
    let term = term_of(alloc, code / NUMBERS)?;
    let found = has_pair(alloc, disk, store, term.as_slice(), code % NUMBERS)?;
    Ok(found == set.contains(&code))
}

/// Whether the index answers of a random range what a set does.
fn agree_on_a_range<D: Disk, C: PageCache>(
    alloc: Global,
    disk: &mut D,
    store: &mut Store<C>,
    set: &BTreeSet<u32>,
    draws: &mut Draws,
) -> Result<bool, Fail>
    requires { IsReady C.pages store.old (D.is_honest disk.old) (D.history disk.old (D.attached disk.old)) }
    ensures { IsReady C.pages store.new (D.is_honest disk.new) (D.history disk.new (D.attached disk.new)) }
{
    let from = draws.below(TERMS);
    let below = from + draws.below(4);
    let first = term_of(alloc, from)?;
    let behind = term_of(alloc, below)?;
    let found = numbers(alloc, disk, store, first.as_slice(), behind.as_slice())?;
    Ok(found.as_slice() == numbers_of(alloc, set, from, below)?.as_slice())
}

/// Whether the index and a set still agree when both have had one more random change list.
fn agree_after_a_list<D: Disk, C: PageCache>(
    alloc: Global,
    disk: &mut D,
    store: &mut Store<C>,
    set: &mut BTreeSet<u32>,
    draws: &mut Draws,
) -> Result<bool, Fail>
    requires { IsReady C.pages store.old (D.is_honest disk.old) (D.history disk.old (D.attached disk.old)) }
    ensures { IsReady C.pages store.new (D.is_honest disk.new) (D.history disk.new (D.attached disk.new)) }
{
    let drawn = drawn(alloc, draws)?;
    let changes = changes_of(alloc, &drawn)?;
    change_set(set, &drawn)?;
    change(alloc, disk, store, changes.as_slice())?;
    agree_on_a_pair(alloc, disk, store, set, draws)
}

/// The first of random change lists after which the index on a fresh disk and a set differ.
fn first_difference<D: Disk>(alloc: Global, disk: &mut D, seed: u32) -> Result<Option<u32>, Fail> {
    let mut store = open(alloc, disk, NoPages)?;
    let mut set = BTreeSet::new(alloc);
    let mut draws = Draws { state: seed };
    for list in 0..LISTS {
        if !agree_after_a_list(alloc, disk, &mut store, &mut set, &mut draws)? {
            return Ok(Some(list));
        }
        if list % 25 == 24 && !agree_on_a_range(alloc, disk, &mut store, &set, &mut draws)? {
            return Ok(Some(list));
        }
    }
    Ok(None)
}

#[test]
fn random_changes_are_as_in_a_set(rt: HostRuntime) -> Result<(), Fail> {
    let mut disk = fresh_disk(rt.alloc(), 1 << 22)?;
    let differs = first_difference(rt.alloc(), &mut disk, SEED)?;
    assert_eq!(rt; differs, None, "seed {SEED}");
    Ok(())
}
