//! The rows of a document.
ghost use Rattle.std.specs.Prelude.{◌≡◌, ◌+◌, ◌++◌, IfOk};
ghost use Rattle.ax_mean.specs.Rows.{envs_of_tree, keyed_rows};

use crate::keyed::KeyedTaker;
use crate::out_of_memory::Memory;
use crate::passed::EnvTaker;
use crate::walk::walk_tree;
use ax_base::Steps;
use ax_eval::Env;
use ax_mean::{KeyedRow, Query, Tree};
use std::alloc::Global;
use std::sync::ledger::Ledger;

/// The rows of a document that pass WHERE and show something, each with its key, in the order of
/// their places. It takes one step of work, also where it runs out of memory.
///
/// A position of more than 32 bits, which a row would have in its place, is answered as want of
/// memory.
pub fn rows_of<L: Ledger>(
    alloc: Global,
    query: &Query,
    number: u32,
    tree: &Tree,
    steps: &mut Steps<L>,
) -> Result<Vec<KeyedRow>, Memory>
    ensures rows { IfOk result (λ rows. rows.items ≡ keyed_rows query.now number tree.now) }
    ensures steps { steps.new ≡ steps.old + 1 }
{
    steps.tick();
    append_rows(alloc, query, number, tree, Vec::new(alloc))
}

/// The rows, and behind them those of a document, as `rows_of` gives them.
pub fn append_rows(
    alloc: Global,
    query: &Query,
    number: u32,
    tree: &Tree,
    rows: Vec<KeyedRow>,
) -> Result<Vec<KeyedRow>, Memory>
    ensures { IfOk result (λ all. all.items ≡ rows.items ++ keyed_rows query.now number tree.now) }
{
    let taker = KeyedTaker {
        query,
        number,
        tree,
        rows,
    };
    let taker = walk_tree(alloc, &query.froms, tree, taker)?;
    Ok(taker.into_rows())
}

/// The environments of the rows of a document that pass WHERE, in the order of their places. It
/// takes one step of work, also where it runs out of memory.
pub fn envs_of<L: Ledger>(
    alloc: Global,
    query: &Query,
    tree: &Tree,
    steps: &mut Steps<L>,
) -> Result<Vec<Env>, Memory>
    ensures envs { IfOk result (λ envs. envs.items ≡ envs_of_tree query.now tree.now) }
    ensures steps { steps.new ≡ steps.old + 1 }
{
    steps.tick();
    let taker = EnvTaker {
        condition: &query.condition,
        envs: Vec::new(alloc),
    };
    let taker = walk_tree(alloc, &query.froms, tree, taker)?;
    Ok(taker.into_envs())
}
