//! Pairs and changes of them.

ghost use Rattle.std.specs.Prelude.{◌≡◌, [], ◌∷◌, ◌++◌, IfOk, OnOk};

use ax_delta::Change;
use ax_pair::{Bytes, Pair};
use std::alloc::{AllocError, Global};

/// The pair of a term and a number.
pub fn pair_of(alloc: Global, term: &[u8], number: u32) -> Result<Pair, AllocError>
    ensures term { IfOk result (λ pair. pair.term ≡ term.now) }
    ensures number { IfOk result (λ pair. pair.number ≡ number) }
{
    let term = Bytes::from_vec(Vec::from_slice(alloc, term)?);
    Ok(Pair { term, number })
}

/// Puts a change behind others.
pub fn put(
    alloc: Global,
    changes: &mut Vec<Change>,
    add: bool,
    term: &[u8],
    number: u32,
) -> Result<(), AllocError>
    ensures { OnOk result (changes.new.items ≡ changes.old.items
        ++ record { add = add; pair = record { term = term.now; number = number } } ∷ []) }
{
    let pair = pair_of(alloc, term, number)?;
    changes.push(Change { add, pair })?;
    Ok(())
}
