//! A pair whose term is borrowed.

ghost use Rattle.std.specs.Prelude.{◌≡◌, IfOk};

use crate::out_of_memory::Memory;
use ax_pair::Pair;
use std::alloc::Global;
use std::marker::Model;

/// A term that stands elsewhere, and the number of a document that has it. Many of them take one
/// allocation, where as many pairs take one for each term.
///
/// Contracts see the pair.
#[derive(Drop)]
pub struct PairRef<'a> {
    term: &'a [u8],
    number: u32,
}

impl<'a> Model for PairRef<'a> {
    ghost use Rattle.ax_pair.specs.declared.pair.Pair.{Pair};
    ghost use Rattle.ax_pair_list.specs.Borrowed.{pair_seen};

    ghost Value = { Pair };

    ghost view = { pair_seen };
}

impl<'a> PairRef<'a> {
    /// The pair of this term and this number.
    pub fn new(term: &'a [u8], number: u32) -> PairRef<'a>
        ensures { result ≡ record { term = term.now; number = number } }
    {
        PairRef { term, number }
    }

    /// A pair, borrowed.
    pub fn of(pair: &'a Pair) -> PairRef<'a>
        ensures { result ≡ pair.now }
    {
        PairRef::new(pair.term.as_slice(), pair.number)
    }

    /// Its term.
    pub fn term(&self) -> &'a [u8]
        ensures { result.now ≡ self.now.term }
    {
        self.term
    }

    /// Its number.
    pub fn number(&self) -> u32
        ensures { result ≡ self.now.number }
    {
        self.number
    }
}

/// Pairs, each borrowed. `Memory` where there is none for them.
#[tactic(auto, using(crate::proofs::Reading::take_one))]
pub fn refs_of(alloc: Global, pairs: &[Pair]) -> Result<Vec<PairRef<'_>>, Memory>
    ensures { IfOk result (λ refs. refs.items ≡ pairs.now) }
{
    let mut refs = Vec::with_capacity(alloc, pairs.len())?;
    for at in 0..pairs.len() {
        refs.push(PairRef::of(&pairs[at]))?;
    }
    Ok(refs)
}
