//! The list of pairs and its entries.

ghost use Rattle.std.specs.Prelude.{◌≡◌, ◌<◌, ◌≤◌, [], ◌∷◌, ◌++◌, length, vec_len, vec_capacity, All, IfOk, IfSome, OnOk, OnErr, Some, slice_get};
ghost use Rattle.std.specs.List.{insert, remove};
ghost use Rattle.ax_pair_list.specs.View.{IsWithin, bytes_between};

use crate::out_of_memory::Memory;
use crate::pair_ref::PairRef;
use std::alloc::Global;
use std::marker::Model;

/// Where the term of a pair stands among the bytes, and its number.
#[derive(Debug, Clone, Copy)]
pub(crate) struct Entry {
    pub(crate) start: usize,
    pub(crate) end: usize,
    pub(crate) number: u32,
}

/// Pairs whose terms stand in one buffer, one after another, once where neighbours have the same.
///
/// Contracts see the list of pairs.
#[derive(Debug, Drop)]
pub struct PairList {
    pub(crate) terms: Vec<u8>,
    entries: Vec<Entry>,
}

impl Model for PairList {
    ghost use Rattle.std.specs.Prelude.{List};
    ghost use Rattle.ax_pair.specs.declared.pair.Pair.{Pair};
    ghost use Rattle.ax_pair_list.specs.View.{pairs_seen, AreWithin};

    ghost Value = { List Pair };

    ghost view = { pairs_seen };

    ghost invariant = { AreWithin };
}

impl PairList {
    /// No pairs. It takes no memory before the first is put.
    pub fn new(alloc: Global) -> PairList
        ensures { result ≡ [] }
    {
        PairList {
            terms: Vec::new(alloc),
            entries: Vec::new(alloc),
        }
    }

    /// How many pairs there are.
    pub fn len(&self) -> usize
        ensures { result ≡ length self.now }
    {
        self.entries.len()
    }

    /// The term and the number of the pair at a place.
    pub fn pair(&self, at: usize) -> (&[u8], u32)
        requires { at < length self.now }
        ensures { slice_get self.now at ≡ Some (record { term = result.0.now; number = result.1 }) }
    {
        let entry = self.entries[at];
        (&self.terms[entry.start..entry.end], entry.number)
    }

    /// Puts a pair at the end. After `Memory` the list is as before.
    #[tactic(auto, using(crate::proofs::Putting::pairs_put))]
    pub fn push(&mut self, term: &[u8], number: u32) -> Result<(), Memory>
        ensures ok { OnOk result (self.new ≡ self.old ++ record { term = term.now; number = number } ∷ []) }
        ensures err { OnErr result (self.new ≡ self.old) }
    {
        self.entries.reserve(1)?;
        if let Some((start, end)) = last_place(
            self.terms.as_slice(),
            self.entries.as_slice(),
            term,
        ) {
            self.entries.push_reserved(Entry { start, end, number });
            return Ok(());
        }
        let start = self.terms.len();
        self.terms.extend_from_slice(term)?;
        let end = self.terms.len();
        self.entries.push_reserved(Entry { start, end, number });
        Ok(())
    }

    /// Puts a pair before the one at a place, or at the end. After `Memory` the list is as before.
    #[tactic(auto, using(crate::proofs::Changing::pairs_inserted))]
    pub fn insert(&mut self, at: usize, term: &[u8], number: u32) -> Result<(), Memory>
        requires { at ≤ length self.old }
        ensures ok { OnOk result (self.new ≡ insert self.old at (record { term = term.now; number = number })) }
        ensures err { OnErr result (self.new ≡ self.old) }
    {
        self.entries.reserve(1)?;
        let (start, end) = put_term(&mut self.terms, term)?;
        insert_reserved(&mut self.entries, at, Entry { start, end, number });
        Ok(())
    }

    /// Takes the pair at a place out. Its term's bytes stay until the list goes.
    pub fn remove(&mut self, at: usize)
        requires { at < length self.old }
        ensures { self.new ≡ remove self.old at }
    {
        take_out(&mut self.entries, at);
    }

    /// The pairs, each borrowed from the list. `Memory` where there is none for them.
    #[tactic(auto, using(crate::proofs::Reading::take_one))]
    pub fn refs(&self, alloc: Global) -> Result<Vec<PairRef<'_>>, Memory>
        ensures { IfOk result (λ refs. refs.items ≡ self.now) }
    {
        let mut refs = Vec::with_capacity(alloc, self.len())?;
        for at in 0..self.len() {
            let (term, number) = self.pair(at);
            refs.push(PairRef::new(term, number))?;
        }
        Ok(refs)
    }
}

/// Puts a term's bytes at the end, and answers where they stand. After `Memory` the bytes are as before.
fn put_term(terms: &mut Vec<u8>, term: &[u8]) -> Result<(usize, usize), Memory>
    ensures put { OnOk result (terms.new.items ≡ terms.old.items ++ term.now) }
    ensures start { IfOk result (λ place. place.0 ≡ length terms.old.items) }
    ensures end { IfOk result (λ place. place.1 ≡ length terms.new.items) }
    ensures err { OnErr result (terms.new.items ≡ terms.old.items) }
{
    let start = terms.len();
    terms.extend_from_slice(term)?;
    Ok((start, terms.len()))
}

/// Puts an entry at a place, in the room that there is.
fn insert_reserved(entries: &mut Vec<Entry>, at: usize, entry: Entry)
    requires place { at ≤ vec_len entries.old }
    requires room { vec_len entries.old < vec_capacity entries.old }
    ensures { entries.new.items ≡ insert entries.old.items at entry }
{
    let put = entries.insert(at, entry);
    prove!(put.is_ok());
}

/// Takes the entry at a place out.
fn take_out(entries: &mut Vec<Entry>, at: usize)
    requires { at < length entries.old.items }
    ensures { entries.new.items ≡ remove entries.old.items at }
{
    entries.remove(at);
}

/// Where the term of the last entry stands, where it is this term.
fn last_place(terms: &[u8], entries: &[Entry], term: &[u8]) -> Option<(usize, usize)>
    requires { All (IsWithin (length terms.now)) entries.now }
    ensures within { IfSome result (λ place. IsWithin (length terms.now) (record { start = place.0; end = place.1; number = 0 })) }
    ensures same { IfSome result (λ place. bytes_between place.0 place.1 terms.now ≡ term.now) }
{
    let last = *entries.last()?;
    let same = &terms[last.start..last.end] == term;
    if !same {
        return None;
    }
    Some((last.start, last.end))
}
