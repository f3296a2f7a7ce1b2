//! What a cursor over pairs has still to give.

ghost use Rattle.std.specs.Prelude.{◌≡◌, ◌↔◌, [], ◌∷◌, ◌++◌, take, IsTrue, OnOk, OnErr, MatchOption};
ghost use Rattle.ax_leaf.specs.View.{IsSpelled, numbers_left, pairs_remaining};

use crate::out_of_memory::Memory;
use crate::short_posting::{ShortPosting, split_posting};
use ax_gap::GapCursor;

/// A posting of a base, of which some numbers may be given, and the postings behind it.
#[derive(Drop)]
pub(crate) struct Remaining<'a> {
    /// The term of the posting that was reached: empty before the first.
    pub(crate) term: Vec<u8>,
    /// Its numbers.
    pub(crate) numbers: Option<GapCursor<'a>>,
    /// How many postings are behind it, and their bytes.
    pub(crate) count: usize,
    pub(crate) rest: &'a [u8],
}

impl<'a> Remaining<'a> {
    /// Do no numbers remain of the posting that was reached?
    pub(crate) fn is_spent(&self) -> bool
        ensures { IsTrue result ↔ (numbers_left self.now.numbers ≡ []) }
    {
        match &self.numbers {
            None => true,
            Some(numbers) => numbers.len() == 0,
        }
    }

    /// Goes to the next posting, where no number of the one that was reached remains. After
    /// `Memory` it stands where it stood.
    pub(crate) fn reach(&mut self) -> Result<(), Memory>
        requires { IsSpelled self.old }
        ensures is { IsSpelled self.new }
        ensures same { pairs_remaining self.new ≡ pairs_remaining self.old }
        ensures reached { OnOk result (numbers_left self.new.numbers ≡ [] → pairs_remaining self.new ≡ []) }
    {
        if !self.is_spent() {
            return Ok(());
        }
        if self.count == 0 {
            return Ok(());
        }
        let Some((posting, after)) = split_posting(self.rest) else {
            return Ok(());
        };
        let ShortPosting { term, numbers } = posting;
        change_behind(&mut self.term, term.shared, term.rest)?;
        self.numbers = Some(numbers);
        self.count -= 1;
        self.rest = after;
        Ok(())
    }

    /// The next number of the posting that was reached. `None` exactly where none remains.
    pub(crate) fn take_number(&mut self) -> Option<u32>
        requires { IsSpelled self.old }
        ensures is { IsSpelled self.new }
        ensures taken { MatchOption result
            (numbers_left self.old.numbers ≡ [])
            (λ number. pairs_remaining self.old ≡ record { term = self.old.term.items; number = number } ∷ pairs_remaining self.new) }
    {
        match &mut self.numbers {
            None => None,
            Some(numbers) => numbers.next(),
        }
    }
}

/// Puts other bytes behind the first so many. After `Memory` the vector is as before.
pub(crate) fn change_behind(bytes: &mut Vec<u8>, kept: usize, rest: &[u8]) -> Result<(), Memory>
    ensures ok { OnOk result (bytes.new.items ≡ take kept bytes.old.items ++ rest.now) }
    ensures err { OnErr result (bytes.new.items ≡ bytes.old.items) }
{
    let freed = bytes.len().saturating_sub(kept);
    bytes.reserve(rest.len().saturating_sub(freed))?;
    bytes.truncate(kept);
    let put = bytes.extend_from_slice(rest);
    prove!(put.is_ok());
    Ok(())
}
