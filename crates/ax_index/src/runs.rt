//! Which of rising changes and pairs are of a page.

ghost use Rattle.std.specs.Prelude.{◌≡◌, ◌↔◌, ◌<◌, ◌≤◌, IsTrue, length, take, drop};
ghost use Rattle.std.specs.Ordering.{is_lt};
ghost use Rattle.ax_delta.specs.declared.change.Change.{Change};
ghost use Rattle.ax_pair.specs.declared.pair.Pair.{Pair};
ghost use Rattle.ax_pair.specs.Order.{Rise, pair_cmp};
ghost use Rattle.ax_pages.specs.TermPages.{IsPageOf};
ghost use Rattle.ax_pairs.specs.Index.{AllBelong};
ghost use Rattle.ax_store.specs.Store.{store_contents};
ghost use Rattle.ax_index.specs.Planning.{IsFirstOf, IsPartedAt, IsPartedBy};

use ax_delta::Change;
use ax_pair::{Pair, comes_before};
use ax_pair_list::PairRef;
use ax_store::Store;

/// Changes of one page.
#[derive(Clone, Copy)]
pub(crate) struct Run {
    pub(crate) page: u32,
    /// How many changes they are.
    pub(crate) len: usize,
}

/// The first of rising changes that are of one page.
pub(crate) fn first_run<C>(store: &Store<C>, changes: &[Change]) -> Run
    requires { 0 < length changes.now }
    ensures page { IsFirstOf changes.now result.page (store_contents store.now).terms }
    ensures some { 0 < result.len }
    ensures within { result.len ≤ length changes.now }
    ensures parted { IsPartedAt result.page (take result.len changes.now) (drop result.len changes.now) (store_contents store.now).terms }
{
    let page = page_of_pair(store, &changes[0].pair);
    let len = run_len(store, page, changes);
    Run { page, len }
}

/// The page to which a pair belongs.
#[tactic(auto, using(crate::proofs::IndexPages::of_term))]
pub(crate) fn page_of_pair<C>(store: &Store<C>, pair: &Pair) -> u32
    ensures { IsPageOf pair.now result (store_contents store.now).terms }
{
    store.page_of(pair.term.as_slice(), pair.number)
}

/// How many of the changes come before the page behind this one.
fn run_len<C>(store: &Store<C>, page: u32, changes: &[Change]) -> usize
    requires { page < length (store_contents store.now).terms }
    ensures within { result ≤ length changes.now }
    ensures parted { IsPartedAt page (take result changes.now) (drop result changes.now) (store_contents store.now).terms }
{
    let Some(next) = store.next_page(page) else {
        return changes.len();
    };
    let (term, number) = store.low(next);
    count_before(changes, term, number)
}

/// How many of the changes come before the first whose pair is not before that of a term and a number.
fn count_before(changes: &[Change], term: &[u8], number: u32) -> usize
    ensures within { result ≤ length changes.now }
    ensures parted { IsPartedBy (record { term = term.now; number = number }) (take result changes.now) (drop result changes.now) }
{
    for (i, change) in changes.iter().enumerate() {
        if !is_before(&PairRef::of(&change.pair), term, number) {
            return i;
        }
    }
    changes.len()
}

/// Whether all of rising pairs belong to a page: the first and the last tell it.
pub(crate) fn all_belong<C>(store: &Store<C>, page: u32, pairs: &[PairRef<'_>]) -> bool
    requires page { page < length (store_contents store.now).terms }
    requires rise { Rise pairs.now }
    ensures { IsTrue result ↔ AllBelong pairs.now page (store_contents store.now).terms }
{
    let Some((first, _)) = pairs.split_first() else {
        return true;
    };
    let Some((last, _)) = pairs.split_last() else {
        return true;
    };
    belongs(store, page, first) && belongs(store, page, last)
}

/// Whether a pair belongs to a page.
fn belongs<C>(store: &Store<C>, page: u32, pair: &PairRef<'_>) -> bool
    requires { page < length (store_contents store.now).terms }
    ensures { IsTrue result ↔ IsPageOf pair.now page (store_contents store.now).terms }
{
    let (low_term, low_number) = store.low(page);
    if is_before(pair, low_term, low_number) {
        return false;
    }
    match store.next_page(page) {
        Some(next) => {
            let (next_term, next_number) = store.low(next);
            is_before(pair, next_term, next_number)
        }
        None => true,
    }
}

/// Whether a pair is before that of a term and a number.
pub(crate) fn is_before(pair: &PairRef<'_>, term: &[u8], number: u32) -> bool
    ensures { result ≡ is_lt (pair_cmp pair.now (record { term = term.now; number = number })) }
{
    comes_before(pair.term(), pair.number(), term, number)
}
