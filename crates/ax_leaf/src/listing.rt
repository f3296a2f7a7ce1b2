//! Whether bytes are terms that rise, each written after the one before, with what stands behind each.

ghost use Rattle.std.specs.Prelude.{◌≡◌, ◌↔◌, ℕ, ◌-◌, ◌<◌, ◌^◌, List, [], length, slice_index, slice_get, IfSome, IsSomeAnd, IsTrue};
ghost use Rattle.ax_leaf.specs.Listing.{AreListed, IsListing, Reaches};
ghost use Rattle.ax_leaf.specs.ShortTerm.{Follows, HasFront};

use crate::front::{byte_with, exceeds, fits_behind, keep_front};
use crate::short_term::ShortTerm;

/// How many bytes of the term before are at hand. What stands behind them in a longer one is read
/// from the payload again.
const FRONT: usize = 4096;

/// What is listed: terms, and what stands behind each.
pub trait Listed {
    /// The bytes begin with an entry: its term has so many bytes in common with the one before and
    /// these behind them, and these bytes come after the entry.
    ghost Begins: { List ℕ → ℕ → List ℕ → List ℕ → Type 0 };

    /// The term of the entry with which the bytes begin, and the bytes after the entry. `None`
    /// exactly where they begin with none.
    fn split(bytes: &[u8]) -> Option<(ShortTerm<'_>, &[u8])>
        ensures found { IfSome result (λ x. Begins bytes.now x.0.shared x.0.rest.now x.1.now) }
        ensures few { IfSome result (λ x. x.0.shared < 2 ^ 32) }
        ensures only { (shared : ℕ) (part after : List ℕ) → Begins bytes.now shared part after
            → IsSomeAnd result (λ x. (x.0.shared ≡ shared) × (x.0.rest.now ≡ part) × (x.1.now ≡ after)) };
}

/// Are the bytes so many entries, whose terms rise?
pub fn is_listing<L: Listed>(list: &[u8], count: usize) -> bool
    ensures { IsTrue result ↔ IsListing L.Begins count list.now }
{
    if count == 0 {
        return is_end(list);
    }
    let Some((first, rest)) = L::split(list) else {
        return false;
    };
    if first.shared != 0 {
        return false;
    }
    are_others::<L>(list, rest, first, count)
}

/// Are the bytes behind the first of so many entries the others, and do their terms rise?
fn are_others<L: Listed>(list: &[u8], behind: &[u8], first: ShortTerm<'_>, count: usize) -> bool
    requires begins { L.Begins list.now 0 first.rest.now behind.now }
    requires none { first.shared ≡ 0 }
    ensures { IsTrue result ↔ AreListed L.Begins (count - 1) first.entry.rest.now behind.now }
{
    let mut front = [0u8; FRONT];
    keep_front(&mut front, first);
    let mut size = first.rest.len();
    let mut rest = behind;
    for k in 1..count {
        let Some((term, after)) = L::split(rest) else {
            return false;
        };
        if !follows::<L>(list, k, size, &front, term) {
            return false;
        }
        keep_front(&mut front, term);
        size = term.shared + term.rest.len();
        rest = after;
    }
    is_end(rest)
}

/// Are there no bytes?
fn is_end(bytes: &[u8]) -> bool
    ensures { IsTrue result ↔ (bytes.now ≡ []) }
{
    bytes.is_empty()
}

/// Does the term come after the one that is reached behind so many entries, with no more in common
/// than it says? That one has `size` bytes, and `front` the first of them.
fn follows<L: Listed>(
    list: &[u8],
    count: usize,
    size: usize,
    front: &[u8],
    term: ShortTerm<'_>,
) -> bool
    requires few { term.shared < 2 ^ 32 }
    ensures { (last rest : List ℕ) → Reaches L.Begins list.now count last rest → size ≡ length last
        → HasFront front.now last → IsTrue result ↔ Follows last term.entry.shared term.entry.rest.now }
{
    if !fits_behind(size, term) {
        return false;
    }
    let byte = byte_behind::<L>(list, count, size, front, term.shared);
    exceeds(term.rest, byte)
}

/// The byte at a position of the term that is reached behind so many entries, where there is one. The
/// term has `size` bytes, and `front` the first of them; one behind those is looked for from the
/// first entry on.
fn byte_behind<L: Listed>(
    list: &[u8],
    count: usize,
    size: usize,
    front: &[u8],
    position: usize,
) -> Option<u8>
    ensures { (term rest : List ℕ) → Reaches L.Begins list.now count term rest → size ≡ length term
        → HasFront front.now term → result ≡ slice_get term position }
{
    if position >= size {
        return None;
    }
    if position < front.len() {
        return Some(front[position]);
    }
    Some(far_byte_behind::<L>(list, count, position))
}

/// The byte at a position of the term that is reached behind so many entries, 0 past its end, by
/// going over them.
fn far_byte_behind<L: Listed>(list: &[u8], count: usize, position: usize) -> u8
    ensures { (term rest : List ℕ) → Reaches L.Begins list.now count term rest → result ≡ slice_index term position }
{
    let mut rest = list;
    let mut byte = 0;
    for _k in 0..count {
        let Some((term, after)) = L::split(rest) else {
            return 0;
        };
        byte = byte_with(byte, term, position);
        rest = after;
    }
    byte
}
