//! What is kept of a term for the one that is written after it: its first bytes, and how the test of
//! one byte tells whether that one comes after it. Bases and deltas are read so, with no memory.

ghost use Rattle.std.specs.Prelude.{◌≡◌, ◌↔◌, IsTrue, nat_lt, if◌then◌else◌, ℕ, ◌+◌, ◌-◌, ◌<◌, ◌≤◌, ◌^◌, List, ◌++◌, length, take, slice_index};
ghost use Rattle.ax_leaf.specs.ShortTerm.{whole_term, Exceeds, HasFront};

use crate::short_term::ShortTerm;

/// Does a term of `size` bytes have as many as are shared, and is the term itself short enough?
pub fn fits_behind(size: usize, term: ShortTerm<'_>) -> bool
    requires { term.shared < 2 ^ 32 }
    ensures { IsTrue result ↔ ((term.entry.shared ≤ size) × (term.entry.shared + length term.entry.rest.now < 2 ^ 32)) }
{
    term.shared <= size && term.shared + term.rest.len() <= u32::MAX as usize
}

/// Is there a first byte of the rest, and is it greater than the byte that the term before has in
/// its position, where that has one?
pub fn exceeds(rest: &[u8], byte: Option<u8>) -> bool
    ensures { IsTrue result ↔ Exceeds rest.now byte }
{
    let Some((&first, _)) = rest.split_first() else {
        return false;
    };
    match byte {
        None => true,
        Some(byte) => byte < first,
    }
}

/// Puts the bytes of a term over those of the term before, as far as there is room.
pub fn keep_front(front: &mut [u8], term: ShortTerm<'_>)
    ensures { (last : List ℕ) → HasFront front.old last → term.entry.shared ≤ length last
        → HasFront front.new (whole_term last term.entry.shared term.entry.rest.now) }
{
    if term.shared >= front.len() {
        return;
    }
    let kept = term.rest.len().min(front.len() - term.shared);
    let (kept, _) = term.rest.split_at(kept);
    put_at(front, term.shared, kept);
}

/// Puts bytes over those from a position on.
fn put_at(front: &mut [u8], position: usize, bytes: &[u8])
    requires { position + length bytes.now ≤ length front.old }
    ensures { take (position + length bytes.now) front.new ≡ take position front.old ++ bytes.now }
{
    let end = position + bytes.len();
    front[position..end].copy_from_slice(bytes);
}

/// The byte at a position of a term, from that of the term before it; 0 past the end.
pub fn byte_with(before: u8, term: ShortTerm<'_>, position: usize) -> u8
    ensures { result ≡ (if nat_lt position term.entry.shared then before else slice_index term.entry.rest.now (position - term.entry.shared)) }
{
    if position < term.shared {
        return before;
    }
    term.rest.get(position - term.shared).copied().unwrap_or(0)
}
