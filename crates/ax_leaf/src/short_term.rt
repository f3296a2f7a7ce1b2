//! A term after another: writing one, and reading one as it is written.

ghost use Rattle.std.specs.Prelude.{◌≡◌, ℕ, ◌++◌, ◌<◌, ◌≤◌, ◌^◌, List, length, IfSome, IsSomeAnd, OnOk};
ghost use Rattle.ax_gap.specs.Varint.{varint};
ghost use Rattle.ax_leaf.specs.Payload.{common, term_after};
ghost use Rattle.ax_leaf.specs.ShortTerm.{short_term};

use crate::out_of_memory::Memory;
use ax_gap::varint::put_varint;
use ax_pair::split_number;

/// A term as it is written after another.
#[derive(Clone, Copy)]
pub struct ShortTerm<'a> {
    /// How many bytes at their beginnings the two have in common.
    pub shared: usize,
    /// The bytes of the term behind those.
    pub rest: &'a [u8],
}

/// The term with which the bytes begin, as it is written after another, and the bytes after it.
/// `None` exactly where they begin with none. Anything may follow it.
pub fn split_term(bytes: &[u8]) -> Option<(ShortTerm<'_>, &[u8])>
    ensures found { IfSome result (λ x. bytes.now ≡ short_term x.0.shared x.0.rest.now ++ x.1.now) }
    ensures fits { IfSome result (λ x. (x.0.shared < 2 ^ 32) × (length x.0.rest.now < 2 ^ 32)) }
    ensures only { (shared : ℕ) (part rest : List ℕ) → shared < 2 ^ 32 → length part < 2 ^ 32
        → bytes.now ≡ short_term shared part ++ rest
        → IsSomeAnd result (λ x. (x.0.shared ≡ shared) × (x.0.rest.now ≡ part) × (x.1.now ≡ rest)) }
{
    let (shared, after) = split_number(bytes)?;
    let (size, after) = split_number(after)?;
    let (rest, after) = after.split_at_checked(size as usize)?;
    let shared = shared as usize;
    Some((ShortTerm { shared, rest }, after))
}

/// Writes a term after another at the end. `Memory` also where the term has 2^32 bytes or more.
#[tactic(auto, using(std::proofs::lemmas::List::append_assoc), unfolding(crate::specs::Payload::term_after))]
pub fn put_term(out: &mut Vec<u8>, last: &[u8], term: &[u8]) -> Result<(), Memory>
    ensures short { OnOk result (length term.now < 2 ^ 32) }
    ensures written { OnOk result (out.new.items ≡ out.old.items ++ term_after last.now term.now) }
{
    if term.len() > u32::MAX as usize {
        return Err(Memory);
    }
    let shared = in_common(last, term);
    let rest = &term[shared..];
    put_length(out, shared)?;
    put_length(out, rest.len())?;
    out.extend_from_slice(rest)?;
    Ok(())
}

/// Writes the varint of a length at the end. `Memory` also where the length has more than 32 bits.
pub fn put_length(out: &mut Vec<u8>, length: usize) -> Result<(), Memory>
    ensures fits { OnOk result (length < 2 ^ 32) }
    ensures written { OnOk result (out.new.items ≡ out.old.items ++ varint length) }
{
    if length > u32::MAX as usize {
        return Err(Memory);
    }
    put_varint(out, length as u32)?;
    Ok(())
}

/// How many bytes at their beginnings two terms have in common.
pub fn in_common(a: &[u8], b: &[u8]) -> usize
    ensures shared { result ≡ common a.now b.now }
    ensures first { result ≤ length a.now }
    ensures second { result ≤ length b.now }
{
    // Neighbours among pairs are mostly of one term, and whether terms are the same is told fast.
    if a == b {
        return a.len();
    }
    let shorter = a.len().min(b.len());
    for place in 0..shorter {
        if a[place] != b[place] {
            return place;
        }
    }
    shorter
}
