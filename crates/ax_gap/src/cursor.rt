//! Reading gap lists: the one with which bytes begin is checked whole, and then given number by
//! number.

ghost use Rattle.std.specs.Prelude.{◌≡◌, ℕ, ◌++◌, ◌≤◌, ◌^◌, List, Some, length, drop, slice_get, IsSome, IfSome, IsSomeAnd};
ghost use Rattle.std.specs.Option.{option_map};
ghost use Rattle.ax_gap.specs.Gaps.{IsRisingList, gaps};
ghost use Rattle.ax_gap.specs.Reading.{first_gaps, first_number};
ghost use Rattle.ax_gap.specs.Cursor.{numbers_of};

use crate::varint::split_varint;
use std::marker::Model;

/// One more than the greatest number of a gap list.
const END: u64 = 1 << 32;

/// The numbers of a gap list, one after another. It reads them from the bytes and takes no memory.
///
/// A clause sees the remaining numbers, and how many bytes the whole gap list takes.
#[derive(Drop)]
pub struct GapCursor<'a> {
    // The bytes from the next gap on.
    bytes: &'a [u8],
    // How many numbers remain.
    count: usize,
    // The least number that may come next.
    least: u64,
    // How many bytes the whole list takes.
    used: usize,
}

impl<'a> Model for GapCursor<'a> {
    ghost use Rattle.ax_gap.specs.Remaining.{RemainingGaps};

    ghost Value = { RemainingGaps };

    ghost use Rattle.ax_gap.specs.Cursor.{remaining_gaps, IsCursor};

    ghost view = { remaining_gaps };

    ghost invariant = { IsCursor };
}

impl<'a> GapCursor<'a> {
    /// The next number. `None` exactly where none remains.
    #[inline]
    pub fn next(&mut self) -> Option<u32>
        ensures number { result ≡ slice_get self.old.numbers 0 }
        ensures remaining { self.new.numbers ≡ drop 1 self.old.numbers }
        ensures used { self.new.used ≡ self.old.used }
    {
        if self.count == 0 {
            return None;
        }
        let (number, rest) = split_number(self.bytes, self.least)?;
        self.bytes = rest;
        self.count -= 1;
        self.least = number + 1;
        Some(number as u32)
    }

    /// How many numbers remain.
    pub fn len(&self) -> usize
        ensures { result ≡ length self.now.numbers }
    {
        self.count
    }

    /// How many bytes the whole gap list takes, whatever was read of it.
    pub fn used(&self) -> usize
        ensures { result ≡ self.now.used }
    {
        self.used
    }
}

/// The gap list with which the bytes begin, its cursor before the first number. `None` exactly
/// where they begin with none. Anything may follow it.
pub fn read_gaps(bytes: &[u8]) -> Option<GapCursor<'_>>
    // What is read is the gap list of the cursor's numbers.
    ensures found { IfSome result (λ cursor. bytes.now ≡ gaps cursor.numbers ++ drop cursor.used bytes.now) }
    ensures rising { IfSome result (λ cursor. IsRisingList cursor.numbers) }
    ensures used { IfSome result (λ cursor. cursor.used ≡ length (gaps cursor.numbers)) }
    ensures within { IfSome result (λ cursor. cursor.used ≤ length bytes.now) }

    // What is the gap list of some numbers is read, and gives these.
    ensures only { (list rest : List ℕ) → IsRisingList list → bytes.now ≡ gaps list ++ rest
        → IsSomeAnd result (λ cursor. (cursor.numbers ≡ list) × (cursor.used ≡ length (gaps list))) }
{
    let (count, first, after) = split_list(bytes)?;
    Some(GapCursor {
        bytes: first,
        count,
        least: 0,
        used: bytes.len() - after.len(),
    })
}

/// The count of the gap list with which the bytes begin, the bytes from its first gap on, and those
/// after its last. `None` exactly where they begin with none.
fn split_list(bytes: &[u8]) -> Option<(usize, &[u8], &[u8])>
    ensures found { IfSome result (λ x.
        bytes.now ≡ gaps (numbers_of (first_gaps 0 x.0 x.1.now)) ++ x.2.now) }
    ensures rising { IfSome result (λ x. IsRisingList (numbers_of (first_gaps 0 x.0 x.1.now))) }
    ensures reads { IfSome result (λ x. IsSome (first_gaps 0 x.0 x.1.now)) }
    ensures only { (list rest : List ℕ) → IsRisingList list → bytes.now ≡ gaps list ++ rest
        → IsSomeAnd result (λ x. first_gaps 0 x.0 x.1.now ≡ Some (list, rest)) }
{
    let (count, first) = split_varint(bytes)?;
    if count > first.len() as u64 {
        return None;
    }
    let count = count as usize;
    let after = skip_gaps(first, count)?;
    Some((count, first, after))
}

/// The bytes after so many gaps. `None` where they are not there, or go above 2^32 - 1.
fn skip_gaps(bytes: &[u8], count: usize) -> Option<&[u8]>
    ensures { option_map (λ end. end.now) result ≡ option_map (λ found. found.1) (first_gaps 0 count bytes.now) }
{
    let mut remaining = bytes;
    let mut least = 0u64;
    let mut many = count;
    while many > 0 {
        let (number, after) = split_number(remaining, least)?;
        remaining = after;
        least = number + 1;
        many -= 1;
    }
    Some(remaining)
}

/// The number whose gap comes first, where none below `least` may stand, and the bytes after the
/// gap. `None` exactly where no gap comes first, or that of a number above 2^32 - 1.
#[inline]
#[tactic(auto, using(crate::proofs::CursorLaws::number_past, crate::proofs::CursorLaws::number_high, crate::proofs::CursorLaws::number_found))]
fn split_number(bytes: &[u8], least: u64) -> Option<(u64, &[u8])>
    requires { least ≤ 2 ^ 32 }
    ensures { option_map (λ found. (found.0, found.1.now)) result ≡ first_number least bytes.now }
{
    let (gap, rest) = split_varint(bytes)?;
    let number = least + gap;
    if number >= END {
        return None;
    }
    Some((number, rest))
}
