//! Varints, in their shortest form: what a gap list is made of.

ghost use Rattle.std.specs.Prelude.{◌≡◌, ℕ, ◌++◌, ◌^◌, ◌<◌, ◌≤◌, Some, None, List, length, take, drop, IfSome, OnOk, OnErr};
ghost use Rattle.std.specs.Option.{option_map};
ghost use Rattle.ax_gap.specs.Reading.{first_varint, at_most};
ghost use Rattle.ax_gap.specs.Varint.{varint};

use crate::out_of_memory::Memory;

/// The greatest number that is read: the count of a gap list that has every 32-bit number.
const MOST: u64 = 1 << 32;

/// Writes the varint of a number at the end: one byte to five. After `Memory` `out` is as before.
pub fn put_varint(out: &mut Vec<u8>, number: u32) -> Result<(), Memory>
    ensures ok { OnOk result (out.new.items ≡ out.old.items ++ varint number) }
    ensures err { OnErr result (out.new.items ≡ out.old.items) }
{
    let length = out.len();
    let put = push_varint(out, number as u64);
    if put.is_err() {
        out.truncate(length);
    }
    put
}

/// Reads the varint with which the bytes begin: its number, and how many bytes it takes. `None`
/// where they begin with no varint of a number below 2^32. Anything may follow it.
pub fn read_varint(bytes: &[u8]) -> Option<(u32, usize)>
    // What is read is spelled so.
    ensures found { IfSome result (λ found. bytes.now ≡ varint found.0 ++ drop found.1 bytes.now) }
    ensures used { IfSome result (λ found. found.1 ≡ length (varint found.0)) }
    ensures within { IfSome result (λ found. found.1 ≤ length bytes.now) }

    // What is spelled so is read.
    ensures only { (n : ℕ) (rest : List ℕ) → n < 2 ^ 32 → bytes.now ≡ varint n ++ rest → result ≡ Some (n, length (varint n)) }
{
    let (number, rest) = split_varint(bytes)?;
    if number > u32::MAX as u64 {
        return None;
    }
    Some((number as u32, bytes.len() - rest.len()))
}

/// Writes the varint of a number at the end. An error may leave some of its bytes there.
pub(crate) fn push_varint(out: &mut Vec<u8>, number: u64) -> Result<(), Memory>
    ensures ok { OnOk result (out.new.items ≡ out.old.items ++ varint number) }
    ensures prefix { take (length out.old.items) out.new.items ≡ out.old.items }
{
    let mut high = number;
    while high >= 128 {
        out.push(128 + (high % 128) as u8)?;
        high /= 128;
    }
    out.push(high as u8)?;
    Ok(())
}

/// Takes the first varint off, where its number is at most `MOST`: the number, and the bytes after
/// it.
///
/// One byte or two are read without a branch on which it is, since in a mixture of both it could
/// not be guessed.
#[inline]
pub(crate) fn split_varint(bytes: &[u8]) -> Option<(u64, &[u8])>
    ensures { option_map (λ found. (found.0, found.1.now)) result ≡ at_most (2 ^ 32) (first_varint bytes.now) }
{
    if bytes.len() < 2 {
        return split_longer(bytes);
    }
    let first = bytes[0] as u64;
    let more = first / 128;
    // What the second byte adds to the number is 128 times this. It is above 126 where that byte
    // does not end the varint, or is 0 and should not be there.
    let above = more * bytes[1].wrapping_sub(1) as u64;
    if above > 126 {
        return split_longer(bytes);
    }
    Some((first + 128 * above, &bytes[1 + more as usize..]))
}

/// The same, for a varint of any length.
fn split_longer(bytes: &[u8]) -> Option<(u64, &[u8])>
    ensures { option_map (λ found. (found.0, found.1.now)) result ≡ at_most (2 ^ 32) (first_varint bytes.now) }
{
    let mut low = 0u64;
    let mut scale = 1u64;
    for (i, &byte) in bytes.iter().enumerate() {
        if scale > MOST {
            return None;
        }
        if byte < 128 {
            let number = low + byte as u64 * scale;
            if number > MOST || (byte == 0 && i > 0) {
                return None;
            }
            return Some((number, &bytes[i + 1..]));
        }
        low += (byte - 128) as u64 * scale;
        scale *= 128;
    }
    None
}
