//! The low pair at the front of a base's payload.

ghost use Rattle.std.specs.Prelude.{◌≡◌, ℕ, ◌++◌, ◌<◌, ◌^◌, List, length, IfSome, IsSomeAnd};
ghost use Rattle.std.specs.Option.{option_map};
ghost use Rattle.ax_gap.specs.Varint.{varint};
ghost use Rattle.ax_pair.specs.Low.{low_in};

use crate::number::split_number;

/// The term and the number of the low pair with which the bytes begin, and the bytes after it.
/// `None` exactly where they begin with none. Anything may follow it.
pub fn split_low(bytes: &[u8]) -> Option<(&[u8], u32, &[u8])>
    ensures found { IfSome result (λ x. bytes.now ≡ varint (length x.0.now) ++ (x.0.now ++ (varint x.1 ++ x.2.now))) }
    ensures fits { IfSome result (λ x. (length x.0.now < 2 ^ 32) × (x.1 < 2 ^ 32)) }
    ensures only { (term rest : List ℕ) (number : ℕ) → length term < 2 ^ 32 → number < 2 ^ 32
        → bytes.now ≡ varint (length term) ++ (term ++ (varint number ++ rest))
        → IsSomeAnd result (λ x. (x.0.now ≡ term) × (x.1 ≡ number) × (x.2.now ≡ rest)) }
    ensures low { option_map (λ x. record { term = x.0.now; number = x.1 }) result ≡ low_in bytes.now }
{
    let (size, after) = split_number(bytes)?;
    let (term, after) = after.split_at_checked(size as usize)?;
    let (number, rest) = split_number(after)?;
    Some((term, number, rest))
}
