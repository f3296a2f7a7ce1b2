//! A number of at most 32 bits at the front of bytes.

ghost use Rattle.std.specs.Prelude.{◌≡◌, ℕ, ◌++◌, ◌<◌, ◌^◌, List, IfSome, IsSomeAnd};
ghost use Rattle.std.specs.Option.{option_map};
ghost use Rattle.ax_gap.specs.Varint.{varint};
ghost use Rattle.ax_pair.specs.Low.{first_number};

use ax_gap::varint::read_varint;

/// The number below 2^32 whose varint comes first, and the bytes after it. `None` exactly where
/// none comes first.
pub fn split_number(bytes: &[u8]) -> Option<(u32, &[u8])>
    ensures found { IfSome result (λ x. bytes.now ≡ varint x.0 ++ x.1.now) }
    ensures fits { IfSome result (λ x. x.0 < 2 ^ 32) }
    ensures only { (n : ℕ) (rest : List ℕ) → n < 2 ^ 32 → bytes.now ≡ varint n ++ rest
        → IsSomeAnd result (λ x. (x.0 ≡ n) × (x.1.now ≡ rest)) }
    ensures first { option_map (λ x. (x.0, x.1.now)) result ≡ first_number bytes.now }
{
    let (number, used) = read_varint(bytes)?;
    let (_, rest) = bytes.split_at(used);
    Some((number, rest))
}
