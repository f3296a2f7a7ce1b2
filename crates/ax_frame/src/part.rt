//! Parts: a kind, a key and a payload of at most 65,536 bytes.

ghost use Rattle.std.specs.Prelude.{◌≡◌, ℕ, List, IfSome, IfNone, IsSomeAnd, IsTrue};
ghost use Rattle.ax_frame.specs.Part.{PartValue, IsPartHead, AreParts, BeginsWithPart, NoPart, part_value, head_bytes};
ghost use Rattle.ax_frame.specs.declared.part.PartHead.{PartHead};

/// The most bytes that a payload may have.
pub const MOST_PAYLOAD: usize = 65_536;

/// One part of a frame. What kinds there are, and what their payloads mean, is for the layers
/// above.
#[derive(Clone, Copy, Debug)]
pub struct Part<'a> {
    /// What the payload is.
    pub kind: u8,
    /// What the payload belongs to.
    pub key: u32,
    /// The bytes themselves.
    pub payload: &'a [u8],
}

/// The first nine bytes of a part, read on their own.
#[derive(Clone, Copy, Debug, PartialEq, Eq)]
pub struct PartHead {
    /// What the payload is.
    pub kind: u8,
    /// What the payload belongs to.
    pub key: u32,
    /// The payload's length in bytes. A part is well formed only where it is at most 65,536.
    pub len: u32,
}

/// The head of a part. It is the first nine bytes of one exactly where the length is at most
/// 65,536.
pub fn part_head(bytes: &[u8; 9]) -> PartHead
    ensures is { IsPartHead bytes.now result }
    ensures only { (head : PartHead) → IsPartHead bytes.now head → head ≡ result }
{
    let [kind, k0, k1, k2, k3, l0, l1, l2, l3] = *bytes;
    PartHead {
        kind,
        key: u32::from_le_bytes([k0, k1, k2, k3]),
        len: u32::from_le_bytes([l0, l1, l2, l3]),
    }
}

/// The nine bytes that say a kind, a key and a length.
pub(crate) fn head_of(kind: u8, key: u32, len: u32) -> [u8; 9]
    ensures { result ≡ head_bytes kind key len }
{
    let [k0, k1, k2, k3] = key.to_le_bytes();
    let [l0, l1, l2, l3] = len.to_le_bytes();
    [kind, k0, k1, k2, k3, l0, l1, l2, l3]
}

/// The part at the beginning of the bytes, and the bytes after it. `None` exactly where no part
/// stands there: fewer than nine bytes, a length above 65,536, or one that runs past the end.
///
/// A layer that goes from part to part by this call knows of each the offset at which it stands,
/// and of bytes that are not parts the offset of the first that is none.
pub fn split_part(bytes: &[u8]) -> Option<(Part<'_>, &[u8])>
    ensures found { IfSome result (λ x. BeginsWithPart bytes.now (part_value x.0) x.1.now) }
    ensures only { (p : PartValue) (rest : List ℕ) → BeginsWithPart bytes.now p rest
        → IsSomeAnd result (λ x. (part_value x.0 ≡ p) × (x.1.now ≡ rest)) }
    ensures none { IfNone result (NoPart bytes.now) }
{
    let (head, rest) = bytes.split_first_chunk::<9>()?;
    let PartHead { kind, key, len } = part_head(head);
    let len = len as usize;
    if len > MOST_PAYLOAD || len > rest.len() {
        return None;
    }
    let (payload, rest) = rest.split_at(len);
    Some((Part { kind, key, payload }, rest))
}

/// Whether the bytes are parts, one after another, to the last byte.
pub(crate) fn are_parts(bytes: &[u8]) -> bool
    ensures yes { IsTrue result → AreParts bytes.now }
    ensures no { AreParts bytes.now → IsTrue result }
{
    let mut rest = bytes;
    while !rest.is_empty() {
        let Some((_, after)) = split_part(rest) else {
            return false;
        };
        rest = after;
    }
    true
}
