//! Items, of which a frame is: one part, or the first part of a long document with all its pieces.

ghost use Rattle.std.specs.Prelude.{◌≡◌, ◌<◌, ◌≤◌, ◌^◌, ◌-◌, ◌++◌, ◌↔◌, ℕ, List, length, IfSome, IfNone, IsTrue, min};
ghost use Rattle.ax_frame.specs.Part.{PartValue, Fits, part_value, parts_bytes};
ghost use Rattle.ax_area.specs.Items.{Item, IsPiece, missing_behind, number_at};
ghost use Rattle.ax_area.specs.ItemTexts.{HasPieces, BeginsWithItem, IsItemText};

use ax_frame::{Part, split_part};
use ax_pages::numbers::{LONG_DOCUMENT, PIECE};

/// The most bytes of a piece.
const PIECE_BYTES: u32 = 65_536;

/// The bytes of a long document's text that its first part has.
const FIRST_BYTES: u32 = 65_523;

/// An item, as bytes have it.
#[derive(Clone, Copy, Debug)]
pub struct ItemText<'a> {
    /// The first part.
    pub first: Part<'a>,
    /// The pieces, one part after another.
    pub pieces: &'a [u8],
}

/// The item at the beginning of the bytes, and the bytes behind it. `None` exactly where no item stands there.
pub fn split_item(bytes: &[u8]) -> Option<(ItemText<'_>, &[u8])>
    ensures found { IfSome result (λ x. (item : Item) × IsItemText x.0 item × BeginsWithItem bytes.now item x.1.now) }
    ensures none { IfNone result ((item : Item) (rest : List ℕ) → BeginsWithItem bytes.now item rest → ⊥) }
{
    let Some((first, behind)) = split_part(bytes) else {
        return None;
    };
    let missing = missing_after(first);
    let Some(rest) = behind_pieces(first.key, missing, behind) else {
        return None;
    };
    let (pieces, rest) = behind.split_at(behind.len() - rest.len());
    Some((ItemText { first, pieces }, rest))
}

/// How many bytes of text are missing behind a part.
fn missing_after(part: Part<'_>) -> u32
    ensures { result ≡ missing_behind (part_value part.entry) }
{
    if part.kind != LONG_DOCUMENT || part.payload.len() != PIECE_BYTES as usize {
        return 0;
    }
    length_said(part.payload).saturating_sub(FIRST_BYTES)
}

/// The length that the front of a long document says.
fn length_said(payload: &[u8]) -> u32
    requires { 13 ≤ length payload.now }
    ensures { result ≡ number_at 9 payload.now }
{
    let (_, behind) = payload.split_at(9);
    let Some((number, _)) = behind.split_first_chunk::<4>() else {
        return 0;
    };
    u32::from_le_bytes(*number)
}

/// The bytes behind the pieces that have so many missing bytes. `None` exactly where these pieces do not stand there.
fn behind_pieces(key: u32, missing: u32, bytes: &[u8]) -> Option<&[u8]>
    ensures found { IfSome result (λ rest. HasPieces bytes.now key missing rest.now) }
    ensures none { IfNone result ((rest : List ℕ) → HasPieces bytes.now key missing rest → ⊥) }
{
    let mut rest = bytes;
    let mut left = missing;
    while left > 0 {
        let Some((piece, behind)) = split_part(rest) else {
            return None;
        };
        if !is_piece(key, left, piece) {
            return None;
        }
        left = left.saturating_sub(PIECE_BYTES);
        rest = behind;
    }
    Some(rest)
}

/// Whether the part is the piece that is due, where so many bytes are missing.
fn is_piece(key: u32, missing: u32, part: Part<'_>) -> bool
    requires { 0 < missing }
    ensures { IsTrue result ↔ IsPiece key missing (part_value part.entry) }
{
    let due = if missing < PIECE_BYTES {
        missing
    } else {
        PIECE_BYTES
    };
    part.kind == PIECE && part.key == key && part.payload.len() == due as usize
}
