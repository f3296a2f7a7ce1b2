//! What an item says, with its bytes where they lie.

ghost use Rattle.std.specs.Prelude.{◌≡◌, ◌≤◌, ◌+◌, ℕ, List, [], length, Some, option_map};
ghost use Rattle.ax_frame.specs.Part.{PartValue, part_value};
ghost use Rattle.ax_area.specs.Items.{number_at, long_number_at};
ghost use Rattle.ax_area.specs.Changes.{change_by};
ghost use Rattle.ax_area.specs.Kinds.{kind_in};
ghost use Rattle.ax_area.specs.ChangeTexts.{change_value};
ghost use Rattle.ax_area.specs.Contents.{follows};

use crate::kind::{Kind, kind_of_number};
use ax_frame::Part;
use ax_pages::numbers::LAST_POLICY;
use ax_pair::split_low;

/// A change, as a part has it. The text of a long document goes on in its pieces.
#[derive(Clone, Copy, Debug)]
pub enum ChangeText<'a> {
    /// The next number, the policy now, and the next version where it says one.
    Meta {
        /// The number that the next creation takes.
        next: u32,
        /// The number of the policy now.
        policy: u32,
        /// The version that the next write takes.
        version: Option<u64>,
    },
    /// A document.
    Document {
        /// Its number.
        number: u32,
        /// The number of its policy.
        policy: u8,
        /// Its version, where it says one.
        version: Option<u64>,
        /// Its text, or the front of it.
        text: &'a [u8],
    },
    /// The document is gone.
    Gone {
        /// Its number.
        number: u32,
    },
    /// A policy.
    Policy {
        /// Its number.
        number: u32,
        /// Its text.
        text: &'a [u8],
    },
    /// A base of a term page.
    Base {
        /// The page.
        page: u32,
        /// What it holds.
        payload: &'a [u8],
    },
    /// A delta of a term page.
    Delta {
        /// The page.
        page: u32,
        /// What it changes.
        payload: &'a [u8],
    },
}

/// Whether a meta or a document that says this version, or none, may stand behind others of the area, of which one
/// said a version or none did.
pub fn may_follow(version: Option<u64>, versioned: bool) -> bool
    ensures { result ≡ follows version versioned }
{
    version.is_some() || !versioned
}

/// What the first part of an item says in that version. `None` exactly where it says nothing.
pub fn read_change(version: u16, part: Part<'_>) -> Option<ChangeText<'_>>
    requires { 1 ≤ version }
    ensures { (pieces : List PartValue) → option_map (change_value pieces) result
        ≡ change_by (kind_in version (part_value part.entry).kind) (part_value part.entry) pieces }
{
    match kind_of_number(version, part.kind) {
        None => None,
        Some(kind) => change_of_kind(kind, part),
    }
}

/// What a part of this kind says.
fn change_of_kind(kind: Kind, part: Part<'_>) -> Option<ChangeText<'_>>
    ensures { (pieces : List PartValue) → option_map (change_value pieces) result
        ≡ change_by (Some kind) (part_value part.entry) pieces }
{
    match kind {
        Kind::PlainMeta => plain_meta(part),
        Kind::Meta => meta(part),
        Kind::Policy => policy(part),
        Kind::PlainDocument => plain_document(part),
        Kind::Document => document(part),
        Kind::LongDocument => long_document(part),
        Kind::Piece => None,
        Kind::Gone => gone(part),
        Kind::Base => base(part),
        Kind::Delta => Some(ChangeText::Delta {
            page: part.key,
            payload: part.payload,
        }),
    }
}

/// The same with the next version.
fn meta(part: Part<'_>) -> Option<ChangeText<'_>>
    ensures { (pieces : List PartValue) → option_map (change_value pieces) result
        ≡ change_by (Some Kind.Meta) (part_value part.entry) pieces }
{
    let key = part.key;
    let payload = part.payload;
    if key != 0 || payload.len() != 16 {
        return None;
    }
    let next = number_in(payload, 0);
    let version = long_number_in(payload, 8);
    if next == 0 || version == 0 {
        return None;
    }
    Some(ChangeText::Meta {
        next,
        policy: number_in(payload, 4),
        version: Some(version),
    })
}

/// A policy.
fn policy(part: Part<'_>) -> Option<ChangeText<'_>>
    ensures { (pieces : List PartValue) → option_map (change_value pieces) result
        ≡ change_by (Some Kind.Policy) (part_value part.entry) pieces }
{
    let number = part.key;
    if number > LAST_POLICY {
        return None;
    }
    Some(ChangeText::Policy {
        number,
        text: part.payload,
    })
}

/// A document, whose version is its number.
fn plain_document(part: Part<'_>) -> Option<ChangeText<'_>>
    ensures { (pieces : List PartValue) → option_map (change_value pieces) result
        ≡ change_by (Some Kind.PlainDocument) (part_value part.entry) pieces }
{
    let number = part.key;
    let payload = part.payload;
    if number == 0 || payload.is_empty() {
        return None;
    }
    Some(ChangeText::Document {
        number,
        policy: payload[0],
        version: None,
        text: &payload[1..],
    })
}

/// The first part of a long document.
fn long_document(part: Part<'_>) -> Option<ChangeText<'_>>
    ensures { (pieces : List PartValue) → option_map (change_value pieces) result
        ≡ change_by (Some Kind.LongDocument) (part_value part.entry) pieces }
{
    let number = part.key;
    let payload = part.payload;
    if number == 0 || payload.len() != 65_536 {
        return None;
    }
    let version = long_number_in(payload, 1);
    let len = number_in(payload, 9);
    if version == 0 || len <= 65_527 {
        return None;
    }
    Some(ChangeText::Document {
        number,
        policy: payload[0],
        version: Some(version),
        text: &payload[13..],
    })
}

/// A base, which begins with a low pair.
fn base(part: Part<'_>) -> Option<ChangeText<'_>>
    ensures { (pieces : List PartValue) → option_map (change_value pieces) result
        ≡ change_by (Some Kind.Base) (part_value part.entry) pieces }
{
    let page = part.key;
    let payload = part.payload;
    if split_low(payload).is_none() {
        return None;
    }
    Some(ChangeText::Base { page, payload })
}

/// The next number and the policy now, with no version.
fn plain_meta(part: Part<'_>) -> Option<ChangeText<'_>>
    ensures { (pieces : List PartValue) → option_map (change_value pieces) result
        ≡ change_by (Some Kind.PlainMeta) (part_value part.entry) pieces }
{
    let key = part.key;
    let payload = part.payload;
    if key != 0 || payload.len() != 8 {
        return None;
    }
    let next = number_in(payload, 0);
    if next == 0 {
        return None;
    }
    Some(ChangeText::Meta {
        next,
        policy: number_in(payload, 4),
        version: None,
    })
}

/// A document with its version.
fn document(part: Part<'_>) -> Option<ChangeText<'_>>
    ensures { (pieces : List PartValue) → option_map (change_value pieces) result
        ≡ change_by (Some Kind.Document) (part_value part.entry) pieces }
{
    let number = part.key;
    let payload = part.payload;
    if number == 0 || payload.len() < 9 {
        return None;
    }
    let version = long_number_in(payload, 1);
    if version == 0 {
        return None;
    }
    Some(ChangeText::Document {
        number,
        policy: payload[0],
        version: Some(version),
        text: &payload[9..],
    })
}

/// The document of a number is gone.
fn gone(part: Part<'_>) -> Option<ChangeText<'_>>
    ensures { (pieces : List PartValue) → option_map (change_value pieces) result
        ≡ change_by (Some Kind.Gone) (part_value part.entry) pieces }
{
    if part.key == 0 || !part.payload.is_empty() {
        return None;
    }
    Some(ChangeText::Gone { number: part.key })
}

/// The number of 32 bits at a place.
fn number_in(payload: &[u8], place: usize) -> u32
    requires { place + 4 ≤ length payload.now }
    ensures { result ≡ number_at place payload.now }
{
    let (_, behind) = payload.split_at(place);
    let Some((number, _)) = behind.split_first_chunk::<4>() else {
        return 0;
    };
    u32::from_le_bytes(*number)
}

/// The number of 64 bits at a place.
fn long_number_in(payload: &[u8], place: usize) -> u64
    requires { place + 8 ≤ length payload.now }
    ensures { result ≡ long_number_at place payload.now }
{
    let (_, behind) = payload.split_at(place);
    let Some((number, _)) = behind.split_first_chunk::<8>() else {
        return 0;
    };
    u64::from_le_bytes(*number)
}
