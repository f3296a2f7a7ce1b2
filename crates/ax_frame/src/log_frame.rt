//! Log frames: an open gate, a length of at least 1, and that many bytes of parts.

ghost use Rattle.std.specs.Prelude.{◌≡◌, ◌≢◌, ◌<◌, ◌^◌, ℕ, List, [], ◌∷◌, ◌++◌, length, IfOk, IsOkAnd, OnErr, IfSome, IfNone, MatchOption};
ghost use Rattle.ax_frame.specs.Part.{PartValue, part_value, parts_bytes, AllFit};
ghost use Rattle.ax_frame.specs.LogFrame.{open_frame, frame_bytes, CanFrame, BeginsWithFrame, NoFrame, IsFrameHead};

use crate::out_of_memory::Memory;
use crate::part::{Part, are_parts, split_part};
use crate::parts_text::PartsText;
use std::alloc::Global;
use std::marker::Model;

/// The bytes do not begin with an open frame.
#[derive(Clone, Copy, Debug, PartialEq, Eq)]
pub struct NotFrame;

/// What nine bytes are as the head of a frame.
#[derive(Clone, Copy, Debug, PartialEq, Eq)]
pub enum FrameHead {
    /// The first byte is not 1. What follows it has no meaning.
    Closed,
    /// An open frame of so many bytes of parts.
    Frame {
        /// How many bytes of parts follow the head: at least 1.
        len: u64,
    },
    /// An open gate with a length of 0.
    Bad,
}

/// What the bytes are as the head of a frame.
pub fn frame_head(bytes: &[u8; 9]) -> FrameHead
    ensures is { IsFrameHead bytes.now result }
    ensures only { (head : FrameHead) → IsFrameHead bytes.now head → head ≡ result }
{
    let [gate, l0, l1, l2, l3, l4, l5, l6, l7] = *bytes;
    if gate != 1 {
        return FrameHead::Closed;
    }
    match u64::from_le_bytes([l0, l1, l2, l3, l4, l5, l6, l7]) {
        0 => FrameHead::Bad,
        len => FrameHead::Frame { len },
    }
}

/// The parts of a frame that are not yet given, first to last. Contracts see the list.
#[derive(Drop)]
pub struct FrameParts<'a> {
    // The spelling of the parts.
    bytes: &'a [u8],
}

impl<'a> Model for FrameParts<'a> {
    ghost use Rattle.std.specs.Prelude.{List};
    ghost use Rattle.ax_frame.specs.Part.{PartValue};
    ghost use Rattle.ax_frame.specs.View.{parts_in, Spells};

    ghost Value = { List PartValue };

    ghost view = { λ p. parts_in p.bytes.now };

    ghost invariant = { λ p. Spells p.bytes.now };
}

impl<'a> FrameParts<'a> {
    /// The next part, in the order in which they stand. `None` exactly at the end.
    pub fn next(&mut self) -> Option<Part<'a>>
        ensures { MatchOption result
            ((self.old ≡ []) × (self.new ≡ []))
            (λ p. self.old ≡ part_value p ∷ self.new) }
    {
        let (part, rest) = split_part(self.bytes)?;
        self.bytes = rest;
        Some(part)
    }

    /// How many bytes the remaining parts take. Before the first `next` that is what the frame's
    /// head says, and the frame ends nine bytes later: `frame_bytes` of the list has nine bytes
    /// before those of its parts.
    pub fn remaining_len(&self) -> usize
        ensures { result ≡ length (parts_bytes self.now) }
    {
        self.bytes.len()
    }
}

/// The bytes that the open frame at the beginning spans, and the bytes after it. `None` exactly
/// where no open frame of at least one byte stands there whole.
#[tactic(auto, using(crate::proofs::Frames::body_found))]
fn frame_body(bytes: &[u8]) -> Option<(&[u8], &[u8])>
    ensures fits { IfSome result (λ x. (0 < length x.0.now) × (length x.0.now < 2 ^ 64)) }
    ensures found { IfSome result (λ x. bytes.now ≡ open_frame x.0.now ++ x.1.now) }
    ensures none { IfNone result ((body rest : List ℕ) → 0 < length body → length body < 2 ^ 64
        → bytes.now ≡ open_frame body ++ rest → ⊥) }
{
    let (head, rest) = bytes.split_first_chunk::<9>()?;
    match frame_head(head) {
        FrameHead::Frame { len } if len <= rest.len() as u64 => Some(rest.split_at(len as usize)),
        _ => None,
    }
}

/// The parts of the open frame with which the bytes begin, whatever follows it. It takes no memory.
///
/// `NotFrame` exactly where they begin with none: the gate is not 1, the length is 0 or runs past
/// the end of the bytes, or what it spans is not one well-formed part after another.
pub fn read_frame(bytes: &[u8]) -> Result<FrameParts<'_>, NotFrame>
    ensures found { IfOk result (λ ps. (rest : List ℕ) × BeginsWithFrame bytes.now ps rest) }
    ensures only { (ps : List PartValue) (rest : List ℕ) → BeginsWithFrame bytes.now ps rest
        → IsOkAnd result (λ found. found ≡ ps) }
    ensures none { OnErr result (NoFrame bytes.now) }
{
    let Some((body, rest)) = frame_body(bytes) else {
        return Err(NotFrame);
    };
    if !are_parts(body) {
        return Err(NotFrame);
    }
    Ok(FrameParts { bytes: body })
}

/// The frame of these parts, of which there is at least one, without its own gate: length, parts,
/// and the closed gate that follows.
///
/// The gate is written apart, as the last step of a commit. `Memory` where there is no room for the
/// bytes.
pub fn write_frame(alloc: Global, parts: &PartsText) -> Result<Vec<u8>, Memory>
    requires { parts.now ≢ [] }
    ensures spelled { IfOk result (λ bytes. 1 ∷ bytes.items ≡ frame_bytes parts.now ++ 0 ∷ []) }
    ensures can { CanFrame parts.now }
{
    let body = parts.bytes();
    let mut out = Vec::with_capacity(alloc, body.len() + 9)?;
    out.extend_from_slice(&(body.len() as u64).to_le_bytes())?;
    out.extend_from_slice(body)?;
    out.push(0)?;
    Ok(out)
}
