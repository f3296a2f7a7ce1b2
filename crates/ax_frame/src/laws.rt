//! Laws of the formats: what is true of the definitions themselves, whichever call reads or writes.

ghost use Rattle.std.specs.Prelude.{◌≡◌, ◌≢◌, ◌<◌, ◌≤◌, ◌↔◌, ℕ, List, ◌++◌, length, take, drop, slice_index};
ghost use Rattle.ax_frame.specs.RootSlot.{IsSlot};
ghost use Rattle.ax_frame.specs.Part.{PartValue, Fits, AllFit, AreParts, BeginsWithPart, NoPart, part_bytes, parts_bytes};
ghost use Rattle.ax_frame.specs.LogFrame.{CanFrame, BeginsWithFrame, NoFrame, IsFrameHead, frame_bytes};
ghost use Rattle.ax_frame.specs.Pieces.{PartsInPieces, FrameInPieces};
ghost use Rattle.ax_frame.specs.declared.root_slot.RootSlot.{RootSlot};
ghost use Rattle.ax_frame.specs.declared.log_frame.FrameHead.{FrameHead};

/// Bytes are one root slot alone.
pub fn one_slot()
    ensures { (bytes : List ℕ) (one other : RootSlot) → IsSlot bytes one → IsSlot bytes other → one ≡ other }
{}

/// Two parts with which the same bytes begin are the same, and so is what follows: no part is a
/// prefix of another.
pub fn one_part()
    ensures { (one other : PartValue) (x y : List ℕ) → Fits one → Fits other
        → part_bytes one ++ x ≡ part_bytes other ++ y → (one ≡ other) × (x ≡ y) }
{}

/// What was written as a log frame is one, whatever follows it.
pub fn frame_again()
    ensures { (ps : List PartValue) (rest : List ℕ) → CanFrame ps → BeginsWithFrame (frame_bytes ps ++ rest) ps rest }
{}

/// Two log frames with which the same bytes begin have the same parts, and end at the same offset.
pub fn one_frame()
    ensures { (bytes : List ℕ) (one other : List PartValue) (x y : List ℕ)
        → BeginsWithFrame bytes one x → BeginsWithFrame bytes other y → (one ≡ other) × (x ≡ y) }
{}

/// Reading a log frame in pieces, by `frame_head` and then `part_head`, gives its parts and no
/// others.
pub fn frame_in_pieces()
    ensures gives { (bytes : List ℕ) (ps : List PartValue) (rest : List ℕ)
        → BeginsWithFrame bytes ps rest → FrameInPieces bytes ps rest }
    ensures only { (bytes : List ℕ) (ps : List PartValue) (rest : List ℕ)
        → FrameInPieces bytes ps rest → BeginsWithFrame bytes ps rest }
{}

/// Reading parts in pieces gives the parts whose spelling the bytes are, and no others.
pub fn parts_in_pieces()
    ensures { (bytes : List ℕ) (ps : List PartValue)
        → PartsInPieces bytes ps ↔ (AllFit ps × (bytes ≡ parts_bytes ps)) }
{}

/// Whether bytes are parts, from the first part on: exactly where what follows it is, and not where
/// no part begins them.
pub fn part_by_part()
    ensures first { (bytes : List ℕ) (p : PartValue) (rest : List ℕ)
        → BeginsWithPart bytes p rest → AreParts bytes ↔ AreParts rest }
    ensures none { (bytes : List ℕ) → 0 < length bytes → NoPart bytes → AreParts bytes → ⊥ }
    ensures some { (bytes : List ℕ) (ps : List PartValue) (rest : List ℕ) → AllFit ps
        → bytes ≡ parts_bytes ps ++ rest → AreParts bytes ↔ AreParts rest }
{}

/// Where some parts are followed by what no part begins, both are known: so bytes that are not
/// parts are so from one offset on.
pub fn one_end()
    ensures { (one other : List PartValue) (x y : List ℕ) → AllFit one → AllFit other → NoPart x → NoPart y
        → parts_bytes one ++ x ≡ parts_bytes other ++ y → (one ≡ other) × (x ≡ y) }
{}

/// Nine bytes are one head of a log frame.
pub fn one_head()
    ensures { (bytes : List ℕ) (one other : FrameHead) → IsFrameHead bytes one → IsFrameHead bytes other → one ≡ other }
{}

/// The five ways in which bytes begin with no log frame. Where none of them is so, they begin with
/// one, by `frame_by_head`.
pub fn no_frame()
    ensures short { (bytes : List ℕ) → length bytes < 9 → NoFrame bytes }
    ensures closed { (bytes : List ℕ) → slice_index bytes 0 ≢ 1 → NoFrame bytes }
    ensures bad { (bytes : List ℕ) → IsFrameHead (take 9 bytes) FrameHead.Bad → NoFrame bytes }
    ensures past { (bytes : List ℕ) (len : ℕ) → IsFrameHead (take 9 bytes) (FrameHead.Frame len)
        → length (drop 9 bytes) < len → NoFrame bytes }
    ensures parts { (bytes : List ℕ) (len : ℕ) → IsFrameHead (take 9 bytes) (FrameHead.Frame len)
        → (AreParts (take len (drop 9 bytes)) → ⊥) → NoFrame bytes }
{}

/// A head, and behind it as many bytes as it says, which are parts: a log frame.
pub fn frame_by_head()
    ensures { (bytes : List ℕ) (len : ℕ) → IsFrameHead (take 9 bytes) (FrameHead.Frame len)
        → len ≤ length (drop 9 bytes) → (is : AreParts (take len (drop 9 bytes)))
        → BeginsWithFrame bytes is.parts (drop len (drop 9 bytes)) }
{}
