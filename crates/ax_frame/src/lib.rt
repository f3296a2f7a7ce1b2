//! The byte formats of a store's root and log: root slots, log frames, and the parts in log frames.
//!
//! A root slot names the area that counts. An area is one log frame after another, up to a closed
//! gate. A log frame is one change of the store, written whole: a list of parts, each a kind, a key
//! and a payload.
//!
//! It stands on no other crate. Its one contract: bytes and values are related by one spelling for
//! each value, what is read is spelled so, and what is spelled so is read, whatever follows it.
#![tactic(auto)]

pub mod laws;
mod log_frame;
mod out_of_memory;
mod part;
mod parts_text;
mod root_slot;

pub use log_frame::{FrameHead, FrameParts, NotFrame, frame_head, read_frame, write_frame};
pub use out_of_memory::Memory;
pub use part::{MOST_PAYLOAD, Part, PartHead, part_head, split_part};
pub use parts_text::PartsText;
pub use root_slot::{RootSlot, read_slot, write_slot};
