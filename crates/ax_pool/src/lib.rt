//! A pool of frames: blocks of 64 KiB that are made once and lent out by slots, so that what works
//! with a frame takes no memory later.
//!
//! It stands on no other crate. Its one contract: the slots that are taken are of different frames,
//! writing through one leaves all other frames as they were, a slot that was given back is free
//! again, and the free frames and those that are taken are all frames of the pool.
#![tactic(auto)]

mod out_of_memory;
mod pool;
mod slot;

pub use out_of_memory::Memory;
pub use pool::{FRAME_BYTES, Pool};
pub use slot::Slot;

#[cfg(test)]
mod tests;
