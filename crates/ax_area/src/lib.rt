//! The grammar of a store's three lists, for all versions of the format: which root slot counts, of which items
//! the frames of its area are, what change each item says, and to what contents the changes lead.
//!
//! An item is one part, or the first part of a long document with its pieces. It is read once, by the table of
//! kinds, to a change in which no version stands; all definitions behind that are the same for each version. It
//! stands on `ax_pages` for areas and term pages, on `ax_frame` for slots, frames and parts, and on `ax_disk` for
//! images. The log, the store, what images stand for, the engine's public calls and the top call all have these
//! words.
//!
//! Its one contract: opening finds exactly one thing of each image: a version with what the area tells and the
//! contents to which that leads, a version above the newest, or damage at one place. What payloads hold is for the
//! crate above.
#![tactic(auto)]

mod change;
mod item;
mod kind;
pub mod laws;
mod root;

pub use change::{ChangeText, may_follow, read_change};
pub use item::{ItemText, split_item};
pub use kind::{Kind, kind_of_number};
pub use root::{Counting, Judgement, RootChoice, Which, choose, judge};
