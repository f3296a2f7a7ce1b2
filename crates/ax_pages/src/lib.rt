//! What bytes on a disk are as a store, below any meaning of its documents: which log frames an area
//! has, and what a store's pages have: the step by which a part changes them, in the words of the
//! first version. `ax_area` stands on the areas and term pages of these; which root slot counts and
//! what an image of the three lists is, it says itself.
//!
//! It stands on `ax_frame`, whose frames and parts it puts together, and on `ax_disk` for the names of
//! the lists. Its one contract: the bytes of an area are at most one of one list of log frames and
//! broken at one place; and frames lead to at most one contents, or are spoiled at one offset, not
//! both.
#![tactic(auto)]

pub mod contents_laws;
pub mod numbers;
mod page;

pub use page::{Kind, Page, kind_of_number};
