//! The words of the store, which have one version of the format, and those of all versions say the same. Definitions and
//! laws; no program.
//!
//! The store keeps its pages in the words of `ax_pages`; `ax_area` has those of all versions, in which it speaks. This ties
//! the two in both directions: contents, the parts and frames that lead to them, and where frames are spoiled. It stands on
//! those two, and on what they speak of.
//!
//! Its one contract: contents in the words of the store stand for one contents in those of all versions, and parts and
//! frames lead to the one where they lead to the other.
#![tactic(auto)]

pub mod laws;
