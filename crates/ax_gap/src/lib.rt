//! Gap lists: lists of rising 32-bit numbers in few bytes, and the set operations on such lists.
//!
//! A gap list is the varint of the count, and then a varint for each number: the first number, and
//! each later one's difference from the number before, less 1. Most gaps of a dense list take one
//! byte. The crate stands on `std` alone.
//!
//! Its one contract: a list of rising numbers has one spelling, `gaps list` of `specs/Gaps.antt`.
//! `put_gaps` writes it. `read_gaps` finds the one with which bytes begin, whatever follows, and
//! answers `None` exactly where they begin with none; its cursor gives the list's numbers, in
//! order, and takes no memory. `meet`, `join` and `without` are the intersection, the union and the
//! difference of rising lists, each in one pass over both.
#![tactic(auto)]

mod cursor;
mod gaps;
pub mod laws;
mod out_of_memory;
mod sets;
pub mod varint;

pub use cursor::{GapCursor, read_gaps};
pub use gaps::put_gaps;
pub use out_of_memory::Memory;
pub use sets::{is_rising, join, meet, without};
