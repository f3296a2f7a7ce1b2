//! Bytes in, bytes out and counted steps: the traits by which the store meets its input and output.
//!
//! A [`Source`] gives bytes and a [`Sink`] takes them. Each keeps a count of its faults that never
//! falls, and each may tell its bytes or not: contracts speak of them where it does. In memory they
//! are [`MemSource`] and [`MemSink`], which fail at chosen calls; over any reader and writer of the
//! standard library [`StdSource`] and [`StdSink`]. [`Steps`] counts work and takes no bytes.
//!
//! It stands on `ax_faults` alone. Its one contract: bytes are moved exactly, and a call
//! answers [`Failed`] only where the count of faults rose in that call.
#![tactic(auto)]

mod call_count;
mod failed;
mod mem_sink;
mod mem_source;
mod out_of_memory;
mod sink;
mod source;
mod std_sink;
mod std_source;
mod steps;

pub use failed::Failed;
pub use mem_sink::MemSink;
pub use mem_source::MemSource;
pub use out_of_memory::Memory;
pub use sink::{Sink, write_all};
pub use source::Source;
pub use std_sink::StdSink;
pub use std_source::StdSource;
pub use steps::Steps;

#[cfg(test)]
mod tests;
