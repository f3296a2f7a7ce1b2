//! Bytes that contracts see and no code holds.
//!
//! It stands on no other crate. Its one contract: what is made of bytes shows these bytes. It takes no
//! bytes at run time, so what a store has on its disk can be told without a copy in memory.
#![tactic(auto)]

mod shown;

pub use shown::Shown;
