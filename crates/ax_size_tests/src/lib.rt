//! Tests at the sizes at which a body could give up behind "out of memory": every contract allows
//! that answer, so only a call that is made at the size shows that it is not given.
//!
//! Stands on the program and on the crates whose sizes no script reaches. It has no contract: it is
//! code of tests alone.
#![tactic(auto)]

#[cfg(test)]
mod tests;
