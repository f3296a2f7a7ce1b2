//! The meaning of a script: the step of a line, the run of a list of lines as data and the text of a
//! run, as definitions that the top call cites, and laws about them; as code, why a query that was
//! read is refused (`refusal_of`).
//!
//! Stands on `ax_lines`, `ax_container`, `ax_policy`, `ax_grammar`, `ax_mean`, `ax_result` and `ax_needs`. Its one contract: from
//! any container any lines have a run (`there_is_a_run`), and each line of it keeps what holds of every
//! container (`a_step_keeps_soundness`).
#![tactic(auto)]

pub mod laws;
mod refusing;

pub use refusing::refusal_of;
