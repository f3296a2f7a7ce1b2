//! Pages of answers: what an answer page is, and the law that pages one behind another are the whole
//! answer. Definitions and laws alone.
//!
//! Stands on `ax_result`, for the answer of a query, and on the lemmas of `ax_rows` on sorted rows.
//! Its one contract is that of `laws::joined`.
#![tactic(auto)]

pub mod laws;
