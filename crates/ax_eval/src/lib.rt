//! The value of an expression, where each alias stands for a value. Of a document nothing is copied
//! until it is a result: what an expression names is looked at where it stands.
//!
//! Stands on `ax_func`, whose operators and functions it calls. Its one contract: `eval` and
//! `eval_in` give the meaning of the expression, and fail only out of memory.
#![tactic(auto)]

mod env;
mod expression;
pub mod laws;
mod members;
mod out_of_memory;
mod owned;
mod results;
mod scope;
mod steps;

pub use env::Env;
pub use expression::{eval_in, is_true_in};
pub use members::with_value;
pub use out_of_memory::Memory;
pub use owned::eval;
pub use scope::Scope;
