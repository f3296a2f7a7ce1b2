//! The lines of a script: where its bytes are split, what each line asks for, and why a line is
//! refused that asks for nothing.
//!
//! Stands on `ax_text`, which reads the JSON in a line, on `ax_tree`, on `ax_storable`, which tells which
//! documents a store can hold, and on `ax_lex`, which knows what a word is. Its one contract:
//! `read_line` answers exactly what the line is, or its refusal, out of memory aside; and a line that
//! has no tree is refused whatever memory there is.
#![tactic(auto)]

mod body;
mod document_form;
pub mod laws;
mod line;
mod parameters;
mod read;
mod read_body;
mod refusal;
mod script_lines;

pub use body::Body;
pub use document_form::DocumentForm;
pub use line::{Line, LineFault};
pub use read::read_line;
pub use refusal::Refusal;
pub use script_lines::first_line;
