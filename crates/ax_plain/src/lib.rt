//! The plain machine: a small and slow program over a list of whole documents, with which tests
//! compare the real one. A query it answers by a look at every document in turn. It shares no code with
//! that but the reader of lines, the parser of queries, their answer from documents one by one, and
//! the writer of canonical texts.
//!
//! Stands on `ax_machine`, whose step it makes, on `ax_lines`, `ax_parse`, `ax_answer`, `ax_container`
//! and `ax_tree`. Its one contract: `answer` leaves exactly what the step of a line leaves, and answers
//! the text of its reply, or is out of memory and unchanged.
#![tactic(auto)]

mod out_of_memory;
mod plain_document;
mod plain_machine;
mod query_rows;
mod reply_lines;

pub use out_of_memory::Memory;
pub use plain_machine::PlainMachine;
