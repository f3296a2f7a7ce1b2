//! The engine: the documents of a container on a disk, and one line at a time over them.
//!
//! Opening finds the store attached, as it is; applying a line makes its step, durable where the disk is
//! honest, and answers with the reply as data; a READ may be answered to a sink, with no copy of its text. The engine
//! knows no source, no text of a status and no command line. Once it has answered a fault it answers the same one to every line, and calls the disk
//! no more, until it is opened again.
//!
//! Stands on `ax_documents`, whose documents are those of an image with its index, on `ax_machine`, whose definitions say what a
//! line's step is, on `ax_store` for the texts on a disk, and on `ax_parse` and `ax_answer_text`
//! for queries. What opening and applying say is in the words of all versions. No text is kept in memory: a scan reads texts
//! ahead, window by window. A text that is none of a document, and a part of the index outside its grammar, are answered as
//! damage, with their place.
#![tactic(auto)]

mod candidates;
mod engine;
mod policy_now;
mod querying;
mod read_into;
mod reading;
mod reply;
mod reply_lines;
mod rows;
mod shown_documents;

pub use engine::{Engine, Fault};
pub use reply::Reply;
pub use reply_lines::{out_of_memory_line, refusal_line, write_document};
pub use rows::Rows;
