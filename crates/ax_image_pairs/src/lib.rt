//! What an image of a store stands for where its index counts, too: the documents of a container, and
//! exactly the pairs by which an index finds them. Definitions and laws; no program.
//!
//! Stands on `ax_image`, which has the documents, on `ax_pairs`, which says what set of pairs term pages
//! hold, and on `ax_keep`, which says which pairs a document has. Its one contract: an image stands for one
//! container at most, that of a fresh store for the container of no documents, and the changes of each write,
//! with any that make the changes of the index for it, lead from what holds a container to what holds the
//! container after the write. The pairs of a number are those of its document, and the term of an id is with
//! the number of the document of that id alone.
#![tactic(auto)]

pub mod laws;
