//! What a line is answered, as data.

use crate::rows::Rows;
use ax_lines::Refusal;

/// What a line is answered.
#[derive(Drop)]
pub enum Reply {
    /// The write was made.
    Ok,
    /// The canonical text of a document.
    Doc(Vec<u8>),
    /// The rows of a query's answer, which is whole.
    Rows(Rows),
    /// The line was refused, and nothing has changed: by its first cause of refusal, or because memory
    /// ran out.
    Refused(Refusal),
}
