use crate::term_value::Bytes;

/// The terms whose bytes are not before `from`, and before `below`.
#[derive(Debug, Drop)]
pub struct TermRange {
    pub from: Bytes,
    pub below: Bytes,
}
