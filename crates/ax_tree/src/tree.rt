use crate::items::Items;
use crate::members::Members;
use crate::text::Text;

/// A JSON value (RFC 8259) whose numbers are whole.
#[derive(Debug, Drop)]
pub enum Tree {
    Null,
    Truth(bool),
    Number(i64),
    Text(Text),
    List(Items<Tree>),
    Object(Members<Tree>),
}
