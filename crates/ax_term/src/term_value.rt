use ax_mean::Items;

/// A list of bytes over a vector.
pub type Bytes = Items<u8>;

/// The value of a term.
#[derive(Debug, Drop)]
pub enum TermValue {
    Undefined,
    Null,
    False,
    True,
    Number(i64),
    /// By the bytes of the text. Of these, and of a canonical text, a term keeps 128.
    Text(Bytes),
    /// By the canonical text of the list.
    List(Bytes),
    /// By the canonical text of the map.
    Object(Bytes),
}
