//! What a page token says.

use ax_tree::Items;

/// A list of bytes over a vector.
pub type Bytes = Items<u8>;

/// The place of a row: the positions that its iterating sources chose, from 0, in the order of the
/// sources.
pub type PlaceList = Items<u32>;

/// Order values, in the order of ORDER BY: the canonical text of each, and `None` for undefined.
pub type ValueTexts = Items<Option<Bytes>>;

/// Where a page of an answer begins, with the query that it is a page of.
#[derive(Debug, Drop)]
pub struct PageToken {
    /// The text of the query.
    pub text: Bytes,
    /// The canonical text of the map from the names of its parameters to their values.
    pub params: Bytes,
    /// What is left of OFFSET: how many rows behind the key are passed over.
    pub skip: u32,
    /// What is left of LIMIT: how many rows may still be given; `None` where the query has no limit.
    pub left: Option<u32>,
    pub key: TokenKey,
}

/// What the page lies behind.
#[derive(Debug, Drop)]
pub enum TokenKey {
    /// The row at a place of a document, of a query without ORDER BY.
    Place {
        number: u32,
        place: PlaceList,
    },
    /// The row at a place of a document, with its order values.
    Ordered {
        values: ValueTexts,
        number: u32,
        place: PlaceList,
    },
    /// So many rows, of a query with DISTINCT or groups.
    Count(u64),
}
