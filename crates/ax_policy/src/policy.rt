use crate::mode::Mode;
use crate::rules::Rules;
use ax_mean::{Items, Order};

/// A composite of an indexing policy: its paths, each with its direction.
pub type Composite = Items<Order>;

pub(crate) type CompositeList = Items<Composite>;

/// An indexing policy, as in Azure Cosmos DB for NoSQL: which leaves of a document are indexed, and
/// for which orders of two and more paths an index is kept.
#[derive(Debug, Drop)]
pub struct Policy {
    pub(crate) mode: Mode,
    pub(crate) automatic: bool,
    pub(crate) rules: Rules,
    /// In byte order of their canonical texts, without repeats.
    pub(crate) composites: CompositeList,
}
