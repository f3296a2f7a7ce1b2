/// Whether documents are indexed, the member `indexingMode` of an indexing policy of Azure Cosmos DB
/// for NoSQL.
#[derive(Clone, Copy, Debug, PartialEq, Eq)]
pub enum Mode {
    /// Each write indexes its document.
    Consistent,
    /// No leaf is indexed.
    None,
}
