use ax_atoms::RangeList;
use ax_mean::Items;

pub type UnionList = Items<RangeList>;

/// Where the documents come from among which the unions of a plan choose.
#[derive(Debug, Clone, Copy, PartialEq, Eq)]
pub enum Source {
    /// All documents of the store, in the order of their numbers.
    All,
}

/// How a query is answered.
#[derive(Debug, Drop)]
pub struct Plan {
    /// For each condition of the query that is answered from the index, in the order of the text, the ranges in one
    /// of which each document of which it is true has a term; for several on one property that are combined (`plan` says
    /// which) the ranges of the terms that are in those of all, at the place of the last. A document without a term in one
    /// of the unions has no rows in the query; with one in each it may have some.
    pub unions: UnionList,
    pub source: Source,
}
