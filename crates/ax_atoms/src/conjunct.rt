use ax_mean::{Items, Path};
use ax_term::TermRange;

pub type PathList = Items<Path>;

/// A union of ranges of terms.
pub type RangeList = Items<TermRange>;

/// One of the conditions that WHERE joins by AND.
#[derive(Debug, Drop)]
pub struct Conjunct {
    /// The paths of the leaves on which it rests; none where an index does not answer it.
    pub paths: PathList,
    /// Whether it rests on every leaf at its paths and below them.
    pub whole: bool,
    /// The ranges in one of which each document of which it is true has a term, where its paths are
    /// covered; `None` where an index does not answer it.
    pub ranges: Option<RangeList>,
}
