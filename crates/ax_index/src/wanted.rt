//! Which pairs of a page are wanted.

ghost use Rattle.std.specs.Prelude.{◌≡◌};
ghost use Rattle.ax_index.specs.Wanted.{is_wanted};

use crate::ranges::is_within_some;
use ax_term::TermRange;

/// The terms whose pairs are wanted.
#[derive(Clone, Copy)]
pub(crate) enum Wanted<'a> {
    All,
    /// Those in one of the ranges.
    In(&'a [TermRange]),
}

impl<'a> Wanted<'a> {
    /// Whether a term is one of them.
    pub(crate) fn has(&self, term: &[u8]) -> bool
        ensures { result ≡ is_wanted self.now term.now }
    {
        match self {
            Wanted::All => true,
            Wanted::In(ranges) => is_within_some(ranges, term),
        }
    }
}
