//! The pages of a store, and the kinds of parts that change them.

ghost use Rattle.std.specs.Prelude.{◌≡◌};
ghost use Rattle.ax_pages.specs.AfterPart.{kind_of};

use crate::numbers::{BASE, DELTA, GONE, PLAIN_DOCUMENT, PLAIN_META, POLICY};

/// A page of a store: all parts of the meta, of one policy, of one document or of one term page.
#[derive(Clone, Copy, Debug, PartialEq, Eq)]
pub enum Page {
    /// The next number and the number of the policy now.
    Meta,
    /// The policy of a number.
    Policy(u8),
    /// The document of a number.
    Document(u32),
    /// A term page.
    Term(u32),
}

/// What a part does to its page.
#[derive(Clone, Copy, Debug, PartialEq, Eq)]
pub enum Kind {
    /// The meta has this payload from now on.
    Meta,
    /// The policy of the part's key has this payload from now on.
    Policy,
    /// The document of the part's key has this payload from now on.
    Document,
    /// The document of the part's key is gone.
    Gone,
    /// The term page of the part's key has this payload alone from now on.
    Base,
    /// The term page of the part's key has this payload behind its others.
    Delta,
}

/// The kind of a number. `None` exactly for a number of no kind.
pub fn kind_of_number(number: u8) -> Option<Kind>
    ensures { result ≡ kind_of number }
{
    match number {
        PLAIN_META => Some(Kind::Meta),
        POLICY => Some(Kind::Policy),
        PLAIN_DOCUMENT => Some(Kind::Document),
        GONE => Some(Kind::Gone),
        BASE => Some(Kind::Base),
        DELTA => Some(Kind::Delta),
        _ => None,
    }
}
