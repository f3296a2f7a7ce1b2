//! The kinds of parts: which number has which, from which version on.

ghost use Rattle.std.specs.Prelude.{◌≡◌, ◌≤◌};
ghost use Rattle.ax_area.specs.Kinds.{kind_in, known_in, row};

use ax_pages::numbers::{
    BASE, DELTA, DOCUMENT, GONE, LONG_DOCUMENT, META, PIECE, PIECES_SINCE, PLAIN_DOCUMENT,
    PLAIN_META, POLICY, VERSIONS_SINCE,
};

/// What a part does.
#[derive(Clone, Copy, Debug, PartialEq, Eq)]
pub enum Kind {
    /// Sets the next number and the policy now.
    PlainMeta,
    /// The same, and the next version.
    Meta,
    /// Gives the policy of a number a text.
    Policy,
    /// Puts the document of a number, whose version is its number.
    PlainDocument,
    /// Puts the document of a number, with its version.
    Document,
    /// The same, where the text goes on in pieces.
    LongDocument,
    /// Goes on with the text of a long document.
    Piece,
    /// The document of a number is gone.
    Gone,
    /// Begins the list of parts of a term page.
    Base,
    /// Adds to it.
    Delta,
}

/// The kind of that number in an area of that version. `None` exactly where the version has none of that number.
pub fn kind_of_number(version: u16, number: u8) -> Option<Kind>
    requires { 1 ≤ version }
    ensures { result ≡ kind_in version number }
{
    match number {
        PLAIN_META => Some(Kind::PlainMeta),
        POLICY => Some(Kind::Policy),
        PLAIN_DOCUMENT => Some(Kind::PlainDocument),
        GONE => Some(Kind::Gone),
        BASE => Some(Kind::Base),
        DELTA => Some(Kind::Delta),
        DOCUMENT => known_from(VERSIONS_SINCE, version, Kind::Document),
        META => known_from(VERSIONS_SINCE, version, Kind::Meta),
        LONG_DOCUMENT => known_from(PIECES_SINCE, version, Kind::LongDocument),
        PIECE => known_from(PIECES_SINCE, version, Kind::Piece),
        _ => None,
    }
}

/// The kind, where the version is none before the first that has it.
fn known_from(since: u16, version: u16, kind: Kind) -> Option<Kind>
    ensures { result ≡ known_in version (row 0 since kind) }
{
    if since <= version { Some(kind) } else { None }
}
