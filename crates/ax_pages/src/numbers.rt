//! The numbers of the format: its versions and the kinds of parts, which stand here once, for the code and the
//! definitions of all crates; and the limits of a store, once for the code of the crates above. Definitions have these
//! in their own words.

/// The newest version, which is the one that is written. An image of a later one is newer than this program.
pub const NEWEST_VERSION: u16 = 1;

/// The first version in which documents and the meta say versions.
pub const VERSIONS_SINCE: u16 = 2;

/// The first version in which the text of a document goes on in pieces.
pub const PIECES_SINCE: u16 = 3;

/// A meta that says no version.
pub const PLAIN_META: u8 = 1;

/// A policy.
pub const POLICY: u8 = 2;

/// A document that says no version.
pub const PLAIN_DOCUMENT: u8 = 3;

/// What says that a document is gone.
pub const GONE: u8 = 4;

/// A base of a term page.
pub const BASE: u8 = 5;

/// A delta of a term page.
pub const DELTA: u8 = 6;

/// A document that says its version.
pub const DOCUMENT: u8 = 7;

/// A meta that says the next version.
pub const META: u8 = 8;

/// The first part of a long document.
pub const LONG_DOCUMENT: u8 = 9;

/// A piece of a long document's text.
pub const PIECE: u8 = 10;

/// The most documents that a store holds.
pub const MOST_DOCUMENTS: usize = 1_048_576;

/// The greatest next number: no document takes it.
pub const LAST_NUMBER: u32 = 4_294_967_295;

/// The greatest number of a policy that a part gives. The number of the default policy is 0.
pub const LAST_POLICY: u32 = 8;
