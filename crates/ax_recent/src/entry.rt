//! One id with its number, as a place of the table holds it.

ghost use Rattle.std.specs.Prelude.{◌≤◌};

/// The most bytes of an id that is kept.
const MOST_BYTES: usize = 30;

/// An id of at most 30 bytes, with its number.
#[derive(Clone, Copy)]
pub(crate) struct Entry {
    // The id, and zeros behind it.
    bytes: [u8; MOST_BYTES],
    // How many bytes the id has.
    len: u8,
    pub(crate) number: u32,
    ghost within: { len ≤ 30 },
}

impl Entry {
    ghost use Rattle.std.specs.Prelude.{◌≡◌, ◌<◌, ◌↔◌, IfSome, IfNone, IsTrue, length};
    ghost use Rattle.ax_recent.specs.Table.{id_of, pair_of};

    /// The entry of an id and its number; `None` exactly where the id has more than 30 bytes.
    pub(crate) fn of(id: &[u8], number: u32) -> Option<Entry>
        ensures entry { IfSome result (λ entry. pair_of entry ≡ (id.now, number)) }
        ensures none { IfNone result (30 < length id.now) }
    {
        if id.len() > MOST_BYTES {
            return None;
        }
        let mut bytes = [0; MOST_BYTES];
        bytes[..id.len()].copy_from_slice(id);
        Some(Entry {
            bytes,
            len: id.len() as u8,
            number,
        })
    }

    pub(crate) fn id(&self) -> &[u8]
        ensures { result.now ≡ id_of self.now }
    {
        &self.bytes[..usize::from(self.len)]
    }

    /// Whether the entry is of just this id.
    pub(crate) fn is_of(&self, id: &[u8]) -> bool
        ensures { IsTrue result ↔ id_of self.now ≡ id.now }
    {
        self.id() == id
    }
}
