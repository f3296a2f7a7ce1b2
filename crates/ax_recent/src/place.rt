//! A place of the table: empty, or with an entry.

ghost use Rattle.std.specs.Prelude.{◌≡◌, ℕ, ◌<◌, IfSome, IfNone, length, slice_set, Some};
ghost use Rattle.ax_recent.specs.Hash.{place_of};
ghost use Rattle.ax_recent.specs.Table.{Holds, id_of, IsWithout};

use crate::entry::Entry;
use crate::hash::place_of;

/// The number of an id, where a place holds the id.
pub(crate) fn number_in(place: &Option<Entry>, id: &[u8]) -> Option<u32>
    ensures found { IfSome result (Holds place.now id.now) }
    ensures none { IfNone result ((number : ℕ) → Holds place.now id.now number → ⊥) }
{
    match place {
        Some(entry) if entry.is_of(id) => Some(entry.number),
        _ => None,
    }
}

/// What a place holds without an id: the same, or nothing where it is the id.
pub(crate) fn without(place: Option<Entry>, id: &[u8]) -> Option<Entry>
    ensures { IsWithout result place id.now }
{
    place.filter(|entry| !entry.is_of(id))
}

/// Puts an entry at the place of its id.
pub(crate) fn put_entry(places: &mut [Option<Entry>], entry: Entry)
    requires { 0 < length places.old }
    ensures { places.new ≡ slice_set places.old (place_of (id_of entry) (length places.old)) (Some entry) }
{
    let place = place_of(entry.id(), places.len());
    places[place] = Some(entry);
}
