//! Which texts lie together in the area. It decides how many of them one read takes, and no more.

ghost use Rattle.std.specs.Prelude.{◌≡◌, ◌≤◌, IfSome, max};

use crate::kept_part::KeptPart;
use crate::row::Row;
use crate::slot_reads::text_place;

/// The most bytes that are read at once.
pub(crate) const WINDOW_BYTES: u64 = 262_144;

/// The most bytes between two texts that are read with them: to read more would cost more than another read.
const GAP_BYTES: u64 = 8192;

/// A stretch of the area that begins where a text begins. No two texts in it that follow one another are far apart.
#[derive(Clone, Copy)]
pub(crate) struct Stretch {
    from: u64,
    pub(crate) len: u64,
}

impl Stretch {
    /// The stretch of one text.
    pub(crate) fn of_text(from: u64, len: usize) -> Stretch
        ensures { result.len ≡ len }
    {
        Stretch {
            from,
            len: len as u64,
        }
    }

    /// The stretch up to the end of one more text. `None` where that text begins before the stretch or far behind it, and
    /// where the stretch would be longer than a window.
    pub(crate) fn with_text(&self, from: u64, len: usize) -> Option<Stretch>
        ensures most { IfSome result (λ stretch. stretch.len ≤ WINDOW_BYTES) }
        ensures least { IfSome result (λ stretch. self.now.len ≤ stretch.len) }
    {
        let start = from.checked_sub(self.from)?;
        let end = start.saturating_add(len as u64).max(self.len);
        if end > WINDOW_BYTES || start.saturating_sub(self.len) > GAP_BYTES {
            return None;
        }
        Some(Stretch {
            from: self.from,
            len: end,
        })
    }
}

/// How many bytes a stretch has with the texts of rows, up to the first that does not lie together
/// with it. Rows whose part is gone are passed over.
pub(crate) fn together(rows: &[Row], text: Stretch) -> u64
    ensures most { result ≤ max text.len WINDOW_BYTES }
    ensures least { text.len ≤ result }
{
    let mut stretch = text;
    for row in rows {
        let Some(part) = &row.part else {
            continue;
        };
        let (from, len) = text_place(part);
        let Some(more) = stretch.with_text(from, len) else {
            return stretch.len;
        };
        stretch = more;
    }
    stretch.len
}
