//! Names that JSON writes without an escape.
ghost use Rattle.std.specs.Prelude.{◌≡◌, map};
ghost use Rattle.ax_excerpt.specs.Plain.{is_plain as plain_text, are_plain, plain_parts, plain_flag};

use crate::excerpt::Excerpt;
use ax_mean::Members;

/// Whether all names of the excerpt are plain, as `read_excerpt` asks.
#[cycle(plain)]
pub fn has_plain_names(excerpt: &Excerpt) -> bool
    ensures { result ≡ are_plain excerpt.now }
{
    match excerpt {
        Excerpt::Whole => true,
        Excerpt::Part(parts) => have_plain_names(parts),
    }
}

#[cycle(plain)]
fn have_plain_names(parts: &Members<Excerpt>) -> bool
    ensures { result ≡ plain_parts (map plain_flag parts.now) }
{
    for part in parts.as_slice() {
        if !is_plain(part.name.as_str().as_bytes()) {
            return false;
        }
        if !has_plain_names(&part.value) {
            return false;
        }
    }
    true
}

/// Whether JSON writes a name without an escape.
pub(crate) fn is_plain(text: &[u8]) -> bool
    ensures { result ≡ plain_text text.now }
{
    text.iter()
        .all(|byte| *byte >= b' ' && *byte != b'"' && *byte != b'\\')
}
