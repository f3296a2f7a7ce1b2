//! The name of the member at the front, compared with one that is looked for.
ghost use Rattle.std.specs.Prelude.{◌≡◌, ◌∷◌, []};
ghost use Rattle.ax_excerpt_text.specs.Fronts.{front_of, compared as compares, side_of as sides, ended_by};
ghost use Rattle.ax_skim.specs.Members.{past_prefix};

use ax_skim::after_prefix;

/// How the name at the front stands to another.
#[derive(Clone, Copy)]
pub(crate) enum Compared<'a> {
    /// They are equal, and this follows the colon.
    Same(&'a [u8]),
    /// It comes before the other, or has an escape.
    Before,
    /// It comes behind the other, or there is none.
    Past,
}

#[inline(always)]
pub(crate) fn compare<'a>(members: &'a [u8], name: &[u8]) -> Compared<'a>
    ensures { front_of result ≡ compares name.now members.now }
{
    let Some(inside) = after_prefix(members, b"\"") else {
        return Compared::Past;
    };
    let mut rest = inside;
    let mut left = name;
    while let Some((&wanted, more)) = left.split_first() {
        let Some((&byte, after)) = rest.split_first() else {
            return Compared::Past;
        };
        if byte != wanted {
            return side_of(wanted, byte);
        }
        rest = after;
        left = more;
    }
    ended(rest)
}

/// Where the name ends, or goes on.
#[inline(always)]
fn ended(rest: &[u8]) -> Compared<'_>
    ensures { front_of result ≡ ended_by (past_prefix (34 ∷ 58 ∷ []) rest.now) }
{
    match after_prefix(rest, b"\":") {
        Some(value) => Compared::Same(value),
        None => Compared::Past,
    }
}

/// By the first byte that differs.
#[inline(always)]
fn side_of<'a>(wanted: u8, byte: u8) -> Compared<'a>
    ensures { front_of result ≡ sides wanted byte }
{
    if byte == b'"' || byte == b'\\' || byte < wanted {
        Compared::Before
    } else {
        Compared::Past
    }
}
