//! Whether an excerpt keeps all.
ghost use Rattle.std.specs.Prelude.{◌≡◌, []};
ghost use Rattle.ax_excerpt.specs.Excerpts.{keeps as kept};

use crate::excerpt::Excerpt;

/// Whether all of a tree is left.
pub(crate) fn is_whole(excerpt: &Excerpt) -> bool
    ensures { result ≡ kept excerpt.now [] }
{
    match excerpt {
        Excerpt::Whole => true,
        Excerpt::Part(_) => false,
    }
}
