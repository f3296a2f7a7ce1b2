//! The first source of a query.
ghost use Rattle.std.specs.Prelude.{◌≡◌};
ghost use Rattle.ax_excerpt.specs.Enough.{is_document as whole_document};

use ax_mean::FromItem;

/// Whether the source binds the document itself.
pub(crate) fn is_document(first: &FromItem) -> bool
    ensures { result ≡ whole_document first.now.each first.now.steps }
{
    !first.each && first.steps.as_slice().is_empty()
}
