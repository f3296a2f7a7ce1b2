//! Whether a name stands twice, where there may be many.
ghost use Rattle.std.specs.Prelude.{◌≡◌};
ghost use Rattle.ax_grammar.specs.Scope.{are_distinct as distinct};
ghost use Rattle.ax_scope.specs.Neighbours.{neighbours_differ as differ};

use crate::written::NameList;
use ax_mean::Text;

/// Whether no name stands twice: once the names are in order, equal ones stand side by side.
pub(crate) fn are_all_distinct(names: NameList) -> bool
    ensures { result ≡ distinct names }
{
    let mut names = names.into_vec();
    names.sort_unstable_by(|a, b| a.as_str().cmp(b.as_str()));
    neighbours_differ(&names)
}

/// Whether no name is the same as the one before it.
fn neighbours_differ(names: &[Text]) -> bool
    ensures { result ≡ differ names.now }
{
    let Some((first, rest)) = names.split_first() else {
        return true;
    };
    let mut last = first;
    for name in rest {
        if name.as_str() == last.as_str() {
            return false;
        }
        last = name;
    }
    true
}
