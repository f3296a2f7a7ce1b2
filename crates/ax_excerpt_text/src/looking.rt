//! The member of a name among members whose names rise.
ghost use Rattle.std.specs.Prelude.{◌≡◌, ◌++◌, ℕ, List, Some, option_map};
ghost use Rattle.ax_tree.specs.declared.members.Member.{Member};
ghost use Rattle.ax_tree.specs.declared.tree.Tree.{Tree};
ghost use Rattle.ax_tree.specs.CanonicalText.{canonical_text};
ghost use Rattle.ax_tree.specs.Document.{value_of};
ghost use Rattle.ax_tree.specs.Names.{HaveRisingNames};
ghost use Rattle.ax_skim.specs.Members.{IsPlain, members_text};
ghost use Rattle.ax_skim.specs.Skipping.{past_value};
ghost use Rattle.ax_excerpt_text.specs.Left.{AreReadable, IsBehind, behind_comma};

use crate::comparing::{Compared, compare};
use ax_skim::{after_member, split_value};

/// What a name was found to have among members, and where the next one is looked for.
#[derive(Clone, Copy)]
pub(crate) struct Looked<'a> {
    /// The text of the value; none where no member has the name.
    pub(crate) value: Option<&'a [u8]>,
    /// The text of members among which each name behind it stands.
    pub(crate) rest: &'a [u8],
}

/// Looks for a name, from behind the opening bracket of a map on.
pub(crate) fn look<'a>(members: &'a [u8], name: &[u8]) -> Looked<'a>
    requires plain { IsPlain name.now }
    ensures { (those : List (Member Tree)) → members.now ≡ members_text those
        → HaveRisingNames those → AreReadable those
        → (option_map (λ value. value.now) result.value
        ≡ option_map canonical_text (value_of name.now those))
        × IsBehind name.now result.rest.now those }
{
    let mut rest = members;
    loop {
        match compare(rest, name) {
            Compared::Same(value) => return found(value),
            Compared::Past => return Looked { value: None, rest },
            Compared::Before => {
                let Some(next) = after_member(rest) else {
                    return Looked { value: None, rest };
                };
                rest = next;
            }
        }
    }
}

/// The value at the front, and what follows it and its comma.
fn found(text: &[u8]) -> Looked<'_>
    ensures { (value after : List ℕ) → text.now ≡ value ++ after
        → past_value text.now ≡ Some after
        → (option_map (λ value. value.now) result.value ≡ Some value)
        × (result.rest.now ≡ behind_comma after) }
{
    match split_value(text) {
        Some((value, after)) => Looked {
            value: Some(value),
            rest: without_comma(after),
        },
        None => Looked {
            value: None,
            rest: text,
        },
    }
}

fn without_comma(text: &[u8]) -> &[u8]
    ensures { result.now ≡ behind_comma text.now }
{
    match text.split_first() {
        Some((&byte, after)) if byte == b',' => after,
        _ => text,
    }
}
