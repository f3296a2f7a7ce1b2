//! Members of the trees that policies are read from.
ghost use Rattle.std.specs.Prelude.{◌≡◌, [], ◌∷◌, ◌++◌, IfOk, option_map};
ghost use Rattle.std.specs.Option.{option_copied};
ghost use Rattle.ax_tree.specs.Document.{member as member_of, text_member as text_member_of};
ghost use Rattle.ax_policy.specs.Reading.{trees_of, list_value};

use ax_mean::{Text, Tree};

/// The text member of that name, of a map that has one.
pub(crate) fn text_member<'a>(tree: &'a Tree, name: &str) -> Option<&'a Text>
    ensures { option_copied result ≡ text_member_of name.now tree.now }
{
    tree.member(name)?.as_text()
}

/// The items of a list; `None` of a tree that is none.
pub(crate) fn list_in(tree: &Tree) -> Option<&[Tree]>
    ensures { option_map (λ items. items.now) result ≡ list_value tree.now }
{
    match tree {
        Tree::List(items) => Some(items.as_slice()),
        _ => None,
    }
}

/// The items of the list member of that name, which is empty where there is no such member; `None`
/// where it is no list.
pub(crate) fn items_in<'a>(tree: &'a Tree, name: &str) -> Option<&'a [Tree]>
    ensures { option_map (λ items. items.now) result ≡ trees_of (member_of name.now tree.now) }
{
    match tree.member(name) {
        Some(list) => list_in(list),
        None => Some(&[]),
    }
}
