ghost use Rattle.std.specs.Prelude.{◌≡◌, ◌&&◌};
ghost use Rattle.std.specs.List.{list_all};
ghost use Rattle.ax_storable.specs.ShortNames.{is_short_name as is_short};
ghost use Rattle.ax_storable.specs.ShortNames.{has_short_names as has_short};

use ax_tree::{Items, Members, Text, Tree};

/// The most bytes that the name of a member has.
const MOST_NAME_BYTES: usize = 255;

/// Whether each member name in the tree, at any depth, has at most 255 bytes. Takes no memory.
#[cycle(names)]
#[tactic(auto, using(crate::proofs::Short::short_list, crate::proofs::Short::short_object))]
pub(crate) fn has_short_names(tree: &Tree) -> bool
    ensures { result ≡ has_short tree.now }
{
    match tree {
        Tree::Null | Tree::Truth(_) | Tree::Number(_) | Tree::Text(_) => true,
        Tree::List(items) => items_have_short_names(items),
        Tree::Object(members) => members_have_short_names(members),
    }
}

#[cycle(names)]
fn items_have_short_names(items: &Items<Tree>) -> bool
    ensures { result ≡ list_all has_short items.now }
{
    for item in items.as_slice() {
        if !has_short_names(item) {
            return false;
        }
    }
    true
}

#[cycle(names)]
fn members_have_short_names(members: &Members<Tree>) -> bool
    ensures { result ≡ list_all (λ m. is_short m.name && has_short m.value) members.now }
{
    for member in members.as_slice() {
        if !is_short_name(&member.name) || !has_short_names(&member.value) {
            return false;
        }
    }
    true
}

fn is_short_name(name: &Text) -> bool
    ensures { result ≡ is_short name.now }
{
    name.as_str().len() <= MOST_NAME_BYTES
}
