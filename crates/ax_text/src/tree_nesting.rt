ghost use Rattle.std.specs.Prelude.{◌≡◌, ◌-◌, ◌^◌, map, min};
ghost use Rattle.ax_tree.specs.Nesting.{nesting as nesting_of, greatest};

use ax_tree::{Items, Members, Tree};

/// How deep a tree nests: a scalar 0, a list or a map one more than the deepest of its children, so
/// that an empty one nests 1; `u32::MAX` where it is more than that. Takes no memory.
#[cycle(nesting)]
#[tactic(auto, using(crate::proofs::Levels::nesting_object))]
pub fn nesting(tree: &Tree) -> u32
    ensures { result ≡ min (nesting_of tree.now) (2 ^ 32 - 1) }
{
    match tree {
        Tree::Null | Tree::Truth(_) | Tree::Number(_) | Tree::Text(_) => 0,
        Tree::List(items) => deepest_item(items).saturating_add(1),
        Tree::Object(members) => deepest_member(members).saturating_add(1),
    }
}

#[cycle(nesting)]
fn deepest_item(items: &Items<Tree>) -> u32
    ensures { result ≡ min (greatest (map nesting_of items.now)) (2 ^ 32 - 1) }
{
    let mut deepest = 0;
    for item in items.as_slice() {
        deepest = nesting(item).max(deepest);
    }
    deepest
}

#[cycle(nesting)]
fn deepest_member(members: &Members<Tree>) -> u32
    ensures { result ≡ min (greatest (map (λ m. nesting_of m.value) members.now)) (2 ^ 32 - 1) }
{
    let mut deepest = 0;
    for member in members.as_slice() {
        deepest = nesting(&member.value).max(deepest);
    }
    deepest
}
