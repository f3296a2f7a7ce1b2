ghost use Rattle.std.specs.Prelude.{◌≡◌, map};
ghost use Rattle.ax_mean.specs.Sameness.{is_same, member_test, all_pass, all_members_pass};

use ax_mean::{Items, Members, Tree};

/// Whether the two trees are the same, found without writing either.
#[cycle(same)]
pub fn same(a: &Tree, b: &Tree) -> bool
    ensures { result ≡ is_same a.now b.now }
{
    match a {
        Tree::Null => matches!(b, Tree::Null),
        Tree::Truth(a) => matches!(b, Tree::Truth(b) if a == b),
        Tree::Number(a) => matches!(b, Tree::Number(b) if a == b),
        Tree::Text(a) => matches!(b, Tree::Text(b) if a.as_str() == b.as_str()),
        Tree::List(a) => match b {
            Tree::List(b) => same_items(a, b),
            _ => false,
        },
        Tree::Object(a) => match b {
            Tree::Object(b) => same_members(a, b),
            _ => false,
        },
    }
}

#[cycle(same)]
fn same_items(a: &Items<Tree>, b: &Items<Tree>) -> bool
    ensures { result ≡ all_pass (map is_same a.now) b.now }
{
    let left = a.as_slice();
    let right = b.as_slice();
    if left.len() != right.len() {
        return false;
    }
    for at in 0..left.len() {
        if !same(&left[at], &right[at]) {
            return false;
        }
    }
    true
}

#[cycle(same)]
fn same_members(a: &Members<Tree>, b: &Members<Tree>) -> bool
    ensures { result ≡ all_members_pass (map member_test a.now) b.now }
{
    let left = a.as_slice();
    let right = b.as_slice();
    if left.len() != right.len() {
        return false;
    }
    for at in 0..left.len() {
        let (one, other) = (&left[at], &right[at]);
        if one.name.as_str() != other.name.as_str() {
            return false;
        }
        if !same(&one.value, &other.value) {
            return false;
        }
    }
    true
}
