ghost use Rattle.std.specs.Prelude.{◌≡◌, List, length, nat_le, Some, IfOk, codes};
ghost use Rattle.std.specs.Option.{option_copied};
ghost use Rattle.ax_tree.specs.CanonicalText.{canonical_text};
ghost use Rattle.ax_tree.specs.Document.{text_member};
ghost use Rattle.ax_tree.specs.declared.members.Member.{Member as MemberOf};
ghost use Rattle.ax_tree.specs.declared.tree.Tree.{Tree as TreeOf};
ghost use Rattle.ax_lines.specs.Bodies as spec;

use crate::body::Body;
use crate::parameters::{parameters_from, take_member};
use ax_tree::{Members, Memory, Text, Tree, write_tree};
use std::alloc::Global;

/// The most bytes that the canonical text of a body's parameters has.
const MOST_PARAMS_BYTES: usize = 32_768;

/// The body that the tree is; `None` exactly where it is none: no map with a text member `query`,
/// or with a member `parameters` that is no list of parameters, or with parameters that are too
/// large.
pub(crate) fn body_from(alloc: Global, tree: Tree) -> Result<Option<Body>, Memory>
    ensures { IfOk result (λ body. body ≡ spec.body_of tree) }
{
    let Some(text) = query_text(&tree) else {
        return Ok(None);
    };
    let text = text.copy(alloc)?;
    match params_from(alloc, take_member(tree, "parameters"))? {
        Some(params) => Ok(Some(Body { text, params })),
        None => Ok(None),
    }
}

fn query_text(tree: &Tree) -> Option<&Text>
    ensures { option_copied result ≡ text_member (codes "query") tree.now }
{
    tree.member("query")?.as_text()
}

/// The map of the parameters of a body that has this member for them.
fn params_from(alloc: Global, given: Option<Tree>) -> Result<Option<Members<Tree>>, Memory>
    ensures { IfOk result (λ params. params ≡ spec.params_of given) }
{
    let params = match given {
        None => return Ok(Some(Members::new(alloc))),
        Some(Tree::List(items)) => parameters_from(alloc, items)?,
        Some(_) => return Ok(None),
    };
    match params {
        Some(params) => if_small(alloc, params),
        None => Ok(None),
    }
}

/// The parameters, unless they are too large.
fn if_small(alloc: Global, params: Members<Tree>) -> Result<Option<Members<Tree>>, Memory>
    ensures { IfOk result (λ small. small ≡ spec.if_small params) }
{
    let tree = Tree::Object(params);
    if is_small(alloc, &tree)? {
        Ok(members_of(tree))
    } else {
        Ok(None)
    }
}

fn is_small(alloc: Global, params: &Tree) -> Result<bool, Memory>
    ensures { IfOk result
        (λ small. small ≡ nat_le (length (canonical_text params.now)) spec.most_params_bytes) }
{
    let text = write_tree(alloc, params)?;
    Ok(text.len() <= MOST_PARAMS_BYTES)
}

/// The members of a map.
fn members_of(tree: Tree) -> Option<Members<Tree>>
    ensures { (members : List (MemberOf TreeOf)) → tree ≡ Tree.Object members
        → result ≡ Some members }
{
    match tree {
        Tree::Object(members) => Some(members),
        _ => None,
    }
}
