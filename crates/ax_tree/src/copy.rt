ghost use Rattle.std.specs.Prelude.{◌≡◌, IfOk};

use crate::items::Items;
use crate::members::{Member, Members};
use crate::out_of_memory::Memory;
use crate::tree::Tree;
use std::alloc::Global;

impl Tree {
    /// An equal tree.
    #[cycle(copy)]
    pub fn copy(&self, alloc: Global) -> Result<Tree, Memory>
        ensures { IfOk result (λ tree. tree ≡ self.now) }
    {
        match self {
            Tree::Null => Ok(Tree::Null),
            Tree::Truth(value) => Ok(Tree::Truth(*value)),
            Tree::Number(value) => Ok(Tree::Number(*value)),
            Tree::Text(text) => Ok(Tree::Text(text.copy(alloc)?)),
            Tree::List(items) => Ok(Tree::List(copy_of_items(alloc, items)?)),
            Tree::Object(members) => Ok(Tree::Object(copy_of_members(alloc, members)?)),
        }
    }
}

#[cycle(copy)]
fn copy_of_items(alloc: Global, items: &Items<Tree>) -> Result<Items<Tree>, Memory>
    ensures { IfOk result (λ copied. copied ≡ items.now) }
{
    let items = items.as_slice();
    let mut copied = Vec::with_capacity(alloc, items.len())?;
    for item in items {
        copied.push(item.copy(alloc)?)?;
    }
    Ok(Items::from_vec(copied))
}

#[cycle(copy)]
fn copy_of_members(alloc: Global, members: &Members<Tree>) -> Result<Members<Tree>, Memory>
    ensures { IfOk result (λ copied. copied ≡ members.now) }
{
    let members = members.as_slice();
    let mut copied = Vec::with_capacity(alloc, members.len())?;
    for member in members {
        let name = member.name.copy(alloc)?;
        let value = member.value.copy(alloc)?;
        copied.push(Member { name, value })?;
    }
    Ok(Members::from_vec(copied))
}
