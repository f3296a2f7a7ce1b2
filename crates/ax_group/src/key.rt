ghost use Rattle.std.specs.Prelude.{◌≡◌, IfOk, map, pos, []};
ghost use Rattle.ax_mean.specs.declared.value.Value.TheVariants.{Defined};
ghost use Rattle.ax_group.specs.Keys.{seen_key, seen_keys, value_key};

use crate::out_of_memory::Memory;
use ax_func::Seen;
use ax_mean::{Text, Tree, write_tree};
use std::alloc::Global;

/// What a value compares by: where its kind stands, its number, and its bytes. Comparing two keys
/// takes no memory.
#[derive(Debug, Drop, PartialEq, Eq, PartialOrd, Ord)]
pub struct SortKey {
    pub rank: u8,
    pub number: i64,
    pub bytes: Vec<u8>,
}

/// The keys of a group's values, which compare one after another.
#[derive(Debug, Drop, PartialEq, Eq, PartialOrd, Ord)]
pub struct GroupKey {
    pub keys: Vec<SortKey>,
}

impl GroupKey {
    pub fn of(alloc: Global, values: &[Seen]) -> Result<GroupKey, Memory>
        ensures { IfOk result (λ key. seen_keys key ≡ map value_key values.now) }
    {
        let mut keys = Vec::with_capacity(alloc, values.len())?;
        for value in values {
            keys.push(SortKey::of_value(alloc, value)?)?;
        }
        Ok(GroupKey { keys })
    }
}

impl SortKey {
    fn of_value(alloc: Global, value: &Seen) -> Result<SortKey, Memory>
        ensures { IfOk result (λ key. seen_key key ≡ value_key value.now) }
    {
        match value.tree() {
            None => Ok(SortKey::plain(alloc, 0)),
            Some(tree) => SortKey::of_tree(alloc, tree),
        }
    }

    fn of_tree(alloc: Global, tree: &Tree) -> Result<SortKey, Memory>
        ensures { IfOk result (λ key. seen_key key ≡ value_key (Defined tree.now)) }
    {
        match tree {
            Tree::Null => Ok(SortKey::plain(alloc, 1)),
            Tree::Truth(false) => Ok(SortKey::plain(alloc, 2)),
            Tree::Truth(true) => Ok(SortKey::plain(alloc, 3)),
            Tree::Number(number) => Ok(SortKey {
                rank: 4,
                number: *number,
                bytes: Vec::new(alloc),
            }),
            Tree::Text(text) => Ok(SortKey::written(5, bytes_of(alloc, text)?)),
            Tree::List(_) => Ok(SortKey::written(6, write_tree(alloc, tree)?)),
            Tree::Object(_) => Ok(SortKey::written(7, write_tree(alloc, tree)?)),
        }
    }

    /// The key of a value that its kind tells.
    fn plain(alloc: Global, rank: u8) -> SortKey
        ensures { seen_key result ≡ (rank, pos 0, []) }
    {
        SortKey::written(rank, Vec::new(alloc))
    }

    fn written(rank: u8, bytes: Vec<u8>) -> SortKey
        ensures { seen_key result ≡ (rank, pos 0, bytes.items) }
    {
        SortKey {
            rank,
            number: 0,
            bytes,
        }
    }
}

fn bytes_of(alloc: Global, text: &Text) -> Result<Vec<u8>, Memory>
    ensures { IfOk result (λ bytes. bytes.items ≡ text.now) }
{
    Ok(text.as_str().as_bytes().to_vec(alloc)?)
}
