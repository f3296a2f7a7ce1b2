ghost use Rattle.std.specs.Prelude.{◌≡◌, IfOk, pos, []};
ghost use Rattle.std.specs.Option.{option_copied};
ghost use Rattle.ax_mean.specs.declared.value.Value.TheVariants.{Defined};
ghost use Rattle.ax_rows.specs.SortKeys.{sort_key, directed_key, value_or_undefined};

use crate::key_bytes::KeyBytes;
use crate::out_of_memory::Memory;
use ax_mean::{Tree, Value};
use std::alloc::Global;
use std::cmp::Reverse;

/// What a value compares by: where its kind stands, its number, and its bytes. Comparing two keys
/// takes no memory.
#[derive(Debug, Drop, PartialEq, Eq, PartialOrd, Ord)]
pub struct SortKey {
    pub rank: u8,
    pub number: i64,
    pub bytes: KeyBytes,
}

/// A key that rises, or one that falls, where DESC is written.
#[derive(Debug, Drop, PartialEq, Eq, PartialOrd, Ord)]
pub enum Directed {
    Up(SortKey),
    Down(Reverse<SortKey>),
}

impl Directed {
    /// The key of a value; one that is missing counts as undefined.
    pub fn new(alloc: Global, down: bool, value: Option<&Value>) -> Result<Directed, Memory>
        ensures { IfOk result (λ key.
            key ≡ directed_key down (value_or_undefined (option_copied value.entry))) }
    {
        let key = match value {
            None => SortKey::plain(alloc, 0),
            Some(value) => SortKey::of_value(alloc, value)?,
        };
        if down {
            Ok(Directed::Down(Reverse(key)))
        } else {
            Ok(Directed::Up(key))
        }
    }
}

impl SortKey {
    fn of_value(alloc: Global, value: &Value) -> Result<SortKey, Memory>
        ensures { IfOk result (λ key. key ≡ sort_key value.now) }
    {
        match value {
            Value::Undefined => Ok(SortKey::plain(alloc, 0)),
            Value::Defined(tree) => SortKey::of_tree(alloc, tree),
        }
    }

    fn of_tree(alloc: Global, tree: &Tree) -> Result<SortKey, Memory>
        ensures { IfOk result (λ key. key ≡ sort_key (Defined tree.now)) }
    {
        match tree {
            Tree::Null => Ok(SortKey::plain(alloc, 1)),
            Tree::Truth(false) => Ok(SortKey::plain(alloc, 2)),
            Tree::Truth(true) => Ok(SortKey::plain(alloc, 3)),
            Tree::Number(number) => Ok(SortKey {
                rank: 4,
                number: *number,
                bytes: KeyBytes::nothing(alloc),
            }),
            Tree::Text(text) => Ok(SortKey::written(5, KeyBytes::text(alloc, text)?)),
            Tree::List(_) => Ok(SortKey::written(6, KeyBytes::tree(alloc, tree)?)),
            Tree::Object(_) => Ok(SortKey::written(7, KeyBytes::tree(alloc, tree)?)),
        }
    }

    /// The key of a value that its kind tells.
    fn plain(alloc: Global, rank: u8) -> SortKey
        ensures { result ≡ record { rank = rank; number = pos 0; bytes = [] } }
    {
        SortKey {
            rank,
            number: 0,
            bytes: KeyBytes::nothing(alloc),
        }
    }

    fn written(rank: u8, bytes: KeyBytes) -> SortKey
        ensures { result ≡ record { rank = rank; number = pos 0; bytes = bytes } }
    {
        SortKey {
            rank,
            number: 0,
            bytes,
        }
    }
}
