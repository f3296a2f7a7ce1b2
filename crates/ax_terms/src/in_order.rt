//! Terms in the order of their bytes.
ghost use Rattle.std.specs.Prelude.{◌≡◌, ◌↔◌, ℕ, List, true};
ghost use Rattle.std.specs.List.{Contains};
ghost use Rattle.ax_tree.specs.Rising.{is_rising};

use ax_term::Bytes;

/// Puts the terms in the order of their bytes, each once.
pub(crate) fn put_in_order(terms: &mut Vec<Bytes>)
    ensures rising { is_rising terms.new.items ≡ true }
    ensures same { (bytes : List ℕ) → Contains terms.new.items bytes ↔ Contains terms.old.items bytes }
{
    terms.sort_unstable_by(|a, b| a.as_slice().cmp(b.as_slice()));
    terms.dedup_by(|a, b| a.as_slice() == b.as_slice());
}
