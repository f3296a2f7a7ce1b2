ghost use Rattle.std.specs.Prelude.{◌≡◌, Some, IfOk, nat_eq, [], refl};
ghost use Rattle.std.specs.Ordering.{nat_cmp};
ghost use Rattle.std.specs.Cmp.{partial_equiv_from_equiv};
ghost use Rattle.std.specs.Cmp.Lexicographic.{slice_cmp, pointwise};
ghost use Rattle.ax_mean.specs.CanonicalText.{canonical_text};

use crate::out_of_memory::Memory;
use ax_mean::{Text, Tree, write_tree};
use std::alloc::Global;
use std::cmp::Ordering;
use std::marker::Model;

/// Bytes that contracts see as a list. They compare byte by byte.
#[derive(Debug, Drop)]
pub struct KeyBytes {
    bytes: Vec<u8>,
}

impl Model for KeyBytes {
    ghost use Rattle.std.specs.Prelude.{List, ℕ};
    ghost use Rattle.std.specs.Coded.{coded_list, coded_ℕ};

    ghost Value = { List ℕ };

    ghost coded = { coded_list coded_ℕ };

    ghost view = { λ w. w.bytes.items };
}

impl KeyBytes {
    pub fn nothing(alloc: Global) -> KeyBytes
        ensures { result ≡ [] }
    {
        KeyBytes {
            bytes: Vec::new(alloc),
        }
    }

    /// The bytes of a text.
    pub fn text(alloc: Global, text: &Text) -> Result<KeyBytes, Memory>
        ensures { IfOk result (λ written. written ≡ text.now) }
    {
        Ok(KeyBytes {
            bytes: text.as_str().as_bytes().to_vec(alloc)?,
        })
    }

    /// The canonical text of a tree.
    pub fn tree(alloc: Global, tree: &Tree) -> Result<KeyBytes, Memory>
        ensures { IfOk result (λ written. written ≡ canonical_text tree.now) }
    {
        Ok(KeyBytes {
            bytes: write_tree(alloc, tree)?,
        })
    }
}

impl PartialEq for KeyBytes {
    ghost use Rattle.std.proofs.lemmas.Cmp.{nat_list_eq_equiv};

    ghost eq = { pointwise nat_eq };

    ghost laws = { partial_equiv_from_equiv nat_list_eq_equiv };

    fn eq(&self, other: &KeyBytes) -> bool {
        self.bytes.as_slice() == other.bytes.as_slice()
    }
}

impl Eq for KeyBytes {
    ghost use Rattle.std.proofs.lemmas.Cmp.{nat_list_eq_equiv};

    ghost laws = { nat_list_eq_equiv };
}

impl PartialOrd for KeyBytes {
    ghost use Rattle.ax_rows.specs.ByteOrder.{bytes_po};

    ghost partial_cmp = { λ x y. Some (slice_cmp nat_cmp x y) };

    ghost laws = { bytes_po };

    fn partial_cmp(&self, other: &KeyBytes) -> Option<Ordering> {
        Some(self.cmp(other))
    }
}

impl Ord for KeyBytes {
    ghost use Rattle.std.proofs.lemmas.Cmp.{nat_list_cmp_total};
    ghost use Rattle.ax_rows.specs.ByteOrder.{bytes_tie};

    ghost cmp = { slice_cmp nat_cmp };

    ghost total = { nat_list_cmp_total };

    ghost matches_partial_cmp = { λ x y. refl };

    ghost matches_eq = { bytes_tie };

    fn cmp(&self, other: &KeyBytes) -> Ordering {
        self.bytes.as_slice().cmp(other.bytes.as_slice())
    }
}
