//! Bytes with a number before them, by which a map or a set finds them.
ghost use Rattle.std.specs.Prelude.{◌≡◌, ◌+◌, ℕ, List, ◌∷◌, Some, IfOk, nat_eq, [], refl, length};
ghost use Rattle.std.specs.Ordering.{nat_cmp};
ghost use Rattle.std.specs.Cmp.{partial_equiv_from_equiv};
ghost use Rattle.std.specs.Cmp.Lexicographic.{slice_cmp, pointwise};
ghost use Rattle.ax_mean.specs.declared.query.Step.TheVariants.{Item, Name};
ghost use Rattle.ax_term.specs.CutValues.{cut_value};
ghost use Rattle.ax_term.specs.TermBytes.{step_bytes, value_bytes};

use ax_mean::{Memory, Step, Text};
use ax_term::{TermValue, append_name, append_step, append_value};
use std::alloc::Global;
use std::cmp::Ordering;
use std::marker::Model;

/// Bytes with a number before them, which contracts see as one list.
#[derive(Debug, Drop)]
pub(crate) struct Numbered {
    number: u64,
    bytes: Vec<u8>,
}

impl Model for Numbered {
    ghost use Rattle.std.specs.Prelude.{List, ℕ, ◌∷◌};
    ghost use Rattle.std.specs.Coded.{coded_list, coded_ℕ};

    ghost Value = { List ℕ };

    ghost coded = { coded_list coded_ℕ };

    ghost view = { λ n. n.number ∷ n.bytes.items };
}

impl Numbered {
    /// The step to any element of a list, behind the number.
    pub(crate) fn item(alloc: Global, number: u64) -> Result<Numbered, Memory>
        ensures { IfOk result (λ key. key ≡ number ∷ step_bytes Item) }
    {
        let mut bytes = Vec::new(alloc);
        append_step(&mut bytes, &Step::Item)?;
        Ok(Numbered { number, bytes })
    }

    /// The step to the member of that name, behind the number.
    pub(crate) fn name(alloc: Global, number: u64, name: &Text) -> Result<Numbered, Memory>
        ensures { IfOk result (λ key. key ≡ number ∷ step_bytes (Name name.now)) }
    {
        let mut bytes = Vec::new(alloc);
        append_name(&mut bytes, name)?;
        Ok(Numbered { number, bytes })
    }

    /// The value, behind the number.
    pub(crate) fn value(alloc: Global, number: u64, value: &TermValue) -> Result<Numbered, Memory>
        ensures { IfOk result (λ key. key ≡ number ∷ value_bytes (cut_value value.now)) }
    {
        let mut bytes = Vec::new(alloc);
        append_value(&mut bytes, value)?;
        Ok(Numbered { number, bytes })
    }

    /// How many bytes stand behind the number.
    pub(crate) fn size(&self) -> usize
        ensures { length self.now ≡ result + 1 }
    {
        self.bytes.len()
    }
}

impl PartialEq for Numbered {
    ghost use Rattle.std.proofs.lemmas.Cmp.{nat_list_eq_equiv};

    ghost eq = { pointwise nat_eq };

    ghost laws = { partial_equiv_from_equiv nat_list_eq_equiv };

    fn eq(&self, other: &Numbered) -> bool {
        self.number == other.number && self.bytes.as_slice() == other.bytes.as_slice()
    }
}

impl Eq for Numbered {
    ghost use Rattle.std.proofs.lemmas.Cmp.{nat_list_eq_equiv};

    ghost laws = { nat_list_eq_equiv };
}

impl PartialOrd for Numbered {
    ghost use Rattle.ax_terms.specs.Bytes.{bytes_po};

    ghost partial_cmp = { λ x y. Some (slice_cmp nat_cmp x y) };

    ghost laws = { bytes_po };

    fn partial_cmp(&self, other: &Numbered) -> Option<Ordering> {
        Some(self.cmp(other))
    }
}

impl Ord for Numbered {
    ghost use Rattle.std.proofs.lemmas.Cmp.{nat_list_cmp_total};
    ghost use Rattle.ax_terms.specs.Bytes.{bytes_tie};

    ghost cmp = { slice_cmp nat_cmp };

    ghost total = { nat_list_cmp_total };

    ghost matches_partial_cmp = { λ x y. refl };

    ghost matches_eq = { bytes_tie };

    fn cmp(&self, other: &Numbered) -> Ordering {
        match self.number.cmp(&other.number) {
            Ordering::Equal => self.bytes.as_slice().cmp(other.bytes.as_slice()),
            order => order,
        }
    }
}
