ghost use Rattle.std.specs.Prelude.{◌≡◌, false, IfOk};
ghost use Rattle.ax_mean.specs.Answer.{unseen};

use crate::key_bytes::KeyBytes;
use crate::out_of_memory::Memory;
use ax_mean::KeyedRow;
use std::alloc::Global;
use std::collections::BTreeSet;

/// Of the rows that show the same text the first.
pub fn distinct(alloc: Global, rows: Vec<KeyedRow>) -> Result<Vec<KeyedRow>, Memory>
    ensures { IfOk result (λ kept. kept.items ≡ unseen (λ text. false) rows.items) }
{
    let mut seen = BTreeSet::new(alloc);
    let mut kept = Vec::new(alloc);
    for row in rows {
        if seen.insert(KeyBytes::tree(alloc, &row.shown)?)? {
            kept.push(row)?;
        } else {
            drop(row);
        }
    }
    Ok(kept)
}
