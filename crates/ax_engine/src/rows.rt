//! The rows of an answer, as the lines of a reply.

ghost use Rattle.std.specs.Prelude.{◌≡◌, ◌++◌, map, IfOk, OnOk};
ghost use Rattle.ax_tree.specs.CanonicalText.{canonical_text};
ghost use Rattle.ax_machine.specs.ReplyTexts.{row_text};
ghost use Rattle.ax_engine.specs.Replies.{AreRows, lines_of};

use ax_mean::KeyedRow;
use ax_tree::{Memory, Tree, append_tree};
use std::alloc::Global;

/// The rows of an answer. Each is written once, straight into the line that a reply has for it, so that
/// no text of a row is copied on its way out.
#[derive(Drop)]
pub struct Rows {
    /// The lines of the rows, one behind another: `row`, a space, the canonical text, a newline.
    pub lines: Vec<u8>,
    /// How many rows there are.
    pub count: usize,
}

/// The rows that are shown.
pub(crate) fn rows_shown(alloc: Global, rows: &[KeyedRow]) -> Result<Rows, Memory>
    ensures { IfOk result (λ made. AreRows made (map (λ row. canonical_text row.shown) rows.now)) }
{
    let lines = lines_shown(alloc, rows)?;
    let count = rows.len();
    Ok(Rows { lines, count })
}

/// The lines of rows.
fn lines_shown(alloc: Global, rows: &[KeyedRow]) -> Result<Vec<u8>, Memory>
    ensures { IfOk result (λ lines. lines.items
        ≡ lines_of (map (λ row. canonical_text row.shown) rows.now)) }
{
    let mut lines = Vec::new(alloc);
    for row in rows {
        push_row(&mut lines, &row.shown)?;
    }
    Ok(lines)
}

fn push_row(lines: &mut Vec<u8>, row: &Tree) -> Result<(), Memory>
    ensures { OnOk result (lines.new.items ≡ lines.old.items ++ row_text (canonical_text row.now)) }
{
    lines.extend_from_slice(b"row ")?;
    append_tree(lines, row)?;
    lines.push(b'\n')?;
    Ok(())
}
