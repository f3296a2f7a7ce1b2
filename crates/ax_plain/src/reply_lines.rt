ghost use Rattle.std.specs.Prelude.{◌≡◌, ◌++◌, map, IfOk, OnOk};
ghost use Rattle.ax_tree.specs.CanonicalText.{canonical_text};
ghost use Rattle.ax_machine.specs.Reply as reply;
ghost use Rattle.ax_machine.specs.ReplyTexts.{doc_text, reply_text, row_text, end_text, refusal_text};

use crate::out_of_memory::Memory;
use ax_lines::Refusal;
use ax_mean::KeyedRow;
use ax_tree::{Tree, write_tree};
use std::alloc::Global;

/// The reply to a write that was made.
pub fn ok_line(alloc: Global) -> Result<Vec<u8>, Memory>
    ensures { IfOk result (λ text. text.items ≡ reply_text reply.Ok) }
{
    Ok(Vec::from_slice(alloc, b"ok\n")?)
}

/// The reply to a read of a document.
pub fn doc_line(alloc: Global, tree: &Tree) -> Result<Vec<u8>, Memory>
    ensures { IfOk result (λ text. text.items ≡ doc_text (canonical_text tree.now)) }
{
    let document = write_tree(alloc, tree)?;
    let mut text = Vec::new(alloc);
    text.extend_from_slice(b"doc ")?;
    text.extend_from_slice(document.as_slice())?;
    text.extend_from_slice(b"\n")?;
    Ok(text)
}

/// The reply to a query that answers these rows: a line for each, and a last line with their count.
pub fn rows_lines(alloc: Global, rows: &[KeyedRow]) -> Result<Vec<u8>, Memory>
    ensures { IfOk result (λ text. text.items ≡ reply_text
        (reply.Rows (map (λ row. canonical_text row.shown) rows.now) reply.End)) }
{
    let mut text = Vec::new(alloc);
    for row in rows {
        push_row(alloc, &mut text, &row.shown)?;
    }
    push_end(alloc, &mut text, rows.len())?;
    Ok(text)
}

fn push_row(alloc: Global, text: &mut Vec<u8>, tree: &Tree) -> Result<(), Memory>
    ensures { OnOk result (text.new.items ≡ text.old.items ++ row_text (canonical_text tree.now)) }
{
    let row = write_tree(alloc, tree)?;
    text.extend_from_slice(b"row ")?;
    text.extend_from_slice(row.as_slice())?;
    text.extend_from_slice(b"\n")?;
    Ok(())
}

fn push_end(alloc: Global, text: &mut Vec<u8>, count: usize) -> Result<(), Memory>
    ensures { OnOk result (text.new.items ≡ text.old.items ++ end_text reply.End count) }
{
    let line = format!(in alloc; "end {count}\n")?;
    text.extend_from_slice(line.as_bytes())?;
    Ok(())
}

/// The reply to a line that is refused.
pub fn refusal_line(alloc: Global, refusal: Refusal) -> Result<Vec<u8>, Memory>
    ensures { IfOk result (λ text. text.items ≡ refusal_text refusal) }
{
    let number = refusal.number();
    let word = refusal.word();
    let line = format!(in alloc; "err {number} {word}\n")?;
    Ok(line.into_bytes())
}
