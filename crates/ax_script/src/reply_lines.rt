//! The texts of replies: of a write that was made, and of rows. Those that a read has are the engine's.

ghost use Rattle.std.specs.Prelude.{◌≡◌, ◌++◌, IfOk, OnOk};
ghost use Rattle.ax_machine.specs.Reply as reply;
ghost use Rattle.ax_machine.specs.ReplyTexts.{end_text, reply_text};

use ax_engine::Rows;
use ax_tree::Memory;
use std::alloc::Global;

/// The reply to a write that was made. It takes no memory, since the change is on the disk by then.
pub fn ok_line() -> &'static [u8]
    ensures { result.now ≡ reply_text reply.Ok }
{
    b"ok\n"
}

/// The reply to a query with these rows: a line for each, and a last line with their count.
pub fn rows_text(alloc: Global, rows: Rows) -> Result<Vec<u8>, Memory>
    ensures { IfOk result (λ text. text.items ≡ rows.lines.items ++ end_text reply.End rows.count) }
{
    let Rows { mut lines, count } = rows;
    push_end(alloc, &mut lines, count)?;
    Ok(lines)
}

fn push_end(alloc: Global, text: &mut Vec<u8>, count: usize) -> Result<(), Memory>
    ensures { OnOk result (text.new.items ≡ text.old.items ++ end_text reply.End count) }
{
    let line = format!(in alloc; "end {count}\n")?;
    text.extend_from_slice(line.as_bytes())?;
    Ok(())
}
