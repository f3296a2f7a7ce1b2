//! Documents as the rows of a query: their texts are printed as they are stored.

ghost use Rattle.std.specs.Prelude.{◌≡◌, ◌++◌, map, true, false, IsTrue, IfOk, OnOk};
ghost use Rattle.ax_container.specs.Container.{Container};
ghost use Rattle.ax_excerpt.specs.ShownDocuments.{tree_numbered, without_pick};
ghost use Rattle.ax_image.specs.Documents.{ContentsHold};
ghost use Rattle.ax_machine.specs.Querying.{numbered};
ghost use Rattle.ax_machine.specs.ReplyTexts.{row_text};
ghost use Rattle.ax_store.specs.ReadAhead.{ahead_text};
ghost use Rattle.ax_store.specs.Store.{store_contents};
ghost use Rattle.ax_engine.specs.Replies.{AreRows, lines_of};
ghost use Rattle.ax_engine.specs.Scans.{IsReady, Scans};
ghost use Rattle.ax_tree.specs.CanonicalText.{canonical_text};
ghost use Rattle.ax_tree.specs.declared.tree.Tree as trees;

use crate::reading::read_document;
use crate::rows::Rows;
use ax_cache::PageCache;
use ax_disk::Disk;
use ax_mean::{Expr, KeyedRow, Pick, Query, Shared, Tree, Value};
use ax_store::{ReadAhead, Store, StoreFault};
use ax_tree::Memory;
use std::alloc::Global;

/// The query that gives the keys of the same rows, and shows null for each.
pub(crate) fn keys_of(alloc: Global, query: Query) -> Result<Query, Memory>
    ensures { IfOk result (λ keys. keys ≡ without_pick query) }
{
    let Ok(null) = Shared::new(alloc, Value::Defined(Tree::Null)) else {
        drop(query);
        return Err(Memory);
    };
    let Query {
        distinct,
        pick,
        froms,
        condition,
        groups,
        orders,
        skip,
        limit,
    } = query;
    drop(pick);
    Ok(Query {
        distinct,
        pick: Pick::Value(Expr::Literal(null)),
        froms,
        condition,
        groups,
        orders,
        skip,
        limit,
    })
}

/// The rows of a query whose rows are documents, from the keys of its rows: each has the text of its
/// document.
pub(crate) fn document_rows<D: Disk, C: PageCache>(
    alloc: Global,
    store: &mut Store<C>,
    disk: &mut D,
    ahead: &mut ReadAhead,
    rows: &[KeyedRow],
) -> Result<Rows, StoreFault>
    requires ready { IsReady C.pages (D.is_honest disk.old) store.old ahead.old (D.history disk.old (D.attached disk.old)) }
    ensures rows { IsTrue (D.is_honest disk.old) → (container : Container) → ContentsHold (store_contents store.old) container
        → IfOk result (λ made. AreRows made (map (λ row. canonical_text (tree_numbered row.number (numbered container))) rows.now)) }
    ensures scans { Scans C.pages (D.is_honest disk.old) result store.old store.new ahead.new
        (D.history disk.old (D.attached disk.old)) (D.history disk.new (D.attached disk.new))
        (D.faults disk.old) (D.faults disk.new) }
    ensures attached { D.attached disk.new ≡ D.attached disk.old }
    ensures honest { D.is_honest disk.new ≡ D.is_honest disk.old }
{
    match document_lines(alloc, store, disk, ahead, rows) {
        Ok(lines) => {
            let count = rows.len();
            Ok(Rows { lines, count })
        }
        Err(fault) => Err(fault),
    }
}

/// The lines of these rows.
fn document_lines<D: Disk, C: PageCache>(
    alloc: Global,
    store: &mut Store<C>,
    disk: &mut D,
    ahead: &mut ReadAhead,
    rows: &[KeyedRow],
) -> Result<Vec<u8>, StoreFault>
    requires ready { IsReady C.pages (D.is_honest disk.old) store.old ahead.old (D.history disk.old (D.attached disk.old)) }
    ensures lines { IsTrue (D.is_honest disk.old) → (container : Container) → ContentsHold (store_contents store.old) container
        → IfOk result (λ lines. lines.items ≡ lines_of (map (λ row. canonical_text (tree_numbered row.number (numbered container))) rows.now)) }
    ensures scans { Scans C.pages (D.is_honest disk.old) result store.old store.new ahead.new
        (D.history disk.old (D.attached disk.old)) (D.history disk.new (D.attached disk.new))
        (D.faults disk.old) (D.faults disk.new) }
    ensures attached { D.attached disk.new ≡ D.attached disk.old }
    ensures honest { D.is_honest disk.new ≡ D.is_honest disk.old }
{
    let mut lines = Vec::new(alloc);
    for row in rows {
        match push_document(store, disk, ahead, &mut lines, row.number) {
            Ok(()) => {}
            Err(fault) => return Err(fault),
        }
    }
    Ok(lines)
}

/// The line of a document. A number under which none stands, which no row of an answer has, shows null.
fn push_document<D: Disk, C: PageCache>(
    store: &mut Store<C>,
    disk: &mut D,
    ahead: &mut ReadAhead,
    lines: &mut Vec<u8>,
    number: u32,
) -> Result<(), StoreFault>
    requires ready { IsReady C.pages (D.is_honest disk.old) store.old ahead.old (D.history disk.old (D.attached disk.old)) }
    ensures line { IsTrue (D.is_honest disk.old) → (container : Container) → ContentsHold (store_contents store.old) container
        → OnOk result (lines.new.items
        ≡ lines.old.items ++ row_text (canonical_text (tree_numbered number (numbered container)))) }
    ensures scans { Scans C.pages (D.is_honest disk.old) result store.old store.new ahead.new
        (D.history disk.old (D.attached disk.old)) (D.history disk.new (D.attached disk.new))
        (D.faults disk.old) (D.faults disk.new) }
    ensures attached { D.attached disk.new ≡ D.attached disk.old }
    ensures honest { D.is_honest disk.new ≡ D.is_honest disk.old }
{
    let is_held = match read_document(store, disk, ahead, number) {
        Ok(is_held) => is_held,
        Err(fault) => return Err(fault),
    };
    match push_text(lines, text_or_null(ahead, is_held)) {
        Ok(()) => Ok(()),
        Err(_) => Err(StoreFault::Memory),
    }
}

/// The text that was read, or that of null.
fn text_or_null(ahead: &ReadAhead, is_held: bool) -> &[u8]
    ensures held { is_held ≡ true → result.now ≡ ahead_text ahead.now }
    ensures none { is_held ≡ false → result.now ≡ canonical_text trees.Null }
{
    if is_held { ahead.text() } else { b"null" }
}

/// The line of a row of that text.
fn push_text(lines: &mut Vec<u8>, row: &[u8]) -> Result<(), Memory>
    ensures { OnOk result (lines.new.items ≡ lines.old.items ++ row_text row.now) }
{
    lines.extend_from_slice(b"row ")?;
    lines.extend_from_slice(row)?;
    lines.push(b'\n')?;
    Ok(())
}
