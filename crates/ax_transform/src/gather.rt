//! The next documents that are under another policy, with what moves them.

ghost use Rattle.std.specs.Prelude.{◌≡◌, ◌≢◌, ◌≤◌, ◌+◌, IfOk, IsTrue, true, false};
ghost use Rattle.ax_store.specs.Store.{AgreesUnlessFailed, store_contents};
ghost use Rattle.ax_table.specs.TableAgrees.{TableAgrees};
ghost use Rattle.ax_transform.specs.Gathering.{AddsNext, GathersEnough, start_of};
ghost use Rattle.ax_transform.specs.Steps.{Fetches};
ghost use Rattle.ax_write.specs.Writes.{Looks};

use crate::moves::Moves;
use crate::next::next_behind;
use ax_base::Steps;
use ax_cache::PageCache;
use ax_disk::Disk;
use ax_policy::PolicyTable;
use ax_store::{Store, StoreFault};
use ax_write::fetch_held;
use std::alloc::Global;
use std::sync::ledger::Ledger;

/// The next documents that are under another policy than the one now, as many as asked for, or all where there are fewer. It
/// begins behind those that the table knows to be under it, reads the text of each that it gives, and no other.
///
/// `Damaged` where such a text is that of no document, with the place of its part. `Disk` where a read failed, or the store has
/// failed before. `Memory` where there is no room for the texts or the changes.
pub(crate) fn gather<D: Disk, C: PageCache, L: Ledger>(
    alloc: Global,
    store: &mut Store<C>,
    disk: &mut D,
    table: &PolicyTable,
    count: u32,
    steps: &mut Steps<L>,
) -> Result<Moves, StoreFault>
    requires agrees { AgreesUnlessFailed C.pages (D.is_honest disk.old) store.old (D.history disk.old (D.attached disk.old)) }
    requires table { TableAgrees (D.is_honest disk.old) table.now (store_contents store.old) }
    ensures found { IfOk result (GathersEnough (D.is_honest disk.old) count table.now (store_contents store.old) (start_of table.now)) }
    ensures one_each { steps.new ≤ steps.old + count }
    ensures fetched { Fetches (store_contents store.old) table.now.current (start_of table.now) steps.old steps.new }
    ensures leaves { Looks C.pages (D.is_honest disk.old) result store.old store.new
        (D.history disk.old (D.attached disk.old)) (D.history disk.new (D.attached disk.new))
        (D.faults disk.old) (D.faults disk.new) }
    ensures attached { D.attached disk.new ≡ D.attached disk.old }
    ensures honest { D.is_honest disk.new ≡ D.is_honest disk.old }
{
    let mut moves = Moves::begin(alloc, table.moved().saturating_sub(1));
    let mut left = count;
    while left > 0 {
        match gather_next(alloc, store, disk, table, &mut moves, steps) {
            Ok(true) => left -= 1,
            Ok(false) => return Ok(moves),
            Err(fault) => {
                drop(moves);
                return Err(fault);
            }
        }
    }
    Ok(moves)
}

/// Adds the next document that is under another policy, and answers whether there is one. Where there is none, no document above
/// is.
fn gather_next<D: Disk, C: PageCache, L: Ledger>(
    alloc: Global,
    store: &mut Store<C>,
    disk: &mut D,
    table: &PolicyTable,
    moves: &mut Moves,
    steps: &mut Steps<L>,
) -> Result<bool, StoreFault>
    requires agrees { AgreesUnlessFailed C.pages (D.is_honest disk.old) store.old (D.history disk.old (D.attached disk.old)) }
    requires table { TableAgrees (D.is_honest disk.old) table.now (store_contents store.old) }
    ensures added { IfOk result (λ more. AddsNext (D.is_honest disk.old) table.now (store_contents store.old) more moves.old moves.new) }
    ensures fetched { Fetches (store_contents store.old) table.now.current moves.old.last steps.old steps.new }
    ensures one { steps.new ≤ steps.old + 1 }
    ensures leaves { Looks C.pages (D.is_honest disk.old) result store.old store.new
        (D.history disk.old (D.attached disk.old)) (D.history disk.new (D.attached disk.new))
        (D.faults disk.old) (D.faults disk.new) }
    ensures attached { D.attached disk.new ≡ D.attached disk.old }
    ensures honest { D.is_honest disk.new ≡ D.is_honest disk.old }
{
    let Some(number) = next_behind(store, table.now(), moves.last) else {
        moves.last = u32::MAX;
        return Ok(false);
    };
    match fetch_held(alloc, store, disk, number, steps) {
        Ok(Some(held)) => match moves.add(alloc, table, number, &held) {
            Ok(()) => Ok(true),
            Err(_) => Err(StoreFault::Memory),
        },
        Ok(None) => unreachable!(),
        Err(fault) => Err(fault),
    }
}
