//! A policy is made the one now.

ghost use Rattle.std.specs.Prelude.{◌≡◌, ◌≤◌, Some, IsTrue, IfErr, OnErr, OnOk, false};
ghost use Rattle.ax_container.specs.Container.{Container};
ghost use Rattle.ax_container.specs.Reindexing.{repoliced};
ghost use Rattle.ax_image_grammar.specs.Payloads.{IsTextOf};
ghost use Rattle.ax_image_pairs.specs.Indexed.{ContentsHoldAll};
ghost use Rattle.ax_policy.specs.Normal.{normal_text};
ghost use Rattle.ax_policy.specs.Table.{IsGiven, SetsNow};
ghost use Rattle.ax_store.specs.Store.{AgreesUnlessFailed, store_contents, store_failed};
ghost use Rattle.ax_table.specs.TableAgrees.{TableAgrees};
ghost use Rattle.ax_transform.specs.Settings.{ChangeLeaves, IsOfSetting, IsSetting, RefusesExactly, TellsChange};

use crate::batches::setting;
use crate::commit::seal_and_commit;
use crate::fault::TransformFault;
use ax_cache::PageCache;
use ax_disk::Disk;
use ax_policy::laws::policies_stay_apart;
use ax_policy::{Policy, PolicyTable};
use ax_store::{Store, StoreFault};
use std::alloc::Global;

/// Makes the policy the one now, by which documents are indexed that are written from then on. Those that are held stay under
/// the policies that they are under. `Policies` exactly where as many others are in use as may be, whatever the store holds,
/// unless memory runs out first.
///
/// One batch is committed: the policy's text where its number has another one or none, and the meta. No document and no term
/// page is read or written, so the work is the same in a store of any size.
pub fn set_policy<D: Disk, C: PageCache>(
    alloc: Global,
    store: &mut Store<C>,
    disk: &mut D,
    table: &mut PolicyTable,
    policy: Policy,
) -> Result<(), TransformFault>
    requires policy { IsTextOf (normal_text policy) policy }
    requires agrees { AgreesUnlessFailed C.pages (D.is_honest disk.old) store.old (D.history disk.old (D.attached disk.old)) }
    requires table { TableAgrees (D.is_honest disk.old) table.old (store_contents store.old) }
    ensures tells { IsTrue (D.is_honest disk.old) → store_failed store.old ≡ false → (before : Container)
        → ContentsHoldAll (store_contents store.old) before
        → TellsChange before (repoliced policy before) result (store_contents store.new)
        (D.history disk.old (D.attached disk.old)) (D.history disk.new (D.attached disk.new)) }
    ensures full { RefusesExactly result policy table.old }
    ensures only { IfErr result IsOfSetting }
    ensures table { TableAgrees (D.is_honest disk.old) table.new (store_contents store.new) }
    ensures now { OnOk result (SetsNow policy table.old table.new) }
    ensures unless { OnErr result (table.new ≡ table.old) }
    ensures small { OnOk result (IsSetting (D.is_honest disk.old) policy table.old store.old store.new
        (D.history disk.old (D.attached disk.old)) (D.history disk.new (D.attached disk.new))) }
    ensures leaves { ChangeLeaves C.pages (D.is_honest disk.old) result store.old store.new
        (D.history disk.old (D.attached disk.old)) (D.history disk.new (D.attached disk.new))
        (D.faults disk.old) (D.faults disk.new) }
    ensures attached { D.attached disk.new ≡ D.attached disk.old }
    ensures honest { D.is_honest disk.new ≡ D.is_honest disk.old }
{
    // The number is asked for once: the part and the table have the same one.
    match table.number_for(alloc, &policy) {
        Ok(Some(number)) => set_under(alloc, store, disk, table, number, policy),
        Ok(None) => {
            drop(policy);
            Err(TransformFault::Policies)
        }
        Err(_) => {
            drop(policy);
            Err(TransformFault::Store(StoreFault::Memory))
        }
    }
}

/// Makes the policy the one now, under the number that the table gives it. The table is changed last, and takes no memory.
fn set_under<D: Disk, C: PageCache>(
    alloc: Global,
    store: &mut Store<C>,
    disk: &mut D,
    table: &mut PolicyTable,
    number: u8,
    policy: Policy,
) -> Result<(), TransformFault>
    requires policy { IsTextOf (normal_text policy) policy }
    requires number { IsGiven policy table.old (Some number) }
    requires agrees { AgreesUnlessFailed C.pages (D.is_honest disk.old) store.old (D.history disk.old (D.attached disk.old)) }
    requires table { TableAgrees (D.is_honest disk.old) table.old (store_contents store.old) }
    ensures tells { IsTrue (D.is_honest disk.old) → store_failed store.old ≡ false → (before : Container)
        → ContentsHoldAll (store_contents store.old) before
        → TellsChange before (repoliced policy before) result (store_contents store.new)
        (D.history disk.old (D.attached disk.old)) (D.history disk.new (D.attached disk.new)) }
    ensures full { RefusesExactly result policy table.old }
    ensures only { IfErr result IsOfSetting }
    ensures table { TableAgrees (D.is_honest disk.old) table.new (store_contents store.new) }
    ensures now { OnOk result (SetsNow policy table.old table.new) }
    ensures unless { OnErr result (table.new ≡ table.old) }
    ensures small { OnOk result (IsSetting (D.is_honest disk.old) policy table.old store.old store.new
        (D.history disk.old (D.attached disk.old)) (D.history disk.new (D.attached disk.new))) }
    ensures leaves { ChangeLeaves C.pages (D.is_honest disk.old) result store.old store.new
        (D.history disk.old (D.attached disk.old)) (D.history disk.new (D.attached disk.new))
        (D.faults disk.old) (D.faults disk.new) }
    ensures attached { D.attached disk.new ≡ D.attached disk.old }
    ensures honest { D.is_honest disk.new ≡ D.is_honest disk.old }
{
    policies_stay_apart();
    let next = store.meta().next;
    let Ok(batch) = setting(alloc, table, next, number, &policy) else {
        drop(policy);
        return Err(TransformFault::Store(StoreFault::Memory));
    };
    match seal_and_commit(alloc, store, disk, batch) {
        Ok(()) => {
            table.put_now(number, policy);
            Ok(())
        }
        Err(fault) => {
            drop(policy);
            Err(TransformFault::Store(fault))
        }
    }
}
