//! Opening the store of a name.

ghost use Rattle.std.specs.Prelude.{◌≡◌, ◌≤◌, ℕ, None, IsTrue, IfOk, IfErr, OnOk};
ghost use Rattle.ax_area.specs.Image.{IsDamaged, IsNewer};
ghost use Rattle.ax_cache.specs.PageLaws.{no_pages};
ghost use Rattle.ax_disk.specs.declared.extent.Extent.TheVariants.{Root};
ghost use Rattle.ax_disk.specs.model.Stays.{SinceBarrier};
ghost use Rattle.ax_container.specs.Container.{Container};
ghost use Rattle.ax_engine.specs.Course.{IsOpenedFrom, standing_of};
ghost use Rattle.ax_engine.specs.Engine.{HoldsOver, Works};
ghost use Rattle.ax_documents.specs.Opening.{IsImageOf, IsStore, IsWithin};
ghost use Rattle.ax_image.specs.Readable.{newest};
ghost use Rattle.ax_pages.specs.Area.{extent_number};
ghost use Rattle.ax_script.specs.Opening.{EndsOpening, RefusesOpening};
ghost use Rattle.ax_script.specs.Progress.{EndsEarly};
ghost use Rattle.ax_script.specs.Statuses.{CallCountsDisk};

use crate::status::Status;
use ax_base::Steps;
use ax_disk::Disk;
use ax_engine::Engine;
use ax_store::{NoPages, StoreFault};
use std::alloc::Global;
use std::sync::ledger::Ledger;

/// Attaches the store of a name, and opens it, with no cache yet. Over an honest disk a store with a damaged root or of a later
/// version is refused as that unless the disk fails, whatever memory there is.
pub(crate) fn open_named<D: Disk, L: Ledger>(
    alloc: Global,
    disk: &mut D,
    name: &str,
    steps: &mut Steps<L>,
) -> Result<Engine<NoPages>, Status>
    ensures works { IfOk result (λ engine. Works (λ _. no_pages) (D.is_honest disk.old) engine
        (D.history disk.new (D.attached disk.new))) }
    ensures unfaulted { IfOk result (λ engine. engine.fault ≡ None) }
    ensures attached { OnOk result (D.attached disk.new ≡ D.store_named name.now) }
    ensures holds { IsTrue (D.is_honest disk.old) → (before : Container)
        → IsStore before (D.history disk.old (D.store_named name.now))
        → IfOk result (λ engine. HoldsOver engine (D.history disk.new (D.attached disk.new)) before) }
    ensures opened { IsTrue (D.is_honest disk.old) → IfOk result
        (λ engine. IsWithin (D.history disk.old (D.store_named name.now)).reads) }
    ensures begins { IsTrue (D.is_honest disk.old) → IfOk result
        (λ engine. IsOpenedFrom (D.history disk.old (D.store_named name.now)).reads (standing_of engine.documents)) }
    ensures any_moment { IsTrue (D.is_honest disk.old) → (before : Container)
        → IsStore before (D.history disk.old (D.store_named name.now))
        → SinceBarrier (D.history disk.old (D.store_named name.now)) (D.history disk.new (D.store_named name.now)) (IsImageOf before) }
    ensures tells { IsTrue (D.is_honest disk.old) → IfErr result (λ status. RefusesOpening status
        (D.history disk.old (D.store_named name.now)) (D.history disk.new (D.store_named name.now))) }
    ensures only { IfErr result EndsEarly }
    ensures damaged_root { IsTrue (D.is_honest disk.old) → (at : ℕ)
        → IsDamaged newest (D.history disk.old (D.store_named name.now)).reads Root at
        → EndsOpening (Status.Damaged (extent_number Root) at) result }
    ensures newer { IsTrue (D.is_honest disk.old) → (version : ℕ)
        → IsNewer newest version (D.history disk.old (D.store_named name.now)).reads
        → EndsOpening (Status.Newer version) result }
    ensures disk_counted { CallCountsDisk result (D.faults disk.old) (D.faults disk.new) }
    ensures never_falls { D.faults disk.old ≤ D.faults disk.new }
    ensures steps { steps.new ≡ steps.old }
    ensures honest { D.is_honest disk.new ≡ D.is_honest disk.old }
{
    let Ok(()) = disk.attach(name) else {
        return Err(Status::DiskFault);
    };
    match Engine::open_engine(alloc, disk, steps) {
        Ok(engine) => Ok(engine),
        Err(StoreFault::Disk) => Err(Status::DiskFault),
        Err(StoreFault::Damaged { extent, at }) => Err(Status::Damaged { extent, at }),
        Err(StoreFault::Newer { version }) => Err(Status::Newer { version }),
        Err(StoreFault::Memory) => Err(Status::Memory),
    }
}
