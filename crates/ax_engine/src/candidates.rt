//! The documents at which a query looks: those that its plan leaves.

ghost use Rattle.std.specs.Prelude.{◌≡◌, ◌↔◌, ◌≤◌, IsTrue, IfOk, true};
ghost use Rattle.ax_engine.specs.Candidates.{AreFound, AreOfUnions};
ghost use Rattle.ax_engine.specs.PolicyNow.{policy_now};
ghost use Rattle.ax_policy.specs.Sameness.{is_orderable};
ghost use Rattle.ax_pool.specs.Frames.{free_count};
ghost use Rattle.ax_store.specs.Store.{AgreesUnlessFailed, store_contents, store_slots};
ghost use Rattle.ax_write.specs.Writes.{Looks};
ghost use Rattle.ax_atoms.specs.Conjuncts.{atoms};
ghost use Rattle.ax_plan.specs.Usable.{AreUnions};

use ax_cache::PageCache;
use ax_candidates::candidates;
use ax_disk::Disk;
use ax_mean::{Memory, Query};
use ax_plan::{Plan, PlanFault, UnionList, plan};
use ax_policy::PolicyTable;
use ax_store::{Store, StoreFault};
use std::alloc::Global;

/// The documents at which a query looks.
#[derive(Drop)]
pub(crate) enum Candidates {
    /// All documents: the query has no condition that the index answers.
    All,
    /// Those of these numbers, which rise, as far as they are held.
    Numbers(Vec<u32>),
}

impl Candidates {
    ghost use Rattle.ax_engine.specs.Candidates.{AreNone};

    /// Whether these are numbers, and there is none.
    pub(crate) fn is_empty(&self) -> bool
        ensures { (result ≡ true) ↔ AreNone self.now }
    {
        match self {
            Candidates::All => false,
            Candidates::Numbers(numbers) => numbers.is_empty(),
        }
    }
}

/// The documents that a query's plan leaves under the policies of the table: all, where it has no condition that the
/// index answers; else those with a term in each of its unions, as the index says. A query for whose ORDER BY the policy
/// now keeps no order has no plan.
///
/// `Disk` where a read failed; `Damaged` where a part of the index that was read is outside its grammar, with its place;
/// `Memory`.
pub(crate) fn candidates_of<D: Disk, C: PageCache>(
    alloc: Global,
    store: &mut Store<C>,
    disk: &mut D,
    table: &PolicyTable,
    query: &Query,
) -> Result<Candidates, StoreFault>
    requires kept { is_orderable (policy_now table.now) query.now.orders ≡ true }
    requires free { 2 ≤ free_count (store_slots store.old) }
    requires agrees { AgreesUnlessFailed C.pages (D.is_honest disk.old) store.old (D.history disk.old (D.attached disk.old)) }
    ensures found { IsTrue (D.is_honest disk.old)
        → IfOk result (AreFound table.now query.now (store_contents store.old).terms) }
    ensures looks { Looks C.pages (D.is_honest disk.old) result store.old store.new
        (D.history disk.old (D.attached disk.old)) (D.history disk.new (D.attached disk.new))
        (D.faults disk.old) (D.faults disk.new) }
    ensures attached { D.attached disk.new ≡ D.attached disk.old }
    ensures honest { D.is_honest disk.new ≡ D.is_honest disk.old }
{
    let Ok(unions) = unions_of(alloc, query, table) else {
        return Err(StoreFault::Memory);
    };
    let found = candidates_in(alloc, store, disk, &unions);
    drop(unions);
    found
}

/// The unions of terms of the query's plan: a document has a term in each of them exactly where it has one for each
/// condition that the index answers.
#[tactic(auto, using(crate::proofs::Choosing::never_unordered))]
fn unions_of(alloc: Global, query: &Query, table: &PolicyTable) -> Result<UnionList, Memory>
    requires kept { is_orderable (policy_now table.now) query.now.orders ≡ true }
    ensures { IfOk result (λ unions. AreUnions table.now (atoms query.now) unions) }
{
    match plan(alloc, query, table) {
        Ok(plan) => {
            let Plan { unions, source: _ } = plan;
            Ok(unions)
        }
        Err(PlanFault::Memory) => Err(Memory),
        // The policy now keeps an order for the query's ORDER BY.
        Err(PlanFault::NoOrder) => unreachable!(),
    }
}

/// The documents with a term in each of these unions; without a union, all.
fn candidates_in<D: Disk, C: PageCache>(
    alloc: Global,
    store: &mut Store<C>,
    disk: &mut D,
    unions: &UnionList,
) -> Result<Candidates, StoreFault>
    requires free { 2 ≤ free_count (store_slots store.old) }
    requires agrees { AgreesUnlessFailed C.pages (D.is_honest disk.old) store.old (D.history disk.old (D.attached disk.old)) }
    ensures found { IsTrue (D.is_honest disk.old)
        → IfOk result (AreOfUnions unions.now (store_contents store.old).terms) }
    ensures looks { Looks C.pages (D.is_honest disk.old) result store.old store.new
        (D.history disk.old (D.attached disk.old)) (D.history disk.new (D.attached disk.new))
        (D.faults disk.old) (D.faults disk.new) }
    ensures attached { D.attached disk.new ≡ D.attached disk.old }
    ensures honest { D.is_honest disk.new ≡ D.is_honest disk.old }
{
    if unions.as_slice().is_empty() {
        return Ok(Candidates::All);
    }
    match candidates(alloc, store, disk, unions.as_slice()) {
        Ok(numbers) => Ok(Candidates::Numbers(numbers)),
        Err(fault) => Err(fault),
    }
}
