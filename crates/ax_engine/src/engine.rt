//! An engine over an open store.

ghost use Rattle.std.specs.Prelude.{◌≡◌, ◌≢◌, ◌≤◌, ◌+◌, ℕ, [], Ok, Err, Some, None, IsTrue, IfOk, IfErr, OnOk, false};
ghost use Rattle.std.specs.FinMap as map;
ghost use Rattle.ax_cache.specs.PageLaws.{no_pages};
ghost use Rattle.ax_disk.specs.model.Calls.{Idles};
ghost use Rattle.ax_disk.specs.model.Stays.{Rests, SinceBarrier, Stays};
ghost use Rattle.ax_area.specs.Image.{IsDamaged, IsFresh, IsNewer};
ghost use Rattle.ax_pages.specs.Area.{extent_number};
ghost use Rattle.ax_disk.specs.declared.extent.Extent.TheVariants.{Root};
ghost use Rattle.ax_store.specs.Faults.{HasDiskCause};
ghost use Rattle.ax_container.specs.Container.{Container, contains};
ghost use Rattle.ax_container.specs.Writes.{removed};
ghost use Rattle.ax_log.specs.Opening.{Keeps};
ghost use Rattle.ax_lines.specs.Asked.{IsAsked};
ghost use Rattle.ax_lines.specs.declared.line.Line.TheVariants as line;
ghost use Rattle.ax_image.specs.Readable.{SaysReadable, newest};
ghost use Rattle.ax_machine.specs.Needs.{most_steps_of};
ghost use Rattle.ax_store.specs.Store.{store_contents};
ghost use Rattle.ax_write.specs.Learnt.{LearnsOfDeletion};
ghost use Rattle.ax_write.specs.Small.{IsSmallBatch, IsToldHeld};
ghost use Rattle.ax_write.specs.Writes.{IsOfHeld, MeetsHeld, SamePolicies, TellsWrite, WriteLeaves, of_store};
ghost use Rattle.ax_documents.specs.Damage.{MeetsBy};
ghost use Rattle.ax_documents.specs.Documents.{DocumentsHold, DocumentsWork, SameDocuments, WorkUnlessDisk};
ghost use Rattle.ax_documents.specs.Opening.{IsAnswerUnlessDisk, IsImageOf, IsStore, IsWithin, RefusesBy};
ghost use Rattle.ax_engine.specs.Batched.{AnswersSmall, MakesSmall};
ghost use Rattle.ax_engine.specs.Course.{Course, IsOpenedFrom, LearnsLine, standing_of};
ghost use Rattle.ax_engine.specs.Damage.{CountsFew, Meets, PassesOverNone};
ghost use Rattle.ax_engine.specs.Engine.{Applies, CountsAnswer, Holds, HoldsOver, IdlesUnlessDone, IsWrite, LeavesLists, MayFail, Tells, Works, made_of};
ghost use Rattle.ax_engine.specs.Judging.{Judges, MeetsLine};
ghost use Rattle.ax_engine.specs.PolicyNow.{policy_now};
ghost use Rattle.ax_engine.specs.Replies.{FitsRead, MayReply, look_up_answer, read_answer, write_answer};

use crate::querying::reply_to_query;
use crate::reply::Reply;
use ax_base::Steps;
use ax_cache::PageCache;
use ax_disk::Disk;
use ax_documents::{Documents, WriteFault, open_documents};
use ax_lines::{Body, Line, Refusal};
use ax_store::{NoPages, StoreFault};
use ax_tree::Text;
use std::alloc::Global;
use std::sync::ledger::Ledger;

/// Why an engine answers no reply.
#[derive(Clone, Copy, Debug, PartialEq, Eq)]
pub enum Fault {
    /// A call on the disk failed, and its count of faults rose.
    Disk,
    /// The text of a document or of a policy, or a part of a term page, is outside the format.
    Damaged {
        /// The list in which the part stands: 1 area A, 2 area B.
        extent: u8,
        /// The offset of the part in that list.
        at: u64,
    },
    /// A write of the sink failed, and its count of faults rose. It comes from `read_into` alone, and an engine keeps
    /// it never: its documents are as they were.
    Sink,
}

/// The documents of a container on a disk. After a fault it is to be opened again.
#[derive(Drop)]
pub struct Engine<C> {
    pub(crate) documents: Documents<C>,
    pub(crate) alloc: Global,
    /// The fault that was answered first.
    pub(crate) fault: Option<Fault>,
}

impl Engine<NoPages> {
    /// Opens the store attached, or forms one where it is fresh. It has no cache yet: `with_cache` gives it one.
    ///
    /// It begins with a sync, the barrier: until that succeeds a crash leaves what it might have left
    /// before, and from then on the documents that reads gave, with their index. The errors are those of the store:
    /// `Disk` only where a call on the disk failed, `Damaged` and `Newer` only where the store is
    /// outside the format at that offset, or of that later version, and it is as it was; `Memory`. `Damaged` is also
    /// a text of a policy in use or now, or of number 0, that is none, and that two of them have one text. Over
    /// an honest disk only a store with contents is opened, and a damaged root or a later version is
    /// refused as that unless the disk fails, whatever memory there is. No step is counted.
    pub fn open_engine<D: Disk, L: Ledger>(
        alloc: Global,
        disk: &mut D,
        steps: &mut Steps<L>,
    ) -> Result<Engine<NoPages>, StoreFault>
        ensures works { IfOk result (λ engine. Works (λ _. no_pages) (D.is_honest disk.old) engine
            (D.history disk.new (D.attached disk.new))) }
        ensures unfaulted { IfOk result (λ engine. engine.fault ≡ None) }
        ensures empty { IfOk result (λ engine. engine.documents.ids ≡ []) }
        ensures holds { IsTrue (D.is_honest disk.old) → (before : Container)
            → IsStore before (D.history disk.old (D.attached disk.old))
            → IfOk result (λ engine. HoldsOver engine (D.history disk.new (D.attached disk.new)) before) }
        ensures opened { IsTrue (D.is_honest disk.old) → IfOk result
            (λ engine. IsWithin (D.history disk.old (D.attached disk.old)).reads) }
        ensures begins { IsTrue (D.is_honest disk.old) → IfOk result
            (λ engine. IsOpenedFrom (D.history disk.old (D.attached disk.old)).reads (standing_of engine.documents)) }
        ensures any_moment { IsTrue (D.is_honest disk.old) → (before : Container)
            → IsStore before (D.history disk.old (D.attached disk.old))
            → SinceBarrier (D.history disk.old (D.attached disk.old)) (D.history disk.new (D.attached disk.new)) (IsImageOf before) }
        ensures unchanged { IsTrue (D.is_honest disk.old)
            → (IsFresh (D.history disk.old (D.attached disk.old)).reads → ⊥)
            → Keeps (D.history disk.old (D.attached disk.old)) (D.history disk.new (D.attached disk.new)) }
        ensures refused { IsTrue (D.is_honest disk.old) → IfErr result (λ fault. RefusesBy fault
            (D.history disk.old (D.attached disk.old)) (D.history disk.new (D.attached disk.new))) }
        ensures damaged_root { IsTrue (D.is_honest disk.old) → (at : ℕ)
            → IsDamaged newest (D.history disk.old (D.attached disk.old)).reads Root at
            → IsAnswerUnlessDisk (StoreFault.Damaged (extent_number Root) at) result }
        ensures newer { IsTrue (D.is_honest disk.old) → (version : ℕ)
            → IsNewer newest version (D.history disk.old (D.attached disk.old)).reads
            → IsAnswerUnlessDisk (StoreFault.Newer version) result }
        ensures cause { HasDiskCause result (D.faults disk.old) (D.faults disk.new) }
        ensures steps { steps.new ≡ steps.old }
        ensures attached { D.attached disk.new ≡ D.attached disk.old }
        ensures honest { D.is_honest disk.new ≡ D.is_honest disk.old }
    {
        match open_documents(alloc, disk, steps) {
            Ok(documents) => Ok(Engine {
                documents,
                alloc,
                fault: None,
            }),
            Err(fault) => Err(fault),
        }
    }
}

impl<C: PageCache + Drop> Engine<C> {
    /// The engine over another cache, which holds nothing yet. So an engine can be opened before its cache takes
    /// memory, and no want of that hides why a store is refused. Documents and fault are as they were. That it works
    /// over each history over which it did is the law `works_still` of `proofs/Recaching.antt`.
    pub fn with_cache<E: PageCache>(self, cache: E) -> Engine<E>
        requires empty { E.pages cache ≡ map.empty }
        ensures documents { SameDocuments self.documents result.documents }
        ensures fault { result.fault ≡ self.fault }
        ensures cache { result.documents.store.cache ≡ cache }
        ensures holds { (container : Container) → Holds self container → Holds result container }
    {
        let Engine {
            documents,
            alloc,
            fault,
        } = self;
        Engine {
            documents: documents.with_cache(cache),
            alloc,
            fault,
        }
    }
}

impl<C> Engine<C> {
    /// The fault that was answered first, and is answered again to every line.
    pub fn fault(&self) -> Option<Fault>
        ensures { result ≡ self.now.fault }
    {
        self.fault
    }
}

impl<C: PageCache> Engine<C> {
    /// Makes the step of a line, durable where the disk is honest, and answers with its reply; or is
    /// refused for want of memory, with no change. What the container refuses (an id that is held, or is
    /// not; no room for a document) is answered as that, unless memory ran out before it was known. After a fault every
    /// line is answered by it. `Sink` it answers never: it writes to none.
    ///
    /// `Disk` where a call on the disk failed, and nowhere else does the disk count a fault. `Damaged` where the text of a
    /// document or of a policy is none that it can have, or a part of the index is outside its grammar, over an honest disk with
    /// the place at which its part stands; the disk's lists are then as they were, and so they are at a refusal. A
    /// query answers no rows over such a text that it reads whole, of a document that the index leaves, where it has no WHERE, or
    /// the text is that of a tree that has rows in it, and, with LIMIT, the documents before it are not enough; nor any but those
    /// over no document, where a part of the index in which it is to look is outside its grammar.
    ///
    /// A query looks only at the documents that the index leaves: those with a term in each union of terms of its plan, in which
    /// conditions on one property may be combined, and takes at most two steps of work for each. One that is refused for its text
    /// or its ORDER BY takes none.
    ///
    /// Whatever the store holds, a query is answered rows only where it has no refusal of its own (of its text,
    /// or of its ORDER BY under the policy now), and is refused by that one alone, or for want of memory; a write is answered `Ok`,
    /// or by a refusal of its own line, or for want of memory; a read by a document, as absent, or for want of
    /// memory. Over an honest disk a write or a read is answered only where the table of ids lately found tells its id or the
    /// parts of the index that do are in their grammar, and where the text of the document that a write reads is that of one.
    /// What a write puts into the store is one batch, of its document and the changes of the index that belong to it.
    /// What a line leaves is what the next one finds (`course`): of a read, a query and a refused write the contents as they were,
    /// and of each the table of ids with what it has found.
    #[tactic(auto, using(crate::proofs::PolicyHeld::same_policies))]
    pub fn apply<D: Disk, L: Ledger>(
        &mut self,
        disk: &mut D,
        line: Line,
        steps: &mut Steps<L>,
    ) -> Result<Reply, Fault>
        requires asked { IsAsked line }
        requires works { Works C.pages (D.is_honest disk.old) self.old (D.history disk.old (D.attached disk.old)) }
        ensures applies { IsTrue (D.is_honest disk.old) → (before : Container)
            → HoldsOver self.old (D.history disk.old (D.attached disk.old)) before
            → Applies (IsTrue (D.is_honest disk.old)) before line result self.new
            (D.history disk.old (D.attached disk.old)) (D.history disk.new (D.attached disk.new)) }
        ensures may_reply { IfOk result (λ reply. MayReply (policy_now self.old.documents.table) line reply) }
        ensures met { IsTrue (D.is_honest disk.old) → self.old.fault ≡ None
            → IfErr result (λ fault. Meets fault (D.history disk.new (D.attached disk.new)).reads) }
        ensures passes_over_none { IsTrue (D.is_honest disk.old) → self.old.fault ≡ None
            → IfOk result (λ reply. PassesOverNone self.old.documents.table line reply (D.history disk.new (D.attached disk.new)).reads) }
        ensures few { IsTrue (D.is_honest disk.old) → self.old.fault ≡ None
            → CountsFew self.old.documents.table line (store_contents self.old.documents.store) steps.old steps.new }
        ensures judged { IsTrue (D.is_honest disk.old) → self.old.fault ≡ None
            → IfOk result (λ reply. Judges line self.old.documents.ids (store_contents self.old.documents.store) reply) }
        ensures lists { IsTrue (D.is_honest disk.old) → self.old.fault ≡ None
            → LeavesLists line result (D.history disk.old (D.attached disk.old)) (D.history disk.new (D.attached disk.new)) }
        ensures small { self.old.fault ≡ None → AnswersSmall line result (D.is_honest disk.old)
            self.old.documents.table self.old.documents.ids
            (store_contents self.old.documents.store) (store_contents self.new.documents.store) }
        ensures course { IfOk result (λ reply. Course (D.is_honest disk.old) line reply
            (standing_of self.old.documents) (standing_of self.new.documents)) }
        ensures works { Works C.pages (D.is_honest disk.old) self.new (D.history disk.new (D.attached disk.new)) }
        ensures policies { SamePolicies self.old.documents.table self.new.documents.table }

        ensures no_sink { result ≢ Err Fault.Sink }

        // A fault that was answered is kept, and answered again, with no call on the disk.
        ensures keeps { IfErr result (λ fault. self.new.fault ≡ Some fault) }
        ensures unfaulted { OnOk result (self.new.fault ≡ None) }
        ensures again { (fault : Fault) → self.old.fault ≡ Some fault
            → (result ≡ Err fault) × (self.new ≡ self.old) × (disk.new ≡ disk.old) × (steps.new ≡ steps.old) }

        ensures counted { self.old.fault ≡ None → CountsAnswer result (D.faults disk.old) (D.faults disk.new) }
        ensures never_falls { D.faults disk.old ≤ D.faults disk.new }
        ensures attached { D.attached disk.new ≡ D.attached disk.old }
        ensures honest { D.is_honest disk.new ≡ D.is_honest disk.old }
        ensures bound { IsTrue (D.is_honest disk.old) → (before : Container) → Holds self.old before
            → steps.new ≤ steps.old + most_steps_of before (Ok line) }
        ensures steps { steps.old ≤ steps.new }
    {
        if let Some(fault) = self.fault {
            return Err(fault);
        }
        let answered = answer(self.alloc, &mut self.documents, disk, &line, steps);
        self.fault = kept_fault(&answered);
        answered
    }
}

/// The fault that an answer is.
pub(crate) fn kept_fault(answered: &Result<Reply, Fault>) -> Option<Fault>
    ensures fault { IfErr answered.now (λ fault. result ≡ Some fault) }
    ensures none { OnOk answered.now (result ≡ None) }
{
    match answered {
        Ok(_) => None,
        Err(fault) => Some(*fault),
    }
}

/// The reply to a line, and its change to the documents.
fn answer<D: Disk, C: PageCache, L: Ledger>(
    alloc: Global,
    documents: &mut Documents<C>,
    disk: &mut D,
    line: &Line,
    steps: &mut Steps<L>,
) -> Result<Reply, Fault>
    requires asked { IsAsked line.now }
    requires works { DocumentsWork C.pages (D.is_honest disk.old) documents.old (D.history disk.old (D.attached disk.old)) }
    ensures tells { IsTrue (D.is_honest disk.old)
        → Rests (D.history disk.old (D.attached disk.old)) SaysReadable
        → (before : Container) → DocumentsHold documents.old before
        → Tells (IsTrue (D.is_honest disk.old)) before line.now result documents.new
        (D.history disk.old (D.attached disk.old)) (D.history disk.new (D.attached disk.new)) }
    ensures may_reply { IfOk result (λ reply. MayReply (policy_now documents.old.table) line.now reply) }
    ensures judged { IsTrue (D.is_honest disk.old)
        → IfOk result (λ reply. Judges line.now documents.old.ids (store_contents documents.old.store) reply) }
    ensures lists { IsTrue (D.is_honest disk.old)
        → LeavesLists line.now result (D.history disk.old (D.attached disk.old)) (D.history disk.new (D.attached disk.new)) }
    ensures small { AnswersSmall line.now result (D.is_honest disk.old) documents.old.table documents.old.ids
        (store_contents documents.old.store) (store_contents documents.new.store) }
    ensures met { IsTrue (D.is_honest disk.old)
        → IfErr result (λ fault. Meets fault (D.history disk.new (D.attached disk.new)).reads) }
    ensures passes_over_none { IsTrue (D.is_honest disk.old)
        → IfOk result (λ reply. PassesOverNone documents.old.table line.now reply (D.history disk.new (D.attached disk.new)).reads) }
    ensures few { IsTrue (D.is_honest disk.old)
        → CountsFew documents.old.table line.now (store_contents documents.old.store) steps.old steps.new }
    ensures works { OnOk result (DocumentsWork C.pages (D.is_honest disk.old) documents.new (D.history disk.new (D.attached disk.new))) }
    ensures readable { IsTrue (D.is_honest disk.old) → (before : Container) → DocumentsHold documents.old before
        → Rests (D.history disk.old (D.attached disk.old)) SaysReadable
        → Stays (D.history disk.old (D.attached disk.old)) (D.history disk.new (D.attached disk.new)) SaysReadable }
    ensures course { IfOk result (λ reply. Course (D.is_honest disk.old) line.now reply (standing_of documents.old) (standing_of documents.new)) }
    ensures counted { CountsAnswer result (D.faults disk.old) (D.faults disk.new) }
    ensures never_falls { D.faults disk.old ≤ D.faults disk.new }
    ensures policies { SamePolicies documents.old.table documents.new.table }
    ensures attached { D.attached disk.new ≡ D.attached disk.old }
    ensures honest { D.is_honest disk.new ≡ D.is_honest disk.old }
    ensures bound { IsTrue (D.is_honest disk.old) → (before : Container) → DocumentsHold documents.old before
        → steps.new ≤ steps.old + most_steps_of before (Ok line.now) }
    ensures steps { steps.old ≤ steps.new }
{
    match line {
        Line::Create(_) => write(documents, disk, line, steps),
        Line::Upsert(_) => write(documents, disk, line, steps),
        Line::Replace(_) => write(documents, disk, line, steps),
        Line::Delete(_) => write(documents, disk, line, steps),
        Line::Read(id) => read(documents, disk, id, steps),
        Line::Query(body) => query(alloc, documents, disk, body, steps),
    }
}

/// The reply to a write.
fn write<D: Disk, C: PageCache, L: Ledger>(
    documents: &mut Documents<C>,
    disk: &mut D,
    line: &Line,
    steps: &mut Steps<L>,
) -> Result<Reply, Fault>
    requires writes { IsWrite line.now }
    requires asked { IsAsked line.now }
    requires works { DocumentsWork C.pages (D.is_honest disk.old) documents.old (D.history disk.old (D.attached disk.old)) }
    ensures tells { IsTrue (D.is_honest disk.old) → (before : Container) → DocumentsHold documents.old before
        → Tells (IsTrue (D.is_honest disk.old)) before line.now result documents.new
        (D.history disk.old (D.attached disk.old)) (D.history disk.new (D.attached disk.new)) }
    ensures may_reply { IfOk result (λ reply. MayReply (policy_now documents.old.table) line.now reply) }
    ensures judged { IsTrue (D.is_honest disk.old)
        → IfOk result (λ reply. Judges line.now documents.old.ids (store_contents documents.old.store) reply) }
    ensures lists { IsTrue (D.is_honest disk.old) → IdlesUnlessDone result (D.history disk.old (D.attached disk.old)) (D.history disk.new (D.attached disk.new)) }
    ensures small { AnswersSmall line.now result (D.is_honest disk.old) documents.old.table documents.old.ids
        (store_contents documents.old.store) (store_contents documents.new.store) }
    ensures met { IsTrue (D.is_honest disk.old)
        → IfErr result (λ fault. Meets fault (D.history disk.new (D.attached disk.new)).reads) }
    ensures works { OnOk result (DocumentsWork C.pages (D.is_honest disk.old) documents.new (D.history disk.new (D.attached disk.new))) }
    ensures readable { IsTrue (D.is_honest disk.old) → (before : Container) → DocumentsHold documents.old before
        → Rests (D.history disk.old (D.attached disk.old)) SaysReadable
        → Stays (D.history disk.old (D.attached disk.old)) (D.history disk.new (D.attached disk.new)) SaysReadable }
    ensures course { IfOk result (λ reply. Course (D.is_honest disk.old) line.now reply (standing_of documents.old) (standing_of documents.new)) }
    ensures counted { CountsAnswer result (D.faults disk.old) (D.faults disk.new) }
    ensures never_falls { D.faults disk.old ≤ D.faults disk.new }
    ensures policies { SamePolicies documents.old.table documents.new.table }
    ensures attached { D.attached disk.new ≡ D.attached disk.old }
    ensures honest { D.is_honest disk.new ≡ D.is_honest disk.old }
    ensures bound { IsTrue (D.is_honest disk.old) → (before : Container) → DocumentsHold documents.old before
        → steps.new ≤ steps.old + most_steps_of before (Ok line.now) }
    ensures steps { steps.old ≤ steps.new }
{
    let made = make(documents, disk, line, steps);
    answer_of_write(made)
}

/// Makes a write.
fn make<D: Disk, C: PageCache, L: Ledger>(
    documents: &mut Documents<C>,
    disk: &mut D,
    line: &Line,
    steps: &mut Steps<L>,
) -> Result<(), WriteFault>
    requires writes { IsWrite line.now }
    requires asked { IsAsked line.now }
    requires works { DocumentsWork C.pages (D.is_honest disk.old) documents.old (D.history disk.old (D.attached disk.old)) }
    ensures tells { IsTrue (D.is_honest disk.old) → (before : Container) → DocumentsHold documents.old before
        → TellsWrite before (made_of line.now before) result documents.new.store documents.new.ids
        (D.history disk.old (D.attached disk.old)) (D.history disk.new (D.attached disk.new)) }
    ensures only { IfErr result (MayFail line.now) }
    ensures met { IsTrue (D.is_honest disk.old) → MeetsLine line.now result documents.old.ids (store_contents documents.old.store) }
    ensures small { MakesSmall line.now result (D.is_honest disk.old) documents.old.table documents.old.ids
        (store_contents documents.old.store) (store_contents documents.new.store) }
    ensures learns { LearnsLine line.now result (D.is_honest disk.old) (store_contents documents.old.store)
        documents.old.ids documents.new.ids }
    ensures damage { IsTrue (D.is_honest disk.old)
        → IfErr (of_store result) (λ why. MeetsBy why (D.history disk.new (D.attached disk.new)).reads) }
    ensures works { WorkUnlessDisk C.pages (D.is_honest disk.old) (of_store result) documents.new
        (D.history disk.new (D.attached disk.new)) }
    ensures leaves { WriteLeaves C.pages (D.is_honest disk.old) result documents.old.store documents.new.store
        (D.history disk.old (D.attached disk.old)) (D.history disk.new (D.attached disk.new))
        (D.faults disk.old) (D.faults disk.new) }
    ensures policies { SamePolicies documents.old.table documents.new.table }
    ensures attached { D.attached disk.new ≡ D.attached disk.old }
    ensures honest { D.is_honest disk.new ≡ D.is_honest disk.old }
    ensures bound { IsTrue (D.is_honest disk.old) → (before : Container) → DocumentsHold documents.old before
        → steps.new ≤ steps.old + most_steps_of before (Ok line.now) }
    ensures steps { steps.old ≤ steps.new }
{
    match line {
        Line::Create(tree) => documents.create(disk, tree),
        Line::Upsert(tree) => documents.upsert(disk, tree, steps),
        Line::Replace(tree) => documents.replace(disk, tree, steps),
        Line::Delete(id) => delete(documents, disk, id, steps),
        Line::Read(_) => unreachable!(),
        Line::Query(_) => unreachable!(),
    }
}

/// Deletes the document of an id.
fn delete<D: Disk, C: PageCache, L: Ledger>(
    documents: &mut Documents<C>,
    disk: &mut D,
    id: &Text,
    steps: &mut Steps<L>,
) -> Result<(), WriteFault>
    requires works { DocumentsWork C.pages (D.is_honest disk.old) documents.old (D.history disk.old (D.attached disk.old)) }
    ensures tells { IsTrue (D.is_honest disk.old) → (before : Container) → DocumentsHold documents.old before
        → TellsWrite before (removed id.now before) result documents.new.store documents.new.ids
        (D.history disk.old (D.attached disk.old)) (D.history disk.new (D.attached disk.new)) }
    ensures only { IfErr result IsOfHeld }
    ensures met { IsTrue (D.is_honest disk.old) → MeetsHeld result documents.old.ids id.now (store_contents documents.old.store) }
    ensures small { OnOk result (IsSmallBatch (IsToldHeld (D.is_honest disk.old) documents.old.ids id.now (store_contents documents.old.store))
        (D.is_honest disk.old) documents.old.table None (store_contents documents.old.store) (store_contents documents.new.store)) }
    ensures learns { LearnsOfDeletion result (D.is_honest disk.old) id.now (store_contents documents.old.store)
        documents.old.ids documents.new.ids }
    ensures damage { IsTrue (D.is_honest disk.old)
        → IfErr (of_store result) (λ why. MeetsBy why (D.history disk.new (D.attached disk.new)).reads) }
    ensures works { WorkUnlessDisk C.pages (D.is_honest disk.old) (of_store result) documents.new
        (D.history disk.new (D.attached disk.new)) }
    ensures leaves { WriteLeaves C.pages (D.is_honest disk.old) result documents.old.store documents.new.store
        (D.history disk.old (D.attached disk.old)) (D.history disk.new (D.attached disk.new))
        (D.faults disk.old) (D.faults disk.new) }
    ensures one { steps.new ≤ steps.old + 1 }
    ensures none { IsTrue (D.is_honest disk.old) → (before : Container) → DocumentsHold documents.old before
        → contains id.now before ≡ false → steps.new ≡ steps.old }
    ensures policies { SamePolicies documents.old.table documents.new.table }
    ensures attached { D.attached disk.new ≡ D.attached disk.old }
    ensures honest { D.is_honest disk.new ≡ D.is_honest disk.old }
    ensures steps { steps.old ≤ steps.new }
{
    let id = id.as_str().as_bytes();
    documents.delete(disk, id, steps)
}

/// What a write came to, as the answer to its line.
fn answer_of_write(made: Result<(), WriteFault>) -> Result<Reply, Fault>
    ensures { result ≡ write_answer made }
{
    match made {
        Ok(()) => Ok(Reply::Ok),
        Err(WriteFault::Conflict) => Ok(Reply::Refused(Refusal::Conflict)),
        Err(WriteFault::Absent) => Ok(Reply::Refused(Refusal::Absent)),
        Err(WriteFault::Full) => Ok(Reply::Refused(Refusal::Full)),
        Err(WriteFault::Store(StoreFault::Memory)) => Ok(Reply::Refused(Refusal::Memory)),
        Err(WriteFault::Store(StoreFault::Disk)) => Err(Fault::Disk),
        Err(WriteFault::Store(StoreFault::Damaged { extent, at })) => {
            Err(Fault::Damaged { extent, at })
        }
        // No allocation: a store that is open is of no later version.
        Err(WriteFault::Store(StoreFault::Newer { .. })) => Ok(Reply::Refused(Refusal::Memory)),
    }
}

/// The document of an id, which changes nothing. Its text is passed on as it is stored.
#[tactic(auto, using(crate::proofs::PolicyHeld::unchanged))]
pub(crate) fn read<D: Disk, C: PageCache, L: Ledger>(
    documents: &mut Documents<C>,
    disk: &mut D,
    id: &Text,
    steps: &mut Steps<L>,
) -> Result<Reply, Fault>
    requires works { DocumentsWork C.pages (D.is_honest disk.old) documents.old (D.history disk.old (D.attached disk.old)) }
    ensures tells { IsTrue (D.is_honest disk.old)
        → (before : Container) → DocumentsHold documents.old before
        → Tells (IsTrue (D.is_honest disk.old)) before (line.Read id.now) result documents.new
        (D.history disk.old (D.attached disk.old)) (D.history disk.new (D.attached disk.new)) }
    ensures may_reply { IfOk result FitsRead }
    ensures judged { IsTrue (D.is_honest disk.old)
        → IfOk result (λ reply. Judges (line.Read id.now) documents.old.ids (store_contents documents.old.store) reply) }
    ensures lists { IsTrue (D.is_honest disk.old) → Idles (D.history disk.old (D.attached disk.old)) (D.history disk.new (D.attached disk.new)) }
    ensures met { IsTrue (D.is_honest disk.old)
        → IfErr result (λ fault. Meets fault (D.history disk.new (D.attached disk.new)).reads) }
    ensures works { OnOk result (DocumentsWork C.pages (D.is_honest disk.old) documents.new (D.history disk.new (D.attached disk.new))) }
    ensures readable { IsTrue (D.is_honest disk.old)
        → Rests (D.history disk.old (D.attached disk.old)) SaysReadable
        → Stays (D.history disk.old (D.attached disk.old)) (D.history disk.new (D.attached disk.new)) SaysReadable }
    ensures course { IfOk result (λ reply. Course (D.is_honest disk.old) (line.Read id.now) reply (standing_of documents.old) (standing_of documents.new)) }
    ensures counted { CountsAnswer result (D.faults disk.old) (D.faults disk.new) }
    ensures never_falls { D.faults disk.old ≤ D.faults disk.new }
    ensures policies { SamePolicies documents.old.table documents.new.table }
    ensures attached { D.attached disk.new ≡ D.attached disk.old }
    ensures honest { D.is_honest disk.new ≡ D.is_honest disk.old }
    ensures bound { IsTrue (D.is_honest disk.old) → (before : Container) → DocumentsHold documents.old before
        → steps.new ≤ steps.old + most_steps_of before (Ok (line.Read id.now)) }
    ensures steps { steps.old ≤ steps.new }
{
    let id = id.as_str().as_bytes();
    let found = documents.read(disk, id, steps);
    answer_of_look_up(found)
}

/// What looking up a document answered, as the answer to a READ line.
fn answer_of_look_up(found: Result<Option<Vec<u8>>, StoreFault>) -> Result<Reply, Fault>
    ensures { result ≡ look_up_answer found }
{
    match found {
        Ok(Some(text)) => Ok(Reply::Doc(text)),
        Ok(None) => Ok(Reply::Refused(Refusal::Absent)),
        Err(StoreFault::Memory) => Ok(Reply::Refused(Refusal::Memory)),
        Err(StoreFault::Disk) => Err(Fault::Disk),
        Err(StoreFault::Damaged { extent, at }) => Err(Fault::Damaged { extent, at }),
        // No allocation: a store that is open is of no later version.
        Err(StoreFault::Newer { .. }) => Ok(Reply::Refused(Refusal::Memory)),
    }
}

/// The reply to a query under the policy now, which changes nothing.
#[tactic(auto, using(crate::proofs::PolicyHeld::same_policies))]
fn query<D: Disk, C: PageCache, L: Ledger>(
    alloc: Global,
    documents: &mut Documents<C>,
    disk: &mut D,
    body: &Body,
    steps: &mut Steps<L>,
) -> Result<Reply, Fault>
    requires works { DocumentsWork C.pages (D.is_honest disk.old) documents.old (D.history disk.old (D.attached disk.old)) }
    ensures tells { IsTrue (D.is_honest disk.old)
        → Rests (D.history disk.old (D.attached disk.old)) SaysReadable
        → (before : Container) → DocumentsHold documents.old before
        → Tells (IsTrue (D.is_honest disk.old)) before (line.Query body.now) result documents.new
        (D.history disk.old (D.attached disk.old)) (D.history disk.new (D.attached disk.new)) }
    ensures may_reply { IfOk result (λ reply. MayReply (policy_now documents.old.table) (line.Query body.now) reply) }
    ensures lists { IsTrue (D.is_honest disk.old) → Idles (D.history disk.old (D.attached disk.old)) (D.history disk.new (D.attached disk.new)) }
    ensures met { IsTrue (D.is_honest disk.old)
        → IfErr result (λ fault. Meets fault (D.history disk.new (D.attached disk.new)).reads) }
    ensures passes_over_none { IsTrue (D.is_honest disk.old)
        → IfOk result (λ reply. PassesOverNone documents.old.table (line.Query body.now) reply (D.history disk.new (D.attached disk.new)).reads) }
    ensures few { IsTrue (D.is_honest disk.old)
        → CountsFew documents.old.table (line.Query body.now) (store_contents documents.old.store) steps.old steps.new }
    ensures works { OnOk result (DocumentsWork C.pages (D.is_honest disk.old) documents.new
        (D.history disk.new (D.attached disk.new))) }
    ensures readable { IsTrue (D.is_honest disk.old)
        → Rests (D.history disk.old (D.attached disk.old)) SaysReadable
        → Stays (D.history disk.old (D.attached disk.old)) (D.history disk.new (D.attached disk.new)) SaysReadable }
    ensures course { IfOk result (λ reply. Course (D.is_honest disk.old) (line.Query body.now) reply (standing_of documents.old) (standing_of documents.new)) }
    ensures counted { CountsAnswer result (D.faults disk.old) (D.faults disk.new) }
    ensures never_falls { D.faults disk.old ≤ D.faults disk.new }
    ensures policies { SamePolicies documents.old.table documents.new.table }
    ensures attached { D.attached disk.new ≡ D.attached disk.old }
    ensures honest { D.is_honest disk.new ≡ D.is_honest disk.old }
    ensures bound { IsTrue (D.is_honest disk.old) → (before : Container) → DocumentsHold documents.old before
        → steps.new ≤ steps.old + most_steps_of before (Ok (line.Query body.now)) }
    ensures steps { steps.old ≤ steps.new }
{
    let read = reply_to_query(
        alloc,
        &mut documents.store,
        disk,
        &documents.table,
        body,
        steps,
    );
    answer_of_read(read)
}

/// What reading answered, as the answer to a line.
fn answer_of_read(read: Result<Reply, StoreFault>) -> Result<Reply, Fault>
    ensures { result ≡ read_answer read }
{
    match read {
        Ok(reply) => Ok(reply),
        Err(StoreFault::Memory) => Ok(Reply::Refused(Refusal::Memory)),
        Err(StoreFault::Disk) => Err(Fault::Disk),
        Err(StoreFault::Damaged { extent, at }) => Err(Fault::Damaged { extent, at }),
        // No allocation: a store that is open is of no later version.
        Err(StoreFault::Newer { .. }) => Ok(Reply::Refused(Refusal::Memory)),
    }
}
