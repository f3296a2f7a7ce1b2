//! The rows of a query over the documents that its plan leaves, and the reply that has them.

ghost use Rattle.std.specs.Prelude.{◌≡◌, ◌↔◌, ◌≤◌, ◌+◌, ◌*◌, ◌<◌, ℕ, List, [], ◌∷◌, ◌++◌, length, Some, None, IsTrue, IfOk, OnOk, true, false, map};
ghost use Rattle.std.specs.FinMap as finite;
ghost use Rattle.std.specs.List.Sorted.{IsStrictlyIncreasing};
ghost use Rattle.ax_answer_text.specs.Parts.{IsTakenWhole};
ghost use Rattle.ax_answer_text.specs.TextAnswers.{Answers, IsTo};
ghost use Rattle.ax_container.specs.Container.{Container};
ghost use Rattle.ax_delta.specs.Said.{has_number};
ghost use Rattle.ax_grammar.specs.Query.{query_in};
ghost use Rattle.ax_image.specs.Documents.{ContentsHold};
ghost use Rattle.ax_image.specs.Readable.{newest};
ghost use Rattle.ax_image_grammar.specs.Payloads.{IsDocumentText};
ghost use Rattle.ax_image_pairs.specs.Indexed.{ContentsHoldAll};
ghost use Rattle.ax_storable.specs.Storable.{IsStorable};
ghost use Rattle.ax_lines.specs.declared.refusal.Refusal as refusals;
ghost use Rattle.ax_machine.specs.Needs.{query_need};
ghost use Rattle.ax_machine.specs.Querying.{numbered, rows_of, rows_reply, rows_under};
ghost use Rattle.ax_mean.specs.declared.query.Query as queries;
ghost use Rattle.ax_needs.specs.Needs.{need_of_query};
ghost use Rattle.ax_policy.specs.Sameness.{is_orderable};
ghost use Rattle.ax_pool.specs.Frames.{free_count};
ghost use Rattle.ax_result.specs.Answers.{answer_of};
ghost use Rattle.ax_skips.specs.Chosen.{fetched as fetched_of};
ghost use Rattle.ax_skips.specs.Planned.{AreInUse};
ghost use Rattle.ax_tree.specs.CanonicalText.{canonical_text};
ghost use Rattle.ax_tree.specs.declared.tree.Tree.{Tree as TreeOf};
ghost use Rattle.ax_store.specs.Store.{AgreesUnlessFailed, store_contents, store_failed, store_slots};
ghost use Rattle.ax_write.specs.Writes.{Looks};
ghost use Rattle.ax_engine.specs.Candidates.{AreNone, AreRising, CountsOneEach, CountsTwoEach, HasAllOf, HasJustPolicies, IsAmong};
ghost use Rattle.ax_engine.specs.Stopping.{StopsAtEnough, StopsInAll, StopsInNumbers};
ghost use Rattle.ax_engine.specs.Damage.{AreRowsOfNone, CountsPlanned, IfRows, MeetsDocuments, MeetsPlanned};
ghost use Rattle.ax_engine.specs.PolicyNow.{policy_now};
ghost use Rattle.ax_engine.specs.Printing.{IsPrinted};
ghost use Rattle.ax_engine.specs.Replies.{AreRows, FitsRefusal, IsReply, own_refusal};
ghost use Rattle.ax_engine.specs.Scans.{IsReady, Scans};
ghost use Rattle.ax_engine.specs.StoreSays.{text_of};
ghost use Rattle.ax_engine.specs.Walks.{Walks};

use crate::candidates::{Candidates, candidates_of};
use crate::policy_now::current_policy;
use crate::reading::{fetch_document, next_held, text_fault};
use crate::reply::Reply;
use crate::rows::{Rows, rows_shown};
use crate::shown_documents::{document_rows, keys_of};
use ax_answer_text::TextAnswer;
use ax_base::Steps;
use ax_cache::PageCache;
use ax_disk::Disk;
use ax_excerpt::{excerpt_for_keys, shows_document};
use ax_lines::{Body, Refusal};
use ax_machine::refusal_of;
use ax_mean::{KeyedRow, Query};
use ax_parse::{ParseFault, parse};
use ax_policy::PolicyTable;
use ax_skips::laws::candidates_have_the_answer;
use ax_store::{ReadAhead, Store, StoreFault};
use ax_tree::Memory;
use std::alloc::Global;
use std::sync::ledger::Ledger;

/// The reply to a query under the policies of a table, which changes nothing: a refusal where the body's text is no
/// query, or one for whose ORDER BY the policy now keeps no order; else the rows of its answer over all documents, and how
/// many there are. It looks only at the documents that the query's plan leaves: each of them takes one step of work where it
/// is fetched, and another where it is evaluated.
///
/// `Disk` where a read failed; `Damaged` where a part of the index that was read, or the text of a document that was
/// evaluated, is outside the format, with the place of its part; `Memory`.
pub(crate) fn reply_to_query<D: Disk, C: PageCache, L: Ledger>(
    alloc: Global,
    store: &mut Store<C>,
    disk: &mut D,
    table: &PolicyTable,
    body: &Body,
    steps: &mut Steps<L>,
) -> Result<Reply, StoreFault>
    requires works { store_failed store.old ≡ false }
    requires free { 2 ≤ free_count (store_slots store.old) }
    requires agrees { AgreesUnlessFailed C.pages (D.is_honest disk.old) store.old (D.history disk.old (D.attached disk.old)) }
    ensures reply { IsTrue (D.is_honest disk.old) → (container : Container)
        → ContentsHoldAll (store_contents store.old) container → AreInUse table.now container
        → IfOk result (λ reply. IsReply reply
        (rows_reply (rows_under (policy_now table.now) (query_in body.now.params body.now.text) container))) }
    ensures fits { IfOk result (λ reply. FitsRefusal (own_refusal (policy_now table.now) (query_in body.now.params body.now.text)) reply) }
    ensures met { IsTrue (D.is_honest disk.old) → (query : queries.Query) → query_in body.now.params body.now.text ≡ Some query
        → IfOk result (λ reply. IfRows reply (MeetsPlanned table.now query (store_contents store.old))) }
    ensures few { IsTrue (D.is_honest disk.old) → (query : queries.Query) → query_in body.now.params body.now.text ≡ Some query
        → CountsPlanned table.now query (store_contents store.old) steps.old steps.new }
    ensures none { (why : refusals.Refusal) → own_refusal (policy_now table.now) (query_in body.now.params body.now.text) ≡ Some why
        → steps.new ≡ steps.old }
    ensures bound { IsTrue (D.is_honest disk.old) → (container : Container)
        → ContentsHoldAll (store_contents store.old) container → HasJustPolicies table.now container → steps.new ≤ steps.old
        + 2 * query_need (rows_under (policy_now table.now) (query_in body.now.params body.now.text) container)
        (query_in body.now.params body.now.text) container }
    ensures never_falls { steps.old ≤ steps.new }
    ensures looks { Looks C.pages (D.is_honest disk.old) result store.old store.new
        (D.history disk.old (D.attached disk.old)) (D.history disk.new (D.attached disk.new))
        (D.faults disk.old) (D.faults disk.new) }
    ensures attached { D.attached disk.new ≡ D.attached disk.old }
    ensures honest { D.is_honest disk.new ≡ D.is_honest disk.old }
{
    match query_of(alloc, body) {
        Ok(Some(query)) => reply_to_read(alloc, store, disk, table, query, steps),
        Ok(None) => Ok(Reply::Refused(Refusal::Query)),
        Err(_) => Err(StoreFault::Memory),
    }
}

/// The query that a body's text is, with its parameters; `None` where it is none.
#[tactic(auto, using(crate::proofs::QueryTexts::some_query, crate::proofs::QueryTexts::no_query))]
fn query_of(alloc: Global, body: &Body) -> Result<Option<Query>, Memory>
    ensures { IfOk result (λ query. query ≡ query_in body.now.params body.now.text) }
{
    match parse(alloc, body.text.as_str().as_bytes(), &body.params) {
        Ok(query) => Ok(Some(query)),
        Err(ParseFault::Text) => Ok(None),
        Err(ParseFault::Memory) => Err(Memory),
    }
}

/// The reply to a query that was read, under the policies of a table.
#[tactic(auto, using(crate::proofs::OwnRefusals::is_answered))]
fn reply_to_read<D: Disk, C: PageCache, L: Ledger>(
    alloc: Global,
    store: &mut Store<C>,
    disk: &mut D,
    table: &PolicyTable,
    query: Query,
    steps: &mut Steps<L>,
) -> Result<Reply, StoreFault>
    requires works { store_failed store.old ≡ false }
    requires free { 2 ≤ free_count (store_slots store.old) }
    requires agrees { AgreesUnlessFailed C.pages (D.is_honest disk.old) store.old (D.history disk.old (D.attached disk.old)) }
    ensures reply { IsTrue (D.is_honest disk.old) → (container : Container)
        → ContentsHoldAll (store_contents store.old) container → AreInUse table.now container
        → IfOk result (λ reply. IsReply reply (rows_reply (rows_under (policy_now table.now) (Some query) container))) }
    ensures fits { IfOk result (λ reply. FitsRefusal (own_refusal (policy_now table.now) (Some query)) reply) }
    ensures met { IsTrue (D.is_honest disk.old)
        → IfOk result (λ reply. IfRows reply (MeetsPlanned table.now query (store_contents store.old))) }
    ensures few { IsTrue (D.is_honest disk.old) → CountsPlanned table.now query (store_contents store.old) steps.old steps.new }
    ensures none { (why : refusals.Refusal) → own_refusal (policy_now table.now) (Some query) ≡ Some why → steps.new ≡ steps.old }
    ensures bound { IsTrue (D.is_honest disk.old) → (container : Container)
        → ContentsHoldAll (store_contents store.old) container → HasJustPolicies table.now container → steps.new ≤ steps.old
        + 2 * query_need (rows_under (policy_now table.now) (Some query) container) (Some query) container }
    ensures never_falls { steps.old ≤ steps.new }
    ensures looks { Looks C.pages (D.is_honest disk.old) result store.old store.new
        (D.history disk.old (D.attached disk.old)) (D.history disk.new (D.attached disk.new))
        (D.faults disk.old) (D.faults disk.new) }
    ensures attached { D.attached disk.new ≡ D.attached disk.old }
    ensures honest { D.is_honest disk.new ≡ D.is_honest disk.old }
{
    if let Some(refusal) = refusal_of(&query, current_policy(table)) {
        drop(query);
        return Ok(Reply::Refused(refusal));
    }
    match rows_by_plan(alloc, store, disk, table, query, steps) {
        Ok(rows) => Ok(Reply::Rows(rows)),
        Err(fault) => Err(fault),
    }
}

/// The rows of a query that is not refused: it looks at the documents that its plan leaves.
fn rows_by_plan<D: Disk, C: PageCache, L: Ledger>(
    alloc: Global,
    store: &mut Store<C>,
    disk: &mut D,
    table: &PolicyTable,
    query: Query,
    steps: &mut Steps<L>,
) -> Result<Rows, StoreFault>
    requires kept { is_orderable (policy_now table.now) query.orders ≡ true }
    requires works { store_failed store.old ≡ false }
    requires free { 2 ≤ free_count (store_slots store.old) }
    requires agrees { AgreesUnlessFailed C.pages (D.is_honest disk.old) store.old (D.history disk.old (D.attached disk.old)) }
    ensures rows { IsTrue (D.is_honest disk.old) → (container : Container)
        → ContentsHoldAll (store_contents store.old) container → AreInUse table.now container
        → IfOk result (λ rows. AreRows rows (rows_of query container)) }
    ensures met { IsTrue (D.is_honest disk.old) → IfOk result (MeetsPlanned table.now query (store_contents store.old)) }
    ensures few { IsTrue (D.is_honest disk.old) → CountsPlanned table.now query (store_contents store.old) steps.old steps.new }
    ensures bound { IsTrue (D.is_honest disk.old) → (container : Container)
        → ContentsHoldAll (store_contents store.old) container → HasJustPolicies table.now container
        → steps.new ≤ steps.old + 2 * need_of_query query container }
    ensures never_falls { steps.old ≤ steps.new }
    ensures looks { Looks C.pages (D.is_honest disk.old) result store.old store.new
        (D.history disk.old (D.attached disk.old)) (D.history disk.new (D.attached disk.new))
        (D.faults disk.old) (D.faults disk.new) }
    ensures attached { D.attached disk.new ≡ D.attached disk.old }
    ensures honest { D.is_honest disk.new ≡ D.is_honest disk.old }
{
    let found = candidates_of(alloc, store, disk, table, &query);
    let candidates = match found {
        Ok(candidates) => candidates,
        Err(fault) => {
            drop(query);
            return Err(fault);
        }
    };
    let mut ahead = ReadAhead::new(alloc);
    let rows = rows_of_query(alloc, store, disk, &mut ahead, query, &candidates, steps);
    drop(candidates);
    rows
}

/// The rows of a query over these documents, which are those of its answer over all where they have all that have rows
/// in it.
fn rows_of_query<D: Disk, C: PageCache, L: Ledger>(
    alloc: Global,
    store: &mut Store<C>,
    disk: &mut D,
    ahead: &mut ReadAhead,
    query: Query,
    candidates: &Candidates,
    steps: &mut Steps<L>,
) -> Result<Rows, StoreFault>
    requires ready { IsReady C.pages (D.is_honest disk.old) store.old ahead.old (D.history disk.old (D.attached disk.old)) }
    ensures rows { IsTrue (D.is_honest disk.old) → (container : Container) → ContentsHold (store_contents store.old) container
        → HasAllOf query candidates.now container → IfOk result (λ rows. AreRows rows (rows_of query container)) }
    ensures none { AreNone candidates.now → IfOk result (AreRowsOfNone query) }
    ensures met { IsTrue (D.is_honest disk.old)
        → AreRising candidates.now → OnOk result (MeetsDocuments (IsAmong candidates.now) query (store_contents store.old)) }
    ensures bound { CountsTwoEach candidates.now (store_contents store.old) steps.old steps.new }
    ensures stops { IsTrue (D.is_honest disk.old) → (container : Container) → ContentsHold (store_contents store.old) container
        → StopsAtEnough candidates.now query container steps.old steps.new }
    ensures none_wanted { query.limit ≡ Some 0 → steps.new ≡ steps.old }
    ensures never_falls { steps.old ≤ steps.new }
    ensures scans { Scans C.pages (D.is_honest disk.old) result store.old store.new ahead.new
        (D.history disk.old (D.attached disk.old)) (D.history disk.new (D.attached disk.new))
        (D.faults disk.old) (D.faults disk.new) }
    ensures attached { D.attached disk.new ≡ D.attached disk.old }
    ensures honest { D.is_honest disk.new ≡ D.is_honest disk.old }
{
    let Ok(is_printed) = prints_documents(alloc, &query) else {
        drop(query);
        return Err(StoreFault::Memory);
    };
    if is_printed && !candidates.is_empty() {
        return rows_of_documents(alloc, store, disk, ahead, query, candidates, steps);
    }
    let rows = answer_rows(alloc, store, disk, ahead, &query, candidates, steps);
    drop(query);
    let rows = match rows {
        Ok(rows) => rows,
        Err(fault) => return Err(fault),
    };
    match rows_shown(alloc, rows.as_slice()) {
        Ok(rows) => Ok(rows),
        Err(_) => Err(StoreFault::Memory),
    }
}

/// Whether the rows are documents that are printed as they are stored: where the query looks at all of
/// a document to find its rows, they are written as any other rows are.
#[tactic(auto, using(crate::proofs::WholeEnough::part_is_enough))]
fn prints_documents(alloc: Global, query: &Query) -> Result<bool, Memory>
    ensures { IfOk result (λ yes. (yes ≡ true) ↔ IsPrinted query.now) }
{
    if !shows_document(query) {
        return Ok(false);
    }
    match excerpt_for_keys(alloc, query) {
        Ok(Some(excerpt)) => {
            drop(excerpt);
            Ok(true)
        }
        Ok(None) => Ok(false),
        Err(_) => Err(Memory),
    }
}

/// The same of a query whose rows are documents: these are printed as they are stored, and read only as
/// far as the keys of the rows ask for.
fn rows_of_documents<D: Disk, C: PageCache, L: Ledger>(
    alloc: Global,
    store: &mut Store<C>,
    disk: &mut D,
    ahead: &mut ReadAhead,
    query: Query,
    candidates: &Candidates,
    steps: &mut Steps<L>,
) -> Result<Rows, StoreFault>
    requires printed { IsPrinted query }
    requires ready { IsReady C.pages (D.is_honest disk.old) store.old ahead.old (D.history disk.old (D.attached disk.old)) }
    ensures rows { IsTrue (D.is_honest disk.old) → (container : Container) → ContentsHold (store_contents store.old) container
        → HasAllOf query candidates.now container → IfOk result (λ rows. AreRows rows (rows_of query container)) }
    ensures met { IsTrue (D.is_honest disk.old)
        → AreRising candidates.now → OnOk result (MeetsDocuments (IsAmong candidates.now) query (store_contents store.old)) }
    ensures bound { CountsTwoEach candidates.now (store_contents store.old) steps.old steps.new }
    ensures stops { IsTrue (D.is_honest disk.old) → (container : Container) → ContentsHold (store_contents store.old) container
        → StopsAtEnough candidates.now query container steps.old steps.new }
    ensures none_wanted { query.limit ≡ Some 0 → steps.new ≡ steps.old }
    ensures never_falls { steps.old ≤ steps.new }
    ensures scans { Scans C.pages (D.is_honest disk.old) result store.old store.new ahead.new
        (D.history disk.old (D.attached disk.old)) (D.history disk.new (D.attached disk.new))
        (D.faults disk.old) (D.faults disk.new) }
    ensures attached { D.attached disk.new ≡ D.attached disk.old }
    ensures honest { D.is_honest disk.new ≡ D.is_honest disk.old }
{
    let Ok(keys) = keys_of(alloc, query) else {
        return Err(StoreFault::Memory);
    };
    let rows = answer_rows(alloc, store, disk, ahead, &keys, candidates, steps);
    drop(keys);
    match rows {
        Ok(rows) => document_rows(alloc, store, disk, ahead, rows.as_slice()),
        Err(fault) => Err(fault),
    }
}

/// The rows of the answer over these documents.
fn answer_rows<D: Disk, C: PageCache, L: Ledger>(
    alloc: Global,
    store: &mut Store<C>,
    disk: &mut D,
    ahead: &mut ReadAhead,
    query: &Query,
    candidates: &Candidates,
    steps: &mut Steps<L>,
) -> Result<Vec<KeyedRow>, StoreFault>
    requires ready { IsReady C.pages (D.is_honest disk.old) store.old ahead.old (D.history disk.old (D.attached disk.old)) }
    ensures rows { IsTrue (D.is_honest disk.old) → (container : Container) → ContentsHold (store_contents store.old) container
        → HasAllOf query.now candidates.now container
        → IfOk result (λ rows. rows.items ≡ answer_of query.now (numbered container)) }
    ensures none { AreNone candidates.now → IfOk result (λ rows. rows.items ≡ answer_of query.now []) }
    ensures met { IsTrue (D.is_honest disk.old) → AreRising candidates.now
        → OnOk result (Walks (IsAmong candidates.now) (IsTakenWhole query.now) query.now (store_contents store.old)) }
    ensures fetched { query.now.limit ≡ None
        → OnOk result (CountsOneEach candidates.now (store_contents store.old) steps.old steps.new) }
    ensures bound { CountsTwoEach candidates.now (store_contents store.old) steps.old steps.new }
    ensures stops { IsTrue (D.is_honest disk.old) → (container : Container) → ContentsHold (store_contents store.old) container
        → StopsAtEnough candidates.now query.now container steps.old steps.new }
    ensures none_wanted { query.now.limit ≡ Some 0 → steps.new ≡ steps.old }
    ensures never_falls { steps.old ≤ steps.new }
    ensures scans { Scans C.pages (D.is_honest disk.old) result store.old store.new ahead.new
        (D.history disk.old (D.attached disk.old)) (D.history disk.new (D.attached disk.new))
        (D.faults disk.old) (D.faults disk.new) }
    ensures attached { D.attached disk.new ≡ D.attached disk.old }
    ensures honest { D.is_honest disk.new ≡ D.is_honest disk.old }
{
    let Ok(mut answer) = TextAnswer::begin(alloc, query) else {
        return Err(StoreFault::Memory);
    };
    if let Err(fault) = add_candidates(alloc, store, disk, ahead, candidates, &mut answer, steps) {
        drop(answer);
        return Err(fault);
    }
    match answer.finish(alloc) {
        Ok(rows) => Ok(rows),
        Err(_) => Err(StoreFault::Memory),
    }
}

/// Takes these documents into the answer in the order of their numbers, all or as many as can change it.
fn add_candidates<D: Disk, C: PageCache, L: Ledger>(
    alloc: Global,
    store: &mut Store<C>,
    disk: &mut D,
    ahead: &mut ReadAhead,
    candidates: &Candidates,
    answer: &mut TextAnswer<'_>,
    steps: &mut Steps<L>,
) -> Result<(), StoreFault>
    requires ready { IsReady C.pages (D.is_honest disk.old) store.old ahead.old (D.history disk.old (D.attached disk.old)) }
    ensures added { IsTrue (D.is_honest disk.old) → (container : Container) → ContentsHold (store_contents store.old) container
        → (query : queries.Query) → HasAllOf query candidates.now container → Answers answer.old query []
        → OnOk result (Answers answer.new query (numbered container)) }
    ensures none { AreNone candidates.now → (query : queries.Query) → Answers answer.old query []
        → OnOk result (Answers answer.new query []) }
    ensures met { IsTrue (D.is_honest disk.old) → (query : queries.Query) → Answers answer.old query [] → AreRising candidates.now
        → OnOk result (Walks (IsAmong candidates.now) (IsTakenWhole query) query (store_contents store.old)) }
    ensures fetched { (query : queries.Query) → IsTo answer.old query → query.limit ≡ None
        → OnOk result (CountsOneEach candidates.now (store_contents store.old) steps.old steps.new) }
    ensures bound { CountsTwoEach candidates.now (store_contents store.old) steps.old steps.new }
    ensures stops { IsTrue (D.is_honest disk.old) → (container : Container) → ContentsHold (store_contents store.old) container
        → (query : queries.Query) → Answers answer.old query []
        → StopsAtEnough candidates.now query container steps.old steps.new }
    ensures none_wanted { (query : queries.Query) → Answers answer.old query [] → query.limit ≡ Some 0 → steps.new ≡ steps.old }
    ensures never_falls { steps.old ≤ steps.new }
    ensures scans { Scans C.pages (D.is_honest disk.old) result store.old store.new ahead.new
        (D.history disk.old (D.attached disk.old)) (D.history disk.new (D.attached disk.new))
        (D.faults disk.old) (D.faults disk.new) }
    ensures attached { D.attached disk.new ≡ D.attached disk.old }
    ensures honest { D.is_honest disk.new ≡ D.is_honest disk.old }
{
    match candidates {
        Candidates::All => add_documents(alloc, store, disk, ahead, answer, steps),
        Candidates::Numbers(numbers) => {
            candidates_have_the_answer();
            if numbers.as_slice().is_empty() {
                return Ok(());
            }
            add_numbered(alloc, store, disk, ahead, numbers.as_slice(), answer, steps)
        }
    }
}

/// Takes the documents of these numbers into the answer, in this order, or as many as can change it: behind the first that
/// are enough for its query none is fetched. Under a number that is not held there is none. A text that is none of a document
/// is damage, where the query reads it: then nothing is answered.
fn add_numbered<D: Disk, C: PageCache, L: Ledger>(
    alloc: Global,
    store: &mut Store<C>,
    disk: &mut D,
    ahead: &mut ReadAhead,
    numbers: &[u32],
    answer: &mut TextAnswer<'_>,
    steps: &mut Steps<L>,
) -> Result<(), StoreFault>
    requires ready { IsReady C.pages (D.is_honest disk.old) store.old ahead.old (D.history disk.old (D.attached disk.old)) }
    ensures added { IsTrue (D.is_honest disk.old) → (container : Container) → ContentsHold (store_contents store.old) container
        → (query : queries.Query) → Answers answer.old query []
        → OnOk result (Answers answer.new query (fetched_of numbers.now container)) }
    ensures met { IsTrue (D.is_honest disk.old) → (query : queries.Query) → Answers answer.old query [] → IsStrictlyIncreasing numbers.now
        → OnOk result (Walks (λ number. has_number number numbers.now ≡ true) (IsTakenWhole query) query (store_contents store.old)) }
    ensures fetched { (query : queries.Query) → IsTo answer.old query → query.limit ≡ None
        → OnOk result (steps.old + length numbers.now ≤ steps.new) }
    ensures bound { steps.new ≤ steps.old + 2 * length numbers.now }
    ensures stops { IsTrue (D.is_honest disk.old) → (container : Container) → ContentsHold (store_contents store.old) container
        → (query : queries.Query) → Answers answer.old query []
        → StopsInNumbers numbers.now query container steps.old steps.new }
    ensures none_wanted { (query : queries.Query) → Answers answer.old query [] → query.limit ≡ Some 0 → steps.new ≡ steps.old }
    ensures never_falls { steps.old ≤ steps.new }
    ensures scans { Scans C.pages (D.is_honest disk.old) result store.old store.new ahead.new
        (D.history disk.old (D.attached disk.old)) (D.history disk.new (D.attached disk.new))
        (D.faults disk.old) (D.faults disk.new) }
    ensures attached { D.attached disk.new ≡ D.attached disk.old }
    ensures honest { D.is_honest disk.new ≡ D.is_honest disk.old }
{
    for number in numbers {
        if answer.is_done() {
            return Ok(());
        }
        match add_document(alloc, store, disk, ahead, *number, answer, steps) {
            Ok(()) => {}
            Err(fault) => return Err(fault),
        }
    }
    Ok(())
}

/// Takes all documents into the answer in the order of their numbers, or as many as can change it: behind the first that are
/// enough for its query none is fetched. The first text of these that is none of a document is damage, where the query reads
/// it: then nothing is answered.
fn add_documents<D: Disk, C: PageCache, L: Ledger>(
    alloc: Global,
    store: &mut Store<C>,
    disk: &mut D,
    ahead: &mut ReadAhead,
    answer: &mut TextAnswer<'_>,
    steps: &mut Steps<L>,
) -> Result<(), StoreFault>
    requires ready { IsReady C.pages (D.is_honest disk.old) store.old ahead.old (D.history disk.old (D.attached disk.old)) }
    ensures added { IsTrue (D.is_honest disk.old) → (container : Container) → ContentsHold (store_contents store.old) container
        → (query : queries.Query) → Answers answer.old query []
        → OnOk result (Answers answer.new query (numbered container)) }
    ensures met { IsTrue (D.is_honest disk.old) → (query : queries.Query) → Answers answer.old query []
        → OnOk result (Walks (λ number. Unit {0}) (IsTakenWhole query) query (store_contents store.old)) }

    // Without a limit each document is fetched, for one step of work.
    ensures fetched { (container : Container) → ContentsHold (store_contents store.old) container
        → (query : queries.Query) → IsTo answer.old query → query.limit ≡ None
        → OnOk result (steps.old + length container.entries ≤ steps.new) }
    ensures bound { (container : Container) → ContentsHold (store_contents store.old) container → steps.new ≤ steps.old + 2 * length container.entries }
    ensures stops { IsTrue (D.is_honest disk.old) → (container : Container) → ContentsHold (store_contents store.old) container
        → (query : queries.Query) → Answers answer.old query []
        → StopsInAll query container steps.old steps.new }
    ensures none_wanted { (query : queries.Query) → Answers answer.old query [] → query.limit ≡ Some 0 → steps.new ≡ steps.old }
    ensures never_falls { steps.old ≤ steps.new }
    ensures scans { Scans C.pages (D.is_honest disk.old) result store.old store.new ahead.new
        (D.history disk.old (D.attached disk.old)) (D.history disk.new (D.attached disk.new))
        (D.faults disk.old) (D.faults disk.new) }
    ensures attached { D.attached disk.new ≡ D.attached disk.old }
    ensures honest { D.is_honest disk.new ≡ D.is_honest disk.old }
{
    let mut number = 0;
    'texts: while let Some(next) = next_held(store, number) {
        if answer.is_done() {
            return Ok(());
        }
        number = next;
        match add_document(alloc, store, disk, ahead, number, answer, steps) {
            Ok(()) => {}
            Err(fault) => return Err(fault),
        }
    }
    Ok(())
}

/// Takes the document of a number into the answer, for one step of work or two; nothing, where none is held. A text that
/// is none of a document is damage.
fn add_document<D: Disk, C: PageCache, L: Ledger>(
    alloc: Global,
    store: &mut Store<C>,
    disk: &mut D,
    ahead: &mut ReadAhead,
    number: u32,
    answer: &mut TextAnswer<'_>,
    steps: &mut Steps<L>,
) -> Result<(), StoreFault>
    requires ready { IsReady C.pages (D.is_honest disk.old) store.old ahead.old (D.history disk.old (D.attached disk.old)) }
    ensures added { IsTrue (D.is_honest disk.old) → (tree : TreeOf)
        → text_of (finite.get (store_contents store.old).documents number) ≡ Some (canonical_text tree)
        → IsStorable tree → OnOk result ((query : queries.Query) → (entries : List (ℕ × TreeOf))
        → Answers answer.old query entries → Answers answer.new query (entries ++ (number, tree) ∷ [])) }

    ensures unheld { finite.get (store_contents store.old).documents number ≡ None
        → OnOk result ((query : queries.Query) → (entries : List (ℕ × TreeOf))
        → Answers answer.old query entries → Answers answer.new query entries) }

    // Bytes that are read whole and are no document's are never taken in, and passed over by a condition alone.
    ensures outside { IsTrue (D.is_honest disk.old) → (text : List ℕ)
        → text_of (finite.get (store_contents store.old).documents number) ≡ Some text
        → (query : queries.Query) → IsTo answer.old query → IsTakenWhole query text
        → OnOk result (IsDocumentText newest text) }
    ensures asked { (query : queries.Query) → IsTo answer.old query → IsTo answer.new query }
    ensures fetched { steps.old < steps.new }
    ensures two { steps.new ≤ steps.old + 2 }
    ensures scans { Scans C.pages (D.is_honest disk.old) result store.old store.new ahead.new
        (D.history disk.old (D.attached disk.old)) (D.history disk.new (D.attached disk.new))
        (D.faults disk.old) (D.faults disk.new) }
    ensures attached { D.attached disk.new ≡ D.attached disk.old }
    ensures honest { D.is_honest disk.new ≡ D.is_honest disk.old }
{
    match fetch_document(store, disk, ahead, number, steps) {
        Ok(true) => {}
        Ok(false) => return Ok(()),
        Err(fault) => return Err(fault),
    }
    match answer.add(alloc, number, ahead.text(), steps) {
        Ok(()) => Ok(()),
        Err(fault) => Err(text_fault(store, number, fault)),
    }
}
