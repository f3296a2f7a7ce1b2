ghost use Rattle.std.specs.Prelude.{◌≡◌, ◌≢◌, ◌≤◌, ◌+◌, ℕ, List, None, Some, Err, true, IsTrue, IfErr, IfOk, OnOk, OnErr};
ghost use Rattle.std.specs.Io.KnownBytes.{Appends};
ghost use Rattle.ax_base.specs.Appends.{AppendsPrefix};
ghost use Rattle.ax_faults.specs.Faults.{Rose};
ghost use Rattle.ax_container.specs.Container.{Container};
ghost use Rattle.ax_disk.specs.model.Calls.{Idles};
ghost use Rattle.ax_engine.specs.Course.{standing_of};
ghost use Rattle.ax_engine.specs.Engine.{CountsAnswer, Holds, HoldsOver, Works};
ghost use Rattle.ax_engine.specs.PolicyNow.{policy_now};
ghost use Rattle.ax_lines.specs.Answers.{Answers};
ghost use Rattle.ax_lines.specs.Asked.{IsAsked};
ghost use Rattle.ax_lines.specs.Lines.{is_judged_at_once, line_of};
ghost use Rattle.ax_lines.specs.declared.refusal.Refusal.{Refusal as RefusalOf};
ghost use Rattle.ax_machine.specs.Needs.{most_steps};
ghost use Rattle.ax_machine.specs.ReplyTexts.{doc_text};
ghost use Rattle.ax_engine.specs.Damage.{Meets};
ghost use Rattle.ax_script.specs.Answered.{AnswersLine, BreaksLine};
ghost use Rattle.ax_script.specs.Progress.{outlets, Serves, BeginsToServe, BreaksOffWith, IsLineFault, StopsBy};
ghost use Rattle.ax_script.specs.Statuses.{CallCountsDisk};
ghost use Rattle.ax_script.specs.Replies.{IsAnswer, IsTextOf, TellsLine, WritesPart, WritesWhole, fault_status, read_status, text_or_memory, unread_refusal};

use crate::reply_lines::{ok_line, rows_text};
use crate::status::Status;
use ax_base::{Failed, Sink, Steps, write_all};
use ax_cache::PageCache;
use ax_disk::Disk;
use ax_engine::{Engine, Fault, Reply, out_of_memory_line, refusal_line, write_document};
use ax_lines::{Line, LineFault, Refusal, read_line};
use ax_tree::Memory;
use std::alloc::Global;
use std::sync::ledger::Ledger;

/// Serves one line, which comes without its newline: makes its change, durable where the disk is
/// honest, or reads what it asks for, and then writes its reply. Out of memory is a reply of its own, which
/// needs none, also where it comes while the text of rows is made; nothing of that text was
/// written then. A document is written as the engine reads it, with no copy. The errors are `DiskFault` and `Damaged`, at
/// which nothing was written, and `WriteFault`: the sink was given some prefix of the reply. A disk fault comes where a
/// call on the disk failed in this call, or in an earlier one of this engine, and a line served by an engine without a
/// fault counts a fault of the disk nowhere else. A write fault comes only where one on the sink failed in this call.
/// Over an honest disk damage comes only where the text of a document or of a policy is none that it can have, or a part of the
/// index is outside its grammar, with the place of its part, and so never over documents that are those of a container
/// with their index. A fault that the engine has afterwards is the error.
/// What is written at `Ok` is a reply that the line may have, whatever the documents are; a line that is judged at
/// once (it is too long, none of the forms, or a `READ` or `DELETE` with a bad id) is told its refusal, whatever memory there is.
pub fn serve_line<D: Disk, C: PageCache, K: Sink, L: Ledger>(
    alloc: Global,
    engine: &mut Engine<C>,
    disk: &mut D,
    line: &[u8],
    sink: &mut K,
    steps: &mut Steps<L>,
) -> Result<(), Status>
    requires works { Works C.pages (D.is_honest disk.old) engine.old (D.history disk.old (D.attached disk.old)) }
    ensures whole { IsTrue (D.is_honest disk.old) → (before : Container) → HoldsOver engine.old (D.history disk.old (D.attached disk.old)) before
        → OnOk result ((now : Container) × HoldsOver engine.new (D.history disk.new (D.attached disk.new)) now
        × Serves (IsTrue (D.is_honest disk.old)) before line.now now
        (outlets (K.written sink.old) (D.history disk.old (D.attached disk.old)) steps.old)
        (outlets (K.written sink.new) (D.history disk.new (D.attached disk.new)) steps.new)) }
    ensures prefix { IsTrue (D.is_honest disk.old) → (before : Container) → HoldsOver engine.old (D.history disk.old (D.attached disk.old)) before
        → OnErr result
        (BeginsToServe (IsTrue (D.is_honest disk.old)) before line.now
        (outlets (K.written sink.old) (D.history disk.old (D.attached disk.old)) steps.old)
        (outlets (K.written sink.new) (D.history disk.new (D.attached disk.new)) steps.new)) }
    ensures works { Works C.pages (D.is_honest disk.old) engine.new (D.history disk.new (D.attached disk.new)) }
    ensures sound { IsTrue (D.is_honest disk.old) → (before : Container) → HoldsOver engine.old (D.history disk.old (D.attached disk.old)) before
        → IfErr result BreaksOffWith }
    ensures only { IfErr result IsLineFault }
    ensures stops { engine.old.fault ≡ None → IfErr result (λ status. StopsBy (D.is_honest disk.old) status
        (D.history disk.new (D.attached disk.new))) }
    ensures disk_counted { engine.old.fault ≡ None → CallCountsDisk result (D.faults disk.old) (D.faults disk.new) }
    ensures sink_cause { result ≡ Err Status.WriteFault → Rose (K.faults sink.old) (K.faults sink.new) }
    ensures unfaulted { OnOk result (engine.new.fault ≡ engine.old.fault) }
    ensures disk_faults { D.faults disk.old ≤ D.faults disk.new }
    ensures sink_faults { K.faults sink.old ≤ K.faults sink.new }
    ensures attached { D.attached disk.new ≡ D.attached disk.old }
    ensures honest { D.is_honest disk.new ≡ D.is_honest disk.old }
    ensures steps { steps.old ≤ steps.new }

    // Over any documents what is written is the answer to the line by what the engine had when it came: that to what it asks
    // for, by its course, or its own refusal. No line gives the table another policy.
    ensures answered { OnOk result (AnswersLine (D.is_honest disk.old) line.now (standing_of engine.old.documents)
        (standing_of engine.new.documents) (K.written sink.old) (K.written sink.new)) }
    ensures policy { policy_now engine.new.documents.table ≡ policy_now engine.old.documents.table }

    // And a line that is not answered has nothing written, unless the sink failed: then a first piece of such a reply. Unless the
    // disk failed, what was there before the line, or where the sink failed what it left, is durable.
    ensures broken { engine.old.fault ≡ None → IfErr result (λ status. BreaksLine status (D.is_honest disk.old) line.now
        (standing_of engine.old.documents) (D.history disk.new (D.attached disk.new)) (K.written sink.old) (K.written sink.new)) }

    // A fault that the engine has answered is answered again, and then nothing is touched.
    ensures again { (fault : Fault) → engine.old.fault ≡ Some fault → (result ≡ Err (fault_status fault))
        × (engine.new ≡ engine.old) × (disk.new ≡ disk.old) × (sink.new ≡ sink.old) × (steps.new ≡ steps.old) }

    // And one that it has after this line is the error, whether it is of this line or was there before.
    ensures kept { (fault : Fault) → engine.new.fault ≡ Some fault → result ≡ Err (fault_status fault) }
{
    match read_line(alloc, line) {
        Ok(Line::Read(id)) => status_of_read(engine.read_into(disk, &id, sink, steps)),
        asked => {
            let answered = answer(engine, disk, line, asked, steps);
            write_answer(alloc, sink, answered)
        }
    }
}

/// What reading a document to the sink came to, as what serving its line does.
fn status_of_read(read: Result<(), Fault>) -> Result<(), Status>
    ensures { result ≡ read_status read }
{
    match read {
        Ok(()) => Ok(()),
        Err(Fault::Disk) => Err(Status::DiskFault),
        Err(Fault::Damaged { extent, at }) => Err(Status::Damaged { extent, at }),
        Err(Fault::Sink) => Err(Status::WriteFault),
    }
}

/// What the engine answers to a line that asks for this, or its refusal; once it has answered a fault, that one to every line.
fn answer<D: Disk, C: PageCache, L: Ledger>(
    engine: &mut Engine<C>,
    disk: &mut D,
    line: &[u8],
    asked: Result<Line, LineFault>,
    steps: &mut Steps<L>,
) -> Result<Reply, Fault>
    requires answers { Answers asked (line_of line.now) }
    requires asked { IfOk asked IsAsked }
    requires at_once { is_judged_at_once line.now ≡ true → (why : RefusalOf) → line_of line.now ≡ Err why
        → asked ≡ Err (LineFault.Refused why) }
    requires works { Works C.pages (D.is_honest disk.old) engine.old (D.history disk.old (D.attached disk.old)) }
    ensures tells { IsTrue (D.is_honest disk.old) → (before : Container) → HoldsOver engine.old (D.history disk.old (D.attached disk.old)) before
        → TellsLine (IsTrue (D.is_honest disk.old)) before line.now result engine.new
        (D.history disk.old (D.attached disk.old)) (D.history disk.new (D.attached disk.new)) }
    ensures works { Works C.pages (D.is_honest disk.old) engine.new (D.history disk.new (D.attached disk.new)) }
    ensures answers { IfOk result (λ reply. IsAnswer (D.is_honest disk.old) line.now reply
        (standing_of engine.old.documents) (standing_of engine.new.documents)) }
    ensures policy { policy_now engine.new.documents.table ≡ policy_now engine.old.documents.table }
    ensures met { IsTrue (D.is_honest disk.old) → engine.old.fault ≡ None
        → IfErr result (λ fault. Meets fault (D.history disk.new (D.attached disk.new)).reads) }
    ensures lists { IsTrue (D.is_honest disk.old) → engine.old.fault ≡ None → (extent at : ℕ) → result ≡ Err (Fault.Damaged extent at)
        → Idles (D.history disk.old (D.attached disk.old)) (D.history disk.new (D.attached disk.new)) }
    ensures counted { engine.old.fault ≡ None → CountsAnswer result (D.faults disk.old) (D.faults disk.new) }
    ensures unfaulted { OnOk result (engine.new.fault ≡ engine.old.fault) }
    ensures never_falls { D.faults disk.old ≤ D.faults disk.new }
    ensures attached { D.attached disk.new ≡ D.attached disk.old }
    ensures honest { D.is_honest disk.new ≡ D.is_honest disk.old }
    ensures bound { IsTrue (D.is_honest disk.old) → (before : Container) → Holds engine.old before
        → steps.new ≤ steps.old + most_steps before line.now }
    ensures steps { steps.old ≤ steps.new }
    ensures again { (fault : Fault) → engine.old.fault ≡ Some fault → (result ≡ Err fault)
        × (engine.new ≡ engine.old) × (disk.new ≡ disk.old) × (steps.new ≡ steps.old) }
    ensures kept { (fault : Fault) → engine.new.fault ≡ Some fault → result ≡ Err fault }
    ensures no_sink { result ≢ Err Fault.Sink }
{
    if let Some(fault) = engine.fault() {
        return Err(fault);
    }
    answer_line(engine, disk, line, asked, steps)
}

/// What the engine answers to a line that asks for this, or its refusal.
#[tactic(auto, using(ax_engine::proofs::PolicyHeld::same_now, crate::proofs::AnsweredLines::read_by_course))]
fn answer_line<D: Disk, C: PageCache, L: Ledger>(
    engine: &mut Engine<C>,
    disk: &mut D,
    line: &[u8],
    asked: Result<Line, LineFault>,
    steps: &mut Steps<L>,
) -> Result<Reply, Fault>
    requires answers { Answers asked (line_of line.now) }
    requires asked { IfOk asked IsAsked }
    requires at_once { is_judged_at_once line.now ≡ true → (why : RefusalOf) → line_of line.now ≡ Err why
        → asked ≡ Err (LineFault.Refused why) }
    requires works { Works C.pages (D.is_honest disk.old) engine.old (D.history disk.old (D.attached disk.old)) }
    ensures tells { IsTrue (D.is_honest disk.old) → (before : Container) → HoldsOver engine.old (D.history disk.old (D.attached disk.old)) before
        → TellsLine (IsTrue (D.is_honest disk.old)) before line.now result engine.new
        (D.history disk.old (D.attached disk.old)) (D.history disk.new (D.attached disk.new)) }
    ensures works { Works C.pages (D.is_honest disk.old) engine.new (D.history disk.new (D.attached disk.new)) }
    ensures answers { IfOk result (λ reply. IsAnswer (D.is_honest disk.old) line.now reply
        (standing_of engine.old.documents) (standing_of engine.new.documents)) }
    ensures policy { policy_now engine.new.documents.table ≡ policy_now engine.old.documents.table }
    ensures met { IsTrue (D.is_honest disk.old) → engine.old.fault ≡ None
        → IfErr result (λ fault. Meets fault (D.history disk.new (D.attached disk.new)).reads) }
    ensures lists { IsTrue (D.is_honest disk.old) → engine.old.fault ≡ None → (extent at : ℕ) → result ≡ Err (Fault.Damaged extent at)
        → Idles (D.history disk.old (D.attached disk.old)) (D.history disk.new (D.attached disk.new)) }
    ensures counted { engine.old.fault ≡ None → CountsAnswer result (D.faults disk.old) (D.faults disk.new) }
    ensures unfaulted { OnOk result (engine.new.fault ≡ engine.old.fault) }
    ensures never_falls { D.faults disk.old ≤ D.faults disk.new }
    ensures attached { D.attached disk.new ≡ D.attached disk.old }
    ensures honest { D.is_honest disk.new ≡ D.is_honest disk.old }
    ensures bound { IsTrue (D.is_honest disk.old) → (before : Container) → Holds engine.old before
        → steps.new ≤ steps.old + most_steps before line.now }
    ensures steps { steps.old ≤ steps.new }
    ensures kept { engine.old.fault ≡ None → (fault : Fault) → engine.new.fault ≡ Some fault → result ≡ Err fault }
    ensures no_sink { result ≢ Err Fault.Sink }
{
    match asked {
        Ok(asked) => engine.apply(disk, asked, steps),
        Err(fault) => Ok(Reply::Refused(refusal_of(fault))),
    }
}

/// Why a line is refused that was not read: its own refusal, or that memory ran out.
fn refusal_of(fault: LineFault) -> Refusal
    ensures { result ≡ unread_refusal fault }
{
    match fault {
        LineFault::Refused(refusal) => refusal,
        LineFault::Memory => Refusal::Memory,
    }
}

/// Writes what a line was answered, and nothing where that is a fault.
fn write_answer<K: Sink>(
    alloc: Global,
    sink: &mut K,
    answered: Result<Reply, Fault>,
) -> Result<(), Status>
    requires no_sink { answered ≢ Err Fault.Sink }
    ensures whole { OnOk result (WritesWhole answered (K.written sink.old) (K.written sink.new)) }
    ensures prefix { OnErr result (WritesPart answered (K.written sink.old) (K.written sink.new)) }
    ensures only { IfErr result IsLineFault }
    ensures disk_cause { result ≡ Err Status.DiskFault → answered ≡ Err Fault.Disk }
    ensures damage { (extent at : ℕ) → result ≡ Err (Status.Damaged extent at) → answered ≡ Err (Fault.Damaged extent at) }
    ensures fault { (fault : Fault) → answered ≡ Err fault → (result ≡ Err (fault_status fault)) × (sink.new ≡ sink.old) }
    ensures sink_cause { result ≡ Err Status.WriteFault → Rose (K.faults sink.old) (K.faults sink.new) }
    ensures sink_faults { K.faults sink.old ≤ K.faults sink.new }
{
    match answered {
        Ok(reply) => write_reply(alloc, sink, reply),
        Err(Fault::Disk) => Err(Status::DiskFault),
        Err(Fault::Damaged { extent, at }) => Err(Status::Damaged { extent, at }),
        Err(Fault::Sink) => unreachable!(),
    }
}

/// Writes a reply. Where no memory is left for the text of rows, that is what is written: out of memory. That a write was
/// made, a document or a refusal takes none.
fn write_reply<K: Sink>(alloc: Global, sink: &mut K, reply: Reply) -> Result<(), Status>
    ensures whole { OnOk result ((text : List ℕ) × IsTextOf reply text
        × Appends (K.written sink.old) (K.written sink.new) text) }
    ensures prefix { OnErr result ((text : List ℕ) × IsTextOf reply text
        × AppendsPrefix (K.written sink.old) (K.written sink.new) text) }
    ensures only { IfErr result (λ status. status ≡ Status.WriteFault) }
    ensures cause { OnErr result (Rose (K.faults sink.old) (K.faults sink.new)) }
    ensures never_falls { K.faults sink.old ≤ K.faults sink.new }
{
    match reply {
        Reply::Ok => write_text(sink, ok_line()),
        Reply::Doc(text) => write_doc(sink, text.as_slice()),
        Reply::Rows(rows) => write_made(sink, rows_text(alloc, rows)),
        Reply::Refused(refusal) => write_text(sink, refusal_line(refusal)),
    }
}

/// Writes a text that was made, or that of out of memory.
fn write_made<K: Sink>(sink: &mut K, text: Result<Vec<u8>, Memory>) -> Result<(), Status>
    ensures added { OnOk result (Appends (K.written sink.old) (K.written sink.new) (text_or_memory text)) }
    ensures failed { OnErr result (AppendsPrefix (K.written sink.old) (K.written sink.new) (text_or_memory text)) }
    ensures only { IfErr result (λ status. status ≡ Status.WriteFault) }
    ensures cause { OnErr result (Rose (K.faults sink.old) (K.faults sink.new)) }
    ensures never_falls { K.faults sink.old ≤ K.faults sink.new }
{
    match text {
        Ok(text) => write_text(sink, text.as_slice()),
        Err(_) => write_text(sink, out_of_memory_line()),
    }
}

fn write_doc<K: Sink>(sink: &mut K, text: &[u8]) -> Result<(), Status>
    ensures added { OnOk result (Appends (K.written sink.old) (K.written sink.new) (doc_text text.now)) }
    ensures failed { OnErr result (AppendsPrefix (K.written sink.old) (K.written sink.new) (doc_text text.now)) }
    ensures only { IfErr result (λ status. status ≡ Status.WriteFault) }
    ensures cause { OnErr result (Rose (K.faults sink.old) (K.faults sink.new)) }
    ensures never_falls { K.faults sink.old ≤ K.faults sink.new }
{
    match write_document(sink, text) {
        Ok(()) => Ok(()),
        Err(Failed) => Err(Status::WriteFault),
    }
}

fn write_text<K: Sink>(sink: &mut K, text: &[u8]) -> Result<(), Status>
    ensures added { OnOk result (Appends (K.written sink.old) (K.written sink.new) text.now) }
    ensures failed { OnErr result (AppendsPrefix (K.written sink.old) (K.written sink.new) text.now) }
    ensures only { IfErr result (λ status. status ≡ Status.WriteFault) }
    ensures cause { OnErr result (Rose (K.faults sink.old) (K.faults sink.new)) }
    ensures never_falls { K.faults sink.old ≤ K.faults sink.new }
{
    match write_all(sink, text) {
        Ok(()) => Ok(()),
        Err(Failed) => Err(Status::WriteFault),
    }
}
