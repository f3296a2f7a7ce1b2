//! The reply to a READ line, written to a sink.

ghost use Rattle.std.specs.Prelude.{◌≡◌, ◌≢◌, ◌≤◌, ◌+◌, ℕ, Ok, Err, Some, None, IsTrue, IfOk, IfErr, OnOk, OnErr};
ghost use Rattle.ax_base.specs.Appends.{AppendsPrefix};
ghost use Rattle.std.specs.Io.KnownBytes.{Appends};
ghost use Rattle.ax_container.specs.Container.{Container};
ghost use Rattle.ax_disk.specs.model.Calls.{Idles};
ghost use Rattle.ax_faults.specs.Faults.{Rose};
ghost use Rattle.ax_lines.specs.declared.line.Line.TheVariants as line;
ghost use Rattle.ax_machine.specs.Needs.{most_steps_of};
ghost use Rattle.ax_store.specs.Store.{store_contents};
ghost use Rattle.ax_write.specs.Writes.{SamePolicies};
ghost use Rattle.ax_engine.specs.Course.{Course, standing_of};
ghost use Rattle.ax_engine.specs.Damage.{Meets};
ghost use Rattle.ax_engine.specs.Engine.{Applies, CountsAnswer, Holds, HoldsOver, Works};
ghost use Rattle.ax_engine.specs.Judging.{Judges};
ghost use Rattle.ax_engine.specs.Reading.{IsWritten, Writes, kept_of, text_of_reply};
ghost use Rattle.ax_engine.specs.Replies.{FitsRead};

use crate::engine::{Engine, Fault, kept_fault, read};
use crate::reply::Reply;
use crate::reply_lines::{refusal_line, write_document};
use ax_base::{Failed, Sink, Steps, write_all};
use ax_cache::PageCache;
use ax_disk::Disk;
use ax_tree::Text;
use std::sync::ledger::Ledger;

impl<C: PageCache> Engine<C> {
    /// Answers a READ line to a sink, with its whole reply line: `doc `, the text of the document as it is stored, and a
    /// newline; or a refusal, `err 8 absent`, or `err 9 memory` where memory ran out, which is known before anything is
    /// written. The text is not copied. What `apply` says of its answer to the line is so of the answer that is written.
    ///
    /// `Disk` and `Damaged` as `apply` answers them: nothing was written then, and the engine keeps the fault and answers it
    /// to every line, without a call on the disk or the sink. `Sink` where a write of the sink failed, and its count of faults
    /// rose: the sink was given some prefix of the reply. No engine keeps that: its documents are as they were, and it serves on.
    #[tactic(auto, using(crate::proofs::PolicyHeld::same_policies))]
    pub fn read_into<D: Disk, K: Sink, L: Ledger>(
        &mut self,
        disk: &mut D,
        id: &Text,
        sink: &mut K,
        steps: &mut Steps<L>,
    ) -> Result<(), Fault>
        requires works { Works C.pages (D.is_honest disk.old) self.old (D.history disk.old (D.attached disk.old)) }
        ensures applies { IsTrue (D.is_honest disk.old) → (before : Container)
            → HoldsOver self.old (D.history disk.old (D.attached disk.old)) before
            → Writes (λ answer. Applies (IsTrue (D.is_honest disk.old)) before (line.Read id.now) answer self.new
            (D.history disk.old (D.attached disk.old)) (D.history disk.new (D.attached disk.new)))
            result (K.written sink.old) (K.written sink.new) }
        ensures may_reply { Writes (λ answer. IfOk answer FitsRead) result (K.written sink.old) (K.written sink.new) }
        ensures judged { IsTrue (D.is_honest disk.old) → self.old.fault ≡ None
            → Writes (λ answer. IfOk answer (Judges (line.Read id.now) self.old.documents.ids (store_contents self.old.documents.store)))
            result (K.written sink.old) (K.written sink.new) }
        ensures course { Writes (λ answer. IfOk answer (λ reply. Course (D.is_honest disk.old) (line.Read id.now) reply
            (standing_of self.old.documents) (standing_of self.new.documents))) result (K.written sink.old) (K.written sink.new) }
        ensures met { IsTrue (D.is_honest disk.old) → self.old.fault ≡ None
            → IfErr result (λ fault. Meets fault (D.history disk.new (D.attached disk.new)).reads) }
        ensures lists { IsTrue (D.is_honest disk.old) → Idles (D.history disk.old (D.attached disk.old)) (D.history disk.new (D.attached disk.new)) }
        ensures works { Works C.pages (D.is_honest disk.old) self.new (D.history disk.new (D.attached disk.new)) }
        ensures policies { SamePolicies self.old.documents.table self.new.documents.table }

        // A fault that was told is kept unless it is one of the sink, and told again, with no call on the disk or the sink.
        ensures kept { self.new.fault ≡ kept_of result }
        ensures again { (fault : Fault) → self.old.fault ≡ Some fault
            → (result ≡ Err fault) × (self.new ≡ self.old) × (disk.new ≡ disk.old) × (sink.new ≡ sink.old) × (steps.new ≡ steps.old) }

        ensures counted { self.old.fault ≡ None
            → Writes (λ answer. CountsAnswer answer (D.faults disk.old) (D.faults disk.new)) result (K.written sink.old) (K.written sink.new) }
        ensures sink_cause { result ≡ Err Fault.Sink → Rose (K.faults sink.old) (K.faults sink.new) }
        ensures sink_unwritten { (fault : Fault) → result ≡ Err fault → fault ≢ Fault.Sink → sink.new ≡ sink.old }
        ensures sink_faults { K.faults sink.old ≤ K.faults sink.new }
        ensures never_falls { D.faults disk.old ≤ D.faults disk.new }
        ensures attached { D.attached disk.new ≡ D.attached disk.old }
        ensures honest { D.is_honest disk.new ≡ D.is_honest disk.old }
        ensures bound { IsTrue (D.is_honest disk.old) → (before : Container) → Holds self.old before
            → steps.new ≤ steps.old + most_steps_of before (Ok (line.Read id.now)) }
        ensures steps { steps.old ≤ steps.new }
    {
        if let Some(fault) = self.fault {
            return Err(fault);
        }
        let answered = read(&mut self.documents, disk, id, steps);
        self.fault = kept_fault(&answered);
        write_answered(sink, answered)
    }
}

/// Writes what a READ line was answered, and nothing where that is a fault.
fn write_answered<K: Sink>(sink: &mut K, answered: Result<Reply, Fault>) -> Result<(), Fault>
    requires fits { IfOk answered FitsRead }
    requires no_sink { answered ≢ Err Fault.Sink }
    ensures written { IsWritten answered result (K.written sink.old) (K.written sink.new) }
    ensures cause { result ≡ Err Fault.Sink → Rose (K.faults sink.old) (K.faults sink.new) }
    ensures unwritten { (fault : Fault) → result ≡ Err fault → fault ≢ Fault.Sink → sink.new ≡ sink.old }
    ensures never_falls { K.faults sink.old ≤ K.faults sink.new }
{
    match answered {
        Ok(reply) => write_reply(sink, reply),
        Err(fault) => Err(fault),
    }
}

/// Writes the line of a document, or of a refusal.
fn write_reply<K: Sink>(sink: &mut K, reply: Reply) -> Result<(), Fault>
    requires fits { FitsRead reply }
    ensures added { OnOk result (Appends (K.written sink.old) (K.written sink.new) (text_of_reply reply)) }
    ensures failed { OnErr result (AppendsPrefix (K.written sink.old) (K.written sink.new) (text_of_reply reply)) }
    ensures only { IfErr result (λ fault. fault ≡ Fault.Sink) }
    ensures cause { OnErr result (Rose (K.faults sink.old) (K.faults sink.new)) }
    ensures never_falls { K.faults sink.old ≤ K.faults sink.new }
{
    let written = match reply {
        Reply::Doc(text) => write_document(sink, text.as_slice()),
        Reply::Refused(refusal) => write_all(sink, refusal_line(refusal)),
        Reply::Ok | Reply::Rows(_) => unreachable!(),
    };
    match written {
        Ok(()) => Ok(()),
        Err(Failed) => Err(Fault::Sink),
    }
}
