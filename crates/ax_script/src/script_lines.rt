ghost use Rattle.std.specs.Prelude.{◌≡◌, ◌++◌, ◌^◌, ◌<◌, ◌≤◌, ◌⊎◌, [], length};
ghost use Rattle.std.specs.Prelude.{OnOk, OnErr, None, Some, Err, IsTrue, IfErr};
ghost use Rattle.ax_faults.specs.Faults.{Rose};
ghost use Rattle.ax_container.specs.Container.{Container};
ghost use Rattle.ax_engine.specs.Course.{standing_of};
ghost use Rattle.ax_engine.specs.Engine.{HoldsOver, Works};
ghost use Rattle.ax_engine.specs.PolicyNow.{policy_now};
ghost use Rattle.ax_engine.specs.declared.engine.Fault.{Fault};
ghost use Rattle.ax_script.specs.Progress.{outlets, Serves, BeginsToServe, ServesLines, BeginsLines, ServesLast, BeginsLast};
ghost use Rattle.ax_script.specs.Progress.{Ends, BreaksOffWith, EndsServing, IsOfServing, StopsBy};
ghost use Rattle.ax_script.specs.Answered.{AnswersLast, AnswersLine, AnswersLines, BreaksFirst, BreaksLine, BreaksLines, IsDurable, TellsAnswered};
ghost use Rattle.ax_script.specs.Replies.{fault_status};
ghost use Rattle.ax_script.specs.Statuses.{CallCountsDisk, CountsDisk};
ghost use Rattle.ax_lines.specs.ScriptLines.{IsOneLine, last_line};

use crate::serving::serve_line;
use crate::status::Status;
use ax_base::{Sink, Source, Steps};
use ax_cache::PageCache;
use ax_disk::Disk;
use ax_engine::Engine;
use ax_lines::first_line;
use std::alloc::{AllocError, Global};
use std::sync::ledger::Ledger;

/// A run that takes more bytes than these ends as `Long`.
const MOST_INPUT: u64 = 1 << 40;

/// Reads the source to its end, piece by piece into `buffer`, and serves each line as soon as its
/// newline has come, and the last piece at the end. A fault of the engine ends it, and is its status.
pub fn serve_source<D: Disk, C: PageCache, S: Source, K: Sink, L: Ledger>(
    alloc: Global,
    engine: &mut Engine<C>,
    disk: &mut D,
    source: &mut S,
    sink: &mut K,
    steps: &mut Steps<L>,
    buffer: &mut [u8],
) -> Status
    requires some { 0 < length buffer.old }
    requires few { length buffer.old ≤ 2 ^ 20 }
    requires works { Works C.pages (D.is_honest disk.old) engine.old (D.history disk.old (D.attached disk.old)) }
    requires unfaulted { engine.old.fault ≡ None }
    ensures script { IsTrue (D.is_honest disk.old) → (before : Container) → HoldsOver engine.old (D.history disk.old (D.attached disk.old)) before
        → Ends (IsTrue (D.is_honest disk.old)) before result
        (record { remaining = S.rest source.old; written = K.written sink.old; steps = steps.old })
        (record { remaining = S.rest source.new; written = K.written sink.new; steps = steps.new })
        (D.history disk.old (D.attached disk.old)) (D.history disk.new (D.attached disk.new)) }
    ensures disk_counted { CountsDisk result (D.faults disk.old) (D.faults disk.new) }
    ensures read_fault { result ≡ Status.ReadFault
        → Rose (S.faults source.old) (S.faults source.new) }
    ensures write_fault { result ≡ Status.WriteFault
        → Rose (K.faults sink.old) (K.faults sink.new) }
    ensures disk_faults { D.faults disk.old ≤ D.faults disk.new }
    ensures source_faults { S.faults source.old ≤ S.faults source.new }
    ensures sink_faults { K.faults sink.old ≤ K.faults sink.new }
    ensures attached { D.attached disk.new ≡ D.attached disk.old }
    ensures honest { D.is_honest disk.new ≡ D.is_honest disk.old }
    ensures steps { steps.old ≤ steps.new }
    ensures sound { IsTrue (D.is_honest disk.old) → (before : Container) → HoldsOver engine.old (D.history disk.old (D.attached disk.old)) before
        → IsOfServing result }
    ensures of_serving { EndsServing (D.is_honest disk.old) result (D.history disk.new (D.attached disk.new)) }
    ensures answered { TellsAnswered (D.is_honest disk.old) (standing_of engine.old.documents)
        (D.history disk.new (D.attached disk.new)) result
        (record { remaining = S.rest source.old; written = K.written sink.old; steps = steps.old })
        (record { remaining = S.rest source.new; written = K.written sink.new; steps = steps.new }) }
    ensures kept { (fault : Fault) → engine.new.fault ≡ Some fault → result ≡ fault_status fault }
{
    let mut pending = Vec::new(alloc);
    let mut taken = 0u64;
    'pieces: loop {
        let Ok(count) = source.read_some(buffer) else {
            return Status::ReadFault;
        };
        if count == 0 {
            return serve_last(alloc, engine, disk, pending.as_slice(), sink, steps);
        }
        taken += count as u64;
        if taken > MOST_INPUT {
            return Status::Long;
        }
        let served = serve_piece(
            alloc,
            engine,
            disk,
            &mut pending,
            &buffer[..count],
            sink,
            steps,
        );
        if let Err(status) = served {
            return status;
        }
    }
}

/// Serves the lines whose newline is in the piece; the first of them begins with what is pending.
/// What follows the last newline is pending then.
fn serve_piece<D: Disk, C: PageCache, K: Sink, L: Ledger>(
    alloc: Global,
    engine: &mut Engine<C>,
    disk: &mut D,
    pending: &mut Vec<u8>,
    piece: &[u8],
    sink: &mut K,
    steps: &mut Steps<L>,
) -> Result<(), Status>
    requires line { IsOneLine pending.old.items }
    requires works { Works C.pages (D.is_honest disk.old) engine.old (D.history disk.old (D.attached disk.old)) }
    requires unfaulted { engine.old.fault ≡ None }
    ensures ok { IsTrue (D.is_honest disk.old) → (before : Container) → HoldsOver engine.old (D.history disk.old (D.attached disk.old)) before
        → OnOk result ((now : Container) × HoldsOver engine.new (D.history disk.new (D.attached disk.new)) now
        × ServesLines (IsTrue (D.is_honest disk.old)) before (pending.old.items ++ piece.now) now pending.new.items
        (outlets (K.written sink.old) (D.history disk.old (D.attached disk.old)) steps.old)
        (outlets (K.written sink.new) (D.history disk.new (D.attached disk.new)) steps.new)) }
    ensures err { IsTrue (D.is_honest disk.old) → (before : Container) → HoldsOver engine.old (D.history disk.old (D.attached disk.old)) before
        → OnErr result (BeginsLines (IsTrue (D.is_honest disk.old)) before (pending.old.items ++ piece.now)
        (outlets (K.written sink.old) (D.history disk.old (D.attached disk.old)) steps.old)
        (outlets (K.written sink.new) (D.history disk.new (D.attached disk.new)) steps.new)) }
    ensures works { OnOk result (Works C.pages (D.is_honest disk.old) engine.new (D.history disk.new (D.attached disk.new))) }
    ensures unfaulted { OnOk result (engine.new.fault ≡ None) }
    ensures kept { (fault : Fault) → engine.new.fault ≡ Some fault → result ≡ Err (fault_status fault) }
    ensures line { OnOk result (IsOneLine pending.new.items) }
    ensures answered { OnOk result (AnswersLines (D.is_honest disk.old) (pending.old.items ++ piece.now) pending.new.items
        (standing_of engine.old.documents) (standing_of engine.new.documents) (K.written sink.old) (K.written sink.new)) }
    ensures broken { IfErr result (λ status. BreaksLines status (D.is_honest disk.old) (pending.old.items ++ piece.now)
        (standing_of engine.old.documents) (D.history disk.new (D.attached disk.new)) (K.written sink.old) (K.written sink.new)) }
    ensures policy { policy_now engine.new.documents.table ≡ policy_now engine.old.documents.table }
    ensures sound { IsTrue (D.is_honest disk.old) → (before : Container) → HoldsOver engine.old (D.history disk.old (D.attached disk.old)) before
        → IfErr result BreaksOffWith }
    ensures only { IfErr result (λ status. StopsBy (D.is_honest disk.old) status
        (D.history disk.new (D.attached disk.new))) }
    ensures disk_counted { CallCountsDisk result (D.faults disk.old) (D.faults disk.new) }
    ensures sink_cause { result ≡ Err Status.WriteFault → Rose (K.faults sink.old) (K.faults sink.new) }
    ensures disk_faults { D.faults disk.old ≤ D.faults disk.new }
    ensures sink_faults { K.faults sink.old ≤ K.faults sink.new }
    ensures attached { D.attached disk.new ≡ D.attached disk.old }
    ensures honest { D.is_honest disk.new ≡ D.is_honest disk.old }
    ensures steps { steps.old ≤ steps.new }
{
    let mut rest = piece;
    'lines: while let Some((head, tail)) = first_line(rest) {
        if let Err(status) = serve_head(alloc, engine, disk, pending, head, sink, steps) {
            return Err(status);
        }
        rest = tail;
    }
    match put_behind(pending, rest) {
        Ok(()) => Ok(()),
        Err(_) => Err(Status::Memory),
    }
}

/// Puts a part of a line behind what is pending of it.
fn put_behind(pending: &mut Vec<u8>, part: &[u8]) -> Result<(), AllocError>
    ensures items { OnOk result (pending.new.items ≡ pending.old.items ++ part.now) }
{
    pending.extend_from_slice(part)
}

/// Serves the line that is pending and ends with `head`, whose newline has come. A line of which
/// nothing is pending is served where it stands.
fn serve_head<D: Disk, C: PageCache, K: Sink, L: Ledger>(
    alloc: Global,
    engine: &mut Engine<C>,
    disk: &mut D,
    pending: &mut Vec<u8>,
    head: &[u8],
    sink: &mut K,
    steps: &mut Steps<L>,
) -> Result<(), Status>
    requires works { Works C.pages (D.is_honest disk.old) engine.old (D.history disk.old (D.attached disk.old)) }
    requires unfaulted { engine.old.fault ≡ None }
    ensures ok { IsTrue (D.is_honest disk.old) → (before : Container) → HoldsOver engine.old (D.history disk.old (D.attached disk.old)) before
        → OnOk result ((now : Container) × HoldsOver engine.new (D.history disk.new (D.attached disk.new)) now
        × Serves (IsTrue (D.is_honest disk.old)) before (pending.old.items ++ head.now) now
        (outlets (K.written sink.old) (D.history disk.old (D.attached disk.old)) steps.old)
        (outlets (K.written sink.new) (D.history disk.new (D.attached disk.new)) steps.new)) }
    ensures empty { OnOk result (pending.new.items ≡ []) }
    ensures answered { OnOk result (AnswersLine (D.is_honest disk.old) (pending.old.items ++ head.now)
        (standing_of engine.old.documents) (standing_of engine.new.documents) (K.written sink.old) (K.written sink.new)) }
    ensures broken { IfErr result (λ status. BreaksLine status (D.is_honest disk.old) (pending.old.items ++ head.now)
        (standing_of engine.old.documents) (D.history disk.new (D.attached disk.new)) (K.written sink.old) (K.written sink.new)) }
    ensures policy { policy_now engine.new.documents.table ≡ policy_now engine.old.documents.table }
    ensures err { IsTrue (D.is_honest disk.old) → (before : Container) → HoldsOver engine.old (D.history disk.old (D.attached disk.old)) before
        → OnErr result (BeginsToServe (IsTrue (D.is_honest disk.old)) before (pending.old.items ++ head.now)
        (outlets (K.written sink.old) (D.history disk.old (D.attached disk.old)) steps.old)
        (outlets (K.written sink.new) (D.history disk.new (D.attached disk.new)) steps.new)) }
    ensures works { OnOk result (Works C.pages (D.is_honest disk.old) engine.new (D.history disk.new (D.attached disk.new))) }
    ensures unfaulted { OnOk result (engine.new.fault ≡ None) }
    ensures kept { (fault : Fault) → engine.new.fault ≡ Some fault → result ≡ Err (fault_status fault) }
    ensures sound { IsTrue (D.is_honest disk.old) → (before : Container) → HoldsOver engine.old (D.history disk.old (D.attached disk.old)) before
        → IfErr result BreaksOffWith }
    ensures only { IfErr result (λ status. StopsBy (D.is_honest disk.old) status
        (D.history disk.new (D.attached disk.new))) }
    ensures disk_counted { CallCountsDisk result (D.faults disk.old) (D.faults disk.new) }
    ensures sink_cause { result ≡ Err Status.WriteFault → Rose (K.faults sink.old) (K.faults sink.new) }
    ensures disk_faults { D.faults disk.old ≤ D.faults disk.new }
    ensures sink_faults { K.faults sink.old ≤ K.faults sink.new }
    ensures attached { D.attached disk.new ≡ D.attached disk.old }
    ensures honest { D.is_honest disk.new ≡ D.is_honest disk.old }
    ensures steps { steps.old ≤ steps.new }
{
    if pending.is_empty() {
        return serve_line(alloc, engine, disk, head, sink, steps);
    }
    let Ok(()) = put_behind(pending, head) else {
        return Err(Status::Memory);
    };
    let served = serve_line(alloc, engine, disk, pending.as_slice(), sink, steps);
    if let Err(status) = served {
        return Err(status);
    }
    pending.clear();
    Ok(())
}

/// Serves the last piece of the input, which is a line unless it is empty.
fn serve_last<D: Disk, C: PageCache, K: Sink, L: Ledger>(
    alloc: Global,
    engine: &mut Engine<C>,
    disk: &mut D,
    pending: &[u8],
    sink: &mut K,
    steps: &mut Steps<L>,
) -> Status
    requires works { Works C.pages (D.is_honest disk.old) engine.old (D.history disk.old (D.attached disk.old)) }
    requires unfaulted { engine.old.fault ≡ None }
    ensures done { IsTrue (D.is_honest disk.old) → (before : Container) → HoldsOver engine.old (D.history disk.old (D.attached disk.old)) before
        → result ≡ Status.Done → ServesLast (IsTrue (D.is_honest disk.old)) before pending.now
        (outlets (K.written sink.old) (D.history disk.old (D.attached disk.old)) steps.old)
        (outlets (K.written sink.new) (D.history disk.new (D.attached disk.new)) steps.new) }
    ensures prefix { IsTrue (D.is_honest disk.old) → (before : Container) → HoldsOver engine.old (D.history disk.old (D.attached disk.old)) before
        → BreaksOffWith result → BeginsLast (IsTrue (D.is_honest disk.old)) before pending.now
        (outlets (K.written sink.old) (D.history disk.old (D.attached disk.old)) steps.old)
        (outlets (K.written sink.new) (D.history disk.new (D.attached disk.new)) steps.new) }
    ensures sound { IsTrue (D.is_honest disk.old) → (before : Container) → HoldsOver engine.old (D.history disk.old (D.attached disk.old)) before
        → (result ≡ Status.Done) ⊎ BreaksOffWith result }
    ensures only { (result ≡ Status.Done) ⊎ StopsBy (D.is_honest disk.old) result
        (D.history disk.new (D.attached disk.new)) }
    ensures answered { result ≡ Status.Done → AnswersLast (D.is_honest disk.old) pending.now
        (standing_of engine.old.documents) (standing_of engine.new.documents) (K.written sink.old) (K.written sink.new) }
    ensures durable { result ≡ Status.Done
        → IsDurable (D.is_honest disk.old) (standing_of engine.new.documents) (D.history disk.new (D.attached disk.new)) }
    ensures broken { (result ≡ Status.Done) ⊎ BreaksFirst result (D.is_honest disk.old) (last_line pending.now)
        (standing_of engine.old.documents) (D.history disk.new (D.attached disk.new)) (K.written sink.old) (K.written sink.new) }
    ensures kept { (fault : Fault) → engine.new.fault ≡ Some fault → result ≡ fault_status fault }
    ensures disk_counted { CountsDisk result (D.faults disk.old) (D.faults disk.new) }
    ensures sink_cause { result ≡ Status.WriteFault → Rose (K.faults sink.old) (K.faults sink.new) }
    ensures disk_faults { D.faults disk.old ≤ D.faults disk.new }
    ensures sink_faults { K.faults sink.old ≤ K.faults sink.new }
    ensures attached { D.attached disk.new ≡ D.attached disk.old }
    ensures honest { D.is_honest disk.new ≡ D.is_honest disk.old }
    ensures steps { steps.old ≤ steps.new }
{
    if pending.is_empty() {
        return Status::Done;
    }
    match serve_line(alloc, engine, disk, pending, sink, steps) {
        Ok(()) => Status::Done,
        Err(status) => status,
    }
}
