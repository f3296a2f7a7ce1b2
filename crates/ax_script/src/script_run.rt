ghost use Rattle.std.specs.Prelude.{◌≡◌, ◌≢◌, ◌↔◌, ◌≤◌, ◌⊎◌, ℕ, None, IsTrue, true, false};
ghost use Rattle.ax_area.specs.Image.{IsDamaged, IsNewer};
ghost use Rattle.ax_cache.specs.PageLaws.{no_pages};
ghost use Rattle.ax_disk.specs.declared.extent.Extent.TheVariants.{Root};
ghost use Rattle.ax_faults.specs.Faults.{Rose};
ghost use Rattle.ax_container.specs.Container.{Container};
ghost use Rattle.ax_script.specs.CommandLine.{is_run as is_run_lem, store_word};
ghost use Rattle.ax_engine.specs.Engine.{HoldsOver, Works};
ghost use Rattle.ax_documents.specs.Opening.{IsStore, IsWithin};
ghost use Rattle.ax_image.specs.Readable.{newest};
ghost use Rattle.ax_pages.specs.Area.{extent_number};
ghost use Rattle.ax_engine.specs.Course.{Standing, standing_of};
ghost use Rattle.ax_script.specs.Answered.{TellsAnswered, TellsOpened};
ghost use Rattle.ax_script.specs.DiskScript.{RunsOnDisk};
ghost use Rattle.ax_script.specs.Opening.{IsEndUnlessDisk, Refuses, TellsServed};
ghost use Rattle.ax_script.specs.Progress.{Ends, EndsServing, IsOfServing};
ghost use Rattle.ax_script.specs.Statuses.{CountsDisk};

use crate::command_line::{is_run, store_name};
use crate::opening::open_named;
use crate::script_lines::serve_source;
use crate::status::Status;
use ax_base::{Sink, Source, Steps};
use ax_cache::PageCache;
use ax_disk::Disk;
use ax_engine::Engine;
use ax_store::{LruPages, NoPages};
use std::alloc::Global;
use std::sync::ledger::Ledger;

/// How many bytes of the input are read at once, at most.
const PIECE: usize = 65_536;

/// How many parts the cache of a store has room for.
const CACHED_PARTS: u32 = 256;

/// Runs the script that the source holds over the store on the disk that the words name, and writes
/// the reply of each line to the sink, once its change is durable. `words` are those of the command
/// line after the program's name.
///
/// The statuses and their causes: `Words` exactly where the words are not `run STORE`, and then
/// nothing is touched; `DiskFault` exactly where the disk counted a fault in this run, and `ReadFault` and
/// `WriteFault` only where a call on the source or the sink failed in it. Over an honest disk, but that it
/// may fail, `Newer` exactly where the store is of that later version, and `Damaged` with its place where
/// the root is damaged, whatever memory there is; the store is then as it was. Else `Damaged` only where the
/// store is outside the format at that offset, or its policies make no table, and it is as it was, or where a store that
/// was opened has at that place, as the run has left it, the text of a document or of a policy that is none, or a part of the index that is
/// outside its grammar; `Done`, `ReadFault`,
/// `WriteFault` and `Long` only where the store had contents; where it also stands for a container, `Long`
/// exactly where more than 2^40 bytes were taken, and without a failed call only `Done`, `Memory` or `Long`.
/// `Memory` comes where memory ran out outside the serving of a line; at `Done` all input was read and
/// served. Over any store, also one whose documents are those of no container, `Done` comes only where each
/// line that was taken has an answer by what the engine had behind the line before it, and the first one by what opening
/// found: no write and no read passes over damage that it reads, and a query as far as `Engine::apply` says. `Long` comes only
/// where more than 2^40 bytes were taken.
pub fn run<D: Disk, S: Source, K: Sink, L: Ledger>(
    alloc: Global,
    words: &[String],
    disk: &mut D,
    source: &mut S,
    sink: &mut K,
    steps: &mut Steps<L>,
) -> Status
    ensures words { (result ≡ Status.Words) ↔ (is_run_lem words.now ≡ false) }
    ensures untouched { result ≡ Status.Words
        → (disk.new ≡ disk.old) × (source.new ≡ source.old) × (sink.new ≡ sink.old) }

    // Over an honest disk whose store stands for a container: what was written is the text of a run
    // of the lines that were taken, whole at `Done`; no more steps of work were counted than these
    // lines may count; and at each moment a crash leaves the container after some of these lines.
    ensures script { IsTrue (D.is_honest disk.old) → (before : Container)
        → IsStore before (D.history disk.old (D.store_named (store_word words.now)))
        → RunsOnDisk before result
        (record { remaining = S.rest source.old; written = K.written sink.old; steps = steps.old })
        (record { remaining = S.rest source.new; written = K.written sink.new; steps = steps.new })
        (D.history disk.old (D.store_named (store_word words.now)))
        (D.history disk.new (D.store_named (store_word words.now))) }

    // Over any store: at `Done` each line has a reply that is an answer to it by what the engine had behind the line before it,
    // the first of them by what opening gave: by its course, or its own refusal, or that memory ran out. A run that breaks off
    // has answered the first of the lines so, and of the next has written nothing, or where the sink failed a first piece of
    // such a reply; `Long` has its cause. Unless the disk failed, each image that a crash may leave over an honest disk says the
    // contents that the last of the lines left of which anything was written. Only where the store was not opened, or memory ran out
    // before a line was taken, may the first line's finding be tied to nothing, and then no line was taken.
    ensures answered { (was : Standing) × TellsAnswered (D.is_honest disk.old) was
        (D.history disk.new (D.store_named (store_word words.now))) result
        (record { remaining = S.rest source.old; written = K.written sink.old; steps = steps.old })
        (record { remaining = S.rest source.new; written = K.written sink.new; steps = steps.new })
        × TellsOpened result (D.is_honest disk.old) (D.history disk.old (D.store_named (store_word words.now))).reads was
        (record { remaining = S.rest source.old; written = K.written sink.old; steps = steps.old })
        (record { remaining = S.rest source.new; written = K.written sink.new; steps = steps.new }) }

    // Each status has its cause, and the disk counts a fault only where that is the status.
    ensures disk_fault { result ≡ Status.DiskFault → Rose (D.faults disk.old) (D.faults disk.new) }
    ensures disk_uncounted { result ≢ Status.DiskFault → D.faults disk.new ≡ D.faults disk.old }
    ensures read_fault { result ≡ Status.ReadFault
        → Rose (S.faults source.old) (S.faults source.new) }
    ensures write_fault { result ≡ Status.WriteFault
        → Rose (K.faults sink.old) (K.faults sink.new) }
    ensures refused { IsTrue (D.is_honest disk.old) → Refuses result
        (D.history disk.old (D.store_named (store_word words.now)))
        (D.history disk.new (D.store_named (store_word words.now))) }

    // A damaged root and a later version are told unless the disk fails, whatever memory there is.
    ensures damaged_root { is_run_lem words.now ≡ true → IsTrue (D.is_honest disk.old) → (at : ℕ)
        → IsDamaged newest (D.history disk.old (D.store_named (store_word words.now))).reads Root at
        → IsEndUnlessDisk (Status.Damaged (extent_number Root) at) result }
    ensures newer { is_run_lem words.now ≡ true → IsTrue (D.is_honest disk.old) → (version : ℕ)
        → IsNewer newest version (D.history disk.old (D.store_named (store_word words.now))).reads
        → IsEndUnlessDisk (Status.Newer version) result }

    // And a store that has no contents, since it is damaged or of a later version, is not served.
    ensures within { IsTrue (D.is_honest disk.old) → TellsServed result
        → IsWithin (D.history disk.old (D.store_named (store_word words.now))).reads }

    ensures complete { is_run_lem words.now ≡ true → IsTrue (D.is_honest disk.old) → (before : Container)
        → IsStore before (D.history disk.old (D.store_named (store_word words.now)))
        → ¬ Rose (D.faults disk.old) (D.faults disk.new)
        → ¬ Rose (S.faults source.old) (S.faults source.new)
        → ¬ Rose (K.faults sink.old) (K.faults sink.new) → (result ≡ Status.Done)
        ⊎ (result ≡ Status.Memory) ⊎ (result ≡ Status.Long) }

    ensures disk_faults { D.faults disk.old ≤ D.faults disk.new }
    ensures source_faults { S.faults source.old ≤ S.faults source.new }
    ensures sink_faults { K.faults sink.old ≤ K.faults sink.new }
    ensures honest { D.is_honest disk.new ≡ D.is_honest disk.old }

    ensures steps { steps.old ≤ steps.new }
{
    if !is_run(words) {
        return Status::Words;
    }
    serve(alloc, words, disk, source, sink, steps)
}

/// Opens the store that the words name, and serves the source over it.
fn serve<D: Disk, S: Source, K: Sink, L: Ledger>(
    alloc: Global,
    words: &[String],
    disk: &mut D,
    source: &mut S,
    sink: &mut K,
    steps: &mut Steps<L>,
) -> Status
    ensures script { IsTrue (D.is_honest disk.old) → (before : Container)
        → IsStore before (D.history disk.old (D.store_named (store_word words.now)))
        → RunsOnDisk before result
        (record { remaining = S.rest source.old; written = K.written sink.old; steps = steps.old })
        (record { remaining = S.rest source.new; written = K.written sink.new; steps = steps.new })
        (D.history disk.old (D.store_named (store_word words.now))) (D.history disk.new (D.store_named (store_word words.now))) }
    ensures answered { (was : Standing) × TellsAnswered (D.is_honest disk.old) was
        (D.history disk.new (D.store_named (store_word words.now))) result
        (record { remaining = S.rest source.old; written = K.written sink.old; steps = steps.old })
        (record { remaining = S.rest source.new; written = K.written sink.new; steps = steps.new })
        × TellsOpened result (D.is_honest disk.old) (D.history disk.old (D.store_named (store_word words.now))).reads was
        (record { remaining = S.rest source.old; written = K.written sink.old; steps = steps.old })
        (record { remaining = S.rest source.new; written = K.written sink.new; steps = steps.new }) }
    ensures disk_counted { CountsDisk result (D.faults disk.old) (D.faults disk.new) }
    ensures read_fault { result ≡ Status.ReadFault
        → Rose (S.faults source.old) (S.faults source.new) }
    ensures write_fault { result ≡ Status.WriteFault
        → Rose (K.faults sink.old) (K.faults sink.new) }
    ensures refused { IsTrue (D.is_honest disk.old) → Refuses result
        (D.history disk.old (D.store_named (store_word words.now))) (D.history disk.new (D.store_named (store_word words.now))) }
    ensures damaged_root { IsTrue (D.is_honest disk.old) → (at : ℕ)
        → IsDamaged newest (D.history disk.old (D.store_named (store_word words.now))).reads Root at
        → IsEndUnlessDisk (Status.Damaged (extent_number Root) at) result }
    ensures newer { IsTrue (D.is_honest disk.old) → (version : ℕ)
        → IsNewer newest version (D.history disk.old (D.store_named (store_word words.now))).reads
        → IsEndUnlessDisk (Status.Newer version) result }
    ensures within { IsTrue (D.is_honest disk.old) → TellsServed result
        → IsWithin (D.history disk.old (D.store_named (store_word words.now))).reads }
    ensures disk_faults { D.faults disk.old ≤ D.faults disk.new }
    ensures source_faults { S.faults source.old ≤ S.faults source.new }
    ensures sink_faults { K.faults sink.old ≤ K.faults sink.new }
    ensures honest { D.is_honest disk.new ≡ D.is_honest disk.old }
    ensures complete { IsTrue (D.is_honest disk.old) → (before : Container)
        → IsStore before (D.history disk.old (D.store_named (store_word words.now)))
        → ¬ Rose (D.faults disk.old) (D.faults disk.new)
        → ¬ Rose (S.faults source.old) (S.faults source.new)
        → ¬ Rose (K.faults sink.old) (K.faults sink.new) → (result ≡ Status.Done)
        ⊎ (result ≡ Status.Memory) ⊎ (result ≡ Status.Long) }
    ensures steps { steps.old ≤ steps.new }
    ensures not_words { result ≢ Status.Words }
{
    match open_named(alloc, disk, store_name(words), steps) {
        Ok(engine) => serve_opened(alloc, engine, disk, source, sink, steps),
        Err(status) => status,
    }
}

/// Serves the source over a store that was opened. The engine's cache is made here, behind the opening, so that no
/// want of memory hides why a store is refused.
fn serve_opened<D: Disk, S: Source, K: Sink, L: Ledger>(
    alloc: Global,
    engine: Engine<NoPages>,
    disk: &mut D,
    source: &mut S,
    sink: &mut K,
    steps: &mut Steps<L>,
) -> Status
    requires works { Works (λ _. no_pages) (D.is_honest disk.old) engine (D.history disk.old (D.attached disk.old)) }
    requires unfaulted { engine.fault ≡ None }
    ensures script { IsTrue (D.is_honest disk.old) → (before : Container) → HoldsOver engine (D.history disk.old (D.attached disk.old)) before
        → Ends (IsTrue (D.is_honest disk.old)) before result
        (record { remaining = S.rest source.old; written = K.written sink.old; steps = steps.old })
        (record { remaining = S.rest source.new; written = K.written sink.new; steps = steps.new })
        (D.history disk.old (D.attached disk.old)) (D.history disk.new (D.attached disk.new)) }
    ensures disk_counted { CountsDisk result (D.faults disk.old) (D.faults disk.new) }
    ensures read_fault { result ≡ Status.ReadFault
        → Rose (S.faults source.old) (S.faults source.new) }
    ensures write_fault { result ≡ Status.WriteFault
        → Rose (K.faults sink.old) (K.faults sink.new) }
    ensures disk_faults { D.faults disk.old ≤ D.faults disk.new }
    ensures source_faults { S.faults source.old ≤ S.faults source.new }
    ensures sink_faults { K.faults sink.old ≤ K.faults sink.new }
    ensures attached { D.attached disk.new ≡ D.attached disk.old }
    ensures honest { D.is_honest disk.new ≡ D.is_honest disk.old }
    ensures steps { steps.old ≤ steps.new }
    ensures sound { IsTrue (D.is_honest disk.old) → (before : Container) → HoldsOver engine (D.history disk.old (D.attached disk.old)) before
        → IsOfServing result }
    ensures of_serving { EndsServing (D.is_honest disk.old) result (D.history disk.new (D.attached disk.new)) }
    ensures answered { TellsAnswered (D.is_honest disk.old) (standing_of engine.documents)
        (D.history disk.new (D.attached disk.new)) result
        (record { remaining = S.rest source.old; written = K.written sink.old; steps = steps.old })
        (record { remaining = S.rest source.new; written = K.written sink.new; steps = steps.new }) }
{
    let Ok(cache) = LruPages::make(alloc, CACHED_PARTS) else {
        return Status::Memory;
    };
    let mut engine = engine.with_cache(cache);
    serve_cached(alloc, &mut engine, disk, source, sink, steps)
}

/// Serves the source over an engine with its cache, piece by piece. The buffer for the pieces is taken here, behind the
/// opening, so that no want of memory hides why a store is refused.
fn serve_cached<D: Disk, C: PageCache, S: Source, K: Sink, L: Ledger>(
    alloc: Global,
    engine: &mut Engine<C>,
    disk: &mut D,
    source: &mut S,
    sink: &mut K,
    steps: &mut Steps<L>,
) -> Status
    requires works { Works C.pages (D.is_honest disk.old) engine.old (D.history disk.old (D.attached disk.old)) }
    requires unfaulted { engine.old.fault ≡ None }
    ensures script { IsTrue (D.is_honest disk.old) → (before : Container) → HoldsOver engine.old (D.history disk.old (D.attached disk.old)) before
        → Ends (IsTrue (D.is_honest disk.old)) before result
        (record { remaining = S.rest source.old; written = K.written sink.old; steps = steps.old })
        (record { remaining = S.rest source.new; written = K.written sink.new; steps = steps.new })
        (D.history disk.old (D.attached disk.old)) (D.history disk.new (D.attached disk.new)) }
    ensures disk_counted { CountsDisk result (D.faults disk.old) (D.faults disk.new) }
    ensures read_fault { result ≡ Status.ReadFault
        → Rose (S.faults source.old) (S.faults source.new) }
    ensures write_fault { result ≡ Status.WriteFault
        → Rose (K.faults sink.old) (K.faults sink.new) }
    ensures disk_faults { D.faults disk.old ≤ D.faults disk.new }
    ensures source_faults { S.faults source.old ≤ S.faults source.new }
    ensures sink_faults { K.faults sink.old ≤ K.faults sink.new }
    ensures attached { D.attached disk.new ≡ D.attached disk.old }
    ensures honest { D.is_honest disk.new ≡ D.is_honest disk.old }
    ensures steps { steps.old ≤ steps.new }
    ensures sound { IsTrue (D.is_honest disk.old) → (before : Container) → HoldsOver engine.old (D.history disk.old (D.attached disk.old)) before
        → IsOfServing result }
    ensures of_serving { EndsServing (D.is_honest disk.old) result (D.history disk.new (D.attached disk.new)) }
    ensures answered { TellsAnswered (D.is_honest disk.old) (standing_of engine.old.documents)
        (D.history disk.new (D.attached disk.new)) result
        (record { remaining = S.rest source.old; written = K.written sink.old; steps = steps.old })
        (record { remaining = S.rest source.new; written = K.written sink.new; steps = steps.new }) }
{
    let Ok(mut buffer) = vec![in alloc; 0u8; PIECE] else {
        return Status::Memory;
    };
    serve_source(
        alloc,
        engine,
        disk,
        source,
        sink,
        steps,
        buffer.as_mut_slice(),
    )
}
