//! A run that the disk stops: what a later run finds is what was there after some of the lines, with
//! every line whose reply was written, and it goes on from there.
use ax_disk::{Disk, FuseDisk, MemDisk};
use ax_plain::PlainMachine;
use ax_script::Status;
use ax_script_support::{CALLS, ROOM, fresh_disk, output_over};
use std::alloc::{AllocError, Global};
use std::process::Abort;
use std::test::Fail;

const LINES: usize = 20;

/// More calls than the run of these lines makes.
const MOST_CALLS: u64 = 200;

/// A line that is committed makes four calls or more.
const LEAST_CALLS: u64 = 80;

/// The lines by which the documents are looked at: all of them by a query, and each by its id, which the index tells.
const LOOKS: [&[u8]; 8] = [
    b"QUERY {\"query\":\"SELECT * FROM c\"}\n",
    b"READ d0\n",
    b"READ d1\n",
    b"READ d2\n",
    b"READ d3\n",
    b"READ d4\n",
    b"READ d5\n",
    b"READ d6\n",
];

/// The line of a number: seven ids, so that documents are created, replaced and deleted.
fn line_of(alloc: Global, number: usize) -> Result<String, AllocError> {
    let id = number % 7;
    match number {
        0..=2 => format!(in alloc; "CREATE {{\"id\":\"d{id}\",\"n\":{number}}}"),
        8 => format!(in alloc; "REPLACE {{\"id\":\"d{id}\",\"n\":{number}}}"),
        9 => format!(in alloc; "DELETE d2"),
        _ => format!(in alloc; "UPSERT {{\"id\":\"d{id}\",\"n\":{number}}}"),
    }
}

fn add_line(alloc: Global, script: &mut Vec<u8>, number: usize) -> Result<(), Fail> {
    let line = line_of(alloc, number)?;
    script.extend_from_slice(line.as_bytes())?;
    drop(line);
    Ok(script.push(b'\n')?)
}

fn whole_script(alloc: Global) -> Result<Vec<u8>, Fail> {
    let mut script = Vec::new(alloc);
    for number in 0..LINES {
        add_line(alloc, &mut script, number)?;
    }
    Ok(script)
}

fn serve_line(alloc: Global, machine: &mut PlainMachine, number: usize) -> Result<(), Fail> {
    let line = line_of(alloc, number)?;
    machine.answer(alloc, line.as_bytes())?;
    Ok(())
}

/// The script of the lines by which the documents are looked at.
fn look_script(alloc: Global) -> Result<Vec<u8>, Fail> {
    let mut script = Vec::new(alloc);
    for line in LOOKS {
        script.extend_from_slice(line)?;
    }
    Ok(script)
}

/// What the plain machine answers to these after the first so many lines.
fn answer_after(alloc: Global, lines: usize) -> Result<Vec<u8>, Fail> {
    let mut machine = PlainMachine::new(alloc);
    for number in 0..lines {
        serve_line(alloc, &mut machine, number)?;
    }
    let mut answers = Vec::new(alloc);
    for line in LOOKS {
        let answer = machine.answer(alloc, line.trim_ascii_end())?;
        answers.extend_from_slice(answer.as_slice())?;
        drop(answer);
    }
    Ok(answers)
}

fn all_answers(alloc: Global) -> Result<Vec<Vec<u8>>, Fail> {
    let mut answers = Vec::new(alloc);
    for lines in 0..=LINES {
        answers.push(answer_after(alloc, lines)?)?;
    }
    Ok(answers)
}

/// The lines, those by which the documents are looked at, and what these are answered after each number of the former.
#[derive(Drop)]
struct Plan {
    script: Vec<u8>,
    looks: Vec<u8>,
    answers: Vec<Vec<u8>>,
}

impl Plan {
    fn make(alloc: Global) -> Result<Plan, Fail> {
        let script = whole_script(alloc)?;
        let looks = look_script(alloc)?;
        let answers = all_answers(alloc)?;
        Ok(Plan {
            script,
            looks,
            answers,
        })
    }

    /// The number of lines after which the documents are answered so, if there is one.
    fn lines_before(&self, found: &[u8]) -> Option<usize> {
        for (lines, answer) in self.answers.iter().enumerate() {
            if answer.as_slice() == found {
                return Some(lines);
            }
        }
        None
    }
}

/// The status of a run of the lines, and how many of them have their reply in its output.
fn run_lines<D: Disk>(alloc: Global, plan: &Plan, disk: &mut D) -> Result<(Status, usize), Fail> {
    let (status, output) = output_over(alloc, disk, plan.script.as_slice())?;
    Ok((status, output.len() / b"ok\n".len()))
}

/// The number of lines after which the documents are those that a run finds.
fn lines_found<D: Disk>(alloc: Global, plan: &Plan, disk: &mut D) -> Result<Option<usize>, Fail> {
    let (status, output) = output_over(alloc, disk, plan.looks.as_slice())?;
    if status != Status::Done {
        return Ok(None);
    }
    Ok(plan.lines_before(output.as_slice()))
}

/// The number of lines after which the documents are those that are there after one more run of the
/// lines.
fn lines_resumed<D: Disk>(alloc: Global, plan: &Plan, disk: &mut D) -> Result<Option<usize>, Fail> {
    let (status, _) = run_lines(alloc, plan, disk)?;
    if status != Status::Done {
        return Ok(None);
    }
    lines_found(alloc, plan, disk)
}

/// What a run did, and what later ones found and did.
#[derive(Clone, Copy)]
struct Outcome {
    status: Status,
    acknowledged: usize,
    found: Option<usize>,
    resumed: Option<usize>,
}

/// A run over a disk that stops after so many calls and is crashed then.
fn stopped(alloc: Global, plan: &Plan, calls: u64, keep: bool) -> Result<Outcome, Fail> {
    let mut fuse = FuseDisk::make(fresh_disk(alloc)?, calls);
    let (status, acknowledged) = run_lines(alloc, plan, &mut fuse)?;
    let mut disk = fuse.into_inner();
    disk.crash(keep);
    let found = lines_found(alloc, plan, &mut disk)?;
    let resumed = lines_resumed(alloc, plan, &mut disk)?;
    Ok(Outcome {
        status,
        acknowledged,
        found,
        resumed,
    })
}

/// A disk in memory of which one call fails.
fn failing_disk(alloc: Global, call: u64) -> Result<MemDisk, Fail> {
    let failing = Vec::from_slice(alloc, &[call])?;
    let (root, a, b) = (Vec::new(alloc), Vec::new(alloc), Vec::new(alloc));
    Ok(MemDisk::make(alloc, root, a, b, ROOM, CALLS, failing)?)
}

/// A run over a disk of which one call fails, and later ones over that disk.
fn failed(alloc: Global, plan: &Plan, call: u64) -> Result<Outcome, Fail> {
    let mut disk = failing_disk(alloc, call)?;
    let (status, acknowledged) = run_lines(alloc, plan, &mut disk)?;
    let found = lines_found(alloc, plan, &mut disk)?;
    let resumed = lines_resumed(alloc, plan, &mut disk)?;
    Ok(Outcome {
        status,
        acknowledged,
        found,
        resumed,
    })
}

/// Sees that the documents found are those after some lines, with each one acknowledged, and that a
/// later run served all.
fn judge(rt: &impl Abort, outcome: &Outcome, call: u64) {
    assert!(rt; outcome.found >= Some(outcome.acknowledged), "{call}");
    assert_eq!(rt; outcome.resumed, Some(LINES), "{call}");
    if outcome.status == Status::Done {
        assert_eq!(rt; outcome.acknowledged, LINES, "{call}");
    } else {
        assert_eq!(rt; outcome.status, Status::DiskFault, "{call}");
    }
}

// The disk stops after so many calls of the run, and then the machine, either way.
#[test]
fn a_stopped_run_leaves_its_first_lines(rt: HostRuntime) -> Result<(), Fail> {
    let alloc = rt.alloc();
    let plan = Plan::make(alloc)?;
    let mut last = 0;
    for calls in 0..MOST_CALLS {
        last = calls;
        let kept = stopped(alloc, &plan, calls, true)?;
        judge(&rt, &kept, calls);
        let lost = stopped(alloc, &plan, calls, false)?;
        judge(&rt, &lost, calls);
        if kept.status == Status::Done {
            break;
        }
    }
    assert!(rt; LEAST_CALLS <= last && last < MOST_CALLS - 1, "{last}");
    Ok(())
}

// One call of the run fails: a read, a write, a cut or a sync. The run ends there, and a later one
// goes on.
#[test]
fn a_later_run_goes_on_behind_a_failed_call(rt: HostRuntime) -> Result<(), Fail> {
    let alloc = rt.alloc();
    let plan = Plan::make(alloc)?;
    let mut last = 0;
    for call in 1..MOST_CALLS {
        last = call;
        let outcome = failed(alloc, &plan, call)?;
        // A call behind the run fails in a later one.
        if outcome.status == Status::Done {
            break;
        }
        judge(&rt, &outcome, call);
    }
    assert!(rt; LEAST_CALLS < last && last < MOST_CALLS - 1, "{last}");
    Ok(())
}
