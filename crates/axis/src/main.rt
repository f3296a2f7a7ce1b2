//! The program `axis`: the real parts of the outside, handed to the top call.
//!
//! Everything that it means stands on `ax_script::run`. Over `FileDisk`, which is not honest, that
//! contract speaks only of words, faults and steps. What is printed on standard error is shown by
//! runs of the program alone.
#![tactic(auto)]

ghost use Rattle.std.specs.Prelude.{◌≡◌, ◌≢◌, ◌<◌, ◌↔◌, false};
ghost use Rattle.std.specs.Process.{exit_status};
ghost use Rattle.ax_faults.specs.Faults.{Rose};
ghost use Rattle.ax_files.specs.FileDisk.{fault_count};
ghost use Rattle.ax_script.specs.CommandLine.{is_run};
ghost use Rattle.ax_script.specs.Statuses.{code_of};

use ax_base::{StdSink, StdSource, Steps};
use ax_files::{Explained, FileDisk};
use ax_script::{Status, run};
use std::env;
use std::fs::File;
use std::io::{self, ErrorKind};
use std::marker::Brand;
use std::process::ExitCode;
use std::sync::ledger::{Blank, Ledger};

/// A device that has nothing to read, and here is never open to be written.
const NULL_DEVICE: &str = "/dev/null";

/// How the program is called.
const USAGE: [&str; 3] = [
    "usage: axis run STORE",
    "It reads script lines from standard input and writes their replies to standard output.",
    "The store is in the files STORE.root, STORE.a and STORE.b, which are made where there are none.",
];

/// Descriptors that are in use, so that no file that is opened later is a standard stream.
#[derive(Drop)]
struct Occupied {
    _first: File,
    _second: File,
    _third: File,
}

/// Opens three files. Those of the standard streams that are closed are open then, for reading alone:
/// standard input has ended, and a write to standard output fails.
fn occupy_streams(rt: &HostRuntime) -> io::Result<Occupied> {
    Ok(Occupied {
        _first: File::open(rt, NULL_DEVICE)?,
        _second: File::open(rt, NULL_DEVICE)?,
        _third: File::open(rt, NULL_DEVICE)?,
    })
}

/// The words of the command line after the program's name, or the status with which the program
/// ends: `Words` where one of them is not UTF-8, `Memory` where there is no memory for them.
fn words(rt: &HostRuntime) -> Result<Vec<String>, Status> {
    let arguments = match env::args(rt) {
        Ok(arguments) => arguments,
        Err(error) => return Err(status_of(error.kind())),
    };
    arguments
        .skip(1)
        .collect(rt.alloc())
        .map_err(|_| Status::Memory)
}

fn status_of(kind: ErrorKind) -> Status
    ensures memory { kind ≡ ErrorKind.OutOfMemory → result ≡ Status.Memory }
    ensures words { kind ≢ ErrorKind.OutOfMemory → result ≡ Status.Words }
{
    match kind {
        ErrorKind::OutOfMemory => Status::Memory,
        _ => Status::Words,
    }
}

/// Calls `run` over standard input and output, with a counter that begins at 0.
fn run_here<L: Ledger>(
    rt: &HostRuntime,
    words: &[String],
    disk: &mut FileDisk,
    blank: Blank,
) -> Status
    requires name { blank.name ≡ L.name }
    requires parts { blank.parts ≡ L.parts }
    requires some { 0 < blank.parts }
    ensures words { (result ≡ Status.Words) ↔ (is_run words.now ≡ false) }
    ensures untouched { result ≡ Status.Words → disk.new ≡ disk.old }
    ensures disk_fault { result ≡ Status.DiskFault → Rose (fault_count disk.old) (fault_count disk.new) }
{
    let mut source = StdSource::new(rt.stdin());
    let mut sink = StdSink::new(rt.stdout());
    let mut steps = Steps::<L>::begin(blank);
    run(rt.alloc(), words, disk, &mut source, &mut sink, &mut steps)
}

/// Says on standard error how the run ended: the text of the status, and below it what people need.
fn explain(rt: &HostRuntime, status: Status, words: &[String], disk: &FileDisk) {
    if status == Status::Done {
        return;
    }
    if let Ok(text) = status.text(rt.alloc()) {
        let _ = eprintln!(rt; "{text}");
    }
    match status {
        Status::Words => explain_words(rt),
        Status::DiskFault => explain_fault(rt, words, disk),
        _ => {}
    }
}

fn explain_words(rt: &HostRuntime) {
    for line in USAGE {
        let _ = eprintln!(rt; "{line}");
    }
}

fn explain_fault(rt: &HostRuntime, words: &[String], disk: &FileDisk) {
    if let (Some(store), Some(fault)) = (words.last(), disk.first_fault()) {
        let store = store.as_str();
        let _ = eprintln!(rt; "{}", Explained { store, fault });
    }
}

/// Serves standard input over the store that the command line names, and says how that ended.
fn serve(rt: &HostRuntime) -> Status {
    let mut disk = FileDisk::new(*rt);
    match words(rt) {
        Ok(words) => {
            let status = run_here::<Brand>(rt, words.as_slice(), &mut disk, Blank::new(1));
            explain(rt, status, words.as_slice(), &disk);
            status
        }
        Err(status) => {
            explain(rt, status, &[], &disk);
            status
        }
    }
}

/// The exit code of a status.
fn exit_code(status: Status) -> ExitCode
    ensures { exit_status result ≡ code_of status }
{
    ExitCode::from(status.code())
}

fn main(rt: HostRuntime) -> ExitCode {
    let status = match occupy_streams(&rt) {
        Ok(_occupied) => serve(&rt),
        Err(error) => {
            let _ = eprintln!(rt; "disk fault");
            let _ = eprintln!(rt; "{NULL_DEVICE}: open: {error}");
            Status::DiskFault
        }
    };
    exit_code(status)
}
