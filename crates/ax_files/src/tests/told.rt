//! How a fault is told.
use crate::file_fault::{Explained, FileCall, FileFault};
use ax_disk::Extent;
use std::io;
use std::test::Fail;

fn told(rt: &impl AllocGlobal, store: &str, fault: FileFault) -> Result<String, Fail> {
    Ok(format!(in rt.alloc(); "{}", Explained { store, fault })?)
}

// Lines as docs/LINES.md has them, and the system's own words as Linux has them.
#[test]
fn a_fault_is_told_in_one_line(rt: HostRuntime) -> Result<(), Fail> {
    let extent = Extent::A;
    let call = FileCall::Write;
    let error = io::Error::from_raw_os_error(27);
    let line = told(
        &rt,
        "s",
        FileFault::Call {
            extent,
            call,
            error,
        },
    )?;
    assert_eq!(rt; line.as_str(), "s.a: write: File too large (os error 27)");
    let error = io::Error::from_raw_os_error(13);
    let line = told(&rt, "d/s", FileFault::Folder { error })?;
    assert_eq!(rt;
        line.as_str(),
        "the folder of d/s.root: sync: Permission denied (os error 13)"
    );
    let line = told(&rt, "a\nb", FileFault::Locked { extent })?;
    assert_eq!(rt;
        line.as_str(),
        "\"a\\nb\".a: another program holds the store"
    );
    Ok(())
}
