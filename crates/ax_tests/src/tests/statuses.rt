use ax_base::{MemSink, MemSource};
use ax_script::Status;
use ax_script_support::{fresh_disk, run_words};
use std::test::Fail;

// By hand, from the list of exit codes.
#[test]
fn statuses_have_codes_and_texts(rt: HostRuntime) -> Result<(), Fail> {
    let damaged = Status::Damaged { extent: 1, at: 64 };
    for (status, code, text) in [
        (Status::Done, 0u8, ""),
        (Status::Words, 2, "words"),
        (Status::DiskFault, 3, "disk fault"),
        (Status::ReadFault, 4, "read fault"),
        (Status::WriteFault, 5, "write fault"),
        (damaged, 6, "damaged 1 64"),
        (Status::Newer { version: 2 }, 7, "newer 2"),
        (Status::Memory, 8, "memory"),
        (Status::Long, 10, "long"),
    ] {
        assert_eq!(rt; status.code(), code, "{text:?}");
        assert_eq!(rt; status.text(rt.alloc())?.as_str(), text, "{code}");
    }
    Ok(())
}

#[test]
fn words_are_run_and_a_store(rt: HostRuntime) -> Result<(), Fail> {
    let alloc = rt.alloc();
    let table: [(&[&str], Status); 7] = [
        (&["run", "demo"], Status::Done),
        (&["run"], Status::Words),
        (&["run", ""], Status::Words),
        (&["run", "-s"], Status::Words),
        (&["gen", "demo"], Status::Words),
        (&["run", "demo", "more"], Status::Words),
        (&[], Status::Words),
    ];
    for (words, expected) in table {
        let mut source = MemSource::make(Vec::new(alloc), Vec::new(alloc));
        let mut sink = MemSink::make(alloc, 0, Vec::new(alloc))?;
        let mut disk = fresh_disk(alloc)?;
        let status = run_words(alloc, words, &mut disk, &mut source, &mut sink)?;
        assert_eq!(rt; status, expected, "{words:?}");
    }
    Ok(())
}
