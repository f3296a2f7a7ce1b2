use ax_script::Status;
use ax_script_support::{ROOM, output_of};
use std::test::Fail;

const SCRIPT: &[u8] = b"UPSERT {\"id\":\"a\",\"n\":1}\nFOO\nQUERY {\"query\":\"SELECT * FROM c\"}";

const OUTPUT: &[u8] = b"ok\nerr 2 command\nrow {\"id\":\"a\",\"n\":1}\nend 1\n";

// The script is read by two calls: its bytes, and its end.
#[test]
fn each_read_fails_in_turn(rt: HostRuntime) -> Result<(), Fail> {
    for (read, expected) in [
        (1u64, b"".as_slice()),
        (2, b"ok\nerr 2 command\n".as_slice()),
    ] {
        let (status, output) = output_of(rt.alloc(), SCRIPT, &[read], &[], ROOM)?;
        assert_eq!(rt; status, Status::ReadFault, "read {read}");
        assert_eq!(rt; output.as_slice(), expected, "read {read}");
    }
    Ok(())
}

// Its three lines are answered by a write each.
#[test]
fn each_write_fails_in_turn(rt: HostRuntime) -> Result<(), Fail> {
    for (write, expected) in [
        (1u64, b"".as_slice()),
        (2, b"ok\n".as_slice()),
        (3, b"ok\nerr 2 command\n".as_slice()),
    ] {
        let (status, output) = output_of(rt.alloc(), SCRIPT, &[], &[write], ROOM)?;
        assert_eq!(rt; status, Status::WriteFault, "write {write}");
        assert_eq!(rt; output.as_slice(), expected, "write {write}");
    }
    Ok(())
}

#[test]
fn a_sink_takes_what_it_has_room_for(rt: HostRuntime) -> Result<(), Fail> {
    for room in 0..OUTPUT.len() {
        let (status, output) = output_of(rt.alloc(), SCRIPT, &[], &[], room)?;
        assert_eq!(rt; status, Status::WriteFault, "room {room}");
        assert_eq!(rt; output.as_slice(), &OUTPUT[..room], "room {room}");
    }
    let (status, output) = output_of(rt.alloc(), SCRIPT, &[], &[], OUTPUT.len())?;
    assert_eq!(rt; status, Status::Done);
    assert_eq!(rt; output.as_slice(), OUTPUT);
    Ok(())
}
