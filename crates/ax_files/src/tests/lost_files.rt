//! Files of a store of which some are lost.
use super::plain_file::{PlainFile, plain};
use crate::file_fault::{FileFault, RootState};
use crate::opening::refuse_lost;
use ax_disk::Extent;
use std::test::Fail;

// Slots as docs/FORMAT.md has them: the one of a new store, one that is closed, one that names no area.
#[test]
fn lost_files_are_refused(rt: HostRuntime) -> Result<(), Fail> {
    let slot = b"\x01\x01\x00\x01\x01\x00\x00\x00\x00\x00\x00\x00AXDB";
    let closed = plain(&rt, &[0; 33])?;
    let short = plain(&rt, slot)?;
    let mut first = plain(&rt, slot)?;
    first.bytes.extend_from_slice(&[0; 17])?;
    let mut second = plain(&rt, &[0; 16])?;
    second.bytes.extend_from_slice(slot)?;
    second.bytes.push(69)?;
    let empty = plain(&rt, b"")?;
    let formed = plain(&rt, b"\0")?;
    let full = plain(&rt, b"\0\0")?;
    for root in [&first, &second] {
        assert!(rt; refuse_lost(Some(root), Some(&full), Some(&empty)).is_ok());
        let refused = refuse_lost(Some(root), Some(&full), None);
        assert!(rt; matches!(refused, Err(FileFault::Arealess { area: Extent::B })));
        let refused = refuse_lost(Some(root), None, Some(&full));
        assert!(rt; matches!(refused, Err(FileFault::Arealess { area: Extent::A })));
    }
    assert!(rt;
        matches!(
            refuse_lost(Some(&closed), None, None),
            Err(FileFault::Foreign)
        )
    );
    assert!(rt; refuse_lost(Some(&short), Some(&formed), Some(&empty)).is_ok());
    assert!(rt; refuse_lost::<PlainFile>(None, None, None).is_ok());
    let refused = refuse_lost(Some(&short), Some(&formed), Some(&full));
    assert!(rt;
        matches!(
            refused,
            Err(FileFault::Rootless {
                root: RootState::Short,
                area: Extent::B
            })
        )
    );
    let refused = refuse_lost(None, Some(&full), Some(&full));
    assert!(rt;
        matches!(
            refused,
            Err(FileFault::Rootless {
                root: RootState::Absent,
                area: Extent::A
            })
        )
    );
    Ok(())
}
