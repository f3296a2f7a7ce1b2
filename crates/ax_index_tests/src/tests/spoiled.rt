//! Pages with a part that is outside its grammar: each call that reads it answers its place.

use crate::tests::asking::{disk_of, range_of};
use ax_cache::NoPages;
use ax_index::StoreFault;
use ax_index_support::{ask, look, merge, open, pair_of};
use std::alloc::Global;
use std::test::Fail;

/// A base that is to have one term and has none, at 9, and a delta that adds a2.
const NO_BASE: &[u8] =
    b"\x01\x1C\x00\x00\x00\x00\x00\x00\x00\x05\x00\x00\x00\x00\x03\x00\x00\x00\x00\x00\x01\x06\x00\x00\x00\x00\x07\x00\x00\x00\x01\x00\x01a\x01\x02\x00\x00";

/// A base with no pair, and a delta with no change, at 21.
const NO_DELTA: &[u8] =
    b"\x01\x16\x00\x00\x00\x00\x00\x00\x00\x05\x00\x00\x00\x00\x03\x00\x00\x00\x00\x00\x00\x06\x00\x00\x00\x00\x01\x00\x00\x00\x00\x00";

/// The faults that a question, a look and a merge answer.
fn faults_over(alloc: Global, area: &[u8]) -> Result<[Option<StoreFault>; 3], Fail> {
    let mut disk = disk_of(alloc, area)?;
    let mut store = open(alloc, &mut disk, NoPages)?;
    let pair = pair_of(alloc, b"a", 1)?;
    let asked = ask(&mut disk, &mut store, &pair).err();
    let range = range_of(alloc, b"a", b"b")?;
    let looked = look(alloc, &mut disk, &mut store, &range).err();
    let merged = merge(alloc, &mut disk, &mut store, 1).err();
    Ok([asked, looked, merged])
}

#[test]
fn a_base_that_is_none_is_damage(rt: HostRuntime) -> Result<(), Fail> {
    let damaged = Some(StoreFault::Damaged { extent: 1, at: 9 });
    assert_eq!(rt;
        faults_over(rt.alloc(), NO_BASE)?,
        [damaged, damaged, damaged]
    );
    Ok(())
}

#[test]
fn a_delta_that_is_none_is_damage(rt: HostRuntime) -> Result<(), Fail> {
    let damaged = Some(StoreFault::Damaged { extent: 1, at: 21 });
    assert_eq!(rt;
        faults_over(rt.alloc(), NO_DELTA)?,
        [damaged, damaged, damaged]
    );
    Ok(())
}
