//! A page of an image that has a term of more bytes than a change may bring.

use crate::tests::asking::{changes_of_rows, disk_of, numbers};
use ax_cache::NoPages;
use ax_frame::MOST_PAYLOAD;
use ax_gap::varint::put_varint;
use ax_index_support::{change, merge, open};
use ax_pages::numbers::{BASE, DELTA};
use std::alloc::Global;
use std::test::Fail;

/// How many bytes the longest terms have that a change may bring.
const LONGEST: u16 = 4096;

/// Puts a part of page 0 behind others.
fn put_part(parts: &mut Vec<u8>, kind: u8, payload: &[u8]) -> Result<(), Fail> {
    parts.push(kind)?;
    parts.extend_from_slice(&0u32.to_le_bytes())?;
    parts.extend_from_slice(&(payload.len().min(MOST_PAYLOAD) as u32).to_le_bytes())?;
    parts.extend_from_slice(payload)?;
    Ok(())
}

/// The payload of a base with the pair of 1 and a term of so many bytes, each of them a.
fn base_with(alloc: Global, len: u16) -> Result<Vec<u8>, Fail> {
    let mut base = Vec::from_slice(alloc, &[0, 0, 1, 0])?;
    put_varint(&mut base, u32::from(len))?;
    let mut term = Vec::new(alloc);
    term.resize(usize::from(len), b'a')?;
    base.extend_from_slice(term.as_slice())?;
    base.extend_from_slice(&[1, 1])?;
    Ok(base)
}

/// An area whose page has 17 parts: such a base, and deltas that add the term b to the numbers from 1 to 16.
fn area_with(alloc: Global, len: u16) -> Result<Vec<u8>, Fail> {
    let mut parts = Vec::new(alloc);
    put_part(&mut parts, BASE, base_with(alloc, len)?.as_slice())?;
    for number in 1..17 {
        put_part(&mut parts, DELTA, &[1, 0, 1, b'b', 1, number, 0])?;
    }
    let mut area = Vec::from_slice(alloc, &[1])?;
    area.extend_from_slice(&(parts.len() as u64).to_le_bytes())?;
    area.extend_from_slice(parts.as_slice())?;
    area.push(0)?;
    Ok(area)
}

/// How many pages a change of that page merges, how many a merge does then, and how many numbers a look at
/// the long term and one at b find at last.
fn merged_with(alloc: Global, len: u16) -> Result<(u32, u32, usize, usize), Fail> {
    let area = area_with(alloc, len)?;
    let mut disk = disk_of(alloc, area.as_slice())?;
    let mut store = open(alloc, &mut disk, NoPages)?;
    let changes = changes_of_rows(alloc, &[(true, b"b", 17)])?;
    let changed = change(alloc, &mut disk, &mut store, changes.as_slice())?;
    let merged = merge(alloc, &mut disk, &mut store, 1)?;
    let long = numbers(alloc, &mut disk, &mut store, b"a", b"b")?.len();
    let short = numbers(alloc, &mut disk, &mut store, b"b", b"c")?.len();
    Ok((changed, merged, long, short))
}

#[test]
fn a_page_with_a_longer_term_gets_deltas_and_is_not_merged(rt: HostRuntime) -> Result<(), Fail> {
    assert_eq!(rt; merged_with(rt.alloc(), LONGEST)?, (1, 0, 1, 17));
    assert_eq!(rt; merged_with(rt.alloc(), LONGEST + 1)?, (0, 0, 1, 17));
    Ok(())
}
