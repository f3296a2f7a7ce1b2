use ax_delta::{Change, are_in_order, check, encode, merge};
use ax_leaf::is_in_order;
use ax_pair::{Bytes, Pair};
use ax_pair_list::{PairList, PairRef};
use std::test::Fail;

// ab with 5 is added and with 7 dropped; abc, which begins as ab does, is dropped with 1; b is added
// with 300 and 301.
const THREE_TERMS: &[u8] = &[
    3, 0, 2, 0x61, 0x62, 1, 5, 1, 7, 2, 1, 0x63, 0, 1, 1, 0, 1, 0x62, 2, 0xAC, 2, 0, 0,
];

#[test]
fn a_delta_with_three_terms_is_written(rt: HostRuntime) -> Result<(), Fail> {
    let rows: [(bool, &[u8], u32); 5] = [
        (true, b"ab", 5),
        (false, b"ab", 7),
        (false, b"abc", 1),
        (true, b"b", 300),
        (true, b"b", 301),
    ];
    let mut changes = Vec::new(rt.alloc());
    for (add, term, number) in rows {
        let mut bytes = Vec::new(rt.alloc());
        bytes.extend_from_slice(term)?;
        let term = Bytes::from_vec(bytes);
        changes.push(Change {
            add,
            pair: Pair { term, number },
        })?;
    }
    assert!(rt; are_in_order(changes.as_slice()));
    let payload = encode(rt.alloc(), changes.as_slice())?;
    assert_eq!(rt; payload.as_slice(), THREE_TERMS);
    Ok(())
}

#[test]
fn changes_out_of_order_are_refused(rt: HostRuntime) -> Result<(), Fail> {
    let rows: [(&[u8], u32, &[u8], u32); 3] = [
        (b"a", 5, b"a", 5),
        (b"a", 6, b"a", 5),
        (b"b", 1, b"a", 2),
    ];
    assert!(rt; !are_in_order(&[]));
    for (term, number, other, second) in rows {
        let mut changes = Vec::new(rt.alloc());
        let mut bytes = Vec::new(rt.alloc());
        bytes.extend_from_slice(term)?;
        let term = Bytes::from_vec(bytes);
        changes.push(Change {
            add: true,
            pair: Pair { term, number },
        })?;
        let mut bytes = Vec::new(rt.alloc());
        bytes.extend_from_slice(other)?;
        let term = Bytes::from_vec(bytes);
        changes.push(Change {
            add: false,
            pair: Pair {
                term,
                number: second,
            },
        })?;
        assert!(rt; !are_in_order(changes.as_slice()), "{number}");
    }
    Ok(())
}

#[test]
fn a_pair_is_looked_up(rt: HostRuntime) -> Result<(), Fail> {
    let delta = check(THREE_TERMS).ok_or("no delta")?;
    let rows: [(&[u8], u32, Option<bool>); 11] = [
        (b"ab", 5, Some(true)),
        (b"ab", 7, Some(false)),
        (b"abc", 1, Some(false)),
        (b"b", 300, Some(true)),
        (b"b", 301, Some(true)),
        (b"ab", 6, None),
        (b"abc", 0, None),
        (b"b", 302, None),
        (b"a", 5, None),
        (b"abb", 5, None),
        (b"c", 1, None),
    ];
    for (term, number, said) in rows {
        let mut bytes = Vec::new(rt.alloc());
        bytes.extend_from_slice(term)?;
        let term = Bytes::from_vec(bytes);
        let pair = Pair { term, number };
        assert!(rt; delta.look(&pair) == said, "{number}");
    }
    Ok(())
}

// Before: ab with 5 and 7, abc with 2, b with 1 and 400. The delta adds ab with 5, which is there,
// and drops abc with 1, which is not.
#[test]
fn a_page_is_merged(rt: HostRuntime) -> Result<(), Fail> {
    let delta = check(THREE_TERMS).ok_or("no delta")?;
    let before: [(&[u8], u32); 5] = [(b"ab", 5), (b"ab", 7), (b"abc", 2), (b"b", 1), (b"b", 400)];
    let mut pairs = PairList::new(rt.alloc());
    for (term, number) in before {
        pairs.push(term, number)?;
    }
    let refs = pairs.refs(rt.alloc())?;
    let in_order = is_in_order(&PairRef::new(&[], 0), refs.as_slice());
    drop(refs);
    assert!(rt; in_order);
    let after = merge(rt.alloc(), pairs, &delta)?;
    let rows: [(&[u8], u32); 6] = [
        (b"ab", 5),
        (b"abc", 2),
        (b"b", 1),
        (b"b", 300),
        (b"b", 301),
        (b"b", 400),
    ];
    assert_eq!(rt; after.len(), rows.len());
    for at in 0..rows.len() {
        let (term, number) = rows[at];
        let (found, with) = after.pair(at);
        assert!(rt; found == term && with == number, "{at}");
    }
    Ok(())
}

// The pair of the term 01 61 with 1 is added.
#[test]
fn a_worked_delta_is_read(rt: HostRuntime) -> Result<(), Fail> {
    let delta = check(&[1, 0, 2, 1, 0x61, 1, 1, 0]).ok_or("no delta")?;
    let after = merge(rt.alloc(), PairList::new(rt.alloc()), &delta)?;
    assert_eq!(rt; after.len(), 1);
    let (term, number) = after.pair(0);
    let expected: &[u8] = &[1, 0x61];
    assert_eq!(rt; term, expected);
    assert_eq!(rt; number, 1);
    Ok(())
}

#[test]
fn other_bytes_are_refused(rt: HostRuntime) {
    let rows: [&[u8]; 17] = [
        // Nothing; no term; a longer varint of the count.
        &[],
        &[0],
        &[0x81, 0, 0, 2, 1, 0x61, 1, 1, 0],
        // Neither added nor dropped; 4 and 9 added, 2 and 9 dropped.
        &[1, 0, 2, 1, 0x61, 0, 0],
        &[1, 0, 2, 1, 0x61, 2, 4, 4, 2, 2, 6],
        // A byte behind the last term; a term too few; no dropped numbers.
        &[1, 0, 2, 1, 0x61, 1, 1, 0, 0],
        &[2, 0, 2, 1, 0x61, 1, 1, 0],
        &[1, 0, 2, 1, 0x61, 1, 1],
        // A first term with a prefix; a longer varint of its number.
        &[1, 1, 1, 0x62, 1, 1, 0],
        &[1, 0, 1, 0x62, 1, 0x81, 0, 0],
        // ab and ac with no byte in common, ab and abc with one, ab and a term with three.
        &[2, 0, 2, 0x61, 0x62, 1, 1, 0, 0, 2, 0x61, 0x63, 1, 1, 0],
        &[2, 0, 2, 0x61, 0x62, 1, 1, 0, 1, 2, 0x62, 0x63, 1, 1, 0],
        &[2, 0, 2, 0x61, 0x62, 1, 1, 0, 3, 1, 0x63, 1, 1, 0],
        // b and a, b twice, ab and a.
        &[2, 0, 1, 0x62, 1, 1, 0, 0, 1, 0x61, 1, 1, 0],
        &[2, 0, 1, 0x62, 1, 1, 0, 1, 0, 1, 2, 0],
        &[2, 0, 2, 0x61, 0x62, 1, 1, 0, 1, 0, 1, 1, 0],
        // A second term whose number is both added and dropped.
        &[2, 0, 1, 0x61, 1, 1, 0, 0, 1, 0x62, 1, 3, 1, 3],
    ];
    for bytes in rows {
        assert!(rt; check(bytes).is_none(), "{bytes:?}");
    }
}
