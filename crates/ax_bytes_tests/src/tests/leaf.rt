use ax_leaf::{check, encode, is_in_order};
use ax_pair::split_low;
use ax_pair_list::PairRef;
use std::test::Fail;

// A page with no pairs: an empty low term, number 0, no terms.
#[test]
fn a_base_with_no_pairs_is_its_low_pair(rt: HostRuntime) -> Result<(), Fail> {
    let payload = encode(rt.alloc(), &PairRef::new(&[], 0), &[])?;
    let expected: &[u8] = &[0, 0, 0];
    assert_eq!(rt; payload.as_slice(), expected);
    Ok(())
}

// The low pair is ab with 5. Then ab with 5 and 7, abc with 1, which begins as ab does, and b with
// 300.
#[test]
fn a_base_with_three_terms_is_written(rt: HostRuntime) -> Result<(), Fail> {
    let rows: [(&[u8], u32); 4] = [(b"ab", 5), (b"ab", 7), (b"abc", 1), (b"b", 300)];
    let mut pairs = Vec::new(rt.alloc());
    for (term, number) in rows {
        pairs.push(PairRef::new(term, number))?;
    }
    let low = PairRef::new(b"ab", 5);
    assert!(rt; is_in_order(&low, pairs.as_slice()));
    let payload = encode(rt.alloc(), &low, pairs.as_slice())?;
    let expected: &[u8] = &[
        2, 0x61, 0x62, 5, 3, 0, 2, 0x61, 0x62, 2, 5, 1, 2, 1, 0x63, 1, 1, 0, 1, 0x62, 1, 0xAC, 2,
    ];
    assert_eq!(rt; payload.as_slice(), expected);
    Ok(())
}

// The low pair of the base above, before bytes that are no postings; and a term that is cut short.
#[test]
fn a_low_pair_is_split_off(rt: HostRuntime) -> Result<(), Fail> {
    let bytes: &[u8] = &[2, 0x61, 0x62, 5, 0xFF, 0xFF];
    let (term, number, rest) = split_low(bytes).unwrap_or((&[], 0, &[]));
    let low_term: &[u8] = b"ab";
    let behind: &[u8] = &[0xFF, 0xFF];
    assert_eq!(rt; term, low_term);
    assert_eq!(rt; number, 5);
    assert_eq!(rt; rest, behind);
    assert!(rt; split_low(&bytes[..2]).is_none());
    Ok(())
}

#[test]
fn pairs_out_of_order_are_refused(rt: HostRuntime) -> Result<(), Fail> {
    let rows: [(&[u8], u32, &[u8], u32); 3] = [
        (b"a", 5, b"a", 5),
        (b"b", 1, b"a", 2),
        (b"", 0, b"a", 2),
    ];
    for (term, number, other, second) in rows {
        let pairs = [PairRef::new(term, number), PairRef::new(other, second)];
        let low = PairRef::new(b"a", 2);
        assert!(rt; !is_in_order(&low, pairs.as_slice()), "{number}");
    }
    Ok(())
}

// What the second test of this file writes.
const THREE_TERMS: &[u8] = &[
    2, 0x61, 0x62, 5, 3, 0, 2, 0x61, 0x62, 2, 5, 1, 2, 1, 0x63, 1, 1, 0, 1, 0x62, 1, 0xAC, 2,
];

#[test]
fn terms_are_found_with_their_numbers(rt: HostRuntime) -> Result<(), Fail> {
    let leaf = check(THREE_TERMS).ok_or("no base")?;
    let (term, number) = leaf.low();
    let expected: &[u8] = b"ab";
    assert_eq!(rt; term, expected);
    assert_eq!(rt; number, 5);
    let rows: [(&[u8], &[u32]); 8] = [
        (b"ab", &[5, 7]),
        (b"abc", &[1]),
        (b"b", &[300]),
        (b"", &[]),
        (b"a", &[]),
        (b"abb", &[]),
        (b"abd", &[]),
        (b"c", &[]),
    ];
    for (term, numbers) in rows {
        let Some(mut found) = leaf.find(term) else {
            assert!(rt; numbers.is_empty(), "{term:?}");
            continue;
        };
        for &number in numbers {
            assert_eq!(rt; found.next(), Some(number));
        }
        assert_eq!(rt; found.next(), None);
        assert!(rt; !numbers.is_empty(), "{term:?}");
    }
    Ok(())
}

#[test]
fn pairs_are_given_in_order(rt: HostRuntime) -> Result<(), Fail> {
    let leaf = check(THREE_TERMS).ok_or("no base")?;
    let mut cursor = leaf.cursor(rt.alloc());
    let mut term = Vec::new(rt.alloc());
    term.push(9)?;
    let rows: [(&[u8], u32); 4] = [(b"ab", 5), (b"ab", 7), (b"abc", 1), (b"b", 300)];
    for (expected, number) in rows {
        assert_eq!(rt; cursor.next(&mut term)?, Some(number));
        assert_eq!(rt; term.as_slice(), expected);
    }
    assert_eq!(rt; cursor.next(&mut term)?, None);
    let last: &[u8] = b"b";
    assert_eq!(rt; term.as_slice(), last);
    Ok(())
}

// One term, 01 61, with 3, 4, 10 and 300, under the empty term with number 0; and no terms.
#[test]
fn worked_bases_are_read(rt: HostRuntime) -> Result<(), Fail> {
    let payload: &[u8] = &[0, 0, 1, 0, 2, 1, 0x61, 4, 3, 0, 5, 0xA1, 2];
    let leaf = check(payload).ok_or("no base")?;
    let mut found = leaf.find(&[1, 0x61]).ok_or("no term")?;
    for number in [3, 4, 10, 300] {
        assert_eq!(rt; found.next(), Some(number));
    }
    assert_eq!(rt; found.next(), None);
    assert!(rt; leaf.find(&[1]).is_none());
    let empty = check(&[0, 0, 0]).ok_or("no base")?;
    assert!(rt; empty.find(&[]).is_none());
    let mut term = Vec::new(rt.alloc());
    assert_eq!(rt; empty.cursor(rt.alloc()).next(&mut term)?, None);
    Ok(())
}

#[test]
fn other_bytes_are_refused(rt: HostRuntime) {
    let rows: [&[u8]; 16] = [
        // Nothing; longer varints: of the low term's length, of the low number, of the count.
        &[],
        &[0x80, 0, 0, 0],
        &[0, 0x80, 0, 0],
        &[0, 0, 0x84, 0],
        // A first term with a prefix.
        &[0, 0, 1, 1, 1, 0x62, 1, 1],
        // ab and ac with no byte in common, ab and abc with one, ab and a term with three.
        &[0, 0, 2, 0, 2, 0x61, 0x62, 1, 1, 0, 2, 0x61, 0x63, 1, 1],
        &[0, 0, 2, 0, 2, 0x61, 0x62, 1, 1, 1, 2, 0x62, 0x63, 1, 1],
        &[0, 0, 2, 0, 2, 0x61, 0x62, 1, 1, 3, 1, 0x63, 1, 1],
        // b and a, b twice, ab and a.
        &[0, 0, 2, 0, 1, 0x62, 1, 1, 0, 1, 0x61, 1, 1],
        &[0, 0, 2, 0, 1, 0x62, 1, 1, 1, 0, 1, 2],
        &[0, 0, 2, 0, 2, 0x61, 0x62, 1, 1, 1, 0, 1, 1],
        // No number; a byte behind the last term; a term too few.
        &[0, 0, 1, 0, 2, 1, 0x61, 0],
        &[0, 0, 1, 0, 2, 1, 0x61, 1, 1, 0],
        &[0, 0, 2, 0, 2, 1, 0x61, 1, 1],
        // A pair before the low one, by its term and by its number.
        &[1, 0x62, 0, 1, 0, 1, 0x61, 1, 1],
        &[1, 0x61, 2, 1, 0, 1, 0x61, 1, 1],
    ];
    for bytes in rows {
        assert!(rt; check(bytes).is_none(), "{bytes:?}");
    }
}

// Terms with 5,000 bytes in common, and one more: the third byte from the end is that of the second.
#[test]
fn long_terms_are_read(rt: HostRuntime) -> Result<(), Fail> {
    let mut first = vec![in rt.alloc(); 7u8; 5000]?;
    first.push(1)?;
    let mut second = vec![in rt.alloc(); 7u8; 5000]?;
    second.push(2)?;
    let pairs = [
        PairRef::new(first.as_slice(), 1),
        PairRef::new(second.as_slice(), 1),
    ];
    let low = PairRef::new(&[], 0);
    assert!(rt; is_in_order(&low, pairs.as_slice()));
    let mut payload = encode(rt.alloc(), &low, pairs.as_slice())?;
    assert_eq!(rt; payload.len(), 5015);
    assert!(rt; check(payload.as_slice()).is_some());
    for last in [0, 1] {
        payload[5012] = last;
        assert!(rt; check(payload.as_slice()).is_none());
    }
    Ok(())
}
