use ax_gap::varint::{put_varint, read_varint};
use ax_gap::{is_rising, join, meet, put_gaps, read_gaps, without};
use std::test::Fail;

// A gap list with something before it and after it.
#[test]
fn worked_gap_lists_are_written_and_read(rt: HostRuntime) -> Result<(), Fail> {
    let rows: [(&[u32], &[u8]); 8] = [
        (&[], &[0]),
        (&[3, 4, 10, 300], &[4, 3, 0, 5, 0xA1, 2]),
        (&[0], &[1, 0]),
        (&[0, 1, 2], &[3, 0, 0, 0]),
        (&[127], &[1, 127]),
        (&[128], &[1, 0x80, 1]),
        (&[4294967295], &[1, 255, 255, 255, 255, 15]),
        (&[5, 4294967295], &[2, 5, 249, 255, 255, 255, 15]),
    ];
    for (list, bytes) in rows {
        assert!(rt; is_rising(list), "{list:?}");
        let mut out = Vec::new(rt.alloc());
        out.push(9)?;
        put_gaps(&mut out, list)?;
        assert_eq!(rt; out.len(), bytes.len() + 1, "{list:?}");
        assert_eq!(rt; &out[1..], bytes, "{list:?}");
        out.push(200)?;
        assert!(rt; out.len() > 1);
        let mut cursor = read_gaps(&out[1..]).ok_or("no gap list")?;
        assert_eq!(rt; cursor.used(), bytes.len(), "{list:?}");
        assert_eq!(rt; cursor.len(), list.len(), "{list:?}");
        for &n in list {
            assert_eq!(rt; cursor.next(), Some(n), "{list:?}");
        }
        assert_eq!(rt; cursor.next(), None, "{list:?}");
    }
    Ok(())
}

#[test]
fn bytes_outside_the_grammar_are_no_gap_list(rt: HostRuntime) {
    let rows: [&[u8]; 12] = [
        &[],
        // A count that does not end, and one in a longer form.
        &[0x80],
        &[0x84, 0, 1, 1, 1, 1],
        // Fewer numbers than the count says.
        &[1],
        &[2, 3],
        &[255, 255, 255, 255, 15, 0, 0],
        // A gap in a longer form, and one that does not end.
        &[1, 0x80, 0],
        &[1, 0x80],
        // A first number of 2^32, one far above, and a sum of 2^32.
        &[1, 0x80, 0x80, 0x80, 0x80, 0x10],
        &[1, 255, 255, 255, 255, 255, 255, 1],
        &[2, 255, 255, 255, 255, 15, 0],
        &[255, 255, 255, 255, 255, 255, 255, 255, 255, 1],
    ];
    for bytes in rows {
        assert!(rt; read_gaps(bytes).is_none(), "{bytes:?}");
    }
}

#[test]
fn worked_varints_are_written_and_read(rt: HostRuntime) -> Result<(), Fail> {
    let rows: [(u32, &[u8]); 7] = [
        (0, &[0]),
        (127, &[0x7F]),
        (128, &[0x80, 1]),
        (300, &[0xAC, 2]),
        (16383, &[0xFF, 0x7F]),
        (16384, &[0x80, 0x80, 1]),
        (4294967295, &[0xFF, 0xFF, 0xFF, 0xFF, 15]),
    ];
    for (number, bytes) in rows {
        let mut out = Vec::new(rt.alloc());
        put_varint(&mut out, number)?;
        assert_eq!(rt; out.as_slice(), bytes);
        out.push(1)?;
        assert_eq!(rt; read_varint(out.as_slice()), Some((number, bytes.len())));
    }
    let refused: [&[u8]; 4] = [&[], &[0x80], &[0x84, 0], &[0x80, 0x80, 0x80, 0x80, 0x10]];
    for bytes in refused {
        assert_eq!(rt; read_varint(bytes), None, "{bytes:?}");
    }
    Ok(())
}

#[test]
fn lists_are_met_joined_and_parted(rt: HostRuntime) -> Result<(), Fail> {
    let rows: [(&[u32], &[u32], &[u32], &[u32], &[u32]); 6] = [
        (&[], &[], &[], &[], &[]),
        (&[1, 2], &[], &[], &[1, 2], &[1, 2]),
        (&[], &[1, 2], &[], &[1, 2], &[]),
        (&[1, 3, 5], &[2, 3, 4, 5], &[3, 5], &[1, 2, 3, 4, 5], &[1]),
        (
            &[0, 7, 4294967295],
            &[7, 4294967295],
            &[7, 4294967295],
            &[0, 7, 4294967295],
            &[0],
        ),
        (&[8, 9], &[1, 2, 9], &[9], &[1, 2, 8, 9], &[8]),
    ];
    for (a, b, both, either, first) in rows {
        assert!(rt; is_rising(a) && is_rising(b));
        assert_eq!(rt; meet(rt.alloc(), a, b)?.as_slice(), both, "{a:?} {b:?}");
        assert_eq!(rt; join(rt.alloc(), a, b)?.as_slice(), either, "{a:?} {b:?}");
        assert_eq!(rt; without(rt.alloc(), a, b)?.as_slice(), first, "{a:?} {b:?}");
    }
    assert!(rt; !is_rising(&[2, 2]) && !is_rising(&[3, 1]));
    Ok(())
}

// Gaps of one, two and three bytes in turn: 100,000 numbers, in three bytes for their count, one
// for the first number, and 33,333 times six.
#[test]
fn lists_of_100_000_numbers_are_written_read_and_joined(rt: HostRuntime) -> Result<(), Fail> {
    let mut list = Vec::new(rt.alloc());
    let mut behind = Vec::new(rt.alloc());
    let mut number = 0u32;
    for i in 0..100_000 {
        list.push(number)?;
        behind.push(number.wrapping_add(1))?;
        number = number.wrapping_add([6, 301, 20_001][i % 3]);
    }
    assert!(rt; is_rising(list.as_slice()) && is_rising(behind.as_slice()));
    let mut out = Vec::new(rt.alloc());
    put_gaps(&mut out, list.as_slice())?;
    assert_eq!(rt; out.len(), 200_002);
    let mut cursor = read_gaps(out.as_slice()).ok_or("no gap list")?;
    assert_eq!(rt; cursor.used(), 200_002);
    assert_eq!(rt; cursor.len(), 100_000);
    for &n in &list {
        assert_eq!(rt; cursor.next(), Some(n));
    }
    let met = meet(rt.alloc(), list.as_slice(), list.as_slice())?;
    assert_eq!(rt; met.as_slice(), list.as_slice());
    let joined = join(rt.alloc(), list.as_slice(), behind.as_slice())?;
    assert_eq!(rt; joined.len(), 200_000);
    let kept = without(rt.alloc(), list.as_slice(), behind.as_slice())?;
    assert_eq!(rt; kept.as_slice(), list.as_slice());
    Ok(())
}

#[test]
fn written_lists_are_read_again(rt: HostRuntime) -> Result<(), Fail> {
    let mut state = 88172645463325252u64;
    for _ in 0..200 {
        let mut list = Vec::new(rt.alloc());
        let mut number = 0u64;
        for _ in 0..100 {
            state ^= state << 13;
            state ^= state >> 7;
            state ^= state << 17;
            // Gaps of one bit to thirty.
            let gap = (state >> 32) % (1 << (1 + state % 30));
            number = number.saturating_add(gap);
            match u32::try_from(number) {
                Ok(n) => list.push(n)?,
                Err(_) => break,
            }
            number = number.saturating_add(1);
        }
        assert!(rt; is_rising(list.as_slice()));
        let mut out = Vec::new(rt.alloc());
        put_gaps(&mut out, list.as_slice())?;
        let length = out.len();
        put_gaps(&mut out, list.as_slice())?;
        let mut cursor = read_gaps(out.as_slice()).ok_or("no gap list")?;
        let mut again = Vec::new(rt.alloc());
        for _ in 0..list.len() {
            again.push(cursor.next().ok_or("too few numbers")?)?;
        }
        assert_eq!(rt; again.as_slice(), list.as_slice());
        assert_eq!(rt; cursor.next(), None);
        assert_eq!(rt; cursor.used(), length);
    }
    Ok(())
}
