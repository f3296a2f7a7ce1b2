use ax_mean::{Items, Text};
use ax_term::{
    Composite, Memory, Order, Path, Step, TermValue, append_step, append_value, composite_term,
    id_term, term,
};
use std::alloc::Global;
use std::test::Fail;

fn name(alloc: Global, name: &str) -> Result<Step, Memory> {
    Ok(Step::Name(Text::from_string(String::from_str(alloc, name)?)))
}

fn bytes(alloc: Global, bytes: &[u8]) -> Result<Items<u8>, Memory> {
    Ok(Items::from_vec(Vec::from_slice(alloc, bytes)?))
}

fn order(alloc: Global, step: &str, down: bool) -> Result<Order, Memory> {
    let mut path = Items::new(alloc);
    path.push(name(alloc, step)?)?;
    Ok(Order { path, down })
}

/// The value's bytes, behind a byte that stands there.
fn value_bytes(alloc: Global, value: &TermValue) -> Result<Vec<u8>, Memory> {
    let mut out = Vec::new(alloc);
    out.push(9)?;
    append_value(&mut out, value)?;
    Ok(out)
}

/// The end of the term of a text of so many bytes, and how long it is.
fn cut_text(alloc: Global, count: usize) -> Result<Vec<u8>, Memory> {
    let mut text = Items::new(alloc);
    for _ in 0..count {
        text.push(b'x')?;
    }
    term(alloc, &Items::new(alloc), &TermValue::Text(text))
}

// The worked example of docs/FORMAT.md.
#[test]
fn a_number_at_a_path_has_the_worked_bytes(rt: HostRuntime) -> Result<(), Fail> {
    let alloc = rt.alloc();
    let mut path: Path = Items::new(alloc);
    path.push(name(alloc, "a")?)?;
    path.push(Step::Item)?;
    let found = term(alloc, &path, &TermValue::Number(5))?;
    let expected: &[u8] = &[2, 3, 0x61, 0, 1, 2, 1, 0x14, 0x80, 0, 0, 0, 0, 0, 0, 5];
    assert_eq!(rt; found.as_slice(), expected);
    assert_eq!(rt; id_term(alloc, b"a")?.as_slice(), b"\x01a".as_slice());
    Ok(())
}

#[test]
fn values_have_their_bytes(rt: HostRuntime) -> Result<(), Fail> {
    let alloc = rt.alloc();
    let rows: [(TermValue, &[u8]); 11] = [
        (TermValue::Undefined, &[9, 0x10]),
        (TermValue::Null, &[9, 0x11]),
        (TermValue::False, &[9, 0x12]),
        (TermValue::True, &[9, 0x13]),
        (TermValue::Number(0), &[9, 0x14, 0x80, 0, 0, 0, 0, 0, 0, 0]),
        (
            TermValue::Number(-1),
            &[9, 0x14, 0x7F, 255, 255, 255, 255, 255, 255, 255],
        ),
        (
            TermValue::Number(i64::MIN),
            &[9, 0x14, 0, 0, 0, 0, 0, 0, 0, 0],
        ),
        (
            TermValue::Number(i64::MAX),
            &[9, 0x14, 255, 255, 255, 255, 255, 255, 255, 255],
        ),
        (
            TermValue::Text(bytes(alloc, b"a\0b")?),
            &[9, 0x15, 0x61, 0, 255, 0x62, 0, 1],
        ),
        (
            TermValue::List(bytes(alloc, b"[]")?),
            &[9, 0x16, 0x5B, 0x5D, 0, 1],
        ),
        (
            TermValue::Object(bytes(alloc, b"{}")?),
            &[9, 0x17, 0x7B, 0x7D, 0, 1],
        ),
    ];
    for (value, expected) in rows {
        assert_eq!(rt; value_bytes(alloc, &value)?.as_slice(), expected);
    }
    Ok(())
}

#[test]
fn texts_are_cut_at_128_bytes(rt: HostRuntime) -> Result<(), Fail> {
    let alloc = rt.alloc();
    for (count, length, end) in [
        (127, 132, 1),
        (128, 133, 1),
        (129, 133, 2),
        (60_000, 133, 2),
    ] {
        let found = cut_text(alloc, count)?;
        assert_eq!(rt; found.len(), length);
        assert_eq!(rt; found.last(), Some(&end));
    }
    Ok(())
}

#[test]
fn a_descending_value_is_complemented(rt: HostRuntime) -> Result<(), Fail> {
    let alloc = rt.alloc();
    let mut composite: Composite = Items::new(alloc);
    composite.push(order(alloc, "a", false)?)?;
    composite.push(order(alloc, "b", true)?)?;
    let text = TermValue::Text(bytes(alloc, b"x")?);
    let found = composite_term(alloc, &composite, &[TermValue::Number(1), text])?;
    let expected: &[u8] = &[
        3, 2, 0, 3, 0x61, 0, 1, 1, 1, 3, 0x62, 0, 1, 1, 0x14, 0x80, 0, 0, 0, 0, 0, 0, 1, 0xEA,
        0x87, 0xFF, 0xFE,
    ];
    assert_eq!(rt; found.as_slice(), expected);
    Ok(())
}

#[test]
fn a_composite_of_255_paths_has_a_term(rt: HostRuntime) -> Result<(), Fail> {
    let alloc = rt.alloc();
    let mut composite: Composite = Items::new(alloc);
    let mut values = Vec::new(alloc);
    for _ in 0..255 {
        composite.push(Order {
            path: Items::new(alloc),
            down: true,
        })?;
        values.push(TermValue::Null)?;
    }
    assert_eq!(rt; composite.as_slice().len(), 255);
    assert_eq!(rt; values.len(), 255);
    let found = composite_term(alloc, &composite, &values)?;
    assert_eq!(rt; found.len(), 2 + 2 * 255 + 255);
    Ok(())
}

#[test]
fn a_long_name_of_zeros_is_a_step(rt: HostRuntime) -> Result<(), Fail> {
    let alloc = rt.alloc();
    let mut zeros = String::new(alloc);
    for _ in 0..255 {
        zeros.push('\0')?;
    }
    let mut out = Vec::new(alloc);
    append_step(&mut out, &Step::Name(Text::from_string(zeros)))?;
    assert_eq!(rt; out.len(), 1 + 2 * 255 + 2);
    Ok(())
}
