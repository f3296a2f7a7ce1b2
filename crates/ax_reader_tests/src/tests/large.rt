//! Large documents.
use crate::tests::excerpts::{one, two};
use crate::tests::left_of;
use ax_excerpt::Excerpt;
use std::alloc::Global;
use std::test::Fail;

/// `{"m00000":VALUE,"m00001":VALUE, ..}`
fn members(alloc: Global, count: u32, value: &str) -> Option<String> {
    let mut text = String::from_str(alloc, "{").ok()?;
    for number in 0..count {
        if number > 0 {
            text.push(',').ok()?;
        }
        let member = format!(in alloc; "\"m{number:05}\":{value}").ok()?;
        text.push_str(member.as_str()).ok()?;
    }
    text.push('}').ok()?;
    Some(text)
}

/// The same, one within the other so many times under `a`, and the value in the middle.
fn nested(alloc: Global, depth: u32, value: &str) -> Option<String> {
    let mut text = String::new(alloc);
    for _ in 0..depth {
        text.push_str("{\"a\":").ok()?;
    }
    text.push_str(value).ok()?;
    for _ in 0..depth {
        text.push('}').ok()?;
    }
    Some(text)
}

fn nested_excerpt(alloc: Global, depth: u32) -> Option<Excerpt> {
    let mut excerpt = Excerpt::Whole;
    for _ in 0..depth {
        excerpt = one(alloc, "a", excerpt)?;
    }
    Some(excerpt)
}

fn text_of(alloc: Global, bytes: usize) -> Option<String> {
    let mut text = String::from_str(alloc, "\"").ok()?;
    for _ in 0..bytes {
        text.push('x').ok()?;
    }
    text.push('"').ok()?;
    Some(text)
}

/// Of 5,000 members, two near the end.
fn among_many(alloc: Global) -> Option<Vec<u8>> {
    let text = members(alloc, 5000, "[{\"a\":\"]\"}]")?;
    let excerpt = two(alloc, "m04997", Excerpt::Whole, "m04999", Excerpt::Whole)?;
    left_of(alloc, &excerpt, text.as_bytes())
}

/// What is left of a map that has a text of 60,000 bytes, by that member and by one behind it.
fn of_long_text(alloc: Global) -> Option<(Vec<u8>, Vec<u8>)> {
    let long = text_of(alloc, 60000)?;
    let text = format!(in alloc; "{{\"a\":{long},\"b\":1}}").ok()?;
    let itself = one(alloc, "a", Excerpt::Whole)?;
    let behind = one(alloc, "b", Excerpt::Whole)?;
    Some((
        left_of(alloc, &itself, text.as_bytes())?,
        left_of(alloc, &behind, text.as_bytes())?,
    ))
}

/// The value in the middle of maps nested 100 deep, and what is left by a name that none has.
fn in_the_middle(alloc: Global) -> Option<(Vec<u8>, Vec<u8>)> {
    let text = nested(alloc, 100, "{\"b\":[1],\"c\":2}")?;
    let excerpt = nested_excerpt(alloc, 100)?;
    let other = two(alloc, "B", Excerpt::Whole, "b", Excerpt::Whole)?;
    Some((
        left_of(alloc, &excerpt, text.as_bytes())?,
        left_of(alloc, &other, text.as_bytes())?,
    ))
}

#[test]
fn large_documents_are_read(rt: HostRuntime) -> Result<(), Fail> {
    let alloc = rt.alloc();
    let expected = r#"{"m04997":[{"a":"]"}],"m04999":[{"a":"]"}]}"#;
    let many = among_many(alloc);
    assert!(rt; many.is_some_and(|left| left.as_slice() == expected.as_bytes()));
    let long = of_long_text(alloc);
    assert!(rt;
        long.is_some_and(|(itself, behind)| {
            itself.len() == 60008 && behind.as_slice() == "{\"b\":1}".as_bytes()
        })
    );
    let middle = in_the_middle(alloc);
    assert!(rt;
        middle.is_some_and(|(left, other)| {
            left.len() == 615 && other.as_slice() == "{}".as_bytes()
        })
    );
    Ok(())
}
