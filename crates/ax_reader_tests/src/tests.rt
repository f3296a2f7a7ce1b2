mod excerpts;
mod large;
mod named;
mod random;
mod texts;

use ax_excerpt::{Excerpt, has_plain_names};
use ax_excerpt_text::read_excerpt;
use ax_text::TreeReader;
use ax_tree::write_tree;
use excerpts::{one, two};
use std::alloc::Global;
use std::test::Fail;

/// The text of what the excerpt leaves of a document; `none` where nothing was read.
fn left_of(alloc: Global, excerpt: &Excerpt, text: &[u8]) -> Option<Vec<u8>> {
    if !has_plain_names(excerpt) {
        return None;
    }
    let mut reader = TreeReader::new(alloc);
    let tree = read_excerpt(alloc, &mut reader, excerpt, text).ok()??;
    write_tree(alloc, &tree).ok()
}

/// The text of what is left of a document by its members `b` and `d.e`.
fn left_by_two(alloc: Global, text: &[u8]) -> Option<Vec<u8>> {
    let nested = one(alloc, "e", Excerpt::Whole)?;
    let excerpt = two(alloc, "b", Excerpt::Whole, "d", nested)?;
    left_of(alloc, &excerpt, text)
}

// By hand: what stands under `b`, and of `d`, where that is a map, what stands under `e`.
#[test]
fn members_that_are_named_are_left(rt: HostRuntime) -> Result<(), Fail> {
    const TABLE: [(&str, &str); 9] = [
        (
            r#"{"a":1,"b":2,"c":3,"d":{"e":4,"f":5}}"#,
            r#"{"b":2,"d":{"e":4}}"#,
        ),
        (r#"{"a":{"b":1},"d":{"d":{"e":2}}}"#, r#"{"d":{}}"#),
        (
            r#"{"a\n":1,"b":"\n]","c\"":"{","d":"e"}"#,
            r#"{"b":"\n]","d":"e"}"#,
        ),
        (
            r#"{"a":"\\","b":[{"b":"}"},[]],"bb":1,"d":[{"e":1}]}"#,
            r#"{"b":[{"b":"}"},[]],"d":[{"e":1}]}"#,
        ),
        (r#"{"b\\":1,"b ":2,"c":null}"#, "{}"),
        (
            r#"{"B":true,"b":-9223372036854775808}"#,
            r#"{"b":-9223372036854775808}"#,
        ),
        ("{}", "{}"),
        ("[1]", "[1]"),
        ("\"b\"", "\"b\""),
    ];
    for (text, expected) in TABLE {
        let left = left_by_two(rt.alloc(), text.as_bytes());
        let Some(left) = left else {
            assert!(rt; false, "{text}");
            continue;
        };
        assert_eq!(rt; left.as_slice(), expected.as_bytes(), "{text}");
    }
    Ok(())
}

/// Whether the members `b` and `d.e` of bytes were found to be none.
fn are_none(alloc: Global, text: &[u8]) -> Option<bool> {
    let nested = one(alloc, "e", Excerpt::Whole)?;
    let excerpt = two(alloc, "b", Excerpt::Whole, "d", nested)?;
    if !has_plain_names(&excerpt) {
        return None;
    }
    let mut reader = TreeReader::new(alloc);
    let read = read_excerpt(alloc, &mut reader, &excerpt, text);
    Some(matches!(read, Ok(None)))
}

// Bytes that are no JSON, and numbers that are not whole, are told so, and not as out of memory.
#[test]
fn bytes_that_stand_for_no_tree_are_told(rt: HostRuntime) -> Result<(), Fail> {
    const TABLE: [&str; 7] = [
        r#"{"b":x}"#,
        r#"{"b":1.5}"#,
        r#"{"b":[1e0]}"#,
        r#"{"d":{"e":-0}}"#,
        r#"{"d":{"e":"\x"}}"#,
        "1.5",
        "[",
    ];
    for text in TABLE {
        let told = are_none(rt.alloc(), text.as_bytes());
        assert_eq!(rt; told, Some(true), "{text}");
    }
    Ok(())
}
