//! Random documents and excerpts, beside the definition by a look at each member for each name.
use crate::tests::excerpts::{one, two};
use crate::tests::left_of;
use ax_excerpt::Excerpt;
use ax_text::read_tree;
use ax_tree::{Members, Tree, append_tree, write_tree};
use std::alloc::Global;
use std::test::Fail;

/// Names of an excerpt, by twos, the lower one first.
const PAIRS: [(&str, &str); 8] = [
    ("", "a"),
    ("A", "b"),
    ("a", "aa"),
    ("a", "b"),
    ("a", "é"),
    ("aa", "😀"),
    ("b", "é"),
    ("é", "😀"),
];

/// Names of members as they are written, in their order.
const NAMES: [&str; 11] = [
    r#""""#,
    r#""\n""#,
    r#""A""#,
    r#""a""#,
    r#""a\n""#,
    r#""a\"""#,
    r#""aa""#,
    r#""b""#,
    r#""b\\""#,
    r#""é""#,
    r#""😀""#,
];

/// What a written text is made of.
const PIECES: [&str; 13] = [
    r"\n",
    r#"\""#,
    r"\\",
    r"\u0001",
    "é",
    "€",
    "😀",
    "}",
    "{",
    "[",
    "],",
    r#"\"a\":"#,
    "abcdefghi",
];

/// Values as they are written.
const VALUES: [&str; 8] = [
    "null",
    "true",
    "false",
    "0",
    "9223372036854775807",
    "-9223372036854775808",
    "{}",
    r#"[{"a":"]"},[]]"#,
];

/// The next number of a linear congruential generator, below a bound.
fn drawn(state: &mut u64, bound: u64) -> usize {
    *state = state
        .wrapping_mul(6364136223846793005)
        .wrapping_add(1442695040888963407);
    ((*state >> 33) % bound.max(1)) as usize
}

/// A text as it is written, of less than 400 bytes.
fn push_text(text: &mut String, state: &mut u64) -> Option<()> {
    text.push('"').ok()?;
    for _ in 0..drawn(state, 40) {
        if let Some(piece) = PIECES.get(drawn(state, 13)) {
            text.push_str(*piece).ok()?;
        }
    }
    text.push('"').ok()
}

/// A number, a text, a value of the table, or what is given.
fn push_value(text: &mut String, state: &mut u64, within: &str) -> Option<()> {
    match drawn(state, 4) {
        0 => push_text(text, state),
        1 => text.push_str(within).ok(),
        _ => push_listed(text, state),
    }
}

fn push_listed(text: &mut String, state: &mut u64) -> Option<()> {
    match VALUES.get(drawn(state, 8)) {
        Some(value) => text.push_str(*value).ok(),
        None => None,
    }
}

fn push_list(text: &mut String, state: &mut u64, within: &str) -> Option<()> {
    text.push('[').ok()?;
    for _ in 0..drawn(state, 3) {
        push_value(text, state, within)?;
        text.push(',').ok()?;
    }
    push_value(text, state, within)?;
    text.push(']').ok()
}

/// A map that has the first member, and some of the others.
fn push_map(text: &mut String, state: &mut u64, within: &str) -> Option<()> {
    text.push_str("{\"\":0").ok()?;
    for name in NAMES {
        if drawn(state, 3) > 0 {
            push_member(text, state, name, within)?;
        }
    }
    text.push('}').ok()
}

fn push_member(text: &mut String, state: &mut u64, name: &str, within: &str) -> Option<()> {
    text.push(',').ok()?;
    text.push_str(name).ok()?;
    text.push(':').ok()?;
    push_value(text, state, within)
}

/// A list or a map that has the value in it some times.
fn around(alloc: Global, state: &mut u64, within: &str) -> Option<String> {
    let mut text = String::new(alloc);
    let done = if drawn(state, 6) == 0 {
        push_list(&mut text, state, within)
    } else {
        push_map(&mut text, state, within)
    };
    done?;
    Some(text)
}

/// A document, not more than five deep but for the values of the table.
fn drawn_text(alloc: Global, state: &mut u64) -> Option<String> {
    let mut text = String::from_str(alloc, "1").ok()?;
    for _ in 0..drawn(state, 6) {
        text = around(alloc, state, text.as_str())?;
    }
    Some(text)
}

/// The excerpt of one or two names, of which one leads to what is given.
fn excerpt_around(alloc: Global, state: &mut u64, within: Excerpt) -> Option<Excerpt> {
    let form = drawn(state, 3);
    let Some((low, high)) = PAIRS.get(drawn(state, 8)) else {
        drop(within);
        return None;
    };
    match form {
        0 => one(alloc, *low, within),
        1 => two(alloc, *low, within, *high, Excerpt::Whole),
        _ => two(alloc, *low, Excerpt::Whole, *high, within),
    }
}

fn drawn_excerpt(alloc: Global, state: &mut u64) -> Option<Excerpt> {
    let mut excerpt = Excerpt::Whole;
    for _ in 0..drawn(state, 4) {
        excerpt = excerpt_around(alloc, state, excerpt)?;
    }
    Some(excerpt)
}

/// Writes what an excerpt leaves of a tree.
#[cycle(left)]
fn push_left(out: &mut Vec<u8>, excerpt: &Excerpt, tree: &Tree) -> Option<()> {
    match excerpt {
        Excerpt::Whole => append_tree(out, tree).ok(),
        Excerpt::Part(parts) => match tree {
            Tree::Object(members) => push_parts(out, parts, members),
            _ => append_tree(out, tree).ok(),
        },
    }
}

#[cycle(left)]
fn push_parts(out: &mut Vec<u8>, parts: &Members<Excerpt>, members: &Members<Tree>) -> Option<()> {
    out.push(b'{').ok()?;
    for part in parts.as_slice() {
        let name = part.name.as_str();
        if let Some(value) = value_under(members, name) {
            push_name(out, name)?;
            push_left(out, &part.value, value)?;
            out.push(b',').ok()?;
        }
    }
    push_end(out)
}

fn value_under<'a>(members: &'a Members<Tree>, name: &str) -> Option<&'a Tree> {
    for member in members.as_slice() {
        if member.name.as_str() == name {
            return Some(&member.value);
        }
    }
    None
}

/// A name that needs no escape.
fn push_name(out: &mut Vec<u8>, name: &str) -> Option<()> {
    out.push(b'"').ok()?;
    out.extend_from_slice(name.as_bytes()).ok()?;
    out.extend_from_slice(b"\":").ok()
}

/// The end of a map, in the place of the last comma.
fn push_end(out: &mut Vec<u8>) -> Option<()> {
    if out.last() == Some(&b',') {
        let _ = out.pop();
    }
    out.push(b'}').ok()
}

fn left_by_definition(alloc: Global, excerpt: &Excerpt, tree: &Tree) -> Option<Vec<u8>> {
    let mut out = Vec::new(alloc);
    push_left(&mut out, excerpt, tree)?;
    Some(out)
}

/// Whether the reader leaves what the definition does.
fn is_as_defined(alloc: Global, excerpt: &Excerpt, text: &[u8]) -> Option<bool> {
    let tree = read_tree(alloc, text).ok()?;
    let defined = left_by_definition(alloc, excerpt, &tree)?;
    let canonical = write_tree(alloc, &tree).ok()?;
    let left = left_of(alloc, excerpt, canonical.as_slice())?;
    Some(left.as_slice() == defined.as_slice())
}

fn is_left(alloc: Global, seed: u64) -> Option<bool> {
    let mut state = seed;
    let excerpt = drawn_excerpt(alloc, &mut state)?;
    let text = drawn_text(alloc, &mut state)?;
    is_as_defined(alloc, &excerpt, text.as_bytes())
}

#[test]
fn random_documents_are_left_as_defined(rt: HostRuntime) -> Result<(), Fail> {
    for seed in 0..2000 {
        let found = is_left(rt.alloc(), seed);
        assert!(rt; found == Some(true), "seed {seed}");
    }
    Ok(())
}
