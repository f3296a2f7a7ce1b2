//! Policies with as many composites and paths as there may be.
use ax_policy::read_policy;
use ax_terms::{Bytes, terms_of};
use ax_text::read_tree;
use std::alloc::{AllocError, Global};
use std::test::Fail;

const LETTERS: [&str; 8] = ["a", "b", "c", "d", "e", "f", "g", "h"];

/// The text, and a path of two letters behind it.
fn push_path(
    alloc: Global,
    text: &mut String,
    first: &str,
    second: &str,
) -> Result<(), AllocError> {
    let comma = if second == "a" { "" } else { "," };
    let path = format!(in alloc; "{comma}{{\"path\":\"/{first}{second}\"}}")?;
    text.push_str(path.as_str())
}

/// The text, and a composite of eight paths behind it, each of which begins with the letter.
fn push_composite(alloc: Global, text: &mut String, first: &str) -> Result<(), AllocError> {
    text.push_str(if first == "a" { "[" } else { ",[" })?;
    for second in LETTERS {
        push_path(alloc, text, first, second)?;
    }
    text.push_str("]")
}

/// A policy of eight composites of eight paths, and no leaf that is covered.
fn policy_text(alloc: Global) -> Result<String, AllocError> {
    let front = "{\"excludedPaths\":[{\"path\":\"/*\"}],\"compositeIndexes\":[";
    let mut text = String::from_str(alloc, front)?;
    for first in LETTERS {
        push_composite(alloc, &mut text, first)?;
    }
    text.push_str("]}")?;
    Ok(text)
}

/// The terms of a document that has none of the paths.
fn terms(alloc: Global) -> Result<Vec<Bytes>, Fail> {
    let text = policy_text(alloc)?;
    let policy = read_policy(alloc, &read_tree(alloc, text.as_bytes())?)?;
    let document = read_tree(alloc, b"{\"id\":\"a\"}".as_slice())?;
    Ok(terms_of(alloc, &policy, &document)?)
}

// From the format of terms in docs/FORMAT.md: two bytes, seven for each path with its direction, and
// one for each value, which is undefined.
#[test]
fn eight_composites_of_eight_paths_have_terms(rt: HostRuntime) -> Result<(), Fail> {
    let alloc = rt.alloc();
    let terms = terms(alloc)?;
    assert_eq!(rt; terms.len(), 8);
    for (term, letter) in terms.iter().zip(LETTERS) {
        let front = format!(in alloc; "\x03\x08\0\x03{letter}a\0\x01\x01")?;
        assert_eq!(rt; term.as_slice().len(), 2 + 8 * 7 + 8, "{letter}");
        assert!(rt; term.as_slice().starts_with(front.as_bytes()), "{letter}");
    }
    Ok(())
}
