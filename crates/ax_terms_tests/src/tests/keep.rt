ghost use Rattle.std.specs.Prelude.{IfOk, IfSome, IsTrue};
ghost use Rattle.ax_tree.specs.Document.{IsDocument};
ghost use Rattle.ax_pair.specs.Order.{Rise};

use ax_keep::{Change, Memory, changes, changes_under, exchanged};
use ax_leaf::is_in_order;
use ax_mean::{Tree, id_of};
use ax_pair::{Bytes, Pair};
use ax_pair_list::{PairRef, refs_of};
use ax_policy::{Policy, read_policy};
use ax_text::read_tree;
use std::alloc::Global;
use std::test::Fail;

/// Every leaf is covered.
const ALL: &str = r#"{"includedPaths":[{"path":"/*"}]}"#;

/// No leaf is covered, and there is one composite.
const TWO: &str =
    r#"{"includedPaths":[],"excludedPaths":[{"path":"/*"}],"compositeIndexes":[[{"path":"/v"},{"path":"/w"}]]}"#;

/// Nothing is indexed but ids.
const NONE: &str = r#"{"indexingMode":"none"}"#;

const ID_A: &[u8] = b"\x01a";

const ID_B: &[u8] = b"\x01b";

const A_AT_ID: &[u8] = b"\x02\x03id\0\x01\x01\x15a\0\x01";

const B_AT_ID: &[u8] = b"\x02\x03id\0\x01\x01\x15b\0\x01";

const ONE_AT_V: &[u8] = b"\x02\x03v\0\x01\x01\x14\x80\0\0\0\0\0\0\x01";

const X_AT_V: &[u8] = b"\x02\x03v\0\x01\x01\x15x\0\x01";

const TWO_IN_L: &[u8] = b"\x02\x03l\0\x01\x02\x01\x14\x80\0\0\0\0\0\0\x02";

const ONE_AND_NONE: &[u8] =
    b"\x03\x02\0\x03v\0\x01\x01\0\x03w\0\x01\x01\x14\x80\0\0\0\0\0\0\x01\x10";

const X_AND_NONE: &[u8] = b"\x03\x02\0\x03v\0\x01\x01\0\x03w\0\x01\x01\x15x\0\x01\x10";

const ONE_AT_V_W: &[u8] = b"\x02\x03v\0\x01\x03w\0\x01\x01\x14\x80\0\0\0\0\0\0\x01";

/// Is the term added, and its bytes.
type Row = (bool, &'static [u8]);

/// A document as it was and as it is to be, each under a policy, and the changes that are made.
type Case = (
    &'static str,
    Option<&'static str>,
    &'static str,
    Option<&'static str>,
    &'static [Row],
);

/// The same under one policy.
type CaseUnder = (
    &'static str,
    Option<&'static str>,
    Option<&'static str>,
    &'static [Row],
);

fn tree(alloc: Global, text: &str) -> Result<Tree, Memory> {
    match read_tree(alloc, text.as_bytes()) {
        Ok(tree) => Ok(tree),
        Err(_) => Err(Memory),
    }
}

fn policy(alloc: Global, text: &str) -> Result<Policy, Memory> {
    let tree = tree(alloc, text)?;
    match read_policy(alloc, &tree) {
        Ok(policy) => Ok(policy),
        Err(_) => Err(Memory),
    }
}

/// The document that a text is, where there is a text.
fn document(alloc: Global, text: Option<&str>) -> Result<Option<Tree>, Memory>
    ensures { IfOk result (λ document. IfSome document IsDocument) }
{
    let Some(text) = text else {
        return Ok(None);
    };
    let tree = tree(alloc, text)?;
    if id_of(&tree).is_none() {
        return Err(Memory);
    }
    Ok(Some(tree))
}

/// The changes of the document with number 7.
fn changes_of(
    alloc: Global,
    old_under: &str,
    old: Option<&str>,
    new_under: &str,
    new: Option<&str>,
) -> Result<Vec<Change>, Memory> {
    let old_under = policy(alloc, old_under)?;
    let new_under = policy(alloc, new_under)?;
    let old = document(alloc, old)?;
    let new = document(alloc, new)?;
    changes(alloc, 7, &old_under, old.as_ref(), &new_under, new.as_ref())
}

// By hand, from the format of terms in docs/FORMAT.md.
#[test]
fn a_document_changes_by_its_terms(rt: HostRuntime) -> Result<(), Fail> {
    let alloc = rt.alloc();
    let a = Some(r#"{"id":"a"}"#);
    let b = Some(r#"{"id":"b"}"#);
    let a_with_one = Some(r#"{"id":"a","v":1}"#);
    let a_with_x = Some(r#"{"id":"a","v":"x"}"#);
    let one_twice = Some(r#"{"id":"a","l":[1,1]}"#);
    let one_and_two = Some(r#"{"id":"a","l":[1,2]}"#);
    let cases: [Case; 14] = [
        (ALL, a, ALL, a_with_one, &[(true, ONE_AT_V)]),
        (ALL, a_with_one, ALL, a, &[(false, ONE_AT_V)]),
        (ALL, None, ALL, a, &[(true, ID_A), (true, A_AT_ID)]),
        (ALL, a, NONE, None, &[(false, ID_A), (false, A_AT_ID)]),
        (ALL, None, NONE, None, &[]),
        (ALL, a_with_x, ALL, a_with_x, &[]),
        (
            ALL,
            a_with_one,
            ALL,
            a_with_x,
            &[(false, ONE_AT_V), (true, X_AT_V)],
        ),
        (
            ALL,
            a,
            ALL,
            b,
            &[
                (false, ID_A),
                (true, ID_B),
                (false, A_AT_ID),
                (true, B_AT_ID),
            ],
        ),
        (ALL, one_twice, ALL, one_and_two, &[(true, TWO_IN_L)]),
        (ALL, one_and_two, ALL, one_twice, &[(false, TWO_IN_L)]),
        (
            ALL,
            a_with_one,
            NONE,
            a_with_one,
            &[(false, A_AT_ID), (false, ONE_AT_V)],
        ),
        (
            ALL,
            a_with_one,
            TWO,
            a_with_one,
            &[(false, A_AT_ID), (false, ONE_AT_V), (true, ONE_AND_NONE)],
        ),
        (
            TWO,
            a_with_one,
            ALL,
            a_with_x,
            &[(true, A_AT_ID), (true, X_AT_V), (false, ONE_AND_NONE)],
        ),
        (
            NONE,
            None,
            TWO,
            a_with_one,
            &[(true, ID_A), (true, ONE_AND_NONE)],
        ),
    ];
    for (old_under, old, new_under, new, expected) in cases {
        let made = changes_of(alloc, old_under, old, new_under, new)?;
        assert_eq!(rt; made.len(), expected.len());
        for (change, (add, term)) in made.iter().zip(expected) {
            assert_eq!(rt; change.add, *add);
            assert_eq!(rt; change.pair.term.as_slice(), *term);
            assert_eq!(rt; change.pair.number, 7);
        }
    }
    Ok(())
}

/// The same under one policy.
fn changes_under_one(
    alloc: Global,
    under: &str,
    old: Option<&str>,
    new: Option<&str>,
) -> Result<Vec<Change>, Memory> {
    let under = policy(alloc, under)?;
    let old = document(alloc, old)?;
    let new = document(alloc, new)?;
    changes_under(alloc, 7, &under, old.as_ref(), new.as_ref())
}

// By hand, as above: the changes are the same, whatever is passed over.
#[test]
fn a_document_changes_under_one_policy(rt: HostRuntime) -> Result<(), Fail> {
    let alloc = rt.alloc();
    let a = Some(r#"{"id":"a"}"#);
    let a_with_one = Some(r#"{"id":"a","v":1}"#);
    let a_with_x = Some(r#"{"id":"a","v":"x"}"#);
    let a_with_map = Some(r#"{"id":"a","v":{"w":1}}"#);
    let b_with_map = Some(r#"{"id":"b","v":{"w":1}}"#);
    let one_twice = Some(r#"{"id":"a","l":[1,1]}"#);
    let one_and_two = Some(r#"{"id":"a","l":[1,2]}"#);
    let cases: [CaseUnder; 9] = [
        (ALL, one_twice, one_and_two, &[(true, TWO_IN_L)]),
        (ALL, one_and_two, one_twice, &[(false, TWO_IN_L)]),
        (
            ALL,
            a_with_map,
            a_with_one,
            &[(true, ONE_AT_V), (false, ONE_AT_V_W)],
        ),
        (ALL, a_with_map, a, &[(false, ONE_AT_V_W)]),
        (ALL, a, a_with_map, &[(true, ONE_AT_V_W)]),
        (ALL, a_with_map, a_with_map, &[]),
        (
            ALL,
            a_with_map,
            b_with_map,
            &[
                (false, ID_A),
                (true, ID_B),
                (false, A_AT_ID),
                (true, B_AT_ID),
            ],
        ),
        (
            TWO,
            a_with_one,
            a_with_x,
            &[(false, ONE_AND_NONE), (true, X_AND_NONE)],
        ),
        (ALL, None, a, &[(true, ID_A), (true, A_AT_ID)]),
    ];
    for (under, old, new, expected) in cases {
        let made = changes_under_one(alloc, under, old, new)?;
        assert_eq!(rt; made.len(), expected.len());
        for (change, (add, term)) in made.iter().zip(expected) {
            assert_eq!(rt; change.add, *add);
            assert_eq!(rt; change.pair.term.as_slice(), *term);
            assert_eq!(rt; change.pair.number, 7);
        }
    }
    Ok(())
}

/// The document `a` with a list of so many numbers from one on, upward.
fn numbers_from(alloc: Global, first: u32, count: u32) -> Result<String, Fail> {
    let mut text = String::new(alloc);
    text.push_str(r#"{"id":"a","l":[0"#)?;
    for number in 0..count {
        write!(text, ",{}", first.saturating_add(number))?;
    }
    text.push_str("]}")?;
    Ok(text)
}

/// How many changes there are, and how many of them add a pair.
fn counted(changes: &[Change]) -> (usize, usize) {
    let added = changes.iter().filter(|change| change.add).count();
    (changes.len(), added)
}

// 4,096 terms are the most of a document: here the member `id`, 0, and the numbers behind it. The id has one more.
#[test]
fn a_document_of_the_most_terms_changes(rt: HostRuntime) -> Result<(), Fail> {
    let alloc = rt.alloc();
    let from_one = numbers_from(alloc, 1, 4_094)?;
    let from_two = numbers_from(alloc, 2, 4_094)?;
    let from_far = numbers_from(alloc, 10_000, 4_094)?;
    let low = Some(from_one.as_str());
    let next = Some(from_two.as_str());
    let far = Some(from_far.as_str());
    let cases = [
        (None, low, (4_097, 4_097)),
        (low, None, (4_097, 0)),
        (low, low, (0, 0)),
        (low, next, (2, 1)),
        (low, far, (8_188, 4_094)),
    ];
    for (old, new, expected) in cases {
        let made = changes_of(alloc, ALL, old, ALL, new)?;
        assert_eq!(rt; counted(made.as_slice()), expected);
    }
    Ok(())
}

/// Do the pairs rise?
fn do_rise(alloc: Global, pairs: &[Pair]) -> Result<bool, Memory>
    ensures { IfOk result (λ rise. IsTrue rise → Rise pairs.now) }
{
    let refs = match refs_of(alloc, pairs) {
        Ok(refs) => refs,
        Err(_) => return Err(Memory),
    };
    Ok(is_in_order(&PairRef::new(&[], 0), refs.as_slice()))
}

/// Pairs that rise, each of a term of one letter and a number.
fn pairs(alloc: Global, rows: &[(u8, u32)]) -> Result<Vec<Pair>, Memory>
    ensures { IfOk result (λ pairs. Rise pairs.items) }
{
    let mut pairs = Vec::new(alloc);
    for (letter, number) in rows {
        let mut term = Vec::new(alloc);
        term.push(*letter)?;
        pairs.push(Pair {
            term: Bytes::from_vec(term),
            number: *number,
        })?;
    }
    if !do_rise(alloc, pairs.as_slice())? {
        return Err(Memory);
    }
    Ok(pairs)
}

// Pairs of several documents, as many of which a transformation indexes anew at once.
#[test]
fn pairs_of_several_documents_are_exchanged(rt: HostRuntime) -> Result<(), Fail> {
    let alloc = rt.alloc();
    let before = pairs(alloc, &[(b'a', 1), (b'a', 3), (b'b', 1), (b'd', 9)])?;
    let after = pairs(
        alloc,
        &[(b'a', 2), (b'a', 3), (b'c', 1), (b'd', 8), (b'd', 9)],
    )?;
    let made = exchanged(alloc, before, after)?;
    let expected = [
        (false, b'a', 1),
        (true, b'a', 2),
        (false, b'b', 1),
        (true, b'c', 1),
        (true, b'd', 8),
    ];
    assert_eq!(rt; made.len(), expected.len());
    for (change, (add, letter, number)) in made.iter().zip(expected) {
        assert_eq!(rt; change.add, add);
        assert_eq!(rt; change.pair.term.as_slice(), [letter].as_slice());
        assert_eq!(rt; change.pair.number, number);
    }
    Ok(())
}
