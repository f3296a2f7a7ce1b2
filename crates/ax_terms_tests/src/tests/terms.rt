use ax_policy::{Policy, read_policy};
use ax_terms::{Bytes, Memory, TermCount, count_all, differing_terms, terms_of};
use ax_text::read_tree;
use ax_tree::Tree;
use std::alloc::Global;
use std::test::Fail;

/// Every leaf is covered.
const ALL: &str = r#"{"includedPaths":[{"path":"/*"}]}"#;

const A_AT_ID: &[u8] = b"\x02\x03id\0\x01\x01\x15a\0\x01";

const B_AT_ID: &[u8] = b"\x02\x03id\0\x01\x01\x15b\0\x01";

const ONE_AT_B: &[u8] = b"\x02\x03b\0\x01\x01\x14\x80\0\0\0\0\0\0\x01";

const ONE_AT_V: &[u8] = b"\x02\x03v\0\x01\x01\x14\x80\0\0\0\0\0\0\x01";

const X_AT_V: &[u8] = b"\x02\x03v\0\x01\x01\x15x\0\x01";

const NONE_IN_V: &[u8] = b"\x02\x03v\0\x01\x01\x17{}\0\x01";

const ONE_AT_V_W: &[u8] = b"\x02\x03v\0\x01\x03w\0\x01\x01\x14\x80\0\0\0\0\0\0\x01";

const ONE_AT_Z: &[u8] = b"\x02\x03z\0\x01\x01\x14\x80\0\0\0\0\0\0\x01";

const ONE_IN_L: &[u8] = b"\x02\x03l\0\x01\x02\x01\x14\x80\0\0\0\0\0\0\x01";

const TWO_IN_L: &[u8] = b"\x02\x03l\0\x01\x02\x01\x14\x80\0\0\0\0\0\0\x02";

/// Two documents, and the terms of each by which they differ.
type Differing = (
    &'static str,
    &'static str,
    &'static [&'static [u8]],
    &'static [&'static [u8]],
);

fn tree(alloc: Global, text: &str) -> Result<Tree, Memory> {
    match read_tree(alloc, text.as_bytes()) {
        Ok(tree) => Ok(tree),
        Err(_) => Err(Memory),
    }
}

fn policy(alloc: Global, text: &str) -> Result<Policy, Memory> {
    let tree = tree(alloc, text)?;
    match read_policy(alloc, &tree) {
        Ok(policy) => Ok(policy),
        Err(_) => Err(Memory),
    }
}

/// The terms of a document under a policy, each behind its length.
fn terms(alloc: Global, given: &str, document: &str) -> Result<Vec<Bytes>, Memory> {
    let policy = policy(alloc, given)?;
    let document = tree(alloc, document)?;
    terms_of(alloc, &policy, &document)
}

// By hand, from the format of terms in docs/FORMAT.md.
#[test]
fn an_order_has_its_terms(rt: HostRuntime) -> Result<(), Fail> {
    let alloc = rt.alloc();
    let found = terms(
        alloc,
        r#"{"indexingMode":"consistent","automatic":true,"includedPaths":[{"path":"/*"}],"excludedPaths":[{"path":"/\"_etag\"/?"}],"compositeIndexes":[[{"path":"/status","order":"ascending"},{"path":"/totalCents","order":"descending"}]]}"#,
        r#"{"id":"order-1001","customer":{"name":"Ana Ruiz","address":{"city":"Sevilla","postcode":"41001"}},"status":"open","placed":"2024-03-05T10:15:00Z","totalCents":4350,"tags":["gift","express"],"lines":[{"sku":"BK-1","qty":2,"priceCents":1500},{"sku":"PN-9","qty":3,"priceCents":450}],"_etag":"\"0000-11\"","_ts":1709633700}"#,
    )?;
    let expected: [&[u8]; 17] = [
        b"\x02\x03_ts\0\x01\x01\x14\x80\0\0\0\x65\xE6\xF0\xA4",
        b"\x02\x03customer\0\x01\x03address\0\x01\x03city\0\x01\x01\x15Sevilla\0\x01",
        b"\x02\x03customer\0\x01\x03address\0\x01\x03postcode\0\x01\x01\x1541001\0\x01",
        b"\x02\x03customer\0\x01\x03name\0\x01\x01\x15Ana Ruiz\0\x01",
        b"\x02\x03id\0\x01\x01\x15order-1001\0\x01",
        b"\x02\x03lines\0\x01\x02\x03priceCents\0\x01\x01\x14\x80\0\0\0\0\0\x01\xC2",
        b"\x02\x03lines\0\x01\x02\x03priceCents\0\x01\x01\x14\x80\0\0\0\0\0\x05\xDC",
        b"\x02\x03lines\0\x01\x02\x03qty\0\x01\x01\x14\x80\0\0\0\0\0\0\x02",
        b"\x02\x03lines\0\x01\x02\x03qty\0\x01\x01\x14\x80\0\0\0\0\0\0\x03",
        b"\x02\x03lines\0\x01\x02\x03sku\0\x01\x01\x15BK-1\0\x01",
        b"\x02\x03lines\0\x01\x02\x03sku\0\x01\x01\x15PN-9\0\x01",
        b"\x02\x03placed\0\x01\x01\x152024-03-05T10:15:00Z\0\x01",
        b"\x02\x03status\0\x01\x01\x15open\0\x01",
        b"\x02\x03tags\0\x01\x02\x01\x15express\0\x01",
        b"\x02\x03tags\0\x01\x02\x01\x15gift\0\x01",
        b"\x02\x03totalCents\0\x01\x01\x14\x80\0\0\0\0\0\x10\xFE",
        b"\x03\x02\0\x03status\0\x01\x01\x01\x03totalCents\0\x01\x01\x15open\0\x01\xEB\x7F\xFF\xFF\xFF\xFF\xFF\xEF\x01",
    ];
    assert_eq!(rt; found.len(), expected.len());
    for (term, expected) in found.iter().zip(expected) {
        assert_eq!(rt; term.as_slice(), expected);
    }
    Ok(())
}

#[test]
fn a_composite_has_whole_lists_and_undefined(rt: HostRuntime) -> Result<(), Fail> {
    let alloc = rt.alloc();
    let found = terms(
        alloc,
        r#"{"excludedPaths":[{"path":"/*"}],"includedPaths":[{"path":"/e/*"}],"compositeIndexes":[[{"path":"/l"},{"path":"/none"}]]}"#,
        r#"{"e":[{},[],[],true],"l":[1,"a"],"o":{}}"#,
    )?;
    let expected: [&[u8]; 4] = [
        b"\x02\x03e\0\x01\x02\x01\x13",
        b"\x02\x03e\0\x01\x02\x01\x16[]\0\x01",
        b"\x02\x03e\0\x01\x02\x01\x17{}\0\x01",
        b"\x03\x02\0\x03l\0\x01\x01\0\x03none\0\x01\x01\x16[1,\"a\"]\0\x01\x10",
    ];
    assert_eq!(rt; found.len(), expected.len());
    for (term, expected) in found.iter().zip(expected) {
        assert_eq!(rt; term.as_slice(), expected);
    }
    let none = terms(
        alloc,
        r#"{"indexingMode":"none","compositeIndexes":[[{"path":"/a"},{"path":"/b"}]]}"#,
        r#"{"a":1,"b":2}"#,
    )?;
    assert!(rt; none.is_empty());
    Ok(())
}

// Numbers of terms, their bytes, and the longest path, by hand.
#[test]
fn terms_are_counted_once(rt: HostRuntime) -> Result<(), Fail> {
    let alloc = rt.alloc();
    for (document, count, bytes, longest_path) in [
        ("{}", 1, 7, 1),
        (r#"{"a":[1,1,2],"b":"x"}"#, 3, 42, 6),
        ("[[],{},null,null]", 3, 20, 2),
        (r#"[{"a":1},{"a":1},{"b":[{"a":1}]}]"#, 2, 37, 11),
        (r#"{"a\u0000":false}"#, 1, 9, 7),
    ] {
        let counted = count_all(alloc, &tree(alloc, document)?)?;
        let expected = TermCount {
            count,
            bytes,
            longest_path,
        };
        assert_eq!(rt; counted, expected, "{document}");
    }
    Ok(())
}

/// Whether these are the terms.
fn are(terms: &[Bytes], expected: &[&[u8]]) -> bool {
    terms.len() == expected.len()
        && terms
            .iter()
            .zip(expected)
            .all(|(term, expected)| term.as_slice() == *expected)
}

// By hand: what is equal and reached by names alone is in neither list; a list that differs is in both, whole.
#[test]
fn documents_differ_by_their_terms(rt: HostRuntime) -> Result<(), Fail> {
    let alloc = rt.alloc();
    let policy = policy(alloc, ALL)?;
    let cases: [Differing; 7] = [
        (
            r#"{"id":"a","l":[1,1]}"#,
            r#"{"id":"a","l":[1,2]}"#,
            &[ONE_IN_L],
            &[ONE_IN_L, TWO_IN_L],
        ),
        (
            r#"{"id":"a","m":{"x":{"y":1},"z":[1,{}]},"v":1}"#,
            r#"{"id":"a","m":{"x":{"y":1},"z":[1,{}]},"v":"x"}"#,
            &[ONE_AT_V],
            &[X_AT_V],
        ),
        (
            r#"{"id":"a","v":{"w":1}}"#,
            r#"{"id":"a","v":1}"#,
            &[ONE_AT_V_W],
            &[ONE_AT_V],
        ),
        (
            r#"{"id":"a","v":{}}"#,
            r#"{"id":"a","v":{"w":1}}"#,
            &[NONE_IN_V],
            &[ONE_AT_V_W],
        ),
        (
            r#"{"b":1,"id":"a"}"#,
            r#"{"id":"a","v":1,"z":1}"#,
            &[ONE_AT_B],
            &[ONE_AT_V, ONE_AT_Z],
        ),
        (
            r#"{"id":"a","v":1}"#,
            r#"{"id":"b","v":1}"#,
            &[A_AT_ID],
            &[B_AT_ID],
        ),
        (
            r#"{"id":"a","l":[1,1],"m":{},"v":{"w":1}}"#,
            r#"{"id":"a","l":[1,1],"m":{},"v":{"w":1}}"#,
            &[],
            &[],
        ),
    ];
    for (old, new, gone, come) in cases {
        let before = tree(alloc, old)?;
        let after = tree(alloc, new)?;
        let (found_gone, found_come) = differing_terms(alloc, &policy, &before, &after)?;
        assert!(rt; are(found_gone.as_slice(), gone), "{old}");
        assert!(rt; are(found_come.as_slice(), come), "{new}");
    }
    Ok(())
}
