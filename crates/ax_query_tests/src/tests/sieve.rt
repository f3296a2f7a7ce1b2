//! Which documents the sieve of a query drops, told from their texts.
use super::texts::query_of;
use ax_mean::Query;
use ax_sieve::{Memory, Sieve};
use std::alloc::Global;
use std::process::Abort;
use std::test::Fail;

fn drops(alloc: Global, query: &Query, document: &str) -> Result<bool, Memory> {
    let sieve = Sieve::of(alloc, query)?;
    Ok(sieve.drops(document.as_bytes()))
}

/// Whether the sieve of the query of a text drops the document of a text.
fn is_dropped(alloc: Global, query: &str, document: &str) -> Result<bool, Fail> {
    let query = query_of(alloc, query)?;
    let found = drops(alloc, &query, document);
    drop(query);
    Ok(found?)
}

/// Sees of each document whether the sieve of the query of a text drops it.
fn check(
    rt: &impl Abort,
    alloc: Global,
    query: &str,
    documents: &[(&str, bool)],
) -> Result<(), Fail> {
    for (document, expected) in documents {
        assert_eq!(rt;
            is_dropped(alloc, query, document)?,
            *expected,
            "{query}: {document}"
        );
    }
    Ok(())
}

#[test]
fn documents_that_fail_a_condition_are_dropped(rt: HostRuntime) -> Result<(), Fail> {
    const DOCUMENTS: [(&str, bool); 9] = [
        (r#"{"id":"1","kind":"a","n":501}"#, false),
        (r#"{"id":"2","kind":"a","n":500}"#, true),
        (r#"{"id":"3","kind":"b","n":501}"#, true),
        (r#"{"id":"4","kind":"a"}"#, true),
        (r#"{"id":"5","kind":"a","n":"501"}"#, true),
        (r#"{"a":{"n":1},"id":"6","kind":"a","n":1000}"#, false),
        (r#"{"id":"7","kind":"a","n":-501}"#, true),
        (r#"{"id":"8","kind":"a","n":null}"#, true),
        (r#"{"id":"9","kind":"\n","n":[501]}"#, false),
    ];
    let query = "SELECT VALUE 1 FROM c WHERE c.n > 500 AND c.kind = 'a'";
    check(&rt, rt.alloc(), query, &DOCUMENTS)
}

#[test]
fn documents_are_dropped_by_nested_members(rt: HostRuntime) -> Result<(), Fail> {
    const DOCUMENTS: [(&str, bool); 6] = [
        (r#"{"a":{"b":{"city":"x"}},"id":"1"}"#, false),
        (r#"{"a":{"b":{"city":"y"}},"id":"2"}"#, true),
        (r#"{"a":{"c":{"city":"x"}},"id":"3"}"#, true),
        (r#"{"a":[{"b":{"city":"x"}}],"city":"x","id":"4"}"#, true),
        (r#"{"a":{"b":{"city":["x"]}},"id":"5"}"#, false),
        (r#"{"city":"x","id":"6"}"#, true),
    ];
    let query = "SELECT VALUE 1 FROM c WHERE c.a.b.city = 'x'";
    check(&rt, rt.alloc(), query, &DOCUMENTS)
}

#[test]
fn of_an_or_nothing_is_dropped(rt: HostRuntime) -> Result<(), Fail> {
    const DOCUMENTS: [(&str, bool); 1] = [(r#"{"id":"1","kind":"a","n":1}"#, false)];
    let query = "SELECT VALUE 1 FROM c WHERE c.n > 500 OR c.kind = 'a'";
    check(&rt, rt.alloc(), query, &DOCUMENTS)
}

#[test]
fn documents_of_joins_are_dropped_by_their_own_members(rt: HostRuntime) -> Result<(), Fail> {
    const DOCUMENTS: [(&str, bool); 2] = [
        (r#"{"id":"x","t":[{"id":"y"}]}"#, false),
        (r#"{"id":"y","t":[{"id":"x"}]}"#, true),
    ];
    let alloc = rt.alloc();
    let one = "SELECT VALUE 1 FROM c JOIN a IN c.t WHERE c.id = 'x'";
    let two = "SELECT VALUE 1 FROM c JOIN a IN c.t JOIN b IN c.t WHERE c.id = 'x'";
    check(&rt, alloc, one, &DOCUMENTS)?;
    check(&rt, alloc, two, &DOCUMENTS)
}

#[test]
fn by_members_of_joined_items_nothing_is_dropped(rt: HostRuntime) -> Result<(), Fail> {
    const DOCUMENTS: [(&str, bool); 1] = [(r#"{"id":"y","t":[{"id":"x"}]}"#, false)];
    let alloc = rt.alloc();
    let one = "SELECT VALUE 1 FROM c JOIN a IN c.t WHERE a.id = 'x'";
    let two = "SELECT VALUE 1 FROM c JOIN a IN c.t JOIN b IN c.t WHERE b.id = 'x'";
    check(&rt, alloc, one, &DOCUMENTS)?;
    check(&rt, alloc, two, &DOCUMENTS)
}

#[test]
fn where_the_first_source_is_a_part_nothing_is_dropped(rt: HostRuntime) -> Result<(), Fail> {
    const DOCUMENTS: [(&str, bool); 1] = [(r#"{"id":"y","t":[{"id":"x"}]}"#, false)];
    let alloc = rt.alloc();
    let part = "SELECT VALUE 1 FROM c.t AS x WHERE x.id = 'x'";
    let each = "SELECT VALUE 1 FROM x IN c.t WHERE x.id = 'x'";
    check(&rt, alloc, part, &DOCUMENTS)?;
    check(&rt, alloc, each, &DOCUMENTS)
}
