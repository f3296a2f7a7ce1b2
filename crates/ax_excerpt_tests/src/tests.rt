//! Queries with the part of a document that they look at, worked out by hand: `{a,b{c}}` is all of the
//! member `a`, and of `b`, where that is a map, the member `c`.
use ax_excerpt::{Excerpt, excerpt_for, excerpt_for_keys};
use ax_mean::{Members, Memory, Query};
use ax_parse::parse;
use std::alloc::Global;
use std::test::Fail;

/// The query of a text without parameters.
fn query_of(alloc: Global, text: &str) -> Result<Query, Fail> {
    let params = Members::new(alloc);
    Ok(parse(alloc, text.as_bytes(), &params)?)
}

/// Appends the names that an excerpt has.
#[cycle(names)]
fn append(out: &mut Vec<u8>, excerpt: &Excerpt) -> Result<(), Memory> {
    match excerpt {
        Excerpt::Whole => Ok(()),
        Excerpt::Part(parts) => append_parts(out, parts),
    }
}

#[cycle(names)]
fn append_parts(out: &mut Vec<u8>, parts: &Members<Excerpt>) -> Result<(), Memory> {
    let mut mark = b"".as_slice();
    out.push(b'{')?;
    for part in parts.as_slice() {
        out.extend_from_slice(mark)?;
        out.extend_from_slice(part.name.as_str().as_bytes())?;
        append(out, &part.value)?;
        mark = b",".as_slice();
    }
    out.push(b'}')?;
    Ok(())
}

/// The names that an excerpt has; `whole` where there is none.
fn written(alloc: Global, found: &Option<Excerpt>) -> Result<Vec<u8>, Memory> {
    let mut out = Vec::new(alloc);
    match found {
        Some(excerpt) => append(&mut out, excerpt)?,
        None => out.extend_from_slice(b"whole".as_slice())?,
    }
    Ok(out)
}

fn found_for(alloc: Global, query: &Query) -> Result<Vec<u8>, Fail> {
    let found = excerpt_for(alloc, query)?;
    Ok(written(alloc, &found)?)
}

fn found_for_keys(alloc: Global, query: &Query) -> Result<Vec<u8>, Fail> {
    let found = excerpt_for_keys(alloc, query)?;
    Ok(written(alloc, &found)?)
}

/// What the query of a text looks at.
fn looked_at(alloc: Global, text: &str) -> Result<Vec<u8>, Fail> {
    let query = query_of(alloc, text)?;
    found_for(alloc, &query)
}

/// What the query of a text looks at beside what it shows.
fn looked_at_for_keys(alloc: Global, text: &str) -> Result<Vec<u8>, Fail> {
    let query = query_of(alloc, text)?;
    found_for_keys(alloc, &query)
}

#[test]
fn paths_of_the_pick_and_of_where(rt: HostRuntime) -> Result<(), Fail> {
    const TABLE: [(&str, &str); 6] = [
        ("SELECT VALUE c.id FROM c", "{id}"),
        ("SELECT c.b.a, c.a AS x FROM c", "{a,b{a}}"),
        ("SELECT VALUE 1 FROM c", "{}"),
        ("SELECT VALUE c.id FROM c WHERE c.n > 5", "{id,n}"),
        (
            "SELECT VALUE 1 FROM c WHERE c.customer.address.city = 'x'",
            "{customer{address{city}}}",
        ),
        (
            "SELECT VALUE c.a.x FROM c WHERE IS_DEFINED(c.a.y) AND NOT c.b IN (c.a.z, 1)",
            "{a{x,y,z},b}",
        ),
    ];
    let alloc = rt.alloc();
    for (text, expected) in TABLE {
        assert_eq!(rt;
            looked_at(alloc, text)?.as_slice(),
            expected.as_bytes(),
            "{text}"
        );
    }
    Ok(())
}

// Of two paths that go one way the shorter counts. Elements of lists are not told apart: a list is left
// whole, and nothing of a map that stands where a list is looked for.
#[test]
fn paths_within_others_and_into_lists(rt: HostRuntime) -> Result<(), Fail> {
    const TABLE: [(&str, &str); 8] = [
        ("SELECT VALUE c.a FROM c WHERE c.a.b = 1", "{a}"),
        ("SELECT VALUE c.a.b FROM c WHERE c.a", "{a}"),
        ("SELECT VALUE c.a.b FROM c WHERE c.aa.b", "{a{b},aa{b}}"),
        ("SELECT VALUE c.list[0].x FROM c", "{list{}}"),
        ("SELECT VALUE c.a.list[1] FROM c", "{a{list{}}}"),
        ("SELECT VALUE c.list[0] FROM c WHERE c.list", "{list}"),
        ("SELECT VALUE c[0] FROM c", "{}"),
        ("SELECT VALUE c['a b']['c'] FROM c", "{a b{c}}"),
    ];
    let alloc = rt.alloc();
    for (text, expected) in TABLE {
        assert_eq!(rt;
            looked_at(alloc, text)?.as_slice(),
            expected.as_bytes(),
            "{text}"
        );
    }
    Ok(())
}

#[test]
fn paths_of_orders_and_groups(rt: HostRuntime) -> Result<(), Fail> {
    const TABLE: [(&str, &str); 4] = [
        ("SELECT VALUE c.id FROM c ORDER BY c.n", "{id,n}"),
        ("SELECT VALUE 1 FROM c ORDER BY c.a.b DESC, c.d", "{a{b},d}"),
        ("SELECT c.k, COUNT(1) AS n FROM c GROUP BY c.k", "{k}"),
        (
            "SELECT VALUE COUNT(1) FROM c GROUP BY c.a.b, c.d",
            "{a{b},d}",
        ),
    ];
    let alloc = rt.alloc();
    for (text, expected) in TABLE {
        assert_eq!(rt;
            looked_at(alloc, text)?.as_slice(),
            expected.as_bytes(),
            "{text}"
        );
    }
    Ok(())
}

#[test]
fn arguments_of_aggregates(rt: HostRuntime) -> Result<(), Fail> {
    const TABLE: [(&str, &str); 4] = [
        ("SELECT VALUE COUNT(1) FROM c", "{}"),
        ("SELECT VALUE SUM(c.n) + 1 FROM c", "{n}"),
        (
            "SELECT c.k, MAX(c.a.b) AS m FROM c GROUP BY c.k",
            "{a{b},k}",
        ),
        ("SELECT VALUE [MIN(c.x), {a: MAX(c.y)}] FROM c", "{x,y}"),
    ];
    let alloc = rt.alloc();
    for (text, expected) in TABLE {
        assert_eq!(rt;
            looked_at(alloc, text)?.as_slice(),
            expected.as_bytes(),
            "{text}"
        );
    }
    Ok(())
}

// What a source binds that begins at another alias than the document's is in what that one binds.
#[test]
fn sources(rt: HostRuntime) -> Result<(), Fail> {
    const TABLE: [(&str, &str); 6] = [
        ("SELECT VALUE t FROM c JOIN t IN c.tags", "{tags}"),
        (
            "SELECT VALUE u.x FROM c JOIN t IN c.a.tags JOIN u IN t.items WHERE t.n = c.n",
            "{a{tags},n}",
        ),
        ("SELECT VALUE t.x FROM t IN c.a.tags", "{a{tags}}"),
        ("SELECT VALUE x.k FROM c.a x", "{a}"),
        ("SELECT VALUE d.a FROM root AS d", "{a}"),
        ("SELECT VALUE t FROM t IN c", "whole"),
    ];
    let alloc = rt.alloc();
    for (text, expected) in TABLE {
        assert_eq!(rt;
            looked_at(alloc, text)?.as_slice(),
            expected.as_bytes(),
            "{text}"
        );
    }
    Ok(())
}

// All is kept that stands around a name that JSON writes with an escape.
#[test]
fn names_with_an_escape(rt: HostRuntime) -> Result<(), Fail> {
    const TABLE: [(&str, &str); 2] = [
        ("SELECT VALUE c.a['x\"y'] FROM c", "{a}"),
        ("SELECT VALUE c.a.b['\\\\'].d FROM c WHERE c.e", "{a{b},e}"),
    ];
    let alloc = rt.alloc();
    for (text, expected) in TABLE {
        assert_eq!(rt;
            looked_at(alloc, text)?.as_slice(),
            expected.as_bytes(),
            "{text}"
        );
    }
    Ok(())
}

// The document itself, and names in it that JSON writes with an escape.
#[test]
fn documents_read_whole(rt: HostRuntime) -> Result<(), Fail> {
    const TABLE: [&str; 7] = [
        "SELECT * FROM c",
        "SELECT VALUE c FROM c",
        "SELECT VALUE {a: c} FROM c",
        "SELECT VALUE c.id FROM c WHERE IS_OBJECT(c)",
        "SELECT VALUE c.id FROM c JOIN t IN c",
        "SELECT VALUE c['a\"b'] FROM c",
        "SELECT VALUE c.id FROM c WHERE c['a\\\\'].b = 1",
    ];
    let alloc = rt.alloc();
    for text in TABLE {
        assert_eq!(rt;
            looked_at(alloc, text)?.as_slice(),
            b"whole".as_slice(),
            "{text}"
        );
    }
    Ok(())
}

#[test]
fn documents_shown_as_they_are_stored(rt: HostRuntime) -> Result<(), Fail> {
    const TABLE: [(&str, &str); 5] = [
        ("SELECT * FROM c", "{}"),
        ("SELECT VALUE c FROM c", "{}"),
        ("SELECT * FROM c WHERE c.a.b = 1", "{a{b}}"),
        ("SELECT * FROM c WHERE c.n > 1 ORDER BY c.m DESC", "{m,n}"),
        ("SELECT * FROM c WHERE IS_OBJECT(c)", "whole"),
    ];
    let alloc = rt.alloc();
    for (text, expected) in TABLE {
        assert_eq!(rt;
            looked_at_for_keys(alloc, text)?.as_slice(),
            expected.as_bytes(),
            "{text}"
        );
    }
    Ok(())
}
