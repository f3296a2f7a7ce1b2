//! Texts that are queries, and texts beside them that are none, worked out by hand from the grammar
//! and the rules of scope. The parameters are `@k`, 3, `@n`, -1, and `@t`, a text.
use ax_mean::{Query, Tree};
use ax_parse::{ParseFault, parse};
use ax_text::read_tree;
use std::alloc::{AllocError, Global};
use std::process::Abort;
use std::test::Fail;

/// What a text is: a query, or none, or what memory did not suffice for.
#[derive(Clone, Copy, Debug, PartialEq, Eq)]
enum Found {
    AQuery,
    NoQuery,
    OutOfMemory,
}

fn found_of(read: Result<Query, ParseFault>) -> Found {
    match read {
        Ok(query) => {
            drop(query);
            Found::AQuery
        }
        Err(ParseFault::Text) => Found::NoQuery,
        Err(ParseFault::Memory) => Found::OutOfMemory,
    }
}

fn found_with(alloc: Global, text: &str, params: &Tree) -> Found {
    match params {
        Tree::Object(params) => found_of(parse(alloc, text.as_bytes(), params)),
        _ => Found::OutOfMemory,
    }
}

fn found_in(alloc: Global, text: &str) -> Result<Found, Fail> {
    let params = read_tree(alloc, b"{\"@k\":3,\"@n\":-1,\"@t\":\"x\"}".as_slice())?;
    let found = found_with(alloc, text, &params);
    drop(params);
    Ok(found)
}

/// What the text is that picks the value of an expression.
fn found_value(alloc: Global, expr: &str) -> Result<Found, Fail> {
    let text = format!(in alloc; "SELECT VALUE {expr} FROM c")?;
    found_in(alloc, text.as_str())
}

/// Sees that the text `of` something is what is expected.
fn check_found(rt: &impl Abort, found: Found, expected: Found, of: &str) {
    assert_eq!(rt; found, expected, "{of}");
}

/// Sees what each text is.
fn check_texts(
    rt: &impl Abort,
    alloc: Global,
    texts: &[&str],
    expected: Found,
) -> Result<(), Fail> {
    for text in texts {
        check_found(rt, found_in(alloc, text)?, expected, text);
    }
    Ok(())
}

/// Sees what each text is that picks the value of an expression.
fn check_values(
    rt: &impl Abort,
    alloc: Global,
    exprs: &[&str],
    expected: Found,
) -> Result<(), Fail> {
    for expr in exprs {
        check_found(rt, found_value(alloc, expr)?, expected, expr);
    }
    Ok(())
}

/// A text, then a piece so many times, then another text.
fn built(
    alloc: Global,
    front: &str,
    piece: &str,
    count: usize,
    back: &str,
) -> Result<String, AllocError> {
    let mut text = String::from_str(alloc, front)?;
    for _ in 0..count {
        text.push_str(piece)?;
    }
    text.push_str(back)?;
    Ok(text)
}

/// What the text is that has a piece so many times between two others.
fn found_built(
    alloc: Global,
    front: &str,
    piece: &str,
    count: usize,
    back: &str,
) -> Result<Found, Fail> {
    let text = built(alloc, front, piece, count, back)?;
    found_in(alloc, text.as_str())
}

/// Sees what each text is that has a piece so many times between two others.
fn check_built(
    rt: &impl Abort,
    alloc: Global,
    table: &[(&str, &str, usize, &str)],
    expected: Found,
) -> Result<(), Fail> {
    for (front, piece, count, back) in table {
        let found = found_built(alloc, front, piece, *count, back)?;
        check_found(rt, found, expected, front);
    }
    Ok(())
}

/// What the text is that picks 1 in so many pairs of brackets.
fn found_nested(alloc: Global, depth: usize) -> Result<Found, Fail> {
    let front = built(alloc, "SELECT VALUE ", "(", depth, "1")?;
    found_built(alloc, front.as_str(), ")", depth, " FROM c")
}

fn push_join(alloc: Global, text: &mut String, at: u32) -> Result<(), AllocError> {
    let join = format!(in alloc; " JOIN t{at} IN c.t")?;
    text.push_str(join.as_str())
}

/// A text with so many joins.
fn joined(alloc: Global, count: u32) -> Result<String, AllocError> {
    let mut text = String::from_str(alloc, "SELECT VALUE 1 FROM c")?;
    for at in 0..count {
        push_join(alloc, &mut text, at)?;
    }
    Ok(text)
}

/// What the text is that has so many joins.
fn found_joined(alloc: Global, count: u32) -> Result<Found, Fail> {
    let text = joined(alloc, count)?;
    found_in(alloc, text.as_str())
}

fn push_item(alloc: Global, text: &mut String, at: u32) -> Result<(), AllocError> {
    let item = format!(in alloc; ", c.a{at} AS a{at}")?;
    text.push_str(item.as_str())
}

/// A text that picks so many items, each with a name.
fn picking(alloc: Global, count: u32) -> Result<String, AllocError> {
    let mut text = String::from_str(alloc, "SELECT c.a0 AS a0")?;
    for at in 1..count {
        push_item(alloc, &mut text, at)?;
    }
    text.push_str(" FROM c")?;
    Ok(text)
}

/// What the text is that picks so many items, each with a name.
fn found_picking(alloc: Global, count: u32) -> Result<Found, Fail> {
    let text = picking(alloc, count)?;
    found_in(alloc, text.as_str())
}

#[test]
fn tokens_are_as_long_as_they_can_be(rt: HostRuntime) -> Result<(), Fail> {
    const QUERIES: [&str; 10] = [
        "1.a",
        "1 .a",
        "c[01]",
        "--5",
        "c.Order",
        "@k",
        "c . a",
        "\"it's\"",
        "'\\u00e9\\ud83d\\ude00'",
        "NULL",
    ];
    const OTHERS: [&str; 15] = [
        "1a",
        "1_",
        "1.5",
        "1..2",
        "c.5",
        "1 .5",
        "@ k",
        "@z",
        "'a",
        "'\\x'",
        "'\\ud83d'",
        "c;",
        "c.é",
        "!c",
        "c | c",
    ];
    let alloc = rt.alloc();
    check_values(&rt, alloc, &QUERIES, Found::AQuery)?;
    check_values(&rt, alloc, &OTHERS, Found::NoQuery)
}

#[test]
fn numbers_fit_64_bits(rt: HostRuntime) -> Result<(), Fail> {
    const QUERIES: [&str; 5] = [
        "9223372036854775807",
        "-9223372036854775808",
        "- 09223372036854775808",
        "--9223372036854775808",
        "c[4294967295]",
    ];
    const OTHERS: [&str; 8] = [
        "9223372036854775808",
        "+9223372036854775808",
        "-(9223372036854775808)",
        "1 -9223372036854775808",
        "-9223372036854775808.a",
        "-9223372036854775809",
        "c[4294967296]",
        "c[-1]",
    ];
    let alloc = rt.alloc();
    check_values(&rt, alloc, &QUERIES, Found::AQuery)?;
    check_values(&rt, alloc, &OTHERS, Found::NoQuery)
}

#[test]
fn operators_have_levels(rt: HostRuntime) -> Result<(), Fail> {
    const QUERIES: [&str; 8] = [
        "c.a ? 1 : c.b ? 2 : 3",
        "c.a ?? c.b ? 1 : 2",
        "NOT NOT c.a AND c.b OR c.d",
        "c.a BETWEEN 1 AND 2 AND c.b",
        "c.a NOT IN (1, 'x', @k) OR c.b NOT LIKE @t",
        "-c.a + +c.b || 'x' <> ('y' || 'z')",
        "(c.a = c.b) = c.d",
        "{a: 1, 'b c': [], select: {}}",
    ];
    const OTHERS: [&str; 11] = [
        "c.a = c.b = c.d",
        "c.a < 1 IN (true)",
        "c.a NOT = 1",
        "c.a IN ()",
        "c.a BETWEEN 1 OR 2",
        "c.a = NOT c.b",
        "c.a ? 1",
        "(c.a",
        "[1,]",
        "{1: 2}",
        "",
    ];
    let alloc = rt.alloc();
    check_values(&rt, alloc, &QUERIES, Found::AQuery)?;
    check_values(&rt, alloc, &OTHERS, Found::NoQuery)
}

#[test]
fn functions_have_numbers_of_arguments(rt: HostRuntime) -> Result<(), Fail> {
    const QUERIES: [&str; 5] = [
        "concat('a', 'b')",
        "Array_Slice(c.a, 1)",
        "ARRAY_SLICE(c.a, 1, 2)",
        "IS_DEFINED (c.a)",
        "LEFT(c.a, 1)",
    ];
    const OTHERS: [&str; 7] = [
        "CONCAT('a')",
        "ARRAY_SLICE(c.a)",
        "IS_DEFINED()",
        "LENGTH('a', 'b')",
        "FOO(1)",
        "c(1)",
        "SELECT(1)",
    ];
    let alloc = rt.alloc();
    check_values(&rt, alloc, &QUERIES, Found::AQuery)?;
    check_values(&rt, alloc, &OTHERS, Found::NoQuery)
}

#[test]
fn clauses_have_an_order(rt: HostRuntime) -> Result<(), Fail> {
    const QUERIES: [&str; 5] = [
        "select distinct top @k * from c where c.a order by c.a desc",
        "SELECT * FROM c OFFSET 1 LIMIT 0",
        "SELECT c.a b, c.d AS e FROM root AS c JOIN t IN c.t JOIN u IN t['x'][0]",
        "SELECT VALUE count FROM count ORDER BY count.a, count.a ASC",
        "SELECT * FROM x IN c.t WHERE x > 1",
    ];
    const OTHERS: [&str; 10] = [
        "SELECT * FROM c LIMIT 2",
        "SELECT * FROM c OFFSET 1",
        "SELECT * FROM c ORDER BY c.a WHERE c.a",
        "SELECT TOP 4294967296 * FROM c",
        "SELECT TOP @n * FROM c",
        "SELECT TOP @t * FROM c",
        "SELECT FROM c",
        "SELECT *",
        "SELECT * FROM c, d",
        "SELECT * FROM c JOIN c.t",
    ];
    let alloc = rt.alloc();
    check_texts(&rt, alloc, &QUERIES, Found::AQuery)?;
    check_texts(&rt, alloc, &OTHERS, Found::NoQuery)
}

#[test]
fn aliases_are_declared_once(rt: HostRuntime) -> Result<(), Fail> {
    const QUERIES: [&str; 5] = [
        "SELECT VALUE t FROM c.t",
        "SELECT VALUE t FROM c['t']",
        "SELECT VALUE x FROM c[0] x",
        "SELECT VALUE x FROM x IN c",
        "SELECT VALUE root FROM c JOIN root IN c.t",
    ];
    const OTHERS: [&str; 10] = [
        "SELECT VALUE d.a FROM c",
        "SELECT VALUE c.a FROM c.t",
        "SELECT VALUE 1 FROM c[0]",
        "SELECT VALUE 1 FROM c.select",
        "SELECT VALUE 1 FROM c['x y']",
        "SELECT VALUE 1 FROM root c JOIN x IN root.t",
        "SELECT VALUE 1 FROM c JOIN c IN c.t",
        "SELECT VALUE 1 FROM c JOIN x IN y.t JOIN y IN c.t",
        "SELECT VALUE 1 FROM c ORDER BY d.a",
        "SELECT VALUE 1 FROM select",
    ];
    let alloc = rt.alloc();
    check_texts(&rt, alloc, &QUERIES, Found::AQuery)?;
    check_texts(&rt, alloc, &OTHERS, Found::NoQuery)
}

#[test]
fn picks_orders_and_groups_have_rules(rt: HostRuntime) -> Result<(), Fail> {
    const QUERIES: [&str; 4] = [
        "SELECT c.a, c.b.a AS b, 1, 2 FROM c",
        "SELECT c.k, COUNT(1) AS n FROM c GROUP BY c.k",
        "SELECT VALUE SUM(c.v) + 1 FROM c WHERE c.v > 0",
        "SELECT DISTINCT VALUE t FROM c JOIN t IN c.t ORDER BY c.a",
    ];
    const OTHERS: [&str; 7] = [
        "SELECT c.a, c['a'] FROM c",
        "SELECT c['$1'], 1 FROM c",
        "SELECT * FROM c JOIN t IN c.t",
        "SELECT * FROM c ORDER BY c",
        "SELECT * FROM c ORDER BY c[0]",
        "SELECT TOP 1 * FROM c OFFSET 0 LIMIT 1",
        "SELECT VALUE x FROM x IN c.t ORDER BY x.a",
    ];
    const WITH_AGGREGATES: [&str; 6] = [
        "SELECT c.v, COUNT(1) AS n FROM c GROUP BY c.k",
        "SELECT VALUE COUNT(COUNT(1)) FROM c",
        "SELECT VALUE 1 FROM c WHERE COUNT(1) = 1",
        "SELECT VALUE COUNT(1) FROM c ORDER BY c.k",
        "SELECT VALUE COUNT() FROM c",
        "SELECT * FROM c GROUP BY c.k",
    ];
    let alloc = rt.alloc();
    check_texts(&rt, alloc, &QUERIES, Found::AQuery)?;
    check_texts(&rt, alloc, &OTHERS, Found::NoQuery)?;
    check_texts(&rt, alloc, &WITH_AGGREGATES, Found::NoQuery)
}

// A bare expression is one level, and each pair of brackets one more.
#[test]
fn expressions_nest_64_deep(rt: HostRuntime) -> Result<(), Fail> {
    let alloc = rt.alloc();
    check_found(&rt, found_nested(alloc, 63)?, Found::AQuery, "63 pairs");
    check_found(&rt, found_nested(alloc, 64)?, Found::NoQuery, "64 pairs");
    Ok(())
}

#[test]
fn texts_names_and_lists_have_limits(rt: HostRuntime) -> Result<(), Fail> {
    const QUERIES: [(&str, &str, usize, &str); 8] = [
        ("SELECT * FROM c", " ", 16_369, ""),
        ("SELECT VALUE c.", "a", 255, " FROM c"),
        ("SELECT VALUE c.a IN (1", ",1", 255, ") FROM c"),
        ("SELECT VALUE [1", ",1", 255, "] FROM c"),
        ("SELECT VALUE {a: 1", ",a: 1", 255, "} FROM c"),
        ("SELECT VALUE CONCAT('a'", ",'a'", 15, ") FROM c"),
        ("SELECT * FROM c ORDER BY c.a", ",c.a", 7, ""),
        ("SELECT VALUE 1 FROM c GROUP BY c.a", ",c.a", 7, ""),
    ];
    const OTHERS: [(&str, &str, usize, &str); 11] = [
        ("SELECT * FROM c", " ", 16_370, ""),
        ("SELECT VALUE c.", "a", 256, " FROM c"),
        ("SELECT VALUE c.a IN (1", ",1", 256, ") FROM c"),
        ("SELECT VALUE [1", ",1", 256, "] FROM c"),
        ("SELECT VALUE {a: 1", ",a: 1", 256, "} FROM c"),
        ("SELECT VALUE CONCAT('a'", ",'a'", 16, ") FROM c"),
        ("SELECT VALUE CONCAT('a'", ",'a'", 256, ") FROM c"),
        ("SELECT * FROM c ORDER BY c.a", ",c.a", 8, ""),
        ("SELECT * FROM c ORDER BY c.a", ",c.a", 256, ""),
        ("SELECT VALUE 1 FROM c GROUP BY c.a", ",c.a", 8, ""),
        ("SELECT VALUE 1 FROM c GROUP BY c.a", ",c.a", 256, ""),
    ];
    let alloc = rt.alloc();
    check_built(&rt, alloc, &QUERIES, Found::AQuery)?;
    check_built(&rt, alloc, &OTHERS, Found::NoQuery)
}

// Chains of operators, and steps, have no limit but that of the text.
#[test]
fn chains_and_steps_have_no_limit(rt: HostRuntime) -> Result<(), Fail> {
    const TABLE: [(&str, &str, usize, &str); 10] = [
        ("SELECT VALUE 1", "+1", 257, " FROM c"),
        ("SELECT VALUE 1", "*1", 257, " FROM c"),
        ("SELECT VALUE 'a'", "||'a'", 257, " FROM c"),
        ("SELECT VALUE c", " ?? c", 257, " FROM c"),
        ("SELECT VALUE c", " AND c", 257, " FROM c"),
        ("SELECT VALUE c", " OR c", 257, " FROM c"),
        ("SELECT VALUE c", ".a", 257, " FROM c"),
        ("SELECT VALUE a FROM c", ".a", 257, ""),
        ("SELECT VALUE t FROM c JOIN t IN c", ".a", 257, ""),
        ("SELECT * FROM c ORDER BY c", ".a", 257, ""),
    ];
    check_built(&rt, rt.alloc(), &TABLE, Found::AQuery)
}

// An item that has no name is named by how many of these came before it.
#[test]
fn picked_items_have_a_limit(rt: HostRuntime) -> Result<(), Fail> {
    let alloc = rt.alloc();
    for (count, expected) in [(256, Found::AQuery), (257, Found::NoQuery)] {
        check_found(&rt, found_picking(alloc, count)?, expected, "with names");
        let more = (count - 1) as usize;
        let found = found_built(alloc, "SELECT 1", ",1", more, " FROM c")?;
        check_found(&rt, found, expected, "without names");
    }
    Ok(())
}

#[test]
fn joins_have_a_limit(rt: HostRuntime) -> Result<(), Fail> {
    let alloc = rt.alloc();
    for (count, expected) in [
        (8, Found::AQuery),
        (9, Found::NoQuery),
        (257, Found::NoQuery),
    ] {
        check_found(&rt, found_joined(alloc, count)?, expected, "joins");
    }
    Ok(())
}
