//! Queries through the whole program, each over a fresh store with a few documents. The replies are
//! from the meaning of each form, worked out by hand. A reply's lines stand in one row here, with
//! ` / ` between them.
use ax_script::Status;
use ax_script_support::{ROOM, output_of};
use std::alloc::Global;
use std::process::Abort;
use std::test::Fail;

fn add_line(script: &mut Vec<u8>, command: &[u8], argument: &str) -> Result<(), Fail> {
    script.extend_from_slice(command)?;
    script.extend_from_slice(argument.as_bytes())?;
    Ok(script.push(b'\n')?)
}

fn add_writes(script: &mut Vec<u8>, documents: &[&str]) -> Result<(), Fail> {
    for document in documents {
        add_line(script, b"CREATE ", document)?;
    }
    Ok(())
}

/// The writes of the documents, and then the query of a body.
fn script_of(alloc: Global, documents: &[&str], body: &str) -> Result<Vec<u8>, Fail> {
    let mut script = Vec::new(alloc);
    add_writes(&mut script, documents)?;
    add_line(&mut script, b"QUERY ", body)?;
    Ok(script)
}

/// The reply to a script's last line, behind those to so many writes. The replies that are only `ok`
/// are left out.
fn last_reply(alloc: Global, script: &[u8], writes: usize) -> Result<Vec<u8>, Fail> {
    let (status, output) = output_of(alloc, script, &[], &[], ROOM)?;
    if status != Status::Done {
        return Ok(Vec::new(alloc));
    }
    in_one_row(alloc, without_writes(output.as_slice(), writes))
}

/// The output behind so many lines `ok`.
fn without_writes(output: &[u8], count: usize) -> &[u8] {
    let mut rest = output;
    for _ in 0..count {
        if let Some(behind) = rest.strip_prefix(b"ok\n".as_slice()) {
            rest = behind;
        }
    }
    rest
}

/// The lines of an output with ` / ` between them.
fn in_one_row(alloc: Global, output: &[u8]) -> Result<Vec<u8>, Fail> {
    let lines = output.strip_suffix(b"\n".as_slice()).unwrap_or(output);
    let mut row = Vec::new(alloc);
    for byte in lines {
        if *byte == b'\n' {
            row.extend_from_slice(b" / ")?;
        } else {
            row.push(*byte)?;
        }
    }
    Ok(row)
}

/// The reply to the query of a body over these documents.
fn reply_to(alloc: Global, documents: &[&str], body: &str) -> Result<Vec<u8>, Fail> {
    let script = script_of(alloc, documents, body)?;
    last_reply(alloc, script.as_slice(), documents.len())
}

/// The reply to the text of a query without parameters, which has no double quote.
fn answer(alloc: Global, documents: &[&str], text: &str) -> Result<Vec<u8>, Fail> {
    let body = format!(in alloc; "{{\"query\":\"{text}\"}}")?;
    reply_to(alloc, documents, body.as_str())
}

/// Sees that each text of a query has this reply.
fn check(
    rt: &impl Abort,
    alloc: Global,
    documents: &[&str],
    table: &[(&str, &str)],
) -> Result<(), Fail> {
    for (text, expected) in table {
        let reply = answer(alloc, documents, text)?;
        assert_eq!(rt; reply.as_slice(), expected.as_bytes(), "{text}");
    }
    Ok(())
}

/// The bytes with 128 letters `a` in place of each `X`.
fn lengthened(alloc: Global, bytes: &[u8]) -> Result<Vec<u8>, Fail> {
    let mut long = Vec::new(alloc);
    for byte in bytes {
        if *byte == b'X' {
            long.extend_from_slice(&[b'a'; 128])?;
        } else {
            long.push(*byte)?;
        }
    }
    Ok(long)
}

/// The reply to the text of a query, where each `X` of it and of the documents stands for 128 letters.
fn long_answer(alloc: Global, documents: &[&str], text: &str) -> Result<Vec<u8>, Fail> {
    let body = format!(in alloc; "{{\"query\":\"{text}\"}}")?;
    let script = script_of(alloc, documents, body.as_str())?;
    drop(body);
    let long = lengthened(alloc, script.as_slice())?;
    drop(script);
    last_reply(alloc, long.as_slice(), documents.len())
}

// Comparisons are of one kind, and undefined where kinds differ, as is NOT of that.
#[test]
fn only_values_of_one_kind_compare(rt: HostRuntime) -> Result<(), Fail> {
    const DOCUMENTS: [&str; 4] = [
        r#"{"id":"p","a":1}"#,
        r#"{"id":"q","a":"1"}"#,
        r#"{"id":"r","a":null}"#,
        r#"{"id":"s"}"#,
    ];
    const TABLE: [(&str, &str); 2] = [
        (
            "SELECT VALUE c.id FROM c WHERE c.a = 1 AND c.id >= 'p'",
            r#"row "p" / end 1"#,
        ),
        ("SELECT VALUE c.id FROM c WHERE NOT (c.a = 1)", "end 0"),
    ];
    let alloc = rt.alloc();
    check(&rt, alloc, &DOCUMENTS, &TABLE)
}

// A document has no row where its value is undefined.
#[test]
fn an_undefined_value_has_no_row(rt: HostRuntime) -> Result<(), Fail> {
    const DOCUMENTS: [&str; 3] = [r#"{"id":"a"}"#, r#"{"id":"b","x":7}"#, r#"{"id":"c"}"#];
    let alloc = rt.alloc();
    let reply = answer(alloc, &DOCUMENTS, "SELECT VALUE c.x FROM c")?;
    assert_eq!(rt; reply.as_slice(), b"row 7 / end 1".as_slice());
    Ok(())
}

// A join goes over the elements of a list, and over nothing else.
#[test]
fn joins_go_over_lists(rt: HostRuntime) -> Result<(), Fail> {
    const DOCUMENTS: [&str; 3] = [
        r#"{"id":"a","t":[]}"#,
        r#"{"id":"b","t":"xy"}"#,
        r#"{"id":"c","t":[[1,2],3]}"#,
    ];
    const TABLE: [(&str, &str); 2] = [
        (
            "SELECT VALUE t FROM c JOIN t IN c.t",
            "row [1,2] / row 3 / end 2",
        ),
        (
            "SELECT VALUE u FROM c JOIN t IN c.t JOIN u IN t",
            "row 1 / row 2 / end 2",
        ),
    ];
    let alloc = rt.alloc();
    check(&rt, alloc, &DOCUMENTS, &TABLE)
}

// Kinds have an order, ties keep the order of the documents, and DESC turns the values alone.
#[test]
fn rows_are_ordered_by_kind_and_value(rt: HostRuntime) -> Result<(), Fail> {
    const DOCUMENTS: [&str; 9] = [
        r#"{"id":"1","v":{"k":1}}"#,
        r#"{"id":"2","v":[2]}"#,
        r#"{"id":"3","v":"t"}"#,
        r#"{"id":"4","v":-5}"#,
        r#"{"id":"5","v":true}"#,
        r#"{"id":"6","v":false}"#,
        r#"{"id":"7","v":null}"#,
        r#"{"id":"8"}"#,
        r#"{"id":"9","v":-5}"#,
    ];
    const TABLE: [(&str, &str); 2] = [
        (
            "SELECT VALUE c.id FROM c ORDER BY c.v",
            r#"row "8" / row "7" / row "6" / row "5" / row "4" / row "9" / row "3" / row "2" / row "1" / end 9"#,
        ),
        (
            "SELECT VALUE c.id FROM c ORDER BY c.v DESC",
            r#"row "1" / row "2" / row "3" / row "4" / row "9" / row "5" / row "6" / row "7" / row "8" / end 9"#,
        ),
    ];
    let alloc = rt.alloc();
    check(&rt, alloc, &DOCUMENTS, &TABLE)
}

// Texts that agree in 128 bytes compare by what follows.
#[test]
fn long_texts_compare_whole(rt: HostRuntime) -> Result<(), Fail> {
    const DOCUMENTS: [&str; 3] = [
        r#"{"id":"1","v":"Xb"}"#,
        r#"{"id":"2","v":"Xc"}"#,
        r#"{"id":"3","v":"X"}"#,
    ];
    const TABLE: [(&str, &str); 3] = [
        (
            "SELECT VALUE c.id FROM c WHERE c.v = 'Xb'",
            r#"row "1" / end 1"#,
        ),
        (
            "SELECT VALUE c.id FROM c WHERE c.v > 'X'",
            r#"row "1" / row "2" / end 2"#,
        ),
        (
            "SELECT VALUE c.id FROM c ORDER BY c.v",
            r#"row "3" / row "1" / row "2" / end 3"#,
        ),
    ];
    let alloc = rt.alloc();
    for (text, expected) in TABLE {
        let reply = long_answer(alloc, &DOCUMENTS, text)?;
        assert_eq!(rt; reply.as_slice(), expected.as_bytes(), "{text}");
    }
    Ok(())
}

// A sum past 64 bits and a division with a rest are undefined; an item without a name gets one.
#[test]
fn whole_numbers_stay_whole(rt: HostRuntime) -> Result<(), Fail> {
    let alloc = rt.alloc();
    let text = "SELECT 9223372036854775807 + 1 AS a, 7 / 2 AS b, 6 / 2 AS d, -7 % 3 AS e, 1 FROM c";
    let reply = answer(alloc, &[r#"{"id":"a"}"#], text)?;
    assert_eq!(rt;
        reply.as_slice(),
        br#"row {"$1":1,"d":3,"e":-1} / end 1"#.as_slice()
    );
    Ok(())
}

// Keywords in any case, a parameter with its value and without one, and what of a row is undefined.
#[test]
fn parameters_and_undefined_items(rt: HostRuntime) -> Result<(), Fail> {
    const DOCUMENTS: [&str; 1] = [r#"{"id":"a","n":4,"s":"x_y"}"#];
    const TABLE: [(&str, &str); 3] = [
        (
            r#"{"query":"select value c.n > @k from c","parameters":[{"name":"@k","value":3}]}"#,
            "row true / end 1",
        ),
        (
            r#"{"query":"SELECT VALUE c.n > @k FROM c"}"#,
            "err 10 query",
        ),
        (
            r#"{"query":"SELECT c.s LIKE 'x%' AS p, c.n ?? 1 AS q, c.z ?? 'z' AS r, c.n.m AS t FROM c"}"#,
            r#"row {"p":true,"q":4,"r":"z"} / end 1"#,
        ),
    ];
    let alloc = rt.alloc();
    for (body, expected) in TABLE {
        let reply = reply_to(alloc, &DOCUMENTS, body)?;
        assert_eq!(rt; reply.as_slice(), expected.as_bytes(), "{body}");
    }
    Ok(())
}

// Of equal rows the first is kept; the last source varies fastest; rows are left out, then counted.
#[test]
fn rows_are_told_apart_and_counted(rt: HostRuntime) -> Result<(), Fail> {
    const DOCUMENTS: [&str; 1] = [r#"{"id":"a","t":[2,1,2]}"#];
    const TABLE: [(&str, &str); 4] = [
        (
            "SELECT DISTINCT VALUE x FROM x IN c.t",
            "row 2 / row 1 / end 2",
        ),
        (
            "SELECT VALUE [x,y] FROM c JOIN x IN c.t JOIN y IN c.t OFFSET 3 LIMIT 2",
            "row [1,2] / row [1,1] / end 2",
        ),
        ("SELECT TOP 1 VALUE x FROM x IN c.t", "row 2 / end 1"),
        ("SELECT TOP 0 * FROM c", "end 0"),
    ];
    let alloc = rt.alloc();
    check(&rt, alloc, &DOCUMENTS, &TABLE)
}

// An order by one path is kept, for every path but one; a name that nothing binds is no query.
#[test]
fn some_queries_are_refused(rt: HostRuntime) -> Result<(), Fail> {
    const DOCUMENTS: [&str; 1] = [r#"{"id":"a","t":[2,1,2]}"#];
    const TABLE: [(&str, &str); 6] = [
        ("SELECT * FROM c ORDER BY c._etag", "err 11 order"),
        ("SELECT * FROM c ORDER BY c.id, c.t", "err 11 order"),
        (
            "SELECT VALUE c.id FROM c ORDER BY c._etag.x",
            r#"row "a" / end 1"#,
        ),
        ("SELECT VALUE d.id FROM c", "err 10 query"),
        ("SELECT VALUE COUNT(*) FROM c", "err 10 query"),
        ("SELECT c.id FROM c GROUP BY c.t", "err 10 query"),
    ];
    let alloc = rt.alloc();
    check(&rt, alloc, &DOCUMENTS, &TABLE)
}

// Rows with equal values are one group, undefined among them and first; a sum is exact, and undefined
// of a text; without GROUP BY there is one group, also of no rows.
#[test]
fn groups_show_one_row_each(rt: HostRuntime) -> Result<(), Fail> {
    const DOCUMENTS: [&str; 5] = [
        r#"{"id":"a","k":1,"v":5}"#,
        r#"{"id":"b","k":2,"v":7}"#,
        r#"{"id":"c","k":1,"v":6}"#,
        r#"{"id":"d","v":1}"#,
        r#"{"id":"e","k":3,"v":"x"}"#,
    ];
    const TABLE: [(&str, &str); 9] = [
        (
            "SELECT c.k, COUNT(1) AS n, SUM(c.v) AS s FROM c GROUP BY c.k",
            r#"row {"n":1,"s":1} / row {"k":1,"n":2,"s":11} / row {"k":2,"n":1,"s":7} / row {"k":3,"n":1} / end 4"#,
        ),
        ("SELECT VALUE COUNT(c.k) FROM c", "row 4 / end 1"),
        (
            "SELECT VALUE [MIN(c.v), MAX(c.v)] FROM c",
            r#"row [1,"x"] / end 1"#,
        ),
        (
            "SELECT VALUE SUM(c.v) FROM c WHERE c.k < 3",
            "row 18 / end 1",
        ),
        (
            "SELECT VALUE SUM(c.v) FROM c WHERE c.k > 3",
            "row 0 / end 1",
        ),
        ("SELECT VALUE SUM(c.v) FROM c", "end 0"),
        (
            "SELECT VALUE c.k FROM c WHERE c.k > 3 GROUP BY c.k",
            "end 0",
        ),
        (
            "SELECT DISTINCT VALUE COUNT(1) FROM c GROUP BY c.k OFFSET 1 LIMIT 5",
            "row 2 / end 1",
        ),
        (
            "SELECT VALUE COUNT(1) + SUM(c.v) * 2 FROM c WHERE c.k < 2",
            "row 24 / end 1",
        ),
    ];
    let alloc = rt.alloc();
    check(&rt, alloc, &DOCUMENTS, &TABLE)
}

// A sum that passes 64 bits on its way is what it is in the end.
#[test]
fn sums_are_exact(rt: HostRuntime) -> Result<(), Fail> {
    const DOCUMENTS: [&str; 3] = [
        r#"{"id":"a","v":9223372036854775807}"#,
        r#"{"id":"b","v":9223372036854775807}"#,
        r#"{"id":"c","v":-9223372036854775807}"#,
    ];
    const TABLE: [(&str, &str); 2] = [
        (
            "SELECT VALUE SUM(c.v) FROM c",
            "row 9223372036854775807 / end 1",
        ),
        ("SELECT VALUE SUM(c.v) FROM c WHERE c.v > 0", "end 0"),
    ];
    let alloc = rt.alloc();
    check(&rt, alloc, &DOCUMENTS, &TABLE)
}
