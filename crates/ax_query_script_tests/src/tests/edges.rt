//! Queries with conditions that an index answers, over values at the edges of what terms tell apart. The replies are worked
//! out by hand.
use crate::tests::asking::{answers, lengthened, query_between, query_joined, query_of, rows_of};
use ax_disk::MemDisk;
use ax_plain::PlainMachine;
use ax_script_support::fresh_disk;
use std::alloc::Global;
use std::test::Fail;

/// Documents with numbers at the ends of 64 bits, with lists inside lists, with texts of 127, 128 and
/// 129 bytes, where each `X` stands for 127 letters, and with names and texts that have zero bytes, quotation marks and
/// backslashes. Terms tell texts apart by their first 128 bytes.
const EDGES: [&str; 10] = [
    r#"{"id":"a","n":9223372036854775807,"s":"X","t":[[1,[2]],"X"]}"#,
    r#"{"id":"b","n":-9223372036854775808,"s":"Xa","t":[[1,[3]],"Xa"]}"#,
    r#"{"id":"c","n":9223372036854775806,"s":"Xab","t":[[2],[[1]],"Xab"]}"#,
    r#"{"id":"d","n":-9223372036854775807,"s":"Xac","t":[]}"#,
    r#"{"id":"e","n":0,"s":"Xb","t":{"u":[[1]]}}"#,
    r#"{"id":"f","s":null,"t":[[]]}"#,
    r#"{"id":"g","w":["a\u0000"],"x\"y":1,"z":"a\u0000b"}"#,
    r#"{"id":"h","w":["a"],"x\\y":{"\u0000":2},"z":"a"}"#,
    r#"{"id":"i","q'":[5],"x\"y":3,"z":"a\u0000"}"#,
    r#"{"id":"j","m":[9,0],"o":{"p":7}}"#,
];

/// Conditions on them, as they stand in a JSON text, and the ids of those that pass, in order.
const PASSING: [(&str, &str); 67] = [
    ("c.n = 9223372036854775807", "a"),
    ("c.n = -9223372036854775808", "b"),
    ("c.n < -9223372036854775807", "b"),
    ("c.n <= -9223372036854775807", "bd"),
    ("c.n > 9223372036854775806", "a"),
    ("9223372036854775806 <= c.n", "ac"),
    ("c.n BETWEEN -9223372036854775808 AND -1", "bd"),
    ("c.n IN (0, 9223372036854775807, 'x')", "ae"),
    ("c.s = 'X'", "a"),
    ("c.s = 'Xa'", "b"),
    ("c.s = 'Xab'", "c"),
    ("c.s = 'Xabc'", ""),
    ("c.s > 'Xa'", "cde"),
    ("c.s < 'Xa'", "a"),
    ("c.s <= 'Xab'", "abc"),
    ("c.s BETWEEN 'Xa' AND 'Xab'", "bc"),
    ("STARTSWITH(c.s, 'Xa')", "bcd"),
    ("STARTSWITH(c.s, 'Xab')", "c"),
    ("c.s IN ('Xb', 'Xac')", "de"),
    ("c.s = null", "f"),
    ("IS_DEFINED(c.s)", "abcdef"),
    ("ARRAY_CONTAINS(c.t, 'Xa')", "b"),
    ("ARRAY_CONTAINS(c.t, [[1]])", "c"),
    ("c.t[0][0] = 1", "ab"),
    ("c.t[0][1][0] >= 3", "b"),
    ("c.t[1][0][0] = 1", "c"),
    ("c.t.u[0][0] < 2", "e"),
    ("IS_DEFINED(c.t[0])", "abcf"),
    ("IS_DEFINED(c.t[0][0])", "abc"),
    ("c.n > 0 AND c.s = 'Xab'", "c"),
    (
        "STARTSWITH(c.s, 'Xa') AND c.n >= -9223372036854775808",
        "bcd",
    ),
    (
        "c.t[0][0] = 1 AND ARRAY_CONTAINS(c.t, 'Xa') AND c.n < 0",
        "b",
    ),
    (r#"c.z = 'a\\u0000b'"#, "g"),
    ("c.z = 'a'", "h"),
    (r#"c.z > 'a' AND c.z < 'a\\u0001'"#, "gi"),
    (r#"c.z <= 'a\\u0000b'"#, "ghi"),
    (r#"STARTSWITH(c.z, 'a\\u0000')"#, "gi"),
    (r#"c.z IN ('a\\u0000', 'a')"#, "hi"),
    (r#"c.z BETWEEN 'a\\u0000' AND 'a\\u0000b'"#, "gi"),
    (r#"ARRAY_CONTAINS(c.w, 'a\\u0000')"#, "g"),
    ("ARRAY_CONTAINS(c.w, 'a')", "h"),
    (r#"c[\"x\\\"y\"] = 1"#, "g"),
    (r#"c[\"x\\\"y\"] >= 1"#, "gi"),
    (r#"IS_DEFINED(c[\"x\\\"y\"])"#, "gi"),
    (r#"c[\"x\\\\y\"][\"\\u0000\"] = 2"#, "h"),
    (r#"IS_DEFINED(c[\"x\\\\y\"])"#, "h"),
    (r#"c[\"q'\"][0] = 5"#, "i"),
    (
        "c.n > -9223372036854775808 AND c.n < 9223372036854775807",
        "cde",
    ),
    ("c.n >= 1 AND c.n <= -1", ""),
    ("c.n > 0 AND c.n < 'x'", ""),
    ("c.n > 0 AND c.n IN (0, 9223372036854775806, 5)", "c"),
    (
        "c.n IN (0, 9223372036854775807) AND c.n IN (0, 5) AND c.n < 9",
        "e",
    ),
    ("c.s >= 'Xa' AND c.s != 'Xab' AND 'Xb' > c.s", "bd"),
    ("c.o.p > 6 AND 8 > c.o.p", "j"),
    ("IS_DEFINED(c.o) AND c.o.p > 6", "j"),
    ("c.m[0] > 5 AND c.m[1] < 3", "j"),
    ("c.m[0] > 5 AND c.m[0] < 3", ""),
    ("ARRAY_CONTAINS(c.m, 9) AND ARRAY_CONTAINS(c.m, 0)", "j"),
    ("STARTSWITH(c.s, 'Xa') AND c.s > 'Xab'", "d"),
    ("c.s > 'Xab' AND c.s < 'Xac'", ""),
    ("c.s = null AND c.s > 'X'", ""),
    ("c.n = 0 AND c.n IN (0, 0)", "e"),
    ("IS_DEFINED(c.n) AND c.n > 0", "ac"),
    ("c.n IN (1, 2) AND c.n IN (2, 3) AND c.n = 2", ""),
    ("c.n IN (-1, 0) AND c.n IN (0, 1) AND c.n = 0", "e"),
    ("c.n IN (-1, 0) AND c.n = 0 AND c.n IN (0, 1)", "e"),
    ("c.n = 0 AND c.n IN (-1, 0) AND c.n IN (0, 1)", "e"),
];

/// Conditions with two ends, the values of `@low` and `@high`, and the ids of those that pass, in order. By null the index
/// answers no condition, and the ends of the last row are of two kinds.
const BETWEEN: [(&str, &str, &str, &str); 8] = [
    (
        "c.n >= @low AND c.n <= @high",
        "-9223372036854775807",
        "9223372036854775806",
        "cde",
    ),
    (
        "c.n > @low AND c.n < @high",
        "-9223372036854775807",
        "9223372036854775806",
        "e",
    ),
    (
        "@low <= c.n AND @high > c.n",
        "-9223372036854775808",
        "0",
        "bd",
    ),
    ("c.s >= @low AND c.s <= @high", r#""Xa""#, r#""Xab""#, "bc"),
    ("c.s > @low AND c.s < @high", r#""X""#, r#""Xb""#, "bcd"),
    ("c.s >= @low AND c.s <= @high", r#""Xab""#, r#""Xa""#, ""),
    ("c.s >= @low AND c.s <= @high", "null", "null", "f"),
    ("c.n >= @low AND c.n <= @high", "0", r#""9""#, ""),
];

/// Conditions on a document and on the elements of its list, and for each row the id of its document.
const JOINED: [(&str, &str); 5] = [
    ("c.s >= 'X' AND c.s <= 'Xab'", "aabbccc"),
    (
        "c.n > -9223372036854775808 AND c.n < 9223372036854775807",
        "ccc",
    ),
    ("c.s > 'X' AND t = c.s AND c.s < 'Xac'", "bc"),
    ("t > 'X' AND c.n < 9223372036854775807 AND t <= 'Xab'", "bc"),
    ("c.s > 'Xac' AND c.s <= 'Xb'", ""),
];

/// The line of a creation.
fn creation_of(alloc: Global, document: &str) -> Result<Vec<u8>, Fail> {
    let line = format!(in alloc; "CREATE {document}")?;
    lengthened(alloc, line.as_bytes())
}

/// The store of these documents, and the plain machine that holds them.
fn holders_of_edges(alloc: Global) -> Result<(MemDisk, PlainMachine), Fail> {
    let mut disk = fresh_disk(alloc)?;
    let mut machine = PlainMachine::new(alloc);
    for document in EDGES {
        let line = creation_of(alloc, document)?;
        let _replies = answers(alloc, &mut disk, &mut machine, line.as_slice())?;
    }
    Ok((disk, machine))
}

// The program, which asks the index, and the plain machine, which has none, both answer so.
#[test]
fn values_at_the_edges_are_filtered(rt: HostRuntime) -> Result<(), Fail> {
    let alloc = rt.alloc();
    let mut disk = fresh_disk(alloc)?;
    let mut machine = PlainMachine::new(alloc);
    for document in EDGES {
        let line = creation_of(alloc, document)?;
        let (output, plain) = answers(alloc, &mut disk, &mut machine, line.as_slice())?;
        assert_eq!(rt; output.as_slice(), b"ok\n".as_slice(), "{document}");
        assert_eq!(rt; plain.as_slice(), b"ok\n".as_slice(), "plain: {document}");
    }
    for (condition, ids) in PASSING {
        let line = query_of(alloc, condition)?;
        let (output, plain) = answers(alloc, &mut disk, &mut machine, line.as_slice())?;
        drop(line);
        let expected = rows_of(alloc, ids)?;
        assert_eq!(rt; output.as_slice(), expected.as_slice(), "{condition}");
        assert_eq!(rt; plain.as_slice(), expected.as_slice(), "plain: {condition}");
    }
    Ok(())
}

// So they do where the two ends of a range are parameters.
#[test]
fn two_ends_by_parameters_are_filtered(rt: HostRuntime) -> Result<(), Fail> {
    let alloc = rt.alloc();
    let (mut disk, mut machine) = holders_of_edges(alloc)?;
    for (condition, low, high, ids) in BETWEEN {
        let line = query_between(alloc, condition, low, high)?;
        let (output, plain) = answers(alloc, &mut disk, &mut machine, line.as_slice())?;
        drop(line);
        let expected = rows_of(alloc, ids)?;
        assert_eq!(rt;
            output.as_slice(),
            expected.as_slice(),
            "{condition} {low} {high}"
        );
        assert_eq!(rt;
            plain.as_slice(),
            expected.as_slice(),
            "plain: {condition} {low} {high}"
        );
    }
    Ok(())
}

// So they do beside a JOIN, which has a row for each element.
#[test]
fn two_ends_beside_a_join_are_filtered(rt: HostRuntime) -> Result<(), Fail> {
    let alloc = rt.alloc();
    let (mut disk, mut machine) = holders_of_edges(alloc)?;
    for (condition, ids) in JOINED {
        let line = query_joined(alloc, condition)?;
        let (output, plain) = answers(alloc, &mut disk, &mut machine, line.as_slice())?;
        drop(line);
        let expected = rows_of(alloc, ids)?;
        assert_eq!(rt; output.as_slice(), expected.as_slice(), "{condition}");
        assert_eq!(rt; plain.as_slice(), expected.as_slice(), "plain: {condition}");
    }
    Ok(())
}
