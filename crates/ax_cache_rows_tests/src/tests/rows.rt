//! Worked scripts, each over a fresh store: lines and their replies, by hand, from the meaning of each line. Whatever cache the
//! engine has, the same bytes are written. In a line each `X` stands for 128 letters.
use crate::tests::answering::{CHOICES, answers_over, check};
use ax_built_texts::{built, with_numbers};
use ax_script_support::fresh_disk;
use std::alloc::Global;
use std::process::Abort;
use std::test::Fail;

// The members of an object are printed in the order of their names.
const PRINTED: [(&str, &str); 2] = [
    (
        r#"UPSERT {"total":30,"id":"o1","lines":[{"sku":"b","qty":2}]}"#,
        "ok\n",
    ),
    (
        r#"QUERY {"query":"SELECT * FROM c"}"#,
        "row {\"id\":\"o1\",\"lines\":[{\"qty\":2,\"sku\":\"b\"}],\"total\":30}\nend 1\n",
    ),
];

// A document that is there is not created again.
const CREATED_TWICE: [(&str, &str); 3] = [
    (r#"CREATE {"id":"a","n":1}"#, "ok\n"),
    (r#"CREATE {"id":"a","n":2}"#, "err 7 conflict\n"),
    ("READ a", "doc {\"id\":\"a\",\"n\":1}\n"),
];

// Numbers are whole, and have 64 bits.
const NUMBERS: [(&str, &str); 3] = [
    (r#"CREATE {"id":"a","n":1.5}"#, "err 4 number\n"),
    (r#"CREATE {"id":"b","n":9223372036854775807}"#, "ok\n"),
    (
        r#"CREATE {"id":"c","n":9223372036854775808}"#,
        "err 4 number\n",
    ),
];

// Of a name that is written twice the last value counts.
const NAMED_TWICE: [(&str, &str); 2] = [
    (r#"UPSERT {"id":"a","n":1,"n":2}"#, "ok\n"),
    ("READ a", "doc {\"id\":\"a\",\"n\":2}\n"),
];

// Values of two kinds are not compared, and NOT of that is not true.
const KINDS: [(&str, &str); 6] = [
    (r#"CREATE {"id":"p","a":1}"#, "ok\n"),
    (r#"CREATE {"id":"q","a":"1"}"#, "ok\n"),
    (r#"CREATE {"id":"r","a":null}"#, "ok\n"),
    (r#"CREATE {"id":"s"}"#, "ok\n"),
    (
        r#"QUERY {"query":"SELECT VALUE c.id FROM c WHERE c.a = 1 AND c.id >= 'p'"}"#,
        "row \"p\"\nend 1\n",
    ),
    (
        r#"QUERY {"query":"SELECT VALUE c.id FROM c WHERE NOT (c.a = 1)"}"#,
        "end 0\n",
    ),
];

// What a document does not have makes no row.
const UNDEFINED: [(&str, &str); 4] = [
    (r#"CREATE {"id":"a"}"#, "ok\n"),
    (r#"CREATE {"id":"b","x":7}"#, "ok\n"),
    (r#"CREATE {"id":"c"}"#, "ok\n"),
    (
        r#"QUERY {"query":"SELECT VALUE c.x FROM c"}"#,
        "row 7\nend 1\n",
    ),
];

// A join goes over the elements of a list, and over nothing else.
const JOINED: [(&str, &str); 5] = [
    (r#"CREATE {"id":"a","t":[]}"#, "ok\n"),
    (r#"CREATE {"id":"b","t":"xy"}"#, "ok\n"),
    (r#"CREATE {"id":"c","t":[[1,2],3]}"#, "ok\n"),
    (
        r#"QUERY {"query":"SELECT VALUE t FROM c JOIN t IN c.t"}"#,
        "row [1,2]\nrow 3\nend 2\n",
    ),
    (
        r#"QUERY {"query":"SELECT VALUE u FROM c JOIN t IN c.t JOIN u IN t"}"#,
        "row 1\nrow 2\nend 2\n",
    ),
];

// Rows are in the order of kinds, and of values within one; equal ones stand as the documents do, in both directions.
const ORDERED: [(&str, &str); 11] = [
    (r#"CREATE {"id":"1","v":{"k":1}}"#, "ok\n"),
    (r#"CREATE {"id":"2","v":[2]}"#, "ok\n"),
    (r#"CREATE {"id":"3","v":"t"}"#, "ok\n"),
    (r#"CREATE {"id":"4","v":-5}"#, "ok\n"),
    (r#"CREATE {"id":"5","v":true}"#, "ok\n"),
    (r#"CREATE {"id":"6","v":false}"#, "ok\n"),
    (r#"CREATE {"id":"7","v":null}"#, "ok\n"),
    (r#"CREATE {"id":"8"}"#, "ok\n"),
    (r#"CREATE {"id":"9","v":-5}"#, "ok\n"),
    (
        r#"QUERY {"query":"SELECT VALUE c.id FROM c ORDER BY c.v"}"#,
        "row \"8\"\nrow \"7\"\nrow \"6\"\nrow \"5\"\nrow \"4\"\nrow \"9\"\nrow \"3\"\nrow \"2\"\nrow \"1\"\nend 9\n",
    ),
    (
        r#"QUERY {"query":"SELECT VALUE c.id FROM c ORDER BY c.v DESC"}"#,
        "row \"1\"\nrow \"2\"\nrow \"3\"\nrow \"4\"\nrow \"9\"\nrow \"5\"\nrow \"6\"\nrow \"7\"\nrow \"8\"\nend 9\n",
    ),
];

// Texts that agree in their first 128 bytes are told apart by what follows.
const LONG: [(&str, &str); 6] = [
    (r#"CREATE {"id":"1","v":"Xb"}"#, "ok\n"),
    (r#"CREATE {"id":"2","v":"Xc"}"#, "ok\n"),
    (r#"CREATE {"id":"3","v":"X"}"#, "ok\n"),
    (
        r#"QUERY {"query":"SELECT VALUE c.id FROM c WHERE c.v = 'Xb'"}"#,
        "row \"1\"\nend 1\n",
    ),
    (
        r#"QUERY {"query":"SELECT VALUE c.id FROM c WHERE c.v > 'X'"}"#,
        "row \"1\"\nrow \"2\"\nend 2\n",
    ),
    (
        r#"QUERY {"query":"SELECT VALUE c.id FROM c ORDER BY c.v"}"#,
        "row \"3\"\nrow \"1\"\nrow \"2\"\nend 3\n",
    ),
];

// Each is refused by its own words.
const REFUSED: [(&str, &str); 11] = [
    ("", "err 2 command\n"),
    ("FOO", "err 2 command\n"),
    ("CREATE {", "err 3 json\n"),
    ("CREATE 5", "err 5 id\n"),
    (r#"CREATE {"id":""}"#, "err 5 id\n"),
    ("READ zz", "err 8 absent\n"),
    (r#"REPLACE {"id":"zz"}"#, "err 8 absent\n"),
    ("PAGE 0 - {}", "err 2 command\n"),
    ("QUERY {}", "err 10 query\n"),
    (r#"QUERY {"query":"SELECT"}"#, "err 10 query\n"),
    ("STEP 65", "err 2 command\n"),
];

// A document that was deleted and created again comes behind those that were there.
const CREATED_AGAIN: [(&str, &str); 6] = [
    (r#"CREATE {"id":"a","n":1}"#, "ok\n"),
    (r#"CREATE {"id":"b","n":1}"#, "ok\n"),
    ("DELETE a", "ok\n"),
    (r#"CREATE {"id":"a","n":1}"#, "ok\n"),
    (
        r#"QUERY {"query":"SELECT VALUE c.id FROM c WHERE c.n = 1"}"#,
        "row \"b\"\nrow \"a\"\nend 2\n",
    ),
    ("READ a", "doc {\"id\":\"a\",\"n\":1}\n"),
];

// A sum past 64 bits and a quotient with a rest are undefined, and an item without a name gets one.
const WHOLE: [(&str, &str); 2] = [
    (r#"CREATE {"id":"a"}"#, "ok\n"),
    (
        r#"QUERY {"query":"SELECT 9223372036854775807 + 1 AS a, 7 / 2 AS b, 6 / 2 AS d, -7 % 3 AS e, 1 FROM c"}"#,
        "row {\"$1\":1,\"d\":3,\"e\":-1}\nend 1\n",
    ),
];

// Documents without the value by which rows are grouped are a group of their own, and the first.
const GROUPED: [(&str, &str); 5] = [
    (r#"CREATE {"id":"a","k":1,"v":5}"#, "ok\n"),
    (r#"CREATE {"id":"b","k":2,"v":7}"#, "ok\n"),
    (r#"CREATE {"id":"c","k":1,"v":6}"#, "ok\n"),
    (r#"CREATE {"id":"d","v":1}"#, "ok\n"),
    (
        r#"QUERY {"query":"SELECT c.k, COUNT(1) AS n, SUM(c.v) AS s FROM c GROUP BY c.k"}"#,
        "row {\"n\":1,\"s\":1}\nrow {\"k\":1,\"n\":2,\"s\":11}\nrow {\"k\":2,\"n\":1,\"s\":7}\nend 3\n",
    ),
];

// Every script over all caches.
#[test]
fn scripts_are_answered_alike(rt: HostRuntime) -> Result<(), Fail> {
    let alloc = rt.alloc();
    check(&rt, alloc, "printed", &PRINTED)?;
    check(&rt, alloc, "created twice", &CREATED_TWICE)?;
    check(&rt, alloc, "numbers", &NUMBERS)?;
    check(&rt, alloc, "named twice", &NAMED_TWICE)?;
    check(&rt, alloc, "kinds", &KINDS)?;
    check(&rt, alloc, "undefined", &UNDEFINED)?;
    check(&rt, alloc, "joined", &JOINED)?;
    check(&rt, alloc, "ordered", &ORDERED)?;
    check(&rt, alloc, "long", &LONG)?;
    check(&rt, alloc, "refused", &REFUSED)?;
    check(&rt, alloc, "created again", &CREATED_AGAIN)?;
    check(&rt, alloc, "whole", &WHOLE)?;
    check(&rt, alloc, "grouped", &GROUPED)
}

/// A document with as many terms as there may be, one of its id and one of each number, and a document with one more.
fn check_terms(rt: &impl Abort, alloc: Global) -> Result<(), Fail> {
    let most = with_numbers(alloc, "CREATE {\"id\":\"a\",\"v\":[", 4_095, "]}")?;
    let more = with_numbers(alloc, "CREATE {\"id\":\"b\",\"v\":[", 4_096, "]}")?;
    let table = [(most.as_str(), "ok\n"), (more.as_str(), "err 6 large\n")];
    check(rt, alloc, "terms", &table)
}

/// A line of one byte more than a line may have.
fn check_length(rt: &impl Abort, alloc: Global) -> Result<(), Fail> {
    let line = built(alloc, "", "x", 262_145, "")?;
    check(rt, alloc, "length", &[(line.as_str(), "err 1 line\n")])
}

// A document with as many terms as there may be, one with one more, and a line that is too long.
#[test]
fn lines_at_a_limit_are_answered_alike(rt: HostRuntime) -> Result<(), Fail> {
    let alloc = rt.alloc();
    check_terms(&rt, alloc)?;
    check_length(&rt, alloc)
}

// A run without lines answers nothing, and leaves a store over which the next one is served.
#[test]
fn a_second_run_is_answered_alike(rt: HostRuntime) -> Result<(), Fail> {
    let alloc = rt.alloc();
    for choice in CHOICES {
        let mut disk = fresh_disk(alloc)?;
        let first = answers_over(alloc, &mut disk, choice, &[])?;
        let second = answers_over(
            alloc,
            &mut disk,
            choice,
            &[("UPSERT {\"id\":\"a\"}", "ok\n")],
        )?;
        drop(disk);
        assert!(rt; first.is_empty(), "{choice:?}");
        assert_eq!(rt; second.as_slice(), b"ok\n".as_slice(), "{choice:?}");
    }
    Ok(())
}
