//! Groups and aggregates, worked out by hand. Groups come in the order of their values, of which
//! undefined is the first.
use crate::tests::answered;
use std::alloc::Global;
use std::test::Fail;

#[test]
fn groups_of_several_rows(rt: HostRuntime) -> Result<(), Fail> {
    const TABLE: [(&str, &str); 4] = [
        (
            "SELECT c.k, COUNT(1) AS n, COUNT(c.v) AS d FROM c GROUP BY c.k",
            r#"{"d":2,"n":2} {"d":0,"k":null,"n":1} {"d":2,"k":"a","n":3} {"d":1,"k":"b","n":1} "#,
        ),
        (
            "SELECT c.k, SUM(c.v) AS s FROM c GROUP BY c.k",
            r#"{} {"k":null,"s":0} {"k":"a","s":-3} {"k":"b","s":2} "#,
        ),
        (
            "SELECT c.k, MIN(c.v) AS l, MAX(c.v) AS g FROM c GROUP BY c.k",
            r#"{"g":5,"l":null} {"k":null} {"g":1,"k":"a","l":-4} {"g":2,"k":"b","l":2} "#,
        ),
        ("SELECT VALUE c.k FROM c GROUP BY c.k", r#"null "a" "b" "#),
    ];
    const DOCUMENTS: [(u32, &str); 7] = [
        (1, r#"{"k":"a","v":1}"#),
        (2, r#"{"k":"b","v":2}"#),
        (3, r#"{"k":"a"}"#),
        (4, r#"{"v":5}"#),
        (5, r#"{"k":"a","v":-4}"#),
        (6, r#"{"k":null}"#),
        (7, r#"{"v":null}"#),
    ];
    let alloc = rt.alloc();
    for (text, expected) in TABLE {
        let (rows, added) = answered(alloc, text, &DOCUMENTS)?;
        assert_eq!(rt; rows.as_slice(), expected.as_bytes(), "{text}");
        assert_eq!(rt; added, 7, "{text}");
    }
    Ok(())
}

// Across kinds null is the least and texts are the greatest; with a list there is neither.
#[test]
fn the_least_and_the_greatest_across_kinds(rt: HostRuntime) -> Result<(), Fail> {
    const TABLE: [(&str, &str); 3] = [
        (
            "SELECT VALUE [MIN(c.v), MAX(c.v), COUNT(c.v)] FROM c",
            r#"[null,"b",6] "#,
        ),
        (
            "SELECT VALUE [MIN(c.v), MAX(c.v)] FROM c WHERE c.v >= 0",
            "[1,3] ",
        ),
        (
            "SELECT VALUE {n: COUNT(c), l: MIN(c.w), g: MAX(c.w), s: SUM(c.v)} FROM c",
            r#"{"n":8} "#,
        ),
    ];
    const DOCUMENTS: [(u32, &str); 8] = [
        (1, r#"{"v":3}"#),
        (2, r#"{"v":"a"}"#),
        (3, r#"{"v":1}"#),
        (4, "{}"),
        (5, r#"{"v":null}"#),
        (6, r#"{"v":true}"#),
        (7, r#"{"v":"b"}"#),
        (8, r#"{"w":[1]}"#),
    ];
    let alloc = rt.alloc();
    for (text, expected) in TABLE {
        let (rows, _) = answered(alloc, text, &DOCUMENTS)?;
        assert_eq!(rt; rows.as_slice(), expected.as_bytes(), "{text}");
    }
    Ok(())
}

#[test]
fn groups_by_two_values(rt: HostRuntime) -> Result<(), Fail> {
    const DOCUMENTS: [(u32, &str); 5] = [
        (1, r#"{"k":"a","v":1}"#),
        (2, r#"{"k":"a"}"#),
        (3, r#"{"v":5}"#),
        (4, r#"{"k":"a","v":1}"#),
        (5, r#"{"v":null}"#),
    ];
    let alloc = rt.alloc();
    let text = "SELECT c.k, c.v, COUNT(1) AS n FROM c GROUP BY c.k, c.v";
    let expected = r#"{"n":1,"v":null} {"n":1,"v":5} {"k":"a","n":1} {"k":"a","n":2,"v":1} "#;
    let (rows, _) = answered(alloc, text, &DOCUMENTS)?;
    assert_eq!(rt; rows.as_slice(), expected.as_bytes());
    Ok(())
}

// DISTINCT, OFFSET and LIMIT choose among the rows of the groups.
#[test]
fn rows_of_groups_are_told_apart_and_cut(rt: HostRuntime) -> Result<(), Fail> {
    const TABLE: [(&str, &str); 4] = [
        ("SELECT VALUE COUNT(1) FROM c GROUP BY c.k", "1 1 2 1 "),
        ("SELECT DISTINCT VALUE COUNT(1) FROM c GROUP BY c.k", "1 2 "),
        (
            "SELECT VALUE [c.k, COUNT(1)] FROM c GROUP BY c.k OFFSET 1 LIMIT 2",
            "[1,1] [2,2] ",
        ),
        (
            "SELECT TOP 1 c.k, COUNT(1) AS n FROM c GROUP BY c.k",
            "{\"n\":1} ",
        ),
    ];
    const DOCUMENTS: [(u32, &str); 5] = [
        (1, r#"{"k":2}"#),
        (2, r#"{"k":1}"#),
        (3, r#"{"k":3}"#),
        (4, r#"{"k":2}"#),
        (5, "{}"),
    ];
    let alloc = rt.alloc();
    for (text, expected) in TABLE {
        let (rows, added) = answered(alloc, text, &DOCUMENTS)?;
        assert_eq!(rt; rows.as_slice(), expected.as_bytes(), "{text}");
        assert_eq!(rt; added, 5, "{text}");
    }
    Ok(())
}

// Without GROUP BY there is one group, also of no rows.
#[test]
fn aggregates_of_no_rows(rt: HostRuntime) -> Result<(), Fail> {
    const TABLE: [(&str, &str); 5] = [
        ("SELECT VALUE COUNT(1) FROM c WHERE c.k = 2", "0 "),
        (
            "SELECT VALUE [COUNT(c.k), SUM(c.k)] FROM c WHERE c.k = 2",
            "[0,0] ",
        ),
        ("SELECT VALUE MIN(c.k) FROM c WHERE c.k = 2", ""),
        (
            "SELECT VALUE {n: COUNT(1), m: MAX(c.k)} FROM c WHERE c.k = 2",
            "{\"n\":0} ",
        ),
        (
            "SELECT VALUE COUNT(1) FROM c WHERE c.k = 2 GROUP BY c.k",
            "",
        ),
    ];
    let alloc = rt.alloc();
    let documents = [(1, r#"{"k":1}"#)];
    for (text, expected) in TABLE {
        let (rows, _) = answered(alloc, text, &documents)?;
        assert_eq!(rt; rows.as_slice(), expected.as_bytes(), "{text}");
    }
    Ok(())
}

#[test]
fn aggregates_over_two_joins(rt: HostRuntime) -> Result<(), Fail> {
    const TABLE: [(&str, &str); 3] = [
        (
            "SELECT VALUE COUNT(1) FROM c JOIN a IN c.t JOIN b IN c.t",
            "13 ",
        ),
        (
            "SELECT VALUE SUM(a + b) FROM c JOIN a IN c.t JOIN b IN c.t",
            "48 ",
        ),
        (
            "SELECT a, COUNT(1) AS n FROM c JOIN a IN c.t JOIN b IN c.t WHERE b > 1 GROUP BY a",
            r#"{"a":1,"n":3} {"a":2,"n":3} {"a":3,"n":2} "#,
        ),
    ];
    const DOCUMENTS: [(u32, &str); 4] = [
        (1, r#"{"t":[1,2,3]}"#),
        (2, r#"{"t":[]}"#),
        (3, r#"{"t":[1,2]}"#),
        (4, "{}"),
    ];
    let alloc = rt.alloc();
    for (text, expected) in TABLE {
        let (rows, _) = answered(alloc, text, &DOCUMENTS)?;
        assert_eq!(rt; rows.as_slice(), expected.as_bytes(), "{text}");
    }
    Ok(())
}

/// `{"t":[7,7, ..]}`
fn sevens(alloc: Global, count: usize) -> Result<String, Fail> {
    let mut text = String::from_str(alloc, r#"{"t":[7"#)?;
    for _ in 1..count {
        text.push_str(",7")?;
    }
    text.push_str("]}")?;
    Ok(text)
}

fn counted(alloc: Global, text: &str) -> Result<Vec<u8>, Fail> {
    let query = "SELECT VALUE COUNT(1) FROM c JOIN a IN c.t JOIN b IN c.t";
    let (rows, _) = answered(alloc, query, &[(1, text)])?;
    Ok(rows)
}

// No row of the 10,000 keeps a copy of the document.
#[test]
fn a_count_over_two_joins_of_one_list(rt: HostRuntime) -> Result<(), Fail> {
    let alloc = rt.alloc();
    let text = sevens(alloc, 100)?;
    let rows = counted(alloc, text.as_str())?;
    assert_eq!(rt; rows.as_slice(), b"10000 ".as_slice());
    Ok(())
}
