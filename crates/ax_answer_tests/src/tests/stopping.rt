//! Where a walk stops. The answers are worked out by hand, with the document behind which nothing more
//! is wanted.
use crate::tests::answered;
use std::test::Fail;

#[test]
fn a_limit_ends_over_documents(rt: HostRuntime) -> Result<(), Fail> {
    const TABLE: [(&str, &str, u32); 6] = [
        ("SELECT TOP 2 VALUE c.k FROM c", "1 1 ", 2),
        ("SELECT VALUE c.k FROM c OFFSET 1 LIMIT 2", "1 2 ", 3),
        ("SELECT TOP 1 VALUE c.k FROM c WHERE c.k > 1", "2 ", 3),
        ("SELECT TOP 4 VALUE c.k FROM c", "1 1 2 3 ", 5),
        ("SELECT TOP 9 VALUE c.k FROM c", "1 1 2 3 ", 5),
        ("SELECT VALUE c.k FROM c OFFSET 9 LIMIT 1", "", 5),
    ];
    const DOCUMENTS: [(u32, &str); 5] = [
        (1, r#"{"k":1}"#),
        (2, r#"{"k":1}"#),
        (3, r#"{"k":2}"#),
        (4, "{}"),
        (5, r#"{"k":3}"#),
    ];
    let alloc = rt.alloc();
    for (text, expected, last) in TABLE {
        let (rows, added) = answered(alloc, text, &DOCUMENTS)?;
        assert_eq!(rt; rows.as_slice(), expected.as_bytes(), "{text}");
        assert_eq!(rt; added, last, "{text}");
    }
    Ok(())
}

#[test]
fn a_limit_ends_inside_a_document(rt: HostRuntime) -> Result<(), Fail> {
    const TABLE: [(&str, &str, u32); 4] = [
        ("SELECT TOP 1 VALUE t FROM c JOIN t IN c.t", "1 ", 1),
        ("SELECT TOP 3 VALUE t FROM c JOIN t IN c.t", "1 2 2 ", 3),
        (
            "SELECT VALUE t FROM c JOIN t IN c.t OFFSET 1 LIMIT 3",
            "2 2 3 ",
            3,
        ),
        (
            "SELECT VALUE t FROM c JOIN t IN c.t OFFSET 5 LIMIT 1",
            "4 ",
            4,
        ),
    ];
    const DOCUMENTS: [(u32, &str); 5] = [
        (1, r#"{"t":[1,2]}"#),
        (2, r#"{"t":[]}"#),
        (3, r#"{"t":[2,3,3]}"#),
        (4, r#"{"t":[4]}"#),
        (5, "{}"),
    ];
    let alloc = rt.alloc();
    for (text, expected, last) in TABLE {
        let (rows, added) = answered(alloc, text, &DOCUMENTS)?;
        assert_eq!(rt; rows.as_slice(), expected.as_bytes(), "{text}");
        assert_eq!(rt; added, last, "{text}");
    }
    Ok(())
}

// A walk over all of these rows, which are more than 10 ^ 12, would not end.
#[test]
fn rows_behind_a_limit_are_not_walked(rt: HostRuntime) -> Result<(), Fail> {
    const TABLE: [(&str, &str, &str); 4] = [
        ("SELECT TOP 3 VALUE i", "", "0 1 2 "),
        ("SELECT VALUE [h, i]", " OFFSET 34 LIMIT 2", "[1,0] [1,1] "),
        ("SELECT DISTINCT TOP 2 VALUE i", "", "0 1 "),
        ("SELECT TOP 0 VALUE i", "", ""),
    ];
    let alloc = rt.alloc();
    let documents = [(
        1,
        r#"{"t":[0,1,2,3,4,5,6,7,8,9,0,1,2,3,4,5,6,7,8,9,0,1,2,3,4,5,6,7,8,9,0,1,2,3]}"#,
    )];
    for (front, back, expected) in TABLE {
        let text = format!(in alloc;
            "{front} FROM c JOIN a IN c.t JOIN b IN c.t JOIN d IN c.t \
            JOIN e IN c.t JOIN f IN c.t JOIN g IN c.t JOIN h IN c.t JOIN i IN c.t{back}"
        )?;
        let (rows, _) = answered(alloc, text.as_str(), &documents)?;
        assert_eq!(rt; rows.as_slice(), expected.as_bytes(), "{text}");
    }
    Ok(())
}

#[test]
fn of_limit_0_no_document_is_looked_at(rt: HostRuntime) -> Result<(), Fail> {
    const TABLE: [&str; 6] = [
        "SELECT TOP 0 VALUE c.k FROM c",
        "SELECT VALUE c.k FROM c OFFSET 1 LIMIT 0",
        "SELECT DISTINCT TOP 0 VALUE c.k FROM c",
        "SELECT TOP 0 VALUE c.k FROM c ORDER BY c.k",
        "SELECT TOP 0 VALUE COUNT(1) FROM c",
        "SELECT TOP 0 c.k, COUNT(1) AS n FROM c GROUP BY c.k",
    ];
    let alloc = rt.alloc();
    let documents = [(1, r#"{"k":1}"#), (2, r#"{"k":2}"#)];
    for text in TABLE {
        let (rows, added) = answered(alloc, text, &documents)?;
        assert_eq!(rt; rows.len(), 0, "{text}");
        assert_eq!(rt; added, 0, "{text}");
    }
    Ok(())
}

#[test]
fn with_distinct_as_many_distinct_rows_are_wanted(rt: HostRuntime) -> Result<(), Fail> {
    const TABLE: [(&str, &str, u32); 4] = [
        ("SELECT DISTINCT TOP 2 VALUE c.k FROM c", "1 2 ", 3),
        ("SELECT DISTINCT VALUE c.k FROM c", "1 2 3 ", 5),
        (
            "SELECT DISTINCT TOP 3 VALUE t FROM c JOIN t IN c.t",
            "1 2 3 ",
            3,
        ),
        (
            "SELECT DISTINCT VALUE t FROM c JOIN t IN c.t OFFSET 2 LIMIT 2",
            "3 4 ",
            4,
        ),
    ];
    const DOCUMENTS: [(u32, &str); 5] = [
        (1, r#"{"k":1,"t":[1,2]}"#),
        (2, r#"{"k":1,"t":[]}"#),
        (3, r#"{"k":2,"t":[2,3,3]}"#),
        (4, r#"{"t":[4]}"#),
        (5, r#"{"k":3}"#),
    ];
    let alloc = rt.alloc();
    for (text, expected, last) in TABLE {
        let (rows, added) = answered(alloc, text, &DOCUMENTS)?;
        assert_eq!(rt; rows.as_slice(), expected.as_bytes(), "{text}");
        assert_eq!(rt; added, last, "{text}");
    }
    Ok(())
}
