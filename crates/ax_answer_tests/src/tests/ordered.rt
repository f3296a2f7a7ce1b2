//! ORDER BY with a limit, which keeps the least rows alone. The answers are worked out by hand: they
//! are those rows of all in their order that OFFSET and LIMIT choose.
use crate::tests::answered;
use std::test::Fail;

// Undefined comes first, then numbers, then texts; of equal ones the document that came first.
#[test]
fn a_limit_takes_the_first_rows_in_their_order(rt: HostRuntime) -> Result<(), Fail> {
    const TABLE: [(&str, &str); 7] = [
        (
            "SELECT VALUE c.s FROM c ORDER BY c.n",
            r#""z" "y" "w" "x" "x" "v" "#,
        ),
        (
            "SELECT TOP 3 VALUE c.s FROM c ORDER BY c.n",
            r#""z" "y" "w" "#,
        ),
        (
            "SELECT VALUE c.s FROM c ORDER BY c.n OFFSET 2 LIMIT 3",
            r#""w" "x" "x" "#,
        ),
        (
            "SELECT TOP 4 VALUE c.s FROM c ORDER BY c.n DESC",
            r#""v" "x" "x" "y" "#,
        ),
        (
            "SELECT VALUE c.s FROM c ORDER BY c.n DESC OFFSET 4 LIMIT 9",
            r#""w" "z" "#,
        ),
        (
            "SELECT TOP 4 VALUE c.n FROM c ORDER BY c.s, c.n DESC",
            r#""a" 1 3 2 "#,
        ),
        ("SELECT TOP 3 VALUE c.m FROM c ORDER BY c.n", ""),
    ];
    const DOCUMENTS: [(u32, &str); 6] = [
        (1, r#"{"n":3,"s":"x"}"#),
        (2, r#"{"n":1,"s":"y"}"#),
        (3, r#"{"s":"z"}"#),
        (4, r#"{"n":2,"s":"x"}"#),
        (5, r#"{"n":1,"s":"w"}"#),
        (6, r#"{"n":"a","s":"v"}"#),
    ];
    let alloc = rt.alloc();
    for (text, expected) in TABLE {
        let (rows, added) = answered(alloc, text, &DOCUMENTS)?;
        assert_eq!(rt; rows.as_slice(), expected.as_bytes(), "{text}");
        assert_eq!(rt; added, 6, "{text}");
    }
    Ok(())
}

#[test]
fn with_distinct_the_first_of_equal_rows_is_kept(rt: HostRuntime) -> Result<(), Fail> {
    const TABLE: [(&str, &str); 3] = [
        (
            "SELECT DISTINCT VALUE c.s FROM c ORDER BY c.n",
            r#""z" "y" "x" "#,
        ),
        (
            "SELECT DISTINCT TOP 2 VALUE c.s FROM c ORDER BY c.n DESC",
            r#""x" "y" "#,
        ),
        (
            "SELECT DISTINCT VALUE c.s FROM c ORDER BY c.n DESC OFFSET 1 LIMIT 2",
            r#""y" "z" "#,
        ),
    ];
    const DOCUMENTS: [(u32, &str); 4] = [
        (1, r#"{"n":3,"s":"x"}"#),
        (2, r#"{"n":1,"s":"y"}"#),
        (3, r#"{"s":"z"}"#),
        (4, r#"{"n":2,"s":"x"}"#),
    ];
    let alloc = rt.alloc();
    for (text, expected) in TABLE {
        let (rows, _) = answered(alloc, text, &DOCUMENTS)?;
        assert_eq!(rt; rows.as_slice(), expected.as_bytes(), "{text}");
    }
    Ok(())
}

// Of 12 rows 1 to 4 are wanted, so what came is put in order several times.
#[test]
fn the_least_of_many_rows_are_kept(rt: HostRuntime) -> Result<(), Fail> {
    const TABLE: [(&str, &str); 4] = [
        ("SELECT TOP 1 VALUE c.n FROM c ORDER BY c.n", "1 "),
        ("SELECT TOP 4 VALUE c.n FROM c ORDER BY c.n", "1 2 3 4 "),
        (
            "SELECT VALUE c.n FROM c ORDER BY c.n OFFSET 3 LIMIT 1",
            "4 ",
        ),
        (
            "SELECT TOP 3 VALUE c.n FROM c ORDER BY c.n DESC",
            "12 11 10 ",
        ),
    ];
    const DOCUMENTS: [(u32, &str); 12] = [
        (1, "{\"n\":7}"),
        (2, "{\"n\":3}"),
        (3, "{\"n\":9}"),
        (4, "{\"n\":1}"),
        (5, "{\"n\":12}"),
        (6, "{\"n\":5}"),
        (7, "{\"n\":11}"),
        (8, "{\"n\":2}"),
        (9, "{\"n\":8}"),
        (10, "{\"n\":10}"),
        (11, "{\"n\":4}"),
        (12, "{\"n\":6}"),
    ];
    let alloc = rt.alloc();
    for (text, expected) in TABLE {
        let (rows, _) = answered(alloc, text, &DOCUMENTS)?;
        assert_eq!(rt; rows.as_slice(), expected.as_bytes(), "{text}");
    }
    Ok(())
}

#[test]
fn rows_of_a_document_stay_in_the_order_of_their_places(rt: HostRuntime) -> Result<(), Fail> {
    const TABLE: [(&str, &str); 3] = [
        (
            "SELECT TOP 4 VALUE t FROM c JOIN t IN c.t ORDER BY c.n DESC",
            "3 4 5 6 ",
        ),
        (
            "SELECT TOP 3 VALUE t FROM c JOIN t IN c.t ORDER BY c.n",
            "1 2 3 ",
        ),
        (
            "SELECT VALUE t FROM c JOIN t IN c.t ORDER BY c.n DESC OFFSET 1 LIMIT 2",
            "4 5 ",
        ),
    ];
    const DOCUMENTS: [(u32, &str); 4] = [
        (1, r#"{"n":1,"t":[1,2]}"#),
        (2, r#"{"n":2,"t":[3,4,5]}"#),
        (3, r#"{"n":2,"t":[6]}"#),
        (4, r#"{"n":0,"t":[]}"#),
    ];
    let alloc = rt.alloc();
    for (text, expected) in TABLE {
        let (rows, _) = answered(alloc, text, &DOCUMENTS)?;
        assert_eq!(rt; rows.as_slice(), expected.as_bytes(), "{text}");
    }
    Ok(())
}
