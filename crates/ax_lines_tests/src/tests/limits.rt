use crate::tests::lines::word_of;
use ax_built_texts::{built, with_numbers};
use std::alloc::{AllocError, Global};
use std::test::Fail;

/// A text with lists that nest so many times in the middle.
fn nested(alloc: Global, front: &str, count: usize) -> Result<String, AllocError> {
    let lists = built(alloc, front, "[", count, "")?;
    built(alloc, lists.as_str(), "]", count, "}")
}

// `UPSERT {"id":"a"}` has 17 bytes, and spaces behind it are white space of JSON. The return at the
// end of a line is counted.
#[test]
fn a_line_has_262144_bytes_at_most(rt: HostRuntime) -> Result<(), Fail> {
    let alloc = rt.alloc();
    let document = "UPSERT {\"id\":\"a\"}";
    let line = built(alloc, document, " ", 262_127, "")?;
    assert_eq!(rt; word_of(alloc, line.as_bytes()), "document");
    let line = built(alloc, document, " ", 262_128, "")?;
    assert_eq!(rt; word_of(alloc, line.as_bytes()), "line");
    let line = built(alloc, document, " ", 262_126, "\r")?;
    assert_eq!(rt; word_of(alloc, line.as_bytes()), "document");
    let line = built(alloc, document, " ", 262_127, "\r")?;
    assert_eq!(rt; word_of(alloc, line.as_bytes()), "line");
    let line = built(alloc, "", "x", 262_144, "")?;
    assert_eq!(rt; word_of(alloc, line.as_bytes()), "command");
    let line = built(alloc, "", "x", 262_145, "")?;
    assert_eq!(rt; word_of(alloc, line.as_bytes()), "line");
    Ok(())
}

// An id is 255 bytes long at most, however few letters these are.
#[test]
fn ids_are_counted_by_bytes(rt: HostRuntime) -> Result<(), Fail> {
    const TABLE: [(&str, usize, &str); 4] = [
        ("a", 255, "document"),
        ("a", 256, "id"),
        ("é", 127, "document"),
        ("é", 128, "id"),
    ];
    let alloc = rt.alloc();
    for (letter, count, expected) in TABLE {
        let line = built(alloc, "UPSERT {\"id\":\"", letter, count, "\"}")?;
        assert_eq!(rt;
            word_of(alloc, line.as_bytes()),
            expected,
            "{count} {letter}"
        );
    }
    Ok(())
}

// So is the id that is the argument of a line.
#[test]
fn ids_of_reads_and_deletions_are_counted_by_bytes(rt: HostRuntime) -> Result<(), Fail> {
    const TABLE: [(&str, usize, bool); 4] = [
        ("a", 255, true),
        ("a", 256, false),
        ("é", 127, true),
        ("é", 128, false),
    ];
    let alloc = rt.alloc();
    for (letter, count, is_id) in TABLE {
        let line = built(alloc, "READ ", letter, count, "")?;
        let expected = if is_id { "id to read" } else { "id" };
        assert_eq!(rt;
            word_of(alloc, line.as_bytes()),
            expected,
            "{count} {letter}"
        );
        let line = built(alloc, "DELETE ", letter, count, "")?;
        let expected = if is_id { "id to delete" } else { "id" };
        assert_eq!(rt;
            word_of(alloc, line.as_bytes()),
            expected,
            "{count} {letter}"
        );
    }
    assert_eq!(rt; word_of(alloc, b"READ a\x1F"), "id");
    assert_eq!(rt; word_of(alloc, b"DELETE \xFF"), "id");
    Ok(())
}

#[test]
fn names_at_any_depth_have_255_bytes_at_most(rt: HostRuntime) -> Result<(), Fail> {
    let alloc = rt.alloc();
    for (count, expected) in [(255usize, "document"), (256, "large")] {
        let line = built(alloc, "UPSERT {\"id\":\"a\",\"", "n", count, "\":1}")?;
        assert_eq!(rt; word_of(alloc, line.as_bytes()), expected, "{count}");
        let line = built(
            alloc,
            "UPSERT {\"id\":\"a\",\"v\":[{\"",
            "n",
            count,
            "\":1}]}",
        )?;
        assert_eq!(rt; word_of(alloc, line.as_bytes()), expected, "{count} inside");
        let line = built(alloc, "UPSERT {\"", "n", count, "\":1}")?;
        assert_eq!(rt; word_of(alloc, line.as_bytes()), "id", "{count} without id");
    }
    let line = built(alloc, "QUERY {\"query\":\"q\",\"", "n", 256, "\":1}")?;
    assert_eq!(rt; word_of(alloc, line.as_bytes()), "body");
    Ok(())
}

// `{"id":"a","v":""}` has 17 bytes; what the line has beyond its canonical text does not count.
#[test]
fn a_document_has_60000_bytes_at_most(rt: HostRuntime) -> Result<(), Fail> {
    let alloc = rt.alloc();
    let line = built(alloc, "UPSERT {\"id\":\"a\",  \"v\":\"", "x", 59_983, "\"}")?;
    assert_eq!(rt; word_of(alloc, line.as_bytes()), "document");
    let line = built(alloc, "UPSERT {\"id\":\"a\",\"v\":\"", "x", 59_984, "\"}")?;
    assert_eq!(rt; word_of(alloc, line.as_bytes()), "large");
    Ok(())
}

// The map round the lists is one level more.
#[test]
fn an_argument_nests_100_levels_at_most(rt: HostRuntime) -> Result<(), Fail> {
    const TABLE: [(usize, &str, &str); 4] = [
        (99, "document", "body"),
        (100, "large", "large"),
        (126, "large", "large"),
        (127, "json", "json"),
    ];
    let alloc = rt.alloc();
    for (lists, document, body) in TABLE {
        let line = nested(alloc, "UPSERT {\"id\":\"a\",\"v\":", lists)?;
        assert_eq!(rt;
            word_of(alloc, line.as_bytes()),
            document,
            "{lists} in a document"
        );
        let line = nested(alloc, "QUERY {\"query\":\"q\",\"v\":", lists)?;
        assert_eq!(rt; word_of(alloc, line.as_bytes()), body, "{lists} in a body");
    }
    let line = nested(alloc, "UPSERT {\"v\":", 100)?;
    assert_eq!(rt; word_of(alloc, line.as_bytes()), "id");
    let line = nested(alloc, "QUERY {\"v\":", 100)?;
    assert_eq!(rt; word_of(alloc, line.as_bytes()), "large");
    Ok(())
}

// `{"@a":""}` has 9 bytes.
#[test]
fn parameters_have_32768_bytes_at_most(rt: HostRuntime) -> Result<(), Fail> {
    let alloc = rt.alloc();
    let front = "QUERY {\"query\":\"q\",\"parameters\":[{\"name\":\"@a\",\"value\":\"";
    for (count, expected) in [(32_759usize, "body"), (32_760, "query")] {
        let line = built(alloc, front, "x", count, "\"}]}")?;
        assert_eq!(rt; word_of(alloc, line.as_bytes()), expected, "{count}");
    }
    Ok(())
}

// The `@` is not counted.
#[test]
fn the_word_of_a_parameter_has_255_bytes_at_most(rt: HostRuntime) -> Result<(), Fail> {
    let alloc = rt.alloc();
    let front = "QUERY {\"query\":\"q\",\"parameters\":[{\"name\":\"@";
    for (count, expected) in [(255usize, "body"), (256, "query")] {
        let line = built(alloc, front, "w", count, "\",\"value\":1}]}")?;
        assert_eq!(rt; word_of(alloc, line.as_bytes()), expected, "{count}");
    }
    Ok(())
}

// The term of the id's text is one. A number that stands twice has one term.
#[test]
fn a_document_has_4096_terms_at_most(rt: HostRuntime) -> Result<(), Fail> {
    let alloc = rt.alloc();
    let front = "UPSERT {\"id\":\"a\",\"v\":[";
    let line = with_numbers(alloc, front, 4_095, ",7,4094]}")?;
    assert_eq!(rt; word_of(alloc, line.as_bytes()), "document");
    let line = with_numbers(alloc, front, 4_096, "]}")?;
    assert_eq!(rt; word_of(alloc, line.as_bytes()), "large");
    Ok(())
}

// The path of the number has 3 bytes besides each of four names, and one at its end.
#[test]
fn an_encoded_path_has_1024_bytes_at_most(rt: HostRuntime) -> Result<(), Fail> {
    let alloc = rt.alloc();
    let outer = built(alloc, "UPSERT {\"id\":\"a\",\"", "n", 255, "\":{\"")?;
    let middle = built(alloc, outer.as_str(), "n", 255, "\":{\"")?;
    let inner = built(alloc, middle.as_str(), "n", 255, "\":{\"")?;
    let line = built(alloc, inner.as_str(), "n", 246, "\":1}}}}")?;
    assert_eq!(rt; word_of(alloc, line.as_bytes()), "document");
    let line = built(alloc, inner.as_str(), "n", 247, "\":1}}}}")?;
    assert_eq!(rt; word_of(alloc, line.as_bytes()), "large");
    Ok(())
}

// The terms of 3,883 numbers behind a name of 255 bytes have 270 bytes each, that of the id's text 11, and that of a
// text behind a name of one byte 9 besides the text.
#[test]
fn terms_have_1048576_bytes_at_most(rt: HostRuntime) -> Result<(), Fail> {
    let alloc = rt.alloc();
    let front = built(alloc, "UPSERT {\"id\":\"a\",\"", "n", 255, "\":[")?;
    let many = with_numbers(alloc, front.as_str(), 3_883, "],\"y\":\"")?;
    let texts = built(alloc, many.as_str(), "y", 100, "\",\"z\":\"")?;
    let line = built(alloc, texts.as_str(), "z", 37, "\"}")?;
    assert_eq!(rt; word_of(alloc, line.as_bytes()), "document");
    let line = built(alloc, texts.as_str(), "z", 38, "\"}")?;
    assert_eq!(rt; word_of(alloc, line.as_bytes()), "large");
    Ok(())
}
