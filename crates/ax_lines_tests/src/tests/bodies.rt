use crate::tests::lines::word_of;
use ax_lines::{Line, read_line};
use ax_tree::{Tree, write_tree};
use std::alloc::{AllocError, Global};
use std::test::Fail;

/// What the line of a query with this body is, in one word.
fn body_word(alloc: Global, body: &str) -> Result<&'static str, AllocError> {
    let line = format!(in alloc; "QUERY {body}")?;
    Ok(word_of(alloc, line.as_bytes()))
}

/// What the line of a query with this list of parameters is, in one word.
fn items_word(alloc: Global, items: &str) -> Result<&'static str, AllocError> {
    let line = format!(in alloc; "QUERY {{\"query\":\"q\",\"parameters\":[{items}]}}")?;
    Ok(word_of(alloc, line.as_bytes()))
}

/// The canonical text of the parameters of a list, and none of a line that is refused.
fn params_text(alloc: Global, items: &str) -> Result<Vec<u8>, Fail> {
    let line = format!(in alloc; "QUERY {{\"query\":\"q\",\"parameters\":[{items}]}}")?;
    match read_line(alloc, line.as_bytes()) {
        Ok(Line::Query(body)) => Ok(write_tree(alloc, &Tree::Object(body.params))?),
        _ => Ok(Vec::new(alloc)),
    }
}

// The words by hand, from the shape of a query body.
#[test]
fn bodies_have_a_text_and_maybe_a_list(rt: HostRuntime) -> Result<(), Fail> {
    const TABLE: [(&str, &str); 10] = [
        ("{\"query\":\"q\",\"parameters\":[]}", "body"),
        ("{\"query\":\"q\",\"other\":[null]}", "body"),
        ("{\"query\":\"q\",\"query\":1}", "query"),
        ("{\"query\":\"q\",\"parameters\":null}", "query"),
        ("{\"query\":\"q\",\"parameters\":{}}", "query"),
        ("{\"query\":1}", "query"),
        ("{\"parameters\":[]}", "query"),
        ("[\"query\"]", "query"),
        ("{\"query\":\"q\",\"other\":1.5}", "number"),
        ("{\"query\":\"q\",\"other\":1.5,}", "json"),
    ];
    let alloc = rt.alloc();
    for (body, expected) in TABLE {
        assert_eq!(rt; body_word(alloc, body)?, expected, "{body}");
    }
    Ok(())
}

// The items of the list of parameters.
#[test]
fn parameters_have_a_name_and_a_value(rt: HostRuntime) -> Result<(), Fail> {
    const TABLE: [(&str, &str); 14] = [
        ("{\"name\":\"@a\",\"value\":null}", "body"),
        ("{\"name\":\"@_Z9\",\"value\":1,\"type\":2}", "body"),
        ("{\"name\":\"@select\",\"value\":1}", "body"),
        ("{\"name\":\"a\",\"value\":1}", "query"),
        ("{\"name\":\"@\",\"value\":1}", "query"),
        ("{\"name\":\"@9a\",\"value\":1}", "query"),
        ("{\"name\":\"@a-b\",\"value\":1}", "query"),
        ("{\"name\":\"@é\",\"value\":1}", "query"),
        ("{\"name\":\"\",\"value\":1}", "query"),
        ("{\"name\":1,\"value\":1}", "query"),
        ("{\"name\":\"@a\"}", "query"),
        ("{\"value\":1}", "query"),
        ("5", "query"),
        ("{\"name\":\"@a\"},{\"name\":\"@a\",\"value\":1}", "query"),
    ];
    let alloc = rt.alloc();
    for (items, expected) in TABLE {
        assert_eq!(rt; items_word(alloc, items)?, expected, "{items}");
    }
    Ok(())
}

// The canonical texts by hand: names rise by bytes, and of a repeated one the last counts.
#[test]
fn the_last_of_a_repeated_parameter_counts(rt: HostRuntime) -> Result<(), Fail> {
    const TABLE: [(&str, &str); 4] = [
        ("", "{}"),
        (
            "{\"name\":\"@b\",\"value\":1},{\"name\":\"@a\",\"value\":[2]}",
            "{\"@a\":[2],\"@b\":1}",
        ),
        (
            "{\"name\":\"@b\",\"value\":1},{\"name\":\"@b\",\"value\":null}",
            "{\"@b\":null}",
        ),
        (
            "{\"value\":{\"z\":0,\"y\":0},\"name\":\"@B\"},{\"name\":\"@a\",\"value\":\"\"}",
            "{\"@B\":{\"y\":0,\"z\":0},\"@a\":\"\"}",
        ),
    ];
    let alloc = rt.alloc();
    for (items, expected) in TABLE {
        let params = params_text(alloc, items)?;
        assert_eq!(rt; params.as_slice(), expected.as_bytes(), "{items}");
    }
    Ok(())
}
