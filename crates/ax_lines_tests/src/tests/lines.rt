use ax_lines::{Line, LineFault, Refusal, first_line, read_line};
use std::alloc::Global;

/// What a line is, in one word: `document`, `body` or the word of its refusal.
pub fn word_of(alloc: Global, line: &[u8]) -> &'static str {
    match read_line(alloc, line) {
        Ok(Line::Create(_)) => "document",
        Ok(Line::Upsert(_)) => "document",
        Ok(Line::Replace(_)) => "document",
        Ok(Line::Delete(_)) => "id to delete",
        Ok(Line::Read(_)) => "id to read",
        Ok(Line::Query(_)) => "body",
        Err(LineFault::Refused(refusal)) => refusal.word(),
        Err(LineFault::Memory) => "out of memory",
    }
}

// The words by hand, from the forms of a line.
#[test]
fn forms_are_told_apart(rt: HostRuntime) {
    const TABLE: [(&str, &str); 18] = [
        ("UPSERT {\"id\":\"a\"}", "document"),
        ("UPSERT {\"id\":\"a\"}\r", "document"),
        ("UPSERT  {\"id\":\"a\"}", "document"),
        ("UPSERT ", "json"),
        ("UPSERT", "command"),
        ("upsert {\"id\":\"a\"}", "command"),
        ("CREATE {\"id\":\"a\"}", "document"),
        ("REPLACE {\"id\":\"a\"}", "document"),
        ("READ a", "id to read"),
        ("READ \u{80}", "id to read"),
        ("READ", "command"),
        ("DELETE  a\r", "id to delete"),
        ("DELETE ", "id"),
        ("", "command"),
        ("\r", "command"),
        ("QUERY {\"query\":\"\"}", "body"),
        ("QUERY ", "json"),
        ("QUERY", "command"),
    ];
    for (line, expected) in TABLE {
        assert_eq!(rt; word_of(rt.alloc(), line.as_bytes()), expected, "{line:?}");
    }
}

// Of several causes the first is answered; a repeated member that is dropped is none.
#[test]
fn documents_are_read(rt: HostRuntime) {
    const TABLE: [(&str, &str); 12] = [
        ("UPSERT {", "json"),
        ("UPSERT [1.5,", "json"),
        ("UPSERT [1.5]", "number"),
        ("UPSERT {\"id\":\"a\",\"n\":1.5}", "number"),
        ("UPSERT {\"id\":\"a\",\"n\":1.5,\"n\":2}", "document"),
        ("UPSERT {\"id\":\"a\",\"n\":9223372036854775808}", "number"),
        ("UPSERT {\"id\":\"\"}", "id"),
        ("UPSERT {\"id\":\"a\\u007f\"}", "id"),
        ("UPSERT {\"id\":1}", "id"),
        ("UPSERT {}", "id"),
        ("UPSERT [\"id\"]", "id"),
        ("UPSERT 5", "id"),
    ];
    for (line, expected) in TABLE {
        assert_eq!(rt; word_of(rt.alloc(), line.as_bytes()), expected, "{line:?}");
    }
}

#[test]
fn refusals_have_numbers_and_words(rt: HostRuntime) {
    for (refusal, number, word) in [
        (Refusal::Line, 1u8, "line"),
        (Refusal::Command, 2, "command"),
        (Refusal::Json, 3, "json"),
        (Refusal::Number, 4, "number"),
        (Refusal::Id, 5, "id"),
        (Refusal::Large, 6, "large"),
        (Refusal::Conflict, 7, "conflict"),
        (Refusal::Absent, 8, "absent"),
        (Refusal::Memory, 9, "memory"),
        (Refusal::Query, 10, "query"),
        (Refusal::Order, 11, "order"),
        (Refusal::Full, 15, "full"),
    ] {
        assert_eq!(rt; refusal.number(), number, "{word}");
        assert_eq!(rt; refusal.word(), word, "{number}");
    }
}

#[test]
fn the_first_line_ends_at_the_first_newline(rt: HostRuntime) {
    assert!(rt; first_line(b"ab").is_none());
    match first_line(b"a\n\nb") {
        Some((line, rest)) => {
            assert_eq!(rt; line, b"a".as_slice());
            assert_eq!(rt; rest, b"\nb".as_slice());
        }
        None => assert!(rt; false, "there is a newline"),
    }
}
