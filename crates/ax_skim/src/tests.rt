use crate::{find_id, find_member, plain_text};
use std::test::Fail;

// The texts by hand, from the grammar of JSON.
#[test]
#[tactic(auto, unfolding(json::specs::Print::escape_byte))]
fn the_member_of_that_name_is_found(rt: HostRuntime) -> Result<(), Fail> {
    for (text, expected) in [
        (r#"{"a":{"id":"x"},"id":"y","z":[1,"]"]}"#, r#""y""#),
        (
            r#"{"id":{"a":[{},[]],"b":"}\""}}"#,
            r#"{"a":[{},[]],"b":"}\""}"#,
        ),
        (r#"{"a":"\\","b":"\\\"","id":-1,"idea":2}"#, "-1"),
        (r#"{"a":"\",\"id\":3","i":1,"idea":2}"#, "none"),
        ("{}", "none"),
        ("[1]", "none"),
    ] {
        let found = find_member(text.as_bytes(), "id").unwrap_or(b"none");
        assert_eq!(rt; found, expected.as_bytes(), "{text}");
    }
    Ok(())
}

#[test]
fn a_text_without_escapes_stands_between_its_quotes(rt: HostRuntime) -> Result<(), Fail> {
    for (value, expected) in [
        ("\"é,x\"", "é,x"),
        ("\"\"", ""),
        ("\"a\\n\"", "none"),
        ("12", "none"),
    ] {
        let plain = plain_text(value.as_bytes()).unwrap_or(b"none");
        assert_eq!(rt; plain, expected.as_bytes(), "{value}");
    }
    Ok(())
}

#[test]
fn the_id_of_a_document_is_found(rt: HostRuntime) -> Result<(), Fail> {
    for (text, expected) in [
        (r#"{"id":"first"}"#, "first"),
        (r#"{"a":[{"id":"x"}],"id":"second"}"#, "second"),
        (r#"{"id":"a\"b"}"#, "none"),
    ] {
        let id = find_id(text.as_bytes()).unwrap_or(b"none");
        assert_eq!(rt; id, expected.as_bytes(), "{text}");
    }
    Ok(())
}
