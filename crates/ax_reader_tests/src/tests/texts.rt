use ax_text::{TextFault, nesting, read_tree};
use ax_tree::write_tree;
use std::test::Fail;

#[test]
fn a_text_is_read_as_what_it_stands_for(rt: HostRuntime) -> Result<(), Fail> {
    let rows = [
        ("0", "0"),
        ("9223372036854775807", "9223372036854775807"),
        ("-9223372036854775808", "-9223372036854775808"),
        (" [ 1 ,\t-2 ]\r\n", "[1,-2]"),
        (
            "[true,false,null,\"\",[],{}]",
            "[true,false,null,\"\",[],{}]",
        ),
        ("{\"b\":1,\"a\":2,\"\":3}", "{\"\":3,\"a\":2,\"b\":1}"),
        ("{\"a\":1,\"b\":2,\"a\":3}", "{\"a\":3,\"b\":2}"),
        ("{\"id\":\"a\",\"n\":1.5,\"n\":2}", "{\"id\":\"a\",\"n\":2}"),
        ("\"\\u0000\\/\\u0041\\t\"", "\"\\u0000/A\\t\""),
        ("\"\\ud83d\\ude00\"", "\"\u{1f600}\""),
        ("\"\u{7f}\u{2028}\"", "\"\u{7f}\u{2028}\""),
    ];
    for (text, canonical) in rows {
        let tree = read_tree(rt.alloc(), text.as_bytes())?;
        let written = write_tree(rt.alloc(), &tree)?;
        assert_eq!(rt; written.as_slice(), canonical.as_bytes(), "{text}");
    }
    Ok(())
}

#[test]
fn what_is_no_json_is_refused(rt: HostRuntime) {
    let rows = [
        "",
        "[1.5,",
        "[1,]",
        "{\"a\":}",
        "{a:1}",
        "nul",
        "01",
        "+1",
        "1.",
        "1 2",
        "1e999",
        "{\"n\":1e999,\"n\":2}",
        "\"\n\"",
        "\"\\ud800\"",
        "\"\\udc00\\ud800\"",
        "\u{feff}1",
        "\u{c}1",
    ];
    for text in rows {
        let fault = read_tree(rt.alloc(), text.as_bytes()).err();
        assert_eq!(rt; fault, Some(TextFault::Json), "{text}");
    }
    let not_utf8 = read_tree(rt.alloc(), b"\"\xff\"").err();
    assert_eq!(rt; not_utf8, Some(TextFault::Json));
    let surrogate = read_tree(rt.alloc(), b"\"\xed\xa0\x80\"").err();
    assert_eq!(rt; surrogate, Some(TextFault::Json));
}

#[test]
fn a_number_that_is_not_whole_is_refused(rt: HostRuntime) {
    let rows = [
        "-0",
        "1.0",
        "1e2",
        "0e5",
        "1e-999",
        "0e999",
        "0e99999999999",
        "9223372036854775808",
        "18446744073709551616",
        "-9223372036854775809",
        "[1,[2.5]]",
        "{\"a\":1,\"b\":{\"c\":-0}}",
    ];
    for text in rows {
        let fault = read_tree(rt.alloc(), text.as_bytes()).err();
        assert_eq!(rt; fault, Some(TextFault::Number), "{text}");
    }
}

#[test]
fn an_empty_list_nests_one_level(rt: HostRuntime) -> Result<(), Fail> {
    let rows = [
        ("0", 0),
        ("\"[]\"", 0),
        ("[]", 1),
        ("{}", 1),
        ("[1,[],{\"a\":[1]},2]", 3),
        ("{\"a\":{\"b\":0},\"c\":1}", 2),
    ];
    for (text, want) in rows {
        let tree = read_tree(rt.alloc(), text.as_bytes())?;
        assert_eq!(rt; nesting(&tree), want, "{text}");
    }
    Ok(())
}

#[test]
fn levels_127_are_read_and_128_are_not(rt: HostRuntime) -> Result<(), Fail> {
    let mut open = vec![in rt.alloc(); b'['; 127]?;
    let close = vec![in rt.alloc(); b']'; 127]?;
    open.extend_from_slice(close.as_slice())?;
    let tree = read_tree(rt.alloc(), open.as_slice())?;
    assert_eq!(rt; nesting(&tree), 127);
    let mut deeper = vec![in rt.alloc(); b'['; 128]?;
    let close = vec![in rt.alloc(); b']'; 128]?;
    deeper.extend_from_slice(close.as_slice())?;
    let fault = read_tree(rt.alloc(), deeper.as_slice()).err();
    assert_eq!(rt; fault, Some(TextFault::Json));
    Ok(())
}

// A text of 262,144 bytes in 127 levels: as many bytes as a line has, as many levels as are read.
#[test]
fn the_largest_text_is_read_copied_and_written(rt: HostRuntime) -> Result<(), Fail> {
    let mut text = vec![in rt.alloc(); b'['; 127]?;
    text.extend_from_slice(b"10")?;
    for _ in 0..130_944 {
        text.extend_from_slice(b",1")?;
    }
    let close = vec![in rt.alloc(); b']'; 127]?;
    text.extend_from_slice(close.as_slice())?;
    assert_eq!(rt; text.len(), 262_144);
    let tree = read_tree(rt.alloc(), text.as_slice())?;
    assert_eq!(rt; nesting(&tree), 127);
    let written = write_tree(rt.alloc(), &tree.copy(rt.alloc())?)?;
    assert!(rt; written.as_slice() == text.as_slice());
    Ok(())
}
