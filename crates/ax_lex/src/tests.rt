use crate::decimal::number;
use crate::fault::LexFault;
use crate::keyword::Keyword;
use crate::symbol::Symbol;
use crate::token::TokenKind;
use crate::tokenizing::tokens;
use crate::unescape::text_value;
use std::test::Fail;

// The tokens of a text, each as a letter of its kind and its bytes, with a space behind it.
fn spelled(rt: &HostRuntime, text: &str) -> Result<String, Fail> {
    let mut out = String::new(rt.alloc());
    for token in tokens(rt.alloc(), text.as_bytes())? {
        out.push(match token.kind {
            TokenKind::Name => 'n',
            TokenKind::Keyword => 'k',
            TokenKind::Parameter => 'p',
            TokenKind::Text => 't',
            TokenKind::Number => 'd',
            TokenKind::Symbol => 's',
        })?;
        out.push_str(std::str::from_utf8(token.bytes(text.as_bytes())).map_err(|_| "cut")?)?;
        out.push(' ')?;
    }
    Ok(out)
}

// Texts beside their tokens.
#[test]
fn texts_with_tokens(rt: HostRuntime) -> Result<(), Fail> {
    let rows = [
        ("", ""),
        (" \t\r\n", ""),
        ("SELECT * FROM c", "kSELECT s* kFROM nc "),
        ("select Value c.id", "kselect kValue nc s. nid "),
        ("selects _as null1", "nselects n_as nnull1 "),
        (
            "1.a 1 .a 1..2 c.5",
            "d1 s. na d1 s. na d1 s. s. d2 nc s. d5 ",
        ),
        ("007 98765432109876543210", "d007 d98765432109876543210 "),
        ("--5 ???", "s- s- d5 s?? s? "),
        ("a<=b<>c!=d>=e||f", "na s<= nb s<> nc s!= nd s>= ne s|| nf "),
        ("< = > = ? ?", "s< s= s> s= s? s? "),
        ("<==>", "s<= s= s> "),
        ("@p@select @_1", "p@p p@select p@_1 "),
        (
            "c[0]['a']{\"b\":1}",
            "nc s[ d0 s] s[ t'a' s] s{ t\"b\" s: d1 s} ",
        ),
        ("'a\"b' \"a'b\"", "t'a\"b' t\"a'b\" "),
        ("'\\'' '\\\\'x", "t'\\'' t'\\\\' nx "),
        ("'h\u{e9}\u{1F600}\0\n'", "t'h\u{e9}\u{1F600}\0\n' "),
        (
            "f(-1,+2)*3/4%5",
            "nf s( s- d1 s, s+ d2 s) s* d3 s/ d4 s% d5 ",
        ),
    ];
    for (text, meant) in rows {
        assert_eq!(rt; spelled(&rt, text)?.as_str(), meant, "{text:?}");
    }
    Ok(())
}

// Texts that have none.
#[test]
fn texts_without_tokens(rt: HostRuntime) {
    let rows: [&[u8]; 27] = [
        b"1a",
        b"1_",
        b"1.5",
        b"12.0x",
        b"@",
        b"@ p",
        b"@1",
        b"!",
        b"|",
        b"a ! b",
        b"a | b",
        b";",
        b"$",
        b"\\",
        b"#",
        b"'",
        b"'a",
        b"'a\"",
        b"'\\",
        b"'\\x'",
        b"'\\u12'",
        b"'\\uD83D'",
        b"'\\uDE00'",
        b"'\\uD83Dx\\uDE00'",
        b"h\xC3\xA9",
        b"'\xC3'",
        b"\xC2\xA0",
    ];
    for text in rows {
        assert_eq!(rt;
            tokens(rt.alloc(), text).err(),
            Some(LexFault::Text),
            "{text:?}"
        );
    }
}

// A word has at most 255 bytes, behind an `@` too.
#[test]
fn words_of_255_bytes(rt: HostRuntime) -> Result<(), Fail> {
    for sign in ["", "@"] {
        let mut text = String::from_str(rt.alloc(), sign)?;
        for _ in 0..255 {
            text.push('x')?;
        }
        assert_eq!(rt; tokens(rt.alloc(), text.as_bytes())?.len(), 1);
        text.push('x')?;
        assert_eq!(rt;
            tokens(rt.alloc(), text.as_bytes()).err(),
            Some(LexFault::Text)
        );
    }
    Ok(())
}

#[test]
fn what_texts_say(rt: HostRuntime) -> Result<(), Fail> {
    let rows: [(&str, &str); 7] = [
        ("''", ""),
        ("\"it's\"", "it's"),
        ("'\\'\\\"\\\\\\/'", "'\"\\/"),
        ("'\\b\\f\\n\\r\\t'", "\u{8}\u{c}\n\r\t"),
        ("'\\u0041\\u00e9\\u20AC\\u0000'", "A\u{e9}\u{20AC}\0"),
        ("'\\uD83D\\uDE00!'", "\u{1F600}!"),
        ("'\u{e9}\\\\n'", "\u{e9}\\n"),
    ];
    for (bytes, meant) in rows {
        assert_eq!(rt;
            text_value(rt.alloc(), bytes.as_bytes())?.as_str(),
            meant,
            "{bytes:?}"
        );
    }
    for bytes in ["", "a", "'a", "'a'b", "'a\\'"] {
        assert_eq!(rt;
            text_value(rt.alloc(), bytes.as_bytes()).err(),
            Some(LexFault::Text),
            "{bytes:?}"
        );
    }
    Ok(())
}

#[test]
fn what_tokens_say(rt: HostRuntime) {
    assert_eq!(rt; Keyword::of(b"oRdEr"), Some(Keyword::Order));
    assert_eq!(rt; Keyword::of(b"orders"), None);
    assert_eq!(rt; Keyword::Undefined.spelling(), b"UNDEFINED".as_slice());
    assert_eq!(rt; Symbol::of(b"<>"), Some(Symbol::NotEqual));
    assert_eq!(rt; Symbol::of(b"?"), Some(Symbol::Question));
    assert_eq!(rt; Symbol::of(b"?:"), None);
    assert_eq!(rt;
        number(b"0009223372036854775808", 9223372036854775808),
        Some(9223372036854775808)
    );
    assert_eq!(rt; number(b"4294967296", 4294967295), None);
    assert_eq!(rt; number(b"18446744073709551616", u64::MAX), None);
    assert_eq!(rt; number(b"18446744073709551615", u64::MAX), Some(u64::MAX));
}

// The longest query that is served: a token in every byte, and one text alone.
#[test]
fn queries_of_16384_bytes(rt: HostRuntime) -> Result<(), Fail> {
    let mut open = String::with_capacity(rt.alloc(), 16384)?;
    for _ in 0..16384 {
        open.push('(')?;
    }
    assert_eq!(rt; tokens(rt.alloc(), open.as_bytes())?.len(), 16384);
    let mut quoted = String::with_capacity(rt.alloc(), 16384)?;
    quoted.push('"')?;
    for _ in 0..16382 {
        quoted.push('(')?;
    }
    quoted.push('"')?;
    assert_eq!(rt; tokens(rt.alloc(), quoted.as_bytes())?.len(), 1);
    assert_eq!(rt; text_value(rt.alloc(), quoted.as_bytes())?.len(), 16382);
    Ok(())
}
