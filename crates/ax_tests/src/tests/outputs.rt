use ax_built_texts::{built, with_numbers};
use ax_script::Status;
use ax_script_support::{ROOM, output_by_bytes, output_of};
use std::test::Fail;

// The outputs by hand, from the meaning of each line.
const ROWS: [(&str, &str); 20] = [
    ("", ""),
    ("UPSERT {\"id\":\"a\"}", "ok\n"),
    ("UPSERT {\"id\":\"a\"}\r\n", "ok\n"),
    ("UPSERT {\"id\":\"a\"}\r\r\n", "ok\n"),
    ("\n\r\n\r", "err 2 command\nerr 2 command\nerr 2 command\n"),
    (
        "UPSERT {\"id\":\"a\",\"b\":1}\nUPSERT {\"id\":\"a\",\"a\":2}\nQUERY {\"query\":\"SELECT * FROM c\"}\n",
        "ok\nok\nrow {\"a\":2,\"id\":\"a\"}\nend 1\n",
    ),
    (
        "READ a\nUPSERT {\nUPSERT {\"id\":\"a\",\"n\":1.5}\nUPSERT 5\nQUERY {\"query\":\"SELECT\"}\n",
        "err 8 absent\nerr 3 json\nerr 4 number\nerr 5 id\nerr 10 query\n",
    ),
    (
        "UPSERT {\"id\":\"a\",\"n\":1.5}\nUPSERT {\"id\":\"b\",\"n\":9223372036854775807}\nUPSERT {\"id\":\"c\",\"n\":9223372036854775808}\n",
        "err 4 number\nok\nerr 4 number\n",
    ),
    (
        "UPSERT {\"total\":30,\"id\":\"o1\",\"lines\":[{\"sku\":\"b\",\"qty\":2}]}\nQUERY {\"query\":\"SELECT * FROM c\"}\n",
        "ok\nrow {\"id\":\"o1\",\"lines\":[{\"qty\":2,\"sku\":\"b\"}],\"total\":30}\nend 1\n",
    ),
    (
        "UPSERT {\"id\":\"a\",\"n\":1,\"n\":2}\nQUERY {\"query\":\"SELECT * FROM c\"}",
        "ok\nrow {\"id\":\"a\",\"n\":2}\nend 1\n",
    ),
    (
        "UPSERT {\"id\":\"b\"}\nUPSERT {\"id\":\"a\"}\nUPSERT {\"id\":\"b\",\"x\":null}\nQUERY {\"query\":\"SELECT * FROM c\"}\n",
        "ok\nok\nok\nrow {\"id\":\"b\",\"x\":null}\nrow {\"id\":\"a\"}\nend 2\n",
    ),
    (
        "QUERY {\"query\":\"SELECT * FROM c\"}\nFOO",
        "end 0\nerr 2 command\n",
    ),
    (
        "CREATE {\"id\":\"a\",\"n\":1}\nCREATE {\"id\":\"a\",\"n\":2}\nREAD a\n",
        "ok\nerr 7 conflict\ndoc {\"id\":\"a\",\"n\":1}\n",
    ),
    (
        "CREATE {\"id\":\"a\"}\nUPSERT {\"id\":\"a\",\"n\":1}\nDELETE a\nDELETE a\nREAD a\n",
        "ok\nok\nok\nerr 8 absent\nerr 8 absent\n",
    ),
    (
        "UPSERT {\"id\":\"a\",\"n\":1,\"n\":2}\nREAD a\n",
        "ok\ndoc {\"id\":\"a\",\"n\":2}\n",
    ),
    (
        "CREATE {\"id\":\"\u{e9}\"}\nREAD \u{e9}\nREAD \nREAD  a\nDELETE a\u{7f}\n",
        "ok\ndoc {\"id\":\"\u{e9}\"}\nerr 5 id\nerr 8 absent\nerr 5 id\n",
    ),
    (
        "REPLACE {\"id\":\"a\"}\nCREATE {\"id\":\"a\"}\nCREATE {\"id\":\"b\"}\nREPLACE {\"id\":\"a\",\"n\":1}\nQUERY {\"query\":\"SELECT * FROM c\"}\n",
        "err 8 absent\nok\nok\nok\nrow {\"id\":\"a\",\"n\":1}\nrow {\"id\":\"b\"}\nend 2\n",
    ),
    (
        "CREATE {\"id\":\"a\",\"n\":1}\nCREATE {\"id\":\"b\",\"n\":1}\nDELETE a\nCREATE {\"id\":\"a\",\"n\":1}\nQUERY {\"query\":\"SELECT VALUE c.id FROM c WHERE c.n = 1\"}\n",
        "ok\nok\nok\nok\nrow \"b\"\nrow \"a\"\nend 2\n",
    ),
    (
        "CREATE {\nCREATE 5\nCREATE {\"id\":\"\"}\nREPLACE {\"id\":1}\nREPLACE \nCREATE\nread a\n",
        "err 3 json\nerr 5 id\nerr 5 id\nerr 5 id\nerr 3 json\nerr 2 command\nerr 2 command\n",
    ),
    (
        "CREATE {\"id\":\"a\"}\nDELETE a\r\nDELETE a\nUPSERT {\"id\":\"a\"}\nDELETE a",
        "ok\nok\nerr 8 absent\nok\nok\n",
    ),
];

#[test]
fn scripts_are_answered(rt: HostRuntime) -> Result<(), Fail> {
    let alloc = rt.alloc();
    for (script, expected) in ROWS {
        let (status, output) = output_of(alloc, script.as_bytes(), &[], &[], ROOM)?;
        assert_eq!(rt; output.as_slice(), expected.as_bytes(), "{script:?}");
        assert_eq!(rt; status, Status::Done, "{script:?}");
    }
    Ok(())
}

// A line whose bytes come in many reads is served whole.
#[test]
fn one_byte_a_read_is_the_same(rt: HostRuntime) -> Result<(), Fail> {
    let alloc = rt.alloc();
    for (script, expected) in ROWS {
        let (status, output) = output_by_bytes(alloc, script.as_bytes())?;
        assert_eq!(rt; output.as_slice(), expected.as_bytes(), "{script:?}");
        assert_eq!(rt; status, Status::Done, "{script:?}");
    }
    Ok(())
}

// Not every line is answered that memory ran out: one document is written, and its row is read.
#[test]
fn one_row(rt: HostRuntime) -> Result<(), Fail> {
    let script = b"UPSERT {\"id\":\"a\"}\nQUERY {\"query\":\"SELECT * FROM c\"}\n";
    let (_, output) = output_of(rt.alloc(), script, &[], &[], ROOM)?;
    assert_eq!(rt;
        output.as_slice(),
        b"ok\nrow {\"id\":\"a\"}\nend 1\n".as_slice()
    );
    Ok(())
}

// As many terms as a document may have are written and taken out again, and one more is refused.
#[test]
fn as_many_terms_as_there_may_be_are_written(rt: HostRuntime) -> Result<(), Fail> {
    let alloc = rt.alloc();
    let script = with_numbers(
        alloc,
        "CREATE {\"id\":\"a\",\"v\":[",
        4_095,
        "]}\nDELETE a\nREAD a\n",
    )?;
    let (status, output) = output_of(alloc, script.as_bytes(), &[], &[], ROOM)?;
    assert_eq!(rt; status, Status::Done);
    assert_eq!(rt; output.as_slice(), b"ok\nok\nerr 8 absent\n".as_slice());
    let script = with_numbers(alloc, "CREATE {\"id\":\"a\",\"v\":[", 4_096, "]}\nREAD a\n")?;
    let (status, output) = output_of(alloc, script.as_bytes(), &[], &[], ROOM)?;
    assert_eq!(rt; status, Status::Done);
    assert_eq!(rt;
        output.as_slice(),
        b"err 6 large\nerr 8 absent\n".as_slice()
    );
    Ok(())
}

// A line that is too long is refused, and the lines behind it are served.
#[test]
fn a_line_that_is_too_long_is_passed(rt: HostRuntime) -> Result<(), Fail> {
    let alloc = rt.alloc();
    let script = built(alloc, "CREATE {\"id\":\"a\"}\n", "x", 262_145, "\nREAD a\n")?;
    let (status, output) = output_of(alloc, script.as_bytes(), &[], &[], ROOM)?;
    assert_eq!(rt; status, Status::Done);
    assert_eq!(rt;
        output.as_slice(),
        b"ok\nerr 1 line\ndoc {\"id\":\"a\"}\n".as_slice()
    );
    Ok(())
}

// What is not UTF-8 is no id.
#[test]
fn an_id_is_utf8(rt: HostRuntime) -> Result<(), Fail> {
    let (status, output) = output_of(rt.alloc(), b"READ \xFF\nDELETE \xFF\n", &[], &[], ROOM)?;
    assert_eq!(rt; status, Status::Done);
    assert_eq!(rt; output.as_slice(), b"err 5 id\nerr 5 id\n".as_slice());
    Ok(())
}
