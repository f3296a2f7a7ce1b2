use ax_plain::PlainMachine;
use ax_script::Status;
use ax_script_support::{ROOM, output_by_bytes, output_of};
use std::alloc::{AllocError, Global};
use std::process::Abort;
use std::test::Fail;

// The replies by hand, from the forms of a line.
#[test]
fn the_plain_machine_answers(rt: HostRuntime) -> Result<(), Fail> {
    const ALL: &str = "QUERY {\"query\":\"SELECT * FROM c\"}";
    const TABLE: [(&str, &str); 20] = [
        (ALL, "end 0\n"),
        ("UPSERT {\"id\":\"a\",\"b\":1}", "ok\n"),
        ("UPSERT {\"id\":\"b\"}", "ok\n"),
        ("READ a", "doc {\"b\":1,\"id\":\"a\"}\n"),
        ("UPSERT {\"id\":\"a\",\"a\":2}", "ok\n"),
        (
            ALL,
            "row {\"a\":2,\"id\":\"a\"}\nrow {\"id\":\"b\"}\nend 2\n",
        ),
        ("QUERY {}", "err 10 query\n"),
        (
            "QUERY {\"query\":\"select value c.a from c\"}",
            "row 2\nend 1\n",
        ),
        (
            "QUERY {\"query\":\"SELECT VALUE c.id FROM c ORDER BY c.a\"}",
            "row \"b\"\nrow \"a\"\nend 2\n",
        ),
        (
            "QUERY {\"query\":\"SELECT * FROM c ORDER BY c._etag\"}",
            "err 11 order\n",
        ),
        (
            "QUERY {\"query\":\"SELECT VALUE COUNT(1) FROM c\"}",
            "row 2\nend 1\n",
        ),
        (
            "QUERY {\"query\":\"SELECT VALUE d FROM c\"}",
            "err 10 query\n",
        ),
        ("UPSERT {}", "err 5 id\n"),
        ("CREATE {\"id\":\"a\"}", "err 7 conflict\n"),
        ("CREATE {\"id\":\"c\"}", "ok\n"),
        ("REPLACE {\"id\":\"d\"}", "err 8 absent\n"),
        ("REPLACE {\"id\":\"c\",\"n\":7}", "ok\n"),
        ("DELETE b", "ok\n"),
        ("READ b", "err 8 absent\n"),
        (
            ALL,
            "row {\"a\":2,\"id\":\"a\"}\nrow {\"id\":\"c\",\"n\":7}\nend 2\n",
        ),
    ];
    let alloc = rt.alloc();
    let mut machine = PlainMachine::new(alloc);
    for (line, expected) in TABLE {
        let reply = machine.answer(alloc, line.as_bytes())?;
        assert_eq!(rt; reply.as_slice(), expected.as_bytes(), "{line}");
    }
    Ok(())
}

/// How many lines are drawn for a script.
const LINES: usize = 150;

/// A generator of numbers, by multiplying and adding.
#[derive(Drop)]
struct Draws {
    state: u32,
}

impl Draws {
    /// The next number below a bound, which is not 0.
    fn below(&mut self, bound: usize) -> usize {
        self.state = self
            .state
            .wrapping_mul(1_664_525)
            .wrapping_add(1_013_904_223);
        (self.state >> 8) as usize % bound.max(1)
    }

    fn one_of<'a>(&mut self, texts: &'a [&'a str]) -> &'a str {
        let at = self.below(texts.len());
        texts.get(at).copied().unwrap_or("")
    }
}

// What queries are made of. Not every choice of one of each is a query.
const PICKS: [&str; 10] = [
    "*",
    "VALUE c.id",
    "DISTINCT VALUE c.n % 3",
    "c.id, c.n AS n, t",
    "VALUE [c.id, t]",
    "TOP 3 VALUE c.n % @k",
    "DISTINCT TOP @k c.tags[0] ?? 'none' AS tag",
    "VALUE {'id': c.id, 'big': c.n > @k}",
    "VALUE CONCAT(c.id, '-', TOSTRING(c.n))",
    "c.id, c.id",
];

const SOURCES: [&str; 6] = [
    "c",
    "root c",
    "c JOIN t IN c.tags",
    "c JOIN t IN c.tags JOIN u IN c.tags",
    "t IN c.tags",
    "c.tags[1] AS c",
];

const CONDITIONS: [&str; 17] = [
    "",
    "WHERE c.n > @k",
    "WHERE c.id >= 'd2' AND c.n % 2 = 0",
    "WHERE NOT (c.n = @k) OR c.tags[0] = 'x'",
    "WHERE c.n NOT BETWEEN @k AND @k * 100000",
    "WHERE c.id IN ('d1', 'd7', CONCAT('d', TOSTRING(@k)))",
    "WHERE c.id LIKE 'd1%'",
    "WHERE IS_DEFINED(c.tags) AND t != 'x'",
    "WHERE c.zz",
    "WHERE",
    "WHERE c.tags[2] = @k",
    "WHERE c.n < 500 AND c.id > 'd2'",
    "WHERE c.n <= '5' AND STARTSWITH(c.id, 'd1')",
    "WHERE c.n BETWEEN @k AND 700",
    "WHERE c.id IN ('d3', 'd17', 'd30')",
    "WHERE ARRAY_CONTAINS(c.tags, @k)",
    "WHERE @k <= c.n AND IS_DEFINED(c.tags[1])",
];

const ENDINGS: [&str; 10] = [
    "",
    "ORDER BY c.n",
    "ORDER BY c.n DESC",
    "ORDER BY c.tags",
    "ORDER BY c.id DESC OFFSET 2 LIMIT @k",
    "ORDER BY c._etag",
    "ORDER BY c.id, c.n",
    "OFFSET @k LIMIT 7",
    "LIMIT 3",
    "GROUP BY c.id",
];

/// The line of a query by draws, with one parameter.
fn query_line(alloc: Global, draws: &mut Draws) -> Result<String, AllocError> {
    let pick = draws.one_of(PICKS.as_slice());
    let source = draws.one_of(SOURCES.as_slice());
    let condition = draws.one_of(CONDITIONS.as_slice());
    let ending = draws.one_of(ENDINGS.as_slice());
    let value = draws.below(30);
    format!(in alloc;
        "QUERY {{\"query\":\"SELECT {pick} FROM {source} {condition} {ending}\",\"parameters\":[{{\"name\":\"@k\",\"value\":{value}}}]}}"
    )
}

/// A script line by draws: writes of some thirty ids, queries and lines that are refused.
fn mixed_line(alloc: Global, draws: &mut Draws) -> Result<String, AllocError> {
    let id = draws.below(31);
    let number = draws.below(1000);
    match draws.below(11) {
        0 => format!(in alloc; "UPSERT {{\"id\":\"d{id}\",\"n\":{id}.5}}"),
        1 => format!(in alloc;
            "UPSERT {{\"n\":{number},\"id\":\"d{id}\",\"tags\":[\"x\",{{}},{id}]}}\r"
        ),
        2 => format!(in alloc; "UPSERT {{\"id\":\"d{id}\",\"n\":\"{number}\",\"tags\":[]}}"),
        3 => format!(in alloc; "UPSERT {{\"id\":\"d{id}\",\"n\":{number}}}"),
        4 => format!(in alloc; "READ d{id}"),
        5 => format!(in alloc; "CREATE {{\"id\":\"d{id}\",\"n\":{number}}}"),
        6 => format!(in alloc; "REPLACE {{\"id\":\"d{id}\",\"tags\":[{number}]}}"),
        7 => format!(in alloc; "DELETE d{id}"),
        _ => query_line(alloc, draws),
    }
}

fn add_line(script: &mut Vec<u8>, line: &[u8]) -> Result<(), Fail> {
    script.extend_from_slice(line)?;
    Ok(script.push(b'\n')?)
}

/// The script of a seed.
fn script_of(alloc: Global, seed: u32) -> Result<Vec<u8>, Fail> {
    let mut draws = Draws { state: seed };
    let mut script = Vec::new(alloc);
    for _ in 0..LINES {
        let line = mixed_line(alloc, &mut draws)?;
        add_line(&mut script, line.as_bytes())?;
    }
    Ok(script)
}

/// Serves one line, and adds its reply.
fn add_reply(
    alloc: Global,
    machine: &mut PlainMachine,
    line: &[u8],
    replies: &mut Vec<u8>,
) -> Result<(), Fail> {
    let reply = machine.answer(alloc, line)?;
    Ok(replies.extend_from_slice(reply.as_slice())?)
}

/// What a plain machine without documents answers to the script of a seed.
fn replies_of(alloc: Global, seed: u32) -> Result<Vec<u8>, Fail> {
    let mut draws = Draws { state: seed };
    let mut machine = PlainMachine::new(alloc);
    let mut replies = Vec::new(alloc);
    for _ in 0..LINES {
        let line = mixed_line(alloc, &mut draws)?;
        add_reply(alloc, &mut machine, line.as_bytes(), &mut replies)?;
    }
    Ok(replies)
}

/// Sees that the program answers so to the script of a seed, whatever the reads.
fn check(
    rt: &impl Abort,
    alloc: Global,
    seed: u32,
    script: &[u8],
    expected: &[u8],
) -> Result<(), Fail> {
    let (status, output) = output_of(alloc, script, &[], &[], ROOM)?;
    assert_eq!(rt; status, Status::Done, "seed {seed}");
    assert_eq!(rt; output.as_slice(), expected, "seed {seed}");
    drop(output);
    let (status, output) = output_by_bytes(alloc, script)?;
    assert_eq!(rt; status, Status::Done, "seed {seed} by bytes");
    assert_eq!(rt; output.as_slice(), expected, "seed {seed} by bytes");
    Ok(())
}

// The program and the plain machine answer some lines alike.
#[test]
fn the_program_and_the_plain_machine_agree(rt: HostRuntime) -> Result<(), Fail> {
    let alloc = rt.alloc();
    for seed in [7, 2026] {
        let script = script_of(alloc, seed)?;
        let replies = replies_of(alloc, seed)?;
        check(&rt, alloc, seed, script.as_slice(), replies.as_slice())?;
    }
    Ok(())
}
