//! Queries with many conditions. The replies are worked out by hand.
use crate::tests::asking::{answers, line_of, rows_of};
use ax_plain::PlainMachine;
use ax_script_support::fresh_disk;
use std::alloc::Global;
use std::test::Fail;

/// How many conditions are joined.
const CONDITIONS: usize = 70;

/// The last member of which a condition speaks.
const LAST: usize = CONDITIONS - 1;

/// A form of conditions, of which there is one for each number.
#[derive(Clone, Copy)]
enum Form {
    OwnMember,
    Above,
    Among,
}

fn condition_of(alloc: Global, form: Form, number: usize) -> Result<String, Fail> {
    Ok(match form {
        Form::OwnMember => format!(in alloc; "c.p{number} = {number}")?,
        Form::Above => format!(in alloc; "c.n > {number}")?,
        Form::Among => format!(in alloc; "c.n IN (70, 71, {number})")?,
    })
}

/// The line of the query with the conditions of a form, joined by AND.
fn query_of_form(alloc: Global, form: Form) -> Result<String, Fail> {
    let mut joined = condition_of(alloc, form, 0)?;
    for number in 1..CONDITIONS {
        let condition = condition_of(alloc, form, number)?;
        joined.push_str(" AND ")?;
        joined.push_str(condition.as_str())?;
    }
    line_of(alloc, joined.as_str())
}

/// The line of the creation of a document with a number, and with so many members, each its own number but for the last.
fn creation_with_members(
    alloc: Global,
    id: &str,
    number: usize,
    last: usize,
) -> Result<String, Fail> {
    let mut line = format!(in alloc; "CREATE {{\"id\":\"{id}\",\"n\":{number}")?;
    for at in 0..LAST {
        let member = format!(in alloc; ",\"p{at}\":{at}")?;
        line.push_str(member.as_str())?;
    }
    let end = format!(in alloc; ",\"p{LAST}\":{last}}}")?;
    line.push_str(end.as_str())?;
    Ok(line)
}

// Seventy conditions are met together: each on a member of its own, and all on one, each of which asks for one range of
// its values or for several.
#[test]
fn seventy_conditions_are_met(rt: HostRuntime) -> Result<(), Fail> {
    const DOCUMENTS: [(&str, usize, usize); 5] = [
        ("a", 69, LAST),
        ("b", 70, 0),
        ("c", 71, 0),
        ("d", 0, 68),
        ("e", 72, LAST),
    ];
    let alloc = rt.alloc();
    let mut disk = fresh_disk(alloc)?;
    let mut machine = PlainMachine::new(alloc);
    for (id, number, last) in DOCUMENTS {
        let line = creation_with_members(alloc, id, number, last)?;
        let (output, plain) = answers(alloc, &mut disk, &mut machine, line.as_bytes())?;
        assert_eq!(rt; output.as_slice(), b"ok\n".as_slice(), "{id}");
        assert_eq!(rt; plain.as_slice(), b"ok\n".as_slice(), "plain: {id}");
    }
    for (form, ids) in [
        (Form::OwnMember, "ae"),
        (Form::Above, "bce"),
        (Form::Among, "bc"),
    ] {
        let line = query_of_form(alloc, form)?;
        let (output, plain) = answers(alloc, &mut disk, &mut machine, line.as_bytes())?;
        drop(line);
        let expected = rows_of(alloc, ids)?;
        assert_eq!(rt; output.as_slice(), expected.as_slice(), "{ids}");
        assert_eq!(rt; plain.as_slice(), expected.as_slice(), "plain: {ids}");
    }
    Ok(())
}
