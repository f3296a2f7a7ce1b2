//! Queries that name many members.
use ax_excerpt::excerpt_for;
use ax_excerpt_text::read_excerpt;
use ax_parse::parse;
use ax_text::TreeReader;
use ax_tree::{Members, write_tree};
use std::alloc::Global;
use std::test::Fail;

/// `SELECT c.m100, c.m101, .. FROM c` and `{"m100":1,"m101":1, ..}`
fn texts(alloc: Global, count: u32) -> Result<(String, String), Fail> {
    let mut query = String::from_str(alloc, "SELECT c.m100")?;
    let mut document = String::from_str(alloc, r#"{"m100":1"#)?;
    for number in 101..count.saturating_add(100) {
        let item = format!(in alloc; ", c.m{number}")?;
        query.push_str(item.as_str())?;
        let member = format!(in alloc; ",\"m{number}\":1")?;
        document.push_str(member.as_str())?;
    }
    query.push_str(" FROM c")?;
    document.push('}')?;
    Ok((query, document))
}

// All of 200 members are read.
#[test]
fn many_members_are_read(rt: HostRuntime) -> Result<(), Fail> {
    let alloc = rt.alloc();
    let (text, document) = texts(alloc, 200)?;
    let params = Members::new(alloc);
    let query = parse(alloc, text.as_bytes(), &params)?;
    let Some(excerpt) = excerpt_for(alloc, &query)? else {
        assert!(rt; false, "read whole");
        return Ok(());
    };
    let mut reader = TreeReader::new(alloc);
    let Some(tree) = read_excerpt(alloc, &mut reader, &excerpt, document.as_bytes())? else {
        assert!(rt; false, "not read");
        return Ok(());
    };
    assert_eq!(rt; write_tree(alloc, &tree)?.as_slice(), document.as_bytes());
    Ok(())
}
