//! Rows of lists that are longer than any in a document of a store.
use crate::tests::built::built;
use ax_mean::{Members, Tree};
use ax_parse::parse;
use ax_rows::append_rows;
use ax_text::read_tree;
use std::alloc::Global;
use std::test::Fail;

/// `{"t":[1,1,..]}` with so many elements behind the first.
fn document(alloc: Global, more: usize) -> Result<Tree, Fail> {
    let text = built(alloc, "{\"t\":[1", ",1", more, "]}")?;
    Ok(read_tree(alloc, text.as_bytes())?)
}

/// How many rows a query has in a document, and the last position of the last one.
fn rows_found(alloc: Global, text: &str, document: &Tree) -> Result<(usize, Option<u32>), Fail> {
    let query = parse(alloc, text.as_bytes(), &Members::new(alloc))?;
    let rows = append_rows(alloc, &query, 1, document, Vec::new(alloc))?;
    let last = match rows.last() {
        Some(row) => row.place.as_slice().last().copied(),
        None => None,
    };
    Ok((rows.len(), last))
}

#[test]
fn a_list_of_70000_elements_is_a_source(rt: HostRuntime) -> Result<(), Fail> {
    let alloc = rt.alloc();
    let document = document(alloc, 69_999)?;
    for text in [
        "SELECT VALUE x FROM x IN c.t",
        "SELECT VALUE x FROM c JOIN x IN c.t",
    ] {
        assert_eq!(rt;
            rows_found(alloc, text, &document)?,
            (70_000, Some(69_999)),
            "{text}"
        );
    }
    Ok(())
}
