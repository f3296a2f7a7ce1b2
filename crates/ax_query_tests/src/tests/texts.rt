//! Queries of texts, and the texts of values.
use ax_mean::{Members, Memory, Query, Value, write_tree};
use ax_parse::parse;
use std::alloc::Global;
use std::fmt::Debug;
use std::process::Abort;
use std::test::Fail;

/// The query of a text without parameters.
pub fn query_of(alloc: Global, text: &str) -> Result<Query, Fail> {
    let params = Members::new(alloc);
    Ok(parse(alloc, text.as_bytes(), &params)?)
}

fn printed(alloc: Global, value: &Value) -> Result<Vec<u8>, Memory> {
    match value {
        Value::Undefined => Ok(Vec::from_slice(alloc, b"undefined".as_slice())?),
        Value::Defined(tree) => write_tree(alloc, tree),
    }
}

/// The text of a value.
pub fn into_text(alloc: Global, value: Value) -> Result<Vec<u8>, Fail> {
    let text = printed(alloc, &value);
    drop(value);
    Ok(text?)
}

/// Sees that a text, which is that `of` something, is the expected one.
pub fn check_text(rt: &impl Abort, found: &[u8], expected: &str, of: &impl Debug) {
    assert_eq!(rt; found, expected.as_bytes(), "{of:?}");
}
