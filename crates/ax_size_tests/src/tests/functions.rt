//! Functions of texts and lists with more than 65,536 characters, bytes or elements.
use crate::tests::built::built;
use ax_func::call;
use ax_mean::{Func, Memory, Text, Tree, Value};
use ax_text::read_tree;
use std::alloc::Global;
use std::test::Fail;

/// The text of so many letters `a`, and a `b` behind them.
fn long_text(alloc: Global, count: usize) -> Result<Value, Memory> {
    let text = built(alloc, "", "a", count, "b")?;
    Ok(Value::Defined(Tree::Text(Text::from_string(text))))
}

/// The list of 1 and so many times 1 behind it.
fn long_list(alloc: Global, more: usize) -> Result<Value, Fail> {
    let text = built(alloc, "[1", ",1", more, "]")?;
    Ok(Value::Defined(read_tree(alloc, text.as_bytes())?))
}

/// The number that a value is; -1 where it is none.
fn number_of(value: &Value) -> i64 {
    match value {
        Value::Defined(Tree::Number(number)) => *number,
        _ => -1,
    }
}

/// How many bytes a text has; 0 where the value is none.
fn text_length(value: &Value) -> usize {
    match value {
        Value::Defined(Tree::Text(text)) => text.as_str().len(),
        _ => 0,
    }
}

#[test]
fn long_texts_are_measured(rt: HostRuntime) -> Result<(), Fail> {
    let alloc = rt.alloc();
    let text = long_text(alloc, 70_000)?;
    let part = long_text(alloc, 0)?;
    let args = [text, part];
    assert_eq!(rt; number_of(&call(alloc, Func::Length, &args[..1])?), 70_001);
    assert_eq!(rt;
        number_of(&call(alloc, Func::IndexOf, args.as_slice())?),
        70_000
    );
    assert_eq!(rt;
        text_length(&call(alloc, Func::Reverse, &args[..1])?),
        70_001
    );
    assert_eq!(rt;
        text_length(&call(alloc, Func::Concat, args.as_slice())?),
        70_002
    );
    Ok(())
}

// The canonical text has a bracket at each end, a digit for each element and a comma between two.
#[test]
fn long_lists_are_measured_and_shown(rt: HostRuntime) -> Result<(), Fail> {
    let alloc = rt.alloc();
    let args = [long_list(alloc, 69_999)?];
    assert_eq!(rt;
        number_of(&call(alloc, Func::ArrayLength, args.as_slice())?),
        70_000
    );
    assert_eq!(rt;
        text_length(&call(alloc, Func::ToString, args.as_slice())?),
        140_001
    );
    Ok(())
}
