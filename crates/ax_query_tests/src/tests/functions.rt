//! Tables of operators and functions with what they give, worked out by hand from the definitions of
//! the query language.
use super::texts::{check_text, into_text};
use ax_func::{binary, call, compare, unary};
use ax_mean::{BinaryOp, Func, Text, Tree, UnaryOp, Value};
use ax_text::read_tree;
use std::alloc::Global;
use std::process::Abort;
use std::test::Fail;

/// The values in a list of JSON, in which the text `?` stands for undefined.
fn values(alloc: Global, list: &str) -> Result<Vec<Value>, Fail> {
    match read_tree(alloc, list.as_bytes())? {
        Tree::List(items) => values_of(alloc, items.into_vec()),
        tree => {
            drop(tree);
            Ok(Vec::new(alloc))
        }
    }
}

fn values_of(alloc: Global, items: Vec<Tree>) -> Result<Vec<Value>, Fail> {
    let mut values = Vec::new(alloc);
    for item in items {
        values.push(value_of(item))?;
    }
    Ok(values)
}

fn value_of(tree: Tree) -> Value {
    if is_mark(&tree) {
        drop(tree);
        Value::Undefined
    } else {
        Value::Defined(tree)
    }
}

fn is_mark(tree: &Tree) -> bool {
    match tree {
        Tree::Text(text) => text.as_str() == "?",
        _ => false,
    }
}

/// What an operator gives; nothing where there are not two operands.
fn binary_of(alloc: Global, op: BinaryOp, operands: &[Value]) -> Result<Vec<u8>, Fail> {
    match operands {
        [a, b] => into_text(alloc, binary(alloc, op, a, b)?),
        _ => Ok(Vec::new(alloc)),
    }
}

fn binary_text(alloc: Global, op: BinaryOp, operands: &str) -> Result<Vec<u8>, Fail> {
    let operands = values(alloc, operands)?;
    let found = binary_of(alloc, op, operands.as_slice());
    drop(operands);
    found
}

/// Sees that each operator gives of its operands the value of this text.
fn check_binary(
    rt: &impl Abort,
    alloc: Global,
    table: &[(BinaryOp, &str, &str)],
) -> Result<(), Fail> {
    for (op, operands, expected) in table {
        let found = binary_text(alloc, *op, operands)?;
        check_text(rt, found.as_slice(), expected, &(*op, *operands));
    }
    Ok(())
}

/// What an operator gives; nothing where there is not one operand.
fn unary_of(alloc: Global, op: UnaryOp, operands: &[Value]) -> Result<Vec<u8>, Fail> {
    match operands {
        [a] => into_text(alloc, unary(op, a)?),
        _ => Ok(Vec::new(alloc)),
    }
}

fn unary_text(alloc: Global, op: UnaryOp, operands: &str) -> Result<Vec<u8>, Fail> {
    let operands = values(alloc, operands)?;
    let found = unary_of(alloc, op, operands.as_slice());
    drop(operands);
    found
}

/// Sees that each operator gives of its operand the value of this text.
fn check_unary(
    rt: &impl Abort,
    alloc: Global,
    table: &[(UnaryOp, &str, &str)],
) -> Result<(), Fail> {
    for (op, operands, expected) in table {
        let found = unary_text(alloc, *op, operands)?;
        check_text(rt, found.as_slice(), expected, &(*op, *operands));
    }
    Ok(())
}

fn call_of(alloc: Global, func: Func, arguments: &[Value]) -> Result<Vec<u8>, Fail> {
    into_text(alloc, call(alloc, func, arguments)?)
}

fn call_text(alloc: Global, func: Func, arguments: &str) -> Result<Vec<u8>, Fail> {
    let arguments = values(alloc, arguments)?;
    let found = call_of(alloc, func, arguments.as_slice());
    drop(arguments);
    found
}

/// Sees that each function gives of its arguments the value of this text.
fn check_calls(rt: &impl Abort, alloc: Global, table: &[(Func, &str, &str)]) -> Result<(), Fail> {
    for (func, arguments, expected) in table {
        let found = call_text(alloc, *func, arguments)?;
        check_text(rt, found.as_slice(), expected, &(*func, *arguments));
    }
    Ok(())
}

#[test]
fn values_are_compared(rt: HostRuntime) -> Result<(), Fail> {
    const TABLE: [(BinaryOp, &str, &str); 17] = [
        (BinaryOp::Equal, "[1,1]", "true"),
        (BinaryOp::Equal, "[null,null]", "true"),
        (BinaryOp::NotEqual, "[null,null]", "false"),
        (BinaryOp::LessEqual, "[null,null]", "true"),
        (BinaryOp::Less, "[null,null]", "false"),
        (BinaryOp::NotEqual, "[1,\"1\"]", "undefined"),
        (BinaryOp::Equal, "[1,true]", "undefined"),
        (BinaryOp::Equal, "[\"?\",\"?\"]", "undefined"),
        (BinaryOp::Less, "[false,true]", "true"),
        (BinaryOp::Equal, "[[1],[1]]", "true"),
        (BinaryOp::Equal, "[[1],[2]]", "false"),
        (BinaryOp::NotEqual, "[[1],[2]]", "undefined"),
        (BinaryOp::Less, "[[1],[2]]", "undefined"),
        (BinaryOp::Equal, "[[],{}]", "undefined"),
        (BinaryOp::Less, "[\"Z\",\"a\"]", "true"),
        (BinaryOp::GreaterEqual, "[\"a\",\"b\"]", "false"),
        (BinaryOp::Greater, "[2,1]", "true"),
    ];
    check_binary(&rt, rt.alloc(), &TABLE)
}

#[test]
fn numbers_are_reckoned_exactly_or_undefined(rt: HostRuntime) -> Result<(), Fail> {
    const TABLE: [(BinaryOp, &str, &str); 14] = [
        (BinaryOp::Add, "[2,3]", "5"),
        (BinaryOp::Add, "[9223372036854775807,1]", "undefined"),
        (BinaryOp::Add, "[\"a\",\"b\"]", "undefined"),
        (BinaryOp::Subtract, "[-9223372036854775808,1]", "undefined"),
        (BinaryOp::Multiply, "[-3,4]", "-12"),
        (BinaryOp::Multiply, "[-9223372036854775808,-1]", "undefined"),
        (BinaryOp::Divide, "[7,2]", "undefined"),
        (BinaryOp::Divide, "[-6,3]", "-2"),
        (BinaryOp::Divide, "[1,0]", "undefined"),
        (BinaryOp::Divide, "[-9223372036854775808,-1]", "undefined"),
        (BinaryOp::Remainder, "[-7,3]", "-1"),
        (BinaryOp::Remainder, "[7,-3]", "1"),
        (BinaryOp::Remainder, "[-9223372036854775808,-1]", "0"),
        (BinaryOp::Remainder, "[1,0]", "undefined"),
    ];
    check_binary(&rt, rt.alloc(), &TABLE)
}

#[test]
fn texts_are_like_patterns(rt: HostRuntime) -> Result<(), Fail> {
    const TABLE: [(BinaryOp, &str, &str); 12] = [
        (BinaryOp::Like, "[\"abc\",\"a%\"]", "true"),
        (BinaryOp::Like, "[\"abc\",\"_b_\"]", "true"),
        (BinaryOp::Like, "[\"aé\",\"a_\"]", "true"),
        (BinaryOp::Like, "[\"ab\",\"a\"]", "false"),
        (BinaryOp::Like, "[\"\",\"%\"]", "true"),
        (BinaryOp::Like, "[\"\",\"_\"]", "false"),
        (BinaryOp::Like, "[\"abcab\",\"%ab\"]", "true"),
        (BinaryOp::Like, "[\"abcabd\",\"%ab\"]", "false"),
        (BinaryOp::Like, "[\"xaxbx\",\"%a%b%\"]", "true"),
        (BinaryOp::Like, "[\"a\\nb\",\"a%b\"]", "true"),
        (BinaryOp::Like, "[\"a[b\",\"a[b\"]", "undefined"),
        (BinaryOp::Like, "[1,\"%\"]", "undefined"),
    ];
    check_binary(&rt, rt.alloc(), &TABLE)
}

#[test]
fn truths_are_joined_with_undefined(rt: HostRuntime) -> Result<(), Fail> {
    const TABLE: [(BinaryOp, &str, &str); 10] = [
        (BinaryOp::Join, "[\"a\",\"é\"]", "\"aé\""),
        (BinaryOp::Join, "[\"a\",1]", "undefined"),
        (BinaryOp::And, "[false,\"?\"]", "false"),
        (BinaryOp::And, "[1,false]", "false"),
        (BinaryOp::And, "[true,\"?\"]", "undefined"),
        (BinaryOp::Or, "[\"?\",true]", "true"),
        (BinaryOp::Or, "[false,\"?\"]", "undefined"),
        (BinaryOp::Coalesce, "[\"?\",3]", "3"),
        (BinaryOp::Coalesce, "[null,3]", "null"),
        (BinaryOp::Coalesce, "[\"?\",\"?\"]", "undefined"),
    ];
    check_binary(&rt, rt.alloc(), &TABLE)
}

#[test]
fn one_operand_gives_its_value(rt: HostRuntime) -> Result<(), Fail> {
    const TABLE: [(UnaryOp, &str, &str); 7] = [
        (UnaryOp::Minus, "[5]", "-5"),
        (UnaryOp::Minus, "[-9223372036854775808]", "undefined"),
        (UnaryOp::Plus, "[5]", "5"),
        (UnaryOp::Plus, "[\"a\"]", "undefined"),
        (UnaryOp::Not, "[true]", "false"),
        (UnaryOp::Not, "[\"?\"]", "undefined"),
        (UnaryOp::Not, "[1]", "undefined"),
    ];
    check_unary(&rt, rt.alloc(), &TABLE)
}

#[test]
fn kinds_are_told(rt: HostRuntime) -> Result<(), Fail> {
    const TABLE: [(Func, &str, &str); 13] = [
        (Func::IsDefined, "[\"?\"]", "false"),
        (Func::IsDefined, "[null]", "true"),
        (Func::IsNull, "[null]", "true"),
        (Func::IsNull, "[\"?\"]", "false"),
        (Func::IsBool, "[false]", "true"),
        (Func::IsNumber, "[0]", "true"),
        (Func::IsNumber, "[\"1\"]", "false"),
        (Func::IsString, "[\"\"]", "true"),
        (Func::IsArray, "[[]]", "true"),
        (Func::IsObject, "[{}]", "true"),
        (Func::IsPrimitive, "[[]]", "false"),
        (Func::IsPrimitive, "[null]", "true"),
        (Func::IsPrimitive, "[\"?\"]", "false"),
    ];
    check_calls(&rt, rt.alloc(), &TABLE)
}

#[test]
fn numbers_and_texts_are_made(rt: HostRuntime) -> Result<(), Fail> {
    const TABLE: [(Func, &str, &str); 19] = [
        (Func::Abs, "[-5]", "5"),
        (Func::Abs, "[-9223372036854775808]", "undefined"),
        (Func::Sign, "[-5]", "-1"),
        (Func::Sign, "[0]", "0"),
        (Func::Sign, "[\"a\"]", "undefined"),
        (Func::Length, "[\"aé😀\"]", "3"),
        (Func::Length, "[1]", "undefined"),
        (Func::Reverse, "[\"aéb\"]", "\"béa\""),
        (Func::ToString, "[\"a\"]", "\"a\""),
        (Func::ToString, "[[1,2]]", "\"[1,2]\""),
        (Func::ToString, "[\"?\"]", "undefined"),
        (Func::Concat, "[\"a\",\"b\",\"c\"]", "\"abc\""),
        (Func::Concat, "[\"a\",\"b\",1]", "undefined"),
        (Func::Substring, "[\"aébc\",1,2]", "\"éb\""),
        (Func::Substring, "[\"abc\",3,1]", "\"\""),
        (Func::Substring, "[\"abc\",9,1]", "\"\""),
        (Func::Substring, "[\"abc\",1,9223372036854775807]", "\"bc\""),
        (Func::Substring, "[\"abc\",-1,2]", "\"\""),
        (Func::Substring, "[\"abc\",1,-1]", "\"\""),
    ];
    check_calls(&rt, rt.alloc(), &TABLE)
}

#[test]
fn texts_are_searched_and_cut(rt: HostRuntime) -> Result<(), Fail> {
    const TABLE: [(Func, &str, &str); 14] = [
        (Func::StartsWith, "[\"abc\",\"ab\"]", "true"),
        (Func::StartsWith, "[\"abc\",\"\"]", "true"),
        (Func::EndsWith, "[\"abc\",\"ab\"]", "false"),
        (Func::Contains, "[\"abc\",\"b\"]", "true"),
        (Func::Contains, "[\"abc\",\"d\"]", "false"),
        (Func::Contains, "[\"abc\",1]", "undefined"),
        (Func::IndexOf, "[\"éab\",\"b\"]", "2"),
        (Func::IndexOf, "[\"abc\",\"\"]", "0"),
        (Func::IndexOf, "[\"abc\",\"d\"]", "-1"),
        (Func::Left, "[\"éab\",2]", "\"éa\""),
        (Func::Left, "[\"ab\",-1]", "\"\""),
        (Func::Left, "[\"ab\",9]", "\"ab\""),
        (Func::Right, "[\"aéb\",2]", "\"éb\""),
        (Func::Right, "[\"ab\",9]", "\"ab\""),
    ];
    check_calls(&rt, rt.alloc(), &TABLE)
}

#[test]
fn lists_are_counted_joined_and_sliced(rt: HostRuntime) -> Result<(), Fail> {
    const TABLE: [(Func, &str, &str); 14] = [
        (Func::IsArray, "[[]]", "true"),
        (Func::ArrayLength, "[[1,2]]", "2"),
        (Func::ArrayContains, "[[1,2],2]", "true"),
        (Func::ArrayContains, "[[1,2],\"2\"]", "false"),
        (Func::ArrayContains, "[[1,2],\"?\"]", "undefined"),
        (Func::ArrayConcat, "[[1],[2,3]]", "[1,2,3]"),
        (Func::ArrayConcat, "[[1],2]", "undefined"),
        (Func::ArraySlice, "[[1,2,3],1]", "[2,3]"),
        (Func::ArraySlice, "[[1,2,3],-2]", "[2,3]"),
        (Func::ArraySlice, "[[1,2,3],-9]", "[1,2,3]"),
        (Func::ArraySlice, "[[1,2,3],9]", "[]"),
        (Func::ArraySlice, "[[1,2,3],-2,1]", "[2]"),
        (Func::ArraySlice, "[[1,2,3],0,-1]", "[]"),
        (Func::ArraySlice, "[[1,2,3],0,\"?\"]", "undefined"),
    ];
    check_calls(&rt, rt.alloc(), &TABLE)
}

/// Sees that each value is before all that are behind it, and equal to itself.
fn check_rising(rt: &impl Abort, alloc: Global, rising: &[Value]) -> Result<(), Fail> {
    for (i, a) in rising.iter().enumerate() {
        for (j, b) in rising.iter().enumerate() {
            assert_eq!(rt; compare(alloc, a, b)?, i.cmp(&j), "{a:?} {b:?}");
        }
    }
    Ok(())
}

// The order of kinds, and within each: of lists by their texts, in which a comma is before a bracket.
#[test]
fn values_have_one_order(rt: HostRuntime) -> Result<(), Fail> {
    let alloc = rt.alloc();
    let rising = values(
        alloc,
        "[\"?\",null,false,true,-10,9,\"a\",\"b\",[1,2],[1],{}]",
    )?;
    assert_eq!(rt; rising.len(), 11);
    let checked = check_rising(&rt, alloc, rising.as_slice());
    drop(rising);
    checked
}

fn repeated(alloc: Global, piece: &str, end: &str) -> Result<Value, Fail> {
    let mut text = String::new(alloc);
    for _ in 0..2000 {
        text.push_str(piece)?;
    }
    text.push_str(end)?;
    Ok(Value::Defined(Tree::Text(Text::from_string(text))))
}

fn like(alloc: Global, text: &Value, pattern: &Value) -> Result<Vec<u8>, Fail> {
    into_text(alloc, binary(alloc, BinaryOp::Like, text, pattern)?)
}

fn like_pattern(alloc: Global, text: &Value) -> Result<Vec<u8>, Fail> {
    let pattern = repeated(alloc, "%a", "b")?;
    let found = like(alloc, text, &pattern);
    drop(pattern);
    found
}

// Every `%` could begin anywhere in the text; only the last one is tried again.
#[test]
fn a_hostile_pattern_is_answered(rt: HostRuntime) -> Result<(), Fail> {
    let alloc = rt.alloc();
    let text = repeated(alloc, "a", "")?;
    let found = like_pattern(alloc, &text);
    drop(text);
    assert_eq!(rt; found?.as_slice(), b"false".as_slice());
    Ok(())
}
