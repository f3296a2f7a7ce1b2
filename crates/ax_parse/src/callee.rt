//! What a name before `(` calls.

ghost use Rattle.std.specs.Prelude.{◌≡◌, length, map, if◌then◌else◌, Some, None};
ghost use Rattle.std.specs.Str.{str_eq_ignore_ascii_case};
ghost use Rattle.ax_mean.specs.Functions.{takes};
ghost use Rattle.ax_grammar.specs.Tables.{aggregate_of, callee_of, func_of, spelled};
ghost use Rattle.ax_parse.specs.Callees.{Calls, func_spelling, funcs_of, limited_args, with_spelling};
ghost use Rattle.ax_parse.specs.Reads.{IsValue};

use crate::fault::ParseFault;
use ax_mean::{Aggregate, ExprList, Func};

/// A function or an aggregate.
#[derive(Clone, Copy, Debug)]
pub(crate) enum Callee {
    Function(Func),
    Aggregate(Aggregate),
}

/// What a name calls, in letters of any case.
pub(crate) fn callee_of(word: &str) -> Result<Callee, ParseFault>
    ensures { Calls result (callee_of word.now) }
{
    if let Some(func) = func_of(word) {
        return Ok(Callee::Function(func));
    }
    match aggregate_of(word) {
        Some(aggregate) => Ok(Callee::Aggregate(aggregate)),
        None => Err(ParseFault::Text),
    }
}

/// The arguments, where the function takes so many.
pub(crate) fn may_take(func: Func, args: ExprList) -> Result<ExprList, ParseFault>
    ensures { IsValue result (limited_args func args) }
{
    if !takes(func, args.as_slice().len()) {
        drop(args);
        return Err(ParseFault::Text);
    }
    Ok(args)
}

/// Does the function take so many arguments?
fn takes(func: Func, count: usize) -> bool
    ensures { result ≡ takes func count }
{
    match func {
        Func::IsDefined
        | Func::IsNull
        | Func::IsBool
        | Func::IsNumber
        | Func::IsString
        | Func::IsArray
        | Func::IsObject
        | Func::IsPrimitive
        | Func::Abs
        | Func::Sign
        | Func::Length
        | Func::Reverse
        | Func::ToString
        | Func::ArrayLength => count == 1,
        Func::StartsWith
        | Func::EndsWith
        | Func::Contains
        | Func::IndexOf
        | Func::Left
        | Func::Right
        | Func::ArrayContains => count == 2,
        Func::Substring => count == 3,
        Func::ArraySlice => count == 2 || count == 3,
        Func::Concat | Func::ArrayConcat => 2 <= count && count <= 16,
    }
}

fn func_of(word: &str) -> Option<Func>
    ensures { result ≡ func_of word.now }
{
    spelled_as(funcs_of(word.len()), word)
}

/// The functions whose names have so many letters.
fn funcs_of(letters: usize) -> &'static [Func]
    ensures { result.now ≡ funcs_of letters }
{
    match letters {
        3 => &[Func::Abs],
        4 => &[Func::Sign, Func::Left],
        5 => &[Func::Right],
        6 => &[Func::Length, Func::Concat],
        7 => &[Func::IsNull, Func::IsBool, Func::Reverse],
        8 => &[
            Func::IsArray,
            Func::EndsWith,
            Func::Contains,
            Func::IndexOf,
            Func::ToString,
        ],
        9 => &[
            Func::IsNumber,
            Func::IsString,
            Func::IsObject,
            Func::Substring,
        ],
        10 => &[Func::IsDefined, Func::StartsWith],
        11 => &[Func::ArraySlice],
        12 => &[Func::IsPrimitive, Func::ArrayLength, Func::ArrayConcat],
        14 => &[Func::ArrayContains],
        _ => &[],
    }
}

/// The first of these functions that is spelled as the word.
fn spelled_as(funcs: &[Func], word: &str) -> Option<Func>
    ensures { result ≡ spelled word.now (map (with_spelling func_spelling) funcs.now) }
{
    for &func in funcs {
        if is_spelled(word, spelling(func)) {
            return Some(func);
        }
    }
    None
}

fn is_spelled(word: &str, spelling: &[u8]) -> bool
    ensures { result ≡ str_eq_ignore_ascii_case word.now spelling.now }
{
    word.as_bytes().eq_ignore_ascii_case(spelling)
}

fn spelling(func: Func) -> &'static [u8]
    ensures { result.now ≡ func_spelling func }
{
    match func {
        Func::IsDefined => b"IS_DEFINED",
        Func::IsNull => b"IS_NULL",
        Func::IsBool => b"IS_BOOL",
        Func::IsNumber => b"IS_NUMBER",
        Func::IsString => b"IS_STRING",
        Func::IsArray => b"IS_ARRAY",
        Func::IsObject => b"IS_OBJECT",
        Func::IsPrimitive => b"IS_PRIMITIVE",
        Func::Abs => b"ABS",
        Func::Sign => b"SIGN",
        Func::Length => b"LENGTH",
        Func::Concat => b"CONCAT",
        Func::StartsWith => b"STARTSWITH",
        Func::EndsWith => b"ENDSWITH",
        Func::Contains => b"CONTAINS",
        Func::IndexOf => b"INDEX_OF",
        Func::Left => b"LEFT",
        Func::Right => b"RIGHT",
        Func::Substring => b"SUBSTRING",
        Func::Reverse => b"REVERSE",
        Func::ToString => b"TOSTRING",
        Func::ArrayLength => b"ARRAY_LENGTH",
        Func::ArrayContains => b"ARRAY_CONTAINS",
        Func::ArrayConcat => b"ARRAY_CONCAT",
        Func::ArraySlice => b"ARRAY_SLICE",
    }
}

fn aggregate_of(word: &str) -> Option<Aggregate>
    ensures { result ≡ aggregate_of word.now }
{
    if is_spelled(word, b"COUNT") {
        Some(Aggregate::Count)
    } else if is_spelled(word, b"SUM") {
        Some(Aggregate::Sum)
    } else if is_spelled(word, b"MIN") {
        Some(Aggregate::Min)
    } else if is_spelled(word, b"MAX") {
        Some(Aggregate::Max)
    } else {
        None
    }
}
