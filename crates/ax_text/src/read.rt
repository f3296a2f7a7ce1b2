ghost use Rattle.std.specs.Prelude.{◌≡◌, ◌≤◌, IfOk, IfErr, Some, None};
ghost use Rattle.serde_json.specs.View.{view, items_view, members_view};
ghost use Rattle.ax_tree.specs.Nesting.{nesting as nesting_of};
ghost use Rattle.ax_text.specs.TreeOf.{tree_of, items_of, members_of};
ghost use Rattle.ax_tree.specs.WellFormed.{IsWellFormed};
ghost use Rattle.ax_text.specs.Reading.{reading, Stands, NotJson, NotWhole};

use crate::direct::read_directly;
use crate::text_fault::TextFault;
use ax_tree::{Items, Member, Members, Text, Tree};
use json::Scratch;
use serde_json::{Map, Value};
use std::alloc::Global;

/// Reads JSON texts one after another: what memory a text takes while it is read is kept for the
/// next.
#[derive(Drop)]
pub struct TreeReader {
    scratch: Scratch,
}

impl TreeReader {
    /// It takes no memory yet.
    pub fn new(alloc: Global) -> TreeReader {
        TreeReader {
            scratch: Scratch::new(alloc),
        }
    }

    /// The tree that the bytes stand for as a JSON text. A text is judged as a whole before its
    /// numbers are, so that `[1.5,` is no JSON. Of a repeated member the last counts.
    pub fn read(&mut self, alloc: Global, bytes: &[u8]) -> Result<Tree, TextFault>
        ensures tree { IfOk result (λ tree. reading bytes.now ≡ Stands tree) }
        ensures json { result ≡ Err TextFault.Json → reading bytes.now ≡ NotJson }
        ensures number { result ≡ Err TextFault.Number → reading bytes.now ≡ NotWhole }
        ensures nests { IfOk result (λ tree. nesting_of tree ≤ 127) }
        ensures well_formed { IfOk result (λ tree. IsWellFormed tree) }
    {
        match read_directly(alloc, bytes, &mut self.scratch) {
            Some(tree) => Ok(tree),
            None => read_as_data(alloc, bytes),
        }
    }
}

/// The tree that the bytes stand for as a JSON text, as a new `TreeReader` reads it; `TextFault`
/// says why there is none.
pub fn read_tree(alloc: Global, bytes: &[u8]) -> Result<Tree, TextFault>
    ensures tree { IfOk result (λ tree. reading bytes.now ≡ Stands tree) }
    ensures json { result ≡ Err TextFault.Json → reading bytes.now ≡ NotJson }
    ensures number { result ≡ Err TextFault.Number → reading bytes.now ≡ NotWhole }
    ensures nests { IfOk result (λ tree. nesting_of tree ≤ 127) }
    ensures well_formed { IfOk result (λ tree. IsWellFormed tree) }
{
    let mut reader = TreeReader::new(alloc);
    reader.read(alloc, bytes)
}

/// The same by way of `serde_json`'s data, which judges each text.
fn read_as_data(alloc: Global, bytes: &[u8]) -> Result<Tree, TextFault>
    ensures tree { IfOk result (λ tree. reading bytes.now ≡ Stands tree) }
    ensures json { result ≡ Err TextFault.Json → reading bytes.now ≡ NotJson }
    ensures number { result ≡ Err TextFault.Number → reading bytes.now ≡ NotWhole }
{
    match Value::from_slice(alloc, bytes) {
        Ok(value) => tree_from(alloc, value),
        Err(error) => Err(if error.is_memory() {
            TextFault::Memory
        } else {
            TextFault::Json
        }),
    }
}

#[cycle(read)]
fn tree_from(alloc: Global, value: Value) -> Result<Tree, TextFault>
    ensures tree { IfOk result (λ tree. tree_of (view value) ≡ Some tree) }
    ensures json { result ≡ Err TextFault.Json → ⊥ }
    ensures number { result ≡ Err TextFault.Number → tree_of (view value) ≡ None }
{
    match value {
        Value::Null => Ok(Tree::Null),
        Value::Bool(value) => Ok(Tree::Truth(value)),
        Value::Number(number) => match number.as_i64() {
            Some(value) => Ok(Tree::Number(value)),
            None => Err(TextFault::Number),
        },
        Value::String(text) => Ok(Tree::Text(Text::from_string(text))),
        Value::Array(values) => Ok(Tree::List(items_from(alloc, values)?)),
        Value::Object(entries) => Ok(Tree::Object(members_from(alloc, entries)?)),
    }
}

#[cycle(read)]
fn items_from(alloc: Global, values: Vec<Value>) -> Result<Items<Tree>, TextFault>
    ensures items { IfOk result (λ items. items_of (items_view values.items) ≡ Some items) }
    ensures json { result ≡ Err TextFault.Json → ⊥ }
    ensures number { result ≡ Err TextFault.Number → items_of (items_view values.items) ≡ None }
{
    let mut items = Vec::with_capacity(alloc, values.len())?;
    for value in values {
        items.push(tree_from(alloc, value)?)?;
    }
    Ok(Items::from_vec(items))
}

#[cycle(read)]
fn members_from(alloc: Global, entries: Map<String, Value>) -> Result<Members<Tree>, TextFault>
    ensures members { IfOk result
        (λ members. members_of (members_view entries.entries) ≡ Some members) }
    ensures json { result ≡ Err TextFault.Json → ⊥ }
    ensures number { result ≡ Err TextFault.Number
        → members_of (members_view entries.entries) ≡ None }
{
    let mut members = Vec::with_capacity(alloc, entries.len())?;
    for (name, value) in entries {
        let name = Text::from_string(name);
        let value = tree_from(alloc, value)?;
        members.push(Member { name, value })?;
    }
    Ok(Members::from_vec(members))
}
