ghost use Rattle.std.specs.Prelude.{◌≡◌, length, nat_lt, true, false, Ok, Err, Result, IfOk, IfErr, option_map};
ghost use Rattle.ax_lines.specs.declared.refusal.Refusal.{Refusal as RefusalOf};
ghost use Rattle.ax_lines.specs.declared.line.Line.{Line as LineOf};
ghost use Rattle.ax_tree.specs.declared.tree.Tree.{Tree as TreeOf};
ghost use Rattle.ax_tree.specs.WellFormed.{IsWellFormed};
ghost use Rattle.ax_text.specs.Reading.{reading, Stands};
ghost use Rattle.ax_lines.specs.Answers.{Answers, IsRefusedBy};
ghost use Rattle.ax_lines.specs.Asked.{IsAsked, IsIdText};
ghost use Rattle.ax_lines.specs.Bodies.{body_of};
ghost use Rattle.ax_lines.specs.Causes.{unless};
ghost use Rattle.ax_lines.specs.Lines as spec;

use crate::document_form::DocumentForm;
use crate::line::{Line, LineFault};
use crate::read_body::body_from;
use crate::refusal::Refusal;
use ax_storable::{Unstorable, is_too_deep, storable};
use ax_text::{TextFault, read_tree};
use ax_tree::{Text, Tree, may_be_id};
use std::alloc::Global;
use std::str;

/// The most bytes that a line has, with a carriage return at its end.
const MOST_LINE_BYTES: usize = 262_144;

/// What a line asks for, or its first refusal. The line comes without its newline, and before a
/// carriage return at its end is dropped.
pub fn read_line(alloc: Global, line: &[u8]) -> Result<Line, LineFault>
    ensures answers { Answers result (spec.line_of line.now) }
    // A document that is asked for can be stored, an id is one, and a body can be answered.
    ensures asked { IfOk result IsAsked }
    // A line that is too long, is none of the forms, or is a READ or DELETE of what is no id is refused whatever memory
    // there is.
    ensures at_once { spec.is_judged_at_once line.now ≡ true → (why : RefusalOf) → spec.line_of line.now ≡ Err why
        → result ≡ Err (LineFault.Refused why) }
{
    if is_too_long(line) {
        return Err(LineFault::Refused(Refusal::Line));
    }
    command_line(alloc, without_return(line))
}

fn is_too_long(line: &[u8]) -> bool
    ensures { result ≡ nat_lt spec.most_line_bytes (length line.now) }
{
    line.len() > MOST_LINE_BYTES
}

/// What a line asks for that is not too long and has lost its carriage return.
fn command_line(alloc: Global, command: &[u8]) -> Result<Line, LineFault>
    ensures answers { Answers result (spec.of_form (spec.form_of command.now)) }
    ensures asked { IfOk result IsAsked }
    ensures at_once { spec.has_tree (spec.form_of command.now) ≡ false → (why : RefusalOf)
        → spec.of_form (spec.form_of command.now) ≡ Err why → result ≡ Err (LineFault.Refused why) }
{
    if let Some(json) = argument(command, b"CREATE ") {
        return document_line(alloc, DocumentForm::Create, json);
    }
    if let Some(json) = argument(command, b"UPSERT ") {
        return document_line(alloc, DocumentForm::Upsert, json);
    }
    if let Some(json) = argument(command, b"REPLACE ") {
        return document_line(alloc, DocumentForm::Replace, json);
    }
    if let Some(id) = argument(command, b"DELETE ") {
        return delete_line(alloc, id);
    }
    if let Some(id) = argument(command, b"READ ") {
        return read_by_id_line(alloc, id);
    }
    if let Some(body) = argument(command, b"QUERY ") {
        return query_line(alloc, body);
    }
    Err(LineFault::Refused(Refusal::Command))
}

fn without_return(line: &[u8]) -> &[u8]
    ensures { result.now ≡ spec.without_return line.now }
{
    match line {
        [command @ .., b'\r'] => command,
        _ => line,
    }
}

fn argument<'a>(command: &'a [u8], word: &[u8]) -> Option<&'a [u8]>
    ensures { option_map (λ s. s.now) result ≡ spec.argument word.now command.now }
{
    command.strip_prefix(word)
}

fn document_line(alloc: Global, form: DocumentForm, json: &[u8]) -> Result<Line, LineFault>
    ensures answers { Answers result (spec.line_in (spec.Document form json.now)) }
    ensures asked { IfOk result IsAsked }
{
    let tree = tree_of(alloc, json)?;
    document(alloc, form, tree)
}

fn delete_line(alloc: Global, id: &[u8]) -> Result<Line, LineFault>
    ensures answers { Answers result (spec.line_in (spec.Delete id.now)) }
    ensures asked { IfOk result IsAsked }
    ensures at_once { (why : RefusalOf) → spec.line_in (spec.Delete id.now) ≡ Err why → result ≡ Err (LineFault.Refused why) }
{
    let id = id_from(alloc, id)?;
    Ok(Line::Delete(id))
}

fn read_by_id_line(alloc: Global, id: &[u8]) -> Result<Line, LineFault>
    ensures answers { Answers result (spec.line_in (spec.Read id.now)) }
    ensures asked { IfOk result IsAsked }
    ensures at_once { (why : RefusalOf) → spec.line_in (spec.Read id.now) ≡ Err why → result ≡ Err (LineFault.Refused why) }
{
    let id = id_from(alloc, id)?;
    Ok(Line::Read(id))
}

/// The id that an argument is.
fn id_from(alloc: Global, id: &[u8]) -> Result<Text, LineFault>
    ensures id { IfOk result (λ text. text ≡ id.now) }
    ensures allowed { IfOk result IsIdText }
    ensures answered { IfOk result (λ text. (answer : Result LineOf Refusal)
        → unless (spec.id_causes id.now) answer ≡ answer) }
    ensures refused { IfErr result (λ fault. (answer : Result LineOf Refusal)
        → IsRefusedBy fault (unless (spec.id_causes id.now) answer)) }
    // Memory is wanted for an id alone.
    ensures memory { result ≡ Err LineFault.Memory → (answer : Result LineOf Refusal)
        → unless (spec.id_causes id.now) answer ≡ answer }
{
    let Ok(text) = str::from_utf8(id) else {
        return Err(LineFault::Refused(Refusal::Id));
    };
    if !may_be_id(text) {
        return Err(LineFault::Refused(Refusal::Id));
    }
    match String::from_str(alloc, text) {
        Ok(text) => Ok(Text::from_string(text)),
        Err(_) => Err(LineFault::Memory),
    }
}

fn query_line(alloc: Global, body: &[u8]) -> Result<Line, LineFault>
    ensures answers { Answers result (spec.line_in (spec.Query body.now)) }
    ensures asked { IfOk result IsAsked }
{
    let tree = tree_of(alloc, body)?;
    query(alloc, tree)
}

/// The tree that an argument stands for.
fn tree_of(alloc: Global, json: &[u8]) -> Result<Tree, LineFault>
    ensures tree { IfOk result (λ tree. reading json.now ≡ Stands tree) }
    ensures well_formed { IfOk result IsWellFormed }
    ensures refused { IfErr result
        (λ fault. (ask : TreeOf → Result Line Refusal)
        → IsRefusedBy fault (spec.with_tree_of (reading json.now) ask)) }
{
    match read_tree(alloc, json) {
        Ok(tree) => Ok(tree),
        Err(TextFault::Json) => Err(LineFault::Refused(Refusal::Json)),
        Err(TextFault::Number) => Err(LineFault::Refused(Refusal::Number)),
        Err(TextFault::Memory) => Err(LineFault::Memory),
    }
}

fn document(alloc: Global, form: DocumentForm, tree: Tree) -> Result<Line, LineFault>
    requires { IsWellFormed tree }
    ensures answers { Answers result (unless (spec.document_causes tree) (Ok (spec.line_with form tree))) }
    ensures asked { IfOk result IsAsked }
{
    match storable(alloc, &tree) {
        Ok(()) => Ok(form.line(tree)),
        Err(Unstorable::Id) => Err(LineFault::Refused(Refusal::Id)),
        Err(Unstorable::Large) => Err(LineFault::Refused(Refusal::Large)),
        Err(Unstorable::Memory) => Err(LineFault::Memory),
    }
}

fn query(alloc: Global, tree: Tree) -> Result<Line, LineFault>
    requires { IsWellFormed tree }
    ensures answers { Answers result
        (unless (spec.query_causes tree) (spec.query_from (body_of tree))) }
    ensures asked { IfOk result IsAsked }
{
    if is_too_deep(&tree) {
        return Err(LineFault::Refused(Refusal::Large));
    }
    match body_from(alloc, tree) {
        Ok(Some(body)) => Ok(Line::Query(body)),
        Ok(None) => Err(LineFault::Refused(Refusal::Query)),
        Err(_) => Err(LineFault::Memory),
    }
}
