ghost use Rattle.std.specs.Prelude.{◌≡◌, find, map, not, option_map, Some, IfOk, OnOk, OnErr};
ghost use Rattle.std.specs.List.{filter, list_any};
ghost use Rattle.std.specs.Option.{option_copied};
ghost use Rattle.ax_tree.specs.Document.{document_id};
ghost use Rattle.ax_container.specs.Container.{has_id};
ghost use Rattle.ax_container.specs.Writes.{creation, exchanged, inserted, removed, replaced as replaced_in, upserted, with_tree};
ghost use Rattle.ax_policy.specs.Default.{default_policy};
ghost use Rattle.ax_machine.specs.Querying.{query_reply, rows_or_refusal, rows_reply};
ghost use Rattle.ax_machine.specs.Reply as reply;
ghost use Rattle.ax_machine.specs.Step.{read_reply, step, write_by, written};
ghost use Rattle.ax_machine.specs.ReplyTexts.{reply_text};

use crate::out_of_memory::Memory;
use crate::plain_document::PlainDocument;
use crate::query_rows::{answer_rows, own_refusal, query_in};
use crate::reply_lines::{doc_line, ok_line, refusal_line, rows_lines};
use ax_lines::{Body, Line, LineFault, Refusal, read_line};
use ax_mean::Query;
use ax_tree::{Text, Tree, id_of};
use std::alloc::Global;
use std::marker::Model;

/// The most documents that a store holds.
const MOST_DOCUMENTS: usize = 1_048_576;

/// The greatest next number: no document takes it.
const LAST_NUMBER: u32 = 4_294_967_295;

/// A store that is a list of whole documents in the order of their numbers, copied at each
/// replacement and deletion: slow, and easy to believe.
#[derive(Drop)]
pub struct PlainMachine {
    documents: Vec<PlainDocument>,
    next_number: u32,
}

impl Model for PlainMachine {
    ghost use Rattle.ax_container.specs.Container.{Container, NumbersRise};
    ghost use Rattle.ax_container.specs.ContainerCode.{container_code};
    ghost use Rattle.ax_policy.specs.Default.{default_policy};

    ghost Value = { Container };

    ghost coded = { container_code };

    ghost view = { λ machine. record {
      entries = machine.documents.items;
      next_number =
          machine.next_number;
      policy = default_policy;
    } };

    ghost invariant = { λ machine. NumbersRise 0 machine.documents.items machine.next_number };
}

impl PlainMachine {
    ghost use Rattle.ax_container.specs.Container.{fresh};

    /// A store of no documents.
    pub fn new(alloc: Global) -> PlainMachine
        ensures { result ≡ fresh }
    {
        PlainMachine {
            documents: Vec::new(alloc),
            next_number: 1,
        }
    }

    /// Serves one line, and answers the text of its reply. The line comes without its newline.
    /// Out of memory changes nothing.
    pub fn answer(&mut self, alloc: Global, line: &[u8]) -> Result<Vec<u8>, Memory>
        ensures reply { IfOk result (λ text. text.items ≡ reply_text (step self.old line.now).1) }
        ensures after { OnOk result (self.new ≡ (step self.old line.now).0) }
        ensures err { OnErr result (self.new ≡ self.old) }
    {
        match read_line(alloc, line) {
            Ok(Line::Create(tree)) => self.create(alloc, tree),
            Ok(Line::Upsert(tree)) => self.upsert(alloc, tree),
            Ok(Line::Replace(tree)) => self.replace(alloc, tree),
            Ok(Line::Delete(id)) => self.delete(alloc, &id),
            Ok(Line::Read(id)) => self.read(alloc, &id),
            Ok(Line::Query(body)) => self.query(alloc, &body),
            Err(LineFault::Refused(refusal)) => refusal_line(alloc, refusal),
            Err(LineFault::Memory) => Err(Memory),
        }
    }

    fn query(&self, alloc: Global, body: &Body) -> Result<Vec<u8>, Memory>
        ensures { IfOk result (λ text. text.items ≡ reply_text (query_reply body.now self.now)) }
    {
        match query_in(alloc, body)? {
            Some(query) => self.asked(alloc, &query),
            None => refusal_line(alloc, Refusal::Query),
        }
    }

    /// The reply to a query that was read.
    fn asked(&self, alloc: Global, query: &Query) -> Result<Vec<u8>, Memory>
        ensures { IfOk result (λ text. text.items ≡ reply_text
            (rows_reply (rows_or_refusal (Some query.now) self.now))) }
    {
        let documents = self.documents.as_slice();
        if let Some(refusal) = own_refusal(alloc, query)? {
            return refusal_line(alloc, refusal);
        }
        let rows = answer_rows(alloc, query, documents)?;
        rows_lines(alloc, rows.as_slice())
    }

    fn create(&mut self, alloc: Global, tree: Tree) -> Result<Vec<u8>, Memory>
        ensures reply { IfOk result (λ text. text.items ≡ reply_text
            (write_by inserted (document_id tree) tree self.old).1) }
        ensures after { OnOk result (self.new ≡ (write_by inserted (document_id tree) tree self.old).0) }
        ensures err { OnErr result (self.new ≡ self.old) }
    {
        let Some(id) = id_of(&tree) else {
            return refusal_line(alloc, Refusal::Id);
        };
        if contains(self.documents.as_slice(), id) {
            return refusal_line(alloc, Refusal::Conflict);
        }
        let id = id.copy(alloc)?;
        self.append(alloc, id, tree)
    }

    fn upsert(&mut self, alloc: Global, tree: Tree) -> Result<Vec<u8>, Memory>
        ensures reply { IfOk result (λ text. text.items ≡ reply_text
            (write_by upserted (document_id tree) tree self.old).1) }
        ensures after { OnOk result (self.new ≡ (write_by upserted (document_id tree) tree self.old).0) }
        ensures err { OnErr result (self.new ≡ self.old) }
    {
        let Some(id) = id_of(&tree) else {
            return refusal_line(alloc, Refusal::Id);
        };
        if contains(self.documents.as_slice(), id) {
            return self.exchange(alloc, id, &tree);
        }
        let id = id.copy(alloc)?;
        self.append(alloc, id, tree)
    }

    fn replace(&mut self, alloc: Global, tree: Tree) -> Result<Vec<u8>, Memory>
        ensures reply { IfOk result (λ text. text.items ≡ reply_text
            (write_by exchanged (document_id tree) tree self.old).1) }
        ensures after { OnOk result (self.new ≡ (write_by exchanged (document_id tree) tree self.old).0) }
        ensures err { OnErr result (self.new ≡ self.old) }
    {
        let Some(id) = id_of(&tree) else {
            return refusal_line(alloc, Refusal::Id);
        };
        if !contains(self.documents.as_slice(), id) {
            return refusal_line(alloc, Refusal::Absent);
        }
        self.exchange(alloc, id, &tree)
    }

    fn delete(&mut self, alloc: Global, id: &Text) -> Result<Vec<u8>, Memory>
        ensures reply { IfOk result (λ text. text.items ≡ reply_text
            (written self.old (removed id.now self.old)).1) }
        ensures after { OnOk result (self.new ≡ (written self.old (removed id.now self.old)).0) }
        ensures err { OnErr result (self.new ≡ self.old) }
    {
        if !contains(self.documents.as_slice(), id) {
            return refusal_line(alloc, Refusal::Absent);
        }
        let text = ok_line(alloc)?;
        self.documents = without(alloc, self.documents.as_slice(), id)?;
        Ok(text)
    }

    fn read(&self, alloc: Global, id: &Text) -> Result<Vec<u8>, Memory>
        ensures { IfOk result (λ text. text.items ≡ reply_text (read_reply id.now self.now)) }
    {
        match tree_of(self.documents.as_slice(), id) {
            Some(tree) => doc_line(alloc, tree),
            None => refusal_line(alloc, Refusal::Absent),
        }
    }

    /// Puts a document behind all others, where one may be created.
    fn append(&mut self, alloc: Global, id: Text, tree: Tree) -> Result<Vec<u8>, Memory>
        ensures reply { IfOk result (λ text. text.items ≡ reply_text
            (written self.old (creation id tree self.old)).1) }
        ensures after { OnOk result (self.new ≡ (written self.old (creation id tree self.old)).0) }
        ensures err { OnErr result (self.new ≡ self.old) }
    {
        if self.documents.len() >= MOST_DOCUMENTS || self.next_number >= LAST_NUMBER {
            return refusal_line(alloc, Refusal::Full);
        }
        let text = ok_line(alloc)?;
        let document = PlainDocument::new(self.next_number, id, tree);
        self.documents.push(document)?;
        self.next_number += 1;
        Ok(text)
    }

    /// Gives the document of that id the tree.
    fn exchange(&mut self, alloc: Global, id: &Text, tree: &Tree) -> Result<Vec<u8>, Memory>
        ensures reply { IfOk result (λ text. text.items ≡ reply_text reply.Ok) }
        ensures after { OnOk result (self.new ≡ replaced_in id.now tree.now self.old) }
        ensures err { OnErr result (self.new ≡ self.old) }
    {
        let text = ok_line(alloc)?;
        self.documents = replaced(alloc, self.documents.as_slice(), id, tree)?;
        Ok(text)
    }
}

fn contains(documents: &[PlainDocument], id: &Text) -> bool
    ensures { result ≡ list_any (has_id id.now) documents.now }
{
    for document in documents {
        if document.has_id(id) {
            return true;
        }
    }
    false
}

fn replaced(
    alloc: Global,
    documents: &[PlainDocument],
    id: &Text,
    tree: &Tree,
) -> Result<Vec<PlainDocument>, Memory>
    ensures { IfOk result (λ after. after.items ≡ map (with_tree id.now tree.now default_policy) documents.now) }
{
    let mut after = Vec::with_capacity(alloc, documents.len())?;
    for document in documents {
        after.push(document.with_tree(alloc, id, tree)?)?;
    }
    Ok(after)
}

fn without(
    alloc: Global,
    documents: &[PlainDocument],
    id: &Text,
) -> Result<Vec<PlainDocument>, Memory>
    ensures { IfOk result (λ after. after.items ≡ filter (λ entry. not (has_id id.now entry)) documents.now) }
{
    let mut after = Vec::new(alloc);
    for document in documents {
        if !document.has_id(id) {
            after.push(document.copy(alloc)?)?;
        }
    }
    Ok(after)
}

fn tree_of<'a>(documents: &'a [PlainDocument], id: &Text) -> Option<&'a Tree>
    ensures { option_copied result ≡ option_map (λ entry. entry.tree) (find (has_id id.now) documents.now) }
{
    for document in documents {
        if document.has_id(id) {
            return Some(document.tree());
        }
    }
    None
}
