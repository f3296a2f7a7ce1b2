ghost use Rattle.std.specs.Prelude.{◌≡◌, ◌==◌, IfOk};
ghost use Rattle.std.specs.Str.{bytes_eq};
ghost use Rattle.ax_container.specs.Container.{has_id};
ghost use Rattle.ax_container.specs.Writes.{rewritten, with_tree};
ghost use Rattle.ax_policy.specs.Default.{default_policy};

use crate::out_of_memory::Memory;
use ax_tree::{Text, Tree};
use std::alloc::Global;
use std::marker::Model;

/// One document, which contracts see as an entry of a container. It is indexed by the default policy, since no line
/// gives another.
#[derive(Drop)]
pub struct PlainDocument {
    number: u32,
    id: Text,
    tree: Tree,
}

impl Model for PlainDocument {
    ghost use Rattle.ax_container.specs.Container.{Entry};
    ghost use Rattle.ax_container.specs.ContainerCode.{entry_code};
    ghost use Rattle.ax_policy.specs.Default.{default_policy};

    ghost Value = { Entry };

    ghost coded = { entry_code };

    ghost view = { λ document. record {
      number = document.number;
      id = document.id;
      tree =
          document.tree;
      indexed_by = default_policy;
    } };
}

impl PlainDocument {
    pub fn new(number: u32, id: Text, tree: Tree) -> PlainDocument
        ensures { result ≡ record { number = number; id = id; tree = tree; indexed_by = default_policy } }
    {
        PlainDocument { number, id, tree }
    }

    pub fn number(&self) -> u32
        ensures { result ≡ self.now.number }
    {
        self.number
    }

    pub fn tree(&self) -> &Tree
        ensures { result.now ≡ self.now.tree }
    {
        &self.tree
    }

    pub fn has_id(&self, id: &Text) -> bool
        ensures { result ≡ has_id id.now self.now }
    {
        self.id.as_str() == id.as_str()
    }

    /// The document, or where it is of that id the document with the tree.
    pub fn with_tree(&self, alloc: Global, id: &Text, tree: &Tree) -> Result<PlainDocument, Memory>
        ensures { IfOk result (λ after. after ≡ with_tree id.now tree.now default_policy self.now) }
    {
        if self.has_id(id) {
            self.rewritten(alloc, tree)
        } else {
            self.copy(alloc)
        }
    }

    /// The same document.
    pub fn copy(&self, alloc: Global) -> Result<PlainDocument, Memory>
        ensures { IfOk result (λ copy. copy ≡ self.now) }
    {
        self.rewritten(alloc, &self.tree)
    }

    /// The document with the tree.
    fn rewritten(&self, alloc: Global, tree: &Tree) -> Result<PlainDocument, Memory>
        ensures { IfOk result (λ after. after ≡ rewritten tree.now default_policy self.now) }
    {
        Ok(PlainDocument {
            number: self.number,
            id: self.id.copy(alloc)?,
            tree: tree.copy(alloc)?,
        })
    }
}
