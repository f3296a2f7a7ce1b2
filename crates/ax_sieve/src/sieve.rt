//! The conditions of a query that are told from the text of a document.

use crate::condition::Condition;
use crate::conditions::conditions_of;
use crate::operands::operands;
use crate::out_of_memory::Memory;
use crate::source::document_alias;
use ax_mean::Query;
use std::alloc::Global;

/// Conditions on members of a document that each of its rows has to meet.
#[derive(Debug, Drop)]
pub struct Sieve<'a> {
    conditions: Vec<Condition<'a>>,
}

impl<'a> Sieve<'a> {
    ghost use Rattle.std.specs.Prelude.{◌≡◌, true, false, None, IfOk, IsTrue};
    ghost use Rattle.ax_tree.specs.CanonicalText.{canonical_text};
    ghost use Rattle.ax_tree.specs.declared.tree.Tree.{Tree};
    ghost use Rattle.ax_sieve.specs.Conditions.{IsSieve, is_dropped, DropsNothing};

    /// The conditions of WHERE that compare a member of the document with a literal, or with a number
    /// that has one sign, where the first source is the document, without steps and IN, also of a
    /// query with joins. None of another query: then nothing is dropped.
    pub fn of(alloc: Global, query: &'a Query) -> Result<Sieve<'a>, Memory>
        ensures sifts { IfOk result (λ sieve. IsSieve sieve query.now) }
        ensures nothing { IfOk result (λ sieve. query.now.condition ≡ None → DropsNothing sieve) }
    {
        let (Some(alias), Some(condition)) = (document_alias(query), &query.condition) else {
            return Ok(Sieve {
                conditions: Vec::new(alloc),
            });
        };
        let conditions = conditions_of(alloc, alias, operands(condition))?;
        Ok(Sieve { conditions })
    }

    /// Whether the document of that canonical text has no rows; only where the text tells it at
    /// once.
    #[tactic(auto, using(std::proofs::lemmas::List::Folds::list_any_at))]
    pub fn drops(&self, text: &[u8]) -> bool
        ensures dropped { IsTrue result → (tree : Tree) → text.now ≡ canonical_text tree
            → is_dropped self.now tree ≡ true }
        ensures nothing { DropsNothing self.now → result ≡ false }
    {
        for condition in &self.conditions {
            if condition.fails(text) {
                return true;
            }
        }
        false
    }
}
