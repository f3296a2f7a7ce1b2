//! The rows of a query over whole documents, each looked at in turn.
ghost use Rattle.std.specs.Prelude.{◌≡◌, ◌<◌, ℕ, List, [], ◌∷◌, ◌++◌, map, Result, Err, IfOk, IfNone, IfSome, OnOk};
ghost use Rattle.std.specs.List.Sorted.{IsStrictlySortedBy};
ghost use Rattle.std.specs.Ordering.{nat_cmp};
ghost use Rattle.ax_tree.specs.declared.tree.Tree as trees;
ghost use Rattle.ax_mean.specs.declared.query.Query as queries;
ghost use Rattle.ax_result.specs.Answers.{answer_of};
ghost use Rattle.ax_answer.specs.Gathering.{Gathers};
ghost use Rattle.ax_grammar.specs.Query.{query_in as query_of};
ghost use Rattle.ax_lines.specs.Causes.{unless};
ghost use Rattle.ax_lines.specs.declared.refusal.Refusal as refused;
ghost use Rattle.ax_machine.specs.Querying.{causes};
ghost use Rattle.ax_policy.specs.Default as policies;

use crate::out_of_memory::Memory;
use crate::plain_document::PlainDocument;
use ax_answer::Answer;
use ax_base::Steps;
use ax_lines::{Body, Refusal};
use ax_machine::refusal_of;
use ax_mean::{KeyedRow, Query};
use ax_parse::{ParseFault, parse};
use ax_policy::default_policy;
use std::alloc::Global;
use std::marker::Brand;
use std::sync::ledger::{Blank, Ledger};

/// The query that the text of a body is, with its parameters, and none where it is no query.
#[tactic(auto, using(crate::proofs::Parsed::query_found, crate::proofs::Parsed::query_refused))]
pub fn query_in(alloc: Global, body: &Body) -> Result<Option<Query>, Memory>
    ensures { IfOk result (λ found. found ≡ query_of body.now.params body.now.text) }
{
    match parse(alloc, body.text.as_str().as_bytes(), &body.params) {
        Ok(query) => Ok(Some(query)),
        Err(ParseFault::Text) => Ok(None),
        Err(ParseFault::Memory) => Err(Memory),
    }
}

/// The refusal of a query that was read, under the default policy, since no line of this machine gives another.
pub fn own_refusal(alloc: Global, query: &Query) -> Result<Option<Refusal>, Memory>
    ensures refused { IfOk result (λ own. IfSome own (λ why. (answer : Result (List (List ℕ)) refused.Refusal)
        → unless (causes policies.default_policy query.now) answer ≡ Err why)) }
    ensures answered { IfOk result (λ own. IfNone own ((answer : Result (List (List ℕ)) refused.Refusal)
        → unless (causes policies.default_policy query.now) answer ≡ answer)) }
{
    let policy = default_policy(alloc)?;
    Ok(refusal_of(query, &policy))
}

/// The rows that the query answers over these documents, which stand in the order of their numbers.
pub fn answer_rows(
    alloc: Global,
    query: &Query,
    documents: &[PlainDocument],
) -> Result<Vec<KeyedRow>, Memory>
    requires { IsStrictlySortedBy nat_cmp (map (λ entry. entry.number) documents.now) }
    ensures { IfOk result (λ rows. rows.items ≡ answer_of query.now
        (map (λ entry. (entry.number, entry.tree)) documents.now)) }
{
    let mut answer = Answer::begin(alloc, query)?;
    add_documents(alloc, &mut answer, documents)?;
    Ok(answer.finish(alloc)?)
}

fn add_documents(
    alloc: Global,
    answer: &mut Answer<'_>,
    documents: &[PlainDocument],
) -> Result<(), Memory>
    ensures { OnOk result ((query : queries.Query) → Gathers answer.old query []
        → Gathers answer.new query (map (λ entry. (entry.number, entry.tree)) documents.now)) }
{
    for document in documents {
        add_document::<Brand>(alloc, answer, document, Blank::new(1))?;
    }
    Ok(())
}

/// Takes in a document, with a counter of steps that nobody sees.
fn add_document<L: Ledger>(
    alloc: Global,
    answer: &mut Answer<'_>,
    document: &PlainDocument,
    blank: Blank,
) -> Result<(), Memory>
    requires name { blank.name ≡ L.name }
    requires parts { blank.parts ≡ L.parts }
    requires some { 0 < blank.parts }
    ensures { OnOk result ((query : queries.Query) → (entries : List (ℕ × trees.Tree))
        → Gathers answer.old query entries
        → Gathers answer.new query (entries ++ (document.now.number, document.now.tree) ∷ [])) }
{
    let mut steps = Steps::<L>::begin(blank);
    Ok(answer.add(alloc, document.number(), document.tree(), &mut steps)?)
}
