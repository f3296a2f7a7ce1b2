//! The answer of a query from texts that are added one by one.

ghost use Rattle.std.specs.Prelude.{◌≡◌, ◌≢◌, true, Ok, Err, None, Some, IfOk, OnOk, IfSome, IfNone, IsErr};
ghost use Rattle.ax_tree.specs.CanonicalText.{canonical_text};
ghost use Rattle.ax_tree.specs.declared.tree.Tree.{Tree as TreeOf};
ghost use Rattle.ax_storable.specs.Storable.{IsStorable};
ghost use Rattle.ax_answer_text.specs.Parts.{is_plain, part_of, AreReadWhole, IsOfDocument};

use crate::text_fault::{Memory, TextFault};
use ax_answer::Answer;
use ax_base::Steps;
use ax_excerpt::{Excerpt, excerpt_for};
use ax_excerpt_text::read_excerpt;
use ax_mean::{KeyedRow, Query};
use ax_sieve::Sieve;
use ax_skim::after_prefix;
use ax_storable::{DocumentFault, read_document};
use ax_text::TreeReader;
use ax_tree::Tree;
use std::alloc::Global;
use std::sync::ledger::Ledger;

/// What a query answers from the texts of documents that are added one by one, in the order of their
/// numbers. Of a text only that part is read which the query looks at, and nothing of a text that
/// tells that its document has no rows.
#[derive(Drop)]
pub struct TextAnswer<'a> {
    sieve: Sieve<'a>,
    excerpt: Option<Excerpt>,
    reader: TreeReader,
    answer: Answer<'a>,
    /// Whether the query has a LIMIT or TOP. Without one each document is looked at.
    is_limited: bool,
    ghost plain: { is_plain excerpt ≡ true },
}

impl<'a> TextAnswer<'a> {
    ghost use Rattle.std.specs.Prelude.{◌≡◌, ◌≢◌, ◌⊎◌, ◌≤◌, ◌+◌, ℕ, List, [], ◌∷◌, ◌++◌, map, true, false, Some, None, Err, IfOk, OnOk};
    ghost use Rattle.std.specs.Ordering.{nat_cmp};
    ghost use Rattle.std.specs.List.Sorted.{IsStrictlySortedBy};
    ghost use Rattle.ax_tree.specs.CanonicalText.{canonical_text};
    ghost use Rattle.ax_mean.specs.declared.query.Query as queries;
    ghost use Rattle.ax_storable.specs.Storable.{IsStorable};
    ghost use Rattle.ax_result.specs.Answers.{answer_of};
    ghost use Rattle.ax_answer.specs.Gathering.{HasEnough};
    ghost use Rattle.ax_sieve.specs.Conditions.{is_dropped, DropsNothing};
    ghost use Rattle.ax_answer_text.specs.Parts.{AreReadWhole, IsOfDocument};
    ghost use Rattle.ax_answer_text.specs.TextAnswers.{Answers, IsTo};

    /// No document yet.
    #[tactic(auto, using(crate::proofs::TextLaws::found_suffices, crate::proofs::TextLaws::found_is_plain))]
    pub fn begin(alloc: Global, query: &'a Query) -> Result<TextAnswer<'a>, Memory>
        ensures { IfOk result (λ held. Answers held query.now []) }
    {
        let Ok(excerpt) = excerpt_for(alloc, query) else {
            return Err(Memory);
        };
        let Ok(sieve) = Sieve::of(alloc, query) else {
            drop(excerpt);
            return Err(Memory);
        };
        let Ok(answer) = Answer::begin(alloc, query) else {
            drop(excerpt);
            drop(sieve);
            return Err(Memory);
        };
        Ok(TextAnswer {
            sieve,
            excerpt,
            reader: TreeReader::new(alloc),
            answer,
            is_limited: query.limit.is_some(),
        })
    }

    /// Takes in a document: its number and its canonical text. It takes at most one step of work. After
    /// an error the answer is of no more use. Bytes that are the text of no document are `Outside` where
    /// they are read whole and not passed over: a query without condition passes none over, and one with a
    /// condition no canonical text of a tree that its comparisons do not rule out.
    #[tactic(auto, using(crate::proofs::TextLaws::dropped, crate::proofs::TextLaws::taken, crate::proofs::TextLaws::asked_still, crate::proofs::TextLaws::none_passed_over, crate::proofs::TextLaws::not_passed_over))]
    pub fn add<L: Ledger>(
        &mut self,
        alloc: Global,
        number: u32,
        text: &[u8],
        steps: &mut Steps<L>,
    ) -> Result<(), TextFault>
        ensures added { (tree : TreeOf) → text.now ≡ canonical_text tree → IsStorable tree
            → OnOk result ((query : queries.Query) → (entries : List (ℕ × TreeOf))
            → Answers self.old query entries
            → Answers self.new query (entries ++ (number, tree) ∷ [])) }
        ensures inside { (tree : TreeOf) → text.now ≡ canonical_text tree → IsStorable tree
            → result ≢ Err TextFault.Outside }
        ensures outside { DropsNothing self.old.sieve → AreReadWhole self.old.excerpt text.now
            → OnOk result (IsOfDocument text.now) }
        ensures kept { (tree : TreeOf) → text.now ≡ canonical_text tree
            → is_dropped self.old.sieve tree ≡ false → AreReadWhole self.old.excerpt text.now
            → OnOk result (IsOfDocument text.now) }
        ensures asked { (query : queries.Query) → IsTo self.old query → IsTo self.new query }
        ensures one { steps.new ≤ steps.old + 1 }
        ensures never_falls { steps.old ≤ steps.new }
    {
        if self.sieve.drops(text) {
            return Ok(());
        }
        let tree = read_part(alloc, &mut self.reader, &self.excerpt, text)?;
        match self.answer.add(alloc, number, &tree, steps) {
            Ok(()) => Ok(()),
            Err(_) => Err(TextFault::Memory),
        }
    }

    /// Whether no further document can change the answer, as `Answer::is_done` says it: also where
    /// documents were passed over. Never so without LIMIT and TOP: then each document is to be added, and a
    /// text that is none of a document is met.
    #[tactic(auto, using(crate::proofs::TextLaws::done, crate::proofs::TextLaws::none_wanted_is_told, crate::proofs::TextLaws::done_with_enough))]
    pub fn is_done(&self) -> bool
        ensures sound { result ≡ true → (query : queries.Query)
            → (entries more : List (ℕ × TreeOf)) → Answers self.now query entries
            → Answers self.now query (entries ++ more) }
        ensures enough { (query : queries.Query) → (entries : List (ℕ × TreeOf))
            → Answers self.now query entries → HasEnough query entries → result ≡ true }
        ensures none_wanted { (query : queries.Query) → (entries : List (ℕ × TreeOf))
            → Answers self.now query entries → query.limit ≡ Some 0 → result ≡ true }
        ensures only { result ≡ true → (query : queries.Query) → (entries : List (ℕ × TreeOf))
            → Answers self.now query entries → (query.limit ≡ Some 0) ⊎ HasEnough query entries }
        ensures unlimited { (query : queries.Query) → IsTo self.now query → query.limit ≡ None
            → result ≡ false }
    {
        self.is_limited && self.answer.is_done()
    }

    /// The rows of the answer, in their order.
    pub fn finish(self, alloc: Global) -> Result<Vec<KeyedRow>, Memory>
        ensures { IfOk result (λ rows. (query : queries.Query) → (entries : List (ℕ × TreeOf))
            → Answers self.entry query entries
            → IsStrictlySortedBy nat_cmp (map (λ e. e.0) entries)
            → rows.items ≡ answer_of query entries) }
    {
        let TextAnswer {
            sieve,
            excerpt,
            reader,
            answer,
            is_limited: _,
        } = self;
        drop(sieve);
        drop(excerpt);
        drop(reader);
        match answer.finish(alloc) {
            Ok(rows) => Ok(rows),
            Err(_) => Err(Memory),
        }
    }
}

/// What is read of the document of a canonical text. Bytes that are read whole are those of a document.
#[tactic(auto, using(crate::proofs::WholeTexts::whole_part, crate::proofs::WholeTexts::readable, crate::proofs::WholeTexts::stored, crate::proofs::WholeTexts::of_document))]
fn read_part(
    alloc: Global,
    reader: &mut TreeReader,
    excerpt: &Option<Excerpt>,
    text: &[u8],
) -> Result<Tree, TextFault>
    requires plain { is_plain excerpt.now ≡ true }
    ensures part { IfOk result (λ found. (tree : TreeOf) → text.now ≡ canonical_text tree
        → IsStorable tree → found ≡ part_of excerpt.now tree) }
    ensures inside { (tree : TreeOf) → text.now ≡ canonical_text tree → IsStorable tree
        → result ≢ Err TextFault.Outside }
    ensures whole { AreReadWhole excerpt.now text.now → OnOk result (IsOfDocument text.now) }
{
    match excerpt_by(excerpt, text) {
        Some(excerpt) => tree_or_fault(read_excerpt(alloc, reader, excerpt, text)),
        None => document_or_fault(read_document(alloc, text)),
    }
}

/// The excerpt by which the text is read in part. `None` exactly where it is read whole.
fn excerpt_by<'a>(excerpt: &'a Option<Excerpt>, text: &[u8]) -> Option<&'a Excerpt>
    ensures same { IfSome result (λ found. excerpt.now ≡ Some found.now) }
    ensures part { IfSome result (λ found. AreReadWhole excerpt.now text.now → ⊥) }
    ensures whole { IfNone result (AreReadWhole excerpt.now text.now) }
{
    match excerpt {
        None | Some(Excerpt::Whole) => None,
        Some(part) if after_prefix(text, b"{").is_some() => Some(part),
        Some(_) => None,
    }
}

/// What is read, or why it is not: bytes that stand for no tree are `Outside`, and only out of memory is
/// `Memory`.
fn tree_or_fault(read: Result<Option<Tree>, ax_tree::Memory>) -> Result<Tree, TextFault>
    ensures tree { IfOk read (λ found. IfSome found (λ tree. result ≡ Ok tree)) }
    ensures outside { IfOk read (λ found. found ≡ None → result ≡ Err TextFault.Outside) }
    ensures memory { IsErr read → result ≡ Err TextFault.Memory }
{
    match read {
        Ok(Some(tree)) => Ok(tree),
        Ok(None) => Err(TextFault::Outside),
        Err(_) => Err(TextFault::Memory),
    }
}

/// The document that is read, or why it is not.
fn document_or_fault(read: Result<Tree, DocumentFault>) -> Result<Tree, TextFault>
    ensures document { IfOk read (λ tree. result ≡ Ok tree) }
    ensures outside { read ≡ Err DocumentFault.Outside → result ≡ Err TextFault.Outside }
    ensures memory { read ≡ Err DocumentFault.Memory → result ≡ Err TextFault.Memory }
{
    match read {
        Ok(tree) => Ok(tree),
        Err(DocumentFault::Outside) => Err(TextFault::Outside),
        Err(DocumentFault::Memory) => Err(TextFault::Memory),
    }
}
