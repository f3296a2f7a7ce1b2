//! Laws of the definitions, each the contract of a function that does nothing.
ghost use Rattle.std.specs.Prelude.{◌≡◌, ℕ, List, [], ◌∷◌, ◌++◌, Some, None, Bool, IsTrue};
ghost use Rattle.std.specs.FinMap as map;
ghost use Rattle.std.specs.List.{Contains};
ghost use Rattle.ax_tree.specs.declared.tree.Tree.{Tree};
ghost use Rattle.ax_mean.specs.declared.query.Query.{Query};
ghost use Rattle.ax_result.specs.Answers.{answer_of};
ghost use Rattle.ax_gap.specs.Gaps.{IsRisingList};
ghost use Rattle.ax_pairs.specs.Index.{IsIndex};
ghost use Rattle.ax_pairs.specs.PairSets.{PairSet};
ghost use Rattle.ax_term.specs.declared.range.TermRange.{TermRange};
ghost use Rattle.ax_policy.specs.Table.{IsTable, Table};
ghost use Rattle.ax_area.specs.Contents.{Contents, Stored};
ghost use Rattle.ax_container.specs.Container.{Container, Entry, IsSound, entry_at};
ghost use Rattle.ax_image.specs.Documents.{ContentsHold};
ghost use Rattle.ax_table.specs.TableAgrees.{TableAgrees};
ghost use Rattle.ax_image_pairs.specs.Indexed.{ContentsHoldAll};
ghost use Rattle.ax_index.specs.Wanted.{HasInSome};
ghost use Rattle.ax_machine.specs.Querying.{numbered};
ghost use Rattle.ax_answer_text.specs.declared.text_answer.TextAnswer.{TextAnswer};
ghost use Rattle.ax_answer_text.specs.TextAnswers.{Answers};
ghost use Rattle.ax_atoms.specs.Conjuncts.{atoms};
ghost use Rattle.ax_atoms.specs.Silent.{IsSilent};
ghost use Rattle.ax_plan.specs.Usable.{AreUnions};
ghost use Rattle.ax_skips.specs.Candidates.{HasCandidates, IsCandidate};
ghost use Rattle.ax_skips.specs.Chosen.{chosen, document_at, fetched};
ghost use Rattle.ax_skips.specs.Held.{IsDocumentAt};
ghost use Rattle.ax_skips.specs.Planned.{AreInUse, HasFewNumbers, IsPlannedOver};
ghost use Rattle.ax_skips.specs.Skips.{Skips};

use ax_plan::laws::a_document_without_a_term_in_each_union_has_no_rows;

/// Documents that have no rows change no answer, of a query with groups or without, whatever its order and its limit:
/// they may be left out.
pub fn silent_documents_change_no_answer()
    ensures { (query : Query) (all some : List (ℕ × Tree)) → Skips query all some
        → answer_of query all ≡ answer_of query some }
{}

/// The same of an answer that takes documents in one by one. One that took in some documents is one that took in a
/// document more, where this has no rows; and it is one that took in all from which these some are left.
pub fn silent_documents_need_not_be_taken_in()
    ensures one { (answer : TextAnswer) (query : Query) (documents : List (ℕ × Tree)) (number : ℕ) (tree : Tree)
        → IsSilent query tree → Answers answer query documents
        → Answers answer query (documents ++ (number, tree) ∷ []) }
    ensures all { (answer : TextAnswer) (query : Query) (all some : List (ℕ × Tree)) → Skips query all some
        → Answers answer query some → Answers answer query all }
{}

/// A document whose number does not have a term in each union of a query's plan has no rows in the query.
pub fn those_without_a_candidate_are_silent()
    ensures { (query : Query) (table : Table) (unions : List (List TermRange)) (container : Container) (set : PairSet)
        (entry : Entry) → IsPlannedOver query table unions container set → Contains container.entries entry
        → (IsCandidate unions set entry.number → ⊥) → IsSilent query entry.tree }
{
    a_document_without_a_term_in_each_union_has_no_rows();
}

/// So the answer over all documents is the one over those of the candidates. These are all documents but some that
/// have no rows, and are the same whether they are chosen from all or fetched number by number.
pub fn candidates_have_the_answer()
    ensures skips { (query : Query) (table : Table) (unions : List (List TermRange)) (container : Container)
        (set : PairSet) (numbers : List ℕ) → IsPlannedOver query table unions container set
        → HasCandidates unions set numbers → Skips query (numbered container) (chosen numbers container) }
    ensures answer { (query : Query) (table : Table) (unions : List (List TermRange)) (container : Container)
        (set : PairSet) (numbers : List ℕ) → IsPlannedOver query table unions container set
        → HasCandidates unions set numbers
        → answer_of query (numbered container) ≡ answer_of query (chosen numbers container) }
    ensures fetched { (container : Container) (numbers : List ℕ) → IsSound container → IsRisingList numbers
        → fetched numbers container ≡ chosen numbers container }

    // An answer that took in what was fetched is one that took in all.
    ensures taken { (answer : TextAnswer) (query : Query) (table : Table) (unions : List (List TermRange))
        (container : Container) (set : PairSet) (numbers : List ℕ) → IsPlannedOver query table unions container set
        → HasCandidates unions set numbers → IsRisingList numbers → Answers answer query (fetched numbers container)
        → Answers answer query (numbered container) }
{
    a_document_without_a_term_in_each_union_has_no_rows();
}

/// A number with a term in some ranges is that of a document: each candidate is, where a plan has a union.
pub fn a_number_with_a_term_is_held()
    ensures { (query : Query) (table : Table) (unions : List (List TermRange)) (container : Container) (set : PairSet)
        (ranges : List TermRange) (number : ℕ) → IsPlannedOver query table unions container set
        → HasInSome ranges set number → (entry : Entry) × (entry_at number container.entries ≡ Some entry) }
{}

/// What is fetched for numbers, and behind it what is fetched for others, is what is fetched for all of them: for a
/// number the document that it has, and nothing where it has none.
pub fn numbers_are_fetched_one_by_one()
    ensures more { (container : Container) (numbers others : List ℕ)
        → fetched (numbers ++ others) container ≡ fetched numbers container ++ fetched others container }
    ensures one { (container : Container) (numbers : List ℕ) (number : ℕ) (tree : Tree)
        → document_at container number ≡ Some (number, tree)
        → fetched (numbers ++ number ∷ []) container ≡ fetched numbers container ++ (number, tree) ∷ [] }
    ensures none { (container : Container) (numbers : List ℕ) (number : ℕ) → document_at container number ≡ None
        → fetched (numbers ++ number ∷ []) container ≡ fetched numbers container }
{}

/// What a store holds under a number is the text of the document that is fetched for it, and where it holds nothing none
/// is fetched.
pub fn a_number_has_its_document()
    ensures held { (contents : Contents) (container : Container) (number : ℕ) (held : Stored)
        → ContentsHold contents container → map.get contents.documents number ≡ Some held
        → IsDocumentAt container number held }
    ensures none { (contents : Contents) (container : Container) (number : ℕ)
        → ContentsHold contents container → map.get contents.documents number ≡ None
        → document_at container number ≡ None }
{}

/// A table that agrees with the contents of a store, as they are on a disk that is to be trusted, has all policies in
/// use under which the documents have their terms.
pub fn an_agreeing_table_has_all_policies_in_use()
    ensures used { (honest : Bool) (table : Table) (contents : Contents) (container : Container) → IsTrue honest
        → HasFewNumbers table → TableAgrees honest table contents → ContentsHold contents container
        → AreInUse table container }
    ensures numbers { (table : Table) → IsTable table → HasFewNumbers table }
{}

/// The plan of a query is one over the documents that the contents of a store hold, and over whatever set of pairs
/// their term pages hold, where its table has all policies under which these have their terms.
pub fn contents_have_what_a_plan_rests_on()
    ensures { (query : Query) (table : Table) (unions : List (List TermRange)) (contents : Contents)
        (container : Container) (set : PairSet) → ContentsHoldAll contents container → IsIndex contents.terms set
        → AreInUse table container → AreUnions table (atoms query) unions
        → IsPlannedOver query table unions container set }
{}
