//! Laws of the definitions, each the contract of a function that does nothing.
ghost use Rattle.std.specs.Prelude.{◌≡◌, ◌<◌, ℕ, List, [], length, Bool, IsTrue};
ghost use Rattle.ax_mean.specs.declared.query.Query.{Query};
ghost use Rattle.ax_pairs.specs.PairSets.{PairSet};
ghost use Rattle.ax_term.specs.declared.range.TermRange.{TermRange};
ghost use Rattle.ax_policy.specs.Table.{Table};
ghost use Rattle.ax_area.specs.Contents.{Contents};
ghost use Rattle.ax_container.specs.Container.{Container};
ghost use Rattle.ax_image.specs.Documents.{ContentsHold};
ghost use Rattle.ax_table.specs.TableAgrees.{ArePolicies, TableAgrees};
ghost use Rattle.ax_candidates.specs.Candidates.{AreCandidates};
ghost use Rattle.ax_plan.specs.Taken.{IsTaken};
ghost use Rattle.ax_skips.specs.Planned.{HasFewNumbers, IsPlannedOver};
ghost use Rattle.ax_needs.specs.Needs.{need_of_query};
ghost use Rattle.ax_needs_laws.specs.Just.{AreJustInUse};

/// The candidates of a query's plan are as many as the documents that the query needs; where the plan has no union it
/// needs all documents.
pub fn a_query_needs_just_its_candidates()
    ensures as_many { (query : Query) (table : Table) (unions : List (List TermRange)) (container : Container)
        (set : PairSet) (numbers : List ℕ) → IsPlannedOver query table unions container set
        → AreJustInUse table container → IsTaken table container.policy → ArePolicies table → 0 < length unions
        → AreCandidates unions set numbers → length numbers ≡ need_of_query query container }
    ensures all_needed { (query : Query) (table : Table) (unions : List (List TermRange)) (container : Container)
        (set : PairSet) → IsPlannedOver query table unions container set
        → AreJustInUse table container → IsTaken table container.policy → ArePolicies table → unions ≡ []
        → need_of_query query container ≡ length container.entries }
{}

/// A table that agrees with the contents of a store, as they are on a disk that is to be trusted, has just those policies
/// in use or now that their container has; the one now of the container is one of them.
pub fn an_agreeing_table_has_just_the_policies_in_use()
    ensures just_in_use { (honest : Bool) (table : Table) (contents : Contents) (container : Container) → IsTrue honest
        → TableAgrees honest table contents → ContentsHold contents container → AreJustInUse table container }
    ensures now_taken { (honest : Bool) (table : Table) (contents : Contents) (container : Container) → IsTrue honest
        → HasFewNumbers table → TableAgrees honest table contents → ContentsHold contents container
        → IsTaken table container.policy }
{}
