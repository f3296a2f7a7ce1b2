//! Laws of what pages have: one contents for bytes, one offset where they are spoiled, that of each page the last
//! part counts, and that term pages are told apart by their low pairs.

ghost use Rattle.std.specs.Prelude.{◌≡◌, ◌≢◌, ℕ, ◌<◌, length, List, Some, [], ◌∷◌, ◌++◌};
ghost use Rattle.std.specs.List.{AllByRecursion};
ghost use Rattle.ax_frame.specs.Part.{PartValue};
ghost use Rattle.ax_pages.specs.Contents.{Contents, no_contents, parts_of};
ghost use Rattle.ax_pages.specs.AfterPart.{after_parts, page_of, after_in_page};
ghost use Rattle.ax_pages.specs.TermPages.{AreApart, KeepsLow};
ghost use Rattle.ax_pages.specs.Leads.{Leads, IsSpoiled, LeadOn, AreSpoiled};
ghost use Rattle.ax_pages.specs.declared.page.Page.{Page};

/// The bytes of a frame lead to one contents, or are spoiled at one offset, and not both.
pub fn one_outcome_of_a_frame()
    ensures one { (bytes : List ℕ) (before x y : Contents) → Leads bytes before x → Leads bytes before y → x ≡ y }
    ensures offset { (bytes : List ℕ) (before : Contents) (i j : ℕ)
        → IsSpoiled bytes before i → IsSpoiled bytes before j → i ≡ j }
    ensures either { (bytes : List ℕ) (before after : Contents) (i : ℕ)
        → Leads bytes before after → IsSpoiled bytes before i → ⊥ }
{}

/// So it is with frames one after another.
pub fn one_outcome_of_frames()
    ensures one { (frames : List (List ℕ)) (before x y : Contents) → LeadOn frames before x → LeadOn frames before y → x ≡ y }
    ensures offset { (frames : List (List ℕ)) (before : Contents) (i j : ℕ)
        → AreSpoiled frames before i → AreSpoiled frames before j → i ≡ j }
    ensures either { (frames : List (List ℕ)) (before after : Contents) (i : ℕ)
        → LeadOn frames before after → AreSpoiled frames before i → ⊥ }
{}

/// A page has what its last part makes of what it had, whatever parts of other pages follow: of the meta, a policy and a
/// document the last part counts, and of a term page the last base with the deltas behind it. A page of which there
/// is no part is as it was.
pub fn the_last_part_counts()
    ensures last { (front back : List PartValue) (part : PartValue) (page : Page) (before after : Contents)
        → after_parts (front ++ part ∷ back) before ≡ Some after
        → page_of part ≡ Some page → AllByRecursion (λ other. page_of other ≢ Some page) back
        → (between : Contents) × (after_parts front before ≡ Some between)
        × (parts_of page after ≡ after_in_page part (parts_of page between)) }
    ensures none { (parts : List PartValue) (page : Page) (before after : Contents)
        → after_parts parts before ≡ Some after → AllByRecursion (λ other. page_of other ≢ Some page) parts
        → parts_of page after ≡ parts_of page before }
{}

/// The term pages of a store, as parts make them: there is one from the start, none is ever gone, and each keeps its low
/// pair, which no other has.
pub fn term_pages_are_told_apart()
    ensures apart { (parts : List PartValue) (contents : Contents) → after_parts parts no_contents ≡ Some contents → AreApart contents.terms }
    ensures kept { (parts : List PartValue) (before after : Contents) (number : ℕ) → after_parts parts before ≡ Some after
        → number < length before.terms → KeepsLow number before.terms after.terms }
{}
