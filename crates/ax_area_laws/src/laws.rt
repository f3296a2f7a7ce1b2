//! Laws of frames and parts in the words of one version and in those of all, each the contract of a function that does
//! nothing.

ghost use Rattle.std.specs.Prelude.{◌≡◌, ℕ, List, Some, map, option_and_then};
ghost use Rattle.std.specs.FinMap as finite;
ghost use Rattle.std.specs.Option.{option_map};
ghost use Rattle.ax_frame.specs.Part.{PartValue, AllFit};
ghost use Rattle.ax_pages.specs.declared.numbers.TheConstants.{NEWEST_VERSION};
ghost use Rattle.ax_pages.specs.AfterPart as one;
ghost use Rattle.ax_pages.specs.Contents as log;
ghost use Rattle.ax_pages.specs.Leads as log_leads;
ghost use Rattle.ax_area.specs.Changes.{Change};
ghost use Rattle.ax_area.specs.Contents.{Contents, no_contents, after_changes};
ghost use Rattle.ax_area.specs.Parts.{after_parts, changes_said};
ghost use Rattle.ax_area.specs.Told.{Told, TellOn, Lead, AreSpoiled};
ghost use Rattle.ax_area_laws.specs.Agree.{with_document, Agree};
ghost use Rattle.ax_area_laws.specs.Risen.{risen};

/// Where contents agree, the documents are listed alike.
pub fn documents_are_listed_alike()
    ensures { (old : log.Contents) (new : Contents) → Agree old new
        → finite.entries new.documents ≡ map with_document (finite.entries old.documents) }
{}

/// Contents in the words of the store agree with one contents in those of all versions.
pub fn one_contents_agree()
    ensures risen { (old : log.Contents) → Agree old (risen old) }
    ensures alone { (old : log.Contents) (new : Contents) → Agree old new → new ≡ risen old }
{}

/// Frames that lead to contents in the words of the store tell what leads to what stands for these in those of all
/// versions, and the other way round.
pub fn frames_tell_their_contents()
    ensures told { (frames : List (List ℕ)) (old : log.Contents) → log_leads.LeadOn frames log.no_contents old
        → (told : List Told) × TellOn NEWEST_VERSION frames 0 told × Lead told no_contents (risen old) }
    ensures back { (frames : List (List ℕ)) (told : List Told) (new : Contents)
        → TellOn NEWEST_VERSION frames 0 told → Lead told no_contents new
        → (old : log.Contents) × log_leads.LeadOn frames log.no_contents old × (new ≡ risen old) }
{}

/// Frames are spoiled at the same places in both.
pub fn frames_are_spoiled_alike()
    ensures spoiled { (frames : List (List ℕ)) (at : ℕ) → log_leads.AreSpoiled frames log.no_contents at
        → AreSpoiled NEWEST_VERSION frames 0 no_contents at }
    ensures back { (frames : List (List ℕ)) (at : ℕ) → AreSpoiled NEWEST_VERSION frames 0 no_contents at
        → log_leads.AreSpoiled frames log.no_contents at }
{}

/// Parts make of contents what their changes make of them; and of what stands for contents in the words of the store
/// they make what stands for what they make of these, or nothing of both.
pub fn parts_lead_by_their_changes()
    ensures changes { (parts : List PartValue) (contents : Contents)
        → after_parts parts contents ≡ option_and_then (λ changes. after_changes changes contents) (changes_said parts) }
    ensures alike { (parts : List PartValue) (old : log.Contents) → AllFit parts
        → after_parts parts (risen old) ≡ option_map risen (one.after_parts parts old) }
{}
