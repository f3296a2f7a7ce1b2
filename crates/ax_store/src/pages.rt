//! What a store keeps of its pages in memory, changed part by part.

ghost use Rattle.std.specs.Prelude.{◌≡◌, ℕ, ◌+◌, ◌≤◌, ◌<◌, ◌==◌, length, IsTrue, IfOk, OnOk, IfSome, IfNone, is_some, Some, None, max, option_map, slice_get, if◌then◌else◌};
ghost use Rattle.ax_store.specs.Listed.{IsNextAfter};
ghost use Rattle.std.specs.FinMap as map;
ghost use Rattle.std.specs.Option.{option_to_list};
ghost use Rattle.ax_pages.specs.Contents.{next_number, policy_now, is_given, next_in, now_in, parts_of};
ghost use Rattle.ax_pages.specs.AfterPart.{low_at_front, after_kind, is_meta, is_document, has_room};
ghost use Rattle.ax_store.specs.Rows.{payload_kept, offset_kept};
ghost use Rattle.ax_store.specs.NewParts.{new_payload, new_low};
ghost use Rattle.ax_store.specs.TermRows.{base_payload, base_offset};
ghost use Rattle.ax_store.specs.Kept.{IsNothing, offsets_of, offsets_after, room_of, deltas_by_kind};

use crate::base_part::BasePart;
use crate::directory::Directory;
use crate::kept_part::KeptPart;
use crate::making::numbers_in;
use crate::new_part::NewPart;
use crate::out_of_memory::Memory;
use crate::term_pages::TermPages;
use crate::together::{Stretch, WINDOW_BYTES};
use ax_pages::numbers::{LAST_POLICY, MOST_DOCUMENTS};
use ax_pages::{Kind, Page};
use std::alloc::Global;
use std::marker::Model;

/// The two numbers that a part of the meta has.
#[derive(Clone, Copy, Debug, PartialEq, Eq)]
pub struct Meta {
    /// The number that the next creation takes.
    pub next: u32,
    /// The number of the policy now.
    pub now: u32,
}

/// The pages of a store: of each part its place, its length, and what the store needs of its payload.
/// Contracts see the payloads.
#[derive(Drop)]
pub(crate) struct Pages {
    meta: Option<KeptPart>,
    numbers: Meta,
    policies: Directory,
    documents: Directory,
    terms: TermPages,
}

impl Model for Pages {
    ghost use Rattle.std.specs.Prelude.{◌≡◌, option_map, min};
    ghost use Rattle.ax_pages.specs.Contents.{next_of, now_of};
    ghost use Rattle.ax_store.specs.Rows.{payload_kept, offset_kept};
    ghost use Rattle.ax_store.specs.Kept.{Kept, kept_code};

    ghost Value = { Kept };

    ghost coded = { kept_code };

    ghost view = { λ p. record {
      contents = record {
        meta = option_map payload_kept p.meta;
        policies = p.policies.payloads;
        documents = p.documents.payloads;
        terms = p.terms.pages;
      };
      offsets = record {
        meta = option_map offset_kept p.meta;
        policies = p.policies.offsets;
        documents = p.documents.offsets;
        terms = p.terms.offsets;
      };
      spare = min p.terms.spare (min p.policies.spare p.documents.spare);
      rooms = p.terms.rooms;
    } };

    ghost invariant = { λ p. (p.numbers.next ≡ next_of (option_map payload_kept p.meta))
        × (p.numbers.now ≡ now_of (option_map payload_kept p.meta)) };
}

impl Pages {
    /// No page has anything. `Memory` where there is none for the term page that exists from the start.
    pub(crate) fn new(alloc: Global) -> Result<Pages, Memory>
        ensures { IfOk result IsNothing }
    {
        let terms = TermPages::new(alloc)?;
        Ok(Pages {
            meta: None,
            numbers: Meta { next: 1, now: 0 },
            policies: Directory::new(alloc),
            documents: Directory::new(alloc),
            terms,
        })
    }

    /// The numbers of the meta.
    pub(crate) fn numbers(&self) -> Meta
        ensures next { result.next ≡ next_number self.now.contents }
        ensures now { result.now ≡ policy_now self.now.contents }
    {
        self.numbers
    }

    /// The part of the meta that counts.
    fn meta_part(&self) -> Option<&KeptPart>
        ensures payload { option_map (λ part. payload_kept part.now) result ≡ self.now.contents.meta }
        ensures offset { option_map (λ part. offset_kept part.now) result ≡ self.now.offsets.meta }
    {
        self.meta.as_ref()
    }

    /// The part of a policy that counts.
    pub(crate) fn policy(&self, number: u32) -> Option<&KeptPart>
        ensures payload { option_map (λ part. payload_kept part.now) result ≡ map.get self.now.contents.policies number }
        ensures offset { option_map (λ part. offset_kept part.now) result ≡ map.get self.now.offsets.policies number }
    {
        self.policies.get(number)
    }

    /// The part of a document that counts.
    pub(crate) fn document(&self, number: u32) -> Option<&KeptPart>
        ensures payload { option_map (λ part. payload_kept part.now) result ≡ map.get self.now.contents.documents number }
        ensures offset { option_map (λ part. offset_kept part.now) result ≡ map.get self.now.offsets.documents number }
    {
        self.documents.get(number)
    }

    /// The part of a position of a page. `None` exactly where the page has not so many.
    pub(crate) fn part(&self, page: Page, i: usize) -> Option<&KeptPart>
        ensures payload { option_map (λ part. payload_kept part.now) result ≡ slice_get (parts_of page self.now.contents) i }
        ensures offset { option_map (λ part. offset_kept part.now) result ≡ slice_get (offsets_of page self.now.offsets) i }
    {
        match page {
            Page::Meta => if_first(self.meta_part(), i),
            Page::Policy(number) => if_first(self.policy(u32::from(number)), i),
            Page::Document(number) => if_first(self.document(number), i),
            Page::Term(number) => self.terms.part(number, i),
        }
    }

    /// How many parts a page has.
    pub(crate) fn parts(&self, page: Page) -> usize
        ensures { result ≡ length (parts_of page self.now.contents) }
    {
        match page {
            Page::Meta => count(self.meta_part()),
            Page::Policy(number) => count(self.policy(u32::from(number))),
            Page::Document(number) => count(self.document(number)),
            Page::Term(number) => self.terms.parts(number),
        }
    }

    /// The term pages.
    pub(crate) fn terms(&self) -> &TermPages
        ensures pages { result.now.pages ≡ self.now.contents.terms }
    {
        &self.terms
    }

    /// How many documents are held.
    pub(crate) fn document_count(&self) -> usize
        ensures { result ≡ map.len self.now.contents.documents }
    {
        self.documents.len()
    }

    /// The least number of a document above another.
    pub(crate) fn next_document(&self, after: u32) -> Option<u32>
        ensures found { IfSome result (IsNextAfter self.now.contents.documents after) }
        ensures none { IfNone result ((number : ℕ) → after < number → map.get self.now.contents.documents number ≡ None) }
    {
        self.documents.next_after(after)
    }

    /// How many bytes of the area a stretch from the text of a document on has, with the texts of the
    /// next documents that lie together with it.
    pub(crate) fn together(&self, number: u32, text: Stretch) -> u64
        ensures most { result ≤ max text.len WINDOW_BYTES }
        ensures least { text.len ≤ result }
    {
        self.documents.together(number, text)
    }

    /// Drops what is kept of documents that are gone.
    pub(crate) fn drop_cleared(&mut self)
        ensures contents { self.new.contents ≡ self.old.contents }
        ensures offsets { self.new.offsets ≡ self.old.offsets }
        ensures never_less { self.old.spare ≤ self.new.spare }
        ensures rooms { self.new.rooms ≡ self.old.rooms }
    {
        self.documents.drop_cleared();
    }

    /// Makes room for so many parts, but for deltas.
    pub(crate) fn reserve(&mut self, parts: usize) -> Result<(), Memory>
        ensures room { OnOk result (parts ≤ self.new.spare) }
        ensures contents { self.new.contents ≡ self.old.contents }
        ensures offsets { self.new.offsets ≡ self.old.offsets }
        ensures never_less { self.old.spare ≤ self.new.spare }
        ensures rooms { self.new.rooms ≡ self.old.rooms }
    {
        self.policies.reserve(parts)?;
        self.documents.reserve(parts)?;
        self.terms.reserve(parts)
    }

    /// Makes room for so many deltas of a term page; of one that is not there nothing is done.
    pub(crate) fn reserve_deltas(&mut self, number: u32, deltas: usize) -> Result<(), Memory>
        ensures room { OnOk result (number < length self.old.contents.terms → deltas ≤ room_of number self.new) }
        ensures contents { self.new.contents ≡ self.old.contents }
        ensures offsets { self.new.offsets ≡ self.old.offsets }
        ensures never_less { self.old.spare ≤ self.new.spare }
        ensures rooms { (page : ℕ) → room_of page self.old ≤ room_of page self.new }
    {
        self.terms.reserve_deltas(number, deltas)
    }

    /// Whether a part is within the format after those before it.
    pub(crate) fn admits(&self, kind: Kind, key: u32, payload: &[u8]) -> bool
        ensures { result ≡ is_some (after_kind (Some kind) key payload.now self.now.contents) }
    {
        match kind {
            Kind::Meta => self.admits_meta(key, payload),
            Kind::Policy => key <= LAST_POLICY,
            Kind::Document => self.admits_document(key, payload),
            Kind::Gone => key > 0 && payload.is_empty(),
            Kind::Base => self.terms.admits_base(key, payload),
            Kind::Delta => self.terms.admits_delta(key),
        }
    }

    fn admits_meta(&self, key: u32, payload: &[u8]) -> bool
        ensures { result ≡ is_meta key payload.now self.now.contents }
    {
        match numbers_in(payload) {
            Some((next, now)) => key == 0 && next > 0 && self.is_given(now),
            None => false,
        }
    }

    fn admits_document(&self, key: u32, payload: &[u8]) -> bool
        ensures { result ≡ is_document key payload.now self.now.contents }
    {
        match payload.first() {
            Some(policy) => key > 0 && self.is_given(u32::from(*policy)) && self.has_room(key),
            None => false,
        }
    }

    /// Whether a part gave a policy this number, or it is number 0, which needs none.
    fn is_given(&self, policy: u32) -> bool
        ensures { result ≡ is_given policy self.now.contents }
    {
        policy == 0 || self.policies.get(policy).is_some()
    }

    /// Whether the document is held, or one more may be.
    fn has_room(&self, number: u32) -> bool
        ensures { result ≡ has_room number self.now.contents }
    {
        self.documents.get(number).is_some() || self.documents.len() < MOST_DOCUMENTS
    }

    /// Changes the page of a part that is within the format, in the room that there is. The part stands at an offset.
    pub(crate) fn put(&mut self, kind: Kind, key: u32, at: u64, new: NewPart)
        requires room { 0 < self.old.spare }
        requires deltas { deltas_by_kind (Some kind) key key ≤ room_of key self.old }
        requires within { IsTrue (is_some (after_kind (Some kind) key (new_payload new) self.old.contents)) }
        requires low { kind ≡ Kind.Base → new_low new ≡ low_at_front (new_payload new) }
        ensures contents { after_kind (Some kind) key (new_payload new) self.old.contents ≡ Some self.new.contents }
        ensures offsets { self.new.offsets ≡ offsets_after (Some kind) key at self.old.offsets }
        ensures room { self.old.spare ≤ self.new.spare + 1 }
        ensures rooms { (page : ℕ) → room_of page self.old ≤ room_of page self.new + deltas_by_kind (Some kind) key page }
    {
        match kind {
            Kind::Meta => self.put_meta(at, new),
            Kind::Policy => self.policies.put(key, placed(at, new)),
            Kind::Document => self.documents.put(key, placed(at, new)),
            Kind::Gone => self.documents.clear(key),
            Kind::Base => self.terms.put_base(key, placed_base(at, new)),
            Kind::Delta => self.terms.put_delta(key, placed(at, new)),
        }
    }

    fn put_meta(&mut self, at: u64, new: NewPart)
        requires { length (new_payload new) ≡ 8 }
        ensures contents { self.new.contents ≡ record self.old.contents { meta = Some (new_payload new) } }
        ensures offsets { self.new.offsets ≡ record self.old.offsets { meta = Some at } }
        ensures room { self.old.spare ≡ self.new.spare }
        ensures rooms { self.new.rooms ≡ self.old.rooms }
    {
        self.numbers = meta_of(&new);
        self.meta = Some(placed(at, new));
    }
}

/// The numbers of a part of the meta.
fn meta_of(new: &NewPart) -> Meta
    requires { length (new_payload new.now) ≡ 8 }
    ensures next { result.next ≡ next_in (new_payload new.now) }
    ensures now { result.now ≡ now_in (new_payload new.now) }
{
    Meta {
        next: new.next,
        now: new.policy_now,
    }
}

/// The part, which stands at an offset.
fn placed(at: u64, new: NewPart) -> KeptPart
    ensures payload { payload_kept result ≡ new_payload new }
    ensures offset { offset_kept result ≡ at }
{
    let NewPart { mut part, .. } = new;
    part.at = at;
    part
}

/// The base, which stands at an offset.
pub(crate) fn placed_base(at: u64, new: NewPart) -> BasePart
    requires { new_low new ≡ low_at_front (new_payload new) }
    ensures payload { base_payload result ≡ new_payload new }
    ensures offset { base_offset result ≡ at }
{
    let NewPart {
        mut part,
        term,
        number,
        ..
    } = new;
    part.at = at;
    BasePart { part, term, number }
}

/// A part, where the position is the first.
fn if_first(part: Option<&KeptPart>, i: usize) -> Option<&KeptPart>
    ensures { result ≡ (if i == 0 then part.entry else None) }
{
    if i == 0 { part } else { None }
}

/// How many parts that is: one or none.
fn count(part: Option<&KeptPart>) -> usize
    ensures { result ≡ length (option_to_list part.entry) }
{
    match part {
        Some(_) => 1,
        None => 0,
    }
}
