//! What a store answers of its pages.

ghost use Rattle.std.specs.Prelude.{◌≡◌, ◌+◌, ◌<◌, ℕ, true, false, Err, IsTrue, Some, None, IfErr, IfOk, IfSome, IfNone, option_map, length, drop, slice_index, slice_get};
ghost use Rattle.std.specs.FinMap as map;
ghost use Rattle.ax_disk.specs.model.Calls.{Idles};
ghost use Rattle.ax_pages.specs.Contents.{parts_of};
ghost use Rattle.ax_store.specs.Faults.{HasDiskCause};
ghost use Rattle.ax_store.specs.Listed.{IsNextAfter};
ghost use Rattle.ax_pages.specs.Area.{extent_number};
ghost use Rattle.ax_store.specs.Rows.{offset_kept};
ghost use Rattle.ax_store.specs.Kept.{offsets_of};
ghost use Rattle.ax_store.specs.Store.{store_contents, store_parts, store_offsets, store_area, store_failed};

use crate::fault::{StoreFault, number_of};
use crate::kept_part::KeptPart;
use crate::pages::Meta;
use crate::store::Store;
use ax_base::Steps;
use ax_disk::Disk;
use ax_pages::Page;
use std::alloc::Global;
use std::sync::ledger::Ledger;

/// What a document's part says in front of its text.
#[derive(Clone, Copy, Debug, PartialEq, Eq)]
pub struct Head {
    /// The number of the policy under which the document is indexed.
    pub policy: u8,
    /// Where the text begins in the payload.
    pub text_at: u32,
}

impl<C> Store<C> {
    /// The next number, and the number of the policy now.
    pub fn meta(&self) -> Meta
        ensures next { result.next ≡ (store_contents self.now).next_number }
        ensures now { result.now ≡ (store_contents self.now).policy_now }
    {
        self.pages.numbers()
    }

    /// How many parts a page has: of the meta, of a policy and of a document one, where it has
    /// something; of a term page its base and the deltas behind that.
    pub fn parts(&self, page: Page) -> usize
        ensures { result ≡ length (parts_of page (store_parts self.now)) }
    {
        self.pages.parts(page)
    }

    /// Where a part of a page stands: the extent as a number, and the offset of its head in it.
    pub fn place(&self, page: Page, i: usize) -> (u8, u64)
        requires { i < length (parts_of page (store_parts self.now)) }
        ensures extent { result.0 ≡ extent_number (store_area self.now) }
        ensures offset { slice_get (offsets_of page (store_offsets self.now)) i ≡ Some result.1 }
    {
        let extent = number_of(self.log.area());
        (extent, offset(self.pages.part(page, i)))
    }

    /// What the part of a document says in front of its text. `None` exactly where the number is not
    /// held.
    pub fn head_of(&self, number: u32) -> Option<Head>
        ensures policy { option_map (λ head. head.policy) result
            ≡ option_map (λ document. document.policy) (map.get (store_contents self.now).documents number) }
        ensures text_at { IfSome result (λ head. head.text_at ≡ 1) }
    {
        let part = self.pages.document(number)?;
        Some(Head {
            policy: part.first,
            text_at: 1,
        })
    }

    /// Whether a policy was given this number.
    pub fn has_policy(&self, number: u32) -> bool
        ensures { result ≡ map.contains_key (store_contents self.now).policies number }
    {
        self.pages.policy(number).is_some()
    }

    /// The least number above another that is held. `None` exactly where there is none.
    pub fn next_document(&self, after: u32) -> Option<u32>
        ensures found { IfSome result (IsNextAfter (store_contents self.now).documents after) }
        ensures none { IfNone result ((number : ℕ) → after < number → map.get (store_contents self.now).documents number ≡ None) }
    {
        self.pages.next_document(after)
    }

    /// How many documents are held.
    pub fn documents(&self) -> usize
        ensures { result ≡ map.len (store_contents self.now).documents }
    {
        self.pages.document_count()
    }
}

/// The offset of a part that is kept, or 0.
fn offset(part: Option<&KeptPart>) -> u64
    ensures { IfSome part.entry (λ part. result ≡ offset_kept part.now) }
{
    match part {
        Some(part) => part.at,
        None => 0,
    }
}
