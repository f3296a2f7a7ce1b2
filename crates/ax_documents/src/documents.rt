//! The documents of an open store.

ghost use Rattle.std.specs.Prelude.{◌≡◌};
ghost use Rattle.std.specs.FinMap as map;
ghost use Rattle.ax_container.specs.Container.{Container};
ghost use Rattle.ax_documents.specs.Documents.{DocumentsHold, SameDocuments};

use ax_cache::PageCache;
use ax_policy::PolicyTable;
use ax_recent::RecentIds;
use ax_store::Store;
use std::alloc::Global;

/// The documents of an open store with its index: the store, the table of its policies, and the ids that were lately
/// found.
#[derive(Drop)]
pub struct Documents<C> {
    /// The store.
    pub store: Store<C>,
    /// The policies in use or now, with the count of the documents under each.
    pub table: PolicyTable,
    pub(crate) ids: RecentIds,
    pub(crate) alloc: Global,
}

impl<C: PageCache + Drop> Documents<C> {
    /// The documents over another cache, which holds nothing yet. That they work over each history over which they did is
    /// the law `work_still` of `proofs/Recaching.antt`.
    pub fn with_cache<E: PageCache>(self, cache: E) -> Documents<E>
        requires empty { E.pages cache ≡ map.empty }
        ensures same { SameDocuments self result }
        ensures cache { result.store.cache ≡ cache }
        ensures holds { (container : Container) → DocumentsHold self container → DocumentsHold result container }
    {
        let Documents {
            store,
            table,
            ids,
            alloc,
        } = self;
        Documents {
            store: store.with_cache(cache),
            table,
            ids,
            alloc,
        }
    }
}
