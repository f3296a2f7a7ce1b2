//! The store: what its pages have, over the log, with slots and a cache.

ghost use Rattle.std.specs.Prelude.{◌≡◌};
ghost use Rattle.ax_store.specs.Store.{SameButCache};

use crate::pages::Pages;
use ax_cache::PageCache;
use ax_log::Log;
use ax_pool::{Pool, Slot};

/// The marker of the pool of a store's slots, so that a slot of another pool is none of a store.
pub struct StoreFrames;

/// A slot of a store.
pub type StoreSlot = Slot<StoreFrames>;

/// The pages of a store that was opened on a disk.
///
/// Until a call answers that the disk failed, the store agrees with the disk: each image that a crash
/// may leave has the store's contents. From then on each call that takes the disk answers `Disk`.
#[derive(Drop)]
pub struct Store<C> {
    pub(crate) log: Log,
    pub(crate) pages: Pages,
    // The slots into which callers read.
    pub(crate) pool: Pool<StoreFrames>,
    // It is asked for a part before the disk is.
    pub(crate) cache: C,
    pub(crate) failed: bool,
}

impl<C: PageCache + Drop> Store<C> {
    /// The store over another cache. So a store can be opened before its cache takes memory.
    pub fn with_cache<E: PageCache>(self, cache: E) -> Store<E>
        ensures same { SameButCache self result }
        ensures cache { result.cache ≡ cache }
    {
        let Store {
            log,
            pages,
            pool,
            failed,
            ..
        } = self;
        Store {
            log,
            pages,
            pool,
            cache,
            failed,
        }
    }
}
