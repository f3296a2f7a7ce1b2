//! A store that is filled with documents, and its figures.

ghost use Rattle.ax_index_support.specs.Ready.{IsReady};

use crate::documents::{Draws, changes_of};
use ax_cache::{NoPages, PageCache};
use ax_disk::Disk;
use ax_index_support::{change, open};
use ax_pages::Page;
use ax_store::{Store, StoreFault};
use std::alloc::Global;

/// What was counted, and what the store has in the end.
#[derive(Clone, Copy)]
pub(crate) struct Figures {
    /// How often a page was merged.
    pub(crate) merged: u64,
    /// How many term pages there are.
    pub(crate) pages: u32,
    /// How many parts they have, and how many the one has that has the most.
    pub(crate) parts: usize,
    pub(crate) most_parts: usize,
}

/// Opens a store and adds the terms of so many documents, one after another.
pub(crate) fn fill<D: Disk>(
    alloc: Global,
    disk: &mut D,
    documents: u32,
) -> Result<Figures, StoreFault> {
    let mut store = open(alloc, disk, NoPages)?;
    let mut draws = Draws::new();
    let mut merged: u64 = 0;
    for number in 0..documents {
        let more = add(alloc, disk, &mut store, &mut draws, number)?;
        merged = merged.saturating_add(u64::from(more));
    }
    let (parts, most_parts) = parts_of(&store);
    Ok(Figures {
        merged,
        pages: store.pages(),
        parts,
        most_parts,
    })
}

/// Adds the terms of a document, and answers how many pages were merged.
fn add<D: Disk, C: PageCache>(
    alloc: Global,
    disk: &mut D,
    store: &mut Store<C>,
    draws: &mut Draws,
    number: u32,
) -> Result<u32, StoreFault>
    requires { IsReady C.pages store.old (D.is_honest disk.old) (D.history disk.old (D.attached disk.old)) }
    ensures { IsReady C.pages store.new (D.is_honest disk.new) (D.history disk.new (D.attached disk.new)) }
{
    let Ok(changes) = changes_of(alloc, draws, number) else {
        return Err(StoreFault::Memory);
    };
    change(alloc, disk, store, changes.as_slice())
}

/// How many parts the term pages have, and how many the one has that has the most.
fn parts_of(store: &Store<NoPages>) -> (usize, usize) {
    let mut parts: usize = 0;
    let mut most = 0;
    for page in 0..store.pages() {
        let here = store.parts(Page::Term(page));
        parts = parts.saturating_add(here);
        most = most.max(here);
    }
    (parts, most)
}
