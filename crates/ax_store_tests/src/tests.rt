//! What a store does on a disk in memory.

ghost use Rattle.std.specs.Prelude.{◌≡◌, ◌<◌, IsTrue};
ghost use Rattle.std.specs.FinMap as map;
ghost use Rattle.ax_frame.specs.Part.{part_value};
ghost use Rattle.ax_store.specs.Store.{Agrees, AgreesUnlessFailed};

mod disk;
mod many_parts;
mod opening;
mod reading_ahead;

use ax_base::Steps;
use ax_cache::{LruPages, NoPages, PageCache};
use ax_disk::{Disk, Extent, MemDisk};
use ax_frame::Part;
use ax_pages::Page;
use ax_store::{Batch, Head, Store, StoreFault};
use std::alloc::Global;
use std::marker::Brand;
use std::sync::ledger::{Blank, Ledger};
use std::test::Fail;

/// Next number 2 under policy 0.
const META: [u8; 8] = [2, 0, 0, 0, 0, 0, 0, 0];

/// A document's policy 0, and its text.
const DOCUMENT: [u8; 3] = [0, b'{', b'}'];

/// A base of page 0: of the first of all pairs, the empty term with number 0.
const FIRST_BASE: [u8; 3] = [0, 0, 7];

/// A base of page 1, from the term `b` and number 5 on.
const SECOND_BASE: [u8; 4] = [1, b'b', 5, 8];

/// A delta of page 0, and the one behind it.
const FIRST_DELTA: [u8; 1] = [9];

const SECOND_DELTA: [u8; 2] = [10, 11];

/// The text alone.
const TEXT: [u8; 2] = [b'{', b'}'];

/// A fresh store has a closed gate in area A and no document.
#[test]
fn a_fresh_store_is_formed(rt: HostRuntime) -> Result<(), Fail> {
    let alloc = rt.alloc();
    let mut disk = empty_disk(alloc)?;
    let Ok(store) = Store::open_store(alloc, &mut disk, NoPages) else {
        assert!(rt; false);
        return Ok(());
    };
    assert_eq!(rt; store.meta().next, 1);
    assert_eq!(rt; store.parts(Page::Meta), 0);
    assert_eq!(rt; store.next_document(0), None);
    assert_eq!(rt; disk.bytes(Extent::A), [0].as_slice());
    Ok(())
}

/// A document that was committed is there when the store is opened again: its text, its head and
/// its place.
#[test]
fn a_document_is_there_again(rt: HostRuntime) -> Result<(), Fail> {
    let alloc = rt.alloc();
    let mut disk = empty_disk(alloc)?;
    assert!(rt; puts_document(alloc, &mut disk));
    assert!(rt; has_document(alloc, &mut disk));
    assert!(rt; reads_document::<MemDisk, Brand>(alloc, &mut disk, Blank::new(1)));
    Ok(())
}

/// Each fetch reads the disk once where the cache holds nothing. Where it holds what was read, the
/// second fetch of a document reads nothing.
#[test]
fn a_cache_spares_the_second_read(rt: HostRuntime) -> Result<(), Fail> {
    let alloc = rt.alloc();
    let mut disk = empty_disk(alloc)?;
    assert!(rt; puts_document(alloc, &mut disk));
    let once = reads_for(alloc, &mut disk, NoPages, false);
    let twice = reads_for(alloc, &mut disk, NoPages, true);
    let held_once = reads_for(alloc, &mut disk, LruPages::make(alloc, 4)?, false);
    let held_twice = reads_for(alloc, &mut disk, LruPages::make(alloc, 4)?, true);
    assert!(rt; once.is_some());
    assert_eq!(rt; twice, once.and_then(|count| count.checked_add(1)));
    assert_eq!(rt; held_once, once);
    assert_eq!(rt; held_twice, once);
    Ok(())
}

/// Term pages that were committed in one batch are there when the store is opened again: their parts,
/// their low pairs and their order.
#[test]
fn term_pages_are_there_again(rt: HostRuntime) -> Result<(), Fail> {
    let alloc = rt.alloc();
    let mut disk = empty_disk(alloc)?;
    assert!(rt; puts_term_pages(alloc, &mut disk));
    assert!(rt; has_term_pages(alloc, &mut disk));
    assert!(rt; reads_term_pages(alloc, &mut disk));
    Ok(())
}

/// There are 64 slots, and no more.
#[test]
fn sixty_four_slots_are_taken(rt: HostRuntime) -> Result<(), Fail> {
    let alloc = rt.alloc();
    let mut disk = empty_disk(alloc)?;
    let Ok(mut store) = Store::open_store(alloc, &mut disk, NoPages) else {
        assert!(rt; false);
        return Ok(());
    };
    for _ in 0..64 {
        assert!(rt; store.take_slot().is_some());
    }
    assert!(rt; store.take_slot().is_none());
    Ok(())
}

fn empty_disk(alloc: Global) -> Result<MemDisk, ax_disk::Memory> {
    room_for(alloc, 1000)
}

/// A fresh disk with room for so many bytes.
fn room_for(alloc: Global, bytes: usize) -> Result<MemDisk, ax_disk::Memory> {
    let (root, a, b) = (Vec::new(alloc), Vec::new(alloc), Vec::new(alloc));
    MemDisk::make(alloc, root, a, b, bytes, 100, Vec::new(alloc))
}

/// Whether a document is committed to the store of a disk.
fn puts_document<D: Disk>(alloc: Global, disk: &mut D) -> bool {
    match Store::open_store(alloc, disk, NoPages) {
        Ok(mut store) => commit_document(alloc, disk, &mut store).is_ok(),
        Err(_) => false,
    }
}

/// Whether what the store keeps of the document is right.
fn has_document<D: Disk>(alloc: Global, disk: &mut D) -> bool {
    match Store::open_store(alloc, disk, NoPages) {
        Ok(store) => keeps_document(&store),
        Err(_) => false,
    }
}

fn keeps_document(store: &Store<NoPages>) -> bool {
    let head = Head {
        policy: 0,
        text_at: 1,
    };
    // Behind gate, length, and the meta's part of 17 bytes.
    let place = place_of(store, Page::Document(1), 0);
    store.meta().next == 2
        && store.next_document(0) == Some(1)
        && store.head_of(1) == Some(head)
        && !store.has_policy(1)
        && place == Some((1, 26))
}

/// Whether the document's text is read, into a slot and as a vector.
fn reads_document<D: Disk, L: Ledger>(alloc: Global, disk: &mut D, blank: Blank) -> bool
    requires name { blank.name ≡ L.name }
    requires parts { blank.parts ≡ L.parts }
    requires some { 0 < blank.parts }
{
    let mut steps = Steps::<L>::begin(blank);
    let Ok(mut store) = Store::open_store(alloc, disk, NoPages) else {
        return false;
    };
    if !fetches(disk, &mut store, &mut steps) {
        return false;
    }
    fetches_text(alloc, disk, &mut store, &mut steps)
}

/// How often the disk is read while the store is opened with a cache and the document is fetched,
/// once or twice. `None` where it is not fetched.
fn reads_for<C: PageCache + Drop>(
    alloc: Global,
    disk: &mut MemDisk,
    cache: C,
    twice: bool,
) -> Option<u64>
    requires { C.pages cache ≡ map.empty }
{
    let before = disk.reads();
    if !opens_and_fetches::<MemDisk, C, Brand>(alloc, disk, cache, twice, Blank::new(1)) {
        return None;
    }
    disk.reads().checked_sub(before)
}

/// Opens the store with a cache, and fetches the document, once or twice.
fn opens_and_fetches<D: Disk, C: PageCache + Drop, L: Ledger>(
    alloc: Global,
    disk: &mut D,
    cache: C,
    twice: bool,
    blank: Blank,
) -> bool
    requires empty { C.pages cache ≡ map.empty }
    requires name { blank.name ≡ L.name }
    requires parts { blank.parts ≡ L.parts }
    requires some { 0 < blank.parts }
{
    let mut steps = Steps::<L>::begin(blank);
    let Ok(mut store) = Store::open_store(alloc, disk, cache) else {
        return false;
    };
    if !fetches(disk, &mut store, &mut steps) {
        return false;
    }
    if twice {
        return fetches(disk, &mut store, &mut steps);
    }
    true
}

/// Whether term pages are committed to the store of a disk, which has one without a part.
fn puts_term_pages<D: Disk>(alloc: Global, disk: &mut D) -> bool {
    match Store::open_store(alloc, disk, NoPages) {
        Ok(mut store) => commit_term_pages(alloc, disk, &mut store).is_ok(),
        Err(_) => false,
    }
}

/// Whether what the store keeps of the term pages is right.
fn has_term_pages<D: Disk>(alloc: Global, disk: &mut D) -> bool {
    match Store::open_store(alloc, disk, NoPages) {
        Ok(store) => has_the_parts(&store) && has_the_low_pairs(&store) && finds_the_pages(&store),
        Err(_) => false,
    }
}

/// Whether each part of the term pages is read.
fn reads_term_pages<D: Disk>(alloc: Global, disk: &mut D) -> bool {
    let Ok(mut store) = Store::open_store(alloc, disk, NoPages) else {
        return false;
    };
    if !reads_term(disk, &mut store, 0, 0, &FIRST_BASE) {
        return false;
    }
    if !reads_term(disk, &mut store, 0, 1, &FIRST_DELTA) {
        return false;
    }
    if !reads_term(disk, &mut store, 0, 2, &SECOND_DELTA) {
        return false;
    }
    reads_term(disk, &mut store, 1, 0, &SECOND_BASE)
}

/// Commits the meta and one document.
fn commit_document<D: Disk, C: PageCache>(
    alloc: Global,
    disk: &mut D,
    store: &mut Store<C>,
) -> Result<(), StoreFault>
    requires agrees { IsTrue (D.is_honest disk.old) → Agrees C.pages store.old (D.history disk.old (D.attached disk.old)) }
{
    let mut batch = Batch::begin(alloc);
    let meta = Part {
        kind: 1,
        key: 0,
        payload: &META,
    };
    let document = Part {
        kind: 3,
        key: 1,
        payload: &DOCUMENT,
    };
    let Ok(()) = batch.add(alloc, meta) else {
        return Err(StoreFault::Memory);
    };
    let Ok(()) = batch.add(alloc, document) else {
        return Err(StoreFault::Memory);
    };
    let Ok(batch) = batch.seal(alloc) else {
        return Err(StoreFault::Memory);
    };
    let Ok(()) = store.reserve(2) else {
        return Err(StoreFault::Memory);
    };
    if store.documents() > 9 {
        return Err(StoreFault::Memory);
    }
    store.commit(disk, batch)
}

/// Commits bases of two term pages, and two deltas of the first, to a store that has none.
fn commit_term_pages<D: Disk, C: PageCache>(
    alloc: Global,
    disk: &mut D,
    store: &mut Store<C>,
) -> Result<(), StoreFault>
    requires agrees { IsTrue (D.is_honest disk.old) → Agrees C.pages store.old (D.history disk.old (D.attached disk.old)) }
{
    let mut batch = Batch::begin(alloc);
    let first_base = term_part(5, 0, &FIRST_BASE);
    let second_base = term_part(5, 1, &SECOND_BASE);
    let first_delta = term_part(6, 0, &FIRST_DELTA);
    let second_delta = term_part(6, 0, &SECOND_DELTA);
    let Ok(()) = batch.add(alloc, first_base) else {
        return Err(StoreFault::Memory);
    };
    let Ok(()) = batch.add(alloc, second_base) else {
        return Err(StoreFault::Memory);
    };
    let Ok(()) = batch.add(alloc, first_delta) else {
        return Err(StoreFault::Memory);
    };
    let Ok(()) = batch.add(alloc, second_delta) else {
        return Err(StoreFault::Memory);
    };
    let Ok(batch) = batch.seal(alloc) else {
        return Err(StoreFault::Memory);
    };
    if store.pages() != 1 {
        return Err(StoreFault::Memory);
    }
    if store.has_base(0) {
        return Err(StoreFault::Memory);
    }
    let Ok(()) = store.reserve(4) else {
        return Err(StoreFault::Memory);
    };
    let Ok(()) = store.reserve_deltas(0, 2) else {
        return Err(StoreFault::Memory);
    };
    store.commit(disk, batch)
}

fn term_part(kind: u8, key: u32, payload: &[u8]) -> Part<'_>
    ensures { part_value result ≡ record { kind = kind; key = key; payload = payload.now } }
{
    Part { kind, key, payload }
}

fn place_of(store: &Store<NoPages>, page: Page, i: usize) -> Option<(u8, u64)> {
    if i >= store.parts(page) {
        return None;
    }
    Some(store.place(page, i))
}

/// Whether page 0 has a base and two deltas, and page 1 a base alone.
fn has_the_parts(store: &Store<NoPages>) -> bool {
    // Behind gate, length, and parts of 12, 13 and 10 bytes.
    let place = place_of(store, Page::Term(0), 2);
    store.pages() == 2
        && store.parts(Page::Term(0)) == 3
        && store.parts(Page::Term(1)) == 1
        && store.parts(Page::Term(2)) == 0
        && store.has_base(0)
        && store.has_base(1)
        && place == Some((1, 44))
}

fn has_the_low_pairs(store: &Store<NoPages>) -> bool {
    low_is(store, 0, &[], 0) && low_is(store, 1, &[b'b'], 5)
}

/// Whether pairs before (b, 5) belong to page 0 and others to page 1, which is behind page 0.
fn finds_the_pages(store: &Store<NoPages>) -> bool {
    store.page_of(&[b'a'], 9) == 0
        && store.page_of(&[b'b'], 4) == 0
        && store.page_of(&[b'b'], 5) == 1
        && store.page_of(&[b'b', b'a'], 0) == 1
        && page_behind(store, 0) == Some(1)
        && page_behind(store, 1).is_none()
}

fn low_is(store: &Store<NoPages>, page: u32, term: &[u8], number: u32) -> bool {
    page < store.pages() && store.low(page) == (term, number)
}

fn page_behind(store: &Store<NoPages>, page: u32) -> Option<u32> {
    if page >= store.pages() {
        return None;
    }
    store.next_page(page)
}

/// Whether a part of a term page is read into a slot.
fn reads_term<D: Disk, C: PageCache>(
    disk: &mut D,
    store: &mut Store<C>,
    page: u32,
    i: usize,
    payload: &[u8],
) -> bool
    requires agrees { AgreesUnlessFailed C.pages (D.is_honest disk.old) store.old
        (D.history disk.old (D.attached disk.old)) }
    ensures agrees { AgreesUnlessFailed C.pages (D.is_honest disk.new) store.new
        (D.history disk.new (D.attached disk.new)) }
{
    if i >= store.parts(Page::Term(page)) {
        return false;
    }
    let Some(mut slot) = store.take_slot() else {
        return false;
    };
    match store.read_term(disk, page, i, &mut slot) {
        Ok(len) => len == payload.len() && store.slot_bytes(&slot).starts_with(payload),
        Err(_) => false,
    }
}

/// Whether the document's text is read into a slot.
fn fetches<D: Disk, C: PageCache, L: Ledger>(
    disk: &mut D,
    store: &mut Store<C>,
    steps: &mut Steps<L>,
) -> bool
    requires agrees { AgreesUnlessFailed C.pages (D.is_honest disk.old) store.old
        (D.history disk.old (D.attached disk.old)) }
    ensures agrees { AgreesUnlessFailed C.pages (D.is_honest disk.new) store.new
        (D.history disk.new (D.attached disk.new)) }
{
    let Some(mut slot) = store.take_slot() else {
        return false;
    };
    match store.fetch(disk, 1, &mut slot, steps) {
        Ok(Some(len)) => len == TEXT.len() && store.slot_bytes(&slot).starts_with(&TEXT),
        Ok(None) => false,
        Err(_) => false,
    }
}

/// Whether the document's text is read as a vector.
fn fetches_text<D: Disk, C: PageCache, L: Ledger>(
    alloc: Global,
    disk: &mut D,
    store: &mut Store<C>,
    steps: &mut Steps<L>,
) -> bool
    requires agrees { AgreesUnlessFailed C.pages (D.is_honest disk.old) store.old
        (D.history disk.old (D.attached disk.old)) }
{
    match store.fetch_text(alloc, disk, 1, steps) {
        Ok(Some(text)) => text.as_slice() == TEXT.as_slice(),
        Ok(None) => false,
        Err(_) => false,
    }
}
