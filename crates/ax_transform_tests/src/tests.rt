//! A policy is made the one now.

ghost use Rattle.std.specs.Prelude.{◌≡◌, ◌<◌, ◌≤◌, IfSome};
ghost use Rattle.ax_image_grammar.specs.Payloads.{IsTextOf};
ghost use Rattle.ax_policy.specs.Normal.{normal_text};
ghost use Rattle.ax_pool.specs.Frames.{free_count};
ghost use Rattle.ax_store.specs.Store.{AgreesUnlessFailed, store_contents, store_slots};
ghost use Rattle.ax_table.specs.TableAgrees.{TableAgrees};

use ax_base::Steps;
use ax_cache::{NoPages, PageCache};
use ax_disk::{Disk, Extent, MemDisk};
use ax_policy::{Policy, PolicyTable};
use ax_recent::RecentIds;
use ax_storable::read_document;
use ax_store::Store;
use ax_table::{read_policy_text, read_table};
use ax_transform::{TransformFault, set_policy};
use ax_write::create;
use std::alloc::Global;
use std::marker::Brand;
use std::sync::ledger::{Blank, Ledger};
use std::test::Fail;

/// The policy by which just the member `a` is indexed, and so on.
const ONE: &[u8] =
    br#"{"automatic":true,"compositeIndexes":[],"excludedPaths":[{"path":"/*"}],"includedPaths":[{"path":"/\"a\"/?"}],"indexingMode":"consistent"}"#;

const TWO: &[u8] =
    br#"{"automatic":true,"compositeIndexes":[],"excludedPaths":[{"path":"/*"}],"includedPaths":[{"path":"/\"b\"/?"}],"indexingMode":"consistent"}"#;

const THREE: &[u8] =
    br#"{"automatic":true,"compositeIndexes":[],"excludedPaths":[{"path":"/*"}],"includedPaths":[{"path":"/\"c\"/?"}],"indexingMode":"consistent"}"#;

const FOUR: &[u8] =
    br#"{"automatic":true,"compositeIndexes":[],"excludedPaths":[{"path":"/*"}],"includedPaths":[{"path":"/\"d\"/?"}],"indexingMode":"consistent"}"#;

const FIVE: &[u8] =
    br#"{"automatic":true,"compositeIndexes":[],"excludedPaths":[{"path":"/*"}],"includedPaths":[{"path":"/\"e\"/?"}],"indexingMode":"consistent"}"#;

const SIX: &[u8] =
    br#"{"automatic":true,"compositeIndexes":[],"excludedPaths":[{"path":"/*"}],"includedPaths":[{"path":"/\"f\"/?"}],"indexingMode":"consistent"}"#;

const SEVEN: &[u8] =
    br#"{"automatic":true,"compositeIndexes":[],"excludedPaths":[{"path":"/*"}],"includedPaths":[{"path":"/\"g\"/?"}],"indexingMode":"consistent"}"#;

const NONE: &[u8] =
    br#"{"automatic":true,"compositeIndexes":[],"excludedPaths":[],"includedPaths":[],"indexingMode":"none"}"#;

/// The frame by which the first of these becomes the policy now of a fresh store, and the closed gate behind it: the part of
/// policy 1, and the meta with next number 1 and policy 1.
const FRAME: &[u8] =
    b"\x01\xA4\0\0\0\0\0\0\0\x02\x01\0\0\0\x8A\0\0\0{\"automatic\":true,\"compositeIndexes\":[],\"excludedPaths\":[{\"path\":\"/*\"}],\"includedPaths\":[{\"path\":\"/\\\"a\\\"/?\"}],\"indexingMode\":\"consistent\"}\x01\0\0\0\0\x08\0\0\0\x01\0\0\0\x01\0\0\0\0";

/// The frame of the same policy again: the meta alone.
const META: &[u8] = b"\x01\x11\0\0\0\0\0\0\0\x01\0\0\0\0\x08\0\0\0\x01\0\0\0\x01\0\0\0\0";

/// Its text and the meta are written, and nothing else; and it is the policy now when the store is opened again. Set again, it
/// keeps its number, and the meta alone is written.
#[test]
fn a_policy_is_there_again(rt: HostRuntime) -> Result<(), Fail> {
    let alloc = rt.alloc();
    let mut disk = empty_disk(alloc)?;
    assert_eq!(rt;
        sets::<MemDisk, Brand>(alloc, &mut disk, ONE, Blank::new(1)),
        Some(1)
    );
    assert_eq!(rt; disk.bytes(Extent::A), FRAME);
    assert!(rt; is_now::<MemDisk, Brand>(alloc, &mut disk, 1, ONE, Blank::new(1)));
    assert_eq!(rt;
        sets::<MemDisk, Brand>(alloc, &mut disk, ONE, Blank::new(1)),
        Some(1)
    );
    let bytes = disk.bytes(Extent::A);
    assert_eq!(rt; bytes.len(), FRAME.len() - 1 + META.len());
    assert_eq!(rt; &bytes[FRAME.len() - 1..], META);
    Ok(())
}

/// A number under which no document is, and that is not now, is given again.
#[test]
fn a_number_that_is_idle_is_given_again(rt: HostRuntime) -> Result<(), Fail> {
    let alloc = rt.alloc();
    let mut disk = empty_disk(alloc)?;
    assert_eq!(rt;
        sets::<MemDisk, Brand>(alloc, &mut disk, ONE, Blank::new(1)),
        Some(1)
    );
    assert_eq!(rt;
        sets::<MemDisk, Brand>(alloc, &mut disk, TWO, Blank::new(1)),
        Some(0)
    );
    assert_eq!(rt;
        sets::<MemDisk, Brand>(alloc, &mut disk, THREE, Blank::new(1)),
        Some(1)
    );
    assert!(rt; is_now::<MemDisk, Brand>(alloc, &mut disk, 1, THREE, Blank::new(1)));
    Ok(())
}

/// Where documents are under eight policies another one is refused, and one of the eight is not.
#[test]
fn a_ninth_policy_is_refused(rt: HostRuntime) -> Result<(), Fail> {
    let alloc = rt.alloc();
    let mut disk = empty_disk(alloc)?;
    assert_eq!(rt;
        refuses::<MemDisk, Brand>(alloc, &mut disk, Blank::new(1)),
        Some(true)
    );
    assert!(rt; is_now::<MemDisk, Brand>(alloc, &mut disk, 1, ONE, Blank::new(1)));
    Ok(())
}

/// A fresh disk.
fn empty_disk(alloc: Global) -> Result<MemDisk, ax_disk::Memory> {
    let (root, a, b) = (Vec::new(alloc), Vec::new(alloc), Vec::new(alloc));
    MemDisk::make(alloc, root, a, b, 9000, 1000, Vec::new(alloc))
}

fn policy_in(alloc: Global, text: &[u8]) -> Option<Policy>
    ensures { IfSome result (λ policy. IsTextOf (normal_text policy) policy) }
{
    match read_policy_text(alloc, text) {
        Ok(policy) => Some(policy),
        Err(_) => None,
    }
}

/// Opens the store and makes the policy the one now. Its number; `None` where it was not set.
fn sets<D: Disk, L: Ledger>(alloc: Global, disk: &mut D, text: &[u8], blank: Blank) -> Option<u8>
    requires name { blank.name ≡ L.name }
    requires parts { blank.parts ≡ L.parts }
    requires some { 0 < blank.parts }
{
    let mut steps = Steps::<L>::begin(blank);
    let Ok(mut store) = Store::open_store(alloc, disk, NoPages) else {
        return None;
    };
    let Ok(mut table) = read_table(alloc, &mut store, disk, &mut steps) else {
        return None;
    };
    if set_on(alloc, &mut store, disk, &mut table, text) {
        Some(table.now())
    } else {
        None
    }
}

/// Whether the policy of that text was made the one now.
fn set_on<D: Disk, C: PageCache>(
    alloc: Global,
    store: &mut Store<C>,
    disk: &mut D,
    table: &mut PolicyTable,
    text: &[u8],
) -> bool
    requires agrees { AgreesUnlessFailed C.pages (D.is_honest disk.old) store.old (D.history disk.old (D.attached disk.old)) }
    requires table { TableAgrees (D.is_honest disk.old) table.old (store_contents store.old) }
    ensures agrees { AgreesUnlessFailed C.pages (D.is_honest disk.new) store.new (D.history disk.new (D.attached disk.new)) }
    ensures table { TableAgrees (D.is_honest disk.new) table.new (store_contents store.new) }
    ensures slots { (store_slots store.new).taken ≡ (store_slots store.old).taken }
{
    match policy_in(alloc, text) {
        Some(policy) => set_policy(alloc, store, disk, table, policy).is_ok(),
        None => false,
    }
}

/// Opens the store. Whether the policy now has that number and that text.
fn is_now<D: Disk, L: Ledger>(
    alloc: Global,
    disk: &mut D,
    number: u8,
    text: &[u8],
    blank: Blank,
) -> bool
    requires name { blank.name ≡ L.name }
    requires parts { blank.parts ≡ L.parts }
    requires some { 0 < blank.parts }
{
    let mut steps = Steps::<L>::begin(blank);
    let Ok(mut store) = Store::open_store(alloc, disk, NoPages) else {
        return false;
    };
    match read_table(alloc, &mut store, disk, &mut steps) {
        Ok(table) => table.now() == number && has_text(alloc, &table, text),
        Err(_) => false,
    }
}

fn has_text(alloc: Global, table: &PolicyTable, text: &[u8]) -> bool {
    match table.policy(table.now()) {
        Some(policy) => is_text(alloc, policy, text),
        None => false,
    }
}

fn is_text(alloc: Global, policy: &Policy, text: &[u8]) -> bool {
    match policy.normal(alloc) {
        Ok(normal) => normal.as_slice() == text,
        Err(_) => false,
    }
}

/// Puts documents under eight policies, and sets a ninth, and one of the eight. Whether the ninth alone was refused; `None` where
/// something else failed.
fn refuses<D: Disk, L: Ledger>(alloc: Global, disk: &mut D, blank: Blank) -> Option<bool>
    requires name { blank.name ≡ L.name }
    requires parts { blank.parts ≡ L.parts }
    requires some { 0 < blank.parts }
{
    let mut steps = Steps::<L>::begin(blank);
    let Ok(mut store) = Store::open_store(alloc, disk, NoPages) else {
        return None;
    };
    let Ok(mut table) = read_table(alloc, &mut store, disk, &mut steps) else {
        return None;
    };
    if !fills(alloc, &mut store, disk, &mut table) {
        return None;
    }
    refuses_ninth(alloc, &mut store, disk, &mut table)
}

fn refuses_ninth<D: Disk, C: PageCache>(
    alloc: Global,
    store: &mut Store<C>,
    disk: &mut D,
    table: &mut PolicyTable,
) -> Option<bool>
    requires agrees { AgreesUnlessFailed C.pages (D.is_honest disk.old) store.old (D.history disk.old (D.attached disk.old)) }
    requires table { TableAgrees (D.is_honest disk.old) table.old (store_contents store.old) }
{
    let policy = policy_in(alloc, NONE)?;
    match set_policy(alloc, store, disk, table, policy) {
        Ok(()) => Some(false),
        Err(TransformFault::Policies) => Some(set_on(alloc, store, disk, table, ONE)),
        Err(TransformFault::Store(_)) => None,
    }
}

/// Creates a document under the default policy, and one under each of seven others.
fn fills<D: Disk, S: PageCache>(
    alloc: Global,
    store: &mut Store<S>,
    disk: &mut D,
    table: &mut PolicyTable,
) -> bool
    requires free { 2 ≤ free_count (store_slots store.old) }
    requires agrees { AgreesUnlessFailed S.pages (D.is_honest disk.old) store.old (D.history disk.old (D.attached disk.old)) }
    requires table { TableAgrees (D.is_honest disk.old) table.old (store_contents store.old) }
    ensures agrees { AgreesUnlessFailed S.pages (D.is_honest disk.new) store.new (D.history disk.new (D.attached disk.new)) }
    ensures table { TableAgrees (D.is_honest disk.new) table.new (store_contents store.new) }
{
    let Ok(mut ids) = RecentIds::make(alloc, 16) else {
        return false;
    };
    begins(alloc, store, disk, table, &mut ids)
        && goes_on(alloc, store, disk, table, &mut ids)
        && ends(alloc, store, disk, table, &mut ids)
}

fn begins<D: Disk, S: PageCache>(
    alloc: Global,
    store: &mut Store<S>,
    disk: &mut D,
    table: &mut PolicyTable,
    ids: &mut RecentIds,
) -> bool
    requires free { 2 ≤ free_count (store_slots store.old) }
    requires agrees { AgreesUnlessFailed S.pages (D.is_honest disk.old) store.old (D.history disk.old (D.attached disk.old)) }
    requires table { TableAgrees (D.is_honest disk.old) table.old (store_contents store.old) }
    ensures free { 2 ≤ free_count (store_slots store.new) }
    ensures agrees { AgreesUnlessFailed S.pages (D.is_honest disk.new) store.new (D.history disk.new (D.attached disk.new)) }
    ensures table { TableAgrees (D.is_honest disk.new) table.new (store_contents store.new) }
{
    creates(alloc, store, disk, table, ids, br#"{"id":"0"}"#)
        && adds(alloc, store, disk, table, ids, ONE, br#"{"id":"1"}"#)
        && adds(alloc, store, disk, table, ids, TWO, br#"{"id":"2"}"#)
}

fn goes_on<D: Disk, S: PageCache>(
    alloc: Global,
    store: &mut Store<S>,
    disk: &mut D,
    table: &mut PolicyTable,
    ids: &mut RecentIds,
) -> bool
    requires free { 2 ≤ free_count (store_slots store.old) }
    requires agrees { AgreesUnlessFailed S.pages (D.is_honest disk.old) store.old (D.history disk.old (D.attached disk.old)) }
    requires table { TableAgrees (D.is_honest disk.old) table.old (store_contents store.old) }
    ensures free { 2 ≤ free_count (store_slots store.new) }
    ensures agrees { AgreesUnlessFailed S.pages (D.is_honest disk.new) store.new (D.history disk.new (D.attached disk.new)) }
    ensures table { TableAgrees (D.is_honest disk.new) table.new (store_contents store.new) }
{
    adds(alloc, store, disk, table, ids, THREE, br#"{"id":"3"}"#)
        && adds(alloc, store, disk, table, ids, FOUR, br#"{"id":"4"}"#)
        && adds(alloc, store, disk, table, ids, FIVE, br#"{"id":"5"}"#)
}

fn ends<D: Disk, S: PageCache>(
    alloc: Global,
    store: &mut Store<S>,
    disk: &mut D,
    table: &mut PolicyTable,
    ids: &mut RecentIds,
) -> bool
    requires free { 2 ≤ free_count (store_slots store.old) }
    requires agrees { AgreesUnlessFailed S.pages (D.is_honest disk.old) store.old (D.history disk.old (D.attached disk.old)) }
    requires table { TableAgrees (D.is_honest disk.old) table.old (store_contents store.old) }
    ensures free { 2 ≤ free_count (store_slots store.new) }
    ensures agrees { AgreesUnlessFailed S.pages (D.is_honest disk.new) store.new (D.history disk.new (D.attached disk.new)) }
    ensures table { TableAgrees (D.is_honest disk.new) table.new (store_contents store.new) }
{
    adds(alloc, store, disk, table, ids, SIX, br#"{"id":"6"}"#)
        && adds(alloc, store, disk, table, ids, SEVEN, br#"{"id":"7"}"#)
}

/// Makes the policy the one now, and creates a document.
fn adds<D: Disk, C: PageCache>(
    alloc: Global,
    store: &mut Store<C>,
    disk: &mut D,
    table: &mut PolicyTable,
    ids: &mut RecentIds,
    policy: &[u8],
    document: &[u8],
) -> bool
    requires free { 2 ≤ free_count (store_slots store.old) }
    requires agrees { AgreesUnlessFailed C.pages (D.is_honest disk.old) store.old (D.history disk.old (D.attached disk.old)) }
    requires table { TableAgrees (D.is_honest disk.old) table.old (store_contents store.old) }
    ensures free { 2 ≤ free_count (store_slots store.new) }
    ensures agrees { AgreesUnlessFailed C.pages (D.is_honest disk.new) store.new (D.history disk.new (D.attached disk.new)) }
    ensures table { TableAgrees (D.is_honest disk.new) table.new (store_contents store.new) }
{
    set_on(alloc, store, disk, table, policy) && creates(alloc, store, disk, table, ids, document)
}

fn creates<D: Disk, C: PageCache>(
    alloc: Global,
    store: &mut Store<C>,
    disk: &mut D,
    table: &mut PolicyTable,
    ids: &mut RecentIds,
    text: &[u8],
) -> bool
    requires free { 2 ≤ free_count (store_slots store.old) }
    requires agrees { AgreesUnlessFailed C.pages (D.is_honest disk.old) store.old (D.history disk.old (D.attached disk.old)) }
    requires table { TableAgrees (D.is_honest disk.old) table.old (store_contents store.old) }
    ensures free { 2 ≤ free_count (store_slots store.new) }
    ensures agrees { AgreesUnlessFailed C.pages (D.is_honest disk.new) store.new (D.history disk.new (D.attached disk.new)) }
    ensures table { TableAgrees (D.is_honest disk.new) table.new (store_contents store.new) }
{
    match read_document(alloc, text) {
        Ok(tree) => create(alloc, store, disk, table, ids, &tree).is_ok(),
        Err(_) => false,
    }
}
