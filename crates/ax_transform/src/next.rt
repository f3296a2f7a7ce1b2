//! The next document that is under another policy than the one now.

ghost use Rattle.std.specs.Prelude.{◌≡◌, ◌≢◌, IsTrue, Some, true, false};
ghost use Rattle.std.specs.FinMap as map;
ghost use Rattle.ax_area.specs.Contents.{Stored};
ghost use Rattle.ax_store.specs.Store.{store_contents};
ghost use Rattle.ax_transform.specs.Moving.{IsBehind, IsNextBehind};

use ax_store::Store;

/// The least number above another under which a document is held that is under another policy than that of a number. `None`
/// exactly where there is none. It looks at the heads of the documents between them, and reads nothing.
pub(crate) fn next_behind<C>(store: &Store<C>, now: u8, after: u32) -> Option<u32>
    ensures { IsNextBehind (store_contents store.now) now after result }
{
    let mut next = store.next_document(after);
    while let Some(number) = next {
        if is_behind(store, now, number) {
            return Some(number);
        }
        next = store.next_document(number);
    }
    None
}

/// Whether the document of a number that is held is under another policy.
fn is_behind<C>(store: &Store<C>, now: u8, number: u32) -> bool
    requires { IsTrue (map.contains_key (store_contents store.now).documents number) }
    ensures behind { result ≡ true → IsBehind (store_contents store.now) now number }
    ensures not { result ≡ false → (stored : Stored) → map.get (store_contents store.now).documents number ≡ Some stored
        → stored.policy ≡ now }
{
    match store.head_of(number) {
        Some(head) => head.policy != now,
        None => false,
    }
}
