//! The fault of a part whose payload a table of policies can't be made of.

ghost use Rattle.std.specs.Prelude.{◌≡◌, ◌<◌, length};
ghost use Rattle.ax_pages.specs.Area.{extent_number};
ghost use Rattle.ax_pages.specs.Contents.{parts_of};
ghost use Rattle.ax_store.specs.Store.{store_area, store_parts};
ghost use Rattle.ax_table.specs.Damage.{IsPlacedAt};

use ax_pages::Page;
use ax_store::{Store, StoreFault};

/// The fault of the first part of a page: where it stands.
pub(crate) fn damaged_at<C>(store: &Store<C>, page: Page) -> StoreFault
    requires { 0 < length (parts_of page (store_parts store.now)) }
    ensures { IsPlacedAt store.now page result }
{
    let (extent, at) = store.place(page, 0);
    StoreFault::Damaged { extent, at }
}

/// The fault of an area in which two policies have one text: that of the page has a part there.
pub(crate) fn damaged_area<C>(store: &Store<C>, page: Page) -> StoreFault
    requires { 0 < length (parts_of page (store_parts store.now)) }
    ensures { result ≡ StoreFault.Damaged (extent_number (store_area store.now)) 0 }
{
    let (extent, _) = store.place(page, 0);
    StoreFault::Damaged { extent, at: 0 }
}
