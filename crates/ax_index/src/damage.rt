//! The fault of a part whose payload is outside its grammar.

ghost use Rattle.std.specs.Prelude.{◌<◌, length};
ghost use Rattle.ax_pages.specs.Contents.{term_page, term_parts};
ghost use Rattle.ax_store.specs.Store.{store_contents};
ghost use Rattle.ax_index.specs.Damage.{IsPlacedAt};

use ax_pages::Page;
use ax_store::{Store, StoreFault};

/// The fault of a part of a term page: where it stands.
pub(crate) fn damaged_at<C>(store: &Store<C>, page: u32, i: usize) -> StoreFault
    requires { i < length (term_parts (term_page page (store_contents store.now).terms)) }
    ensures { IsPlacedAt store.now page i result }
{
    let (extent, at) = store.place(Page::Term(page), i);
    StoreFault::Damaged { extent, at }
}
