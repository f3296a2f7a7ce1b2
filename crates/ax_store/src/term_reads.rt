//! What a store answers of its term pages.

ghost use Rattle.std.specs.Prelude.{◌≡◌, ◌<◌, length, is_some, IfSome, IfNone};
ghost use Rattle.ax_pages.specs.Contents.{term_page};
ghost use Rattle.ax_pages.specs.TermPages.{IsPageOf, IsNextPage, IsLastPage, low_pair};
ghost use Rattle.ax_store.specs.PageBefore.{IsFirstPage, IsPageBefore};
ghost use Rattle.ax_store.specs.Store.{store_contents};

use crate::store::Store;

impl<C> Store<C> {
    /// How many term pages there are: at least one. A new page takes this number.
    pub fn pages(&self) -> u32
        ensures { result ≡ length (store_contents self.now).terms }
    {
        self.pages.terms().len()
    }

    /// The low pair of a term page, its term and its number: the least pair that the page may have.
    pub fn low(&self, page: u32) -> (&[u8], u32)
        requires { page < length (store_contents self.now).terms }
        ensures term { result.0.now ≡ (low_pair page (store_contents self.now).terms).term }
        ensures number { result.1 ≡ (low_pair page (store_contents self.now).terms).number }
    {
        self.pages.terms().low(page)
    }

    /// Whether the first part of a term page is a base. The others are deltas, and where there is no
    /// base, all are.
    pub fn has_base(&self, page: u32) -> bool
        ensures { result ≡ is_some (term_page page (store_contents self.now).terms).base }
    {
        self.pages.terms().has_base(page)
    }

    /// The term page to which the pair of a term and a number belongs. It is looked for by halves.
    pub fn page_of(&self, term: &[u8], number: u32) -> u32
        ensures { IsPageOf (record { term = term.now; number = number }) result (store_contents self.now).terms }
    {
        self.pages.terms().page_of(term, number)
    }

    /// The term page with the next greater low pair. `None` exactly where no page has a greater one. It
    /// is looked for by halves.
    pub fn next_page(&self, page: u32) -> Option<u32>
        requires { page < length (store_contents self.now).terms }
        ensures found { IfSome result (λ next. IsNextPage page next (store_contents self.now).terms) }
        ensures none { IfNone result (IsLastPage page (store_contents self.now).terms) }
    {
        self.pages.terms().next(page)
    }

    /// The page with the next lower low pair. `None` exactly where no page has a lower one. It is looked
    /// for by halves.
    pub fn previous_page(&self, page: u32) -> Option<u32>
        requires { page < length (store_contents self.now).terms }
        ensures found { IfSome result (λ previous. IsPageBefore previous page (store_contents self.now).terms) }
        ensures none { IfNone result (IsFirstPage page (store_contents self.now).terms) }
    {
        self.pages.terms().previous(page)
    }
}
