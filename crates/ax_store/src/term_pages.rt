//! The term pages of a store in memory, by number and in the order of their low pairs.

ghost use Rattle.std.specs.Prelude.{◌≡◌, ℕ, ◌+◌, ◌<◌, ◌≤◌, ◌==◌, [], ◌∷◌, ◌++◌, length, map, vec_len, vec_capacity, option_map, slice_get, slice_index_or, if◌then◌else◌, IfOk, OnOk, IfSome, IfNone, IsTrue, is_some};
ghost use Rattle.std.specs.List.{insert};
ghost use Rattle.std.specs.Ordering.{is_le};
ghost use Rattle.ax_pair.specs.Low.{low_in};
ghost use Rattle.ax_pair.specs.Order.{pair_cmp};
ghost use Rattle.ax_pages.specs.AfterPart.{is_base, is_delta, is_same, is_taken, low_at_front, after_base, after_delta, with_base};
ghost use Rattle.ax_pages.specs.Contents.{no_term_page, term_page, term_parts};
ghost use Rattle.ax_pages.specs.TermPages.{IsPageOf, IsNextPage, IsLastPage, low_pair};
ghost use Rattle.ax_store.specs.Kept.{with_base_at, with_delta_at};
ghost use Rattle.ax_store.specs.PageBefore.{IsFirstPage, IsPageBefore};
ghost use Rattle.ax_store.specs.Rows.{payload_kept, offset_kept};
ghost use Rattle.ax_store.specs.TermRows.{base_payload, base_offset, page_in, IsOrderOf, IsCountUpTo};

use crate::base_part::BasePart;
use crate::kept_part::KeptPart;
use crate::out_of_memory::Memory;
use crate::term_row::TermRow;
use ax_pair::split_low;
use std::alloc::Global;
use std::marker::Model;

/// The most term pages.
const MOST_TERM_PAGES: usize = 2_147_483_648;

/// The term pages of a store. A page is found by its number at once, and by a pair by halves.
///
/// A page that is new moves the four bytes of each page behind it in the order of the low pairs: once
/// for as many bytes as a base has.
#[derive(Drop)]
pub(crate) struct TermPages {
    alloc: Global,
    // By number.
    rows: Vec<TermRow>,
    // The numbers, in the order of the low pairs.
    order: Vec<u32>,
}

impl Model for TermPages {
    ghost use Rattle.std.specs.Prelude.{◌-◌, map, min, vec_len, vec_capacity};
    ghost use Rattle.ax_store.specs.TermRows.{TermsKept, terms_code, page_in, offsets_in, room_in, IsOrderOf};

    ghost Value = { TermsKept };

    ghost coded = { terms_code };

    ghost view = { λ t. record {
      pages = map page_in t.rows.items;
      offsets = map offsets_in t.rows.items;
      rooms = map room_in t.rows.items;
      spare = min (vec_capacity t.rows - vec_len t.rows) (vec_capacity t.order - vec_len t.order);
    } };

    ghost invariant = { λ t. IsOrderOf t.order.items (map page_in t.rows.items) };
}

impl TermPages {
    /// The page that exists from the start, without a part. `Memory` where there is none for its row.
    pub(crate) fn new(alloc: Global) -> Result<TermPages, Memory>
        ensures pages { IfOk result (λ terms. terms.pages ≡ no_term_page ∷ []) }
        ensures offsets { IfOk result (λ terms. terms.offsets ≡ [] ∷ []) }
    {
        let mut rows = Vec::new(alloc);
        rows.push(TermRow::new(alloc))?;
        let mut order = Vec::new(alloc);
        order.push(0)?;
        Ok(TermPages { alloc, rows, order })
    }

    /// How many pages there are.
    pub(crate) fn len(&self) -> u32
        ensures { result ≡ length self.now.pages }
    {
        self.rows.len() as u32
    }

    /// A part of a page. `None` exactly where the page is not there or has not so many.
    pub(crate) fn part(&self, number: u32, i: usize) -> Option<&KeptPart>
        ensures payload { option_map (λ part. payload_kept part.now) result ≡ slice_get (term_parts (term_page number self.now.pages)) i }
        ensures offset { option_map (λ part. offset_kept part.now) result ≡ slice_get (slice_index_or self.now.offsets number []) i }
    {
        self.rows.get(number as usize)?.part(i)
    }

    /// How many parts a page has: none where it is not there.
    pub(crate) fn parts(&self, number: u32) -> usize
        ensures { result ≡ length (term_parts (term_page number self.now.pages)) }
    {
        match self.rows.get(number as usize) {
            Some(row) => row.len(),
            None => 0,
        }
    }

    /// Whether a page has a base. Its first part is that base then, and the others are deltas.
    pub(crate) fn has_base(&self, number: u32) -> bool
        ensures { result ≡ is_some (term_page number self.now.pages).base }
    {
        match self.rows.get(number as usize) {
            Some(row) => row.base.is_some(),
            None => false,
        }
    }

    /// The low pair of a page: the least that it may have.
    pub(crate) fn low(&self, number: u32) -> (&[u8], u32)
        requires { number < length self.now.pages }
        ensures term { result.0.now ≡ (low_pair number self.now.pages).term }
        ensures number { result.1 ≡ (low_pair number self.now.pages).number }
    {
        self.rows[number as usize].low()
    }

    /// The page to which the pair of a term and a number belongs. It is looked for by halves.
    pub(crate) fn page_of(&self, term: &[u8], number: u32) -> u32
        ensures { IsPageOf (record { term = term.now; number = number }) result self.now.pages }
    {
        page_among(&self.order, &self.rows, term, number)
    }

    /// The page with the next greater low pair. `None` exactly where no page has a greater one. It is
    /// looked for by halves.
    pub(crate) fn next(&self, page: u32) -> Option<u32>
        requires { page < length self.now.pages }
        ensures found { IfSome result (λ next. IsNextPage page next self.now.pages) }
        ensures none { IfNone result (IsLastPage page self.now.pages) }
    {
        page_behind(&self.order, &self.rows, page)
    }

    /// The page with the next lower low pair. `None` exactly where no page has a lower one. It is looked
    /// for by halves.
    pub(crate) fn previous(&self, page: u32) -> Option<u32>
        requires { page < length self.now.pages }
        ensures found { IfSome result (λ previous. IsPageBefore previous page self.now.pages) }
        ensures none { IfNone result (IsFirstPage page self.now.pages) }
    {
        page_before(&self.order, &self.rows, page)
    }

    /// Whether a base of that payload is within the format.
    pub(crate) fn admits_base(&self, key: u32, payload: &[u8]) -> bool
        ensures { result ≡ is_base key payload.now self.now.pages }
    {
        let Some((term, number, _)) = split_low(payload) else {
            return false;
        };
        let at = key as usize;
        if at < self.rows.len() {
            return self.has_low(key, term, number);
        }
        at == self.rows.len() && at < MOST_TERM_PAGES && !self.is_low(term, number)
    }

    /// Whether a delta of that page is within the format.
    pub(crate) fn admits_delta(&self, key: u32) -> bool
        ensures { result ≡ is_delta key self.now.pages }
    {
        (key as usize) < self.rows.len()
    }

    /// Makes room for so many new pages.
    pub(crate) fn reserve(&mut self, pages: usize) -> Result<(), Memory>
        ensures room { OnOk result (pages ≤ self.new.spare) }
        ensures pages { self.new.pages ≡ self.old.pages }
        ensures offsets { self.new.offsets ≡ self.old.offsets }
        ensures rooms { self.new.rooms ≡ self.old.rooms }
        ensures never_less { self.old.spare ≤ self.new.spare }
    {
        self.rows.reserve(pages)?;
        self.order.reserve(pages)?;
        Ok(())
    }

    /// Makes room for so many deltas of a page; of one that is not there nothing is done.
    pub(crate) fn reserve_deltas(&mut self, number: u32, deltas: usize) -> Result<(), Memory>
        ensures room { OnOk result (number < length self.old.pages → deltas ≤ slice_index_or self.new.rooms number 0) }
        ensures pages { self.new.pages ≡ self.old.pages }
        ensures offsets { self.new.offsets ≡ self.old.offsets }
        ensures spare { self.new.spare ≡ self.old.spare }
        ensures never_less { (page : ℕ) → slice_index_or self.old.rooms page 0 ≤ slice_index_or self.new.rooms page 0 }
    {
        if (number as usize) < self.rows.len() {
            return self.rows[number as usize].reserve(deltas);
        }
        Ok(())
    }

    /// Puts a base that is within the format, in the room that there is.
    pub(crate) fn put_base(&mut self, key: u32, base: BasePart)
        requires room { 0 < self.old.spare }
        requires within { IsTrue (is_base key (base_payload base) self.old.pages) }
        ensures pages { self.new.pages ≡ after_base key (base_payload base) self.old.pages }
        ensures offsets { self.new.offsets ≡ with_base_at key (base_offset base) self.old.offsets }
        ensures room { self.old.spare ≤ self.new.spare + 1 }
        ensures rooms { (page : ℕ) → slice_index_or self.old.rooms page 0 ≤ slice_index_or self.new.rooms page 0 }
    {
        if (key as usize) < self.rows.len() {
            self.rows[key as usize].put_base(base);
        } else {
            self.put_page(base);
        }
    }

    /// Puts a delta of a page that is there, in the room that there is.
    pub(crate) fn put_delta(&mut self, key: u32, part: KeptPart)
        requires there { key < length self.old.pages }
        requires room { 0 < slice_index_or self.old.rooms key 0 }
        ensures pages { self.new.pages ≡ after_delta key (payload_kept part) self.old.pages }
        ensures offsets { self.new.offsets ≡ with_delta_at key (offset_kept part) self.old.offsets }
        ensures spare { self.new.spare ≡ self.old.spare }
        ensures rooms { (page : ℕ) → slice_index_or self.old.rooms page 0
            ≤ slice_index_or self.new.rooms page 0 + (if key == page then 1 else 0) }
    {
        self.rows[key as usize].put_delta(part);
    }

    /// Whether the page has that low pair.
    fn has_low(&self, page: u32, term: &[u8], number: u32) -> bool
        ensures { result ≡ is_same (record { term = term.now; number = number }) (low_pair page self.now.pages) }
    {
        let (low_term, low_number) = low_at(&self.rows, page);
        term == low_term && number == low_number
    }

    /// Whether a page has that low pair. It is the page to which the pair belongs then.
    fn is_low(&self, term: &[u8], number: u32) -> bool
        ensures { result ≡ is_taken (record { term = term.now; number = number }) self.now.pages }
    {
        self.has_low(self.page_of(term, number), term, number)
    }

    /// Puts the first base of a new page.
    fn put_page(&mut self, base: BasePart)
        requires room { 0 < self.old.spare }
        requires within { IsTrue (is_base (length self.old.pages) (base_payload base) self.old.pages) }
        ensures pages { self.new.pages ≡ self.old.pages ++ with_base (base_payload base) ∷ [] }
        ensures offsets { self.new.offsets ≡ self.old.offsets ++ (base_offset base ∷ []) ∷ [] }
        ensures room { self.old.spare ≤ self.new.spare + 1 }
        ensures rooms { (page : ℕ) → slice_index_or self.old.rooms page 0 ≤ slice_index_or self.new.rooms page 0 }
    {
        let page = self.len();
        let at = place_of(&self.order, &self.rows, &base);
        insert_within(&mut self.order, at, page);
        let mut row = TermRow::new(self.alloc);
        row.put_base(base);
        self.rows.push_reserved(row);
    }
}

/// The low pair of a page, or the first of all where the page is not there.
fn low_at(rows: &[TermRow], page: u32) -> (&[u8], u32)
    ensures term { result.0.now ≡ (low_pair page (map page_in rows.now)).term }
    ensures number { result.1 ≡ (low_pair page (map page_in rows.now)).number }
{
    match rows.get(page as usize) {
        Some(row) => row.low(),
        None => (&[], 0),
    }
}

/// Whether the low pair of a page is not after the pair of a term and a number.
fn is_up_to(rows: &[TermRow], page: u32, term: &[u8], number: u32) -> bool
    ensures { result ≡ is_le (pair_cmp (low_pair page (map page_in rows.now)) (record { term = term.now; number = number })) }
{
    let (low_term, low_number) = low_at(rows, page);
    low_term.cmp(term).then(low_number.cmp(&number)).is_le()
}

/// How many pages have low pairs that are not after the pair of a term and a number.
fn count_up_to(order: &[u32], rows: &[TermRow], term: &[u8], number: u32) -> usize
    requires { IsOrderOf order.now (map page_in rows.now) }
    ensures { IsCountUpTo (record { term = term.now; number = number }) result order.now (map page_in rows.now) }
{
    order.partition_point(|page| is_up_to(rows, *page, term, number))
}

/// The page to which the pair of a term and a number belongs.
fn page_among(order: &[u32], rows: &[TermRow], term: &[u8], number: u32) -> u32
    requires { IsOrderOf order.now (map page_in rows.now) }
    ensures { IsPageOf (record { term = term.now; number = number }) result (map page_in rows.now) }
{
    // The low pair of page 0 is after no pair, so the count is not 0.
    let behind = count_up_to(order, rows, term, number);
    order[behind - 1]
}

/// The page with the next greater low pair, where there is one.
fn page_behind(order: &[u32], rows: &[TermRow], page: u32) -> Option<u32>
    requires order { IsOrderOf order.now (map page_in rows.now) }
    requires there { page < length rows.now }
    ensures found { IfSome result (λ next. IsNextPage page next (map page_in rows.now)) }
    ensures none { IfNone result (IsLastPage page (map page_in rows.now)) }
{
    let (term, number) = low_at(rows, page);
    let behind = count_up_to(order, rows, term, number);
    order.get(behind).copied()
}

/// The page with the next lower low pair, where there is one.
fn page_before(order: &[u32], rows: &[TermRow], page: u32) -> Option<u32>
    requires order { IsOrderOf order.now (map page_in rows.now) }
    requires there { page < length rows.now }
    ensures found { IfSome result (λ previous. IsPageBefore previous page (map page_in rows.now)) }
    ensures none { IfNone result (IsFirstPage page (map page_in rows.now)) }
{
    let (term, number) = low_at(rows, page);
    // The last of these is the page itself.
    let up_to = count_up_to(order, rows, term, number);
    if up_to < 2 {
        return None;
    }
    Some(order[up_to - 2])
}

/// The position in the order at which a new page would stand that has that base.
fn place_of(order: &[u32], rows: &[TermRow], base: &BasePart) -> usize
    requires { IsOrderOf order.now (map page_in rows.now) }
    ensures { IsCountUpTo (low_at_front (base_payload base.now)) result order.now (map page_in rows.now) }
{
    count_up_to(order, rows, &base.term, base.number)
}

/// Puts a page at a position of the order, in the room that there is.
fn insert_within(order: &mut Vec<u32>, at: usize, page: u32)
    requires position { at ≤ vec_len order.old }
    requires room { vec_len order.old < vec_capacity order.old }
    ensures items { order.new.items ≡ insert order.old.items at page }
    ensures room { vec_capacity order.new ≡ vec_capacity order.old }
    ensures len { vec_len order.new ≡ vec_len order.old + 1 }
{
    let put = order.insert(at, page);
    prove!(put.is_ok());
}

#[cfg(test)]
mod tests;
