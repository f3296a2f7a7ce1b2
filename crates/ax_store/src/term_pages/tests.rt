//! What term pages are found by pairs, worked by hand.

use crate::making::new_part;
use crate::out_of_memory::Memory;
use crate::pages::placed_base;
use crate::term_pages::TermPages;
use std::alloc::Global;
use std::test::Fail;

/// A new page comes between two others in the order: the low pairs are the first of all, ("f", 3)
/// and ("m", 5), and the pages 0, 2 and 1.
#[test]
fn a_new_page_comes_between_two_others(rt: HostRuntime) -> Result<(), Fail> {
    let alloc = rt.alloc();
    let mut pages = TermPages::new(alloc)?;
    assert_eq!(rt; put(alloc, &mut pages, 1, &[1, b'm', 5]), Ok(true));
    assert_eq!(rt; put(alloc, &mut pages, 2, &[1, b'f', 3]), Ok(true));
    assert_eq!(rt; pages.len(), 3);
    assert_eq!(rt; pages.page_of(b"", 0), 0);
    assert_eq!(rt; pages.page_of(b"e", 9), 0);
    assert_eq!(rt; pages.page_of(b"f", 2), 0);
    assert_eq!(rt; pages.page_of(b"f", 3), 2);
    assert_eq!(rt; pages.page_of(b"g", 0), 2);
    assert_eq!(rt; pages.page_of(b"m", 4), 2);
    assert_eq!(rt; pages.page_of(b"m", 5), 1);
    assert_eq!(rt; pages.page_of(b"z", 0), 1);
    assert_eq!(rt; next_page(&pages, 0), Some(2));
    assert_eq!(rt; next_page(&pages, 2), Some(1));
    assert_eq!(rt; next_page(&pages, 1), None);
    Ok(())
}

/// A base has the low pair of its page, and that of a new page is no page's.
#[test]
fn a_base_has_the_low_pair_of_its_page(rt: HostRuntime) -> Result<(), Fail> {
    let alloc = rt.alloc();
    let mut pages = TermPages::new(alloc)?;
    assert_eq!(rt; put(alloc, &mut pages, 1, &[1, b'm', 5]), Ok(true));
    assert!(rt; pages.admits_base(0, &[0, 0]));
    assert!(rt; !pages.admits_base(0, &[1, b'm', 5]));
    assert!(rt; pages.admits_base(1, &[1, b'm', 5, 7]));
    assert!(rt; !pages.admits_base(1, &[1, b'm', 6]));
    assert!(rt; pages.admits_base(2, &[1, b'm', 6]));
    assert!(rt; !pages.admits_base(2, &[1, b'm', 5]));
    assert!(rt; !pages.admits_base(2, &[0, 0]));
    assert!(rt; !pages.admits_base(2, &[1]));
    assert!(rt; !pages.admits_base(3, &[1, b'm', 6]));
    Ok(())
}

/// Puts a base where it is within the format, and answers whether it is.
fn put(alloc: Global, pages: &mut TermPages, key: u32, low: &[u8]) -> Result<bool, Memory> {
    pages.reserve(1)?;
    if low.len() > 9 || !pages.admits_base(key, low) {
        return Ok(false);
    }
    let new = new_part(alloc, 5, low)?;
    pages.put_base(key, placed_base(0, new));
    Ok(true)
}

fn next_page(pages: &TermPages, page: u32) -> Option<u32> {
    if page < pages.len() {
        pages.next(page)
    } else {
        None
    }
}
