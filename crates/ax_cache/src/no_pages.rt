//! The cache that holds nothing.

ghost use Rattle.ax_cache.specs.PageLaws.{no_pages, none_within};

use crate::page_cache::PageCache;
use crate::part_key::PartKey;

/// A cache with room for no key: each part is read from the disk.
#[derive(Drop)]
pub struct NoPages;

impl PageCache for NoPages {
    ghost pages = { λ _. no_pages };

    ghost room = { λ _. 0 };

    fn get(&mut self, _key: PartKey) -> Option<&[u8]> {
        None
    }

    #[tactic(auto, using(crate::specs::PageLaws::nothing_removed))]
    fn put(&mut self, _key: PartKey, _payload: &[u8]) -> bool {
        false
    }

    #[tactic(auto, using(crate::specs::PageLaws::nothing_removed))]
    fn drop_key(&mut self, _key: PartKey) {}

    ghost within_room = { λ _. none_within };
}
