//! Page caches: what keeps payloads of parts in memory, under the place at which each stands.
//!
//! It stands on `lru`. Its one contract: what a cache answers under a key is what was put
//! there last; it forgets a key only by `drop_key`, by a `put` under that key that answers `false`,
//! or, where it is full, to make room for another.
#![tactic(auto)]

mod lru_pages;
mod no_pages;
mod out_of_memory;
mod page_cache;
mod part_key;

pub use lru_pages::LruPages;
pub use no_pages::NoPages;
pub use out_of_memory::Memory;
pub use page_cache::PageCache;
pub use part_key::PartKey;

#[cfg(test)]
mod tests;
