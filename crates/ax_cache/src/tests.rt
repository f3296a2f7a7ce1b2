//! What the caches answer.
use crate::{LruPages, NoPages, PageCache, PartKey};
use std::test::Fail;

/// Asks a cache for a payload that was put into it.
fn answers<C: PageCache>(cache: &mut C) -> (bool, bool) {
    let key = key(9);
    let put = cache.put(key, &[7]);
    let found = cache.get(key).is_some();
    cache.drop_key(key);
    (put, found)
}

/// It takes no payload and has none.
#[test]
fn no_page_is_kept(rt: HostRuntime) {
    assert_eq!(rt; answers(&mut NoPages), (false, false));
}

/// The key of a part in the first area.
fn key(offset: u64) -> PartKey {
    PartKey {
        area: 1,
        generation: 1,
        offset,
    }
}

/// Of three payloads in a cache of two, that which was used least recently is forgotten.
#[test]
fn the_least_recent_goes(rt: HostRuntime) -> Result<(), Fail> {
    let mut cache = LruPages::make(rt.alloc(), 2)?;
    assert!(rt; cache.put(key(1), &[7]));
    assert!(rt; cache.put(key(2), &[8]));
    assert!(rt; cache.get(key(1)).is_some());
    assert!(rt; cache.put(key(3), &[9]));
    assert!(rt; cache.get(key(1)).is_some());
    assert!(rt; cache.get(key(2)).is_none());
    cache.drop_key(key(1));
    assert!(rt; cache.get(key(1)).is_none());
    Ok(())
}
