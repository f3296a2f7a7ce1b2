//! The cache that forgets what was used least recently.

ghost use Rattle.std.specs.Prelude.{◌≡◌, ◌≤◌, length};

use crate::out_of_memory::Memory;
use crate::page_cache::PageCache;
use crate::part_key::PartKey;
use lru::LruCache;
use std::alloc::Global;
use std::num::NonZeroUsize;

/// At most so many payloads, each in a vector of its own.
#[derive(Drop)]
pub struct LruPages {
    alloc: Global,
    pages: LruCache<PartKey, Vec<u8>>,
    ghost few: { length pages.entries ≤ pages.cap },
}

impl LruPages {
    ghost use Rattle.std.specs.Prelude.{◌≡◌, ◌≤◌, IfOk, IsTrue, false, option_map};
    ghost use Rattle.std.specs.FinMap as map;
    ghost use Rattle.ax_cache.specs.Pages.{IsPutWithin};
    ghost use Rattle.ax_cache.specs.Held.{held, room_of};

    /// A cache with room for so many payloads. `Memory` where there is none for its map.
    pub fn make(alloc: Global, n: u32) -> Result<LruPages, Memory>
        requires { 1 ≤ n }
        ensures pages { IfOk result (λ cache. held cache ≡ map.empty) }
        ensures room { IfOk result (λ cache. room_of cache ≡ n) }
    {
        let Some(room) = NonZeroUsize::new(n as usize) else {
            unreachable!()
        };
        let pages = LruCache::sparse(alloc, room)?;
        Ok(LruPages { alloc, pages })
    }

    /// Makes the payload under a key the one that was used last.
    fn promote(&mut self, key: PartKey)
        ensures pages { held self.new ≡ held self.old }
        ensures room { room_of self.new ≡ room_of self.old }
    {
        let _there = self.pages.promote(&key);
        let _count = self.pages.len();
    }

    /// The payload under a key.
    fn peek(&self, key: PartKey) -> Option<&[u8]>
        ensures { option_map (λ payload. payload.now) result ≡ map.get (held self.now) key }
    {
        match self.pages.peek(&key) {
            Some(payload) => Some(payload.as_slice()),
            None => None,
        }
    }

    /// Puts a payload under a key, as `put` does.
    fn put_owned(&mut self, key: PartKey, payload: Vec<u8>) -> bool
        ensures put { IsTrue result → IsPutWithin (room_of self.old) key payload.items (held self.old) (held self.new) }
        ensures refused { result ≡ false → held self.new ≡ map.remove (held self.old) key }
        ensures room { room_of self.new ≡ room_of self.old }
        ensures some { 1 ≤ room_of self.old }
    {
        let _before = self.pages.len();
        let put = self.pages.put(key, payload);
        let _count = self.pages.len();
        put.is_ok()
    }

    /// Forgets what is under a key.
    fn forget(&mut self, key: PartKey)
        ensures pages { held self.new ≡ map.remove (held self.old) key }
        ensures room { room_of self.new ≡ room_of self.old }
        ensures some { 1 ≤ room_of self.old }
    {
        let _before = self.pages.len();
        let _gone = self.pages.pop(&key);
        let _count = self.pages.len();
    }
}

impl PageCache for LruPages {
    ghost use Rattle.ax_cache.specs.Held.{held, room_of, few_held};

    ghost pages = { held };

    ghost room = { room_of };

    fn get(&mut self, key: PartKey) -> Option<&[u8]> {
        self.promote(key);
        self.peek(key)
    }

    fn put(&mut self, key: PartKey, payload: &[u8]) -> bool {
        match Vec::from_slice(self.alloc, payload) {
            Ok(payload) => self.put_owned(key, payload),
            Err(_) => {
                self.forget(key);
                false
            }
        }
    }

    fn drop_key(&mut self, key: PartKey) {
        self.forget(key);
    }

    ghost within_room = { few_held };
}
