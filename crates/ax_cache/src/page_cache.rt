//! What a page cache is.

ghost use Rattle.std.specs.Prelude.{◌≡◌, ◌≤◌, ℕ, false, IsTrue, length, option_map, ⊤};
ghost use Rattle.std.specs.FinMap as map;
ghost use Rattle.std.specs.Borrow.{follows_so, sem};
ghost use mathlib.Core.Option.{none};
ghost use Rattle.ax_cache.specs.Pages.{CachedPages, most_bytes, IsPutWithin};

use crate::part_key::PartKey;

/// It keeps payloads by their keys, so that they need not be read again.
///
/// It may hold no key at all; who asks it has another way to what it does not hold.
pub trait PageCache {
    /// The payloads that it holds, by their keys.
    ghost pages: { Self → CachedPages };

    /// The greatest number of keys that it holds.
    ghost room: { Self → ℕ };

    /// The payload under a key. `None` exactly where it holds none.
    fn get(&mut self, key: PartKey) -> Option<&[u8]>
        ensures* kept { sem 𝓛 (follows_so Self.row Self.row self.entry.ghost_name none (λ _ _. ⊤)
            (λ after. (pages after ≡ pages self.old) × (room after ≡ room self.old))) }
        ensures payload { option_map (λ payload. payload.now) result ≡ map.get (pages self.old) key };

    /// Puts a payload under a key, in the place of an earlier one. Where the key is new and as many
    /// are held as there is room for, one other key is dropped.
    ///
    /// `false` exactly where there is room for none, or for want of memory: then nothing is held
    /// under the key.
    fn put(&mut self, key: PartKey, payload: &[u8]) -> bool
        requires { length payload.now ≤ most_bytes }
        ensures put { IsTrue result → IsPutWithin (room self.old) key payload.now (pages self.old) (pages self.new) }
        ensures refused { result ≡ false → pages self.new ≡ map.remove (pages self.old) key }
        ensures no_room { room self.old ≡ 0 → result ≡ false }
        ensures room { room self.new ≡ room self.old };

    /// Drops what is held under a key.
    fn drop_key(&mut self, key: PartKey)
        ensures dropped { pages self.new ≡ map.remove (pages self.old) key }
        ensures room { room self.new ≡ room self.old };

    /// It never holds more keys than there is room for.
    ghost within_room: { (cache : Self) → map.len (pages cache) ≤ room cache };
}
