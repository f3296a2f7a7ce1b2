//! The place of an id, by a hash of its bytes.

ghost use Rattle.std.specs.Prelude.{◌≡◌, ◌<◌};
ghost use Rattle.ax_recent.specs.Hash.{hash_of, place_of};

/// The hash of no bytes.
const OFFSET_BASIS: u64 = 0xcbf29ce484222325;

/// What the hash is multiplied by at each byte.
const PRIME: u64 = 0x100000001b3;

/// The place of an id among so many.
#[tactic(auto, unfolding(crate::specs::Hash::place_of))]
pub(crate) fn place_of(id: &[u8], places: usize) -> usize
    requires { 0 < places }
    ensures place { result ≡ place_of id.now places }
    ensures within { result < places }
{
    (hash_of(id) % places as u64) as usize
}

/// The hash of bytes by FNV-1a, of 64 bits.
#[tactic(auto, unfolding(crate::specs::Hash::hash_of))]
fn hash_of(bytes: &[u8]) -> u64
    ensures { result ≡ hash_of bytes.now }
{
    let mut hash = OFFSET_BASIS;
    for byte in bytes {
        hash = (hash ^ u64::from(*byte)).wrapping_mul(PRIME);
    }
    hash
}
