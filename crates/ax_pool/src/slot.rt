//! The right to use a frame.

use std::marker::PhantomData;

/// The right to use one frame of a pool, from when it is taken until it is given back.
///
/// Only the pool makes one, and it cannot be copied: so no two slots are of one frame. `P` is the
/// marker of its pool: where each pool has one of its own, no slot passes for one of another pool.
#[derive(Drop)]
pub struct Slot<P> {
    pub(crate) number: u32,
    pub(crate) of: PhantomData<P>,
}
