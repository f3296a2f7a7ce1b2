//! What a pool does with ample memory.
use crate::{FRAME_BYTES, Pool};
use std::test::Fail;

/// The marker of the test's pool.
struct TestFrames;

/// Three frames are taken, a fourth is not there; what was given back can be taken again.
#[test]
fn frames_are_taken_and_given_back(rt: HostRuntime) -> Result<(), Fail> {
    let mut pool = Pool::<TestFrames>::make(rt.alloc(), 2)?;
    let (Some(mut first), Some(second)) = (pool.take(), pool.take()) else {
        assert!(rt; false);
        return Ok(());
    };
    assert!(rt; pool.take().is_none());
    pool.bytes_mut(&mut first)[7] = 9;
    assert_eq!(rt; pool.bytes(&first)[7], 9);
    assert_eq!(rt; pool.bytes(&second)[7], 0);
    assert_eq!(rt; pool.bytes(&second).len(), FRAME_BYTES);
    pool.give(first);
    assert!(rt; pool.take().is_some());
    Ok(())
}
