//! A window over a list on a disk, which is moved along it.

ghost use Rattle.std.specs.Prelude.{◌≤◌, length};

use std::alloc::{AllocError, Global};

/// How many bytes a window shows.
const WINDOW_BYTES: usize = 65_536;

/// Bytes of a list, from a place on: at least the head of a frame.
#[derive(Drop)]
pub(crate) struct Window {
    pub(crate) bytes: Vec<u8>,
    pub(crate) start: u64,
    ghost wide: { 9 ≤ length bytes.items },
}

/// A window that shows nothing yet.
pub(crate) fn blank_window(alloc: Global) -> Result<Window, AllocError> {
    let bytes = vec![in alloc; 0; WINDOW_BYTES]?;
    Ok(Window { bytes, start: 0 })
}
