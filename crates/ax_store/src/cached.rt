//! Bytes of the log's frames, read through a page cache.

ghost use Rattle.std.specs.Prelude.{◌≡◌, ◌+◌, ◌≤◌, ℕ, List, Some, None, true, false, length, take, drop, IsTrue, OnOk};
ghost use Rattle.std.specs.FinMap as map;
ghost use Rattle.ax_faults.specs.Faults.{HasCause};
ghost use Rattle.ax_disk.specs.model.Calls.{Idles};
ghost use Rattle.ax_pages.specs.Area.{frames_bytes};
ghost use Rattle.ax_log.specs.Log.{log_area, log_end, log_generation};
ghost use Rattle.ax_log.specs.Agreement.{Agrees};
ghost use Rattle.ax_pool.specs.Frames.{written_over};
ghost use Rattle.ax_store.specs.Cached.{HoldsParts, key_of};
ghost use Rattle.ax_store.specs.Reading.{IsFound, IsKept};

use crate::fault::number_of;
use ax_cache::{PageCache, PartKey};
use ax_disk::{Disk, DiskFailed};
use ax_log::Log;

/// The most bytes that a cache takes.
const MOST_BYTES: usize = 65_536;

/// Reads so many bytes of the log's frames, from an offset on, into the front of a frame: from the
/// cache, or else from the disk, and then the cache may hold them. It takes no memory but what the
/// cache takes.
pub(crate) fn read_bytes<D: Disk, C: PageCache>(
    log: &Log,
    cache: &mut C,
    disk: &mut D,
    from: u64,
    frame: &mut [u8],
    len: usize,
) -> Result<(), DiskFailed>
    requires room { len ≤ length frame.old }
    requires most { len ≤ 65536 }
    ensures read { IsTrue (D.is_honest disk.old) → (frames : List (List ℕ))
        → Agrees log.now frames (D.history disk.old (D.attached disk.old))
        → HoldsParts (C.pages cache.old) (log_area log.now) (log_generation log.now) (frames_bytes frames)
        → from + len ≤ log_end log.now
        → OnOk result (take len frame.new ≡ take len (drop from (frames_bytes frames))) }
    ensures caches { IsTrue (D.is_honest disk.old) → (frames : List (List ℕ))
        → Agrees log.now frames (D.history disk.old (D.attached disk.old))
        → HoldsParts (C.pages cache.old) (log_area log.now) (log_generation log.now) (frames_bytes frames)
        → from + len ≤ log_end log.now
        → HoldsParts (C.pages cache.new) (log_area log.now) (log_generation log.now) (frames_bytes frames) }
    ensures lists { IsTrue (D.is_honest disk.old)
        → Idles (D.history disk.old (D.attached disk.old)) (D.history disk.new (D.attached disk.new)) }
    ensures cause { HasCause result (D.faults disk.old) (D.faults disk.new) }
    ensures uncounted { OnOk result (D.faults disk.new ≡ D.faults disk.old) }
    ensures attached { D.attached disk.new ≡ D.attached disk.old }
    ensures honest { D.is_honest disk.new ≡ D.is_honest disk.old }
{
    let key = key_at(log, from);
    if take_cached(cache, key, frame, len) {
        return Ok(());
    }
    let (front, _) = frame.split_at_mut(len);
    read_through(log, cache, disk, key, front)
}

/// The key of bytes at an offset.
fn key_at(log: &Log, from: u64) -> PartKey
    ensures { result ≡ key_of (log_area log.now) (log_generation log.now) from }
{
    PartKey {
        area: number_of(log.area()),
        generation: log.generation(),
        offset: from,
    }
}

/// Fills a buffer with the bytes of a key from the disk, and gives them to the cache.
fn read_through<D: Disk, C: PageCache>(
    log: &Log,
    cache: &mut C,
    disk: &mut D,
    key: PartKey,
    buf: &mut [u8],
) -> Result<(), DiskFailed>
    requires most { length buf.old ≤ 65536 }
    ensures read { IsTrue (D.is_honest disk.old) → (frames : List (List ℕ))
        → Agrees log.now frames (D.history disk.old (D.attached disk.old))
        → key.offset + length buf.old ≤ log_end log.now
        → OnOk result (buf.new ≡ take (length buf.old) (drop key.offset (frames_bytes frames))) }
    ensures caches { IsTrue (D.is_honest disk.old) → (frames : List (List ℕ))
        → Agrees log.now frames (D.history disk.old (D.attached disk.old))
        → key ≡ key_of (log_area log.now) (log_generation log.now) key.offset
        → HoldsParts (C.pages cache.old) (log_area log.now) (log_generation log.now) (frames_bytes frames)
        → key.offset + length buf.old ≤ log_end log.now
        → HoldsParts (C.pages cache.new) (log_area log.now) (log_generation log.now) (frames_bytes frames) }
    ensures lists { IsTrue (D.is_honest disk.old)
        → Idles (D.history disk.old (D.attached disk.old)) (D.history disk.new (D.attached disk.new)) }
    ensures cause { HasCause result (D.faults disk.old) (D.faults disk.new) }
    ensures uncounted { OnOk result (D.faults disk.new ≡ D.faults disk.old) }
    ensures attached { D.attached disk.new ≡ D.attached disk.old }
    ensures honest { D.is_honest disk.new ≡ D.is_honest disk.old }
{
    let Ok(()) = read_disk(log, disk, key.offset, buf) else {
        return Err(DiskFailed);
    };
    keep(cache, key, buf);
    Ok(())
}

/// Fills a buffer with bytes of the log's frames from the disk.
pub(crate) fn read_disk<D: Disk>(
    log: &Log,
    disk: &mut D,
    from: u64,
    buf: &mut [u8],
) -> Result<(), DiskFailed>
    ensures read { IsTrue (D.is_honest disk.old) → (frames : List (List ℕ))
        → Agrees log.now frames (D.history disk.old (D.attached disk.old))
        → from + length buf.old ≤ log_end log.now
        → OnOk result (buf.new ≡ take (length buf.old) (drop from (frames_bytes frames))) }
    ensures lists { IsTrue (D.is_honest disk.old)
        → Idles (D.history disk.old (D.attached disk.old)) (D.history disk.new (D.attached disk.new)) }
    ensures cause { HasCause result (D.faults disk.old) (D.faults disk.new) }
    ensures uncounted { OnOk result (D.faults disk.new ≡ D.faults disk.old) }
    ensures attached { D.attached disk.new ≡ D.attached disk.old }
    ensures honest { D.is_honest disk.new ≡ D.is_honest disk.old }
{
    disk.read(log.area(), from, buf)
}

/// Gives bytes to the cache, which may hold them from then on.
fn keep<C: PageCache>(cache: &mut C, key: PartKey, bytes: &[u8])
    requires { length bytes.now ≤ 65536 }
    ensures { IsKept key bytes.now (C.pages cache.old) (C.pages cache.new) }
{
    let _kept = cache.put(key, bytes);
}

/// Puts the bytes that the cache holds under a key over the front of a frame, where they are so many.
/// `false`, with the frame as it was, where it holds none or not so many.
fn take_cached<C: PageCache>(cache: &mut C, key: PartKey, frame: &mut [u8], len: usize) -> bool
    requires { len ≤ length frame.old }
    ensures found { IsFound result (C.pages cache.old) key len frame.old frame.new }
    ensures pages { C.pages cache.new ≡ C.pages cache.old }
{
    match cache.get(key) {
        Some(bytes) => put_whole(frame, bytes, len),
        None => false,
    }
}

/// Writes bytes over the front of a frame, where they are so many.
fn put_whole(frame: &mut [u8], bytes: &[u8], len: usize) -> bool
    requires { len ≤ length frame.old }
    ensures put { IsTrue result → (length bytes.now ≡ len) × (frame.new ≡ written_over bytes.now frame.old) }
    ensures not { result ≡ false → frame.new ≡ frame.old }
{
    if bytes.len() != len {
        return false;
    }
    put_front(frame, bytes);
    true
}

/// Writes bytes over the front of a frame.
fn put_front(frame: &mut [u8], bytes: &[u8])
    requires { length bytes.now ≤ length frame.old }
    ensures { frame.new ≡ written_over bytes.now frame.old }
{
    let (front, _) = frame.split_at_mut(bytes.len());
    front.copy_from_slice(bytes);
}
