//! The limits on paths.
ghost use Rattle.std.specs.Prelude.{◌≡◌, sum_by};
ghost use Rattle.std.specs.List.{list_all};
ghost use Rattle.ax_policy.specs.Limits as spec;

use ax_mean::{Step, Text};

/// The most bytes of a name.
const MOST_NAME_BYTES: usize = 255;

/// The most bytes of an encoded path, and of those of one composite together.
pub(crate) const MOST_PATH_BYTES: usize = 1_024;

/// Whether a path is within the limits.
pub(crate) fn is_short_path(steps: &[Step]) -> bool
    ensures { result ≡ spec.is_short_path steps.now }
{
    are_short_steps(steps) && left_by_path(MOST_PATH_BYTES, steps).is_some()
}

fn are_short_steps(steps: &[Step]) -> bool
    ensures { result ≡ list_all spec.is_short_step steps.now }
{
    for step in steps {
        if !is_short_step(step) {
            return false;
        }
    }
    true
}

fn is_short_step(step: &Step) -> bool
    ensures { result ≡ spec.is_short_step step.now }
{
    match step {
        Step::Name(name) => name.as_str().len() <= MOST_NAME_BYTES,
        Step::Item => true,
    }
}

/// What an encoded path leaves of some room; `None` where it does not fit.
pub(crate) fn left_by_path(room: usize, steps: &[Step]) -> Option<usize>
    ensures { result ≡ spec.left_by room (spec.path_size steps.now) }
{
    left_by_steps(room, steps)?.checked_sub(1)
}

fn left_by_steps(room: usize, steps: &[Step]) -> Option<usize>
    ensures { result ≡ spec.left_by room (sum_by spec.step_size steps.now) }
{
    let mut room = room;
    for step in steps {
        let Some(left) = left_by_step(room, step) else {
            return None;
        };
        room = left;
    }
    Some(room)
}

fn left_by_step(room: usize, step: &Step) -> Option<usize>
    ensures { result ≡ spec.left_by room (spec.step_size step.now) }
{
    match step {
        Step::Name(name) => left_by_name(room, name),
        Step::Item => room.checked_sub(1),
    }
}

fn left_by_name(room: usize, name: &Text) -> Option<usize>
    ensures { result ≡ spec.left_by room (spec.name_size name.now) }
{
    left_by_bytes(room, name.as_str().as_bytes())?.checked_sub(3)
}

fn left_by_bytes(room: usize, bytes: &[u8]) -> Option<usize>
    ensures { result ≡ spec.left_by room (sum_by spec.byte_size bytes.now) }
{
    let mut room = room;
    for byte in bytes {
        let Some(left) = room.checked_sub(byte_size(*byte)) else {
            return None;
        };
        room = left;
    }
    Some(room)
}

fn byte_size(byte: u8) -> usize
    ensures { result ≡ spec.byte_size byte }
{
    if byte == 0 { 2 } else { 1 }
}
