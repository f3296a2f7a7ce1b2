//! What is kept of a payload is taken from its bytes.

ghost use Rattle.std.specs.Prelude.{◌≡◌, ◌≤◌, ◌==◌, length, is_some, IfOk, IfSome, slice_index};
ghost use Rattle.ax_pages.specs.Contents.{next_in, now_in};
ghost use Rattle.ax_pages.specs.AfterPart.{low_at_front};
ghost use Rattle.ax_pages.specs.declared.numbers.TheConstants.{BASE};
ghost use Rattle.ax_store.specs.NewParts.{new_payload, new_low};

use crate::kept_part::KeptPart;
use crate::new_part::NewPart;
use crate::out_of_memory::Memory;
use ax_pages::numbers::BASE;
use ax_pair::split_low;
use ax_shown::Shown;
use std::alloc::Global;

const EMPTY: &[u8] = &[];

/// What is kept of a part of that kind and payload. It stands nowhere yet. Only a base takes memory,
/// for the term of its low pair.
pub(crate) fn new_part(alloc: Global, kind: u8, payload: &[u8]) -> Result<NewPart, Memory>
    requires { length payload.now ≤ 65536 }
    ensures payload { IfOk result (λ part. new_payload part ≡ payload.now) }
    ensures low { kind ≡ BASE → IfOk result (λ part. new_low part ≡ low_at_front payload.now) }
{
    let (next, policy_now) = match numbers_in(payload) {
        Some(numbers) => numbers,
        None => (0, 0),
    };
    let (front, number) = if kind == BASE {
        low_in(payload)
    } else {
        (EMPTY, 0)
    };
    let term = Vec::from_slice(alloc, front)?;
    let part = kept_of(payload);
    Ok(NewPart {
        part,
        next,
        policy_now,
        term,
        number,
    })
}

/// What is kept of a payload but for its place.
fn kept_of(payload: &[u8]) -> KeptPart
    requires { length payload.now ≤ 65536 }
    ensures { result.payload.bytes ≡ payload.now }
{
    let len = payload.len() as u32;
    let first = first_byte(payload);
    let payload = Shown::of(payload);
    KeptPart {
        at: 0,
        len,
        first,
        payload,
    }
}

fn first_byte(payload: &[u8]) -> u8
    ensures { result ≡ slice_index payload.now 0 }
{
    match payload.first() {
        Some(first) => *first,
        None => 0,
    }
}

/// The low pair at the front of a payload, or the first of all.
fn low_in(payload: &[u8]) -> (&[u8], u32)
    ensures { record { term = result.0.now; number = result.1 } ≡ low_at_front payload.now }
{
    match split_low(payload) {
        Some((term, number, _)) => (term, number),
        None => (EMPTY, 0),
    }
}

/// The two numbers in a payload of the meta, the next number and that of the policy now. `None` exactly where it has not
/// eight bytes.
pub(crate) fn numbers_in(payload: &[u8]) -> Option<(u32, u32)>
    ensures some { is_some result ≡ (length payload.now == 8) }
    ensures next { IfSome result (λ numbers. numbers.0 ≡ next_in payload.now) }
    ensures now { IfSome result (λ numbers. numbers.1 ≡ now_in payload.now) }
{
    let [n0, n1, n2, n3, p0, p1, p2, p3] = *payload else {
        return None;
    };
    let next = u32::from_le_bytes([n0, n1, n2, n3]);
    let now = u32::from_le_bytes([p0, p1, p2, p3]);
    Some((next, now))
}
