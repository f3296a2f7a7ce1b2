//! What follows a list or a map, 64 bytes at a time.
ghost use Rattle.std.specs.Prelude.{◌≡◌, ◌+◌, ◌^◌, ◌<◌, ◌≤◌, length, false, None, IfSome, MatchOption};
ghost use Rattle.ax_skim.specs.Skipping.{outside, past};
ghost use Rattle.ax_skim.specs.Nested.{place_in};

use crate::blocks::block_at;
use crate::role::{ByteRole, role_of};
use crate::walking::{Walked, walk};

/// How far a nested value is passed over.
#[derive(Clone, Copy)]
struct Reached<'a> {
    rest: &'a [u8],
    /// How deep the value is nested there; 0 where it is closed.
    depth: usize,
    /// Whether a text goes on there.
    inside: bool,
}

/// What follows the bracket that closes the value, from behind the one that opens it on.
pub(crate) fn after_nested(text: &[u8]) -> Option<&[u8]>
    ensures after { MatchOption result (past outside 1 text.now ≡ None)
        (λ after. past outside 0 after.now ≡ past outside 1 text.now) }
    ensures within { IfSome result (λ after. length after.now ≤ length text.now) }
{
    let mut depth: usize = 1;
    let mut inside = false;
    let mut rest = text;
    while depth > 0 {
        match block_at(rest, inside) {
            Some(block) => match walk(block.brackets, block.opens, depth) {
                Walked::Closed(at) => return Some(rest.split_at(at + 1).1),
                Walked::Open(more) => {
                    depth = more;
                    inside = block.inside;
                    rest = rest.split_at(64).1;
                }
            },
            None => {
                let reached = pass_bytes(rest, depth, inside)?;
                depth = reached.depth;
                inside = reached.inside;
                rest = reached.rest;
            }
        }
    }
    Some(rest)
}

/// At most 64 bytes, one by one.
fn pass_bytes(text: &[u8], depth: usize, inside: bool) -> Option<Reached<'_>>
    requires depth { (1 ≤ depth) × (depth + length text.now < 2 ^ 64) }
    ensures same { MatchOption result (past (place_in inside) depth text.now ≡ None)
        (λ reached. past (place_in reached.inside) reached.depth reached.rest.now
        ≡ past (place_in inside) depth text.now) }
    ensures bound { IfSome result
        (λ reached. reached.depth + length reached.rest.now ≤ depth + length text.now) }
    ensures shorter { IfSome result (λ reached. length reached.rest.now < length text.now) }
    ensures closed { IfSome result (λ reached. reached.depth ≡ 0 → reached.inside ≡ false) }
{
    let mut rest = text;
    let mut depth = depth;
    let mut inside = inside;
    let mut left: usize = 64;
    while left > 0 {
        left -= 1;
        let (&byte, after) = rest.split_first()?;
        rest = after;
        if inside {
            match role_of(byte) {
                ByteRole::Quote => inside = false,
                ByteRole::Backslash => {
                    let (_, behind) = rest.split_first()?;
                    rest = behind;
                }
                _ => {}
            }
        } else {
            match role_of(byte) {
                ByteRole::Quote => inside = true,
                ByteRole::Opening => depth += 1,
                ByteRole::Closing => {
                    if depth == 1 {
                        return Some(Reached {
                            rest,
                            depth: 0,
                            inside: false,
                        });
                    }
                    depth -= 1;
                }
                _ => {}
            }
        }
    }
    Some(Reached {
        rest,
        depth,
        inside,
    })
}
