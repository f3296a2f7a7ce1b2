//! What follows a text and what follows a value, found without memory.

ghost use Rattle.std.specs.Prelude.{◌≡◌, ◌<◌, ◌≤◌, length, None, IfSome, MatchOption, false};
ghost use Rattle.std.specs.Option.{option_map};
ghost use Rattle.ax_skim.specs.Skipping.{past_text, past_value};

use crate::nested::after_nested;
use crate::role::{ByteRole, role_of};
use memchr::memchr2;

/// What follows the quote that closes a text, from behind the one that opens it on.
pub(crate) fn after_text(text: &[u8]) -> Option<&[u8]>
    ensures after { option_map (λ after. after.now) result ≡ past_text false text.now }
    ensures shorter { IfSome result (λ after. length after.now < length text.now) }
{
    let mut rest = text;
    while let Some(here) = from_quote_or_backslash(rest) {
        let (&byte, after) = here.split_first()?;
        match role_of(byte) {
            ByteRole::Quote => return Some(after),
            ByteRole::Backslash => {
                let (_, behind) = after.split_first()?;
                rest = behind;
            }
            _ => rest = after,
        }
    }
    None
}

/// The rest of a text from its first quote or backslash on. The bytes before it do nothing.
#[tactic(auto, using(crate::proofs::Fronts::first_found))]
fn from_quote_or_backslash(text: &[u8]) -> Option<&[u8]>
    ensures same { MatchOption result (past_text false text.now ≡ None)
        (λ rest. past_text false rest.now ≡ past_text false text.now) }
    ensures within { IfSome result (λ rest. length rest.now ≤ length text.now) }
{
    match memchr2(b'"', b'\\', text) {
        Some(at) => Some(text.split_at(at).1),
        None => None,
    }
}

/// What follows a value: the rest from the comma or the bracket on that stands behind it. A member
/// is passed over in the same way, with its name.
#[tactic(auto, using(crate::proofs::Steps::steps))]
pub(crate) fn after_value(text: &[u8]) -> Option<&[u8]>
    ensures after { option_map (λ after. after.now) result ≡ past_value text.now }
    ensures within { IfSome result (λ after. length after.now ≤ length text.now) }
{
    let mut rest = text;
    while let Some((&byte, after)) = rest.split_first() {
        match role_of(byte) {
            ByteRole::Quote => rest = after_text(after)?,
            ByteRole::Opening => rest = after_nested(after)?,
            ByteRole::Closing | ByteRole::Comma => return Some(rest),
            ByteRole::Backslash | ByteRole::Other => rest = after,
        }
    }
    None
}
