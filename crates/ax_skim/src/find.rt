//! The member of a name, and the id, in the canonical text of a tree.

ghost use Rattle.std.specs.Prelude.{◌≡◌, ◌<◌, ◌==◌, ◌∷◌, ◌++◌, [], ℕ, List, length, Some, IfSome, IsSomeAnd};
ghost use Rattle.std.specs.Option.{option_map};
ghost use Rattle.std.specs.List.{list_all};
ghost use Rattle.json.specs.Print.{quoted};
ghost use Rattle.ax_tree.specs.declared.members.Member.{Member};
ghost use Rattle.ax_tree.specs.declared.tree.Tree.{Tree};
ghost use Rattle.ax_tree.specs.CanonicalText.{canonical_text};
ghost use Rattle.ax_tree.specs.Document.{member, value_of, document_id};
ghost use Rattle.ax_skim.specs.Members.{IsPlain, is_plain_byte, members_text, past_prefix, past_name, past_member};
ghost use Rattle.ax_skim.specs.Skipping.{past_value};

use crate::skip::after_value;

/// The text of the value under a name in the canonical text of a map; `None` where the tree is no
/// map or has no such member. What it answers about other bytes is not said. `name` is one that
/// JSON writes without an escape.
pub fn find_member<'a>(text: &'a [u8], name: &str) -> Option<&'a [u8]>
    requires plain { quoted name.now ≡ 34 ∷ name.now ++ 34 ∷ [] }
    ensures { (tree : Tree) → text.now ≡ canonical_text tree
        → option_map (λ value. value.now) result ≡ option_map canonical_text (member name.now tree) }
{
    let members = after_prefix(text, b"{")?;
    find_among(members, name.as_bytes())
}

/// The same, from behind the opening bracket on.
fn find_among<'a>(members: &'a [u8], name: &[u8]) -> Option<&'a [u8]>
    requires plain { IsPlain name.now }
    ensures { (those : List (Member Tree)) → members.now ≡ members_text those
        → option_map (λ value. value.now) result
        ≡ option_map canonical_text (value_of name.now those) }
{
    let mut rest = members;
    loop {
        if let Some(value) = after_name(rest, name) {
            return front_value(value);
        }
        rest = after_member(rest)?;
    }
}

/// What follows the name and its colon, where a member of that name is at the front.
fn after_name<'a>(members: &'a [u8], name: &[u8]) -> Option<&'a [u8]>
    ensures { option_map (λ after. after.now) result ≡ past_name name.now members.now }
{
    let inside = after_prefix(members, b"\"")?;
    let behind = after_prefix(inside, name)?;
    after_prefix(behind, b"\":")
}

/// What follows a prefix.
#[tactic(auto, using(crate::proofs::Prefixes::stripped))]
pub fn after_prefix<'a>(text: &'a [u8], prefix: &[u8]) -> Option<&'a [u8]>
    ensures { option_map (λ after. after.now) result ≡ past_prefix prefix.now text.now }
{
    text.strip_prefix(prefix)
}

/// What follows the member at the front and its comma, from behind the bracket of a map on; `None`
/// where it is the last one.
pub fn after_member(members: &[u8]) -> Option<&[u8]>
    ensures after { option_map (λ after. after.now) result ≡ past_member members.now }
    ensures shorter { IfSome result (λ after. length after.now < length members.now) }
{
    let (&byte, after) = after_value(members)?.split_first()?;
    if byte == b',' { Some(after) } else { None }
}

/// The text of the value at the front, and what follows it; `None` where no value ends.
pub fn split_value(text: &[u8]) -> Option<(&[u8], &[u8])>
    ensures given { (value : List ℕ) → (after : List ℕ) → text.now ≡ value ++ after
        → past_value text.now ≡ Some after
        → IsSomeAnd result (λ parts. (parts.0.now ≡ value) × (parts.1.now ≡ after)) }
    ensures after { option_map (λ parts. parts.1.now) result ≡ past_value text.now }
{
    let after = after_value(text)?;
    Some((&text[..text.len() - after.len()], after))
}

/// The text of the value at the front.
fn front_value(text: &[u8]) -> Option<&[u8]>
    ensures { (value : List ℕ) → (after : List ℕ) → text.now ≡ value ++ after
        → past_value text.now ≡ Some after → option_map (λ front. front.now) result ≡ Some value }
{
    let (value, _) = split_value(text)?;
    Some(value)
}

/// The text of a JSON string that has no escape, without its quotes; `None` of one that has, and of
/// what is no JSON string.
#[tactic(auto, using(crate::proofs::Escapes::unescaped, crate::proofs::Escapes::is_plain_text, crate::proofs::Escapes::written_plain, crate::proofs::Escapes::own_plain))]
pub fn plain_text(value: &[u8]) -> Option<&[u8]>
    ensures found { (text : List ℕ) → value.now ≡ quoted text
        → IfSome result (λ plain. plain.now ≡ text) }
    ensures given { (text : List ℕ) → IsPlain text → value.now ≡ quoted text
        → option_map (λ plain. plain.now) result ≡ Some text }
    ensures written { IfSome result (λ plain. IsPlain plain.now × (value.now ≡ quoted plain.now)) }
{
    let inside = inside_quotes(value)?;
    if is_plain(inside) { Some(inside) } else { None }
}

/// What stands between two quotes, at the ends.
fn inside_quotes(value: &[u8]) -> Option<&[u8]>
    ensures found { IfSome result (λ inside. value.now ≡ 34 ∷ inside.now ++ 34 ∷ []) }
    ensures given { (inside : List ℕ) → value.now ≡ 34 ∷ inside ++ 34 ∷ []
        → option_map (λ inside. inside.now) result ≡ Some inside }
{
    let (&first, rest) = value.split_first()?;
    let (&last, inside) = rest.split_last()?;
    if first == b'"' && last == b'"' {
        Some(inside)
    } else {
        None
    }
}

/// Whether what stands between quotes is written there without an escape, and is all of one text: no
/// control character, no quote and no backslash. It looks at all bytes, so that many are compared at
/// once.
fn is_plain(inside: &[u8]) -> bool
    ensures { result ≡ list_all is_plain_byte inside.now }
{
    let mut plain = true;
    for &byte in inside {
        plain = plain && byte >= b' ' && byte != b'"' && byte != b'\\';
    }
    plain
}

/// The id in the canonical text of a document; `None` also where it is written with an escape.
#[tactic(auto, unfolding(json::specs::Print::escape_byte))]
pub fn find_id(text: &[u8]) -> Option<&[u8]>
    ensures found { (tree : Tree) → (id : List ℕ) → text.now ≡ canonical_text tree
        → document_id tree ≡ Some id → IfSome result (λ found. found.now ≡ id) }
    ensures given { (tree : Tree) → (id : List ℕ) → text.now ≡ canonical_text tree
        → document_id tree ≡ Some id → IsPlain id
        → option_map (λ found. found.now) result ≡ Some id }
{
    plain_text(find_member(text, "id")?)
}
