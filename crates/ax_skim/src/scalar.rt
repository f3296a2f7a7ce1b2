//! Scalars, read from their texts.
ghost use Rattle.std.specs.Prelude.{◌≡◌, ◌↔◌, ◌||◌, ◌==◌, ℕ, ℤ, List, true, Some, IfSome, IsTrue};
ghost use Rattle.std.specs.Char.{is_ascii_digit};
ghost use Rattle.std.specs.Fmt.{signed_decimal};
ghost use Rattle.std.specs.Option.{option_map};
ghost use Rattle.json.specs.Print.{quoted};
ghost use Rattle.ax_tree.specs.CanonicalText.{canonical_text};
ghost use Rattle.ax_tree.specs.WellFormed.{is_of_64_bits};
ghost use Rattle.ax_tree.specs.declared.tree.Tree as tree;
ghost use Rattle.ax_tree.specs.declared.tree.Tree.{Tree};
ghost use Rattle.ax_skim.specs.Members.{IsPlain};
ghost use Rattle.ax_skim.specs.Scalars.{scalar_tree, IsAtOnce, IsWordOf};

use crate::find::plain_text;
use crate::number::number_of;

/// A scalar that is told from its text at once, which keeps a text where it stands.
#[derive(Debug, Clone, Copy)]
pub enum Scalar<'t> {
    Null,
    Truth(bool),
    Number(i64),
    /// Bytes of UTF-8.
    Text(&'t [u8]),
}

/// The scalar that a canonical text writes; `None` of a text that is not told at once, which is one of
/// a list, of a map or with an escape, and of bytes that no scalar is written by.
pub fn read_scalar(text: &[u8]) -> Option<Scalar>
    ensures same { (tree : Tree) → text.now ≡ canonical_text tree
        → IfSome result (λ scalar. scalar_tree scalar ≡ tree) }
    ensures written { IfSome result (λ scalar. text.now ≡ canonical_text (scalar_tree scalar)) }
    ensures given { (tree : Tree) → IsAtOnce tree → text.now ≡ canonical_text tree
        → option_map scalar_tree result ≡ Some tree }
{
    let first = *text.first()?;
    if first == b'"' {
        read_text(text)
    } else if begins_number(first) {
        read_number(text)
    } else {
        read_word(text)
    }
}

/// The scalar that is a word of JSON.
#[inline]
fn read_word(text: &[u8]) -> Option<Scalar>
    ensures { IsWordOf text.now result }
{
    if is_same(text, b"null") {
        Some(Scalar::Null)
    } else if is_same(text, b"true") {
        Some(Scalar::Truth(true))
    } else if is_same(text, b"false") {
        Some(Scalar::Truth(false))
    } else {
        None
    }
}

#[inline]
fn is_same(text: &[u8], word: &[u8]) -> bool
    ensures { IsTrue result ↔ (text.now ≡ word.now) }
{
    text == word
}

#[inline]
#[tactic(auto, using(crate::proofs::Shapes::text_text))]
fn read_text(text: &[u8]) -> Option<Scalar>
    ensures same { (bytes : List ℕ) → text.now ≡ quoted bytes
        → IfSome result (λ scalar. scalar_tree scalar ≡ tree.Text bytes) }
    ensures written { IfSome result (λ scalar. text.now ≡ canonical_text (scalar_tree scalar)) }
    ensures given { (bytes : List ℕ) → IsPlain bytes → text.now ≡ quoted bytes
        → option_map scalar_tree result ≡ Some (tree.Text bytes) }
{
    Some(of_text(plain_text(text)?))
}

#[inline]
#[tactic(auto, using(crate::proofs::Shapes::number_text))]
fn read_number(text: &[u8]) -> Option<Scalar>
    ensures same { (number : ℤ) → text.now ≡ signed_decimal number
        → IfSome result (λ scalar. scalar_tree scalar ≡ tree.Number number) }
    ensures written { IfSome result (λ scalar. text.now ≡ canonical_text (scalar_tree scalar)) }
    ensures given { (number : ℤ) → is_of_64_bits number ≡ true → text.now ≡ signed_decimal number
        → option_map scalar_tree result ≡ Some (tree.Number number) }
{
    Some(of_number(number_of(text)?))
}

#[inline]
fn of_text(text: &[u8]) -> Scalar
    ensures { scalar_tree result ≡ tree.Text text.now }
{
    Scalar::Text(text)
}

#[inline]
fn of_number<'t>(number: i64) -> Scalar<'t>
    ensures { scalar_tree result ≡ tree.Number number }
{
    Scalar::Number(number)
}

#[inline]
fn begins_number(byte: u8) -> bool
    ensures { result ≡ (is_ascii_digit byte || (byte == 45)) }
{
    byte.is_ascii_digit() || byte == b'-'
}
