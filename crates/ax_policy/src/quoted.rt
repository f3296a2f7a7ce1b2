//! Names between quotes.
ghost use Rattle.std.specs.Prelude.{◌≡◌, ◌++◌, IfOk, OnOk, IfSome, false, option_map};
ghost use Rattle.std.specs.Str.{IsUtf8};
ghost use Rattle.ax_policy.specs.Paths as spec;

use ax_mean::{Memory, Text};
use std::alloc::Global;

/// What a byte between quotes does.
#[derive(Clone, Copy, Debug, PartialEq, Eq)]
pub(crate) enum QuotedByte {
    /// It is a byte of the name.
    Stands,
    /// It is the backslash before a byte of the name.
    Escapes,
    /// It is the quote that closes the name.
    Closes,
    /// No name has it there.
    Wrong,
}

/// What a byte does that has a backslash before it, or none.
fn role_of(escaping: bool, byte: u8) -> QuotedByte
    ensures { result ≡ spec.role_of escaping byte }
{
    if escaping {
        return if is_escaped(byte) {
            QuotedByte::Stands
        } else {
            QuotedByte::Wrong
        };
    }
    match byte {
        b'"' => QuotedByte::Closes,
        b'\\' => QuotedByte::Escapes,
        _ => QuotedByte::Stands,
    }
}

/// Whether the byte stands behind a backslash in a quoted name.
pub(crate) fn is_escaped(byte: u8) -> bool
    ensures { result ≡ spec.is_escaped byte }
{
    byte == b'"' || byte == b'\\'
}

/// The name up to the quote that closes it, from behind the quote that opens it on, and what
/// follows.
pub(crate) fn quoted_name(alloc: Global, bytes: &[u8]) -> Result<Option<(Text, &[u8])>, Memory>
    requires { IsUtf8 bytes.now }
    ensures found { IfOk result
        (λ found. option_map (λ f. (f.0, f.1.now)) found ≡ spec.quoted false bytes.now) }
    ensures utf8 { IfOk result (λ found. IfSome found (λ f. IsUtf8 f.1.now)) }
{
    let found = quoted_bytes(alloc, bytes)?;
    match found {
        Some((name, rest)) => Ok(Some((text_from(name), rest))),
        None => Ok(None),
    }
}

/// The text of these bytes.
pub(crate) fn text_from(bytes: Vec<u8>) -> Text
    requires { IsUtf8 bytes.items }
    ensures { result ≡ bytes.items }
{
    Text::from_string(String::from_utf8(bytes).unwrap())
}

fn quoted_bytes(alloc: Global, bytes: &[u8]) -> Result<Option<(Vec<u8>, &[u8])>, Memory>
    ensures { IfOk result
        (λ found. option_map (λ f. (f.0.items, f.1.now)) found ≡ spec.quoted false bytes.now) }
{
    let mut name = Vec::new(alloc);
    let mut escaping = false;
    let mut rest = bytes;
    while let Some((byte, after)) = rest.split_first() {
        let role = role_of(escaping, *byte);
        match role {
            QuotedByte::Closes => return Ok(Some((name, after))),
            QuotedByte::Wrong => return Ok(None),
            _ => {}
        }
        push_standing(&mut name, role, *byte)?;
        escaping = escapes(role);
        rest = after;
    }
    Ok(None)
}

fn push_standing(name: &mut Vec<u8>, role: QuotedByte, byte: u8) -> Result<(), Memory>
    ensures { OnOk result (name.new.items ≡ name.old.items ++ spec.standing role byte) }
{
    match role {
        QuotedByte::Stands => name.push(byte)?,
        _ => {}
    }
    Ok(())
}

fn escapes(role: QuotedByte) -> bool
    ensures { result ≡ spec.escapes role }
{
    match role {
        QuotedByte::Escapes => true,
        _ => false,
    }
}
