//! What a text says.

ghost use Rattle.std.specs.Prelude.{◌≡◌, ◌++◌, Some, None, Ok, Err, IfOk, OnOk, length, string_bytes};
ghost use Rattle.ax_lex.specs.Lexemes.{text_of};
ghost use Rattle.ax_lex.specs.Reading.{piece_bytes, read_inside};

use crate::class::{ByteClass, class_of};
use crate::fault::LexFault;
use crate::piece::{Piece, split_piece};
use std::alloc::{AllocError, Global};

/// What stands between the quotes of a text token, its escapes undone. `LexFault::Text` where the
/// bytes are no text token, which the bytes of a token of that kind never are.
pub fn text_value(alloc: Global, bytes: &[u8]) -> Result<String, LexFault>
    ensures ok { IfOk result (λ value. text_of bytes.now ≡ Some (string_bytes value)) }
    ensures refused { result ≡ Err LexFault.Text → text_of bytes.now ≡ None }
{
    let Some((&quote, rest)) = bytes.split_first() else {
        return Err(LexFault::Text);
    };
    match class_of(quote) {
        ByteClass::Quote => {}
        _ => return Err(LexFault::Text),
    }
    let (value, after) = unescaped(alloc, quote, rest)?;
    if !after.is_empty() {
        return Err(LexFault::Text);
    }
    let Ok(value) = String::from_utf8(value) else {
        return Err(LexFault::Text);
    };
    Ok(value)
}

/// What stands before the quote that closes a text, from behind the one that opens it on, and the
/// bytes after.
fn unescaped(alloc: Global, quote: u8, bytes: &[u8]) -> Result<(Vec<u8>, &[u8]), LexFault>
    ensures ok { IfOk result
        (λ found. read_inside quote (length bytes.now) bytes.now
        ≡ Some (found.0.items, found.1.now)) }
    ensures refused { result ≡ Err LexFault.Text
        → read_inside quote (length bytes.now) bytes.now ≡ None }
{
    let mut value = Vec::with_capacity(alloc, bytes.len())?;
    let mut rest = bytes;
    for _turn in 0..bytes.len() {
        let Some((&byte, after)) = rest.split_first() else {
            return Err(LexFault::Text);
        };
        if byte == quote {
            return Ok((value, after));
        }
        let Some((piece, after)) = split_piece(rest) else {
            return Err(LexFault::Text);
        };
        push_piece(&mut value, piece)?;
        rest = after;
    }
    Err(LexFault::Text)
}

/// Writes what a piece stands for at the end.
#[inline]
fn push_piece(value: &mut Vec<u8>, piece: Piece) -> Result<(), AllocError>
    ensures { OnOk result (value.new.items ≡ value.old.items ++ piece_bytes piece) }
{
    match piece {
        Piece::Byte(byte) => value.push(byte)?,
        Piece::Character(character) => {
            let mut buffer = [0u8; 4];
            value.extend_from_slice(character.encode_utf8(&mut buffer).as_bytes())?;
        }
    }
    Ok(())
}
