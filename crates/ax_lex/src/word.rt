//! Words and stretches of digits.

ghost use Rattle.std.specs.Prelude.{◌≡◌, ◌≤◌, length, nat_lt};
ghost use Rattle.std.specs.List.{list_all};
ghost use Rattle.std.specs.Option.{option_map};
ghost use Rattle.ax_lex.specs.Bytes.{is_digit, is_word_byte};
ghost use Rattle.ax_lex.specs.Reading.{after_stretch, read_word};
ghost use Rattle.ax_lex.specs.Tokens.{is_word, most_of_a_word, spoils_number};

use crate::class::{is_digit, is_letter, is_word_byte};

/// The most bytes that a word has.
const MOST_OF_A_WORD: usize = 255;

/// Whether the whole text is a word, which may be a keyword: a letter or `_`, then letters, digits
/// and `_`, 255 bytes at most.
pub fn is_word(text: &[u8]) -> bool
    ensures { result ≡ is_word text.now }
{
    match text.split_first() {
        Some((first, rest)) => {
            is_letter(*first) && are_word_bytes(rest) && text.len() <= MOST_OF_A_WORD
        }
        None => false,
    }
}

fn are_word_bytes(bytes: &[u8]) -> bool
    ensures { result ≡ list_all is_word_byte bytes.now }
{
    bytes.iter().all(|byte| is_word_byte(*byte))
}

/// Takes the word at the front off: its bytes, and those after it.
#[inline]
pub(crate) fn split_word(bytes: &[u8]) -> Option<(&[u8], &[u8])>
    ensures { option_map (λ found. (found.0.now, found.1.now)) result ≡ read_word bytes.now }
{
    let (&first, rest) = bytes.split_first()?;
    if !is_letter(first) {
        return None;
    }
    let after = after_word(rest);
    let length = bytes.len() - after.len();
    if is_too_long(length) {
        return None;
    }
    Some((&bytes[..length], after))
}

/// Is a word of so many bytes no word?
#[inline]
fn is_too_long(length: usize) -> bool
    ensures { result ≡ nat_lt most_of_a_word length }
{
    length > MOST_OF_A_WORD
}

/// The bytes after those at the front that go on a word.
#[inline]
fn after_word(bytes: &[u8]) -> &[u8]
    ensures after { result.now ≡ after_stretch is_word_byte bytes.now }
    ensures within { length result.now ≤ length bytes.now }
{
    let mut rest = bytes;
    while let Some((&byte, after)) = rest.split_first() {
        if !is_word_byte(byte) {
            return rest;
        }
        rest = after;
    }
    rest
}

/// The bytes after the digits at the front.
#[inline]
pub(crate) fn after_digits(bytes: &[u8]) -> &[u8]
    ensures after { result.now ≡ after_stretch is_digit bytes.now }
    ensures within { length result.now ≤ length bytes.now }
{
    let mut rest = bytes;
    while let Some((&byte, after)) = rest.split_first() {
        if !is_digit(byte) {
            return rest;
        }
        rest = after;
    }
    rest
}

/// May a stretch of digits not stand directly before these bytes?
#[inline]
pub(crate) fn spoils_number(bytes: &[u8]) -> bool
    ensures { result ≡ spoils_number bytes.now }
{
    let Some((&byte, rest)) = bytes.split_first() else {
        return false;
    };
    if is_letter(byte) {
        return true;
    }
    if byte != b'.' {
        return false;
    }
    let Some((&next, _)) = rest.split_first() else {
        return false;
    };
    is_digit(next)
}
