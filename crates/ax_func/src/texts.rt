//! The functions of texts.
ghost use Rattle.std.specs.Prelude.{◌≡◌, IfOk, pos, string_bytes, option_map};
ghost use Rattle.ax_mean.specs.TextFunctions.{count_of, left as left_text, right as right_text, substring as substring_text, reversed as reversed_text, begins_with, finishes_with, contains_text, place_of, index_of as index_of_text, text_length, joined_texts, as_string as shown_text, shown_tree as shown_bytes};

use crate::chars::{after, before, char_count, ending, last};
use crate::out_of_memory::Memory;
use crate::seen::Seen;
use crate::values::text_of;
use ax_mean::{Tree, write_tree};
use std::alloc::Global;

/// A number of characters or elements: 0 where it is negative.
pub fn count(number: i64) -> usize
    ensures { result ≡ count_of number }
{
    usize::try_from(number).unwrap_or(0)
}

pub fn left(alloc: Global, text: &str, number: i64) -> Result<String, Memory>
    ensures { IfOk result (λ s. string_bytes s ≡ left_text text.now number) }
{
    Ok(String::from_str(alloc, before(text, count(number)))?)
}

pub fn right(alloc: Global, text: &str, number: i64) -> Result<String, Memory>
    ensures { IfOk result (λ s. string_bytes s ≡ right_text text.now number) }
{
    Ok(String::from_str(alloc, ending(text, count(number)))?)
}

pub fn substring(alloc: Global, text: &str, start: i64, length: i64) -> Result<String, Memory>
    ensures { IfOk result (λ s. string_bytes s ≡ substring_text text.now start length) }
{
    if start < 0 || length < 0 {
        return Ok(String::new(alloc));
    }
    let rest = after(text, count(start));
    Ok(String::from_str(alloc, before(rest, count(length)))?)
}

pub fn reversed(alloc: Global, text: &str) -> Result<String, Memory>
    ensures { IfOk result (λ s. string_bytes s ≡ reversed_text text.now) }
{
    let mut reversed = String::with_capacity(alloc, text.len())?;
    let mut left = text;
    while let Some((character, rest)) = last(left) {
        reversed.push(character)?;
        left = rest;
    }
    Ok(reversed)
}

pub fn starts_with(text: &str, part: &str) -> bool
    ensures { result ≡ begins_with text.now part.now }
{
    text.starts_with(part)
}

pub fn ends_with(text: &str, part: &str) -> bool
    ensures { result ≡ finishes_with text.now part.now }
{
    text.ends_with(part)
}

pub fn contains(text: &str, part: &str) -> bool
    ensures { result ≡ contains_text text.now part.now }
{
    text.contains(part)
}

/// The number of characters of a text.
pub fn length(text: &str) -> Result<i64, Memory>
    ensures { IfOk result (λ n. n ≡ text_length text.now) }
{
    whole(char_count(text))
}

/// A length as a number. No text or list in memory is longer than the greatest number.
pub fn whole(length: usize) -> Result<i64, Memory>
    ensures { IfOk result (λ n. n ≡ pos length) }
{
    i64::try_from(length).map_err(|_| Memory)
}

/// The position of the first `part` in `text`, in characters; -1 where there is none.
pub fn index_of(text: &str, part: &str) -> Result<i64, Memory>
    ensures { IfOk result (λ n. n ≡ index_of_text text.now part.now) }
{
    match place(text, part) {
        Some(place) => whole(place),
        None => Ok(-1),
    }
}

fn place(text: &str, part: &str) -> Option<usize>
    ensures { result ≡ place_of text.now part.now }
{
    match text.find(part) {
        Some(at) => Some(char_count(&text[..at])),
        None => None,
    }
}

/// The texts joined; none where a value is no text.
pub fn joined(alloc: Global, values: &[Seen]) -> Result<Option<String>, Memory>
    ensures { IfOk result (λ text. option_map string_bytes text ≡ joined_texts values.now) }
{
    let mut text = String::with_capacity(alloc, room_for(values))?;
    for value in values {
        let Some(part) = text_of(value) else {
            return Ok(None);
        };
        text.push_str(part.as_str())?;
    }
    Ok(Some(text))
}

/// The bytes of all texts together.
fn room_for(values: &[Seen]) -> usize {
    let mut room = 0usize;
    for value in values {
        if let Some(text) = text_of(value) {
            room = room.saturating_add(text.as_str().len());
        }
    }
    room
}

fn shown_tree(alloc: Global, tree: &Tree) -> Result<String, Memory>
    ensures { IfOk result (λ s. string_bytes s ≡ shown_bytes tree.now) }
{
    match tree {
        Tree::Text(text) => Ok(String::from_str(alloc, text.as_str())?),
        _ => {
            let text = write_tree(alloc, tree)?;
            match String::from_utf8(text) {
                Ok(text) => Ok(text),
                Err(_) => Err(Memory),
            }
        }
    }
}

/// A text itself, of another tree its canonical text; none of undefined.
pub fn shown(alloc: Global, value: &Seen) -> Result<Option<String>, Memory>
    ensures { IfOk result (λ text. option_map string_bytes text ≡ shown_text value.now) }
{
    match value.tree() {
        None => Ok(None),
        Some(tree) => Ok(Some(shown_tree(alloc, tree)?)),
    }
}
