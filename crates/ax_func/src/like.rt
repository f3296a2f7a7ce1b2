//! LIKE in one pass, with one place in the text to return to.
ghost use Rattle.std.specs.Prelude.{◌≡◌, ◌<◌, ◌∷◌, ◌++◌, ℕ, List, Some, None, IfSome, MatchOption, length, true};
ghost use Rattle.std.specs.Str.{chars};
ghost use Rattle.ax_mean.specs.Like.{matches, some_rest, text_is_like, has_bracket as holds_bracket, fits as fits_place};
ghost use Rattle.ax_mean.specs.TextFunctions.{place_of};
ghost use Rattle.ax_func.specs.Pieces.{all_plain};

use crate::chars::{char_count, ending, first};

/// Whether the text is like the pattern; none where the pattern holds a bracket.
pub fn is_like(text: &str, pattern: &str) -> Option<bool>
    ensures { result ≡ text_is_like text.now pattern.now }
{
    if has_bracket(pattern) {
        None
    } else {
        Some(matches_whole(text, pattern))
    }
}

fn has_bracket(pattern: &str) -> bool
    ensures { result ≡ holds_bracket (chars pattern.now) }
{
    pattern.chars().any(|c| c == '[')
}

/// Goes along both up to the first `%`, before which each character has its place.
fn matches_whole(text: &str, pattern: &str) -> bool
    ensures { result ≡ matches (chars pattern.now) (chars text.now) }
{
    let mut text_left = text;
    let mut pattern_left = pattern;
    while let Some((wanted, pattern_rest)) = first(pattern_left) {
        if wanted == '%' {
            return matches_somewhere(text_left, pattern_rest);
        }
        let Some((found, text_rest)) = first(text_left) else {
            return false;
        };
        if !fits(wanted, found) {
            return false;
        }
        text_left = text_rest;
        pattern_left = pattern_rest;
    }
    text_left.is_empty()
}

fn fits(wanted: char, found: char) -> bool
    ensures { result ≡ fits_place wanted found }
{
    wanted == '_' || wanted == found
}

/// Whether some rest of the text matches the pattern. A piece of the pattern between two `%` stands
/// where it is first found: no later place leaves more of the text.
#[tactic(auto, using(crate::proofs::Pieces::found_first, crate::proofs::Pieces::found_nowhere))]
fn matches_somewhere(text: &str, pattern: &str) -> bool
    ensures { result ≡ some_rest (matches (chars pattern.now)) (chars text.now) }
{
    let mut text_left = text;
    let mut pattern_left = pattern;
    while let Some((piece, pattern_rest)) = split_at_percent(pattern_left) {
        if !is_plain(piece) {
            return matches_by_characters(text_left, pattern_left);
        }
        let Some(text_rest) = behind_first(text_left, piece) else {
            return false;
        };
        text_left = text_rest;
        pattern_left = pattern_rest;
    }
    if is_plain(pattern_left) {
        ends_with(text_left, pattern_left)
    } else {
        matches_by_characters(text_left, pattern_left)
    }
}

/// What stands before the first `%`, and what behind it.
fn split_at_percent(pattern: &str) -> Option<(&str, &str)>
    ensures { IfSome result (λ parts. (chars pattern.now
        ≡ chars parts.0.now ++ 37 ∷ chars parts.1.now)
        × (length parts.1.now < length pattern.now)) }
{
    match pattern.split_once('%') {
        Some((piece, rest)) => Some((piece, rest)),
        None => None,
    }
}

/// Does each character stand for itself?
fn is_plain(piece: &str) -> bool
    ensures { result ≡ all_plain (chars piece.now) }
{
    piece.chars().all(|c| c != '%' && c != '_')
}

/// What is behind the first place where the piece stands.
fn behind_first<'t>(text: &'t str, piece: &str) -> Option<&'t str>
    ensures { MatchOption result (place_of text.now piece.now ≡ None)
        (λ rest. (front : List ℕ) × (place_of text.now piece.now ≡ Some (length front))
        × (chars text.now ≡ front ++ (chars piece.now ++ chars rest.now))) }
{
    let (_, rest) = text.split_once(piece)?;
    Some(rest)
}

/// Whether the text ends with the piece, in which each character stands for itself.
#[tactic(auto, using(crate::proofs::Pieces::ends_there))]
fn ends_with(text: &str, piece: &str) -> bool
    requires { all_plain (chars piece.now) ≡ true }
    ensures { result ≡ some_rest (matches (chars piece.now)) (chars text.now) }
{
    ending(text, char_count(piece)) == piece
}

/// Whether some rest of the text matches the pattern, by one character after another.
fn matches_by_characters(text: &str, pattern: &str) -> bool
    ensures { result ≡ some_rest (matches (chars pattern.now)) (chars text.now) }
{
    // What is tried again, one character later, where what is left does not match.
    let mut tried_text = text;
    let mut tried_pattern = pattern;
    let mut text_left = text;
    let mut pattern_left = pattern;
    loop {
        match first(pattern_left) {
            Some(('%', pattern_rest)) => {
                // All before the `%` has its place: no earlier `%` need be tried again.
                tried_text = text_left;
                tried_pattern = pattern_rest;
                pattern_left = pattern_rest;
                continue;
            }
            Some((wanted, pattern_rest)) => {
                let Some((found, text_rest)) = first(text_left) else {
                    return false;
                };
                if fits(wanted, found) {
                    text_left = text_rest;
                    pattern_left = pattern_rest;
                    continue;
                }
            }
            None => {
                if text_left.is_empty() {
                    return true;
                }
            }
        }
        let Some((_, text_rest)) = first(tried_text) else {
            return false;
        };
        tried_text = text_rest;
        text_left = text_rest;
        pattern_left = tried_pattern;
    }
}
