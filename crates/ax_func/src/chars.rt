//! A text as its characters, one after another.
ghost use Rattle.std.specs.Prelude.{◌≡◌, ◌<◌, ◌-◌, [], ◌∷◌, ◌++◌, MatchOption, length, take, drop};
ghost use Rattle.std.specs.Str.{chars, encode_utf8_all};

/// The first character of a text, and what follows it; none of the empty text.
pub fn first(text: &str) -> Option<(char, &str)>
    ensures { MatchOption result (chars text.now ≡ []) (λ p. (chars text.now ≡ p.0 ∷ chars p.1.now) × (length p.1.now < length text.now)) }
{
    let mut left = text.chars();
    let character = left.next()?;
    Some((character, left.as_str()))
}

/// What follows the first `count` characters; the empty text where there are fewer.
pub fn after(text: &str, count: usize) -> &str
    ensures { chars result.now ≡ drop count (chars text.now) }
{
    let mut rest = text;
    for done in 0..count {
        let Some((_, tail)) = first(rest) else {
            return rest;
        };
        rest = tail;
    }
    rest
}

/// The first `count` characters; all where there are fewer.
pub fn before(text: &str, count: usize) -> &str
    ensures { result.now ≡ encode_utf8_all (take count (chars text.now)) }
{
    let rest = after(text, count);
    &text[..text.len() - rest.len()]
}

/// The last `count` characters; all where there are fewer.
pub fn ending(text: &str, count: usize) -> &str
    ensures { result.now ≡ encode_utf8_all (drop (length (chars text.now) - count) (chars text.now)) }
{
    after(text, char_count(text).saturating_sub(count))
}

/// The last character of a text, and what comes before it; none of the empty text.
pub fn last(text: &str) -> Option<(char, &str)>
    ensures { MatchOption result (chars text.now ≡ []) (λ p. (chars text.now ≡ chars p.1.now ++ p.0 ∷ []) × (length p.1.now < length text.now)) }
{
    let mut left = text.chars();
    let Some(character) = left.next_back() else {
        return None;
    };
    Some((character, left.as_str()))
}

/// The number of characters.
pub fn char_count(text: &str) -> usize
    ensures { result ≡ length (chars text.now) }
{
    text.chars().count()
}
