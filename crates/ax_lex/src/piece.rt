//! The pieces that a text is made of between its quotes.

ghost use Rattle.std.specs.Prelude.{◌≡◌, ◌<◌, ◌+◌, ◌*◌, IfSome};
ghost use Rattle.std.specs.Option.{option_map};
ghost use Rattle.ax_lex.specs.Inside.{short_escape};
ghost use Rattle.ax_lex.specs.Reading.{after_byte, pair_character, piece_bytes, read_character, read_digit, read_digits, read_escape, read_piece, read_second, read_unit};

/// What a piece of a text stands for.
#[derive(Clone, Copy)]
pub enum Piece {
    /// A byte that stands for itself, or a character of ASCII that was escaped.
    Byte(u8),
    /// A character that was written by its number.
    Character(char),
}

/// Takes the piece at the front off: what it stands for, and the bytes after it.
#[inline]
#[tactic(auto, unfolding(crate::specs::Reading::read_piece))]
pub(crate) fn split_piece(bytes: &[u8]) -> Option<(Piece, &[u8])>
    ensures { option_map (λ found. (piece_bytes found.0, found.1.now)) result
        ≡ read_piece bytes.now }
{
    let (&byte, after) = bytes.split_first()?;
    if byte == b'\\' {
        split_escape(after)
    } else {
        Some((Piece::Byte(byte), after))
    }
}

/// The same for an escape, from behind its backslash on.
#[tactic(auto, unfolding(crate::specs::Reading::read_escape))]
fn split_escape(bytes: &[u8]) -> Option<(Piece, &[u8])>
    ensures { option_map (λ found. (piece_bytes found.0, found.1.now)) result
        ≡ read_escape bytes.now }
{
    let (&letter, after) = bytes.split_first()?;
    if let Some(byte) = short_escape(letter) {
        return Some((Piece::Byte(byte), after));
    }
    if letter == b'u' {
        split_character(after)
    } else {
        None
    }
}

/// The byte that a backslash and this letter stand for.
fn short_escape(letter: u8) -> Option<u8>
    ensures { result ≡ short_escape letter }
{
    match letter {
        b'\'' => Some(b'\''),
        b'"' => Some(b'"'),
        b'\\' => Some(b'\\'),
        b'/' => Some(b'/'),
        b'b' => Some(8),
        b'f' => Some(12),
        b'n' => Some(b'\n'),
        b'r' => Some(b'\r'),
        b't' => Some(b'\t'),
        _ => None,
    }
}

/// The same for a character by its number, from behind `\u` on.
#[tactic(auto, unfolding(crate::specs::Reading::read_character))]
fn split_character(bytes: &[u8]) -> Option<(Piece, &[u8])>
    ensures { option_map (λ found. (piece_bytes found.0, found.1.now)) result
        ≡ read_character bytes.now }
{
    let (unit, after) = split_digits(bytes)?;
    match char::from_u32(unit) {
        Some(character) => Some((Piece::Character(character), after)),
        None => split_second(unit, after),
    }
}

/// The same for a pair of surrogates, from behind the first of them on.
#[tactic(auto, unfolding(crate::specs::Reading::read_second))]
fn split_second(high: u32, bytes: &[u8]) -> Option<(Piece, &[u8])>
    ensures { option_map (λ found. (piece_bytes found.0, found.1.now)) result
        ≡ read_second high bytes.now }
{
    let (low, after) = split_unit(bytes)?;
    let character = character_of_pair(high, low)?;
    Some((Piece::Character(character), after))
}

/// The character of two surrogates.
fn character_of_pair(high: u32, low: u32) -> Option<char>
    ensures { result ≡ pair_character high low }
{
    match (high, low) {
        (0xD800..=0xDBFF, 0xDC00..=0xDFFF) => {
            char::from_u32(0x1_0000 + (high - 0xD800) * 0x400 + (low - 0xDC00))
        }
        _ => None,
    }
}

/// Takes `\u` and four hexadecimal digits off the front.
#[tactic(auto, unfolding(crate::specs::Reading::read_unit))]
fn split_unit(bytes: &[u8]) -> Option<(u32, &[u8])>
    ensures { option_map (λ found. (found.0, found.1.now)) result ≡ read_unit bytes.now }
{
    let letter = after_byte(b'\\', bytes)?;
    let digits = after_byte(b'u', letter)?;
    split_digits(digits)
}

/// The bytes after this one, where it is the first.
fn after_byte(byte: u8, bytes: &[u8]) -> Option<&[u8]>
    ensures { option_map (λ rest. rest.now) result ≡ after_byte byte bytes.now }
{
    let (&first, rest) = bytes.split_first()?;
    if first == byte { Some(rest) } else { None }
}

/// Takes four hexadecimal digits off the front: their value, and the bytes after them.
#[tactic(auto, unfolding(crate::specs::Reading::read_digits))]
fn split_digits(bytes: &[u8]) -> Option<(u32, &[u8])>
    ensures { option_map (λ found. (found.0, found.1.now)) result ≡ read_digits bytes.now }
{
    let (first, rest) = split_digit(0, bytes)?;
    let (second, rest) = split_digit(first, rest)?;
    let (third, rest) = split_digit(second, rest)?;
    split_digit(third, rest)
}

/// Takes a hexadecimal digit off the front, behind those of this value.
fn split_digit(high: u32, bytes: &[u8]) -> Option<(u32, &[u8])>
    requires { high < 65536 }
    ensures digit { option_map (λ found. (found.0, found.1.now)) result
        ≡ read_digit high bytes.now }
    ensures small { IfSome result (λ found. found.0 < 16 * high + 16) }
{
    let (&byte, rest) = bytes.split_first()?;
    let digit = (byte as char).to_digit(16)?;
    Some((16 * high + digit, rest))
}
