//! What a byte outside a text can begin or go on with.

ghost use Rattle.std.specs.Prelude.{◌≡◌};
ghost use Rattle.ax_lex.specs.Bytes.{class_of, is_word_byte, is_digit, is_letter};

/// What a byte outside a text is.
#[derive(Clone, Copy, Debug, PartialEq, Eq)]
pub enum ByteClass {
    /// A space, a tab, a carriage return or a newline.
    Space,
    /// A letter of ASCII, or `_`.
    Letter,
    /// `0` to `9`.
    Digit,
    /// A single or a double quote.
    Quote,
    /// `@`.
    At,
    /// Any other byte.
    Sign,
}

#[inline]
pub(crate) fn class_of(byte: u8) -> ByteClass
    ensures { result ≡ class_of byte }
{
    match byte {
        b' ' | b'\t' | b'\r' | b'\n' => ByteClass::Space,
        b'A'..=b'Z' | b'a'..=b'z' | b'_' => ByteClass::Letter,
        b'0'..=b'9' => ByteClass::Digit,
        b'\'' | b'"' => ByteClass::Quote,
        b'@' => ByteClass::At,
        _ => ByteClass::Sign,
    }
}

#[inline]
pub(crate) fn is_letter(byte: u8) -> bool
    ensures { result ≡ is_letter byte }
{
    match class_of(byte) {
        ByteClass::Letter => true,
        _ => false,
    }
}

#[inline]
pub(crate) fn is_digit(byte: u8) -> bool
    ensures { result ≡ is_digit byte }
{
    match class_of(byte) {
        ByteClass::Digit => true,
        _ => false,
    }
}

#[inline]
pub(crate) fn is_word_byte(byte: u8) -> bool
    ensures { result ≡ is_word_byte byte }
{
    match class_of(byte) {
        ByteClass::Letter | ByteClass::Digit => true,
        _ => false,
    }
}
