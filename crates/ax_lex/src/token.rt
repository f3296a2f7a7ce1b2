/// What a token is.
#[derive(Clone, Copy, Debug, PartialEq, Eq)]
pub enum TokenKind {
    /// A letter or `_`, then letters, digits and `_`, that is no keyword.
    Name,
    /// One of the words that the language keeps for itself, in any case: `Keyword::of` says which.
    Keyword,
    /// `@` and a word.
    Parameter,
    /// A text in single or double quotes: `text_value` says what stands in it.
    Text,
    /// A stretch of digits: `number` says its value.
    Number,
    /// A sign or two: `Symbol::of` says which.
    Symbol,
}

/// A token: its kind and its span in the text, the bytes from `start` up to `end`.
#[derive(Clone, Copy, Debug, PartialEq, Eq)]
pub struct Token {
    pub kind: TokenKind,
    pub start: usize,
    pub end: usize,
}

impl Token {
    ghost use Rattle.std.specs.Prelude.{◌≡◌};
    ghost use Rattle.ax_lex.specs.Lexemes.{bytes_of};

    /// The bytes of a token of this text.
    #[inline]
    pub fn bytes<'a>(&self, text: &'a [u8]) -> &'a [u8]
        ensures { result.now ≡ bytes_of text.now self.now }
    {
        let end = self.end.min(text.len());
        let start = self.start.min(end);
        &text[start..end]
    }
}
