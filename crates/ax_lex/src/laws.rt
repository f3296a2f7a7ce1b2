//! Laws.

ghost use Rattle.std.specs.Prelude.{◌≡◌, ◌↔◌, List, [], ℕ, Some, length};
ghost use Rattle.std.specs.Str.{IsUtf8};
ghost use Rattle.ax_lex.specs.declared.token.Token.{Token};
ghost use Rattle.ax_lex.specs.declared.token.TokenKind.{TokenKind};
ghost use Rattle.ax_lex.specs.Lexeme.{Lexeme, kind_of};
ghost use Rattle.ax_lex.specs.Lexeme.Lexeme.{text as text_lexeme};
ghost use Rattle.ax_lex.specs.Lexemes.{lexemes_of, lexeme_as, text_of};
ghost use Rattle.ax_lex.specs.LexemesIn.{lexemes_in};
ghost use Rattle.ax_lex.specs.Spans.{SpansRise};
ghost use Rattle.ax_lex.specs.Tokens.{AreTokens, IsToken};

/// A text has one list of tokens at most, and they say one thing.
pub fn tokens_are_the_ones()
    ensures { (text : List ℕ) (a b : List Token) (x y : List Lexeme)
        → AreTokens text a x → AreTokens text b y → (a ≡ b) × (x ≡ y) }
{}

/// The lexemes that are read of a text are those of its tokens, and are read where it has tokens.
pub fn lexemes_in_a_text_are_those_of_its_tokens()
    ensures { (text : List ℕ) (lexemes : List Lexeme)
        → (lexemes_in text ≡ Some lexemes)
        ↔ ((tokens : List Token) × AreTokens text tokens lexemes) }
{}

/// What the tokens of a text say is what their bytes say.
pub fn tokens_say_what_their_bytes_say()
    ensures { (text : List ℕ) (tokens : List Token) (lexemes : List Lexeme)
        → AreTokens text tokens lexemes → lexemes ≡ lexemes_of text tokens }
{}

/// Bytes that are taken as a token of a kind say something of that kind.
pub fn bytes_say_their_kind()
    ensures { (kind : TokenKind) (bytes : List ℕ) → kind_of (lexeme_as kind bytes) ≡ kind }
{}

/// The tokens of a text stand one behind the other, and in it.
pub fn spans_of_tokens_rise()
    ensures { (text : List ℕ) (tokens : List Token) (lexemes : List Lexeme)
        → AreTokens text tokens lexemes → SpansRise 0 tokens (length text) }
{}

/// What `text_value` answers is what the grammar has for bytes that are one text token and no more.
pub fn texts_say_what_the_grammar_has()
    ensures { (bytes value : List ℕ)
        → (text_of bytes ≡ Some value) ↔ (IsToken (text_lexeme value) bytes [] × IsUtf8 value) }
{}
