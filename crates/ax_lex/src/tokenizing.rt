ghost use Rattle.std.specs.Prelude.{◌≡◌, IfOk, Err, List, Some, length};
ghost use Rattle.ax_lex.specs.declared.token.Token.{Token};
ghost use Rattle.ax_lex.specs.Lexeme.{Lexeme};
ghost use Rattle.ax_lex.specs.Lexemes.{lexemes_of};
ghost use Rattle.ax_lex.specs.LexemesIn.{lexemes_in};
ghost use Rattle.ax_lex.specs.Spans.{SpansRise};
ghost use Rattle.ax_lex.specs.Tokens.{AreTokens};

use crate::fault::LexFault;
use crate::lex::lex;
use crate::token::Token;
use std::alloc::Global;

/// The tokens of a query text. `LexFault::Text` where the grammar of tokens relates no list to it.
pub fn tokens(alloc: Global, text: &[u8]) -> Result<Vec<Token>, LexFault>
    // They are the tokens of the text, and say what their bytes say.
    ensures ok { IfOk result
        (λ found. AreTokens text.now found.items (lexemes_of text.now found.items)) }
    // What they say is what the text says.
    ensures lexemes { IfOk result
        (λ found. lexemes_in text.now ≡ Some (lexemes_of text.now found.items)) }
    ensures refused { result ≡ Err LexFault.Text
        → (tokens : List Token) (lexemes : List Lexeme) → ¬ (AreTokens text.now tokens lexemes) }

    // Their spans take a byte or more each, do not overlap, and stand in the text.
    ensures spans { IfOk result (λ found. SpansRise 0 found.items (length text.now)) }
{
    let Ok(_) = std::str::from_utf8(text) else {
        return Err(LexFault::Text);
    };
    lex(alloc, text)
}
