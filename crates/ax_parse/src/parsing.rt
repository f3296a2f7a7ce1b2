//! The query that a text is.

ghost use Rattle.std.specs.Prelude.{◌≡◌, IfOk, Err, Some};
ghost use Rattle.ax_mean.specs.declared.query.Query.{Query};
ghost use Rattle.ax_grammar.specs.Query.{IsQuery, query_written};
ghost use Rattle.ax_grammar.specs.QueryReader.{read_written};
ghost use Rattle.ax_grammar.specs.Scoped.{IsScoped};
ghost use Rattle.ax_lex.specs.Lexemes.{lexemes_of};
ghost use Rattle.ax_lex.specs.Tokens.{AreTokens};
ghost use Rattle.ax_scope.specs.AsWritten.{written_of};
ghost use Rattle.ax_parse.specs.Reads.{IsValue};

use crate::expr::Parser;
use crate::fault::ParseFault;
use crate::lexeme::{Rest, lexemes};
use crate::params::Params;
use crate::query::written;
use ax_lex::{Token, tokens};
use ax_mean::{Members, Memory, Query, Tree};
use ax_scope::{Written, made, obeys_rules};
use std::alloc::Global;

/// The most bytes of a query.
const MOST_BYTES: usize = 16_384;

/// The query that a text is, with parameters whose names have their `@`, in which the rules of scope
/// hold. `ParseFault::Text` where it is none.
#[tactic(auto, using(crate::proofs::Whole::too_long, crate::proofs::Whole::is_found, crate::proofs::Whole::is_refused))]
pub fn parse(alloc: Global, text: &[u8], params: &Members<Tree>) -> Result<Query, ParseFault>
    ensures found { IfOk result (λ query. IsQuery text.now params.now query) }
    ensures scoped { IfOk result (λ query. IsScoped query) }
    ensures refused { result ≡ Err ParseFault.Text
        → (query : Query) → ¬ (IsQuery text.now params.now query) }
{
    if text.len() > MOST_BYTES {
        return Err(ParseFault::Text);
    }
    let tokens = tokens(alloc, text)?;
    from_tokens(alloc, text, &tokens, params)
}

/// The query that these tokens of the text are.
#[tactic(auto, using(crate::proofs::Words::words_utf8))]
fn from_tokens(
    alloc: Global,
    text: &[u8],
    tokens: &[Token],
    params: &Members<Tree>,
) -> Result<Query, ParseFault>
    ensures { AreTokens text.now tokens.now (lexemes_of text.now tokens.now)
        → IsValue result (query_written
        (read_written params.now (lexemes_of text.now tokens.now))) }
{
    let lexemes = lexemes(alloc, text, tokens)?;
    let params = Params::of(alloc, params)?;
    let parser = Parser {
        alloc,
        params: &params,
    };
    let written = written(&parser, Rest::of(&lexemes))?;
    allowed(alloc, written)
}

/// The query that is made of what is written, where the rules of scope allow it.
fn allowed(alloc: Global, written: Written) -> Result<Query, ParseFault>
    ensures { IsValue result (query_written (Some (written_of written))) }
{
    match obeys_rules(alloc, &written) {
        Ok(true) => Ok(made(alloc, written)?),
        Ok(false) => {
            drop(written);
            Err(ParseFault::Text)
        }
        Err(Memory) => {
            drop(written);
            Err(ParseFault::Memory)
        }
    }
}
