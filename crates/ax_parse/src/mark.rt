//! Marks, and what is behind one.

ghost use Rattle.std.specs.Prelude.{◌≡◌};
ghost use Rattle.ax_grammar.specs.Fronts.{is_mark};
ghost use Rattle.ax_grammar.specs.Reading.{take};
ghost use Rattle.ax_parse.specs.Marks.{mark_of};
ghost use Rattle.ax_parse.specs.Reads.{Finds, Goes};
ghost use Rattle.ax_parse.specs.Said.{said, rest_said};

use crate::fault::ParseFault;
use crate::lexeme::{Lexeme, Rest};
use ax_lex::{Keyword, Symbol};

/// A lexeme that the grammar names.
#[derive(Clone, Copy, Debug)]
pub(crate) enum Mark {
    Symbol(Symbol),
    Keyword(Keyword),
}

impl Mark {
    /// Is the lexeme this mark?
    #[inline]
    fn is(self, lexeme: Lexeme) -> bool
        ensures { result ≡ is_mark (mark_of self) (said lexeme.entry) }
    {
        match (self, lexeme) {
            (Mark::Symbol(which), Lexeme::Symbol(other)) => which as u8 == other as u8,
            (Mark::Keyword(which), Lexeme::Keyword(other, _)) => which as u8 == other as u8,
            _ => false,
        }
    }
}

/// What is behind the mark, where it stands first.
#[inline]
pub(crate) fn behind(mark: Mark, lexemes: Rest<'_>) -> Option<Rest<'_>>
    ensures { Finds result (take (mark_of mark) (rest_said lexemes.entry)) }
{
    let (first, rest) = lexemes.split()?;
    if mark.is(first) { Some(rest) } else { None }
}

/// What is behind the mark, which has to stand first.
#[inline]
pub(crate) fn expect(mark: Mark, lexemes: Rest<'_>) -> Result<Rest<'_>, ParseFault>
    ensures { Goes result (take (mark_of mark) (rest_said lexemes.entry)) }
{
    behind(mark, lexemes).ok_or(ParseFault::Text)
}
