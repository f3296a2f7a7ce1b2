//! Signs that stand for themselves.

ghost use Rattle.std.specs.Prelude.{◌≡◌};
ghost use Rattle.ax_lex.specs.Symbols.{pair_symbol, single_symbol};

/// A symbol: one sign, or two that belong together.
#[derive(Clone, Copy, Debug, PartialEq, Eq)]
pub enum Symbol {
    /// `=`
    Equal,
    /// `!=`, and `<>` too.
    NotEqual,
    /// `<`
    Less,
    /// `<=`
    LessEqual,
    /// `>`
    Greater,
    /// `>=`
    GreaterEqual,
    /// `||`
    Join,
    /// `??`
    Coalesce,
    /// `?`
    Question,
    /// `:`
    Colon,
    /// `+`
    Plus,
    /// `-`
    Minus,
    /// `*`
    Star,
    /// `/`
    Slash,
    /// `%`
    Percent,
    /// `.`
    Dot,
    /// `,`
    Comma,
    /// `(`
    OpenParenthesis,
    /// `)`
    CloseParenthesis,
    /// `[`
    OpenBracket,
    /// `]`
    CloseBracket,
    /// `{`
    OpenBrace,
    /// `}`
    CloseBrace,
}

impl Symbol {
    ghost use Rattle.std.specs.Prelude.{◌≡◌};
    ghost use Rattle.ax_lex.specs.Symbols.{symbol_of};

    /// The symbol that these bytes are. `None` where they are none.
    #[inline]
    pub fn of(bytes: &[u8]) -> Option<Symbol>
        ensures { result ≡ symbol_of bytes.now }
    {
        match bytes {
            [sign] => single_symbol(*sign),
            [sign, next] => pair_symbol(*sign, *next),
            _ => None,
        }
    }
}

/// The symbol of two signs that belong together.
#[inline]
pub(crate) fn pair_symbol(sign: u8, next: u8) -> Option<Symbol>
    ensures { result ≡ pair_symbol sign next }
{
    match (sign, next) {
        (b'!', b'=') => Some(Symbol::NotEqual),
        (b'<', b'>') => Some(Symbol::NotEqual),
        (b'<', b'=') => Some(Symbol::LessEqual),
        (b'>', b'=') => Some(Symbol::GreaterEqual),
        (b'|', b'|') => Some(Symbol::Join),
        (b'?', b'?') => Some(Symbol::Coalesce),
        _ => None,
    }
}

/// The symbol of one sign.
#[inline]
pub(crate) fn single_symbol(sign: u8) -> Option<Symbol>
    ensures { result ≡ single_symbol sign }
{
    match sign {
        b'=' => Some(Symbol::Equal),
        b'<' => Some(Symbol::Less),
        b'>' => Some(Symbol::Greater),
        b'?' => Some(Symbol::Question),
        b':' => Some(Symbol::Colon),
        b'+' => Some(Symbol::Plus),
        b'-' => Some(Symbol::Minus),
        b'*' => Some(Symbol::Star),
        b'/' => Some(Symbol::Slash),
        b'%' => Some(Symbol::Percent),
        b'.' => Some(Symbol::Dot),
        b',' => Some(Symbol::Comma),
        b'(' => Some(Symbol::OpenParenthesis),
        b')' => Some(Symbol::CloseParenthesis),
        b'[' => Some(Symbol::OpenBracket),
        b']' => Some(Symbol::CloseBracket),
        b'{' => Some(Symbol::OpenBrace),
        b'}' => Some(Symbol::CloseBrace),
        _ => None,
    }
}
