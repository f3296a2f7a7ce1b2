//! The words that the language keeps for itself.

ghost use Rattle.std.specs.Prelude.{◌≡◌};
ghost use Rattle.std.specs.List.{find};
ghost use Rattle.std.specs.Str.{str_eq_ignore_ascii_case};
ghost use Rattle.ax_lex.specs.Keywords.{keyword_of, keywords_of, spelling};

/// A keyword. It is written in letters of any case.
#[derive(Clone, Copy, Debug, PartialEq, Eq)]
pub enum Keyword {
    Select,
    Top,
    Distinct,
    Value,
    As,
    From,
    Join,
    In,
    Where,
    Order,
    By,
    Asc,
    Desc,
    Group,
    Offset,
    Limit,
    And,
    Or,
    Not,
    Between,
    Like,
    Null,
    True,
    False,
    Undefined,
}

/// The keywords of so many letters.
fn keywords_of(letters: usize) -> &'static [Keyword]
    ensures { result.now ≡ keywords_of letters }
{
    match letters {
        2 => &[Keyword::As, Keyword::In, Keyword::By, Keyword::Or],
        3 => &[Keyword::Top, Keyword::Asc, Keyword::And, Keyword::Not],
        4 => &[
            Keyword::From,
            Keyword::Join,
            Keyword::Desc,
            Keyword::Like,
            Keyword::Null,
            Keyword::True,
        ],
        5 => &[
            Keyword::Value,
            Keyword::Where,
            Keyword::Order,
            Keyword::Group,
            Keyword::Limit,
            Keyword::False,
        ],
        6 => &[Keyword::Select, Keyword::Offset],
        7 => &[Keyword::Between],
        8 => &[Keyword::Distinct],
        9 => &[Keyword::Undefined],
        _ => &[],
    }
}

/// The first of these keywords that is spelled as the word, in letters of any case.
fn spelled_as(keywords: &[Keyword], word: &[u8]) -> Option<Keyword>
    ensures { result
        ≡ find (λ keyword. str_eq_ignore_ascii_case word.now (spelling keyword)) keywords.now }
{
    keywords
        .iter()
        .copied()
        .find(|keyword| keyword.is_spelled(word))
}

impl Keyword {
    /// The keyword that a word is, in letters of any case. `None` where it is none.
    pub fn of(word: &[u8]) -> Option<Keyword>
        ensures { result ≡ keyword_of word.now }
    {
        spelled_as(keywords_of(word.len()), word)
    }

    /// The keyword in capital letters.
    pub fn spelling(self) -> &'static [u8]
        ensures { result.now ≡ spelling self }
    {
        match self {
            Keyword::Select => b"SELECT",
            Keyword::Top => b"TOP",
            Keyword::Distinct => b"DISTINCT",
            Keyword::Value => b"VALUE",
            Keyword::As => b"AS",
            Keyword::From => b"FROM",
            Keyword::Join => b"JOIN",
            Keyword::In => b"IN",
            Keyword::Where => b"WHERE",
            Keyword::Order => b"ORDER",
            Keyword::By => b"BY",
            Keyword::Asc => b"ASC",
            Keyword::Desc => b"DESC",
            Keyword::Group => b"GROUP",
            Keyword::Offset => b"OFFSET",
            Keyword::Limit => b"LIMIT",
            Keyword::And => b"AND",
            Keyword::Or => b"OR",
            Keyword::Not => b"NOT",
            Keyword::Between => b"BETWEEN",
            Keyword::Like => b"LIKE",
            Keyword::Null => b"NULL",
            Keyword::True => b"TRUE",
            Keyword::False => b"FALSE",
            Keyword::Undefined => b"UNDEFINED",
        }
    }

    fn is_spelled(self, word: &[u8]) -> bool
        ensures { result ≡ str_eq_ignore_ascii_case word.now (spelling self) }
    {
        word.eq_ignore_ascii_case(self.spelling())
    }
}
