ghost use Rattle.std.specs.Prelude.{◌≡◌};

/// Why a line is refused. A refused line changes nothing, and its reply is `err`, the number and the
/// word.
#[derive(Clone, Copy, Debug, PartialEq, Eq)]
pub enum Refusal {
    /// `err 1 line`: the line has more than 262,144 bytes, a carriage return at its end counted.
    Line,
    /// `err 2 command`: the line is none of the forms.
    Command,
    /// `err 3 json`: the argument is no JSON.
    Json,
    /// `err 4 number`: the argument holds a number that is not written as a whole one (`1.5`, but
    /// also `1.0`, `1e2` and `-0`), or is not of 64 bits.
    Number,
    /// `err 5 id`: the argument of a CREATE, UPSERT or REPLACE is no map, or has no text member `id`
    /// that may be an id; that of a DELETE or READ is not UTF-8, or may be no id.
    Id,
    /// `err 6 large`: the argument nests deeper than 100; or, for CREATE, UPSERT and REPLACE, a member
    /// name has more than 255 bytes, the canonical text more than 60,000, or the encoded path of a leaf
    /// more than 1,024; or the document has more than 4,096 terms, or these more than 1,048,576 bytes.
    Large,
    /// `err 7 conflict`: a CREATE is of an id that is held. No line is refused so before it meets the
    /// store.
    Conflict,
    /// `err 8 absent`: a REPLACE, DELETE or READ is of an id that is not held. No line is refused so
    /// before it meets the store.
    Absent,
    /// `err 9 memory`: out of memory.
    Memory,
    /// `err 10 query`: the argument of a QUERY is no query body, or the canonical text of its
    /// parameters has more than 32,768 bytes, or its text is with them no query of the grammar. The
    /// text is judged after the line is read.
    Query,
    /// `err 11 order`: the query has an ORDER BY for which the indexing policy now keeps no order.
    /// No line is refused so before its query is read.
    Order,
    /// `err 15 full`: a creation is asked for where 1,048,576 documents are there or the next
    /// number is 2^32 - 1. No line is refused so before it meets the store.
    Full,
}

impl Refusal {
    ghost use Rattle.ax_lines.specs.Refusals.{number_of, word_of};

    /// The number of the refusal in its reply.
    pub fn number(&self) -> u8
        ensures { result ≡ number_of self.now }
    {
        match self {
            Refusal::Line => 1,
            Refusal::Command => 2,
            Refusal::Json => 3,
            Refusal::Number => 4,
            Refusal::Id => 5,
            Refusal::Large => 6,
            Refusal::Conflict => 7,
            Refusal::Absent => 8,
            Refusal::Memory => 9,
            Refusal::Query => 10,
            Refusal::Order => 11,
            Refusal::Full => 15,
        }
    }

    /// The word of the refusal in its reply.
    pub fn word(&self) -> &'static str
        ensures { result.now ≡ word_of self.now }
    {
        match self {
            Refusal::Line => "line",
            Refusal::Command => "command",
            Refusal::Json => "json",
            Refusal::Number => "number",
            Refusal::Id => "id",
            Refusal::Large => "large",
            Refusal::Conflict => "conflict",
            Refusal::Absent => "absent",
            Refusal::Memory => "memory",
            Refusal::Query => "query",
            Refusal::Order => "order",
            Refusal::Full => "full",
        }
    }
}
