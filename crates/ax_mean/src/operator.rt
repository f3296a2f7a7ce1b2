/// An operator between two operands. `<>` is `NotEqual`.
#[derive(Clone, Copy, Debug, PartialEq, Eq)]
pub enum BinaryOp {
    Equal,
    NotEqual,
    Less,
    LessEqual,
    Greater,
    GreaterEqual,
    Add,
    Subtract,
    Multiply,
    Divide,
    Remainder,
    /// `||`
    Join,
    And,
    Or,
    /// `??`
    Coalesce,
    Like,
}

/// An operator before its operand.
#[derive(Clone, Copy, Debug, PartialEq, Eq)]
pub enum UnaryOp {
    Not,
    Minus,
    Plus,
}

/// A function over the rows of a group.
#[derive(Clone, Copy, Debug, PartialEq, Eq)]
pub enum Aggregate {
    Count,
    Sum,
    Min,
    Max,
}

/// A function of its arguments. In the text of a query its name is `IS_DEFINED`, `STARTSWITH`,
/// `INDEX_OF` and so on, in letters of any case.
#[derive(Clone, Copy, Debug, PartialEq, Eq)]
pub enum Func {
    IsDefined,
    IsNull,
    IsBool,
    IsNumber,
    IsString,
    IsArray,
    IsObject,
    IsPrimitive,
    Abs,
    Sign,
    Length,
    Concat,
    StartsWith,
    EndsWith,
    Contains,
    IndexOf,
    Left,
    Right,
    Substring,
    Reverse,
    ToString,
    ArrayLength,
    ArrayContains,
    ArrayConcat,
    ArraySlice,
}
