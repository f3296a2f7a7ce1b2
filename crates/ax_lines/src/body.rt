use ax_tree::{Members, Text, Tree};

/// What a query asks: its text, and the values of its parameters.
#[derive(Debug, Drop)]
pub struct Body {
    /// The text of the query, in the query language.
    pub text: Text,
    /// The value of each parameter, under its name, which begins with `@`.
    pub params: Members<Tree>,
}
