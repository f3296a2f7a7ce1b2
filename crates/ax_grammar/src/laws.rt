//! Laws of the grammar, each the contract of a function that does nothing.

ghost use Rattle.std.specs.Prelude.{◌≡◌, ◌↔◌, List, ℕ, Some, false, not};
ghost use Rattle.ax_lex.specs.declared.token.Token.{Token};
ghost use Rattle.ax_lex.specs.Lexeme.{Lexeme};
ghost use Rattle.ax_lex.specs.Tokens.{AreTokens};
ghost use Rattle.ax_tree.specs.declared.members.Member.{Member};
ghost use Rattle.ax_tree.specs.declared.tree.Tree.{Tree};
ghost use Rattle.ax_mean.specs.declared.query.Query.{Query};
ghost use Rattle.ax_mean.specs.Aggregates.{has_aggregate, has_groups};
ghost use Rattle.ax_mean.specs.declared.expr.Expr.{Expr};
ghost use Rattle.ax_grammar.specs.Made.{made};
ghost use Rattle.ax_grammar.specs.Parts.{aggregates_fit};
ghost use Rattle.ax_grammar.specs.Query.{IsQuery, query_of, query_in};
ghost use Rattle.ax_grammar.specs.Scope.{is_grouped};
ghost use Rattle.ax_grammar.specs.Scoped.{IsScoped};
ghost use Rattle.ax_grammar.specs.Written.{Written};

/// With its parameters a text is one query at most.
pub fn a_text_is_one_query_at_most()
    ensures { (text : List ℕ) (params : List (Member Tree)) (a b : Query)
        → IsQuery text params a → IsQuery text params b → a ≡ b }
{}

/// The reader finds exactly the query that the grammar relates to a text and its parameters, from
/// what the tokens of the text say.
pub fn the_reader_finds_the_query()
    ensures { (text : List ℕ) (params : List (Member Tree)) (tokens : List Token)
        (lexemes : List Lexeme) (query : Query) → AreTokens text tokens lexemes
        → (query_of params text lexemes ≡ Some query) ↔ IsQuery text params query }
{}

/// The query in a text is exactly the one that the grammar relates to the text and its parameters.
pub fn the_query_in_a_text_is_its_query()
    ensures { (text : List ℕ) (params : List (Member Tree)) (query : Query)
        → (query_in params text ≡ Some query) ↔ IsQuery text params query }
{}

/// What a text writes is grouped, by GROUP BY or an aggregate, exactly where the query that is made
/// of it has groups.
pub fn a_query_has_groups_where_they_are_written()
    ensures { (written : Written) → has_groups (made written) ≡ is_grouped written }
{}

/// Where no aggregate is allowed, exactly the expressions without one fit.
pub fn no_aggregate_fits_where_none_is_allowed()
    ensures { (expr : Expr) → aggregates_fit expr false ≡ not (has_aggregate expr) }
{}

/// The rules of scope hold in each query that a text is.
pub fn a_query_is_scoped()
    ensures { (text : List ℕ) (params : List (Member Tree)) (query : Query)
        → IsQuery text params query → IsScoped query }
{}
