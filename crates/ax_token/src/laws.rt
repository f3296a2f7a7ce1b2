//! Laws of the definitions, each the contract of a function that does nothing.
ghost use Rattle.std.specs.Prelude.{◌≡◌, ℕ, List, ◌==◌, not, true};
ghost use Rattle.std.specs.List.{list_all};
ghost use Rattle.ax_token.specs.declared.page_token.PageToken as page_tokens;
ghost use Rattle.ax_token.specs.Words.{IsWordOf, token_word};

/// A word is that of at most one token.
pub fn one_token()
    ensures { (a : page_tokens.PageToken) (b : page_tokens.PageToken) (word : List ℕ)
        → IsWordOf a word → IsWordOf b word → a ≡ b }
{}

/// No word of a token holds a space, and so it is one word of a line.
pub fn no_space()
    ensures { (a : page_tokens.PageToken) → list_all (λ byte. not (byte == 32)) (token_word a) ≡ true }
{}
