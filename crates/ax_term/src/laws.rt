//! Laws of the definitions, each the contract of a function that does nothing.
ghost use Rattle.std.specs.Prelude.{◌≡◌, true};
ghost use Rattle.std.specs.Ordering.{is_le};
ghost use Rattle.ax_mean.specs.ValueOrder.{value_cmp};
ghost use Rattle.ax_mean.specs.declared.value.Value.{Value};
ghost use Rattle.ax_term.specs.CutValues.{cut_of};
ghost use Rattle.ax_term.specs.Fitting.{AreBytes, IsTerm};
ghost use Rattle.ax_term.specs.TermBytes.{term_bytes};
ghost use Rattle.ax_term.specs.TermOrder.{order_of_bytes, order_of_terms, order_of_values};
ghost use Rattle.ax_term.specs.Terms.{Term};

/// The order of the bytes of terms is the order of terms.
pub fn byte_order_is_term_order()
    ensures { (s t : Term) → IsTerm s → IsTerm t
        → order_of_bytes (term_bytes s) (term_bytes t) ≡ order_of_terms s t }
{}

/// Terms of equal bytes are equal.
pub fn equal_bytes_are_equal_terms()
    ensures { (s t : Term) → IsTerm s → IsTerm t → term_bytes s ≡ term_bytes t → s ≡ t }
{}

/// The bytes of a term are bytes.
pub fn terms_are_bytes()
    ensures { (t : Term) → IsTerm t → AreBytes (term_bytes t) }
{}

/// Cutting keeps the order of values: of two values the one that is not behind the other is not
/// behind it in terms. Two that are apart may be one there, where their texts begin alike.
pub fn cutting_keeps_the_order_of_values()
    ensures { (a b : Value) → is_le (value_cmp a b) ≡ true
        → is_le (order_of_values (cut_of a) (cut_of b)) ≡ true }
{}
