//! Arithmetic on whole numbers of 64 bits: the exact result, or none.
ghost use Rattle.std.specs.Prelude.{◌≡◌};
ghost use Rattle.ax_mean.specs.Arithmetic.{sum_of, difference_of, product_of, quotient_of, remainder_of, negative_of};

pub fn sum(a: i64, b: i64) -> Option<i64>
    ensures { result ≡ sum_of a b }
{
    a.checked_add(b)
}

pub fn difference(a: i64, b: i64) -> Option<i64>
    ensures { result ≡ difference_of a b }
{
    a.checked_sub(b)
}

pub fn product(a: i64, b: i64) -> Option<i64>
    ensures { result ≡ product_of a b }
{
    a.checked_mul(b)
}

/// None also where the quotient is not whole.
pub fn quotient(a: i64, b: i64) -> Option<i64>
    ensures { result ≡ quotient_of a b }
{
    if remainder(a, b)? == 0 {
        a.checked_div(b)
    } else {
        None
    }
}

/// With the sign of `a`.
pub fn remainder(a: i64, b: i64) -> Option<i64>
    ensures { result ≡ remainder_of a b }
{
    match b {
        0 => None,
        // The least number has no quotient by -1, and the remainder 0.
        -1 => Some(0),
        _ => Some(a % b),
    }
}

pub fn negative(a: i64) -> Option<i64>
    ensures { result ≡ negative_of a }
{
    a.checked_neg()
}
