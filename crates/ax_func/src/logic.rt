//! AND, OR and NOT over true, false and undefined, which is None.
ghost use Rattle.std.specs.Prelude.{◌≡◌};
ghost use Rattle.ax_mean.specs.Logic.{and_of, or_of, not_of};

/// Whether both are true.
pub fn and(a: Option<bool>, b: Option<bool>) -> Option<bool>
    ensures { result ≡ and_of a b }
{
    match (a, b) {
        (Some(false), _) | (_, Some(false)) => Some(false),
        (Some(true), Some(true)) => Some(true),
        _ => None,
    }
}

/// Whether one is true.
pub fn or(a: Option<bool>, b: Option<bool>) -> Option<bool>
    ensures { result ≡ or_of a b }
{
    match (a, b) {
        (Some(true), _) | (_, Some(true)) => Some(true),
        (Some(false), Some(false)) => Some(false),
        _ => None,
    }
}

/// Whether it is false.
pub fn not(a: Option<bool>) -> Option<bool>
    ensures { result ≡ not_of a }
{
    match a {
        Some(a) => Some(!a),
        None => None,
    }
}
