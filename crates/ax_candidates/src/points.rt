//! Points: ranges of one term, and the kinds of unions.

ghost use Rattle.std.specs.Prelude.{◌≡◌};
ghost use Rattle.ax_candidates.specs.Points.{are_of_one_term, is_of_one_term, kind_of};

use ax_term::TermRange;

/// The kinds of unions, by their ranges.
#[derive(Clone, Copy, Debug, PartialEq, Eq)]
pub(crate) enum Kind {
    /// One point, or no range.
    Point,
    /// Several points.
    Points,
    /// One range at least is no point.
    Ranges,
}

/// The kind of the union of these ranges.
pub(crate) fn kind_of(ranges: &[TermRange]) -> Kind
    ensures { result ≡ kind_of ranges.now }
{
    if !are_points(ranges) {
        Kind::Ranges
    } else if ranges.len() <= 1 {
        Kind::Point
    } else {
        Kind::Points
    }
}

/// Is each of the ranges that of one term?
fn are_points(ranges: &[TermRange]) -> bool
    ensures { result ≡ are_of_one_term ranges.now }
{
    for range in ranges {
        if !is_point(range) {
            return false;
        }
    }
    true
}

/// Is the range that of one term? It ends at that term with a byte 0 behind it, and no term is between the two.
#[tactic(auto, using(crate::proofs::OneTerm::ends_alike, crate::proofs::OneTerm::ends_apart))]
fn is_point(range: &TermRange) -> bool
    ensures { result ≡ is_of_one_term range.now }
{
    match range.below.as_slice().split_last() {
        Some((last, front)) => *last == 0 && front == range.from.as_slice(),
        None => false,
    }
}
