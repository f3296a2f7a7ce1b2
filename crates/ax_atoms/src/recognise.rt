//! The condition that an expression is, with its ranges.
ghost use Rattle.std.specs.Prelude.{◌≡◌, ◌∷◌, [], Some, None, IfOk, false, map};
ghost use Rattle.ax_mean.specs.Values.{text_of as text_in};
ghost use Rattle.ax_term.specs.CutValues.{cut_value};
ghost use Rattle.ax_term.specs.Terms.{Term};
ghost use Rattle.ax_atoms.specs.Atoms.{Atom};
ghost use Rattle.ax_atoms.specs.Conjuncts.{conjunct_of};
ghost use Rattle.ax_atoms.specs.Constants.{are_alike, bound_in, constant_value, is_cut_number, is_cut_text, range_in, ranges_in};
ghost use Rattle.ax_atoms.specs.Recognised as spec;
ghost use Rattle.ax_atoms.specs.Spans as spans;

use crate::conjunct::{Conjunct, RangeList};
use crate::constant::{Constant, constant_of};
use crate::path::property_path;
use crate::ranges;
use ax_mean::{BinaryOp, Expr, ExprList, Func, Items, Memory, Path, Step, Text};
use ax_term::{TermRange, TermValue};
use std::alloc::Global;

/// The condition that an expression is, where the alias stands for the document.
pub(crate) fn recognised(alloc: Global, alias: &Text, expr: &Expr) -> Result<Conjunct, Memory>
    ensures { IfOk result (λ found. found ≡ conjunct_of (spec.recognised alias.now expr.now)) }
{
    match expr {
        Expr::Compare(op, left, right) => compared(alloc, alias, *op, left.get(), right.get()),
        Expr::Among {
            negated: false,
            left,
            items,
        } => among(alloc, alias, left.get(), items),
        Expr::Between {
            negated: false,
            left,
            low,
            high,
        } => { between(alloc, alias, left.get(), low.get(), high.get()) }
        Expr::Call(Func::IsDefined, args) => defined_in(alloc, alias, args),
        Expr::Call(Func::StartsWith, args) => begins_in(alloc, alias, args),
        Expr::Call(Func::ArrayContains, args) => holds_in(alloc, alias, args),
        _ => Ok(unrecognised(alloc)),
    }
}

/// The conjunct of a condition that an index does not answer.
pub(crate) fn unrecognised(alloc: Global) -> Conjunct
    ensures { result ≡ conjunct_of None }
{
    Conjunct {
        paths: Items::new(alloc),
        whole: false,
        ranges: None,
    }
}

/// The conjunct of a condition on the path, with one range of terms.
fn on_path(alloc: Global, path: Path, whole: bool, range: TermRange) -> Result<Conjunct, Memory>
    ensures { IfOk result (λ found. found ≡ record {
      paths = path ∷ [];
      whole = whole;
      ranges = Some (range ∷ []);
    }) }
{
    let mut ranges = Items::new(alloc);
    ranges.push(range)?;
    let mut paths = Items::new(alloc);
    paths.push(path)?;
    Ok(Conjunct {
        paths,
        whole,
        ranges: Some(ranges),
    })
}

/// A comparison of the property with a constant, on either side.
fn compared(
    alloc: Global,
    alias: &Text,
    op: BinaryOp,
    left: &Expr,
    right: &Expr,
) -> Result<Conjunct, Memory>
    ensures { IfOk result (λ found. found ≡ conjunct_of (spec.compared alias.now op left.now right.now)) }
{
    match property_path(alloc, alias, left)? {
        Some(path) => compared_with(alloc, op, path, &constant_of(right)),
        None => turned(alloc, alias, op, left, right),
    }
}

/// The same, where the property is not on the left.
fn turned(
    alloc: Global,
    alias: &Text,
    op: BinaryOp,
    left: &Expr,
    right: &Expr,
) -> Result<Conjunct, Memory>
    ensures { IfOk result (λ found. found ≡ conjunct_of (spec.with_path
        (λ path. spec.compared_with (spec.turned op) path (spec.constant left.now)) (spec.property_path alias.now right.now))) }
{
    match property_path(alloc, alias, right)? {
        Some(path) => compared_with(alloc, turned_op(op), path, &constant_of(left)),
        None => Ok(unrecognised(alloc)),
    }
}

/// The operator when its operands are exchanged.
fn turned_op(op: BinaryOp) -> BinaryOp
    ensures { result ≡ spec.turned op }
{
    match op {
        BinaryOp::Less => BinaryOp::Greater,
        BinaryOp::LessEqual => BinaryOp::GreaterEqual,
        BinaryOp::Greater => BinaryOp::Less,
        BinaryOp::GreaterEqual => BinaryOp::LessEqual,
        other => other,
    }
}

/// The comparison of the property at the path with a constant.
fn compared_with(
    alloc: Global,
    op: BinaryOp,
    path: Path,
    k: &Constant<'_>,
) -> Result<Conjunct, Memory>
    ensures { IfOk result (λ found. found ≡ conjunct_of (spec.compared_with op path (constant_value k.now))) }
{
    match op {
        BinaryOp::Equal => equals(alloc, path, k),
        BinaryOp::Less => at_most(alloc, path, k),
        BinaryOp::LessEqual => at_most(alloc, path, k),
        BinaryOp::Greater => at_least(alloc, path, k),
        BinaryOp::GreaterEqual => at_least(alloc, path, k),
        _ => Ok(unrecognised(alloc)),
    }
}

/// `P = k`
fn equals(alloc: Global, path: Path, k: &Constant<'_>) -> Result<Conjunct, Memory>
    ensures { IfOk result (λ found. found
        ≡ conjunct_of (spec.answered (Atom.Equals path (constant_value k.now)))) }
{
    let Some(value) = k.single(alloc)? else {
        return Ok(unrecognised(alloc));
    };
    let range = ranges::only(alloc, &path, &value)?;
    on_path(alloc, path, false, range)
}

/// `P <= k`, and `P < k`, whose range has the term of k too.
fn at_most(alloc: Global, path: Path, k: &Constant<'_>) -> Result<Conjunct, Memory>
    ensures { IfOk result (λ found. found
        ≡ conjunct_of (spec.answered (Atom.AtMost path (constant_value k.now)))) }
{
    let Some(value) = k.bound(alloc)? else {
        return Ok(unrecognised(alloc));
    };
    let range = ranges::at_most(alloc, &path, &value)?;
    on_path(alloc, path, false, range)
}

/// `P >= k`, and `P > k`, whose range has the term of k too.
fn at_least(alloc: Global, path: Path, k: &Constant<'_>) -> Result<Conjunct, Memory>
    ensures { IfOk result (λ found. found
        ≡ conjunct_of (spec.answered (Atom.AtLeast path (constant_value k.now)))) }
{
    let Some(value) = k.bound(alloc)? else {
        return Ok(unrecognised(alloc));
    };
    let range = ranges::at_least(alloc, &path, &value)?;
    on_path(alloc, path, false, range)
}

/// `IS_DEFINED(P)`
fn defined_in(alloc: Global, alias: &Text, args: &ExprList) -> Result<Conjunct, Memory>
    ensures { IfOk result (λ found. found ≡ conjunct_of (spec.defined_in alias.now args.now)) }
{
    let [value] = args.as_slice() else {
        return Ok(unrecognised(alloc));
    };
    match property_path(alloc, alias, value)? {
        Some(path) => exists(alloc, path),
        None => Ok(unrecognised(alloc)),
    }
}

/// That there is something at the path.
fn exists(alloc: Global, path: Path) -> Result<Conjunct, Memory>
    ensures { IfOk result (λ found. found ≡ conjunct_of (Some (Atom.Exists path))) }
{
    let range = ranges::all_below(alloc, &path)?;
    on_path(alloc, path, true, range)
}

/// `STARTSWITH(P, k)`
fn begins_in(alloc: Global, alias: &Text, args: &ExprList) -> Result<Conjunct, Memory>
    ensures { IfOk result (λ found. found ≡ conjunct_of (spec.begins_in alias.now args.now)) }
{
    let [value, front] = args.as_slice() else {
        return Ok(unrecognised(alloc));
    };
    match property_path(alloc, alias, value)? {
        Some(path) => beginning(alloc, path, &constant_of(front)),
        None => Ok(unrecognised(alloc)),
    }
}

/// That the text at the path begins with the constant, where that is a text.
fn beginning(alloc: Global, path: Path, k: &Constant<'_>) -> Result<Conjunct, Memory>
    ensures { IfOk result (λ found. found ≡ conjunct_of (spec.beginning path (text_in (constant_value k.now)))) }
{
    let Some(text) = k.text() else {
        return Ok(unrecognised(alloc));
    };
    let range = ranges::beginning(alloc, &path, text.as_bytes())?;
    on_path(alloc, path, false, range)
}

/// `ARRAY_CONTAINS(P, k)`
fn holds_in(alloc: Global, alias: &Text, args: &ExprList) -> Result<Conjunct, Memory>
    ensures { IfOk result (λ found. found ≡ conjunct_of (spec.holds_in alias.now args.now)) }
{
    let [value, item] = args.as_slice() else {
        return Ok(unrecognised(alloc));
    };
    match property_path(alloc, alias, value)? {
        Some(path) => holds(alloc, path, &constant_of(item)),
        None => Ok(unrecognised(alloc)),
    }
}

/// That the list at the path has the constant, where that is a scalar.
fn holds(alloc: Global, path: Path, k: &Constant<'_>) -> Result<Conjunct, Memory>
    ensures { IfOk result (λ found. found ≡ conjunct_of
        (spec.answered (Atom.Holds path (constant_value k.now)))) }
{
    let Some(value) = k.single(alloc)? else {
        return Ok(unrecognised(alloc));
    };
    let mut items = path;
    items.push(Step::Item)?;
    let range = ranges::only(alloc, &items, &value)?;
    on_path(alloc, items, false, range)
}

/// `P BETWEEN k AND m`
fn between(
    alloc: Global,
    alias: &Text,
    left: &Expr,
    low: &Expr,
    high: &Expr,
) -> Result<Conjunct, Memory>
    ensures { IfOk result (λ found. found ≡ conjunct_of (spec.between alias.now left.now low.now high.now)) }
{
    match property_path(alloc, alias, left)? {
        Some(path) => within(alloc, path, &constant_of(low), &constant_of(high)),
        None => Ok(unrecognised(alloc)),
    }
}

/// That the property at the path is from one constant to the other.
fn within(alloc: Global, path: Path, k: &Constant<'_>, m: &Constant<'_>) -> Result<Conjunct, Memory>
    ensures { IfOk result (λ found. found
        ≡ conjunct_of (spec.answered (Atom.Within path (constant_value k.now) (constant_value m.now)))) }
{
    match k.bound(alloc)? {
        Some(low) => from_bound(alloc, path, k, &low, m),
        None => Ok(unrecognised(alloc)),
    }
}

/// The same, where the lower bound in terms is known.
fn from_bound(
    alloc: Global,
    path: Path,
    k: &Constant<'_>,
    low: &TermValue,
    m: &Constant<'_>,
) -> Result<Conjunct, Memory>
    requires { Some (cut_value low.now) ≡ bound_in (constant_value k.now) }
    ensures { IfOk result (λ found. found
        ≡ conjunct_of (spec.answered (Atom.Within path (constant_value k.now) (constant_value m.now)))) }
{
    match m.bound(alloc)? {
        Some(high) => between_bounds(alloc, path, k, low, m, &high),
        None => Ok(unrecognised(alloc)),
    }
}

/// The same, where both bounds are known.
#[tactic(auto, using(crate::proofs::Bounds::two_bounds, crate::proofs::Bounds::no_two_bounds))]
fn between_bounds(
    alloc: Global,
    path: Path,
    k: &Constant<'_>,
    low: &TermValue,
    m: &Constant<'_>,
    high: &TermValue,
) -> Result<Conjunct, Memory>
    requires low { Some (cut_value low.now) ≡ bound_in (constant_value k.now) }
    requires high { Some (cut_value high.now) ≡ bound_in (constant_value m.now) }
    ensures { IfOk result (λ found. found
        ≡ conjunct_of (spec.answered (Atom.Within path (constant_value k.now) (constant_value m.now)))) }
{
    if !are_of_one_kind(low, high) {
        return Ok(unrecognised(alloc));
    }
    let range = ranges::within(alloc, &path, low, high)?;
    on_path(alloc, path, false, range)
}

/// Two numbers, or two texts.
fn are_of_one_kind(low: &TermValue, high: &TermValue) -> bool
    ensures { result ≡ are_alike (cut_value low.now) (cut_value high.now) }
{
    match low {
        TermValue::Number(_) => is_number(high),
        TermValue::Text(_) => is_text(high),
        _ => false,
    }
}

/// A number.
fn is_number(value: &TermValue) -> bool
    ensures { result ≡ is_cut_number (cut_value value.now) }
{
    matches!(value, TermValue::Number(_))
}

/// A text.
fn is_text(value: &TermValue) -> bool
    ensures { result ≡ is_cut_text (cut_value value.now) }
{
    matches!(value, TermValue::Text(_))
}

/// `P IN (k, ..)`
fn among(alloc: Global, alias: &Text, left: &Expr, items: &ExprList) -> Result<Conjunct, Memory>
    ensures { IfOk result (λ found. found ≡ conjunct_of (spec.among alias.now left.now items.now)) }
{
    match property_path(alloc, alias, left)? {
        Some(path) => one_of(alloc, path, items.as_slice()),
        None => Ok(unrecognised(alloc)),
    }
}

/// That the property at the path is one of the constants.
#[tactic(auto, using(crate::proofs::Bounds::some_ranges, crate::proofs::Bounds::no_ranges))]
fn one_of(alloc: Global, path: Path, items: &[Expr]) -> Result<Conjunct, Memory>
    ensures { IfOk result (λ found. found ≡ conjunct_of
        (spec.answered (Atom.OneOf path (map spec.constant items.now)))) }
{
    match single_ranges(alloc, &path, items)? {
        Some(ranges) => on_ranges(alloc, path, ranges),
        None => Ok(unrecognised(alloc)),
    }
}

/// The conjunct of a condition on the path, with these ranges of terms.
fn on_ranges(alloc: Global, path: Path, ranges: RangeList) -> Result<Conjunct, Memory>
    ensures { IfOk result (λ found. found ≡ record { paths = path ∷ []; whole = false; ranges = Some ranges }) }
{
    let mut paths = Items::new(alloc);
    paths.push(path)?;
    Ok(Conjunct {
        paths,
        whole: false,
        ranges: Some(ranges),
    })
}

/// The range of each constant's term alone; none where one of them is no scalar.
fn single_ranges(alloc: Global, path: &Path, items: &[Expr]) -> Result<Option<RangeList>, Memory>
    ensures { IfOk result (λ found. found ≡ ranges_in path.now (map spec.constant items.now)) }
{
    let mut ranges = Vec::new(alloc);
    for item in items {
        match single_range(alloc, path, item)? {
            Some(range) => ranges.push(range)?,
            None => return Ok(None),
        }
    }
    Ok(Some(Items::from_vec(ranges)))
}

/// The range of a constant's term alone; none of what is no scalar.
fn single_range(alloc: Global, path: &Path, item: &Expr) -> Result<Option<TermRange>, Memory>
    ensures { IfOk result (λ found. found ≡ range_in path.now (spec.constant item.now)) }
{
    match constant_of(item).single(alloc)? {
        Some(value) => some_range(alloc, path, &value),
        None => Ok(None),
    }
}

/// The range of the value's term alone, as one that is there.
fn some_range(alloc: Global, path: &Path, value: &TermValue) -> Result<Option<TermRange>, Memory>
    ensures { IfOk result (λ found. found ≡ Some
        (spans.up_to (Term.Plain path.now (cut_value value.now)) (Term.Plain path.now (cut_value value.now)))) }
{
    Ok(Some(ranges::only(alloc, path, value)?))
}
