//! Ranges of terms.
ghost use Rattle.std.specs.Prelude.{◌≡◌, ◌∷◌, [], ◌++◌, IfOk, length, take, false, ◌≤◌};
ghost use Rattle.ax_term.specs.CutValues.{CutValue, cut_value};
ghost use Rattle.ax_term.specs.TermBytes.{term_bytes};
ghost use Rattle.ax_term.specs.Terms.{Term};
ghost use Rattle.ax_atoms.specs.Spans as spec;

use crate::next::{next_bytes, next_path};
use ax_mean::{Items, Memory, Path};
use ax_term::{TermRange, TermValue, term};
use std::alloc::Global;

/// How many bytes of a text a term keeps.
const KEPT: usize = 128;

/// The range from the first bytes up to the last, and with them.
fn range_up_to(first: Vec<u8>, last: Vec<u8>) -> Result<TermRange, Memory>
    ensures { IfOk result (λ range. range ≡ record { from = first.items; below = last.items ++ 0 ∷ [] }) }
{
    let mut below = last;
    below.push(0)?;
    Ok(range_before(first, below))
}

/// The range from the first bytes on, before the next ones.
fn range_before(first: Vec<u8>, next: Vec<u8>) -> TermRange
    ensures { result ≡ record { from = first.items; below = next.items } }
{
    TermRange {
        from: Items::from_vec(first),
        below: Items::from_vec(next),
    }
}

/// The term of the value at the path, alone.
pub(crate) fn only(alloc: Global, path: &Path, value: &TermValue) -> Result<TermRange, Memory>
    ensures { IfOk result (λ range. range
        ≡ spec.up_to (Term.Plain path.now (cut_value value.now)) (Term.Plain path.now (cut_value value.now))) }
{
    within(alloc, path, value, value)
}

/// The terms at the path from one value to another.
pub(crate) fn within(
    alloc: Global,
    path: &Path,
    low: &TermValue,
    high: &TermValue,
) -> Result<TermRange, Memory>
    ensures { IfOk result (λ range. range
        ≡ spec.up_to (Term.Plain path.now (cut_value low.now)) (Term.Plain path.now (cut_value high.now))) }
{
    let first = term(alloc, path, low)?;
    let last = term(alloc, path, high)?;
    range_up_to(first, last)
}

/// The terms at the path of the value's kind, up to it.
pub(crate) fn at_most(alloc: Global, path: &Path, value: &TermValue) -> Result<TermRange, Memory>
    ensures { IfOk result (λ range. range
        ≡ spec.up_to (Term.Plain path.now (spec.least_of_kind (cut_value value.now)))
        (Term.Plain path.now (cut_value value.now))) }
{
    let first = term_of_least(alloc, path, value)?;
    let last = term(alloc, path, value)?;
    range_up_to(first, last)
}

/// The terms at the path of the value's kind, from it on.
pub(crate) fn at_least(alloc: Global, path: &Path, value: &TermValue) -> Result<TermRange, Memory>
    ensures { IfOk result (λ range. range
        ≡ spec.before (Term.Plain path.now (cut_value value.now))
        (Term.Plain path.now (spec.next_kind (cut_value value.now)))) }
{
    let first = term(alloc, path, value)?;
    let next = term_of_next_kind(alloc, path, value)?;
    Ok(range_before(first, next))
}

/// The term of the least value of the value's kind.
fn term_of_least(alloc: Global, path: &Path, value: &TermValue) -> Result<Vec<u8>, Memory>
    ensures { IfOk result (λ bytes. bytes.items
        ≡ term_bytes (Term.Plain path.now (spec.least_of_kind (cut_value value.now)))) }
{
    match value {
        TermValue::Number(_) => term(alloc, path, &TermValue::Number(i64::MIN)),
        TermValue::Text(_) => term_of_no_text(alloc, path),
        other => term(alloc, path, other),
    }
}

/// The term of the least value behind all of the value's kind.
fn term_of_next_kind(alloc: Global, path: &Path, value: &TermValue) -> Result<Vec<u8>, Memory>
    ensures { IfOk result (λ bytes. bytes.items
        ≡ term_bytes (Term.Plain path.now (spec.next_kind (cut_value value.now)))) }
{
    match value {
        TermValue::Number(_) => term_of_no_text(alloc, path),
        TermValue::Text(_) => term_behind_texts(alloc, path),
        other => term(alloc, path, other),
    }
}

/// The term of the empty text, the least of all texts.
fn term_of_no_text(alloc: Global, path: &Path) -> Result<Vec<u8>, Memory>
    ensures { IfOk result (λ bytes. bytes.items ≡ term_bytes (Term.Plain path.now (CutValue.Text spec.no_bytes))) }
{
    let none = TermValue::Text(Items::new(alloc));
    term(alloc, path, &none)
}

/// The least term behind those of all texts.
fn term_behind_texts(alloc: Global, path: &Path) -> Result<Vec<u8>, Memory>
    ensures { IfOk result (λ bytes. bytes.items ≡ term_bytes (Term.Plain path.now (CutValue.List spec.no_bytes))) }
{
    let none = TermValue::List(Items::new(alloc));
    term(alloc, path, &none)
}

/// Every term at the path or below it.
pub(crate) fn all_below(alloc: Global, path: &Path) -> Result<TermRange, Memory>
    ensures { IfOk result (λ range. range
        ≡ spec.before (Term.Plain path.now CutValue.Undefined)
        (Term.Plain (spec.next_path path.now) CutValue.Undefined)) }
{
    let first = term(alloc, path, &TermValue::Undefined)?;
    let next = next_path(alloc, path)?;
    let next = term(alloc, &next, &TermValue::Undefined)?;
    Ok(range_before(first, next))
}

/// The texts at the path that begin with the first 128 bytes of a text.
pub(crate) fn beginning(alloc: Global, path: &Path, text: &[u8]) -> Result<TermRange, Memory>
    ensures { IfOk result (λ range. range
        ≡ spec.before (Term.Plain path.now (CutValue.Text (record { front = take 128 text.now; is_cut = false })))
        (Term.Plain path.now (spec.behind_texts (spec.next_bytes (take 128 text.now))))) }
{
    let front = front_of(text);
    let first = term_of_front(alloc, path, front)?;
    let next = next_bytes(alloc, front)?;
    let behind = term_behind(alloc, path, next)?;
    Ok(TermRange {
        from: Items::from_vec(first),
        below: Items::from_vec(behind),
    })
}

/// The bytes of a text that a term keeps.
#[tactic(auto, using(crate::proofs::Nexts::front_taken_whole, crate::proofs::Nexts::short_front))]
fn front_of(text: &[u8]) -> &[u8]
    ensures front { result.now ≡ take 128 text.now }
    ensures short { length result.now ≤ 128 }
{
    text.split_at(text.len().min(KEPT)).0
}

/// The term of a short text.
#[tactic(auto, using(crate::proofs::Nexts::short_cut))]
fn term_of_front(alloc: Global, path: &Path, front: &[u8]) -> Result<Vec<u8>, Memory>
    requires { length front.now ≤ 128 }
    ensures { IfOk result (λ bytes. bytes.items ≡ term_bytes (Term.Plain path.now
        (CutValue.Text (record { front = front.now; is_cut = false })))) }
{
    let value = TermValue::Text(Items::from_vec(Vec::from_slice(alloc, front)?));
    term(alloc, path, &value)
}

/// The term of the text of these bytes; where there are none, the least term behind those of all texts.
fn term_behind(alloc: Global, path: &Path, next: Vec<u8>) -> Result<Vec<u8>, Memory>
    requires { length next.items ≤ 128 }
    ensures { IfOk result (λ bytes. bytes.items ≡ term_bytes (Term.Plain path.now (spec.behind_texts next.items))) }
{
    if next.is_empty() {
        let none = TermValue::List(Items::new(alloc));
        term(alloc, path, &none)
    } else {
        term_of_front(alloc, path, next.as_slice())
    }
}
