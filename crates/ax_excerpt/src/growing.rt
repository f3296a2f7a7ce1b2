//! An excerpt that grows by paths of steps.
ghost use Rattle.std.specs.Prelude.{◌≡◌, ◌<◌, ◌∷◌, [], true, false, get_or, length, IfOk, IfErr};
ghost use Rattle.ax_tree.specs.Names.{HaveRisingNames};
ghost use Rattle.ax_tree.specs.declared.members.Member.{Member};
ghost use Rattle.ax_mean.specs.declared.expr.QueryStep.TheVariants as step;
ghost use Rattle.ax_excerpt.specs.declared.excerpt.Excerpt.{Excerpt};
ghost use Rattle.ax_excerpt.specs.Excerpts.{keeps};
ghost use Rattle.ax_excerpt.specs.Needs.{Grows, is_told};
ghost use Rattle.ax_excerpt.specs.Openings.{HasRoom, IsOpened, put_at};
ghost use Rattle.ax_excerpt.specs.Plain.{is_plain as plain_text};

use crate::excerpt::Excerpt;
use crate::plain::is_plain;
use ax_mean::{Member, Members, Memory, QueryStep, Text};
use std::alloc::Global;

/// Parts of which the one of a name is taken out, and what it keeps.
struct Opening {
    parts: Vec<Member<Excerpt>>,
    at: usize,
    name: Text,
    part: Excerpt,
}

/// The excerpt that keeps also what the steps lead to: all of it, and what stands around it where they
/// go on to an element, which is not told apart, to a name that JSON writes with an escape, or by more
/// names than may be told apart.
#[cycle(growing)]
pub(crate) fn with_path(
    alloc: Global,
    excerpt: Excerpt,
    steps: &[QueryStep],
    names: u32,
) -> Result<Excerpt, Memory>
    ensures grown { IfOk result (λ new. Grows excerpt steps.now new) }
    ensures part { is_told steps.now ≡ true → 0 < names → keeps excerpt [] ≡ false
        → IfOk result (λ new. keeps new [] ≡ false) }
{
    let parts = match excerpt {
        Excerpt::Whole => return Ok(Excerpt::Whole),
        Excerpt::Part(parts) => parts,
    };
    let Some((step, rest)) = steps.split_first() else {
        drop(parts);
        return Ok(Excerpt::Whole);
    };
    match step {
        QueryStep::Position(_) => Ok(Excerpt::Part(parts)),
        QueryStep::Member(name) => with_member(alloc, parts, name, rest, names),
    }
}

/// The same of an excerpt of these parts, along a name and the steps behind it.
#[cycle(growing)]
fn with_member(
    alloc: Global,
    parts: Members<Excerpt>,
    name: &Text,
    steps: &[QueryStep],
    names: u32,
) -> Result<Excerpt, Memory>
    ensures grown { IfOk result (λ new. Grows (Excerpt.Part parts) (step.Member name.now ∷ steps.now) new) }
    ensures part { plain_text name.now ≡ true → 0 < names → IfOk result (λ new. keeps new [] ≡ false) }
{
    if names == 0 || !is_plain(name.as_str().as_bytes()) {
        drop(parts);
        return Ok(Excerpt::Whole);
    }
    let Opening {
        parts,
        at,
        name,
        part,
    } = opened(alloc, parts, name)?;
    match with_path(alloc, part, steps, names - 1) {
        Ok(part) => closed(parts, at, name, part),
        Err(fault) => {
            drop(parts);
            drop(name);
            Err(fault)
        }
    }
}

/// Takes out the part of that name, which keeps nothing where there is none.
fn opened(alloc: Global, parts: Members<Excerpt>, name: &Text) -> Result<Opening, Memory>
    ensures room { IfOk result (λ o. HasRoom o.name o.parts.items o.at) }
    ensures opened { IfOk result (λ o. IsOpened parts name.now o.name o.parts.items o.part) }
{
    let mut parts = parts.into_vec();
    match place_of(parts.as_slice(), name.as_str()) {
        Ok(at) => {
            let Member { name, value } = parts.remove(at);
            Ok(Opening {
                parts,
                at,
                name,
                part: value,
            })
        }
        Err(at) => opened_new(alloc, parts, at, name),
    }
}

/// The same where no part has the name, which would stand at that place.
fn opened_new(
    alloc: Global,
    parts: Vec<Member<Excerpt>>,
    at: usize,
    name: &Text,
) -> Result<Opening, Memory>
    requires { HasRoom name.now parts.items at }
    ensures room { IfOk result (λ o. HasRoom o.name o.parts.items o.at) }
    ensures opened { IfOk result (λ o. IsOpened parts.items name.now o.name o.parts.items o.part) }
{
    match name.copy(alloc) {
        Ok(name) => Ok(Opening {
            parts,
            at,
            name,
            part: Excerpt::Part(Members::new(alloc)),
        }),
        Err(fault) => {
            drop(parts);
            Err(fault)
        }
    }
}

/// An excerpt of the parts and of one more at that place.
fn closed(
    parts: Vec<Member<Excerpt>>,
    at: usize,
    name: Text,
    part: Excerpt,
) -> Result<Excerpt, Memory>
    requires { HasRoom name parts.items at }
    ensures { IfOk result (λ made. made ≡ Excerpt.Part (put_at at name part parts.items)) }
{
    let mut parts = parts;
    parts.insert(at, Member { name, value: part })?;
    Ok(Excerpt::Part(Members::from_vec(parts)))
}

/// Where the part of that name stands, or would stand.
fn place_of(parts: &[Member<Excerpt>], name: &str) -> Result<usize, usize>
    requires { HaveRisingNames parts.now }
    ensures found { IfOk result (λ at. at < length parts.now) }
    ensures same { IfOk result (λ at. (d : Member Excerpt) → (get_or parts.now at d).name ≡ name.now) }
    ensures absent { IfErr result (λ at. HasRoom name.now parts.now at) }
{
    match parts.binary_search_by(|part| part.name.as_str().cmp(name)) {
        Ok(at) => Ok(at),
        Err(at) => Err(at),
    }
}
