//! Paths, from their texts.
ghost use Rattle.std.specs.Prelude.{◌≡◌, true, IfOk, IfSome, ◌==◌, option_map, option_and_then};
ghost use Rattle.std.specs.List.{list_all, list_any};
ghost use Rattle.std.specs.Str.{IsUtf8};
ghost use Rattle.ax_policy.specs.Paths as spec;
ghost use Rattle.ax_policy.specs.Written.{is_path};

use crate::path_text::mark;
use crate::quoted::{quoted_name, text_from};
use crate::rule_path::RulePath;
use ax_mean::{Items, Memory, Path, Step};
use std::alloc::Global;

/// The path of a rule, from its text; `None` where the text is none.
pub(crate) fn rule_path(alloc: Global, text: &str) -> Result<Option<RulePath>, Memory>
    ensures path { IfOk result (λ path. path ≡ spec.rule_path text.now) }
    ensures marked { IfOk result (λ path. IfSome path (λ p. is_path p ≡ true)) }
{
    if let Some(path) = marked_path(alloc, text, true)? {
        return Ok(Some(path));
    }
    marked_path(alloc, text, false)
}

fn marked_path(alloc: Global, text: &str, all: bool) -> Result<Option<RulePath>, Memory>
    ensures path { IfOk result (λ path. path ≡ spec.marked_path all text.now) }
    ensures marked { IfOk result (λ path. IfSome path (λ p. is_path p ≡ true)) }
{
    match before_mark(text, all) {
        Some(front) => Ok(rule_path_of(steps_of(alloc, front)?, all)),
        None => Ok(None),
    }
}

/// What stands before the mark, where it ends the text.
fn before_mark(text: &str, all: bool) -> Option<&[u8]>
    ensures front { option_map (λ front. front.now) result ≡ spec.before_mark all text.now }
    ensures utf8 { IfSome result (λ front. IsUtf8 front.now) }
{
    match text.as_bytes().strip_suffix(mark(all).as_bytes()) {
        Some(front) => Some(front),
        None => None,
    }
}

fn rule_path_of(steps: Option<Path>, all: bool) -> Option<RulePath>
    ensures path { result ≡ option_and_then (spec.rule_path_of all) steps }
    ensures marked { IfSome result (λ p. is_path p ≡ true) }
{
    let steps = steps?;
    if steps.as_slice().is_empty() && !all {
        return None;
    }
    Some(RulePath { steps, all })
}

/// The path of a composite, from its text; `None` where the text is none.
pub(crate) fn composite_path(alloc: Global, text: &str) -> Result<Option<Path>, Memory>
    ensures { IfOk result (λ path. path ≡ spec.composite_path text.now) }
{
    match before_mark(text, false) {
        Some(front) => Ok(if_names(steps_of(alloc, front)?)),
        None => Ok(if_names(steps_of(alloc, text.as_bytes())?)),
    }
}

fn if_names(steps: Option<Path>) -> Option<Path>
    ensures { result ≡ option_and_then spec.if_names steps }
{
    let steps = steps?;
    if steps.as_slice().is_empty() || !are_names(steps.as_slice()) {
        return None;
    }
    Some(steps)
}

fn are_names(steps: &[Step]) -> bool
    ensures { result ≡ list_all spec.is_name steps.now }
{
    for step in steps {
        if !is_name(step) {
            return false;
        }
    }
    true
}

fn is_name(step: &Step) -> bool
    ensures { result ≡ spec.is_name step.now }
{
    match step {
        Step::Name(_) => true,
        Step::Item => false,
    }
}

/// The steps that the whole text is.
fn steps_of(alloc: Global, text: &[u8]) -> Result<Option<Path>, Memory>
    requires { IsUtf8 text.now }
    ensures { IfOk result (λ steps. steps ≡ spec.steps_of text.now) }
{
    let mut steps = Vec::new(alloc);
    let mut rest = text;
    for _turn in 0..text.len() {
        let Some((slash, after)) = rest.split_first() else {
            return Ok(Some(Items::from_vec(steps)));
        };
        if *slash != b'/' {
            return Ok(None);
        }
        let Some((step, next)) = step_front(alloc, after)? else {
            return Ok(None);
        };
        steps.push(step)?;
        rest = next;
    }
    if rest.is_empty() {
        Ok(Some(Items::from_vec(steps)))
    } else {
        Ok(None)
    }
}

/// The step behind a slash, and what follows it.
fn step_front(alloc: Global, bytes: &[u8]) -> Result<Option<(Step, &[u8])>, Memory>
    requires { IsUtf8 bytes.now }
    ensures found { IfOk result
        (λ found. option_map (λ f. (f.0, f.1.now)) found ≡ spec.step_front bytes.now) }
    ensures utf8 { IfOk result (λ found. IfSome found (λ f. IsUtf8 f.1.now)) }
{
    let Some((byte, rest)) = bytes.split_first() else {
        return Ok(None);
    };
    if *byte == b'"' {
        quoted_front(alloc, rest)
    } else {
        plain_front(alloc, bytes)
    }
}

/// The step behind a slash and a quote, and what follows it.
fn quoted_front(alloc: Global, bytes: &[u8]) -> Result<Option<(Step, &[u8])>, Memory>
    requires { IsUtf8 bytes.now }
    ensures found { IfOk result
        (λ found. option_map (λ f. (f.0, f.1.now)) found ≡ spec.quoted_front bytes.now) }
    ensures utf8 { IfOk result (λ found. IfSome found (λ f. IsUtf8 f.1.now)) }
{
    match quoted_name(alloc, bytes)? {
        Some((name, rest)) => Ok(Some((Step::Name(name), rest))),
        None => Ok(None),
    }
}

/// The step with no quotes behind a slash, and what follows it.
fn plain_front(alloc: Global, bytes: &[u8]) -> Result<Option<(Step, &[u8])>, Memory>
    requires { IsUtf8 bytes.now }
    ensures found { IfOk result
        (λ found. option_map (λ f. (f.0, f.1.now)) found ≡ spec.plain_front bytes.now) }
    ensures utf8 { IfOk result (λ found. IfSome found (λ f. IsUtf8 f.1.now)) }
{
    let (text, rest) = parted(bytes);
    match plain_step(alloc, text)? {
        Some(step) => Ok(Some((step, rest))),
        None => Ok(None),
    }
}

/// The bytes of a text before its first slash, and those from it on, which are texts.
fn parted(bytes: &[u8]) -> (&[u8], &[u8])
    requires { IsUtf8 bytes.now }
    ensures until { result.0.now ≡ spec.until_slash bytes.now }
    ensures from { result.1.now ≡ spec.from_slash bytes.now }
    ensures front { IsUtf8 result.0.now }
    ensures rest { IsUtf8 result.1.now }
{
    split_at_slash(bytes)
}

/// The bytes before the first slash, and those from it on.
fn split_at_slash(bytes: &[u8]) -> (&[u8], &[u8])
    ensures until { result.0.now ≡ spec.until_slash bytes.now }
    ensures from { result.1.now ≡ spec.from_slash bytes.now }
{
    for (at, byte) in bytes.iter().enumerate() {
        if *byte == b'/' {
            return bytes.split_at(at);
        }
    }
    bytes.split_at(bytes.len())
}

/// The step that stands with no quotes.
fn plain_step(alloc: Global, text: &[u8]) -> Result<Option<Step>, Memory>
    requires { IsUtf8 text.now }
    ensures { IfOk result (λ step. step ≡ spec.plain_step text.now) }
{
    if text == b"[]".as_slice() {
        return Ok(Some(Step::Item));
    }
    if !is_plain(text) {
        return Ok(None);
    }
    let mut name = Vec::with_capacity(alloc, text.len())?;
    name.extend_from_slice(text)?;
    Ok(Some(Step::Name(text_from(name))))
}

fn is_plain(name: &[u8]) -> bool
    ensures { result ≡ spec.is_plain name.now }
{
    !name.is_empty() && !has_quote(name) && name != b"*".as_slice() && name != b"?".as_slice()
}

fn has_quote(name: &[u8]) -> bool
    ensures { result ≡ list_any (λ byte. byte == spec.quote) name.now }
{
    name.iter().any(|byte| *byte == b'"')
}
