//! Texts compared with those of paths, which are not written out for it.
ghost use Rattle.std.specs.Prelude.{◌≡◌, [], ◌∷◌, ◌++◌, IfOk, IfErr};
ghost use Rattle.std.specs.Cmp.Lexicographic.{slice_cmp};
ghost use Rattle.std.specs.Ordering.{nat_cmp};
ghost use Rattle.ax_policy.specs.Comparing.{GoesOn, Ends};
ghost use Rattle.ax_mean.specs.declared.query.Step.TheVariants.{Item};
ghost use Rattle.ax_policy.specs.Paths as spec;

use crate::quoted::is_escaped;
use ax_mean::Step;
use std::cmp::Ordering;

/// What follows the text of these steps in a text, or how the two compare whatever follows.
pub(crate) fn after_steps<'a>(text: &'a [u8], steps: &[Step]) -> Result<&'a [u8], Ordering>
    ensures rest { IfOk result (λ rest. GoesOn text.now (spec.steps_text steps.now) rest.now) }
    ensures order { IfErr result (Ends text.now (spec.steps_text steps.now)) }
{
    let mut rest = text;
    for step in steps {
        match after_step(rest, step) {
            Ok(after) => rest = after,
            Err(order) => return Err(order),
        }
    }
    Ok(rest)
}

fn after_step<'a>(text: &'a [u8], step: &Step) -> Result<&'a [u8], Ordering>
    ensures rest { IfOk result (λ rest. GoesOn text.now (spec.step_text step.now) rest.now) }
    ensures order { IfErr result (Ends text.now (spec.step_text step.now)) }
{
    match step {
        Step::Name(name) => after_name(text, name.as_str().as_bytes()),
        Step::Item => after_item(text),
    }
}

fn after_name<'a>(text: &'a [u8], name: &[u8]) -> Result<&'a [u8], Ordering>
    ensures rest { IfOk result (λ rest. GoesOn text.now (spec.name_text name.now) rest.now) }
    ensures order { IfErr result (Ends text.now (spec.name_text name.now)) }
{
    let rest = after_byte(text, b'/')?;
    let rest = after_byte(rest, b'"')?;
    let rest = after_escaped(rest, name)?;
    after_byte(rest, b'"')
}

fn after_item(text: &[u8]) -> Result<&[u8], Ordering>
    ensures rest { IfOk result (λ rest. GoesOn text.now (spec.step_text Item) rest.now) }
    ensures order { IfErr result (Ends text.now (spec.step_text Item)) }
{
    let rest = after_byte(text, b'/')?;
    let rest = after_byte(rest, b'[')?;
    after_byte(rest, b']')
}

fn after_escaped<'a>(text: &'a [u8], name: &[u8]) -> Result<&'a [u8], Ordering>
    ensures rest { IfOk result (λ rest. GoesOn text.now (spec.escaped name.now) rest.now) }
    ensures order { IfErr result (Ends text.now (spec.escaped name.now)) }
{
    let mut rest = text;
    for byte in name {
        match after_escaped_byte(rest, *byte) {
            Ok(after) => rest = after,
            Err(order) => return Err(order),
        }
    }
    Ok(rest)
}

fn after_escaped_byte(text: &[u8], byte: u8) -> Result<&[u8], Ordering>
    ensures rest { IfOk result (λ rest. GoesOn text.now (spec.escaped_byte byte) rest.now) }
    ensures order { IfErr result (Ends text.now (spec.escaped_byte byte)) }
{
    if is_escaped(byte) {
        let rest = after_byte(text, b'\\')?;
        return after_byte(rest, byte);
    }
    after_byte(text, byte)
}

fn after_byte(text: &[u8], byte: u8) -> Result<&[u8], Ordering>
    ensures rest { IfOk result (λ rest. GoesOn text.now (byte ∷ []) rest.now) }
    ensures order { IfErr result (Ends text.now (byte ∷ [])) }
{
    let Some((first, rest)) = text.split_first() else {
        return Err(Ordering::Less);
    };
    match (*first).cmp(&byte) {
        Ordering::Equal => Ok(rest),
        order => Err(order),
    }
}
