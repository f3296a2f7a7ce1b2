//! The texts of paths, every name quoted.
ghost use Rattle.std.specs.Prelude.{◌≡◌, ◌++◌, IfOk, OnOk, string_bytes};
ghost use Rattle.std.specs.Str.{IsUtf8};
ghost use Rattle.ax_policy.specs.Paths as spec;

use crate::quoted::{is_escaped, text_from};
use crate::rule_path::RulePath;
use ax_mean::{Memory, Step, Text};
use std::alloc::Global;

/// The text of a rule's path.
pub(crate) fn rule_text(alloc: Global, path: &RulePath) -> Result<Text, Memory>
    ensures { IfOk result (λ text. text ≡ spec.rule_text path.now.steps path.now.all) }
{
    let mut text = String::new(alloc);
    push_steps(&mut text, path.steps.as_slice())?;
    text.push_str(mark(path.all))?;
    Ok(Text::from_string(text))
}

/// What ends the path of a rule.
pub(crate) fn mark(all: bool) -> &'static str
    ensures { result.now ≡ spec.mark_text all }
{
    if all { "/*" } else { "/?" }
}

/// The text of steps with no mark behind them.
pub(crate) fn steps_text(alloc: Global, steps: &[Step]) -> Result<Text, Memory>
    ensures { IfOk result (λ text. text ≡ spec.steps_text steps.now) }
{
    let mut text = String::new(alloc);
    push_steps(&mut text, steps)?;
    Ok(Text::from_string(text))
}

fn push_steps(text: &mut String, steps: &[Step]) -> Result<(), Memory>
    ensures { OnOk result (string_bytes text.new ≡ string_bytes text.old ++ spec.steps_text steps.now) }
{
    for step in steps {
        push_step(text, step)?;
    }
    Ok(())
}

fn push_step(text: &mut String, step: &Step) -> Result<(), Memory>
    ensures { OnOk result (string_bytes text.new ≡ string_bytes text.old ++ spec.step_text step.now) }
{
    match step {
        Step::Name(name) => push_name(text, name)?,
        Step::Item => text.push_str("/[]")?,
    }
    Ok(())
}

fn push_name(text: &mut String, name: &Text) -> Result<(), Memory>
    ensures { OnOk result (string_bytes text.new ≡ string_bytes text.old ++ spec.name_text name.now) }
{
    let alloc = *text.allocator();
    let name = escaped(alloc, name.as_str())?;
    text.push_str("/\"")?;
    text.push_str(name.as_str())?;
    text.push_str("\"")?;
    Ok(())
}

/// A name as it stands between its quotes.
fn escaped(alloc: Global, name: &str) -> Result<Text, Memory>
    ensures { IfOk result (λ text. text ≡ spec.escaped name.now) }
{
    let mut bytes = Vec::with_capacity(alloc, name.len())?;
    for byte in name.as_bytes() {
        push_byte(&mut bytes, *byte)?;
    }
    Ok(text_from(bytes))
}

fn push_byte(bytes: &mut Vec<u8>, byte: u8) -> Result<(), Memory>
    ensures { OnOk result (bytes.new.items ≡ bytes.old.items ++ spec.escaped_byte byte) }
{
    if is_escaped(byte) {
        bytes.push(b'\\')?;
    }
    bytes.push(byte)?;
    Ok(())
}
