//! The bytes of a step, of a name as a step, and of a value.
ghost use Rattle.std.specs.Prelude.{◌≡◌, [], ◌∷◌, ◌++◌, OnOk, OnErr};
ghost use Rattle.std.specs.Int.{w64, to_be_bytes};
ghost use Rattle.ax_mean.specs.declared.query.Step.TheVariants.{Name};
ghost use Rattle.ax_term.specs.CutTexts.{cut};
ghost use Rattle.ax_term.specs.CutValues.{cut_value};
ghost use Rattle.ax_term.specs.TermBytes.{escaped, raised, step_bytes, text_bytes, value_bytes};

use crate::room::put_escaped;
use crate::term_value::TermValue;
use ax_mean::{Memory, Step, Text};

/// How many bytes of a text a term keeps.
const KEPT: usize = 128;

/// Appends a step of a path. Where memory runs out, `out` is as it was.
pub fn append_step(out: &mut Vec<u8>, step: &Step) -> Result<(), Memory>
    ensures ok { OnOk result (out.new.items ≡ out.old.items ++ step_bytes step.now) }
    ensures err { OnErr result (out.new.items ≡ out.old.items) }
{
    match step {
        Step::Item => out.push(0x02)?,
        Step::Name(name) => append_name(out, name)?,
    }
    Ok(())
}

/// Appends the step to the member of that name. Where memory runs out, `out` is as it was.
pub fn append_name(out: &mut Vec<u8>, name: &Text) -> Result<(), Memory>
    ensures ok { OnOk result (out.new.items ≡ out.old.items ++ step_bytes (Name name.now)) }
    ensures err { OnErr result (out.new.items ≡ out.old.items) }
{
    append_text(out, 0x03, name.as_str().as_bytes(), 0x01)
}

/// Appends a value. Where memory runs out, `out` is as it was.
pub fn append_value(out: &mut Vec<u8>, value: &TermValue) -> Result<(), Memory>
    ensures ok { OnOk result (out.new.items ≡ out.old.items ++ value_bytes (cut_value value.now)) }
    ensures err { OnErr result (out.new.items ≡ out.old.items) }
{
    match value {
        TermValue::Undefined => out.push(0x10)?,
        TermValue::Null => out.push(0x11)?,
        TermValue::False => out.push(0x12)?,
        TermValue::True => out.push(0x13)?,
        TermValue::Number(number) => append_number(out, *number)?,
        TermValue::Text(text) => append_cut(out, 0x15, text.as_slice())?,
        TermValue::List(text) => append_cut(out, 0x16, text.as_slice())?,
        TermValue::Object(text) => append_cut(out, 0x17, text.as_slice())?,
    }
    Ok(())
}

/// Appends a number of 64 bits: its kind, and the number with its sign bit turned.
fn append_number(out: &mut Vec<u8>, number: i64) -> Result<(), Memory>
    ensures ok { OnOk result (out.new.items
        ≡ out.old.items ++ 0x14 ∷ to_be_bytes w64 (raised number)) }
    ensures err { OnErr result (out.new.items ≡ out.old.items) }
{
    let [b0, b1, b2, b3, b4, b5, b6, b7] = turned(number).to_be_bytes();
    out.extend_from_slice(&[0x14, b0, b1, b2, b3, b4, b5, b6, b7])?;
    Ok(())
}

/// The number with 2^63 added to it.
fn turned(number: i64) -> u64
    ensures { result ≡ raised number }
{
    number.abs_diff(i64::MIN)
}

/// Appends a text of this kind, cut if it has more bytes than are kept.
#[tactic(auto, using(crate::proofs::Escaped::uncut))]
fn append_cut(out: &mut Vec<u8>, kind: u8, text: &[u8]) -> Result<(), Memory>
    ensures ok { OnOk result (out.new.items ≡ out.old.items ++ kind ∷ text_bytes (cut text.now)) }
    ensures err { OnErr result (out.new.items ≡ out.old.items) }
{
    if text.len() > KEPT {
        append_text(out, kind, text.split_at(KEPT).0, 0x02)
    } else {
        append_text(out, kind, text, 0x01)
    }
}

/// Appends a text of this kind that is escaped and ended.
fn append_text(out: &mut Vec<u8>, kind: u8, text: &[u8], end: u8) -> Result<(), Memory>
    ensures ok { OnOk result (out.new.items
        ≡ out.old.items ++ kind ∷ (escaped text.now ++ 0x00 ∷ end ∷ [])) }
    ensures err { OnErr result (out.new.items ≡ out.old.items) }
{
    out.reserve(text.len().saturating_mul(2).saturating_add(3))?;
    out.push_reserved(kind);
    put_escaped(out, text);
    out.push_reserved(0x00);
    out.push_reserved(end);
    Ok(())
}
