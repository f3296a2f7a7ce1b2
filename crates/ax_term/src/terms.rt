ghost use Rattle.std.specs.Prelude.{◌≡◌, ◌≤◌, ◌++◌, length, map, IfOk, OnOk};
ghost use Rattle.ax_term.specs.CutValues.{cut_value};
ghost use Rattle.ax_term.specs.TermBytes.{path_bytes, columns_bytes, directed_bytes, values_bytes, term_bytes};
ghost use Rattle.ax_term.specs.Terms.{Term};

use crate::pieces::{append_step, append_value};
use crate::room::complement;
use crate::term_value::TermValue;
use ax_mean::{Items, Memory, Order, Path};
use std::alloc::Global;

// The first byte of a term, by its family.
const ID: u8 = 0x01;

const PLAIN: u8 = 0x02;

const COMPOSITE: u8 = 0x03;

/// What stands behind the last step of a path.
const END_OF_PATH: u8 = 0x01;

/// Room for a term of a short path and value.
const ROOM: usize = 64;

/// The paths of a composite term, each with its direction.
pub type Composite = Items<Order>;

/// The term of a document's id.
pub fn id_term(alloc: Global, id: &[u8]) -> Result<Vec<u8>, Memory>
    ensures { IfOk result (λ bytes. bytes.items ≡ term_bytes (Term.Id id.now)) }
{
    let mut out = Vec::with_capacity(alloc, id.len() + 1)?;
    out.push(ID)?;
    out.extend_from_slice(id)?;
    Ok(out)
}

/// The term of a value at a path.
pub fn term(alloc: Global, path: &Path, value: &TermValue) -> Result<Vec<u8>, Memory>
    ensures { IfOk result (λ bytes.
        bytes.items ≡ term_bytes (Term.Plain path.now (cut_value value.now))) }
{
    let mut out = Vec::with_capacity(alloc, ROOM)?;
    out.push(PLAIN)?;
    append_path(&mut out, path)?;
    append_value(&mut out, value)?;
    Ok(out)
}

/// The term of the values at the paths of a composite: one value for each path, and at most 255.
pub fn composite_term(
    alloc: Global,
    composite: &Composite,
    values: &[TermValue],
) -> Result<Vec<u8>, Memory>
    requires as_many { length values.now ≡ length composite.now }
    requires at_most { length composite.now ≤ 255 }
    ensures { IfOk result (λ bytes.
        bytes.items ≡ term_bytes (Term.Composite composite.now (map cut_value values.now))) }
{
    let columns = composite.as_slice();
    let mut out = Vec::with_capacity(alloc, ROOM)?;
    out.push(COMPOSITE)?;
    out.push(columns.len() as u8)?;
    append_columns(&mut out, columns)?;
    append_values(&mut out, columns, values)?;
    Ok(out)
}

fn append_path(out: &mut Vec<u8>, path: &Path) -> Result<(), Memory>
    ensures { OnOk result (out.new.items ≡ out.old.items ++ path_bytes path.now) }
{
    for step in path.as_slice() {
        append_step(out, step)?;
    }
    out.push(END_OF_PATH)?;
    Ok(())
}

fn append_columns(out: &mut Vec<u8>, columns: &[Order]) -> Result<(), Memory>
    ensures { OnOk result (out.new.items ≡ out.old.items ++ columns_bytes columns.now) }
{
    for column in columns {
        out.push(u8::from(column.down))?;
        append_path(out, &column.path)?;
    }
    Ok(())
}

fn append_values(out: &mut Vec<u8>, columns: &[Order], values: &[TermValue]) -> Result<(), Memory>
    requires { length values.now ≡ length columns.now }
    ensures { OnOk result
        (out.new.items ≡ out.old.items ++ values_bytes columns.now (map cut_value values.now)) }
{
    for (column, value) in columns.iter().zip(values) {
        append_directed(out, column.down, value)?;
    }
    Ok(())
}

/// Appends a value, complemented where it is descending.
fn append_directed(out: &mut Vec<u8>, down: bool, value: &TermValue) -> Result<(), Memory>
    ensures { OnOk result
        (out.new.items ≡ out.old.items ++ directed_bytes down (cut_value value.now)) }
{
    let from = out.len();
    append_value(out, value)?;
    if down {
        complement(out, from);
    }
    Ok(())
}
