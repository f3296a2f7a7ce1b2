//! Whether the policies of a table that are in use or now have normal texts apart from one another.

ghost use Rattle.std.specs.Prelude.{◌≡◌, ◌≤◌, ℕ, List, true, false, Some, IfOk, IfSome, IfNone, option_map};
ghost use Rattle.ax_pages.specs.AfterPart.{last_policy};
ghost use Rattle.ax_policy.specs.Table.{is_taken as is_taken_in};
ghost use Rattle.ax_table.specs.Filling.{AreApartBelow, HasBelow, HasNoneBelow, IsTwin, taken_text};

use ax_mean::Memory;
use ax_policy::PolicyTable;
use std::alloc::Global;

/// How many numbers there are for policies.
const NUMBERS: u8 = 9;

/// The least number in use or now under which the table has the normal text of a lesser such number, too. `None` where
/// no two have one text.
pub(crate) fn twin_in(alloc: Global, table: &PolicyTable) -> Result<Option<u8>, Memory>
    ensures twin { IfOk result (λ twin. IfSome twin (IsTwin table.now)) }
    ensures apart { IfOk result (λ twin. IfNone twin (AreApartBelow table.now 9)) }
{
    for number in 0..NUMBERS {
        if is_twin(alloc, table, number)? {
            return Ok(Some(number));
        }
    }
    Ok(None)
}

/// Whether a lesser number in use or now has the normal text of this one, which is in use or now.
fn is_twin(alloc: Global, table: &PolicyTable, number: u8) -> Result<bool, Memory>
    requires { number ≤ last_policy }
    ensures twin { IfOk result (λ yes. yes ≡ true → IsTwin table.now number) }
    ensures none { IfOk result (λ yes. yes ≡ false → (text : List ℕ) → taken_text table.now number ≡ Some text
        → HasNoneBelow table.now text number) }
{
    match text_under(alloc, table, number)? {
        Some(text) => has_below(alloc, table, text.as_slice(), number),
        None => Ok(false),
    }
}

/// Whether a number in use or now below another has this normal text.
fn has_below(alloc: Global, table: &PolicyTable, text: &[u8], number: u8) -> Result<bool, Memory>
    requires { number ≤ last_policy }
    ensures has { IfOk result (λ has. has ≡ true → HasBelow table.now text.now number) }
    ensures none { IfOk result (λ has. has ≡ false → HasNoneBelow table.now text.now number) }
{
    for other in 0..number {
        if has_text(alloc, table, other, text)? {
            return Ok(true);
        }
    }
    Ok(false)
}

/// Whether the number is in use or now, and has this normal text.
fn has_text(alloc: Global, table: &PolicyTable, number: u8, text: &[u8]) -> Result<bool, Memory>
    ensures has { IfOk result (λ has. has ≡ true → taken_text table.now number ≡ Some text.now) }
    ensures none { IfOk result (λ has. taken_text table.now number ≡ Some text.now → has ≡ true) }
{
    match text_under(alloc, table, number)? {
        Some(other) => Ok(other.as_slice() == text),
        None => Ok(false),
    }
}

/// The normal text of the policy of a number that is in use or now.
fn text_under(alloc: Global, table: &PolicyTable, number: u8) -> Result<Option<Vec<u8>>, Memory>
    ensures { IfOk result (λ text. option_map (λ t. t.items) text ≡ taken_text table.now number) }
{
    if !is_taken(table, number) {
        return Ok(None);
    }
    match table.policy(number) {
        Some(policy) => Ok(Some(policy.normal(alloc)?)),
        None => Ok(None),
    }
}

/// Whether the number is in use or now.
fn is_taken(table: &PolicyTable, number: u8) -> bool
    ensures { result ≡ is_taken_in table.now number }
{
    table.count(number) > 0 || number == table.now()
}
