//! What the policy now and all policies under which documents are cover.
ghost use Rattle.std.specs.Prelude.{◌≡◌, ◌↔◌, IsTrue};
ghost use Rattle.ax_policy.specs.Covering.{Covers, CoversAll};
ghost use Rattle.ax_policy.specs.Table.{is_taken as is_taken_in};
ghost use Rattle.ax_plan.specs.Taken.{HoldsOfTaken};
ghost use Rattle.ax_plan.specs.ByPaths.{AreCovered, CoversPath, HoldsAt};

use ax_mean::Path;
use ax_policy::{Policy, PolicyTable};

/// How many numbers there are for policies.
const NUMBERS: u8 = 9;

/// Whether the leaf at that path is covered by the policy now, and by each under which documents are.
pub fn covered(table: &PolicyTable, path: &Path) -> bool
    ensures { IsTrue result ↔ HoldsOfTaken table.now (λ policy. Covers policy path.now) }
{
    all_cover(table, false, path)
}

/// Whether every leaf whose path begins with that path is.
pub fn covered_all(table: &PolicyTable, path: &Path) -> bool
    ensures { IsTrue result ↔ HoldsOfTaken table.now (λ policy. CoversAll policy path.now) }
{
    all_cover(table, true, path)
}

/// Whether the leaf at each of these paths is, or where it is `whole` every leaf there and below.
pub(crate) fn are_covered(table: &PolicyTable, whole: bool, paths: &[Path]) -> bool
    ensures { IsTrue result ↔ AreCovered table.now whole paths.now }
{
    for path in paths {
        if !all_cover(table, whole, path) {
            return false;
        }
    }
    true
}

fn all_cover(table: &PolicyTable, whole: bool, path: &Path) -> bool
    ensures { IsTrue result ↔ HoldsOfTaken table.now (CoversPath whole path.now) }
{
    for number in 0..NUMBERS {
        if !covers_under(table, number, whole, path) {
            return false;
        }
    }
    true
}

/// Whether the policy of that number covers the path; so it is, too, where no document is under it and it is not the
/// one now.
fn covers_under(table: &PolicyTable, number: u8, whole: bool, path: &Path) -> bool
    ensures { IsTrue result ↔ HoldsAt table.now (CoversPath whole path.now) number }
{
    if !is_taken(table, number) {
        return true;
    }
    match table.policy(number) {
        Some(policy) => covers(policy, whole, path),
        None => true,
    }
}

/// Whether documents are under the policy of that number, or it is the one now.
fn is_taken(table: &PolicyTable, number: u8) -> bool
    ensures { result ≡ is_taken_in table.now number }
{
    table.count(number) > 0 || number == table.now()
}

fn covers(policy: &Policy, whole: bool, path: &Path) -> bool
    ensures { IsTrue result ↔ CoversPath whole path.now policy.now }
{
    if whole {
        policy.covers_all(path)
    } else {
        policy.covers(path)
    }
}
