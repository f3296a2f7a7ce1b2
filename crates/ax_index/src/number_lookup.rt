//! Whether a number is among those of a gap list.

ghost use Rattle.std.specs.Prelude.{◌≡◌};
ghost use Rattle.ax_gap.specs.Gaps.{IsRisingList};
ghost use Rattle.ax_delta.specs.Said.{has_number};

use ax_gap::GapCursor;

/// Is the number in the list? The list rises, so that it is read to the first number that is not below.
#[tactic(auto, using(ax_gap::proofs::Rising::rises, ax_delta::proofs::Numbers::on_from, ax_delta::proofs::Numbers::here, ax_delta::proofs::Numbers::passed_one, ax_delta::proofs::Numbers::none_there))]
pub(crate) fn has_one(list: GapCursor<'_>, number: u32) -> bool
    requires { IsRisingList list.numbers }
    ensures { result ≡ has_number number list.entry.numbers }
{
    let mut left = list;
    while let Some(found) = left.next() {
        if found >= number {
            return found == number;
        }
    }
    false
}
