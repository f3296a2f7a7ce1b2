//! How deep a value is nested behind a block, or where in it the value is closed.
ghost use Rattle.std.specs.Prelude.{◌≡◌, ◌≢◌, ◌↔◌, ℕ, ◌+◌, ◌^◌, ◌<◌, ◌≤◌, IsTrue};
ghost use Rattle.std.specs.Int.{bit_at};
ghost use Rattle.json.specs.Scan.{test};
ghost use Rattle.ax_skim.specs.Walks.{walk_from, walk_of, HasBounds};

/// The end of a walk over the brackets of a block.
#[derive(Clone, Copy)]
pub(crate) enum Walked {
    /// The bracket at that place closes the value.
    Closed(usize),
    /// The value goes on, nested so deep.
    Open(usize),
}

#[inline(always)]
fn lowest(m: u64) -> usize
    requires { m ≢ 0 }
    ensures bound { result < 64 }
    ensures set { bit_at m result ≡ 1 }
    ensures below { (k : ℕ) → k < result → bit_at m k ≡ 0 }
{
    m.trailing_zeros() as usize
}

#[inline(always)]
fn without(m: u64, bit: usize) -> u64
    requires bound { bit < 64 }
    requires set { bit_at m bit ≡ 1 }
    ensures smaller { result < m }
    ensures kept { (k : ℕ) → k < 64 → k ≢ bit → bit_at result k ≡ bit_at m k }
    ensures cleared { bit_at result bit ≡ 0 }
    ensures no_more { (k : ℕ) → bit_at result k ≡ 1 → bit_at m k ≡ 1 }
{
    m & !(1 << bit)
}

#[inline(always)]
#[tactic(auto, unfolding(json::specs::Scan::test))]
fn has_bit(m: u64, bit: usize) -> bool
    requires { bit < 64 }
    ensures { result ≡ test m bit }
{
    (m >> bit) % 2 == 1
}

/// Over the brackets of a block, of which those in `opens` open.
#[inline(always)]
pub(crate) fn walk(brackets: u64, opens: u64, depth: usize) -> Walked
    requires depth { (1 ≤ depth) × (depth + 128 < 2 ^ 64) }
    ensures same { walk_of result ≡ walk_from brackets opens 64 0 depth }
    ensures bounds { HasBounds depth result }
{
    let mut left = brackets;
    let mut depth = depth;
    while left != 0 {
        let at = lowest(left);
        left = without(left, at);
        if has_bit(opens, at) {
            depth += 1;
        } else if depth == 1 {
            return Walked::Closed(at);
        } else {
            depth -= 1;
        }
    }
    Walked::Open(depth)
}
