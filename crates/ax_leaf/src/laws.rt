//! Laws of the format: what holds of the definitions themselves, whichever call reads or writes.

ghost use Rattle.std.specs.Prelude.{◌≡◌, ℕ, List, All, Some};
ghost use Rattle.std.specs.declared.cmp.Ordering.TheVariants.{Less};
ghost use Rattle.ax_pair.specs.declared.pair.Pair.{Pair};
ghost use Rattle.ax_pair.specs.Low.{low_in};
ghost use Rattle.ax_pair.specs.Order.{pair_cmp, Rise, BeginsFrom};
ghost use Rattle.ax_leaf.specs.Pairs.{Posting, postings_of, pairs_of};
ghost use Rattle.ax_leaf.specs.Payload.{IsLeaf, ArePostings};

/// A payload is that of one low pair and one list of postings alone.
pub fn payload_is_of_one()
    ensures { (bytes : List ℕ) (low other : Pair) (a b : List Posting) → IsLeaf bytes low a → IsLeaf bytes other b
        → (low ≡ other) × (a ≡ b) }
{}

/// The postings of pairs hold these pairs, in order.
pub fn postings_hold_the_pairs()
    ensures { (pairs : List Pair) → pairs_of (postings_of pairs) ≡ pairs }
{}

/// The pairs of postings whose terms rise, rise too.
pub fn pairs_of_postings_rise()
    ensures { (postings : List Posting) → ArePostings postings → Rise (pairs_of postings) }
{}

/// Where the terms of postings rise and their first pair is not before the low pair, no pair is.
pub fn no_pair_is_before_the_low_one()
    ensures { (low : Pair) (postings : List Posting) → ArePostings postings → BeginsFrom low (pairs_of postings)
        → All (λ pair. pair_cmp pair low ≡ Less → ⊥) (pairs_of postings) }
{}

/// A payload begins with the low pair of its base.
pub fn payload_begins_with_its_low()
    ensures { (bytes : List ℕ) (low : Pair) (postings : List Posting) → IsLeaf bytes low postings → low_in bytes ≡ Some low }
{}
