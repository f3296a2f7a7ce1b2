//! Laws of the formats: what holds of the definitions themselves, whichever call reads or writes.

ghost use Rattle.std.specs.Prelude.{◌≡◌, ◌↔◌, ◌++◌, ◌+◌, ◌*◌, ◌^◌, ◌<◌, ◌≤◌, ℕ, List, length, Contains};
ghost use Rattle.ax_gap.specs.Gaps.{IsGapList, IsRisingList, gaps};
ghost use Rattle.ax_gap.specs.Varint.{IsVarint, varint};

/// The varint of a number is the one spelling in the grammar of varints for it.
pub fn varint_is_the_one()
    ensures { (bytes : List ℕ) (n : ℕ) → IsVarint bytes n ↔ (bytes ≡ varint n) }
{}

/// The gap list of rising numbers is the one spelling in the grammar of gap lists for them, and no
/// other list has one.
pub fn gap_list_is_the_one()
    ensures { (bytes list : List ℕ) → IsGapList bytes list ↔ (IsRisingList list × (bytes ≡ gaps list)) }
{}

/// No varint is a prefix of another: two with which the same bytes begin are the same, of the same
/// number.
pub fn varint_has_one_form()
    ensures { (s t x y : List ℕ) (m n : ℕ) → IsVarint s m → IsVarint t n → s ++ x ≡ t ++ y
        → (m ≡ n) × (s ≡ t) × (x ≡ y) }
{}

/// No gap list is a prefix of another: two with which the same bytes begin are the same, of the
/// same numbers. So what `put_gaps` wrote is what `read_gaps` finds there, whatever follows.
pub fn gap_list_has_one_form()
    ensures { (s t x y a b : List ℕ) → IsGapList s a → IsGapList t b → s ++ x ≡ t ++ y
        → (a ≡ b) × (s ≡ t) × (x ≡ y) }
{}

/// A varint of a number below 2^32 takes at most five bytes, and a gap list at most five for its
/// count and each number.
pub fn lengths_are_bounded()
    ensures number { (n : ℕ) → n < 2 ^ 32 → length (varint n) ≤ 5 }
    ensures list { (list : List ℕ) → IsRisingList list → length (gaps list) ≤ 5 + 5 * length list }
{}

/// Two rising lists with the same numbers are the same list: so `meet`, `join` and `without` have
/// one answer each.
pub fn members_make_the_list()
    ensures { (a b : List ℕ) → IsRisingList a → IsRisingList b → ((n : ℕ) → Contains a n ↔ Contains b n) → a ≡ b }
{}
