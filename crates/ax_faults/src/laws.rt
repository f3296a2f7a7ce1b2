//! Laws of counts of faults, each the contract of a function that does nothing.
ghost use Rattle.std.specs.Prelude.{◌≤◌, ℕ, Result};
ghost use Rattle.ax_faults.specs.Faults.{Rose, HasCause};

/// A failure that was counted since a later state was counted since an earlier one, and still is.
pub fn rose_since_earlier()
    ensures { (earlier : ℕ) → (before : ℕ) → (now : ℕ) → (later : ℕ)
        → earlier ≤ before → now ≤ later → Rose before now → Rose earlier later }
{}

/// So it is with a call that fails only where a count rose: it does so by the counts of an earlier
/// and of a later state too, where the count fell neither before the call nor after it.
pub fn has_cause_since_earlier<T, E>()
    ensures { (result : Result T E) → (earlier : ℕ) → (before : ℕ) → (now : ℕ) → (later : ℕ)
        → earlier ≤ before → now ≤ later
        → HasCause result before now → HasCause result earlier later }
{}
