//! A law of the low pair: what holds of the definitions themselves, whichever call reads or writes.

ghost use Rattle.std.specs.Prelude.{◌≡◌, ◌↔◌, ℕ, ◌<◌, List, All, Some};
ghost use Rattle.ax_pair.specs.declared.pair.Pair.{Pair};
ghost use Rattle.ax_pair.specs.Low.{BeginsWithLow, low_in};

/// Bytes begin with a low pair exactly where that is the pair that is found at their front.
pub fn low_is_found()
    ensures { (bytes : List ℕ) (low : Pair) → All (λ byte. byte < 256) bytes → (low_in bytes ≡ Some low) ↔ BeginsWithLow bytes low }
{}
