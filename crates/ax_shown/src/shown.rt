//! Bytes that contracts see.

ghost use Rattle.std.specs.Prelude.{◌≡◌, ℕ, List};
ghost use Rattle.std.specs.Borrow.{ftrue};

use std::marker::Model;

/// Bytes as contracts see them. It takes no bytes at run time.
#[derive(Drop)]
pub struct Shown {
    pub ghost bytes: { List ℕ },
}

impl Model for Shown {
    ghost also_owns = { λ _. ftrue };
}

impl Shown {
    /// Shows these bytes.
    pub fn of(_bytes: &[u8]) -> Shown
        ensures { result.bytes ≡ _bytes.now }
    {
        Shown {}
    }
}
