ghost use Rattle.std.specs.Prelude.{◌≡◌, true, false};

/// Whether what takes rows wants more of them.
#[derive(Clone, Copy, Debug, PartialEq, Eq)]
pub enum Flow {
    More,
    /// Whatever rows may follow, they would change nothing.
    Enough,
}

impl Flow {
    ghost use Rattle.ax_rows.specs.declared.flow.Flow.TheVariants.{More, Enough};

    /// Whether nothing more is wanted.
    pub(crate) fn is_enough(self) -> bool
        ensures yes { result ≡ true → self ≡ Enough }
        ensures no { result ≡ false → self ≡ More }
    {
        match self {
            Flow::More => false,
            Flow::Enough => true,
        }
    }
}
