//! What the numbers of a table are for a new policy.
ghost use Rattle.std.specs.Prelude.{◌≡◌, ◌+◌, ◌<◌, ◌≤◌};
ghost use Rattle.ax_policy.specs.NumberUses as spec;

/// So many other policies in use leave no number for a new one.
const MOST_OTHERS: u8 = 8;

/// What a number is for a new policy.
#[derive(Clone, Copy, Debug)]
pub(crate) enum NumberUse {
    /// Neither in use nor now.
    Free,
    /// In use or now, under a policy of the same normal text.
    Same,
    /// In use under another policy.
    Other,
    /// Now under another policy, and not in use.
    Idle,
}

/// What there is among the numbers for a new policy.
#[derive(Clone, Copy, Debug)]
pub(crate) struct NumbersFound {
    /// How many are in use under other policies.
    others: u8,
    /// The least that is in use or now under a policy of the same normal text.
    same: Option<u8>,
    /// The least that is neither in use nor now.
    free: Option<u8>,
}

impl NumbersFound {
    pub(crate) fn none() -> NumbersFound
        ensures { result ≡ spec.nothing_found }
    {
        NumbersFound {
            others: 0,
            same: None,
            free: None,
        }
    }

    /// With a number more, which is above those before.
    pub(crate) fn with(self, number: u8, number_use: NumberUse) -> NumbersFound
        requires { self.others < 9 }
        ensures found { result ≡ spec.with_use self number number_use }
        ensures others { result.others ≤ self.others + 1 }
    {
        match number_use {
            NumberUse::Free => NumbersFound {
                free: self.free.or(Some(number)),
                ..self
            },
            NumberUse::Same => NumbersFound {
                same: self.same.or(Some(number)),
                ..self
            },
            NumberUse::Other => NumbersFound {
                others: self.others + 1,
                ..self
            },
            NumberUse::Idle => self,
        }
    }

    /// The number for the policy; `None` where there is none for it.
    pub(crate) fn number(self) -> Option<u8>
        ensures { result ≡ spec.number_of self }
    {
        if self.others >= MOST_OTHERS {
            return None;
        }
        self.same.or(self.free)
    }
}
