ghost use Rattle.std.specs.Prelude.{◌≡◌, [], true};
ghost use Rattle.ax_tree.specs.Rising.{is_rising};

use crate::text::Text;
use std::alloc::Global;
use std::marker::Model;

/// A member of a map: its name and its value.
#[derive(Debug, Drop)]
pub struct Member<T> {
    pub name: Text,
    pub value: T,
}

/// The members of a map, whose names rise strictly by bytes, so that a name stands once. It is made
/// from a `Vec` and gives it back without a copy.
#[derive(Debug, Drop)]
pub struct Members<T> {
    members: Vec<Member<T>>,
}

impl<T> Model for Members<T> {
    ghost use Rattle.std.specs.Prelude.{◌≡◌, ℕ, List, map, true, refl};
    ghost use Rattle.std.specs.Coded.{code_by, coded_list, coded×, coded_ℕ};
    ghost use Rattle.ax_tree.specs.declared.members.Member.{Member};
    ghost use Rattle.ax_tree.specs.Rising.{is_rising};

    ghost Value = { List (Member T) };

    ghost coded = { coded_list (code_by (List ℕ × T) (coded× (coded_list coded_ℕ) T.code) (λ m. (m.name, m.value)) (λ p. record { name = p.0; value = p.1 }) (λ _. refl)) };

    ghost view = { λ map. map.members.items };

    ghost invariant = { λ a. is_rising (map (λ m. m.name) a.members.items) ≡ true };
}

impl<T> Members<T> {
    ghost use Rattle.ax_tree.specs.Names.{HaveRisingNames};

    pub fn new(alloc: Global) -> Members<T>
        ensures { result ≡ [] }
    {
        Members {
            members: Vec::new(alloc),
        }
    }

    pub fn from_vec(members: Vec<Member<T>>) -> Members<T>
        requires { HaveRisingNames members.items }
        ensures { result ≡ members.items }
    {
        Members { members }
    }

    pub fn into_vec(self) -> Vec<Member<T>>
        ensures members { result.items ≡ self }
        ensures rising { HaveRisingNames self }
    {
        let Members { members } = self;
        members
    }

    pub fn as_slice(&self) -> &[Member<T>]
        ensures members { result.now ≡ self.now }
        ensures rising { HaveRisingNames self.now }
    {
        self.members.as_slice()
    }
}
