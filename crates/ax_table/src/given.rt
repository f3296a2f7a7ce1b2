//! The numbers that policies have in a store.

ghost use Rattle.std.specs.Prelude.{◌≡◌, IfSome, IfNone};
ghost use Rattle.ax_store.specs.Store.{store_contents};
ghost use Rattle.ax_table.specs.Filling.{IsGivenNumber};

use ax_pages::numbers::LAST_POLICY;
use ax_store::{Head, Store};

/// The number of a policy, as a part names it. `None` exactly where no part gave a policy this number, and it is not 0,
/// which needs none; or where it is too great.
pub(crate) fn given_number<C>(store: &Store<C>, number: u32) -> Option<u8>
    ensures same { IfSome result (λ given. given ≡ number) }
    ensures given { IfSome result (λ given. IsGivenNumber given (store_contents store.now)) }
    ensures none { IfNone result (IsGivenNumber number (store_contents store.now) → ⊥) }
{
    if number > LAST_POLICY {
        return None;
    }
    if number == 0 || store.has_policy(number) {
        Some(number as u8)
    } else {
        None
    }
}

/// The number of the policy that the head of a document names.
pub(crate) fn given_by<C>(store: &Store<C>, head: Head) -> Option<u8>
    ensures same { IfSome result (λ given. given ≡ head.policy) }
    ensures given { IfSome result (λ given. IsGivenNumber given (store_contents store.now)) }
    ensures none { IfNone result (IsGivenNumber head.policy (store_contents store.now) → ⊥) }
{
    given_number(store, u32::from(head.policy))
}
