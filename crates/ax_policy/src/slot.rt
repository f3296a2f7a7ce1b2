use crate::policy::Policy;

/// What a table has under a number: a policy, and how many documents are under it.
#[derive(Debug, Drop)]
pub(crate) struct Slot {
    pub(crate) policy: Option<Policy>,
    pub(crate) count: u32,
}
