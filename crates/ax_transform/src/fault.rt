//! Why the policy was not changed.

use ax_store::StoreFault;

/// Why the policy was not changed.
#[derive(Clone, Copy, Debug, PartialEq, Eq)]
pub enum TransformFault {
    /// As many other policies are in use as may be.
    Policies,
    /// The store failed: its disk, its bytes, or memory.
    Store(StoreFault),
}
