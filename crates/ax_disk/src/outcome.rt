//! How a call on a disk in memory goes.

#[derive(Clone, Copy)]
pub(crate) enum Outcome {
    /// No call remains, or no room for it, and nothing is done.
    Refused,
    /// It is numbered to fail.
    Fails,
    Done,
}
