//! What a try to dispatch came to.

/// What a try to dispatch came to, which goes on until nothing waits or the chosen head does not fit. It has how many
/// requests were dispatched, of fewer than 2^64.
#[derive(Clone, Copy, Debug, PartialEq, Eq)]
pub enum TryDispatch {
    /// Nothing waits, or the chosen head does not fit.
    Stopped(u64),
    /// The level word changed before an exchange: it is to be tried again.
    Raced(u64),
}
