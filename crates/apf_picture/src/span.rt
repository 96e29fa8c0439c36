//! What there is from a time until another one.

/// So much, from a time until another one.
#[derive(Clone, Copy)]
pub(crate) struct Span {
    pub(crate) from: u64,
    pub(crate) to: u64,
    pub(crate) amount: u32,
}
