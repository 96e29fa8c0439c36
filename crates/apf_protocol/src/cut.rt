//! Bytes cut at a blank.

ghost use Rattle.std.specs.Prelude.{◌≡◌, ◌≢◌, ◌<◌, ℕ, MatchOption, option_map, length, slice_index};
ghost use Rattle.apf_protocol.specs.Lines.{cut_of};

/// The bytes before a blank, and those behind it.
#[derive(Clone, Copy)]
pub(crate) struct Cut<'a> {
    pub(crate) front: &'a [u8],
    pub(crate) rest: &'a [u8],
}

// The place of the first blank, where there is one.
fn blank(bytes: &[u8]) -> Option<usize>
    ensures found { MatchOption result
        ((k : ℕ) → k < length bytes.now → slice_index bytes.now k ≢ 32)
        (λ end. (end < length bytes.now) × (slice_index bytes.now end ≡ 32)
        × ((k : ℕ) → k < end → slice_index bytes.now k ≢ 32)) }
{
    bytes.iter().position(|byte| *byte == b' ')
}

/// Cuts bytes at the first blank, if there is one.
pub(crate) fn cut_at_blank(bytes: &[u8]) -> Option<Cut<'_>>
    ensures { option_map (λ cut. record { front = cut.front.now; rest = cut.rest.now }) result ≡ cut_of bytes.now }
{
    let end = blank(bytes)?;
    Some(Cut {
        front: &bytes[..end],
        rest: &bytes[end + 1..],
    })
}
