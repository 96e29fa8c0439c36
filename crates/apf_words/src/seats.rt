//! When a request fits.

ghost use Rattle.std.specs.Prelude.{◌↔◌, ◌≤◌, IsTrue};
ghost use Rattle.apf_words.specs.Fits.{Fits};
ghost use Rattle.apf_words.specs.Limits.{max_width};

/// Whether a request of this width fits: there are seats enough under the limit, or the request is
/// wider than the limit and no seat is in use. All three are in seats, `width` and `seats` at most
/// 20,000.
///
/// That an over-wide request runs alone, and does not wait for ever, is KEP-1040's rule.
pub fn fits(seats: u32, limit: u32, width: u32) -> bool
    requires seats { seats ≤ max_width }
    requires width { width ≤ max_width }
    ensures { IsTrue result ↔ Fits seats limit width }
{
    seats + width <= limit || (width > limit && seats == 0)
}
