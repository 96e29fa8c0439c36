//! What is drawn of a level.

ghost use Rattle.std.specs.Prelude.{◌≡◌, ◌≤◌, ◌*◌, ◌^◌, length, sum_by};
ghost use Rattle.apf_cluster_picture.specs.Levels.{is_quiet_strip, is_quiet as the_is_quiet, high_of, quiet_of};

use apf_strips::Strip;

/// What is drawn of a priority level.
#[derive(Clone, Copy)]
pub struct LevelStrip<'a> {
    pub name: &'a str,
    /// No limit is drawn of an exempt level.
    pub is_exempt: bool,
    pub first: &'a Strip,
    /// What became of the level in the second cluster, if there is one.
    pub second: Option<&'a Strip>,
}

/// How high a strip is, in pixels.
pub(crate) const STRIP: u64 = 134;

// Whether nobody came.
fn is_quiet_strip(strip: &Strip) -> bool
    ensures { result ≡ is_quiet_strip strip.now }
{
    strip.seats.total() == 0 && strip.waiting.total() == 0 && strip.rejected.total() == 0
}

/// Whether nobody came to a level, in neither cluster.
pub(crate) fn is_quiet(level: &LevelStrip<'_>) -> bool
    ensures { result ≡ the_is_quiet level.now }
{
    match level.second {
        Some(second) => is_quiet_strip(level.first) && is_quiet_strip(second),
        None => is_quiet_strip(level.first),
    }
}

/// How high the strips of a level are together: nothing if nobody came.
#[tactic(auto, unfolding(crate::specs::Levels::high_of))]
pub(crate) fn high(level: &LevelStrip<'_>) -> u64
    ensures is { result ≡ high_of level.now }
    ensures small { result ≤ 268 }
{
    if is_quiet(level) {
        return 0;
    }
    match level.second {
        Some(_second) => 2 * STRIP,
        None => STRIP,
    }
}

/// How high the strips of these levels are together.
pub(crate) fn all_high(levels: &[LevelStrip<'_>]) -> u64
    requires few { length levels.now ≤ 2 ^ 31 }
    ensures is { result ≡ sum_by high_of levels.now }
    ensures small { result ≤ 268 * length levels.now }
{
    let mut all = 0;
    for level in levels {
        all += high(level);
    }
    all
}

/// How many of the levels are those to which nobody came.
pub(crate) fn quiet(levels: &[LevelStrip<'_>]) -> u64
    ensures is { result ≡ quiet_of levels.now }
    ensures few { result ≤ length levels.now }
{
    let mut quiet = 0;
    for level in levels {
        if is_quiet(level) {
            quiet += 1;
        }
    }
    quiet
}
