//! The limit of a level that holds requests back.

ghost use Rattle.std.specs.Prelude.{◌≡◌};
ghost use Rattle.apf_cluster_tables.specs.Limits as spec;

use apf_words::MAX_LIMIT;

/// The limit of a level that holds requests back, where this is its nominal one: at least one seat, and no more than requests can be
/// there.
pub fn limit_of(nominal: u64) -> u32
    ensures { result ≡ spec.limit_of nominal }
{
    nominal.min(u64::from(MAX_LIMIT)).max(1) as u32
}
