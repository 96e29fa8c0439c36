//! The levels with a change.

ghost use Rattle.std.specs.Prelude.{◌≡◌, ◌<◌, IfSome, IfErr, OnOk, Ok, Err, map, length, vec_len};
ghost use Rattle.apf_matching.specs.First.{place_from};
ghost use Rattle.apf_objects.specs.Levels.{level_view};
ghost use Rattle.apf_changes.specs.Levels as spec;
ghost use Rattle.apf_changes.specs.Lists.{is_level};

use crate::change::LevelChange;
use crate::fault::ChangeFault;
use crate::level::settings_with;
use apf_objects::Level;

/// The place of the level of this name.
pub(crate) fn level_place(levels: &[Level], name: &str) -> Option<usize>
    ensures value { result ≡ place_from (is_level name.now) 0 (map level_view levels.now) }
    ensures within { IfSome result (λ i. i < length levels.now) }
{
    for (i, level) in levels.iter().enumerate() {
        if level.name.as_str() == name {
            return Some(i);
        }
    }
    None
}

/// Changes the level of this name.
///
/// # Errors
///
/// `NoLevel`, `Exempt`, `NoQueues`, `NoNumber` and `OutOfBounds`, in this order. Then the levels are as they were.
pub(crate) fn change_level(
    levels: &mut Vec<Level>,
    name: &str,
    change: LevelChange,
) -> Result<(), ChangeFault>
    ensures ok { OnOk result (spec.levels_with change name.now (map level_view levels.old.items) ≡ Ok (map level_view levels.new.items)) }
    ensures err { IfErr result (λ fault. spec.levels_with change name.now (map level_view levels.old.items) ≡ Err fault) }
    ensures few { vec_len levels.new ≡ vec_len levels.old }
{
    let Some(place) = level_place(levels.as_slice(), name) else {
        return Err(ChangeFault::NoLevel);
    };
    let settings = settings_with(levels[place].settings, change)?;
    levels[place].settings = settings;
    Ok(())
}
