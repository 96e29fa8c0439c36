//! What the requests of each level came to.

ghost use Rattle.std.specs.Prelude.{◌↔◌, IfOk, IsTrue, OnOk};
ghost use Rattle.std.specs.List.{AllZip};
ghost use Rattle.apf_simulator.specs.Feeds.{IsOver};
ghost use Rattle.apf_cluster.specs.Runs.{AreLived, IsAlive, IsClosed, IsOfLevel, IsQuiet, RunsOn};

use crate::fault::ClusterFault;
use crate::lanes::{LevelLane, hear};
use apf_cluster_tables::LevelTable;
use apf_lender::Asking;
use std::alloc::Global;

// Whether nobody asks for seats from this time on.
fn is_quiet(asking: &Asking, end: u64) -> bool
    ensures { IsTrue result ↔ IsQuiet end asking.now }
{
    asking.seats() == 0 && asking.since() <= end
}

// Carries out all that is due on a lane, after which nobody asks for seats from this time on.
fn finish(level: &mut LevelLane, end: u64) -> Result<(), ClusterFault>
    requires { IsAlive level.old }
    ensures runs { OnOk result (RunsOn level.old level.new) }
    ensures same { OnOk result (IsOfLevel level.old level.new) }
    ensures over { OnOk result (IsOver level.new.lane) }
    ensures quiet { OnOk result (IsQuiet end level.new.asking) }
    ensures lived { OnOk result (IsAlive level.new) }
{
    level.lane.finish()?;
    hear(
        &mut level.asking,
        &mut level.late,
        &mut level.drawn,
        &level.lane,
    )?;
    if !is_quiet(&level.asking, end) {
        return Err(ClusterFault::Untimely);
    }
    Ok(())
}

// Carries out all that is due on a lane, and ends its level.
fn close(alloc: Global, level: LevelLane, end: u64) -> Result<LevelTable, ClusterFault>
    requires { IsAlive level }
    ensures { IfOk result (IsClosed end level) }
{
    let mut level = level;
    finish(&mut level, end)?;
    let LevelLane {
        lane,
        late,
        drawn,
        asking: _,
        is_lent: _,
        nominal,
        least,
        greatest,
        turned_away,
    } = level;
    let since = late.since;
    let (whole, _report) = lane.close(alloc)?;
    let last = whole.all.sums.last;
    let table = late.close(whole)?;
    let strip = drawn.close(end)?;
    Ok(LevelTable {
        since,
        nominal,
        least,
        greatest,
        table,
        turned_away,
        last,
        strip,
    })
}

/// Carries out all that is due on each lane, after which nobody asks for seats from this time on, and ends its level.
///
/// # Errors
///
/// Those of a lane's `finish` and `close`, or `Untimely`.
pub(crate) fn close_all(
    alloc: Global,
    lanes: Vec<LevelLane>,
    end: u64,
) -> Result<Vec<LevelTable>, ClusterFault>
    requires { AreLived lanes.items }
    ensures { IfOk result (λ tables. AllZip (IsClosed end) lanes.items tables.items) }
{
    let mut tables = Vec::with_capacity(alloc, lanes.len())?;
    for level in lanes {
        let table = close(alloc, level, end)?;
        let Ok(()) = tables.push(table) else {
            return Err(ClusterFault::NoMemory);
        };
    }
    Ok(tables)
}
