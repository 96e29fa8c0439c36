//! Replays a script.

ghost use Rattle.std.specs.Prelude.{◌≡◌, length, IfErr, OnOk};
ghost use Rattle.apf_run.specs.Faults.{CanRun, IsReplayFault};

use crate::fault::ReplayFault;
use crate::recorder::Recorder;
use crate::transcript::Transcript;
use apf_files::{Command, Config, Request};
use std::alloc::{AllocError, Global};

/// Opens a level, carries out the commands in their order, in one thread, and tells what happened. Who is undecided then
/// stays so.
///
/// A request that arrives begins; one that finishes gives its seats back, and dispatches where requests wait; one
/// that is cancelled is struck. After each command each request that was dispatched or struck reads its decision.
/// A command that names a request which is not there, or a limit that is not 1 to 10,000 seats, does nothing and
/// has no line; `read_script` refuses such.
///
/// It waits for nobody: the level is one plain value.
///
/// # Errors
///
/// The first of these: the gate's fault (`BadLimit`, `BadWidth` of the first bad width, and `TooMany` for more than
/// 10,000 requests), and the level's (the dealer's, then the queues'). Whenever memory is refused, in the gate or the
/// level too, it is `NoMemory`, and that may come before anything is judged.
pub fn replay(
    alloc: Global,
    config: &Config,
    requests: &[Request],
    commands: &[Command],
) -> Result<Transcript, ReplayFault>
    ensures settings { OnOk result (CanRun config.now requests.now 1) }
    ensures fault { IfErr result (IsReplayFault config.now requests.now 1) }
{
    let mut recorder = Recorder::open(alloc, config, requests, commands.len())?;
    carry_out_all(&mut recorder, commands)?;
    let totals = recorder.totals();
    let waits = recorder.waits(alloc, requests)?;
    let (lines, services) = recorder.into_record().into_lines(requests);
    Ok(Transcript {
        lines,
        totals,
        services,
        waits,
    })
}

// Carries out each command.
fn carry_out_all(recorder: &mut Recorder, commands: &[Command]) -> Result<(), AllocError>
    ensures count { length recorder.new.batch.owner.passes ≡ length recorder.old.batch.owner.passes }
{
    for command in commands {
        recorder.carry_out(*command)?;
    }
    Ok(())
}
