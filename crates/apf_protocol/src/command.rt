//! What a line commands.

ghost use Rattle.std.specs.Prelude.{◌≡◌, ◌≢◌, ◌<◌, IfOk, IfErr, Ok, Err};
ghost use Rattle.apf_protocol.specs.Faults.{IsFoundIn};
ghost use Rattle.apf_protocol.specs.declared.fault.FaultKind.TheVariants.{NoMemory};
ghost use Rattle.apf_protocol.specs.Commands.{command_from, HasObject, IsInRangeAs};

use crate::arrival::{Arrival, read_arrival};
use crate::fault::LineFault;
use crate::form::Form;
use crate::head::Head;
use apf_traces::ObjectReader;

/// What a line commands. Requests are numbers below the level's slots.
#[derive(Clone, Copy, Debug, PartialEq, Eq)]
pub enum Command {
    /// The request of this number arrives, and asks this.
    Arrive(u32, Arrival),
    /// The same, but it never waits.
    Try(u32, Arrival),
    /// The request of this number gives its seats back. It ran this many microseconds, where that is said: at most 10^12.
    Finish(u32, Option<u64>),
    /// The request of this number, which executes still, has run this many microseconds so far: at most 10^12.
    Spent(u32, u64),
    /// The request of this number is cancelled.
    Cancel(u32),
    /// The level's limit becomes this one, 1 to 10,000 seats.
    Limit(u32),
    /// The level is closed.
    Close,
    /// The book is asked for.
    Book,
    /// What each queue was given is asked for.
    Queues,
    /// The level's numbers are asked for.
    Metrics,
}

/// Reads what a line commands, whose form was read. Of an arrival it reads the object, which has the keys of a trace's
/// line but for the times: `schema` and `distinguisher`, or `hash`; `width`; `cost`. Of a repeated key the last value
/// counts.
///
/// The memory that it takes is given back when it returns, but for the value that a fault tells, which goes with the
/// fault, and for what the reader of objects keeps.
///
/// # Errors
///
/// Of an object the first of `NotJson`, `UnknownKey`, `BadFlow`, `BadWidth` and `BadCost`, with what was found there.
/// `NoMemory` only where memory was refused. Words without an object have no fault.
#[tactic(auto, unfolding(crate::specs::Commands::command_from))]
pub fn read_command(objects: &mut ObjectReader, form: Form<'_>) -> Result<Command, LineFault>
    ensures ok { IfOk result (λ command. command_from form.entry.head form.entry.object.now ≡ Ok command) }
    ensures ranges { IfOk result (IsInRangeAs form.entry.head) }
    ensures err { IfErr result (λ fault. fault.kind ≢ NoMemory → command_from form.entry.head form.entry.object.now ≡ Err fault.kind) }
    ensures found { IfErr result (λ fault. IsFoundIn form.entry.object.now fault.kind fault.found) }
    ensures memory { IfErr result (λ fault. HasObject form.entry.head) }
{
    match form.head {
        Head::Arrive(number) => Ok(Command::Arrive(number, read_arrival(objects, form.object)?)),
        Head::Try(number) => Ok(Command::Try(number, read_arrival(objects, form.object)?)),
        Head::Finish(number, ran) => Ok(Command::Finish(number, ran)),
        Head::Spent(number, ran) => Ok(Command::Spent(number, ran)),
        Head::Cancel(number) => Ok(Command::Cancel(number)),
        Head::Limit(limit) => Ok(Command::Limit(limit)),
        Head::Close => Ok(Command::Close),
        Head::Book => Ok(Command::Book),
        Head::Queues => Ok(Command::Queues),
        Head::Metrics => Ok(Command::Metrics),
    }
}
