//! Tells what became of each request, in the order in which they came.

ghost use Rattle.std.specs.Prelude.{◌≡◌, ◌++◌, ◌∷◌, [], ℕ, List, true, Option, Some, OnOk, IfOk};
ghost use Rattle.std.specs.Io.KnownBytes.{Appends};
ghost use Rattle.apf_stream.specs.declared.ended.Ended.{Ended as EndedOf};
ghost use Rattle.apf_simulator.specs.Hearing.{AllTold, Tells, TellsStill};
ghost use Rattle.apf_simulator.specs.Turns.{Turn};

use crate::fates::{write_fate, write_header};
use crate::fault::SimulatorFault;
use crate::held::HeldList;
use crate::lane::Lane;
use crate::listener::Listener;
use apf_stream::Ended;
use apf_times::Arrival;
use apf_traces::TraceRequest;
use std::alloc::Global;
use std::io::Write;

/// Tells what became of each request, in the order in which they came. The line of one is held back until all that came before it
/// are told, and until there are this many lines behind it.
#[derive(Drop)]
pub(crate) struct Telling {
    held: HeldList,
    // how many are held back
    back: usize,
    has_begun: bool,
}

// The names of the columns are written, if they are not yet.
fn begin<W: Write>(has_begun: &mut bool, out: &mut W) -> Result<(), SimulatorFault>
    ensures begun { OnOk result (has_begun.new ≡ true) }
    ensures still { OnOk result (TellsStill (W.contents out.old) has_begun.old (W.contents out.new) true) }
{
    if !*has_begun {
        *has_begun = true;
        if write_header(out).is_err() {
            return Err(SimulatorFault::CannotWrite);
        }
    }
    Ok(())
}

impl Telling {
    /// Nobody came.
    pub(crate) fn new(alloc: Global, back: usize) -> Telling
        ensures { (now : Option (List ℕ)) → Tells now now [] result.has_begun result.held }
    {
        Telling {
            held: HeldList::new(alloc),
            back,
            has_begun: false,
        }
    }

    // The first that is held is told, if it can be.
    fn tell_one<W: Write>(&mut self, out: &mut W) -> Result<bool, SimulatorFault>
        ensures { OnOk result ((before : Option (List ℕ)) (turns : List Turn) → Tells before (W.contents out.old) turns self.old.has_begun self.old.held
            → Tells before (W.contents out.new) turns self.new.has_begun self.new.held) }
    {
        let Some((came, ended)) = self.held.pop() else {
            return Ok(false);
        };
        begin(&mut self.has_begun, out)?;
        if write_fate(out, &came, &ended).is_err() {
            return Err(SimulatorFault::CannotWrite);
        }
        Ok(true)
    }

    // Those in front are told, but for this many.
    fn tell<W: Write>(&mut self, back: usize, out: &mut W) -> Result<(), SimulatorFault>
        ensures { OnOk result ((before : Option (List ℕ)) (turns : List Turn) → Tells before (W.contents out.old) turns self.old.has_begun self.old.held
            → Tells before (W.contents out.new) turns self.new.has_begun self.new.held) }
    {
        let held = self.held.len();
        'lines: for _ in back..held {
            if !self.tell_one(out)? {
                return Ok(());
            }
        }
        Ok(())
    }

    /// All are told.
    ///
    /// # Errors
    ///
    /// `CannotWrite`, and `StillWaits` if somebody was not over.
    pub(crate) fn finish<W: Write>(&mut self, out: &mut W) -> Result<(), SimulatorFault>
        ensures { OnOk result ((before : Option (List ℕ)) (turns : List Turn) → Tells before (W.contents out.old) turns self.old.has_begun self.old.held
            → AllTold before (W.contents out.new) turns) }
    {
        self.tell(0, out)?;
        begin(&mut self.has_begun, out)?;
        if self.held.len() != 0 {
            return Err(SimulatorFault::StillWaits);
        }
        Ok(())
    }
}

impl Listener for Telling {
    ghost heard = { λ before now turns telling. Tells before now turns telling.has_begun telling.held };

    fn hear<W: Write>(
        &mut self,
        came: Option<Arrival<TraceRequest>>,
        lane: &Lane,
        out: &mut W,
    ) -> Result<(), SimulatorFault> {
        self.held.take(came, lane.ends())?;
        self.tell(self.back, out)?;
        Ok(())
    }
}
