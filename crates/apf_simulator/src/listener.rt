//! Who is told what runs on a lane.

ghost use Rattle.std.specs.Prelude.{◌++◌, ◌∷◌, [], Option, List, ℕ, OnOk};
ghost use Rattle.std.specs.Io.KnownBytes.{Keeps};
ghost use Rattle.apf_simulator.specs.Turns.{Turn};

use crate::fault::SimulatorFault;
use crate::lane::Lane;
use apf_times::Arrival;
use apf_traces::TraceRequest;
use std::io::Write;

/// Is told each request that comes to a lane, and what became of each.
pub(crate) trait Listener {
    ghost use Rattle.std.specs.Prelude.{ℕ, List, Option};
    ghost use Rattle.apf_simulator.specs.Turns.{Turn};

    // what the output had before, and has now, where it was told of these turns
    ghost heard: { Option (List ℕ) → Option (List ℕ) → List Turn → Self → Type 0 };

    /// A request came to the lane, or nobody comes any more; and by that the lane told who is over.
    ///
    /// # Errors
    ///
    /// Those of the listener. Then nothing is known of it but that it can be let go.
    fn hear<W: Write>(
        &mut self,
        came: Option<Arrival<TraceRequest>>,
        lane: &Lane,
        out: &mut W,
    ) -> Result<(), SimulatorFault>
        ensures { OnOk result ((before : Option (List ℕ)) (turns : List Turn) → heard before (W.contents out.old) turns self.old
            → heard before (W.contents out.new) (turns ++ record { came = came; ends = lane.now.ends } ∷ []) self.new) };
}

/// Nobody listens.
#[derive(Clone, Copy)]
pub(crate) struct Nobody;

impl Listener for Nobody {
    ghost heard = { λ before now turns nobody. Keeps before now };

    fn hear<W: Write>(
        &mut self,
        _came: Option<Arrival<TraceRequest>>,
        _lane: &Lane,
        _out: &mut W,
    ) -> Result<(), SimulatorFault> {
        Ok(())
    }
}
