//! Who is told how far a run is.

use crate::fault::SimulatorFault;
use crate::lane::Lane;
use crate::listener::Listener;
use apf_times::Arrival;
use apf_traces::TraceRequest;
use std::io::Write;

/// Is told how far a run is. Nothing that is simulated or printed depends on it.
pub trait Progress {
    /// One more request came to the lane.
    fn go_on(&mut self, lane: &Lane);

    /// Nobody comes any more.
    fn end(&mut self);
}

/// One listens, and another is told how far the run is.
#[derive(Drop)]
pub(crate) struct WithProgress<'a, L: Listener, P: Progress> {
    pub(crate) listener: L,
    pub(crate) progress: &'a mut P,
}

// It has heard what the one who listens has.
impl<L: Listener, P: Progress> Listener for WithProgress<'_, L, P> {
    ghost heard = { λ before now turns both. L.heard before now turns both.listener };

    fn hear<W: Write>(
        &mut self,
        came: Option<Arrival<TraceRequest>>,
        lane: &Lane,
        out: &mut W,
    ) -> Result<(), SimulatorFault> {
        match &came {
            Some(_) => self.progress.go_on(lane),
            None => self.progress.end(),
        }
        self.listener.hear(came, lane, out)
    }
}
