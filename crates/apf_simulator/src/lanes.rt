//! One lane or two, on which the same requests run.

ghost use Rattle.std.specs.Prelude.{◌≡◌, [], ◌∷◌, OnOk};
ghost use Rattle.apf_traces.specs.TraceValue.{IsRequestInRange};
ghost use Rattle.apf_simulator.specs.Feeds.{AreInTime, AreLivedBoth, AreOver, GoOn};

use crate::fault::SimulatorFault;
use crate::lane::Lane;
use apf_times::Arrival;
use apf_traces::TraceRequest;

/// One lane or two, on which the same requests run.
#[derive(Drop)]
pub struct Lanes {
    pub one: Lane,
    pub other: Option<Lane>,
}

impl Lanes {
    /// The request arrives on each lane.
    ///
    /// # Errors
    ///
    /// Those of a lane's `arrive`.
    pub(crate) fn arrive(&mut self, came: &Arrival<TraceRequest>) -> Result<(), SimulatorFault>
        requires range { IsRequestInRange came.now.item }
        requires forward { AreInTime came.now.item.arrives_at self.old.one self.old.other }
        requires lived { AreLivedBoth self.old.one self.old.other }
        ensures goes { OnOk result (GoOn (came.now ∷ []) self.old.one self.old.other self.new.one self.new.other) }
        ensures time { OnOk result (AreInTime came.now.item.arrives_at self.new.one self.new.other) }
    {
        self.one.arrive(came)?;
        match &mut self.other {
            Some(other) => other.arrive(came),
            None => Ok(()),
        }
    }

    /// Nobody arrives any more: all that is due on each lane is carried out.
    ///
    /// # Errors
    ///
    /// Those of a lane's `finish`.
    pub(crate) fn finish(&mut self) -> Result<(), SimulatorFault>
        requires lived { AreLivedBoth self.old.one self.old.other }
        ensures goes { OnOk result (GoOn [] self.old.one self.old.other self.new.one self.new.other) }
        ensures over { OnOk result (AreOver self.new.one self.new.other) }
    {
        self.one.finish()?;
        match &mut self.other {
            Some(other) => other.finish(),
            None => Ok(()),
        }
    }

    /// The first lane.
    pub(crate) fn into_one(self) -> Lane
        ensures { result ≡ self.one }
    {
        let Lanes { one, other: _ } = self;
        one
    }
}
