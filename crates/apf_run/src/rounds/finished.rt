//! What the workers of a run in rounds gave back.

ghost use Rattle.std.specs.Prelude.{◌≡◌, ◌+◌, ◌++◌, [], length, All, IfOk, OnOk};
ghost use Rattle.apf_line.specs.Tokens.{IsDone};
ghost use Rattle.apf_run.specs.RoundsWorkers.{IsInRound};
ghost use Rattle.apf_run.specs.RoundsRuns.{AreFinished};

use crate::rounds::plan::Plan;
use crate::rounds::worker::Worker;
use apf_gate::{Pass, Station};
use apf_level::life::Done;
use std::alloc::{AllocError, Global};
use std::marker::{Model, PhantomData};

/// The slots and the Stations of the workers that went through all rounds.
#[derive(Drop)]
pub struct Finished<K: Plan> {
    dones: Vec<Done>,
    stations: Vec<Station>,
    of: PhantomData<K>,
}

impl<K: Plan> Model for Finished<K> {
    ghost use Rattle.apf_run.specs.Runs.{Returned};
    ghost use Rattle.apf_run.specs.RoundsRuns.{AreFinished};

    ghost Value = { Returned };

    ghost view = { λ f. record { dones = f.dones.items; stations = f.stations.items } };

    ghost invariant = { λ f. AreFinished K.level.gate K.requests K.rounds (record { dones = f.dones.items; stations = f.stations.items }) };
}

// Adds these slots, each of which is over.
fn add_all(dones: &mut Vec<Done>, slots: Vec<Pass>) -> Result<(), AllocError>
    requires { All IsDone slots.items }
    ensures { OnOk result (dones.new.items ≡ dones.old.items ++ slots.items) }
{
    for slot in slots {
        dones.push(Done::of(slot))?;
    }
    Ok(())
}

impl<K: Plan> Finished<K> {
    /// Nothing yet, with memory for this many slots and Stations.
    ///
    /// # Errors
    ///
    /// `AllocError` if memory was refused.
    pub fn new(alloc: Global, slots: usize, stations: usize) -> Result<Finished<K>, AllocError>
        ensures { IfOk result (λ f. (f.dones ≡ []) × (f.stations ≡ [])) }
    {
        Ok(Finished {
            dones: Vec::with_capacity(alloc, slots)?,
            stations: Vec::with_capacity(alloc, stations)?,
            of: PhantomData,
        })
    }

    /// With what a worker gave back, which went through all rounds.
    ///
    /// # Errors
    ///
    /// `AllocError` if memory was refused.
    pub fn with(self, worker: Worker<K>) -> Result<Finished<K>, AllocError>
        requires rounds { All (IsInRound K.rounds) worker.slots }
        ensures dones { IfOk result (λ f. length f.dones ≡ length self.dones + length worker.slots) }
        ensures stations { IfOk result (λ f. length f.stations ≡ length self.stations + 1) }
    {
        let Finished {
            mut dones,
            mut stations,
            of,
        } = self;
        let (station, slots) = worker.into_parts();
        add_all(&mut dones, slots)?;
        stations.push(station)?;
        Ok(Finished {
            dones,
            stations,
            of,
        })
    }

    /// The slots and the Stations.
    pub fn into_parts(self) -> (Vec<Done>, Vec<Station>)
        ensures dones { result.0.items ≡ self.dones }
        ensures stations { result.1.items ≡ self.stations }
        ensures finished { AreFinished K.level.gate K.requests K.rounds self }
    {
        let Finished {
            dones,
            stations,
            of: _,
        } = self;
        (dones, stations)
    }
}
