//! What the workers of a run gave back.

ghost use Rattle.std.specs.Prelude.{◌≡◌, ◌+◌, [], length, IfOk};
ghost use Rattle.apf_run.specs.Runs.{AreFinished};

use crate::plan::Plan;
use crate::worker::Worker;
use apf_gate::Station;
use apf_level::Done;
use std::alloc::{AllocError, Global};
use std::marker::{Model, PhantomData};

/// The Dones and the Stations of the workers that came to their end.
#[derive(Drop)]
pub struct Finished<K: Plan> {
    dones: Vec<Done>,
    stations: Vec<Station>,
    of: PhantomData<K>,
}

impl<K: Plan> Model for Finished<K> {
    ghost use Rattle.apf_run.specs.Runs.{Returned, AreFinished};

    ghost Value = { Returned };

    ghost view = { λ f. record { dones = f.dones.items; stations = f.stations.items } };

    ghost invariant = { λ f. AreFinished K.level.gate K.requests (record { dones = f.dones.items; stations = f.stations.items }) };
}

impl<K: Plan> Finished<K> {
    /// Nothing yet, with memory for this many requests and Stations.
    ///
    /// # Errors
    ///
    /// `AllocError` if memory was refused.
    pub fn new(alloc: Global, requests: usize, stations: usize) -> Result<Finished<K>, AllocError>
        ensures { IfOk result (λ f. (f.dones ≡ []) × (f.stations ≡ [])) }
    {
        Ok(Finished {
            dones: Vec::with_capacity(alloc, requests)?,
            stations: Vec::with_capacity(alloc, stations)?,
            of: PhantomData,
        })
    }

    /// With what a worker gave back.
    ///
    /// # Errors
    ///
    /// `AllocError` if memory was refused.
    pub fn with(self, worker: Worker<K>) -> Result<Finished<K>, AllocError>
        ensures dones { IfOk result (λ f. length f.dones ≡ length self.dones + length worker.dones) }
        ensures stations { IfOk result (λ f. length f.stations ≡ length self.stations + 1) }
    {
        let Finished {
            mut dones,
            mut stations,
            of,
        } = self;
        let (station, mut more) = worker.into_parts();
        dones.append(&mut more)?;
        stations.push(station)?;
        Ok(Finished {
            dones,
            stations,
            of,
        })
    }

    /// The Dones and the Stations.
    pub fn into_parts(self) -> (Vec<Done>, Vec<Station>)
        ensures dones { result.0.items ≡ self.dones }
        ensures stations { result.1.items ≡ self.stations }
        ensures finished { AreFinished K.level.gate K.requests self }
    {
        let Finished {
            dones,
            stations,
            of: _,
        } = self;
        (dones, stations)
    }
}
