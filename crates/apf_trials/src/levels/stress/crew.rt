//! Deals the requests out to the threads, starts them, and gathers what is left of them.

ghost use Rattle.std.specs.Prelude.{◌≡◌, ◌<◌, [], length, All, IfOk};
ghost use Rattle.apf_gate.specs.declared.record.State.TheVariants.{Fresh};
ghost use Rattle.apf_gate.specs.Tokens.{pass_gate, station_gate};

use crate::levels::stress::note::{Act, Note};
use crate::levels::stress::random::Random;
use crate::levels::stress::settings::THREADS;
use crate::levels::stress::stage::Stage;
use crate::levels::stress::worker::Worker;
use apf_gate::{Pass, Station};
use apf_level::{Done, Naming};
use apf_session::Operator;
use std::alloc::{AllocError, Global};
use std::marker::PhantomData;
use std::sync::Wait;
use std::thread;
use std::thread::Threads;

/// What is left of the threads of the level that K names.
#[derive(Drop)]
pub struct Gathered<K: Naming> {
    pub dones: Vec<Done>,
    pub stations: Vec<Station>,
    /// What the callers of requests were told, in the order of the requests.
    pub notes: Vec<Note>,
    pub acts: Vec<Act>,
    pub of: PhantomData<K>,
    ghost dones_are: { All (λ t. pass_gate t ≡ K.level.gate) dones.items },
    ghost stations_are: { All (λ t. station_gate t ≡ K.level.gate) stations.items },
}

/// After how many arrivals the level of a seed is closed: late, and by every third seed never.
pub fn closing(seed: u64, requests: u64) -> Option<u64> {
    if seed % 3 == 0 {
        return None;
    }
    let percent = 75 + Random::new(seed, 0).below(25);
    Some(requests.saturating_mul(percent) / 100)
}

// Whose request it is: the first two threads, which serve one at once, have one in fifty each.
fn thread_of(request: u128) -> u32 {
    match (request % 50) as u32 {
        place @ (0 | 1) => place,
        place => 2 + place % (THREADS - 2),
    }
}

// A thread for each Station, without requests.
fn idle<K: Naming>(
    alloc: Global,
    seed: u64,
    mut stations: Vec<Station>,
) -> Result<Vec<Worker<K>>, AllocError>
    requires { All (λ t. station_gate t ≡ K.level.gate) stations.items }
{
    let mut workers = Vec::with_capacity(alloc, stations.len())?;
    while let Some(station) = stations.pop() {
        let thread = workers.len() as u64;
        let random = Random::new(seed, thread.saturating_add(1));
        workers.push(Worker::new(alloc, Operator::new(station), random))?;
    }
    Ok(workers)
}

/// A thread for each Station, and the requests dealt out to them, one after another.
///
/// # Errors
///
/// `AllocError` if memory was refused.
pub fn deal_out<K: Naming>(
    alloc: Global,
    seed: u64,
    mut passes: Vec<Pass>,
    stations: Vec<Station>,
) -> Result<Vec<Worker<K>>, AllocError>
    requires passes { All (λ t. (pass_gate t ≡ K.level.gate) × (t.pass.state ≡ Fresh)) passes.items }
    requires stations { All (λ t. station_gate t ≡ K.level.gate) stations.items }
{
    let mut workers = idle::<K>(alloc, seed, stations)?;
    while let Some(pass) = passes.pop() {
        let thread = thread_of(pass.number());
        if let Some(worker) = workers.get_mut(thread as usize) {
            worker.add(pass)?;
        }
    }
    Ok(workers)
}

/// Each brings its requests to their ends, in a thread of its own.
pub fn work_all<K: Naming, R: Threads + Wait + Sync>(
    rt: &R,
    stage: &Stage<'_, K>,
    workers: &mut [Worker<K>],
) {
    thread::for_each_mut(
        rt,
        workers,
        THREADS as usize,
        &|thread, worker| worker.work(rt, stage, thread),
    );
}

impl<K: Naming> Gathered<K> {
    fn new(alloc: Global, requests: usize) -> Result<Gathered<K>, AllocError> {
        Ok(Gathered {
            dones: Vec::new(alloc),
            stations: Vec::new(alloc),
            notes: vec![in alloc; Note::default(); requests]?,
            acts: Vec::new(alloc),
            of: PhantomData,
        })
    }

    fn note(&mut self, notes: &[(u32, Note)]) {
        for (number, note) in notes {
            if let Some(place) = self.notes.get_mut(*number as usize) {
                *place = *note;
            }
        }
    }

    fn add(&mut self, worker: Worker<K>) -> Result<(), AllocError> {
        let (station, mut dones, notes, mut acts) = worker.into_parts();
        self.stations.push(station)?;
        self.dones.append(&mut dones)?;
        self.acts.append(&mut acts)?;
        self.note(notes.as_slice());
        Ok(())
    }
}

/// What is left of the threads of this many requests.
///
/// # Errors
///
/// `AllocError` if memory was refused.
pub fn gather<K: Naming>(
    alloc: Global,
    requests: usize,
    mut workers: Vec<Worker<K>>,
) -> Result<Gathered<K>, AllocError> {
    let mut gathered = Gathered::new(alloc, requests)?;
    while let Some(worker) = workers.pop() {
        gathered.add(worker)?;
    }
    Ok(gathered)
}
