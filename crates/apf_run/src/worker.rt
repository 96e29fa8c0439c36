//! A worker of a run: its Station, and its share of the requests.

ghost use Rattle.std.specs.Prelude.{◌≡◌, ◌+◌, ◌<◌, [], length, true, Some, IfOk, IfSome, OnOk};
ghost use Rattle.apf_gate.specs.Tokens.{pass_gate};
ghost use Rattle.apf_run.specs.Plans.{AreOrders};
ghost use Rattle.apf_run.specs.Workers.{IsFresh, SawClosed, IsLoadOf};

use crate::operator::Operator;
use crate::plan::Plan;
use apf_files::Request;
use apf_gate::{Pass, Station};
use apf_level::{Admit, Done, Level, Running};
use apf_session::release;
use std::alloc::{AllocError, Global};
use std::marker::Model;
use std::sync::Wait;

/// What the requests of a run do while they execute. All workers share it.
pub trait Work: Sync {
    /// Does this many units of work for the request that executes. It is lent what says so: its seats stand.
    fn work(&self, running: &Running, units: u32);
}

/// A worker of the level that K names, with its share of K's requests.
#[derive(Drop)]
pub struct Worker<K: Plan> {
    operator: Operator<K>,
    // of the requests that did not arrive, the first one last
    passes: Vec<Pass>,
    dones: Vec<Done>,
}

impl<K: Plan> Model for Worker<K> {
    ghost use Rattle.apf_run.specs.Workers.{Load, IsLoadOf};

    ghost Value = { Load };

    ghost view = { λ w. record { station = w.operator; passes = w.passes.items; dones = w.dones.items } };

    ghost invariant = { λ w. IsLoadOf K.level.gate K.requests (record { station = w.operator; passes = w.passes.items; dones = w.dones.items }) };
}

/// What all workers of the level that K names share.
#[derive(Drop)]
pub struct Job<'a, K: Plan, W: Work> {
    level: &'a Level<K>,
    requests: &'a [Request],
    work: &'a W,
}

impl<'a, K: Plan, W: Work> Model for Job<'a, K, W> {
    ghost use Rattle.std.specs.Prelude.{List};
    ghost use Rattle.apf_files.specs.declared.requests.Request.{Request};
    ghost use Rattle.apf_run.specs.Plans.{AreOrders};

    ghost Value = { List Request };

    ghost view = { λ j. j.requests.now };

    ghost invariant = { λ j. AreOrders K.level.gate K.requests j.requests.now };
}

impl<'a, K: Plan, W: Work> Job<'a, K, W> {
    /// This work, of these requests, at the level.
    pub fn new(level: &'a Level<K>, requests: &'a [Request], work: &'a W) -> Job<'a, K, W>
        requires { AreOrders K.level.gate K.requests requests.now }
    {
        Job {
            level,
            requests,
            work,
        }
    }

    // Whom the request names to be cancelled, if that one is there.
    fn named_by(&self, request: Request) -> Option<u32>
        ensures inside { IfSome result (λ r. r < length self.now) }
        ensures named { IfSome result (λ r. request.cancels ≡ Some r) }
    {
        let other = request.cancels?;
        if other as usize >= self.requests.len() {
            return None;
        }
        Some(other)
    }
}

// Brings a request to its end: closes the level if the request says so, and waits until it is decided. If it
// executes, it does its work, cancels whom it names, gives its seats back, and dispatches where requests wait.
fn handle<K: Plan, W: Work, R: Wait>(
    rt: &R,
    job: &Job<'_, K, W>,
    operator: &mut Operator<K>,
    pass: Pass,
) -> Done
    requires { IsFresh K.level.gate pass }
    ensures own { pass_gate result ≡ K.level.gate }
    ensures closed { SawClosed K.requests operator.new result }
    ensures stays_closed { operator.old.station.knows.saw_closed ≡ true → operator.new.station.knows.saw_closed ≡ true }
{
    job.level.is_a_batch();
    let request = job.requests[pass.number() as usize];
    if request.closes {
        operator.close(job.level);
    }
    match job.level.admit(rt, pass) {
        Admit::Run(running) => {
            job.work.work(&running, request.work);
            if let Some(other) = job.named_by(request) {
                let (_decision, owed) = operator.cancel(job.level, other);
                job.level.strike_if_owed(rt, owed);
            }
            release(rt, job.level, running)
        }
        Admit::Over(done, _decision) => done,
    }
}

impl<K: Plan> Worker<K> {
    /// A worker with this Station, and memory for this many requests.
    ///
    /// # Errors
    ///
    /// `AllocError` if memory was refused.
    pub fn new(alloc: Global, operator: Operator<K>, share: usize) -> Result<Worker<K>, AllocError>
        ensures { IfOk result (λ w. (w.passes ≡ []) × (w.dones ≡ [])) }
    {
        Ok(Worker {
            operator,
            passes: Vec::with_capacity(alloc, share)?,
            dones: Vec::with_capacity(alloc, share)?,
        })
    }

    /// Gives the worker a request, which it will bring to its end before those that it has.
    ///
    /// # Errors
    ///
    /// `AllocError` if memory was refused.
    pub fn add(&mut self, pass: Pass) -> Result<(), AllocError>
        requires { IsFresh K.level.gate pass }
        ensures passes { OnOk result (length self.new.passes ≡ length self.old.passes + 1) }
        ensures dones { self.new.dones ≡ self.old.dones }
    {
        self.passes.push(pass)?;
        Ok(())
    }

    /// Brings each of its requests to its end, one after another.
    ///
    /// # Errors
    ///
    /// `AllocError` if memory was refused. Then the rest of them does not arrive.
    pub fn work<W: Work, R: Wait>(
        self,
        rt: &R,
        job: &Job<'_, K, W>,
    ) -> Result<Worker<K>, AllocError>
        ensures { IfOk result (λ w. length w.dones ≡ length self.dones + length self.passes) }
    {
        let Worker {
            mut operator,
            mut passes,
            mut dones,
        } = self;
        while let Some(pass) = passes.pop() {
            dones.push(handle(rt, job, &mut operator, pass))?;
        }
        Ok(Worker {
            operator,
            passes,
            dones,
        })
    }

    /// How many requests it has that did not arrive.
    pub fn share(&self) -> usize
        ensures { result ≡ length self.now.passes }
    {
        self.passes.len()
    }

    /// The Station, and what is left of the requests that came to their end.
    pub fn into_parts(self) -> (Station, Vec<Done>)
        ensures station { result.0 ≡ self.station }
        ensures dones { result.1.items ≡ self.dones }
        ensures load { IsLoadOf K.level.gate K.requests self }
    {
        let Worker {
            operator,
            passes: _,
            dones,
        } = self;
        (operator.into_station(), dones)
    }
}
