//! How long requests run that were turned away: the median of those that were read.

ghost use Rattle.std.specs.Prelude.{◌≡◌, ℕ, ◌-◌, ◌^◌, ◌<◌, ◌≤◌, List, [], ◌∷◌, ◌++◌, length, OnOk};
ghost use Rattle.apf_times.specs.Limits.{max_run};
ghost use Rattle.apf_times.specs.Waits.{AreKept};
ghost use Rattle.apf_audit.specs.AuditEvent.{Event, event};
ghost use Rattle.apf_audit.specs.Estimates.{AreEstimates, IsKeptMedian, KeepsOwn, run_read};

use crate::event::Taken;
use apf_times::{Waits, every_wait_is_kept};
use std::alloc::{AllocError, Global};
use std::collections::BTreeMap;
use std::marker::Model;

// The most flows whose runs are kept each on its own.
const MOST_FLOWS: usize = 100_000;

/// The runs of the requests that were read and not turned away, for their medians: of the first 100,000 flows of which
/// one ran each on its own, and of all. At most 10,000 runs are kept as they are, and counted after that.
#[derive(Drop)]
pub struct Estimates {
    alloc: Global,
    of_flow: BTreeMap<String, Waits<Global>>,
    of_all: Waits<Global>,
}

impl Model for Estimates {
    ghost use Rattle.apf_audit.specs.Estimates.{EstimatesView};

    ghost Value = { EstimatesView };

    ghost view = { λ e. record { of_flow = e.of_flow.entries; all = e.of_all } };
}

// One run more.
fn keep(runs: &mut Waits<Global>, run: u64) -> Result<(), AllocError>
    requires { run ≤ max_run }
    ensures { OnOk result ((those : List ℕ) → length those < 2 ^ 64 - 1 → AreKept those runs.old → AreKept (those ++ run ∷ []) runs.new) }
{
    every_wait_is_kept();
    if runs.len() == u64::MAX {
        return Ok(());
    }
    runs.add(run)
}

// One run more of a flow, if it has runs of its own, or there is room for them.
fn keep_own(
    alloc: Global,
    of_flow: &mut BTreeMap<String, Waits<Global>>,
    flow: &str,
    run: u64,
) -> Result<(), AllocError>
    requires { run ≤ max_run }
    ensures { OnOk result (KeepsOwn flow.now run of_flow.old.entries of_flow.new.entries) }
{
    if let Some(runs) = of_flow.get_mut(flow) {
        return keep(runs, run);
    }
    if of_flow.len() >= MOST_FLOWS {
        return Ok(());
    }
    let mut runs = Waits::new(alloc);
    keep(&mut runs, run)?;
    let name = String::from_str(alloc, flow)?;
    of_flow.insert(name, runs)?;
    Ok(())
}

// The median of runs that are kept.
fn median_of(runs: &mut Waits<Global>) -> u64
    ensures median { (those : List ℕ) → AreKept those runs.old → IsKeptMedian those result }
    ensures kept { (those : List ℕ) → AreKept those runs.old → AreKept those runs.new }
{
    runs.percentile(50)
}

impl Estimates {
    /// Nothing was read. No memory is taken.
    pub fn new(alloc: Global) -> Estimates
        ensures { AreEstimates [] result }
    {
        Estimates {
            alloc,
            of_flow: BTreeMap::new(alloc),
            of_all: Waits::new(alloc),
        }
    }

    /// The request was read.
    ///
    /// # Errors
    ///
    /// `AllocError` if memory was refused. Then nothing more is known of the estimates.
    pub fn add(&mut self, request: &Taken) -> Result<(), AllocError>
        requires { request.now.runs_for ≤ max_run }
        ensures { OnOk result ((events : List Event) → length events < 2 ^ 64 - 1 → AreEstimates events self.old → AreEstimates (events ++ event request.now ∷ []) self.new) }
    {
        if request.turned_away {
            return Ok(());
        }
        keep(&mut self.of_all, request.runs_for)?;
        keep_own(
            self.alloc,
            &mut self.of_flow,
            request.distinguisher.as_str(),
            request.runs_for,
        )
    }

    /// How long a request is to run: as long as it did, or if it was turned away the median of those of its flow that were
    /// read and ran; of all that were read and ran if none of its flow did, or its flow has no runs of its own; 0 if none
    /// ran. A median of more than 10,000 runs has zeros behind its first eight binary digits.
    pub fn run_of(&mut self, request: &Taken) -> u64
        ensures run { (events : List Event) → AreEstimates events self.old → result ≡ run_read events (event request.now) }
        ensures kept { (events : List Event) → AreEstimates events self.old → AreEstimates events self.new }
    {
        if !request.turned_away {
            return request.runs_for;
        }
        if let Some(runs) = self.of_flow.get_mut(request.distinguisher.as_str()) {
            return median_of(runs);
        }
        median_of(&mut self.of_all)
    }
}
