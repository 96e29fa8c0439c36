//! How a level of a batch is opened, all of whose requests are known beforehand.

ghost use Rattle.std.specs.Prelude.{◌≡◌, ◌≢◌, ◌≤◌, ◌<◌, ℕ, length, slice_get, Some, All, IfOk, IfErr, OnOk, MatchOption};
ghost use Rattle.apf_words.specs.Limits.{max_requests, max_width, max_cost};
ghost use Rattle.apf_gate.specs.Opens.{IsWidth};
ghost use Rattle.apf_local.specs.Batches.{HaveWidths, IsFirstBad, AreFresh, BecomeFresh, IsBatch, CanOpenBatch, IsBatchFault};
ghost use Rattle.apf_local.specs.Levels.{SameLocal};

use crate::answer::Ask;
use crate::fault::OpenFault;
use crate::level::LocalLevel;
use apf_gate::GateFault;
use apf_model::Config;
use apf_words::{MAX_LIMIT, MAX_REQUESTS, MAX_WIDTH};
use std::alloc::Global;

// The first request whose width is not one of 1 to 20,000 seats.
fn first_bad(asks: &[Ask]) -> Option<usize>
    ensures { MatchOption result (HaveWidths asks.now) (IsFirstBad asks.now) }
{
    for (request, ask) in asks.iter().enumerate() {
        if !(1..=MAX_WIDTH).contains(&ask.width) {
            return Some(request);
        }
    }
    None
}

// Each slot of a level that was just opened goes on to its request.
fn renew_all(level: &mut LocalLevel, asks: &[Ask])
    requires opened { AreFresh level.old (length asks.now) }
    requires widths { HaveWidths asks.now }
    requires costs { All (λ a. (1 ≤ a.cost) × (a.cost ≤ max_cost)) asks.now }
    ensures fresh { BecomeFresh level.old asks.now (length asks.now) level.new }
{
    for slot in 0..asks.len() {
        if !level.renew(slot, asks[slot]) {
            unreachable!();
        }
    }
}

impl LocalLevel {
    /// A level of a batch: a slot for each of these requests, in their order, each of which is there and did not arrive yet.
    /// They arrive by `arrive_renewed`, and a slot is used once. All memory is taken here.
    ///
    /// Each cost is 1 to 4,294,967,295.
    ///
    /// # Errors
    ///
    /// The gate's fault, of which `BadWidth` names the first request whose width is not 1 to 20,000 seats; the dealer's, or
    /// the queues', the first of these; and `NoMemory` whenever memory was refused. The settings of queues have no fault where
    /// the level has none.
    pub fn open_batch(alloc: Global, config: &Config, asks: &[Ask]) -> Result<LocalLevel, OpenFault>
        requires costs { All (λ a. (1 ≤ a.cost) × (a.cost ≤ max_cost)) asks.now }
        ensures opened { IfOk result (IsBatch config.now asks.now) }
        ensures settings { OnOk result (CanOpenBatch config.now asks.now) }
        ensures fault { IfErr result (IsBatchFault config.now asks.now) }
    {
        if config.limit < 1 || config.limit > MAX_LIMIT {
            return Err(OpenFault::Gate(GateFault::BadLimit));
        }
        if let Some(request) = first_bad(asks) {
            return Err(OpenFault::Gate(GateFault::BadWidth(request)));
        }
        if asks.len() > MAX_REQUESTS as usize {
            return Err(OpenFault::Gate(GateFault::TooMany));
        }
        let mut level = LocalLevel::open(alloc, config, asks.len() as u32)?;
        level.has_a_history();
        renew_all(&mut level, asks);
        Ok(level)
    }
}
