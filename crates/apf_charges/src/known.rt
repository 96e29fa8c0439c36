//! The flows of one set, each with its mean.

ghost use Rattle.std.specs.Prelude.{◌≡◌, ◌≢◌, ℕ, ◌<◌, ◌≤◌, MatchOption, length, []};
ghost use Rattle.apf_charges.specs.Table.{learned, or_none, others, mean_in as mean_of_flow, flow_at};

use crate::mean::Mean;
use arrayvec::ArrayVec;
use std::marker::Model;

// How many flows a set has room for.
const ROOM: usize = 8;

/// A flow, by its hash, and the mean of how long its requests ran.
#[derive(Clone, Copy, Debug, Default, PartialEq, Eq)]
pub struct Known {
    pub flow: u64,
    pub mean: Mean,
}

/// At most 8 flows, of which that stands first of which a request ended last.
#[derive(Drop)]
pub(crate) struct KnownFlows {
    flows: ArrayVec<Known, 8>,
}

impl Model for KnownFlows {
    ghost use Rattle.std.specs.Prelude.{List};
    ghost use Rattle.apf_charges.specs.declared.known.Known.{Known};

    ghost Value = { List Known };

    ghost view = { λ set. set.flows.items };
}

// Where the flow stands.
fn place_of(flows: &[Known], flow: u64) -> Option<usize>
    ensures found { MatchOption result
        ((k : ℕ) → k < length flows.now → flow_at flows.now k ≢ flow)
        (λ at. (at < length flows.now) × (flow_at flows.now at ≡ flow)
        × ((k : ℕ) → k < at → flow_at flows.now k ≢ flow)) }
{
    flows.iter().position(|known| known.flow == flow)
}

impl KnownFlows {
    /// No flow.
    pub(crate) fn none() -> KnownFlows
        ensures { result ≡ [] }
    {
        KnownFlows {
            flows: ArrayVec::new(),
        }
    }

    /// The mean of the flow, if it is known.
    pub(crate) fn mean_of(&self, flow: u64) -> Option<Mean>
        ensures { result ≡ mean_of_flow flow self.now }
    {
        match place_of(self.flows.as_slice(), flow) {
            Some(at) => Some(self.flows[at].mean),
            None => None,
        }
    }

    // Takes the flow out. Tells its mean, that of none if it is not known.
    fn forget(&mut self, flow: u64) -> Mean
        ensures mean { result ≡ or_none (mean_of_flow flow self.old) }
        ensures rest { self.new ≡ others flow self.old }
    {
        match place_of(self.flows.as_slice(), flow) {
            Some(at) => self.flows.remove(at).mean,
            None => Mean::none(),
        }
    }

    /// A request of the flow ran this many microseconds. The flow comes first, and where there is no room the last one goes.
    pub(crate) fn learn(&mut self, flow: u64, micros: u64)
        ensures { self.new ≡ learned flow micros self.old }
    {
        let mean = self.forget(flow).with(micros);
        self.flows.truncate(ROOM - 1);
        self.flows.insert(0, Known { flow, mean });
    }
}
