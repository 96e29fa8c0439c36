//! What the request of a line asks for.

ghost use Rattle.std.specs.Prelude.{◌≡◌};
ghost use Rattle.apf_traces.specs.TraceValue.{IsRequestInRange};
ghost use Rattle.apf_stream.specs.States.{IsAsked};
ghost use Rattle.apf_simulator.specs.Lanes.{asked_by};

use apf_stream::Asked;
use apf_times::{Arrival, Times};
use apf_traces::TraceRequest;

/// What the request of a line asks for.
#[tactic(auto, using(crate::proofs::Asking::in_range))]
pub(crate) fn asked_of(came: &Arrival<TraceRequest>) -> Asked
    requires { IsRequestInRange came.now.item }
    ensures is { result ≡ asked_by came.now }
    ensures range { IsAsked result }
{
    let asked = &came.item;
    Asked {
        line: came.place.line,
        times: Times {
            arrives_at: asked.arrives_at,
            runs_for: asked.runs_for,
        },
        width: asked.width,
        hash: asked.hash,
        cost: asked.cost,
    }
}
