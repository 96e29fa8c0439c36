//! Which requests of a trace are of one flow.

ghost use Rattle.std.specs.Prelude.{◌≡◌, ◌<◌, ◌≤◌, ◌^◌, length, vec_len, IfOk};
ghost use Rattle.std.specs.Ordering.{nat_cmp};
ghost use Rattle.std.specs.BTreeMap.{get};
ghost use Rattle.apf_words.specs.Limits.{max_requests};
ghost use Rattle.apf_flows.specs.Known.{FindsFlow};
ghost use Rattle.apf_flows.specs.Flows.{AreFlows, firsts_of, hashes_of};

use apf_traces::TraceRequest;
use std::alloc::{AllocError, Global};
use std::collections::BTreeMap;

/// The flows of a trace, in the order of their first requests. Requests of one hash are one flow.
#[derive(Debug, Drop)]
pub struct Flows {
    /// The number of each flow's first request.
    pub firsts: Vec<u32>,
    /// The flow of each request, as its place among the flows.
    pub of: Vec<u32>,
}

// The flow of a hash. A hash that is not known begins a flow, whose first request is this one.
fn flow_of(
    known: &mut BTreeMap<u64, u32>,
    firsts: &mut Vec<u32>,
    hash: u64,
    request: u32,
) -> Result<u32, AllocError>
    requires { vec_len firsts.old < 2 ^ 32 }
    ensures { IfOk result (λ flow. FindsFlow (get nat_cmp known.old) (get nat_cmp known.new) firsts.old.items firsts.new.items hash request flow) }
{
    if let Some(flow) = known.get(&hash) {
        return Ok(*flow);
    }
    let flow = firsts.len() as u32;
    known.insert(hash, flow)?;
    firsts.push(request)?;
    Ok(flow)
}

/// The flows of a trace of at most 10,000 requests.
///
/// # Errors
///
/// `AllocError` if memory was refused.
pub fn flows_of(alloc: Global, trace: &[TraceRequest]) -> Result<Flows, AllocError>
    requires { length trace.now ≤ max_requests }
    ensures flows { IfOk result (λ flows. AreFlows (hashes_of trace.now) flows.firsts.items flows.of.items) }
    ensures in_order { IfOk result (λ flows. flows.firsts.items ≡ firsts_of (hashes_of trace.now)) }
    ensures few { IfOk result (λ flows. vec_len flows.firsts ≤ length trace.now) }
{
    let mut known = BTreeMap::new(alloc);
    let mut firsts = Vec::new(alloc);
    let mut of = Vec::new(alloc);
    for (number, request) in trace.iter().enumerate() {
        let flow = flow_of(&mut known, &mut firsts, request.hash, number as u32)?;
        of.push(flow)?;
    }
    Ok(Flows { firsts, of })
}
