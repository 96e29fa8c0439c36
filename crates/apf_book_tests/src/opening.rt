//! Opens the gate and the book of a level.

ghost use Rattle.std.specs.Prelude.{◌≡◌, ◌≤◌, length, map, IfOk, All};
ghost use Rattle.apf_words.specs.Limits.{max_requests};
ghost use Rattle.apf_model.specs.declared.response.Response.TheVariants.{Queue};
ghost use Rattle.apf_gate.specs.declared.record.State.TheVariants.{Fresh};
ghost use Rattle.apf_gate.specs.Gauges.{IsShape};
ghost use Rattle.apf_gate.specs.Records.{new_desk};
ghost use Rattle.apf_gate.specs.Tokens.{pass_gate, desk_gate, station_gate};

use crate::marks::Mark;
use crate::requests::Request;
use apf_book::{Ask, BookFault, Config};
use apf_gate::{Gate, GateFault, Opened, Pass};
use apf_model::Response;
use std::alloc::{AllocError, Allocator};

/// Why a level was not opened.
#[derive(Clone, Copy, Debug, PartialEq, Eq)]
pub enum Fault {
    /// The gate's.
    Gate(GateFault),
    /// The book's.
    Book(BookFault),
    /// There was no memory for the test's own lists.
    NoMemory,
}

impl From<GateFault> for Fault {
    fn from(fault: GateFault) -> Self {
        Self::Gate(fault)
    }
}

impl From<BookFault> for Fault {
    fn from(fault: BookFault) -> Self {
        Self::Book(fault)
    }
}

impl From<AllocError> for Fault {
    fn from(_error: AllocError) -> Self {
        Self::NoMemory
    }
}

/// A request that takes this many seats, of a flow with this hash.
pub fn ask(width: u32, hash: u64) -> Ask {
    Ask { width, hash }
}

/// The gate of a level of these requests, with its tokens.
pub fn open_gate<A: Allocator + Copy>(
    alloc: A,
    config: &Config,
    asks: &[Ask],
    stations: u32,
) -> Result<Opened<A>, Fault>
    ensures desk { IfOk result (λ o. (desk_gate o.1 ≡ o.0) × (o.1.desk ≡ new_desk o.1.desk.knows.shape)) }
    ensures shape { IfOk result (λ o. IsShape o.0.shape × (length o.0.shape.widths ≡ o.0.shape.slots) × (o.0.shape.response ≡ Queue) × (o.0.shape.stations ≡ stations)) }
    ensures widths { IfOk result (λ o. map (λ a. a.width) asks.now ≡ o.0.shape.widths) }
    ensures passes { IfOk result (λ o. All (λ t. (pass_gate t ≡ o.0) × (t.pass.state ≡ Fresh)) o.2.items) }
    ensures stations { IfOk result (λ o. All (λ t. station_gate t ≡ o.0) o.3.items) }
    ensures counts { IfOk result (λ o. (length o.2.items ≡ length asks.now) × (length o.3.items ≡ stations)) }
{
    let widths: Vec<u32, A> = asks.iter().map(|ask| ask.width).collect(alloc)?;
    Ok(Gate::open(
        alloc,
        config.limit,
        widths.as_slice(),
        stations,
        Response::Queue,
    )?)
}

/// The requests of these Passes, in their order.
pub fn requests_of<A: Allocator, K: Mark>(
    alloc: A,
    mut passes: Vec<Pass, A>,
) -> Result<Vec<Request<K>, A>, AllocError>
    requires passes { All (λ t. (pass_gate t ≡ K.gate) × (t.pass.state ≡ Fresh)) passes.items }
    requires few { length K.gate.shape.widths ≤ max_requests }
    ensures { IfOk result (λ v. length v.items ≡ length passes.items) }
{
    let mut requests = Vec::with_capacity(alloc, passes.len())?;
    while let Some(pass) = passes.pop() {
        requests.push(Request::new(pass))?;
    }
    requests.reverse();
    Ok(requests)
}

/// The Passes of these requests, and which of them executed with the seats that they took on arrival.
pub fn passes_of<A: Allocator, K: Mark>(
    alloc: A,
    mut requests: Vec<Request<K>, A>,
    took: &mut [bool],
) -> Result<Vec<Pass, A>, AllocError>
    ensures count { IfOk result (λ v. length v.items ≡ length requests.items) }
    ensures own { IfOk result (λ v. All (λ t. pass_gate t ≡ K.gate) v.items) }
    ensures took { length took.new ≡ length took.old }
{
    let mut passes = Vec::with_capacity(alloc, requests.len())?;
    while let Some(request) = requests.pop() {
        if let Some(mark) = took.get_mut(request.number() as usize) {
            *mark = request.took();
        }
        passes.push(request.into_pass())?;
    }
    Ok(passes)
}
