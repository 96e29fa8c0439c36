//! The calls of a Station that name a request, of which tests need to know no more than that the token stays its
//! gate's.

ghost use Rattle.std.specs.Prelude.{◌≡◌, ◌<◌, length};
ghost use Rattle.apf_gate.specs.Tokens.{station_gate};

use apf_gate::{Cancel, Gate, Read, Station, Ticket};
use apf_words::Decision;
use std::alloc::Allocator;

/// Cancels a request of a batch.
pub fn cancel<A: Allocator>(gate: &Gate<A>, station: &mut Station, request: u32) -> Decision
    requires own { station_gate station.old ≡ gate.now }
    requires batch { length gate.now.shape.widths ≡ gate.now.shape.slots }
    requires is_request { request < length gate.now.shape.widths }
    ensures { station_gate station.new ≡ gate.now }
{
    gate.is_ticket(request);
    match gate.cancel(station, Ticket::of(request)) {
        Cancel::Is(decision) => decision,
        Cancel::Other => unreachable!(),
    }
}

/// Reads the decision of a request of a batch.
pub fn read<A: Allocator>(gate: &Gate<A>, station: &mut Station, request: u32) -> Option<Decision>
    requires own { station_gate station.old ≡ gate.now }
    requires batch { length gate.now.shape.widths ≡ gate.now.shape.slots }
    requires is_request { request < length gate.now.shape.widths }
    ensures { station_gate station.new ≡ gate.now }
{
    gate.is_ticket(request);
    match gate.read(station, Ticket::of(request)) {
        Read::Is(found) => found,
        Read::Other => unreachable!(),
    }
}
