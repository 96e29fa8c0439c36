//! The calls of a Station, of which tests need to know no more than that the token stays its gate's.

ghost use Rattle.std.specs.Prelude.{◌≡◌, ◌≤◌};
ghost use Rattle.apf_words.specs.Limits.{max_limit};
ghost use Rattle.apf_gate.specs.Tokens.{desk_gate, station_gate};
ghost use Rattle.apf_gate_tests.specs.Stages.{IsNamed};

use apf_gate::{Cancel, Close, Desk, Gate, Read, Station, Ticket, TrySetLimit};
use apf_words::{Decision, LevelWord};
use std::alloc::Global;

/// Reads the level word.
pub fn look(gate: &Gate<Global>, station: &mut Station) -> LevelWord
    requires { station_gate station.old ≡ gate.now }
    ensures { station_gate station.new ≡ gate.now }
{
    gate.look(station)
}

/// Reads a request's decision.
pub fn read(gate: &Gate<Global>, station: &mut Station, request: u128) -> Option<Decision>
    requires own { station_gate station.old ≡ gate.now }
    requires is_request { IsNamed gate.now.shape request }
    ensures { station_gate station.new ≡ gate.now }
{
    match gate.read(station, Ticket { number: request }) {
        Read::Is(found) => found,
        Read::Other => unreachable!(),
    }
}

/// Cancels a request.
pub fn cancel(gate: &Gate<Global>, station: &mut Station, request: u128) -> Decision
    requires own { station_gate station.old ≡ gate.now }
    requires is_request { IsNamed gate.now.shape request }
    ensures { station_gate station.new ≡ gate.now }
{
    match gate.cancel(station, Ticket { number: request }) {
        Cancel::Is(decision) => decision,
        Cancel::Other => unreachable!(),
    }
}

/// Closes the level.
pub fn close(gate: &Gate<Global>, station: &mut Station) -> Close
    requires { station_gate station.old ≡ gate.now }
    ensures { station_gate station.new ≡ gate.now }
{
    gate.close(station)
}

/// Tries to set the limit.
pub fn set_limit(gate: &Gate<Global>, station: &mut Station, limit: u32) -> TrySetLimit
    requires own { station_gate station.old ≡ gate.now }
    requires some { 1 ≤ limit }
    requires small { limit ≤ max_limit }
    ensures { station_gate station.new ≡ gate.now }
{
    gate.try_set_limit(station, limit)
}

/// Tells the Desk what it knows.
pub fn tell(gate: &Gate<Global>, station: &mut Station, desk: &mut Desk)
    requires own { station_gate station.old ≡ gate.now }
    requires own_desk { desk_gate desk.old ≡ gate.now }
    ensures own { station_gate station.new ≡ gate.now }
    ensures own_desk { desk_gate desk.new ≡ gate.now }
{
    gate.hear_station(desk, station);
}
