//! What requests are charged where nobody says it.

ghost use Rattle.std.specs.Prelude.{◌≡◌, unwrap_or};
ghost use Rattle.apf_simulator.specs.Lanes.{usual_charge};

use apf_charges::ChargedBy;
use apf_trace_reader::TraceReader;

/// What requests are charged: this, or where nothing is said, time, but their seats if a line that was read so far says what
/// its request is charged.
pub(crate) fn charge_or_usual(by: Option<ChargedBy>, reader: &TraceReader) -> ChargedBy
    ensures { result ≡ unwrap_or by (usual_charge reader.now.has_cost) }
{
    match by {
        Some(by) => by,
        None if reader.has_cost() => ChargedBy::Seats,
        None => ChargedBy::Time,
    }
}
