//! Opens the gate of a level.

ghost use Rattle.std.specs.Prelude.{◌≡◌, ◌≤◌, [], length, map, All, IfOk, IfErr};
ghost use Rattle.apf_words.specs.Limits.{max_requests, max_stations};
ghost use Rattle.apf_gate.specs.declared.record.State.TheVariants.{Fresh};
ghost use Rattle.apf_gate.specs.Records.{new_desk};
ghost use Rattle.apf_gate.specs.Gauges.{IsShape};
ghost use Rattle.apf_gate.specs.Tokens.{pass_gate, station_gate};
ghost use Rattle.apf_session.specs.Openings.{shape_for, IsNew, IsOpenFault};
ghost use Rattle.apf_session.specs.Requests.{ArePassesNumbered};

use crate::fault::OpenFault;
use apf_book::{Ask, Config};
use apf_gate::{Desk, Gate, Pass, Station};
use apf_level::{Board, StatsPass, Window, open_statistics};
use std::alloc::Global;

/// The settings of a level with its gate, which was just opened for them, the gate's tokens, and the ends of its
/// statistics.
#[derive(Drop)]
pub struct Opening<'a> {
    pub config: Config,
    pub asks: &'a [Ask],
    pub gate: Gate<Global>,
    pub desk: Desk,
    pub passes: Vec<Pass>,
    pub stations: Vec<Station>,
    pub board: Board,
    pub window: Window,
    pub reader: StatsPass,
    pub ghost desk_is: { desk ≡ record { table = gate.table; desk = new_desk gate.shape } },
    pub ghost is_a_batch: { length gate.shape.widths ≡ gate.shape.slots },
    pub ghost limit_is: { gate.shape.limit ≡ config.limit },
    pub ghost widths_are: { map (λ a. a.width) asks.now ≡ gate.shape.widths },
    pub ghost response_is: { gate.shape.response ≡ config.limit_response },
    pub ghost passes_are: { All (λ t. (pass_gate t ≡ gate) × (t.pass.state ≡ Fresh)) passes.items },
    pub ghost passes_numbered: { ArePassesNumbered passes.items },
    pub ghost stations_are: { All (λ t. station_gate t ≡ gate) stations.items },
    pub ghost stations_new: { All (IsNew gate) stations.items },
    pub ghost passes_count: { length passes.items ≡ length gate.shape.widths },
    pub ghost stations_count: { length stations.items ≡ gate.shape.stations },
    pub ghost is_shape: { IsShape (shape_for config asks.now gate.shape.stations) },
    pub ghost few_stations: { gate.shape.stations ≤ max_stations },
    pub ghost few: { length asks.now ≤ max_requests },
    pub ghost window_is: { window ≡ board.cell },
    pub ghost reader_is: { reader.cell ≡ board.cell },
    pub ghost nothing_published: { board.trace ≡ [] },
    pub ghost nothing_read: { reader.trace ≡ [] },
}

impl<'a> Opening<'a> {
    /// The gate of a level of these requests, 10,000 at most, with this many Stations, 64 at most.
    ///
    /// # Errors
    ///
    /// The first of these: `BadLimit`, `BadWidth` of the first bad width, and `TooMany`, each in `OpenFault::Gate`.
    /// `NoMemory` whenever memory was refused.
    pub fn new(
        alloc: Global,
        config: &Config,
        asks: &'a [Ask],
        stations: u32,
    ) -> Result<Opening<'a>, OpenFault>
        ensures config { IfOk result (λ o. o.config ≡ config.now) }
        ensures asks { IfOk result (λ o. o.asks.now ≡ asks.now) }
        ensures stations { IfOk result (λ o. o.gate.shape.stations ≡ stations) }
        ensures fault { IfErr result (IsOpenFault config.now asks.now stations) }
    {
        let widths: Vec<u32> = asks.iter().map(|ask| ask.width).collect(alloc)?;
        let (gate, desk, passes, stations) = Gate::open(
            alloc,
            config.limit,
            widths.as_slice(),
            stations,
            config.limit_response,
        )?;
        let (board, window, reader) = open_statistics(alloc)?;
        Ok(Opening {
            config: *config,
            asks,
            gate,
            desk,
            passes,
            stations,
            board,
            window,
            reader,
        })
    }
}
