//! Opens the gate of a level.

ghost use Rattle.std.specs.Prelude.{◌≡◌, ◌≤◌, length, All, IfOk, IfErr};
ghost use Rattle.apf_words.specs.Limits.{max_requests, max_stations};
ghost use Rattle.apf_gate.specs.declared.record.State.TheVariants.{Fresh};
ghost use Rattle.apf_gate.specs.Gauges.{max_numbers};
ghost use Rattle.apf_gate.specs.Records.{new_desk};
ghost use Rattle.apf_gate.specs.Tokens.{pass_gate, station_gate};
ghost use Rattle.apf_session.specs.Openings.{IsNew};
ghost use Rattle.apf_session.specs.LifeOpenings.{IsFirstOf, IsOpenFault, CanOpenGate};

use crate::fault::OpenFault;
use apf_gate::{Desk, Gate, Pass, Station};
use apf_model::Config;
use std::alloc::Global;

/// The settings of a level with its gate, which was just opened for them, and the gate's tokens: no request came of any
/// slot, and no Station made a step.
#[derive(Drop)]
pub struct Opening {
    pub config: Config,
    pub gate: Gate<Global>,
    pub desk: Desk,
    pub passes: Vec<Pass>,
    pub stations: Vec<Station>,
    pub ghost desk_is: { desk ≡ record { table = gate.table; desk = new_desk gate.shape } },
    pub ghost limit_is: { gate.shape.limit ≡ config.limit },
    pub ghost response_is: { gate.shape.response ≡ config.limit_response },
    pub ghost numbers_are: { length gate.shape.widths ≡ max_numbers },
    pub ghost passes_are: { All (λ t. (pass_gate t ≡ gate) × (t.pass.state ≡ Fresh)) passes.items },
    pub ghost passes_first: { All (IsFirstOf gate) passes.items },
    pub ghost passes_count: { length passes.items ≡ gate.shape.slots },
    pub ghost stations_are: { All (λ t. station_gate t ≡ gate) stations.items },
    pub ghost stations_new: { All (IsNew gate) stations.items },
    pub ghost stations_count: { length stations.items ≡ gate.shape.stations },
    pub ghost can_open: { CanOpenGate config gate.shape.slots gate.shape.stations },
}

impl Opening {
    /// The gate of a level with this many slots, at most 10,000, and this many Stations, at most 64. Each slot is for one
    /// request after another.
    ///
    /// # Errors
    ///
    /// The first of these: `BadLimit` and `TooMany`, each in `OpenFault::Gate`. `NoMemory` whenever memory was
    /// refused.
    pub fn new(
        alloc: Global,
        config: &Config,
        slots: usize,
        stations: u32,
    ) -> Result<Opening, OpenFault>
        ensures config { IfOk result (λ o. o.config ≡ config.now) }
        ensures slots { IfOk result (λ o. o.gate.shape.slots ≡ slots) }
        ensures stations { IfOk result (λ o. o.gate.shape.stations ≡ stations) }
        ensures fault { IfErr result (IsOpenFault config.now slots stations) }
    {
        let widths = vec![in alloc; 1; slots]?;
        let (gate, desk, passes, stations) = Gate::open_for_life(
            alloc,
            config.limit,
            widths.as_slice(),
            stations,
            config.limit_response,
        )?;
        Ok(Opening {
            config: *config,
            gate,
            desk,
            passes,
            stations,
        })
    }
}
