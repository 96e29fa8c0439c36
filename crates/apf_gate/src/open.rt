//! How a gate begins.

ghost use Rattle.std.specs.Prelude.{true, ◌≡◌, ◌≢◌, ◌⊎◌, ℕ, ◌<◌, ◌≤◌, [], length, slice_get, Some, All, IfOk, IfErr, OnOk, MatchOption};
ghost use Rattle.apf_model.specs.World.{width};
ghost use Rattle.apf_model.specs.Schedule.{AreWidths};
ghost use Rattle.apf_gate.specs.declared.record.Record.TheVariants as records;
ghost use Rattle.apf_gate.specs.Records.{new_desk, new_pass, new_station};
ghost use Rattle.apf_gate.specs.Gauges.{shape_of, shape_in, max_numbers, IsShape};
ghost use Rattle.apf_gate.specs.Rule.{opening_records, opening_stations};
ghost use Rattle.apf_gate.specs.declared.record.State.TheVariants.{Fresh};
ghost use Rattle.apf_gate.specs.Tokens.{pass_gate, station_gate};
ghost use Rattle.apf_gate.specs.Opens.{FaultOf, IsWidth, new_passes, new_stations};
ghost use Rattle.apf_gate.specs.declared.fault.GateFault.TheVariants.{NoMemory};

use crate::counts::Counts;
use crate::desk::Desk;
use crate::fault::GateFault;
use crate::gate::Gate;
use crate::pass::Pass;
use crate::plays::FirstRecord;
use crate::rule::{Board, Gauge, Place};
use crate::station::Station;
use apf_model::{Response, every_schedule_is_safe, every_world_adds_up};
use apf_words::{LevelWord, MAX_LIMIT, MAX_REQUESTS, MAX_STATIONS, MAX_WIDTH};
use std::alloc::{AllocError, Allocator};
use std::snapshot::Snapshot;
use std::sync::atomic::AtomicU64;

/// How many numbers of requests a gate has whose slots are used again.
const MAX_NUMBERS: u128 = 37_778_931_862_957_161_709_568;

/// A gate that was opened, with its tokens: the Desk, a Pass for each request, in their order, and the
/// Stations.
pub type Opened<A> = (Gate<A>, Desk, Vec<Pass, A>, Vec<Station, A>);

impl<A: Allocator + Copy> Gate<A> {
    /// Opens a gate, and hands out its tokens: the Desk, a Pass for each width, in their order, and as many
    /// Stations as are asked for. All memory is taken here.
    ///
    /// The limit is 1 to 10,000 seats, and each width 1 to 20,000. There are at most 10,000 widths and 64
    /// Stations.
    ///
    /// # Errors
    ///
    /// The first of these: `BadLimit`, `BadWidth` of the first bad width, `TooMany`, and `NoMemory` if memory
    /// was refused.
    pub fn open(
        alloc: A,
        limit: u32,
        widths: &[u32],
        stations: u32,
        response: Response,
    ) -> Result<Opened<A>, GateFault>
        ensures shape { IfOk result (λ o. o.0.shape ≡ shape_of limit response widths.now stations) }
        ensures is_shape { OnOk result (IsShape (shape_of limit response widths.now stations)) }
        ensures desk { IfOk result (λ o. o.1 ≡ record { table = o.0.table; desk = new_desk o.0.shape }) }
        ensures passes { IfOk result (λ o. o.2.items ≡ new_passes o.0 (length widths.now)) }
        ensures stations { IfOk result (λ o. o.3.items ≡ new_stations o.0 stations) }
        ensures each_pass { IfOk result (λ o. (r : ℕ) → r < length widths.now
            → slice_get o.2.items r ≡ Some (record { table = o.0.table; pass = new_pass o.0.shape r })) }
        ensures each_station { IfOk result (λ o. (k : ℕ) → k < stations
            → slice_get o.3.items k ≡ Some (record { table = o.0.table; station = new_station o.0.shape k })) }
        ensures fresh { IfOk result (λ o. All (λ t. (pass_gate t ≡ o.0) × (t.pass.state ≡ Fresh)) o.2.items) }
        ensures own { IfOk result (λ o. All (λ t. station_gate t ≡ o.0) o.3.items) }
        ensures counts { IfOk result (λ o. (length o.2.items ≡ length widths.now) × (length o.3.items ≡ stations)) }
        ensures fault { IfErr result (FaultOf (shape_of limit response widths.now stations)) }
    {
        if limit < 1 || limit > MAX_LIMIT {
            return Err(GateFault::BadLimit);
        }
        if let Some(request) = first_bad(widths) {
            return Err(GateFault::BadWidth(request));
        }
        if widths.len() > MAX_REQUESTS as usize || stations > MAX_STATIONS {
            return Err(GateFault::TooMany);
        }
        Gate::laid(alloc, false, 0, limit, widths, stations, response)
    }

    /// Opens a gate whose slots are used again, one for each width, which is that of the slot's first request. It
    /// hands out the tokens of the first requests, whose numbers are those of the slots.
    ///
    /// # Errors
    ///
    /// As of `open`.
    pub fn open_for_life(
        alloc: A,
        limit: u32,
        widths: &[u32],
        stations: u32,
        response: Response,
    ) -> Result<Opened<A>, GateFault>
        ensures shape { IfOk result (λ o. o.0.shape ≡ shape_in true max_numbers limit response widths.now stations) }
        ensures desk { IfOk result (λ o. o.1 ≡ record { table = o.0.table; desk = new_desk o.0.shape }) }
        ensures passes { IfOk result (λ o. o.2.items ≡ new_passes o.0 (length widths.now)) }
        ensures stations { IfOk result (λ o. o.3.items ≡ new_stations o.0 stations) }
        ensures is_shape { OnOk result (IsShape (shape_in true max_numbers limit response widths.now stations)) }
        ensures each_pass { IfOk result (λ o. (r : ℕ) → r < length widths.now
            → slice_get o.2.items r ≡ Some (record { table = o.0.table; pass = new_pass o.0.shape r })) }
        ensures each_station { IfOk result (λ o. (k : ℕ) → k < stations
            → slice_get o.3.items k ≡ Some (record { table = o.0.table; station = new_station o.0.shape k })) }
        ensures fresh { IfOk result (λ o. All (λ t. (pass_gate t ≡ o.0) × (t.pass.state ≡ Fresh)) o.2.items) }
        ensures own { IfOk result (λ o. All (λ t. station_gate t ≡ o.0) o.3.items) }
        ensures counts { IfOk result (λ o. (length o.2.items ≡ length widths.now) × (length o.3.items ≡ stations)) }
        ensures fault { IfErr result (FaultOf (shape_of limit response widths.now stations)) }
    {
        if limit < 1 || limit > MAX_LIMIT {
            return Err(GateFault::BadLimit);
        }
        if let Some(request) = first_bad(widths) {
            return Err(GateFault::BadWidth(request));
        }
        if widths.len() > MAX_REQUESTS as usize || stations > MAX_STATIONS {
            return Err(GateFault::TooMany);
        }
        Gate::laid(alloc, true, MAX_NUMBERS, limit, widths, stations, response)
    }

    fn laid(
        alloc: A,
        lives: bool,
        numbers: u128,
        limit: u32,
        widths: &[u32],
        stations: u32,
        response: Response,
    ) -> Result<Opened<A>, GateFault>
        requires { IsShape (shape_in lives numbers limit response widths.now stations) }
        ensures shape { IfOk result (λ o. o.0.shape ≡ shape_in lives numbers limit response widths.now stations) }
        ensures desk { IfOk result (λ o. o.1 ≡ record { table = o.0.table; desk = new_desk o.0.shape }) }
        ensures passes { IfOk result (λ o. o.2.items ≡ new_passes o.0 (length widths.now)) }
        ensures stations { IfOk result (λ o. o.3.items ≡ new_stations o.0 stations) }
        ensures fault { IfErr result (λ e. e ≡ NoMemory) }
    {
        let (gate, mut seat) = Gate::empty(
            alloc, lives, numbers, limit, widths, stations, response,
        )?;
        let passes = gate.deal_passes(alloc, &mut seat)?;
        let dealt = gate.deal_stations(alloc, &mut seat)?;
        Ok((gate, Desk { seat, held: None }, passes, dealt))
    }

    // The words as they begin, with the first seat, which has every token's part.
    fn empty(
        alloc: A,
        lives: bool,
        numbers: u128,
        limit: u32,
        widths: &[u32],
        stations: u32,
        response: Response,
    ) -> Result<(Gate<A>, Place), AllocError>
        requires { IsShape (shape_in lives numbers limit response widths.now stations) }
        ensures shape { IfOk result (λ o. o.0.shape ≡ shape_in lives numbers limit response widths.now stations) }
        ensures table { IfOk result (λ o. o.1.table_id ≡ o.0.table) }
        ensures seat { IfOk result (λ o. o.1.me ≡ (opening_records o.0.shape 0, [])) }
    {
        every_schedule_is_safe();
        every_world_adds_up();
        let mut words = vec![in alloc; 0u64; widths.len() + 1]?;
        words[0] = LevelWord::opening(limit).pack();
        let gauge = Gauge {
            lives,
            numbers,
            limit,
            response,
            widths: Vec::from_slice(alloc, widths)?,
            stations,
        };
        let (board, seat) = Board::of_words(alloc, words.as_slice(), &Snapshot::of(&gauge))?;
        let sleepers = AtomicU64::new(0);
        Ok((
            Gate {
                board,
                gauge,
                sleepers,
            },
            seat,
        ))
    }

    // A Pass for each request, off the first seat.
    fn deal_passes(&self, alloc: A, seat: &mut Place) -> Result<Vec<Pass, A>, AllocError>
        requires own { seat.old.table_id ≡ self.now.table }
        requires first { seat.old.me ≡ (opening_records self.now.shape 0, []) }
        ensures table { OnOk result (seat.new.table_id ≡ self.now.table) }
        ensures rest { OnOk result (seat.new.me ≡ (opening_stations self.now.shape 0, [])) }
        ensures passes { IfOk result (λ v. v.items ≡ new_passes self.now self.now.shape.slots) }
    {
        let mut passes = Vec::new(alloc);
        for r in 0..self.gauge.widths.len() {
            let pass = Pass {
                seat: self.board.shared.split_seat::<FirstRecord>(seat),
                number: r as u128,
                width: self.gauge.widths[r],
                counts: Counts::none(),
            };
            passes.push(pass)?;
        }
        Ok(passes)
    }

    // The Stations, off what is left of the first seat.
    fn deal_stations(&self, alloc: A, seat: &mut Place) -> Result<Vec<Station, A>, AllocError>
        requires own { seat.old.table_id ≡ self.now.table }
        requires first { seat.old.me ≡ (opening_stations self.now.shape 0, []) }
        ensures table { OnOk result (seat.new.table_id ≡ self.now.table) }
        ensures rest { OnOk result (seat.new.me ≡ (opening_stations self.now.shape self.now.shape.stations, [])) }
        ensures stations { IfOk result (λ v. v.items ≡ new_stations self.now self.now.shape.stations) }
    {
        let mut stations = Vec::new(alloc);
        for _k in 0..self.gauge.stations {
            let station = Station {
                seat: self.board.shared.split_seat::<FirstRecord>(seat),
            };
            stations.push(station)?;
        }
        Ok(stations)
    }
}

// The first width that is not 1 to 20,000.
fn first_bad(widths: &[u32]) -> Option<usize>
    ensures { MatchOption result (AreWidths widths.now)
        (λ r. (r < length widths.now) × (¬ IsWidth (width widths.now r)) × ((j : ℕ) → j < r → IsWidth (width widths.now j))) }
{
    for (r, width) in widths.iter().enumerate() {
        if !(1..=MAX_WIDTH).contains(width) {
            return Some(r);
        }
    }
    None
}
