//! The step of the Desk with a Station joined to it.

ghost use Rattle.std.specs.Prelude.{◌≡◌, [], ◌∷◌};
ghost use Rattle.apf_words.specs.Level.{Level};
ghost use Rattle.apf_gate.specs.declared.record.Record.TheVariants as records;
ghost use Rattle.apf_gate.specs.Records.{KnowsMore};
ghost use Rattle.apf_gate.specs.Rule.{desk_of, station_of};
ghost use Rattle.apf_gate.specs.Tokens.{desk_gate, station_gate, IsAlone};
ghost use Rattle.apf_gate.specs.StationJoined.{station_and_desk_at, StationAndDeskLoadLevel, AreStationAndDesk, SameStationAndDesk, AfterHearStation};

use crate::desk::Desk;
use crate::gate::Gate;
use crate::plays::{FirstRecord, StationJoinedLoadLevel};
use crate::rule::Place;
use crate::station::Station;
use std::alloc::Allocator;

impl<A: Allocator> Gate<A> {
    /// Lets the Desk and a Station know every step of each other. It makes one load of the level word with the
    /// tokens joined, and tells no decision.
    pub fn hear_station(&self, desk: &mut Desk, station: &mut Station)
        requires own_desk { desk_gate desk.old ≡ self.now }
        requires own_station { station_gate station.old ≡ self.now }
        ensures same { SameStationAndDesk desk.old station.old desk.new station.new }
        ensures answer { (level : Level) × StationAndDeskLoadLevel (record { station = station.old.station; desk = desk.old.desk }) level (record { station = station.new.station; desk = desk.new.desk }) }
        ensures after { AfterHearStation desk.old.desk station.old.station desk.new.desk station.new.station }
    {
        self.join_station(&mut desk.seat, &mut station.seat);
        self.load_with_station(&mut desk.seat);
        self.part_station(&mut desk.seat, &mut station.seat);
    }

    // The Station's part goes to the Desk's seat.
    fn join_station(&self, desk: &mut Place, station: &mut Place)
        requires desk { IsAlone self.now desk.old.table_id desk.old.me (records.Desk (desk_of desk.old.me.0)) }
        requires station { IsAlone self.now station.old.table_id station.old.me (records.Station (station_of station.old.me.0)) }
        ensures table { (desk.new.table_id ≡ desk.old.table_id) × (station.new.table_id ≡ station.old.table_id) }
        ensures both { desk.new.me ≡ (records.Station (station_of station.old.me.0) ∷ records.Desk (desk_of desk.old.me.0) ∷ [], []) }
    {
        let shared = &self.board.shared;
        let lent = shared.split_seat::<FirstRecord>(station);
        shared.join_seat::<FirstRecord>(desk, lent);
    }

    // The Station's part goes back to its seat.
    fn part_station(&self, desk: &mut Place, station: &mut Place)
        requires table { desk.old.table_id ≡ self.now.table }
        requires both { desk.old.me ≡ (records.Station (station_and_desk_at desk.old.me).station ∷ records.Desk (station_and_desk_at desk.old.me).desk ∷ [], []) }
        ensures table { (desk.new.table_id ≡ desk.old.table_id) × (station.new.table_id ≡ desk.old.table_id) }
        ensures desk { desk.new.me ≡ (records.Desk (station_and_desk_at desk.old.me).desk ∷ [], []) }
        ensures station { station.new.me ≡ (records.Station (station_and_desk_at desk.old.me).station ∷ [], []) }
    {
        *station = self.board.shared.split_seat::<FirstRecord>(desk);
    }

    // One load of the level word.
    fn load_with_station(&self, seat: &mut Place)
        requires own { AreStationAndDesk self.now seat.old.table_id seat.old.me }
        ensures own { AreStationAndDesk self.now seat.new.table_id seat.new.me }
        ensures loads { (level : Level) × StationAndDeskLoadLevel (station_and_desk_at seat.old.me) level (station_and_desk_at seat.new.me) }
    {
        self.board.shared.load::<StationJoinedLoadLevel>(seat, 0);
    }
}
