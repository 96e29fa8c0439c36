//! What all tokens of a gate know together, while it goes on.

ghost use Rattle.std.specs.Prelude.{◌≡◌, [], ◌∷◌, length, All};
ghost use Rattle.apf_words.specs.Level.{Level};
ghost use Rattle.apf_gate.specs.declared.record.Record.TheVariants as records;
ghost use Rattle.apf_gate.specs.Rule.{desk_of};
ghost use Rattle.apf_gate.specs.Tokens.{pass_gate, desk_gate, station_gate, IsAlone};
ghost use Rattle.apf_gate.specs.Ends.{IsEnded, handed_in};
ghost use Rattle.apf_gate.specs.Whole.{IsOne};

use crate::desk::Desk;
use crate::gate::Gate;
use crate::pass::Pass;
use crate::plays::{FirstRecord, Last, LoadAll};
use crate::rule::Place;
use crate::station::Station;
use std::alloc::Allocator;

impl<A: Allocator> Gate<A> {
    /// One account has the records of all these tokens, which are all that the gate has. An end tells that too, but
    /// here the gate goes on. It is what `no_exchange_is_lost` asks for.
    ///
    /// It gives up the Passes and the Stations, and leaves the Desk as it was. It makes some loads for each token. It
    /// writes no word, and none of its loads stands in a trace.
    pub fn all_are_here(&self, desk: &mut Desk, passes: Vec<Pass, A>, stations: Vec<Station, A>)
        requires own_desk { desk_gate desk.old ≡ self.now }
        requires own_passes { All (λ t. pass_gate t ≡ self.now) passes.items }
        requires own_stations { All (λ t. station_gate t ≡ self.now) stations.items }
        requires all_passes { length passes.items ≡ self.now.shape.slots }
        requires all_stations { length stations.items ≡ self.now.shape.stations }
        ensures same { desk.new ≡ desk.old }
        ensures here { (level : Level) × IsEnded self.now desk.old.desk passes.items stations.items level }
    {
        let _ = &self.board;
        self.look_at_all(&mut desk.seat, passes, stations);
    }

    fn look_at_all(&self, desk: &mut Place, passes: Vec<Pass, A>, stations: Vec<Station, A>)
        requires desk { IsAlone self.now desk.old.table_id desk.old.me (records.Desk (desk_of desk.old.me.0)) }
        requires shape { (desk_of desk.old.me.0).knows.shape ≡ self.now.shape }
        requires own_passes { All (λ t. pass_gate t ≡ self.now) passes.items }
        requires own_stations { All (λ t. station_gate t ≡ self.now) stations.items }
        ensures table { desk.new.table_id ≡ desk.old.table_id }
        ensures same { desk.new.me ≡ desk.old.me }
        ensures one { IsOne self.now.shape (handed_in (desk_of desk.old.me.0) passes.items stations.items) }
    {
        let shared = &self.board.shared;
        let lent = shared.split_seat::<FirstRecord>(desk);
        let some = self.gather_passes(lent, passes);
        let mut all = self.gather_stations(some, stations);
        shared.load::<LoadAll>(&mut all, 0);
        *desk = shared.split_seat::<Last>(&mut all);
    }
}
