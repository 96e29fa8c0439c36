//! A level with its slots and its operators.

ghost use Rattle.std.specs.Prelude.{◌≡◌, ◌<◌, ◌≤◌, [], ◌∷◌, length, map, slice_index_or, All, IfOk, IfErr, OnOk, Option};
ghost use Rattle.apf_book.specs.declared.life_event.LifeEvent.{LifeEvent};
ghost use Rattle.apf_words.specs.Limits.{max_width, max_limit};
ghost use Rattle.apf_gate.specs.StationCalls.{TriesToCancel, ClosesTo};
ghost use Rattle.apf_gate.specs.Slots.{IsTicket};
ghost use Rattle.apf_gate.specs.Tokens.{StationToken, pass_gate, station_gate};
ghost use Rattle.apf_level.specs.Limits.{LastSet};
ghost use Rattle.apf_level.specs.LifeCalls.{SettledBy};
ghost use Rattle.apf_session.specs.declared.life.answer.Place.TheVariants as places;
ghost use Rattle.apf_session.specs.declared.life.token.Token.{Token};
ghost use Rattle.apf_session.specs.LifeOpenings.{level_of, level_settling, IsOpenFault};
ghost use Rattle.apf_session.specs.LifeRequests.{number_in, Answers, Arrives, Tries, TriesAs, Polls, LogsFor, ReleasesAs, FinishesAs, CallsOne, AreFree, free_slot};
ghost use Rattle.apf_session.specs.Operators.{StayButFirst, KeepsOrder};
ghost use Rattle.apf_session.specs.LifeEnds.{CancelsThese, FirstCancels, SessionEnds, waiting};

use crate::fault::OpenFault;
use crate::life::answer::{Answer, Place};
use crate::life::opening::Opening;
use crate::life::operator::Operator;
use crate::life::request::Request;
use apf_book::{LifeEvent, Settling};
use apf_gate::{Cancel, Close, Station, Ticket};
use apf_level::life::{Done, Level, Naming, Opened, Report};
use apf_model::Ask;
use std::alloc::{AllocError, Global};
use std::sync::Wait;

/// A level with its slots and its operators. It must be ended.
///
/// Its own calls are for one thread. Several threads share `level`, and each has some of the slots and operators.
pub struct Session<K: Naming> {
    pub level: Level<K>,
    pub slots: Vec<Request<K>>,
    pub operators: Vec<Operator<K>>,
    pub ghost slots_are: { length slots.items ≡ K.level.gate.shape.slots },
    pub ghost operators_are: { length operators.items ≡ K.level.gate.shape.stations },
}

// The slots with these tokens, in their order. Where memory is refused, each is given up.
fn requests_of<K: Naming, R: Wait>(
    rt: &R,
    alloc: Global,
    level: &Level<K>,
    dones: Vec<Done>,
) -> Result<Vec<Request<K>>, AllocError>
    requires own { All (λ t. pass_gate t ≡ K.level.gate) dones.items }
    ensures slots { IfOk result (λ v. v.items ≡ map free_slot dones.items) }
    ensures free { IfOk result (λ v. AreFree v.items) }
{
    let mut requests = Vec::with_capacity(alloc, dones.len())?;
    for done in dones {
        if let Err(refused) = requests.push(Request::new(done)) {
            refused.value.end(rt, level);
            give_up(rt, level, requests);
            return Err(AllocError);
        }
    }
    Ok(requests)
}

// Brings the request of each slot to its end.
fn give_up<K: Naming, R: Wait>(rt: &R, level: &Level<K>, mut requests: Vec<Request<K>>) {
    while let Some(request) = requests.pop() {
        request.end(rt, level);
    }
    requests.destroy_empty();
}

// Brings the request of each slot to its end, and puts what is left of it into an empty list.
fn dones_of<K: Naming, R: Wait>(
    rt: &R,
    level: &Level<K>,
    mut requests: Vec<Request<K>>,
    mut dones: Vec<Done>,
) -> Result<Vec<Done>, AllocError>
    requires { dones.items ≡ [] }
    ensures count { IfOk result (λ v. length v.items ≡ length requests.items) }
    ensures own { IfOk result (λ v. All (λ t. pass_gate t ≡ K.level.gate) v.items) }
{
    while let Some(request) = requests.pop() {
        if let Err(_refused) = dones.push(request.end(rt, level)) {
            give_up(rt, level, requests);
            return Err(AllocError);
        }
    }
    requests.destroy_empty();
    Ok(dones)
}

// Cancels the request, if it waits.
fn cancel_if_waiting<K: Naming>(level: &Level<K>, operator: &mut Operator<K>, request: &Request<K>)
    ensures number { operator.new.station.number ≡ operator.old.station.number }
    ensures cancels { CancelsThese (waiting (request.now ∷ [])) operator.old.station operator.new.station }
{
    if request.place() == Place::Waits {
        operator.cancel_before_end(level, request);
    }
}

// Cancels each request that waits.
fn cancel_waiting<K: Naming>(level: &Level<K>, operator: &mut Operator<K>, requests: &[Request<K>])
    ensures number { operator.new.station.number ≡ operator.old.station.number }
    ensures cancels { CancelsThese (waiting requests.now) operator.old.station operator.new.station }
{
    for request in requests {
        cancel_if_waiting(level, operator, request);
    }
}

// With an operator, the first one cancels each request that waits.
fn settle_all<K: Naming>(
    level: &Level<K>,
    operators: &mut Vec<Operator<K>>,
    requests: &[Request<K>],
)
    ensures operators { KeepsOrder operators.old.items operators.new.items }
    ensures cancels { FirstCancels requests.now operators.old.items operators.new.items }
{
    if !operators.is_empty() {
        cancel_waiting(level, &mut operators[0], requests);
    }
}

// The operators with these Stations, in their order.
fn operators_of<K: Naming>(
    alloc: Global,
    stations: Vec<Station>,
) -> Result<Vec<Operator<K>>, AllocError>
    requires { All (λ t. station_gate t ≡ K.level.gate) stations.items }
    ensures { IfOk result (λ v. v.items ≡ stations.items) }
{
    let mut operators = Vec::with_capacity(alloc, stations.len())?;
    for station in stations {
        operators.push(Operator::new(station))?;
    }
    Ok(operators)
}

// The Stations of these operators.
fn stations_of<K: Naming>(
    alloc: Global,
    operators: Vec<Operator<K>>,
) -> Result<Vec<Station>, AllocError>
    ensures same { IfOk result (λ v. v.items ≡ operators.items) }
    ensures own { IfOk result (λ v. All (λ t. station_gate t ≡ K.level.gate) v.items) }
{
    let mut stations = Vec::with_capacity(alloc, operators.len())?;
    for operator in operators {
        stations.push(operator.into_station())?;
    }
    Ok(stations)
}

impl<K: Naming> Session<K> {
    /// The level of this opening, whose slots are free.
    ///
    /// # Errors
    ///
    /// The first of these: the dealer's fault and the queues', in `OpenFault::Level`. `NoMemory` whenever memory was
    /// refused. Then everything is given up.
    pub fn open_for_life<R: Wait>(
        rt: &R,
        alloc: Global,
        opening: Opening,
    ) -> Result<Session<K>, OpenFault>
        requires { K.level ≡ level_of opening.gate opening.config }
        ensures slots { IfOk result (λ s. s.slots.items ≡ map free_slot opening.passes.items) }
        ensures free { IfOk result (λ s. AreFree s.slots.items) }
        ensures operators { IfOk result (λ s. s.operators.items ≡ opening.stations.items) }
        ensures settings { OnOk result (SettledBy opening.config.limit_response opening.config opening.gate.shape.slots) }
        ensures fault { IfErr result (IsOpenFault opening.config opening.gate.shape.slots opening.gate.shape.stations) }
    {
        Session::open_settling(rt, alloc, opening, Settling::Never)
    }

    /// The same, and says whether what requests take is settled. If so, `finish_measured` does that; else it settles
    /// nothing.
    ///
    /// # Errors
    ///
    /// As of `open_for_life`.
    pub fn open_settling<R: Wait>(
        rt: &R,
        alloc: Global,
        opening: Opening,
        settling: Settling,
    ) -> Result<Session<K>, OpenFault>
        requires { K.level ≡ level_settling opening.gate opening.config settling }
        ensures slots { IfOk result (λ s. s.slots.items ≡ map free_slot opening.passes.items) }
        ensures free { IfOk result (λ s. AreFree s.slots.items) }
        ensures operators { IfOk result (λ s. s.operators.items ≡ opening.stations.items) }
        ensures settings { OnOk result (SettledBy opening.config.limit_response opening.config opening.gate.shape.slots) }
        ensures fault { IfErr result (IsOpenFault opening.config opening.gate.shape.slots opening.gate.shape.stations) }
    {
        let Opening {
            config,
            gate,
            desk,
            passes,
            stations,
        } = opening;
        let Opened {
            level,
            slots,
            stations,
        } = Level::open_settling(alloc, &config, settling, gate, desk, passes, stations)?;
        let operators = operators_of(alloc, stations)?;
        let slots = requests_of(rt, alloc, &level, slots)?;
        Ok(Session {
            level,
            slots,
            operators,
        })
    }

    /// The next request of a free slot arrives, which asks for this, a width of 1 to 20,000 seats. Answers `Run`,
    /// `Waits` or `Over`, or `Spent`.
    pub fn arrive<R: Wait>(&mut self, rt: &R, slot: u32, ask: Ask) -> Answer
        requires is_slot { slot < K.level.gate.shape.slots }
        requires some_width { 1 ≤ ask.width }
        requires narrow { ask.width ≤ max_width }
        ensures calls { CallsOne (Arrives K.level ask.width) slot self.old.slots.items result self.new.slots.items }
        ensures operators { self.new.operators.items ≡ self.old.operators.items }
        ensures logs { (event : Option LifeEvent) × ((d : Token) → LogsFor K.level (slice_index_or self.new.slots.items slot d) ask.hash ask.width result event) }
    {
        self.slots[slot as usize].arrive(rt, &self.level, ask)
    }

    /// As `arrive`. Answers also the event that the history got by the arrival: the request's Enter or Full, which name its
    /// queue, or none.
    pub fn arrive_with_event<R: Wait>(
        &mut self,
        rt: &R,
        slot: u32,
        ask: Ask,
    ) -> (Answer, Option<LifeEvent>)
        requires is_slot { slot < K.level.gate.shape.slots }
        requires some_width { 1 ≤ ask.width }
        requires narrow { ask.width ≤ max_width }
        ensures calls { CallsOne (Arrives K.level ask.width) slot self.old.slots.items result.0 self.new.slots.items }
        ensures operators { self.new.operators.items ≡ self.old.operators.items }
        ensures logs { (d : Token) → LogsFor K.level (slice_index_or self.new.slots.items slot d) ask.hash ask.width result.0 result.1 }
    {
        self.slots[slot as usize].arrive_with_event(rt, &self.level, ask)
    }

    /// The next request of a free slot is admitted, if nobody waits and it fits. It never enters a queue. Answers `Run`,
    /// `Tried` or `Busy`, or `Spent`. Where requests waited when its seats were given back, they are dispatched.
    pub fn try_arrive<R: Wait>(&mut self, rt: &R, slot: u32, ask: Ask) -> Answer
        requires is_slot { slot < K.level.gate.shape.slots }
        requires some_width { 1 ≤ ask.width }
        requires narrow { ask.width ≤ max_width }
        ensures calls { CallsOne (Tries K.level ask.width) slot self.old.slots.items result self.new.slots.items }
        ensures steps { (d : Token) → TriesAs ask.width ask.hash (slice_index_or self.old.slots.items slot d) result (slice_index_or self.new.slots.items slot d) }
        ensures operators { self.new.operators.items ≡ self.old.operators.items }
    {
        let (answer, owes) = self.slots[slot as usize].try_arrive(&self.level, ask);
        self.level.dispatch_if_owed(rt, owes);
        answer
    }

    /// Reads the decision of a request that waits. Answers `Run`, `Waits` or `Over`.
    pub fn poll<R: Wait>(&mut self, rt: &R, slot: u32) -> Answer
        requires is_slot { slot < K.level.gate.shape.slots }
        ensures calls { CallsOne Polls slot self.old.slots.items result self.new.slots.items }
        ensures operators { self.new.operators.items ≡ self.old.operators.items }
    {
        self.slots[slot as usize].poll(rt, &self.level)
    }

    /// A request that executes gives its seats back. Then requests that wait are dispatched. Answers `Released`.
    pub fn finish<R: Wait>(&mut self, rt: &R, slot: u32) -> Answer
        requires is_slot { slot < K.level.gate.shape.slots }
        ensures calls { CallsOne (Answers places.Runs) slot self.old.slots.items result self.new.slots.items }
        ensures steps { (d : Token) → ReleasesAs (slice_index_or self.old.slots.items slot d) result (slice_index_or self.new.slots.items slot d) }
        ensures operators { self.new.operators.items ≡ self.old.operators.items }
    {
        self.slots[slot as usize].finish(rt, &self.level)
    }

    /// As `finish`, of a request that ran this many microseconds: what it took is settled before its seats go back, on a
    /// level that was opened by `open_settling`. See `Request::finish_measured`.
    pub fn finish_measured<R: Wait>(&mut self, rt: &R, slot: u32, micros: u64) -> Answer
        requires is_slot { slot < K.level.gate.shape.slots }
        ensures calls { CallsOne (Answers places.Runs) slot self.old.slots.items result self.new.slots.items }
        ensures steps { (d : Token) → FinishesAs (slice_index_or self.old.slots.items slot d) result (slice_index_or self.new.slots.items slot d) }
        ensures operators { self.new.operators.items ≡ self.old.operators.items }
    {
        self.slots[slot as usize].finish_measured(rt, &self.level, micros)
    }

    /// What names the slot's newest request for ever.
    pub fn ticket(&self, slot: u32) -> Ticket
        requires is_slot { slot < K.level.gate.shape.slots }
        ensures number { (d : Token) → result.number ≡ number_in (slice_index_or self.now.slots.items slot d) }
        ensures is_ticket { IsTicket K.level.gate.shape result.number }
    {
        self.slots[slot as usize].ticket()
    }

    /// The first operator cancels the request, if it is undecided and holds its slot. One that waits is struck. Answers
    /// its decision, or `Other`: another request holds the slot, so that this one is over.
    pub fn cancel<R: Wait>(&mut self, rt: &R, request: Ticket) -> Cancel
        requires is_request { IsTicket K.level.gate.shape request.number }
        requires operator { 0 < K.level.gate.shape.stations }
        ensures answer { (d : StationToken) → TriesToCancel (slice_index_or self.old.operators.items 0 d).station request.number result (slice_index_or self.new.operators.items 0 d).station }
        ensures others { StayButFirst self.old.operators.items self.new.operators.items }
        ensures same { self.new.slots.items ≡ self.old.slots.items }
    {
        let (answer, owed) = self.operators[0].cancel(&self.level, request);
        self.level.strike_if_owed(rt, owed);
        answer
    }

    /// The first operator closes the level. Says whether this close was the first.
    pub fn close(&mut self) -> Close
        requires { 0 < K.level.gate.shape.stations }
        ensures answer { (d : StationToken) → ClosesTo (slice_index_or self.old.operators.items 0 d).station result (slice_index_or self.new.operators.items 0 d).station }
        ensures others { StayButFirst self.old.operators.items self.new.operators.items }
        ensures same { self.new.slots.items ≡ self.old.slots.items }
    {
        self.operators[0].close(&self.level)
    }

    /// The first operator sets the limit, 1 to 10,000 seats. Then requests that wait are dispatched. Answers the old
    /// limit.
    pub fn set_limit<R: Wait>(&mut self, rt: &R, limit: u32) -> u32
        requires operator { 0 < K.level.gate.shape.stations }
        requires some { 1 ≤ limit }
        requires small { limit ≤ max_limit }
        ensures answer { (d : StationToken) → LastSet (slice_index_or self.old.operators.items 0 d).station limit result (slice_index_or self.new.operators.items 0 d).station }
        ensures others { StayButFirst self.old.operators.items self.new.operators.items }
        ensures same { self.new.slots.items ≡ self.old.slots.items }
    {
        self.operators[0].set_limit(rt, &self.level, limit)
    }

    /// Ends the level. The first operator, if there is one, cancels each request that waits, by one step, and makes no
    /// other step. Then the request of each
    /// slot is brought to its end as by `Request::end`, from the last slot to the first.
    ///
    /// # Errors
    ///
    /// `AllocError` if memory was refused. Then everything is given up.
    pub fn end<R: Wait>(self, rt: &R, alloc: Global) -> Result<Report, AllocError>
        ensures { IfOk result (SessionEnds K.level self.slots.items self.operators.items) }
    {
        let Session {
            level,
            slots,
            mut operators,
        } = self;
        settle_all(&level, &mut operators, slots.as_slice());
        let dones = match Vec::with_capacity(alloc, slots.len()) {
            Ok(dones) => dones_of(rt, &level, slots, dones)?,
            Err(refused) => {
                give_up(rt, &level, slots);
                return Err(refused);
            }
        };
        let stations = stations_of(alloc, operators)?;
        level.end(alloc, dones, stations)
    }
}
