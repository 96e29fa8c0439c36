//! A level with its requests, its operators and the reader of its statistics.

ghost use Rattle.std.specs.Prelude.{◌≡◌, ◌≢◌, ◌+◌, ◌<◌, ◌≤◌, ℕ, [], ◌∷◌, length, slice_index_or, All, IfOk, IfErr, OnOk};
ghost use Rattle.apf_words.specs.Limits.{max_limit};
ghost use Rattle.apf_model.specs.Schedule.{AreCosts};
ghost use Rattle.apf_gate.specs.declared.record.State.TheVariants.{Fresh};
ghost use Rattle.apf_gate.specs.StationSteps.{StationLoadsLevel};
ghost use Rattle.apf_gate.specs.StationCalls.{CancelsTo, ClosesTo};
ghost use Rattle.apf_gate.specs.Tokens.{StationToken, pass_gate, station_gate};
ghost use Rattle.apf_stats.specs.Numbers.{numbers_of};
ghost use Rattle.apf_stats.specs.Traces.{shown};
ghost use Rattle.apf_level.specs.Limits.{LastSet};
ghost use Rattle.apf_level.specs.Opening.{SettledBy};
ghost use Rattle.apf_session.specs.declared.answer.Place.TheVariants as places;
ghost use Rattle.apf_session.specs.Openings.{level_of, level_with, IsNew, IsOpenFault};
ghost use Rattle.apf_session.specs.Requests.{RequestView, AreNumbered, ArePassesNumbered, AreAway, CallsOne, LogsFor, SaysWhere, ReadsAs, AreLeftOf, ReleasesAs, StaysTold, StayTold};
ghost use Rattle.apf_session.specs.Operators.{StayButFirst, KeepsOrder};
ghost use Rattle.apf_session.specs.Ends.{CancelsThese, FirstCancels, SessionEnds, undecided};

use crate::answer::{Answer, Place};
use crate::fault::OpenFault;
use crate::opening::Opening;
use crate::operator::Operator;
use crate::request::Request;
use apf_book::Stats;
use apf_gate::{Close, Pass, Station};
use apf_level::{Done, Level, Naming, Opened, Report, StatsPass};
use apf_model::Event;
use apf_words::{Decision, LevelWord};
use std::alloc::{AllocError, Global};
use std::sync::Wait;

/// A level with its requests, in the order of their numbers, its operators, and the reader of its statistics. It
/// must be ended.
///
/// Its own calls are for one thread. Several threads share `level`, and each has some of the requests and operators.
pub struct Session<K: Naming> {
    pub level: Level<K>,
    pub requests: Vec<Request<K>>,
    pub operators: Vec<Operator<K>>,
    pub stats: StatsPass,
    pub ghost requests_are: { length requests.items ≡ length K.level.gate.shape.widths },
    pub ghost operators_are: { length operators.items ≡ K.level.gate.shape.stations },
    pub ghost stats_are: { stats.cell ≡ level.cell },
}

// The requests of these Passes, in their order. Where memory is refused, each is brought to its end.
fn requests_of<K: Naming, R: Wait>(
    rt: &R,
    alloc: Global,
    level: &Level<K>,
    mut passes: Vec<Pass>,
) -> Result<Vec<Request<K>>, AllocError>
    requires fresh { All (λ t. (pass_gate t ≡ K.level.gate) × (t.pass.state ≡ Fresh)) passes.items }
    requires numbered { ArePassesNumbered passes.items }
    ensures count { IfOk result (λ v. length v.items ≡ length passes.items) }
    ensures numbered { IfOk result (λ v. AreNumbered v.items) }
    ensures away { IfOk result (λ v. AreAway v.items) }
{
    level.is_a_batch();
    let mut requests = Vec::with_capacity(alloc, passes.len())?;
    while let Some(pass) = passes.pop() {
        if let Err(refused) = requests.push(Request::new(pass)) {
            refused.value.end(rt, level);
            give_up(rt, level, requests);
            return Err(AllocError);
        }
    }
    requests.reverse();
    Ok(requests)
}

// Brings each request to its end.
fn give_up<K: Naming, R: Wait>(rt: &R, level: &Level<K>, mut requests: Vec<Request<K>>) {
    while let Some(request) = requests.pop() {
        request.end(rt, level);
    }
    requests.destroy_empty();
}

// Brings each request to its end, and puts what is left of it into an empty list.
fn dones_of<K: Naming, R: Wait>(
    rt: &R,
    level: &Level<K>,
    mut requests: Vec<Request<K>>,
    mut dones: Vec<Done>,
) -> Result<Vec<Done>, AllocError>
    requires { dones.items ≡ [] }
    ensures count { IfOk result (λ v. length v.items ≡ length requests.items) }
    ensures own { IfOk result (λ v. All (λ t. pass_gate t ≡ K.level.gate) v.items) }
    ensures left { IfOk result (λ v. AreLeftOf requests.items v.items) }
{
    while let Some(request) = requests.pop() {
        if let Err(_refused) = dones.push(request.end(rt, level)) {
            give_up(rt, level, requests);
            return Err(AllocError);
        }
    }
    requests.destroy_empty();
    Ok(dones)
}

// Cancels the request, if it is undecided.
fn cancel_if_undecided<K: Naming>(
    level: &Level<K>,
    operator: &mut Operator<K>,
    request: &Request<K>,
)
    ensures number { operator.new.station.number ≡ operator.old.station.number }
    ensures cancels { CancelsThese (undecided (request.now ∷ [])) operator.old.station operator.new.station }
{
    if matches!(request.place(), Place::Away | Place::Waits) {
        operator.cancel_before_end(level, request);
    }
}

// Cancels each request that is undecided.
fn cancel_undecided<K: Naming>(
    level: &Level<K>,
    operator: &mut Operator<K>,
    requests: &[Request<K>],
)
    ensures number { operator.new.station.number ≡ operator.old.station.number }
    ensures cancels { CancelsThese (undecided requests.now) operator.old.station operator.new.station }
{
    for request in requests {
        cancel_if_undecided(level, operator, request);
    }
}

// A request that waits reads its decision, and one that executes gives its seats back.
fn finish_one<K: Naming, R: Wait>(rt: &R, level: &Level<K>, request: &mut Request<K>)
    ensures number { request.new.number ≡ request.old.number }
    ensures told { StaysTold request.old.token request.new.token }
{
    // each of these answers Wrong where the request is elsewhere
    let _ = request.poll(rt, level);
    let _ = request.finish(rt, level);
}

// Each request that waits reads its decision, and each that executes gives its seats back.
fn finish_all<K: Naming, R: Wait>(rt: &R, level: &Level<K>, requests: &mut [Request<K>])
    ensures count { length requests.new ≡ length requests.old }
    ensures numbers { (i : ℕ) (d : RequestView) → (slice_index_or requests.new i d).number ≡ (slice_index_or requests.old i d).number }
    ensures told { StayTold requests.old requests.new }
{
    for place in 0..requests.len() {
        finish_one(rt, level, &mut requests[place]);
    }
}

// With an operator, the first one cancels each request that is undecided. Then each that waits reads that, and each that
// executes gives its seats back.
fn settle_all<K: Naming, R: Wait>(
    rt: &R,
    level: &Level<K>,
    operators: &mut Vec<Operator<K>>,
    requests: &mut Vec<Request<K>>,
)
    ensures operators { KeepsOrder operators.old.items operators.new.items }
    ensures cancels { FirstCancels requests.old.items operators.old.items operators.new.items }
    ensures count { length requests.new.items ≡ length requests.old.items }
    ensures numbers { (i : ℕ) (d : RequestView) → (slice_index_or requests.new.items i d).number ≡ (slice_index_or requests.old.items i d).number }
    ensures told { StayTold requests.old.items requests.new.items }
{
    if !operators.is_empty() {
        cancel_undecided(level, &mut operators[0], requests.as_slice());
        finish_all(rt, level, requests.as_mut_slice());
    }
}

// The operators with these Stations, in their order.
fn operators_of<K: Naming>(
    alloc: Global,
    mut stations: Vec<Station>,
) -> Result<Vec<Operator<K>>, AllocError>
    requires { All (IsNew K.level.gate) stations.items }
    ensures count { IfOk result (λ v. length v.items ≡ length stations.items) }
    ensures new { IfOk result (λ v. All (IsNew K.level.gate) v.items) }
{
    let mut operators = Vec::with_capacity(alloc, stations.len())?;
    while let Some(station) = stations.pop() {
        operators.push(Operator::new(station))?;
    }
    operators.reverse();
    Ok(operators)
}

// The Stations of these operators.
fn stations_of<K: Naming>(
    alloc: Global,
    operators: Vec<Operator<K>>,
) -> Result<Vec<Station>, AllocError>
    ensures same { IfOk result (λ v. v.items ≡ operators.items) }
    ensures own { IfOk result (λ v. All (λ t. station_gate t ≡ K.level.gate) v.items) }
{
    let mut stations = Vec::with_capacity(alloc, operators.len())?;
    for operator in operators {
        stations.push(operator.into_station())?;
    }
    Ok(stations)
}

impl<K: Naming> Session<K> {
    /// The level of this opening, where a dispatch is charged the request's width.
    ///
    /// # Errors
    ///
    /// The first of these: the dealer's fault and the queues', in `OpenFault::Level`. `NoMemory` whenever memory was
    /// refused. Then everything is given up.
    pub fn open<R: Wait>(
        rt: &R,
        alloc: Global,
        opening: Opening<'_>,
    ) -> Result<Session<K>, OpenFault>
        requires { K.level ≡ level_of opening.gate opening.board.cell opening.config opening.asks.now }
        ensures numbered { IfOk result (λ s. AreNumbered s.requests.items) }
        ensures away { IfOk result (λ s. AreAway s.requests.items) }
        ensures new { IfOk result (λ s. All (IsNew K.level.gate) s.operators.items) }
        ensures settings { OnOk result (SettledBy opening.entry.config.limit_response opening.entry.config opening.entry.asks.now) }
        ensures fault { IfErr result (IsOpenFault opening.entry.config opening.entry.asks.now opening.entry.gate.shape.stations) }
    {
        let Opening {
            config,
            asks,
            gate,
            desk,
            passes,
            stations,
            board,
            window,
            reader,
        } = opening;
        let opened = Level::open(
            alloc,
            &config,
            asks,
            gate,
            desk,
            passes,
            stations,
            (board, window, reader),
        )?;
        Ok(Session::of(rt, alloc, opened)?)
    }

    /// The level of this opening, where a dispatch is charged the request's cost, 1 to 4,294,967,295, in a unit of the
    /// caller's.
    ///
    /// # Errors
    ///
    /// As `open`.
    pub fn open_with_costs<R: Wait>(
        rt: &R,
        alloc: Global,
        opening: Opening<'_>,
        costs: &[u32],
    ) -> Result<Session<K>, OpenFault>
        requires level { K.level ≡ level_with opening.gate opening.board.cell opening.config opening.asks.now costs.now }
        requires one_cost_each { length costs.now ≡ length opening.asks.now }
        requires costs { AreCosts costs.now }
        ensures numbered { IfOk result (λ s. AreNumbered s.requests.items) }
        ensures away { IfOk result (λ s. AreAway s.requests.items) }
        ensures new { IfOk result (λ s. All (IsNew K.level.gate) s.operators.items) }
        ensures settings { OnOk result (SettledBy opening.entry.config.limit_response opening.entry.config opening.entry.asks.now) }
        ensures fault { IfErr result (IsOpenFault opening.entry.config opening.entry.asks.now opening.entry.gate.shape.stations) }
    {
        let Opening {
            config,
            asks,
            gate,
            desk,
            passes,
            stations,
            board,
            window,
            reader,
        } = opening;
        let opened = Level::open_with_costs(
            alloc,
            &config,
            asks,
            costs,
            gate,
            desk,
            passes,
            stations,
            (board, window, reader),
        )?;
        Ok(Session::of(rt, alloc, opened)?)
    }

    // The level that was opened, with its tokens.
    fn of<R: Wait>(rt: &R, alloc: Global, opened: Opened<K>) -> Result<Session<K>, AllocError>
        requires passes { All (λ t. (pass_gate t ≡ K.level.gate) × (t.pass.state ≡ Fresh)) opened.passes.items }
        requires numbered { ArePassesNumbered opened.passes.items }
        requires stations { All (IsNew K.level.gate) opened.stations.items }
        requires passes_count { length opened.passes.items ≡ length K.level.gate.shape.widths }
        requires stations_count { length opened.stations.items ≡ K.level.gate.shape.stations }
        requires stats { opened.stats.cell ≡ opened.level.cell }
        ensures numbered { IfOk result (λ s. AreNumbered s.requests.items) }
        ensures away { IfOk result (λ s. AreAway s.requests.items) }
        ensures new { IfOk result (λ s. All (IsNew K.level.gate) s.operators.items) }
    {
        let Opened {
            level,
            passes,
            stations,
            stats,
        } = opened;
        let operators = operators_of(alloc, stations)?;
        let requests = requests_of(rt, alloc, &level, passes)?;
        Ok(Session {
            level,
            requests,
            operators,
            stats,
        })
    }

    /// The request arrives. Answers `Run`, `Waits` or `Over`.
    pub fn begin<R: Wait>(&mut self, rt: &R, request: u32) -> Answer
        requires { request < length K.level.gate.shape.widths }
        ensures calls { CallsOne places.Away request self.old.requests.items result self.new.requests.items }
        ensures kind { SaysWhere result }
        ensures operators { self.new.operators.items ≡ self.old.operators.items }
    {
        self.requests[request as usize].begin(rt, &self.level)
    }

    /// As `begin`. Answers also the event that the log got by the arrival: the request's Enter or Full, which name
    /// its queue, or none.
    pub fn begin_with_event<R: Wait>(&mut self, rt: &R, request: u32) -> (Answer, Option<Event>)
        requires { request < length K.level.gate.shape.widths }
        ensures calls { CallsOne places.Away request self.old.requests.items result.0 self.new.requests.items }
        ensures kind { SaysWhere result.0 }
        ensures operators { self.new.operators.items ≡ self.old.operators.items }
        ensures logs { (d : RequestView) → LogsFor K.level (slice_index_or self.old.requests.items request d).number result.0 (slice_index_or self.new.requests.items request d).token result.1 }
    {
        self.requests[request as usize].begin_with_event(rt, &self.level)
    }

    /// Reads the decision of a request that waits. Answers `Run`, `Waits` or `Over`.
    pub fn poll<R: Wait>(&mut self, rt: &R, request: u32) -> Answer
        requires { request < length K.level.gate.shape.widths }
        ensures calls { CallsOne places.Waits request self.old.requests.items result self.new.requests.items }
        ensures kind { SaysWhere result }
        ensures reads { (d : RequestView) → ReadsAs (slice_index_or self.old.requests.items request d).token result (slice_index_or self.new.requests.items request d).token }
        ensures operators { self.new.operators.items ≡ self.old.operators.items }
    {
        self.requests[request as usize].poll(rt, &self.level)
    }

    /// A request that executes gives its seats back. Then requests that wait are dispatched. Answers `Released`.
    pub fn finish<R: Wait>(&mut self, rt: &R, request: u32) -> Answer
        requires { request < length K.level.gate.shape.widths }
        ensures calls { CallsOne places.Runs request self.old.requests.items result self.new.requests.items }
        ensures operators { self.new.operators.items ≡ self.old.operators.items }
        ensures steps { (d : RequestView) → ReleasesAs (slice_index_or self.old.requests.items request d).token result (slice_index_or self.new.requests.items request d).token }
    {
        self.requests[request as usize].finish(rt, &self.level)
    }

    /// The first operator cancels the request, if it is undecided. One that waits is struck. Answers its decision.
    pub fn cancel<R: Wait>(&mut self, rt: &R, request: u32) -> Decision
        requires is_request { request < length K.level.gate.shape.widths }
        requires operator { 0 < K.level.gate.shape.stations }
        ensures answer { (d : StationToken) → CancelsTo (slice_index_or self.old.operators.items 0 d).station request result (slice_index_or self.new.operators.items 0 d).station }
        ensures others { StayButFirst self.old.operators.items self.new.operators.items }
        ensures same { self.new.requests.items ≡ self.old.requests.items }
    {
        let (decision, owed) = self.operators[0].cancel(&self.level, request);
        self.level.strike_if_owed(rt, owed);
        decision
    }

    /// The first operator closes the level. Says whether this close was the first.
    pub fn close(&mut self) -> Close
        requires { 0 < K.level.gate.shape.stations }
        ensures answer { (d : StationToken) → ClosesTo (slice_index_or self.old.operators.items 0 d).station result (slice_index_or self.new.operators.items 0 d).station }
        ensures others { StayButFirst self.old.operators.items self.new.operators.items }
        ensures same { self.new.requests.items ≡ self.old.requests.items }
    {
        self.operators[0].close(&self.level)
    }

    /// The first operator reads the level word.
    pub fn look(&mut self) -> LevelWord
        requires { 0 < K.level.gate.shape.stations }
        ensures answer { (d : StationToken) → StationLoadsLevel (slice_index_or self.old.operators.items 0 d).station result (slice_index_or self.new.operators.items 0 d).station }
        ensures others { StayButFirst self.old.operators.items self.new.operators.items }
        ensures same { self.new.requests.items ≡ self.old.requests.items }
    {
        self.operators[0].look(&self.level)
    }

    /// The first operator sets the limit, 1 to 10,000 seats. Then requests that wait are dispatched. Answers the old
    /// limit.
    pub fn set_limit<R: Wait>(&mut self, rt: &R, limit: u32) -> u32
        requires operator { 0 < K.level.gate.shape.stations }
        requires some { 1 ≤ limit }
        requires small { limit ≤ max_limit }
        ensures answer { (d : StationToken) → LastSet (slice_index_or self.old.operators.items 0 d).station limit result (slice_index_or self.new.operators.items 0 d).station }
        ensures others { StayButFirst self.old.operators.items self.new.operators.items }
        ensures same { self.new.requests.items ≡ self.old.requests.items }
    {
        self.operators[0].set_limit(rt, &self.level, limit)
    }

    /// Reads the statistics.
    pub fn stats<R: Wait>(&mut self, rt: &R) -> Stats
        ensures found { shown self.new.stats.trace ≡ numbers_of result }
        ensures sum { result.entered ≡ result.dispatched + result.struck + result.waiting }
        ensures same { self.new.requests.items ≡ self.old.requests.items }
        ensures operators { self.new.operators.items ≡ self.old.operators.items }
    {
        self.level.stats(rt, &mut self.stats)
    }

    /// Ends the level. A request that is over stays as it is. Of the others, the first operator cancels each that is
    /// undecided, by one step each, and makes no other step. Each that executes gives its seats back. Without an
    /// operator, each is brought to its end as by `Request::end`, in the order of their numbers from the last to the
    /// first.
    ///
    /// # Errors
    ///
    /// `AllocError` if memory was refused. Then everything is given up.
    pub fn end<R: Wait>(self, rt: &R, alloc: Global) -> Result<Report, AllocError>
        ensures { IfOk result (SessionEnds K.level self.requests.items self.operators.items) }
    {
        let Session {
            level,
            mut requests,
            mut operators,
            stats,
        } = self;
        settle_all(rt, &level, &mut operators, &mut requests);
        let dones = match Vec::with_capacity(alloc, requests.len()) {
            Ok(dones) => dones_of(rt, &level, requests, dones)?,
            Err(refused) => {
                give_up(rt, &level, requests);
                return Err(refused);
            }
        };
        let stations = stations_of(alloc, operators)?;
        level.end(alloc, dones, stations, stats)
    }
}
