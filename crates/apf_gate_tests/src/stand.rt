//! A gate with all its tokens. A call asserts its answer, and that it is for the token that makes it.

ghost use Rattle.std.specs.Prelude.{◌≡◌, length, All};
ghost use Rattle.apf_gate.specs.declared.record.State.TheVariants.{Fresh};
ghost use Rattle.apf_gate.specs.Tokens.{pass_gate, desk_gate, station_gate};

use crate::asserts::is;
use crate::desks::StagedDesk;
use crate::endings::Ended;
use crate::requests::Request;
use crate::stations;
use apf_gate::{Close, Gate, Pass, Station, TryEnter, TryGrant, TrySetLimit, TryTake};
use apf_model::Response;
use apf_words::{Decision, LevelWord};
use std::alloc::Global;
use std::process::Abort;
use std::sync::Wait;

/// A gate with its Desk, requests and Stations.
#[derive(Drop)]
pub struct Stand {
    pub gate: Gate<Global>,
    pub desk: StagedDesk,
    pub requests: Vec<Request>,
    pub stations: Vec<Station>,
    response: Response,
    pub ghost is_a_batch: { length gate.shape.widths ≡ gate.shape.slots },
    pub ghost desk_is: { desk_gate desk.desk ≡ gate },
    pub ghost requests_are: { All (λ r. pass_gate r.pass ≡ gate) requests.items },
    pub ghost stations_are: { All (λ t. station_gate t ≡ gate) stations.items },
    pub ghost requests_count: { length requests.items ≡ length gate.shape.widths },
    pub ghost stations_count: { length stations.items ≡ gate.shape.stations },
    pub ghost response_is: { gate.shape.response ≡ response },
}

/// The requests of these Passes, in their order.
pub fn requests_of<R: Abort>(
    rt: &R,
    alloc: Global,
    mut passes: Vec<Pass>,
    gate: &Gate<Global>,
) -> Vec<Request>
    requires { All (λ t. (pass_gate t ≡ gate.now) × (t.pass.state ≡ Fresh)) passes.items }
    ensures count { length result.items ≡ length passes.items }
    ensures own { All (λ r. pass_gate r.pass ≡ gate.now) result.items }
{
    let Ok(mut requests) = Vec::with_capacity(alloc, passes.len()) else {
        panic!(rt; "memory")
    };
    while let Some(pass) = passes.pop() {
        let Ok(()) = requests.push(Request::new(pass)) else {
            panic!(rt; "memory")
        };
    }
    requests.reverse();
    requests
}

/// The Passes of these requests.
pub fn passes_of<R: Abort>(
    rt: &R,
    alloc: Global,
    mut requests: Vec<Request>,
    gate: &Gate<Global>,
) -> Vec<Pass>
    requires { All (λ r. pass_gate r.pass ≡ gate.now) requests.items }
    ensures count { length result.items ≡ length requests.items }
    ensures own { All (λ t. pass_gate t ≡ gate.now) result.items }
{
    let Ok(mut passes) = Vec::with_capacity(alloc, requests.len()) else {
        panic!(rt; "memory")
    };
    while let Some(request) = requests.pop() {
        let Ok(()) = passes.push(request.into_pass()) else {
            panic!(rt; "memory")
        };
    }
    passes
}

impl Stand {
    /// A gate that is opened so.
    pub fn open<R: Abort>(
        rt: &R,
        alloc: Global,
        limit: u32,
        widths: &[u32],
        stations: u32,
        response: Response,
    ) -> Stand {
        let Ok((gate, desk, passes, stations)) = Gate::open(
            alloc, limit, widths, stations, response,
        ) else {
            panic!(rt; "opens")
        };
        let requests = requests_of(rt, alloc, passes, &gate);
        Stand {
            gate,
            desk: StagedDesk::new(desk),
            requests,
            stations,
            response,
        }
    }

    /// A gate of one seat, whose one request waits.
    pub fn waiting<R: Abort>(rt: &R, alloc: Global, stations: u32) -> Stand {
        let mut stand = Stand::open(rt, alloc, 1, &[1], stations, Response::Queue);
        stand.ask(rt, 0, None);
        stand.enter(rt, 0, TryEnter::Entered);
        stand
    }

    /// Ends the gate, and tells what its words say.
    pub fn end<R: Abort>(self, rt: &R, alloc: Global) -> Ended {
        let Stand {
            gate,
            desk,
            requests,
            stations,
            response: _,
        } = self;
        let Ok(count) = u32::try_from(requests.len()) else {
            panic!(rt; "count")
        };
        let passes = passes_of(rt, alloc, requests, &gate);
        let Ok(words) = gate.end(alloc, desk.into_desk(), passes, stations) else {
            panic!(rt; "memory")
        };
        Ended::new(words, count)
    }

    /// The number of the request at this place.
    pub fn number(&self, place: usize) -> Option<u32> {
        if place >= self.requests.len() {
            return None;
        }
        u32::try_from(self.requests[place].pass.number()).ok()
    }

    fn try_take(&mut self, request: usize) -> Option<TryTake> {
        if request >= self.requests.len() {
            return None;
        }
        self.requests[request].take(&self.gate)
    }

    fn try_ask(&mut self, request: usize) -> Option<Option<Decision>> {
        if request >= self.requests.len() {
            return None;
        }
        self.requests[request].ask(&self.gate)
    }

    fn try_told(&mut self, request: usize) -> Option<Decision> {
        if request >= self.requests.len() {
            return None;
        }
        self.requests[request].told(&self.gate)
    }

    fn try_decide(&mut self, request: usize, decision: Decision) -> Option<Decision> {
        if request >= self.requests.len() {
            return None;
        }
        match decision {
            Decision::Execute => self.requests[request].execute(&self.gate),
            Decision::Closed => self.requests[request].refuse_closed(&self.gate),
            Decision::ConcurrencyLimit => self.refuse_limit(request),
            Decision::QueueFull | Decision::Cancelled => None,
        }
    }

    fn refuse_limit(&mut self, request: usize) -> Option<Decision> {
        if request >= self.requests.len() {
            return None;
        }
        match self.response {
            Response::Queue => None,
            Response::Reject => self.requests[request].refuse_limit(&self.gate),
        }
    }

    fn try_release(&mut self, request: usize) -> Option<bool> {
        if request >= self.requests.len() {
            return None;
        }
        self.requests[request].release(&self.gate)
    }

    fn try_enter(&mut self, request: usize) -> Option<TryEnter> {
        if request >= self.requests.len() {
            return None;
        }
        match self.response {
            Response::Queue => self.desk.enter(&self.gate, &mut self.requests[request]),
            Response::Reject => None,
        }
    }

    fn try_refuse(&mut self, request: usize, decision: Decision) -> Option<Decision> {
        if request >= self.requests.len() {
            return None;
        }
        self.desk
            .refuse(&self.gate, &mut self.requests[request], decision)
    }

    fn try_hear(&mut self, request: usize) -> Option<Decision> {
        if request >= self.requests.len() {
            return None;
        }
        self.desk.hear(&self.gate, &mut self.requests[request])
    }

    fn try_seen(&mut self, request: u32) -> Option<Decision> {
        if request as usize >= self.requests.len() {
            return None;
        }
        self.gate.is_ticket(request);
        self.desk.seen(&self.gate, request as u128)
    }

    fn view(&mut self) -> LevelWord {
        self.desk.view(&self.gate)
    }

    fn try_grant(&mut self, request: u32) -> Option<TryGrant> {
        if request as usize >= self.requests.len() {
            return None;
        }
        self.gate.is_ticket(request);
        self.desk.grant(&self.gate, request as u128)
    }

    fn try_settle(&mut self) -> Option<Decision> {
        self.desk.settle(&self.gate)
    }

    fn try_give_back(&mut self) -> Option<()> {
        self.desk.give_back(&self.gate)
    }

    fn try_leave(&mut self, request: u32) -> Option<()> {
        if request as usize >= self.requests.len() {
            return None;
        }
        self.gate.is_ticket(request);
        self.desk.leave(&self.gate, request as u128)
    }

    fn try_cancel(&mut self, station: usize, request: u32) -> Option<Decision> {
        if station >= self.stations.len() || request as usize >= self.requests.len() {
            return None;
        }
        self.gate.is_ticket(request);
        Some(stations::cancel(&self.gate, &mut self.stations[station], request as u128))
    }

    fn try_close(&mut self, station: usize) -> Option<Close> {
        if station >= self.stations.len() {
            return None;
        }
        Some(stations::close(&self.gate, &mut self.stations[station]))
    }

    /// The Station reads this limit.
    pub fn looks<R: Abort>(&mut self, rt: &R, station: usize, limit: u32) {
        let level = self.look(rt, station);
        is(rt, level.limit(), limit);
    }

    /// The Desk reads a closed level.
    pub fn views_closed<R: Abort>(&mut self, rt: &R) {
        assert!(rt; self.view().closed());
    }

    /// The Station reads a closed level.
    pub fn looks_closed<R: Abort>(&mut self, rt: &R, station: usize) {
        let level = self.look(rt, station);
        assert!(rt; level.closed());
    }

    fn look<R: Abort>(&mut self, rt: &R, station: usize) -> LevelWord {
        assert!(rt; station < self.stations.len());
        stations::look(&self.gate, &mut self.stations[station])
    }

    /// Asserts that the Station reads an open level, no seat of which is taken, and in which nobody waits.
    pub fn is_idle<R: Abort>(&mut self, rt: &R, station: usize) {
        let level = self.look(rt, station);
        is(rt, level.closed(), false);
        is(rt, level.waiters(), 0);
        is(rt, level.seats(), 0);
    }

    fn try_set_limit(&mut self, station: usize, limit: u32) -> Option<TrySetLimit> {
        if station >= self.stations.len() || !(1..=10_000).contains(&limit) {
            return None;
        }
        Some(stations::set_limit(&self.gate, &mut self.stations[station], limit))
    }

    /// Sleeps while the request is undecided.
    pub fn park<R: Wait + Abort>(&self, rt: &R, request: u32) {
        assert!(rt; (request as usize) < self.requests.len());
        self.gate.is_ticket(request);
        self.gate.park(rt, request as u128);
    }
}

impl Stand {
    /// The request tries to take its seats. It is answered so.
    pub fn take<R: Abort>(&mut self, rt: &R, request: usize, answer: TryTake) {
        is(rt, self.try_take(request), Some(answer));
    }

    /// The request asks for what others decide. It is answered so.
    pub fn ask<R: Abort>(&mut self, rt: &R, request: usize, answer: Option<Decision>) {
        is(rt, self.try_ask(request), Some(answer));
    }

    /// The request writes its decision. It is answered so.
    pub fn decide<R: Abort>(
        &mut self,
        rt: &R,
        request: usize,
        decision: Decision,
        answer: Decision,
    ) {
        is(rt, self.try_decide(request, decision), Some(answer));
    }

    /// The request gives its seats back. Says whether others waited. It is answered so.
    pub fn release<R: Abort>(&mut self, rt: &R, request: usize, answer: bool) {
        is(rt, self.try_release(request), Some(answer));
    }

    /// The Desk enters the request. It is answered so.
    pub fn enter<R: Abort>(&mut self, rt: &R, request: usize, answer: TryEnter) {
        is(rt, self.try_enter(request), Some(answer));
    }

    /// The Desk refuses the request. It is answered so.
    pub fn refuse<R: Abort>(
        &mut self,
        rt: &R,
        request: usize,
        decision: Decision,
        answer: Decision,
    ) {
        is(rt, self.try_refuse(request, decision), Some(answer));
    }

    /// The Desk grants the request. It is answered so.
    pub fn grant<R: Abort>(&mut self, rt: &R, request: u32, answer: TryGrant) {
        is(rt, self.try_grant(request), Some(answer));
    }

    /// The Desk settles the request that it holds. It is answered so.
    pub fn settle<R: Abort>(&mut self, rt: &R, answer: Decision) {
        is(rt, self.try_settle(), Some(answer));
    }

    /// The Desk gives back the seats of the request that it lost.
    pub fn give_back<R: Abort>(&mut self, rt: &R) {
        assert!(rt; self.try_give_back().is_some());
    }

    /// The Desk lets the request leave.
    pub fn leave<R: Abort>(&mut self, rt: &R, request: u32) {
        assert!(rt; self.try_leave(request).is_some());
    }

    /// The Station cancels the request. It is answered so.
    pub fn cancel<R: Abort>(&mut self, rt: &R, station: usize, request: u32, answer: Decision) {
        is(rt, self.try_cancel(station, request), Some(answer));
    }

    /// The Station closes the level. It is answered so.
    pub fn close<R: Abort>(&mut self, rt: &R, station: usize, answer: Close) {
        is(rt, self.try_close(station), Some(answer));
    }

    /// The Station tries to set the limit. It is answered so.
    pub fn set_limit<R: Abort>(&mut self, rt: &R, station: usize, limit: u32, answer: TrySetLimit) {
        is(rt, self.try_set_limit(station, limit), Some(answer));
    }

    /// The request reads its decision. It is answered so.
    pub fn told<R: Abort>(&mut self, rt: &R, request: usize, answer: Option<Decision>) {
        is(rt, self.try_told(request), answer);
    }

    /// The Desk hears the request. It is answered so.
    pub fn hear<R: Abort>(&mut self, rt: &R, request: usize, answer: Option<Decision>) {
        is(rt, self.try_hear(request), answer);
    }

    /// The Desk reads the request's decision. It is answered so.
    pub fn seen<R: Abort>(&mut self, rt: &R, request: u32, answer: Option<Decision>) {
        is(rt, self.try_seen(request), answer);
    }
}
