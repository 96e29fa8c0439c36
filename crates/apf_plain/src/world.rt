//! The world of a level, kept as a list for each of its functions.

ghost use Rattle.std.specs.Prelude.{◌≡◌, ℕ, ◌<◌, ◌≤◌, ◌↔◌, length, max, IfOk, IsTrue, slice_set, replicate, Some, None, true, false};
ghost use Rattle.std.specs.Bool.{OnTrue, OnFalse};
ghost use Rattle.apf_model.specs.World.{seats_at, waits_at};
ghost use Rattle.apf_model.specs.Schedule.{AreWidths};
ghost use Rattle.apf_plain.specs.Stages.{seats_of};

use apf_model::{Move, Response, Stage, every_world_adds_up};
use apf_words::{Decision, fits};
use std::alloc::{AllocError, Global};

/// The world of a level of at most 10,000 requests.
#[derive(Debug, Drop)]
pub struct World {
    is_open: bool,
    limit: u32,
    largest: u32,
    response: Response,
    widths: Vec<u32>,
    stages: Vec<Stage>,
    saw_no_room: Vec<bool>,
    decisions: Vec<Option<Decision>>,
    ghost as_many_stages: { length stages.items ≡ length widths.items },
    ghost as_many_saw: { length saw_no_room.items ≡ length widths.items },
    ghost as_many_decisions: { length decisions.items ≡ length widths.items },
    ghost few: { length widths.items ≤ 10000 },
    ghost are_widths: { AreWidths widths.items },
    ghost low: { limit ≤ 10000 },
    ghost few_seats: { seats_of widths.items stages.items ≤ 20000 },
}

/// Whether these are widths of requests: 1 to 20,000 seats each.
pub fn are_widths(widths: &[u32]) -> bool
    ensures { IsTrue result ↔ AreWidths widths.now }
{
    widths.iter().all(|width| 1 <= *width && *width <= 20_000)
}

// The seats that a request of this stage and width has.
fn seats_at(stage: Stage, width: u32) -> u32
    ensures { result ≡ seats_at stage width }
{
    match stage {
        Stage::Stands => width,
        Stage::Away | Stage::Waits | Stage::Gone => 0,
    }
}

// 1 for a request that waits.
fn waits_at(stage: Stage) -> u32
    ensures { result ≡ waits_at stage }
{
    match stage {
        Stage::Waits => 1,
        Stage::Away | Stage::Stands | Stage::Gone => 0,
    }
}

fn copy_of(alloc: Global, widths: &[u32]) -> Result<Vec<u32>, AllocError>
    ensures { IfOk result (λ v. v.items ≡ widths.now) }
{
    widths.iter().copied().collect(alloc)
}

fn all_away(alloc: Global, count: usize) -> Result<Vec<Stage>, AllocError>
    ensures { IfOk result (λ v. v.items ≡ replicate count Stage.Away) }
{
    vec![in alloc; Stage::Away; count]
}

fn none_saw(alloc: Global, count: usize) -> Result<Vec<bool>, AllocError>
    ensures { IfOk result (λ v. v.items ≡ replicate count false) }
{
    vec![in alloc; false; count]
}

fn all_undecided(alloc: Global, count: usize) -> Result<Vec<Option<Decision>>, AllocError>
    ensures { IfOk result (λ v. v.items ≡ replicate count None) }
{
    vec![in alloc; None; count]
}

impl World {
    ghost use Rattle.apf_model.specs.World.{
      Opening,
      opening_world,
      HasNotCome,
      IsWaiting,
      IsStanding,
      seats,
      waiters,
      width,
      FitsIn,
      MayTake,
      MayEnter,
      MayGrant,
      MayLeave,
      MayBe,
      MayDecide,
      MayRelease,
      MaySee,
      Allowed,
      after,
      put,
    };
    ghost use Rattle.apf_plain.specs.Worlds.{world_of, widths_of, IsLowLimit};

    /// The world of a level that has just been opened, with a limit of at most 10,000 seats and
    /// requests of these widths, 1 to 20,000 each.
    pub fn new(
        alloc: Global,
        limit: u32,
        response: Response,
        widths: &[u32],
    ) -> Result<World, AllocError>
        requires limit { limit ≤ 10000 }
        requires few { length widths.now ≤ 10000 }
        requires widths { AreWidths widths.now }
        ensures world { IfOk result (λ w. world_of w
            ≡ opening_world (record { limit = limit; response = response; widths = widths.now })) }
        ensures widths { IfOk result (λ w. widths_of w ≡ widths.now) }
    {
        let stages = all_away(alloc, widths.len())?;
        let saw_no_room = none_saw(alloc, widths.len())?;
        let decisions = all_undecided(alloc, widths.len())?;
        let widths = copy_of(alloc, widths)?;
        Ok(World {
            is_open: true,
            limit,
            largest: limit,
            response,
            widths,
            stages,
            saw_no_room,
            decisions,
        })
    }

    /// Whether the level is open.
    pub fn is_open(&self) -> bool
        ensures { result ≡ (world_of self.now).is_open }
    {
        self.is_open
    }

    /// The limit, in seats.
    pub fn limit(&self) -> u32
        ensures { result ≡ (world_of self.now).limit }
    {
        self.limit
    }

    /// The largest limit so far, in seats.
    pub fn largest(&self) -> u32
        ensures { result ≡ (world_of self.now).largest }
    {
        self.largest
    }

    /// Where a request is on its way.
    pub fn stage(&self, request: u32) -> Stage
        ensures { result ≡ (world_of self.now).stage request }
    {
        self.stages
            .get(request as usize)
            .copied()
            .unwrap_or(Stage::Away)
    }

    /// The decision on a request, or `None` if it is undecided.
    pub fn decision(&self, request: u32) -> Option<Decision>
        ensures { result ≡ (world_of self.now).decision request }
    {
        self.decisions
            .get(request as usize)
            .copied()
            .unwrap_or(None)
    }

    // Whether a request saw no room.
    fn saw(&self, request: u32) -> bool
        ensures { result ≡ (world_of self.now).saw_no_room request }
    {
        self.saw_no_room
            .get(request as usize)
            .copied()
            .unwrap_or(false)
    }

    /// The seats in use.
    pub fn seats(&self) -> u32
        ensures value { result ≡ seats (widths_of self.now) (world_of self.now) }
        ensures small { result ≤ 20000 }
    {
        let mut seats = 0;
        for request in 0..self.widths.len() {
            seats += seats_at(self.stages[request], self.widths[request]);
        }
        seats
    }

    /// How many requests wait.
    pub fn waiters(&self) -> u32
        ensures { result ≡ waiters (widths_of self.now) (world_of self.now) }
    {
        let mut waiters = 0;
        for request in 0..self.stages.len() {
            waiters += waits_at(self.stages[request]);
        }
        waiters
    }

    // Whether this is a request of the level.
    fn is_request(&self, request: u32) -> bool
        ensures { IsTrue result ↔ (request < length (widths_of self.now)) }
    {
        (request as usize) < self.widths.len()
    }

    // Whether the request's width fits the seats.
    fn fits(&self, request: u32) -> bool
        requires { request < length (widths_of self.now) }
        ensures { IsTrue result ↔ FitsIn (widths_of self.now) (world_of self.now) request }
    {
        fits(self.seats(), self.limit, self.widths[request as usize])
    }

    fn may_take(&self, request: u32) -> bool
        ensures { IsTrue result ↔ MayTake (widths_of self.now) (world_of self.now) request }
    {
        self.is_request(request)
            && self.is_open
            && self.stage(request) == Stage::Away
            && self.waiters() == 0
            && self.fits(request)
    }

    fn may_enter(&self, request: u32) -> bool
        ensures { IsTrue result ↔ MayEnter (widths_of self.now) (world_of self.now) request }
    {
        self.is_request(request)
            && self.response == Response::Queue
            && self.is_open
            && self.stage(request) == Stage::Away
            && self.decision(request) != Some(Decision::QueueFull)
    }

    fn may_grant(&self, request: u32) -> bool
        ensures { IsTrue result ↔ MayGrant (widths_of self.now) (world_of self.now) request }
    {
        self.is_request(request) && self.stage(request) == Stage::Waits && self.fits(request)
    }

    fn may_leave(&self, request: u32) -> bool
        ensures { IsTrue result ↔ MayLeave (widths_of self.now) (world_of self.now) request }
    {
        self.is_request(request)
            && self.stage(request) == Stage::Waits
            && self.decision(request) == Some(Decision::Cancelled)
    }

    fn may_be(&self, request: u32, decision: Decision) -> bool
        ensures { IsTrue result ↔ MayBe decision (world_of self.now) request }
    {
        match decision {
            Decision::Execute => self.stage(request) == Stage::Stands,
            Decision::QueueFull => self.stage(request) == Stage::Away,
            Decision::Closed => self.stage(request) == Stage::Away && !self.is_open,
            Decision::Cancelled => true,
            Decision::ConcurrencyLimit => {
                self.response == Response::Reject
                    && self.stage(request) == Stage::Away
                    && self.saw(request)
            }
        }
    }

    fn may_decide(&self, request: u32, decision: Decision) -> bool
        ensures { IsTrue result ↔ MayDecide (widths_of self.now) (world_of self.now) request decision }
    {
        self.is_request(request) && self.decision(request) == None && self.may_be(request, decision)
    }

    fn may_release(&self, request: u32) -> bool
        ensures { IsTrue result ↔ MayRelease (widths_of self.now) (world_of self.now) request }
    {
        self.is_request(request)
            && self.stage(request) == Stage::Stands
            && self.decision(request) != None
    }

    fn may_see(&self, request: u32) -> bool
        ensures { IsTrue result ↔ MaySee (widths_of self.now) (world_of self.now) request }
    {
        self.is_request(request)
            && self.is_open
            && self.stage(request) == Stage::Away
            && !self.fits(request)
    }

    /// Whether the step is allowed here.
    pub fn allows(&self, step: Move) -> bool
        ensures { IsTrue result ↔ Allowed (widths_of self.now) step (world_of self.now) }
    {
        match step {
            Move::Take(request) => self.may_take(request),
            Move::Enter(request) => self.may_enter(request),
            Move::Grant(request) => self.may_grant(request),
            Move::Leave(request) => self.may_leave(request),
            Move::Decide(request, decision) => self.may_decide(request, decision),
            Move::Release(request) => self.may_release(request),
            Move::Close | Move::SetLimit(_) => true,
            Move::See(request) => self.may_see(request),
        }
    }

    // Puts the request at this stage.
    fn put_stage(&mut self, request: u32, stage: Stage)
        requires is_request { request < length (widths_of self.old) }
        requires few_seats { seats_of (widths_of self.old)
            (slice_set self.old.stages.items request stage) ≤ 20000 }
        ensures world { world_of self.new
            ≡ record (world_of self.old) { stage = put (world_of self.old).stage request stage } }
        ensures widths { widths_of self.new ≡ widths_of self.old }
    {
        self.stages[request as usize] = stage;
    }

    // Decides the request.
    fn put_decision(&mut self, request: u32, decision: Decision)
        requires { request < length (widths_of self.old) }
        ensures world { world_of self.new
            ≡ record (world_of self.old) { decision = put (world_of self.old).decision request (Some decision) } }
        ensures widths { widths_of self.new ≡ widths_of self.old }
    {
        self.decisions[request as usize] = Some(decision);
    }

    // Notes that the request saw no room.
    fn put_saw(&mut self, request: u32)
        requires { request < length (widths_of self.old) }
        ensures world { world_of self.new
            ≡ record (world_of self.old) { saw_no_room = put (world_of self.old).saw_no_room request true } }
        ensures widths { widths_of self.new ≡ widths_of self.old }
    {
        self.saw_no_room[request as usize] = true;
    }

    // Changes the limit.
    fn put_limit(&mut self, limit: u32)
        requires { limit ≤ 10000 }
        ensures world { let w = world_of self.old in
            world_of self.new ≡ record w { limit = limit; largest = max w.largest limit } }
        ensures widths { widths_of self.new ≡ widths_of self.old }
    {
        let World {
            limit: current,
            largest,
            ..
        } = self;
        *current = limit;
        *largest = (*largest).max(limit);
    }

    // Makes a step that is allowed.
    fn make(&mut self, step: Move)
        requires allowed { Allowed (widths_of self.old) step (world_of self.old) }
        requires low { IsLowLimit step }
        ensures world { world_of self.new ≡ after step (world_of self.old) }
        ensures widths { widths_of self.new ≡ widths_of self.old }
    {
        every_world_adds_up();
        match step {
            Move::Take(request) => self.put_stage(request, Stage::Stands),
            Move::Enter(request) => self.put_stage(request, Stage::Waits),
            Move::Grant(request) => self.put_stage(request, Stage::Stands),
            Move::Leave(request) => self.put_stage(request, Stage::Gone),
            Move::Release(request) => self.put_stage(request, Stage::Gone),
            Move::Decide(request, decision) => self.put_decision(request, decision),
            Move::Close => self.is_open = false,
            Move::SetLimit(limit) => self.put_limit(limit),
            Move::See(request) => self.put_saw(request),
        }
    }

    /// Makes the step if it is allowed here, and answers whether it was. A limit is at most 10,000.
    pub fn step(&mut self, step: Move) -> bool
        requires { IsLowLimit step }
        ensures allowed { IsTrue result ↔ Allowed (widths_of self.old) step (world_of self.old) }
        ensures made { OnTrue result (world_of self.new ≡ after step (world_of self.old)) }
        ensures kept { OnFalse result (world_of self.new ≡ world_of self.old) }
        ensures widths { widths_of self.new ≡ widths_of self.old }
    {
        let allowed = self.allows(step);
        if allowed {
            self.make(step);
        }
        allowed
    }
}
