//! One of the threads: its Station, and its share of the requests.

ghost use Rattle.std.specs.Prelude.{◌≡◌, ◌<◌, ◌≤◌, length, All, IfSome};
ghost use Rattle.apf_gate.specs.declared.record.State.TheVariants.{Fresh};
ghost use Rattle.apf_gate.specs.Tokens.{pass_gate, station_gate};

use crate::levels::stress::client::Client;
use crate::levels::stress::note::{Act, Note};
use crate::levels::stress::random::Random;
use crate::levels::stress::settings::{LEAST_LIMIT, MOST_LIMIT, THREADS};
use crate::levels::stress::stage::Stage;
use apf_gate::{Pass, Station, TrySetLimit};
use apf_level::{Done, Naming};
use apf_session::{Operator, Place};
use std::alloc::{AllocError, Global};
use std::sync::Wait;
use std::thread;

// How many requests of one thread are on their way at once, at most: by turns many, and one.
const MANY: usize = 14;

const TURN: usize = 64;

// The first threads sleep until their one request on its way is decided.
const SLEEPERS: usize = 2;

/// A thread of the level that K names.
#[derive(Drop)]
pub struct Worker<K: Naming> {
    // The requests that did not arrive, the first one last.
    passes: Vec<Pass>,
    dones: Vec<Done>,
    // What the callers of its requests were told, each with the request's number.
    notes: Vec<(u32, Note)>,
    acts: Vec<Act>,
    operator: Operator<K>,
    random: Random,
    ghost passes_are: { All (λ t. (pass_gate t ≡ K.level.gate) × (t.pass.state ≡ Fresh)) passes.items },
    ghost dones_are: { All (λ t. pass_gate t ≡ K.level.gate) dones.items },
}

// A limit to set, in seats: every other time the greatest.
fn limit(random: &mut Random) -> u32
    ensures some { 1 ≤ result }
    ensures small { result ≤ 6 }
{
    if random.is_one_in(2) {
        return MOST_LIMIT as u32;
    }
    (LEAST_LIMIT + random.below(MOST_LIMIT - LEAST_LIMIT + 1)) as u32
}

impl<K: Naming> Worker<K> {
    /// A thread without requests.
    pub fn new(alloc: Global, operator: Operator<K>, random: Random) -> Worker<K> {
        Worker {
            passes: Vec::new(alloc),
            dones: Vec::new(alloc),
            notes: Vec::new(alloc),
            acts: Vec::new(alloc),
            operator,
            random,
        }
    }

    /// Gives it a request, which is to arrive before those that it has.
    ///
    /// # Errors
    ///
    /// `AllocError` if memory was refused.
    pub fn add(&mut self, pass: Pass) -> Result<(), AllocError>
        requires { (pass_gate pass ≡ K.level.gate) × (pass.pass.state ≡ Fresh) }
    {
        self.passes.push(pass)?;
        Ok(())
    }

    // An act that finds no memory is not noted, and then the tests miss it.
    fn note(&mut self, act: Act) {
        let _ = self.acts.push(act);
    }

    // The number of one of these requests, if there is any.
    fn one_of(&mut self, requests: &[Client<K>]) -> Option<u32>
        ensures { IfSome result (λ r. r < length K.level.gate.shape.widths) }
    {
        if requests.is_empty() {
            return None;
        }
        let place = self.random.below(requests.len() as u64) as usize;
        Some(requests[place].number())
    }

    // One of its own requests that are on their way, or one of any thread that arrived or will soon.
    fn whom(&mut self, stage: &Stage<'_, K>, window: &[Client<K>]) -> Option<u32>
        ensures { IfSome result (λ r. r < length K.level.gate.shape.widths) }
    {
        let later = self.random.below(160);
        if self.random.is_one_in(2) {
            return self.one_of(window);
        }
        stage.pick(later)
    }

    // Cancels a request, and strikes it. Every other time another thread may come to it in between.
    fn cancel<R: Wait>(&mut self, rt: &R, stage: &Stage<'_, K>, window: &[Client<K>]) {
        let Some(request) = self.whom(stage, window) else {
            return;
        };
        let (decision, owed) = self.operator.cancel(stage.level, request);
        self.note(Act::Cancel(request, decision));
        if self.random.is_one_in(2) {
            thread::yield_now();
        }
        if stage.level.strike_if_owed(rt, owed) {
            self.note(Act::Strike(request));
        }
    }

    // Tries to set the limit, and dispatches where requests waited then. Answers the old one, if it was set.
    fn try_limit<R: Wait>(&mut self, rt: &R, stage: &Stage<'_, K>, limit: u32) -> Option<u32>
        requires some { 1 ≤ limit }
        requires small { limit ≤ 6 }
    {
        let (tried, owes) = self.operator.try_set_limit(stage.level, limit);
        stage.level.dispatch_if_owed(rt, owes);
        match tried {
            TrySetLimit::Set(old, _waiting) => Some(old),
            TrySetLimit::Raced => None,
        }
    }

    // Sets the limit, or tries to.
    fn set_limit<R: Wait>(&mut self, rt: &R, stage: &Stage<'_, K>) {
        let limit = limit(&mut self.random);
        let old = if self.random.is_one_in(2) {
            Some(self.operator.set_limit(rt, stage.level, limit))
        } else {
            self.try_limit(rt, stage, limit)
        };
        if let Some(old) = old {
            self.note(Act::Limit(old, limit));
        }
    }

    fn close(&mut self, stage: &Stage<'_, K>) {
        let told = self.operator.close(stage.level);
        stage.note_close();
        self.note(Act::Close(told));
    }

    // What its Station does before the next request arrives.
    fn act<R: Wait>(&mut self, rt: &R, stage: &Stage<'_, K>, window: &[Client<K>]) {
        if self.random.is_one_in(8) {
            self.cancel(rt, stage, window);
        }
        if self.random.is_one_in(32) {
            self.set_limit(rt, stage);
        }
        if stage.is_closing() {
            self.close(stage);
        }
    }

    // The next request that did not arrive, once its Station has acted.
    fn next<R: Wait>(
        &mut self,
        rt: &R,
        stage: &Stage<'_, K>,
        window: &[Client<K>],
    ) -> Option<Client<K>> {
        let pass = self.passes.pop()?;
        self.act(rt, stage, window);
        stage.level.is_a_batch();
        let mut request = Client::new(pass);
        if stage.is_closed() {
            request.be_late();
        }
        Some(request)
    }

    // The next request arrives, and goes into the window. Every fourth one tries to be admitted first.
    fn arrive<R: Wait>(&mut self, rt: &R, stage: &Stage<'_, K>, window: &mut Vec<Client<K>>) {
        let tries = self.random.is_one_in(4);
        let Some(mut request) = self.next(rt, stage, window.as_slice()) else {
            return;
        };
        if tries {
            request.try_admit(rt, stage.level);
        }
        request.begin(rt, stage.level);
        if request.place() == Place::Runs {
            stage.crowd.enter(stage.width(request.number()));
        }
        if let Err(refused) = window.push(request) {
            self.finish(rt, stage, refused.value);
        }
    }

    // The request reads its decision if it waits, and may end if it executes.
    fn tend<R: Wait>(&mut self, rt: &R, stage: &Stage<'_, K>, request: &mut Client<K>) {
        let width = stage.width(request.number());
        let ends = self.random.is_one_in(3);
        match request.place() {
            Place::Waits => {
                request.poll(rt, stage.level);
                if request.place() == Place::Runs {
                    stage.crowd.enter(width);
                }
            }
            Place::Runs if ends => {
                stage.crowd.leave(width);
                request.release(rt, stage.level);
            }
            Place::Away | Place::Runs | Place::Over => {}
        }
    }

    // One request of the window, whichever, goes on. It leaves the window if it is over.
    fn go_on<R: Wait>(&mut self, rt: &R, stage: &Stage<'_, K>, window: &mut Vec<Client<K>>) {
        if window.is_empty() {
            return;
        }
        let place = self.random.below(window.len() as u64) as usize;
        self.tend(rt, stage, &mut window[place]);
        if window[place].place() == Place::Over {
            let request = window.swap_remove(place);
            self.finish(rt, stage, request);
        }
    }

    // Keeps what is left of a request.
    fn finish<R: Wait>(&mut self, rt: &R, stage: &Stage<'_, K>, request: Client<K>) {
        let number = request.number();
        let note = request.note();
        let _ = self.notes.push((number, note));
        // one that finds no memory is missed at the end of the level
        let _ = self.dones.push(request.end(rt, stage.level));
    }

    // Whether its next request arrives now, beside this many: by turns many are on their way at once, or one after a
    // while.
    fn is_ready(&mut self, beside: usize) -> bool {
        if self.passes.len() / TURN % 4 == 0 {
            beside == 0 && self.random.is_one_in(8)
        } else {
            beside < MANY
        }
    }

    // Serves its requests, many at once.
    fn serve<R: Wait>(&mut self, rt: &R, stage: &Stage<'_, K>) {
        let mut window = Vec::new(stage.alloc);
        for _turn in rt.forever() {
            if self.is_ready(window.len()) {
                self.arrive(rt, stage, &mut window);
            }
            if window.is_empty() && self.passes.is_empty() {
                break;
            }
            self.go_on(rt, stage, &mut window);
            self.go_on(rt, stage, &mut window);
            thread::yield_now();
        }
        self.finish_all(rt, stage, window);
    }

    // Keeps what is left of the requests.
    fn finish_all<R: Wait>(&mut self, rt: &R, stage: &Stage<'_, K>, mut requests: Vec<Client<K>>) {
        while let Some(request) = requests.pop() {
            self.finish(rt, stage, request);
        }
        requests.destroy_empty();
    }

    // Serves its requests one after another.
    fn serve_in_turn<R: Wait>(&mut self, rt: &R, stage: &Stage<'_, K>) {
        let window = Vec::new(stage.alloc);
        for _turn in rt.forever() {
            let Some(request) = self.next(rt, stage, window.as_slice()) else {
                break;
            };
            self.sleep(rt, stage, request);
        }
        self.finish_all(rt, stage, window);
    }

    // The request arrives, and its thread sleeps until it is decided. If it executes, it does for a while.
    fn sleep<R: Wait>(&mut self, rt: &R, stage: &Stage<'_, K>, mut request: Client<K>) {
        request.admit(rt, stage.level);
        if request.place() == Place::Runs {
            let width = stage.width(request.number());
            stage.crowd.enter(width);
            thread::yield_now();
            stage.crowd.leave(width);
            request.release(rt, stage.level);
        }
        self.finish(rt, stage, request);
    }

    /// Brings its requests to their ends, and closes the level once more if it is closed.
    pub fn work<R: Wait>(&mut self, rt: &R, stage: &Stage<'_, K>, thread: usize) {
        stage.wait_for_all();
        if thread < SLEEPERS {
            self.serve_in_turn(rt, stage);
        } else {
            self.serve(rt, stage);
        }
        if stage.is_closed() {
            self.close(stage);
        }
    }

    /// Its Station, what is left of its requests, and what it was told.
    pub fn into_parts(self) -> (Station, Vec<Done>, Vec<(u32, Note)>, Vec<Act>)
        ensures station { station_gate result.0 ≡ K.level.gate }
        ensures dones { All (λ t. pass_gate t ≡ K.level.gate) result.1.items }
    {
        let Worker {
            passes: _,
            dones,
            notes,
            acts,
            operator,
            random: _,
        } = self;
        (operator.into_station(), dones, notes, acts)
    }
}
