//! A book under a lock, and what threads do with it.

ghost use Rattle.std.specs.Prelude.{◌≡◌, ◌<◌, length};
ghost use Rattle.apf_gate.specs.Tokens.{desk_gate};

use crate::marks::Mark;
use crate::requests::{Request, Tried};
use apf_book::{Arrived, Book};
use apf_gate::Gate;
use apf_rounds::{Start, pass_time, turns};
use apf_words::Decision;
use std::alloc::Global;
use std::marker::PhantomData;
use std::sync::{Mutex, Wait};
use std::thread;

/// How many turns a loop is made that waits for others.
const MOST_TURNS: u32 = 100_000_000;

/// The book of the gate that the marker names.
#[derive(Drop)]
pub struct Locked<K: Mark> {
    book: Book<Global>,
    of: PhantomData<K>,
    ghost own: { desk_gate book.desk ≡ K.gate },
}

impl<K: Mark> Locked<K> {
    /// This book.
    pub fn new(book: Book<Global>) -> Locked<K>
        requires { desk_gate book.desk ≡ K.gate }
    {
        Locked {
            book,
            of: PhantomData,
        }
    }

    /// Dispatches the heads that fit.
    pub fn dispatch<R: Wait>(&mut self, rt: &R, gate: &Gate<Global>) -> u32
        requires { gate.now ≡ K.gate }
    {
        self.book.dispatch(rt, gate)
    }

    /// The request comes to the book, and where it enters the heads that fit are dispatched.
    pub fn hand<R: Wait>(&mut self, rt: &R, gate: &Gate<Global>, request: &mut Request<K>)
        requires { gate.now ≡ K.gate }
    {
        if let Some(Arrived::Queued(_)) = request.hand(rt, gate, &mut self.book) {
            self.book.dispatch(rt, gate);
        }
    }

    /// Strikes the request where it waits and is cancelled, and then dispatches the heads that fit.
    pub fn strike<R: Wait>(&mut self, rt: &R, gate: &Gate<Global>, request: u32)
        requires gate { gate.now ≡ K.gate }
        requires is_request { request < length K.gate.shape.widths }
    {
        if self.book.strike(gate, request) {
            self.book.dispatch(rt, gate);
        }
    }

    /// The book.
    pub fn into_book(self) -> Book<Global>
        ensures { desk_gate result.desk ≡ K.gate }
    {
        let Locked { book, of: _ } = self;
        book
    }
}

/// What the threads of one round share.
#[derive(Drop)]
pub struct Round<K: Mark> {
    /// The round's number.
    pub number: u32,
    /// Where its threads begin together.
    pub start: Start,
    /// How many they are.
    pub threads: u64,
    /// The book.
    pub book: Mutex<Locked<K>>,
}

impl<K: Mark> Round<K> {
    /// A round of this many threads.
    pub fn new(number: u32, threads: u64, book: Book<Global>) -> Round<K>
        requires { desk_gate book.desk ≡ K.gate }
    {
        Round {
            number,
            start: Start::new(),
            threads,
            book: Mutex::new(Locked::new(book)),
        }
    }

    /// The book, when the round is over.
    pub fn into_book(self) -> Book<Global>
        ensures { desk_gate result.desk ≡ K.gate }
    {
        let Round {
            number: _,
            start: _,
            threads: _,
            book,
        } = self;
        book.into_inner().into_book()
    }

    /// Runs the request from its arrival to its end, in a bounded number of turns.
    pub fn serve<R: Wait>(&self, rt: &R, gate: &Gate<Global>, request: &mut Request<K>)
        requires { gate.now ≡ K.gate }
    {
        for _turn in 0..MOST_TURNS {
            match request.try_take(gate) {
                Tried::Raced => thread::yield_now(),
                Tried::Again | Tried::Over(_, false) => return,
                Tried::Over(_, true) => {
                    self.book.lock(rt).dispatch(rt, gate);
                    return;
                }
                Tried::Running => {
                    self.work(rt, gate, request);
                    return;
                }
                Tried::NoSeats => {
                    self.wait(rt, gate, request);
                    return;
                }
            }
        }
    }

    // The request gets in line, and is decided, and works if it is to execute.
    fn wait<R: Wait>(&self, rt: &R, gate: &Gate<Global>, request: &mut Request<K>)
        requires { gate.now ≡ K.gate }
    {
        request.ask(gate);
        self.book.lock(rt).hand(rt, gate, request);
        for _turn in 0..MOST_TURNS {
            match request.poll(gate) {
                None => thread::yield_now(),
                Some(Decision::Execute) => {
                    self.work(rt, gate, request);
                    return;
                }
                Some(Decision::Cancelled) => {
                    self.book.lock(rt).strike(rt, gate, request.number());
                    return;
                }
                Some(_) => return,
            }
        }
    }

    // The request works, and gives its seats back.
    fn work<R: Wait>(&self, rt: &R, gate: &Gate<Global>, request: &mut Request<K>)
        requires { gate.now ≡ K.gate }
    {
        pass_time(turns(self.number, request.number() as usize));
        if request.finish(gate) == Some(true) {
            self.book.lock(rt).dispatch(rt, gate);
        }
    }
}
