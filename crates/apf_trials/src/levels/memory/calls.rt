//! The calls of the level, one after another.

ghost use Rattle.std.specs.Prelude.{◌≡◌, length};

use crate::levels::answers::Answer;
use apf_level::{Level, Naming, Owes};
use apf_model::Event;
use apf_session::Session;
use std::sync::Wait;

/// How many calls are made.
pub const CALLS: usize = 19;

// Copies the log into room for four events.
fn copied<K: Naming, R: Wait>(rt: &R, session: &Session<K>) -> Answer {
    let mut into = [Event::Full(9, 9); 4];
    let count = session.level.lock(rt).copy_events(0, &mut into);
    Answer::Copied(count, into)
}

// Dispatches what is owed. The lock is given back at the end.
fn dispatched<K: Naming, R: Wait>(rt: &R, level: &Level<K>, owes: Owes<K>) -> Answer {
    match owes.left() {
        Some(owed) => Answer::Dispatched(owed.dispatch(rt, &mut level.lock(rt))),
        None => Answer::Dispatched(0),
    }
}

/// Makes the calls on a level whose four requests did not arrive yet, and tells what they answered.
pub fn make<K: Naming, R: Wait>(rt: &R, session: &mut Session<K>) -> [Answer; CALLS]
    requires requests { length K.level.gate.shape.widths ≡ 4 }
    requires one { K.level.gate.shape.stations ≡ 1 }
{
    let (tried, owes) = session.requests[0].try_admit(&session.level);
    session.level.dispatch_if_owed(rt, owes);
    let begun = [session.begin(rt, 1), session.begin(rt, 2)];
    let polled = session.poll(rt, 1);
    let (cancelled, owed) = session.operators[0].cancel(&session.level, 1);
    let waits = session.look();
    let struck = session.level.strike_if_owed(rt, owed);
    let left = session.look();
    let numbers = session.stats(rt);
    let copied = copied(rt, session);
    let (released, owes) = session.requests[0].release(&session.level);
    let dispatched = dispatched(rt, &session.level, owes);
    [
        tried.into(),
        begun[0].into(),
        begun[1].into(),
        polled.into(),
        Answer::Over(cancelled),
        Answer::Word(waits),
        Answer::Struck(struck),
        Answer::Word(left),
        Answer::Numbers(numbers),
        copied,
        released.into(),
        dispatched,
        Answer::Numbers(session.stats(rt)),
        session.poll(rt, 1).into(),
        session.poll(rt, 2).into(),
        session.finish(rt, 2).into(),
        session.requests[3].admit(rt, &session.level).into(),
        session.finish(rt, 3).into(),
        Answer::Closed(session.close()),
    ]
}
