//! What the commands that change something do to a level, and how that is counted.

ghost use Rattle.std.specs.Prelude.{◌≡◌, ◌+◌, ◌^◌, ◌<◌, ◌≤◌, length, slice_set};
ghost use Rattle.apf_words.specs.Limits.{max_limit};
ghost use Rattle.apf_local.specs.declared.answer.Answer.TheVariants.{Released};
ghost use Rattle.apf_local.specs.Levels.{SameLocal, IsFinish};
ghost use Rattle.apf_protocol.specs.Objects.{IsArrivalInRange};
ghost use Rattle.apf_service.specs.Tallies.{IsTallied, decided_in, after_arrival as after_answer, after_finish as after_finished};
ghost use Rattle.apf_charges.specs.Charging.{cost_for};
ghost use Rattle.apf_service.specs.Kept.{state_of, asked_at};
ghost use Rattle.apf_service.specs.Turns.{ArrivesAt, TriesAt, FinishesAt, SettlesBy, charges_after, queues_after, queues_spent, SpendsAt, CancelsAt, LimitsTo, Closes};

use crate::queues::recharge;
use crate::replies::{Refusal, of_arrival, of_attempt, of_cancel, of_close, of_finish, of_spent};
use crate::state::{Asked, ServiceState};
use crate::tally::Tally;
use apf_line::seat_time;
use apf_local::{Answer, Ask, Charge, LocalLevel};
use apf_protocol::{Answer as Told, Arrival, Given};

// Counts an arrival or an attempt that was answered so.
fn after_arrival(tally: Tally, width: u32, answer: Answer) -> Tally
    requires few { decided_in tally.counts < 2 ^ 63 }
    requires running { tally.running < 2 ^ 31 }
    requires waiting { tally.waiting < 2 ^ 31 }
    requires seats { tally.seats + width < 2 ^ 32 }
    ensures { result ≡ after_answer width answer tally }
{
    match answer {
        Answer::Run => tally.start(width),
        Answer::Waits => tally.queue(),
        Answer::Over(decision) => tally.end(decision),
        Answer::Busy | Answer::Released | Answer::Spent | Answer::Wrong => tally,
    }
}

// Counts that a request of this width was to give its seats back.
fn after_finish(tally: Tally, width: u32, answer: Answer) -> Tally
    requires room { answer ≡ Released → (1 ≤ tally.running) × (width ≤ tally.seats) }
    ensures { result ≡ after_finished width answer tally }
{
    match answer {
        Answer::Released => tally.finish(width),
        _ => tally,
    }
}

// What an arrival asks: its flow, and its cost.
fn asked_by(notes: &ServiceState, arrival: Arrival) -> Asked
    requires range { IsArrivalInRange arrival }
    ensures asks { result ≡ record { flow = arrival.ask.hash; cost = cost_for notes.now.charges arrival.ask.hash arrival.ask.width arrival.cost } }
    ensures some { 1 ≤ result.cost }
{
    let flow = arrival.ask.hash;
    let cost = notes.charges.cost_of(flow, arrival.ask.width, arrival.cost);
    Asked { flow, cost }
}

// The newest request of the slot asked this.
fn note_asked(all: &mut [Asked], slot: u32, asked: Asked)
    ensures { all.new ≡ slice_set all.old slot asked }
{
    if (slot as usize) < all.len() {
        all[slot as usize] = asked;
    }
}

// What an arrival asks, with its width, as the level is asked.
fn ask_for(arrival: Arrival, asked: Asked) -> Ask
    ensures { result ≡ record { width = arrival.ask.width; hash = arrival.ask.hash; cost = asked.cost } }
{
    Ask {
        width: arrival.ask.width,
        hash: arrival.ask.hash,
        cost: asked.cost,
    }
}

/// The next request of the slot arrives.
pub fn arrive(
    level: &mut LocalLevel,
    notes: &mut ServiceState,
    slot: u32,
    arrival: Arrival,
) -> Result<Told, Refusal>
    requires tallied { IsTallied level.old notes.old.tally }
    requires is_slot { slot < length level.old.places }
    requires range { IsArrivalInRange arrival }
    ensures turns { ArrivesAt slot arrival (state_of level.old notes.old) result (state_of level.new notes.new) }
    ensures tallied { IsTallied level.new notes.new.tally }
    ensures count { length level.new.places ≡ length level.old.places }
{
    level.has_a_history();
    let asked = asked_by(notes, arrival);
    // its number says how many times the slot was given, which is less than 2^46
    let _request = level.ticket(slot as usize);
    let (answer, event) = level.arrive(slot as usize, ask_for(arrival, asked));
    notes.tally = after_arrival(notes.tally, arrival.ask.width, answer);
    note_asked(&mut notes.asked, slot, asked);
    of_arrival(slot, answer, event)
}

/// The next request of the slot tries.
pub fn attempt(
    level: &mut LocalLevel,
    notes: &mut ServiceState,
    slot: u32,
    arrival: Arrival,
) -> Result<Told, Refusal>
    requires tallied { IsTallied level.old notes.old.tally }
    requires is_slot { slot < length level.old.places }
    requires range { IsArrivalInRange arrival }
    ensures turns { TriesAt slot arrival (state_of level.old notes.old) result (state_of level.new notes.new) }
    ensures tallied { IsTallied level.new notes.new.tally }
    ensures count { length level.new.places ≡ length level.old.places }
{
    let asked = asked_by(notes, arrival);
    // as above
    let _request = level.ticket(slot as usize);
    let answer = level.try_arrive(slot as usize, ask_for(arrival, asked));
    notes.tally = after_arrival(notes.tally, arrival.ask.width, answer);
    note_asked(&mut notes.asked, slot, asked);
    of_attempt(slot, answer)
}

// What is learned where the request of the slot answered so and is said to have run so long.
fn learn(notes: &mut ServiceState, slot: u32, ran: Option<u64>, answer: Answer)
    ensures charges { notes.new.charges ≡ charges_after answer ran (asked_at notes.old.asked.items slot).flow notes.old.charges }
    ensures same { (notes.new.tally ≡ notes.old.tally) × (notes.new.queues.items ≡ notes.old.queues.items) × (notes.new.seen ≡ notes.old.seen) × (notes.new.asked.items ≡ notes.old.asked.items) }
{
    let Answer::Released = answer else {
        return;
    };
    let Some(micros) = ran else {
        return;
    };
    let flow = match notes.asked.get(slot as usize) {
        Some(asked) => asked.flow,
        None => 0,
    };
    notes.charges.learn(flow, micros);
}

// What each queue was given, where a request of this width answered so, for which a queue was charged this, and is said to have run
// so long.
fn settle(
    queues: &mut [Given],
    width: u32,
    charge: Option<Charge>,
    ran: Option<u64>,
    answer: Answer,
)
    ensures { queues.new ≡ queues_after answer ran width charge queues.old }
{
    let Answer::Released = answer else {
        return;
    };
    let Some(micros) = ran else {
        return;
    };
    let Some(charge) = charge else {
        return;
    };
    recharge(queues, charge, seat_time(width, micros));
}

// The request of the slot gives its seats back, if it executes. Where it is said how long it ran, what it took is settled before.
fn release(level: &mut LocalLevel, slot: u32, ran: Option<u64>) -> Answer
    requires { slot < length level.old.places }
    ensures same { SameLocal level.old level.new }
    ensures finishes { IsFinish slot level.old result level.new }
    ensures settles { SettlesBy slot ran result level.old level.new }
{
    match ran {
        Some(micros) => level.finish_measured(slot as usize, micros).0,
        None => level.finish(slot as usize),
    }
}

/// The request of the slot gives its seats back, if it executes. Where it is said how long it ran, in microseconds, what it took is
/// settled before, and its flow learns that.
pub fn finish(
    level: &mut LocalLevel,
    notes: &mut ServiceState,
    slot: u32,
    ran: Option<u64>,
) -> Result<Told, Refusal>
    requires tallied { IsTallied level.old notes.old.tally }
    requires is_slot { slot < length level.old.places }
    ensures turns { FinishesAt slot ran (state_of level.old notes.old) result (state_of level.new notes.new) }
    ensures tallied { IsTallied level.new notes.new.tally }
    ensures count { length level.new.places ≡ length level.old.places }
{
    let width = level.ticket(slot as usize).width();
    let charge = level.charge(slot as usize);
    let answer = release(level, slot, ran);
    notes.tally = after_finish(notes.tally, width, answer);
    settle(notes.queues.as_mut_slice(), width, charge, ran, answer);
    learn(notes, slot, ran, answer);
    of_finish(slot, answer)
}

// What each queue was given, where a request that executes, or does not, took this so far, for which a queue was charged this.
fn spend_of(queues: &mut [Given], executes: bool, charge: Option<Charge>, took: u64)
    ensures { queues.new ≡ queues_spent executes took charge queues.old }
{
    if !executes {
        return;
    }
    let Some(charge) = charge else {
        return;
    };
    if charge.amount < took {
        recharge(queues, charge, took);
    }
}

/// The request of the slot has run this many microseconds so far. If it executes, and was charged less than that, its queue is
/// charged it now.
pub fn spend(
    level: &mut LocalLevel,
    notes: &mut ServiceState,
    slot: u32,
    micros: u64,
) -> Result<Told, Refusal>
    requires tallied { IsTallied level.old notes.old.tally }
    requires is_slot { slot < length level.old.places }
    ensures turns { SpendsAt slot micros (state_of level.old notes.old) result (state_of level.new notes.new) }
    ensures tallied { IsTallied level.new notes.new.tally }
    ensures count { length level.new.places ≡ length level.old.places }
{
    let took = seat_time(level.ticket(slot as usize).width(), micros);
    let charge = level.charge(slot as usize);
    let executes = level.spend(slot as usize, micros);
    spend_of(notes.queues.as_mut_slice(), executes, charge, took);
    of_spent(slot, executes)
}

/// The request of the slot is cancelled, if it is undecided.
pub fn cancel(level: &mut LocalLevel, notes: &ServiceState, slot: u32) -> Result<Told, Refusal>
    requires tallied { IsTallied level.old notes.now.tally }
    requires is_slot { slot < length level.old.places }
    ensures turns { CancelsAt slot (state_of level.old notes.now) result (state_of level.new notes.now) }
    ensures tallied { IsTallied level.new notes.now.tally }
    ensures count { length level.new.places ≡ length level.old.places }
{
    let request = level.ticket(slot as usize);
    of_cancel(slot, level.cancel(request))
}

/// The level is closed.
pub fn close(level: &mut LocalLevel, notes: &ServiceState) -> Result<Told, Refusal>
    requires tallied { IsTallied level.old notes.now.tally }
    ensures turns { Closes (state_of level.old notes.now) result (state_of level.new notes.now) }
    ensures tallied { IsTallied level.new notes.now.tally }
    ensures count { length level.new.places ≡ length level.old.places }
{
    of_close(level.close())
}

/// The limit is set.
pub fn set_limit(level: &mut LocalLevel, notes: &ServiceState, limit: u32) -> Result<Told, Refusal>
    requires tallied { IsTallied level.old notes.now.tally }
    requires some { 1 ≤ limit }
    requires small { limit ≤ max_limit }
    ensures turns { LimitsTo limit (state_of level.old notes.now) result (state_of level.new notes.now) }
    ensures tallied { IsTallied level.new notes.now.tally }
    ensures count { length level.new.places ≡ length level.old.places }
{
    let was = level.set_limit(limit);
    Ok(Told::Limits(limit, was))
}
