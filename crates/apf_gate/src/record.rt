//! What a token knows, changed by its own steps alone.
//!
//! No value of these types is made: they stand in the rule of the words and in contracts.

use apf_model::{Move, Response};
use apf_words::Decision;
use std::collections::LinkedList;

/// What a gate was opened with.
pub struct Shape {
    /// The limit, in seats.
    pub limit: u32,
    /// What the level does with an arrival that does not fit.
    pub response: Response,
    /// The width of each request that there may ever be, in seats.
    pub widths: LinkedList<u32>,
    /// How many requests the level has at once. Each holds a slot.
    pub slots: u32,
    /// How many Stations there are.
    pub stations: u32,
}

/// Who makes a step.
pub enum Actor {
    /// The Pass of a request.
    OfPass(u128),
    /// The Desk.
    OfDesk,
    /// A Station.
    OfStation(u32),
}

/// What a request asks for, beside its width.
pub struct Asked {
    /// The hash of its flow.
    pub hash: u64,
    /// What its dispatch is charged.
    pub cost: u32,
}

/// One counted step.
pub struct Entry {
    /// The token that made it.
    pub by: Actor,
    /// The step of the model, if it was one: a load is none.
    pub step: Option<Move>,
    /// What its request asks for, where this step began it.
    pub ask: Option<Asked>,
}

/// What a token learnt by its steps.
pub struct Knowledge {
    /// The shape of its gate.
    pub shape: Shape,
    /// Whether it saw the level closed.
    pub saw_closed: bool,
    /// The decisions that it was told, each with its request. The latest stands first.
    pub told: LinkedList<(u128, Decision)>,
    /// Every step of every token up to its own last one. The newest stands first.
    pub trace: LinkedList<Entry>,
}

/// What a Pass may do next.
pub enum State {
    /// It may take seats, ask, or write a refusal.
    Fresh,
    /// It holds seats that it took.
    Took,
    /// It asked, and what becomes of it is up to others.
    InLine,
    /// It is done.
    Over,
}

/// What a Pass knows.
pub struct PassRecord {
    /// The request's number.
    pub number: u128,
    /// What the Pass may do next.
    pub state: State,
    /// Whether it asked.
    pub asked: bool,
    /// Whether its request was handed to the Desk.
    pub handed: bool,
    /// Whether its request entered.
    pub entered: bool,
    /// Whether it heard that its request left without executing.
    pub left: bool,
    /// Whether it took seats.
    pub took: bool,
    /// Whether a load of it found no room: an open level in which nobody waits and its request does
    /// not fit.
    pub saw_no_room: bool,
    /// Whether its last step was a load that found no room.
    pub no_room: bool,
    /// The decision that it wrote.
    pub wrote: Option<Decision>,
    /// The decided requests that held the slot before, each with its decision. The latest stands first.
    pub past: LinkedList<(u128, Decision)>,
    /// What its steps found.
    pub knows: Knowledge,
}

/// What the Desk did with a request.
pub enum Service {
    /// Nothing: it was never handed the request.
    NotHanded,
    /// It was handed the request.
    Handed,
    /// It refused the request, as its queue was full.
    RefusedFull,
    /// It refused the request, as the level was closed.
    RefusedClosed,
    /// It entered the request, which waits.
    Waiting,
    /// It holds the request's seats, and the decision is still to be written.
    Held,
    /// It wrote execute.
    Settled,
    /// It entered the request, which left without executing.
    Left,
}

/// What the Desk knows.
pub struct DeskRecord {
    /// What it did with requests. The latest stands first.
    pub services: LinkedList<(u128, Service)>,
    /// The request whose seats it holds.
    pub held: Option<u128>,
    /// What its steps found.
    pub knows: Knowledge,
}

/// What a Station knows.
pub struct StationRecord {
    /// Its number.
    pub number: u32,
    /// What its steps found.
    pub knows: Knowledge,
}

/// What one token knows.
pub enum Record {
    Pass(PassRecord),
    Desk(DeskRecord),
    Station(StationRecord),
}
