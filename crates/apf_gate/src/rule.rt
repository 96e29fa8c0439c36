//! The table of the words, and its rule.

use crate::record::Record;
use apf_model::Response;
use atomic_table::{Seat, Table, TableRule};
use std::alloc::Allocator;
use std::collections::LinkedList;
use std::snapshot::Snapshot;

/// What a gate was opened with.
#[derive(Drop)]
pub(crate) struct Gauge<A: Allocator> {
    // whether slots are used again, and how many numbers of requests there are then
    pub(crate) lives: bool,
    pub(crate) numbers: u128,
    pub(crate) limit: u32,
    pub(crate) response: Response,
    pub(crate) widths: Vec<u32, A>,
    pub(crate) stations: u32,
}

/// Between any two steps, one schedule of the level and one record for each token explain the words.
pub(crate) struct GateRule;

impl<A: Allocator> TableRule<(), LinkedList<Record>, Snapshot<Gauge<A>>> for GateRule {
    ghost use Rattle.apf_gate.specs.Rule.{IsRuled, opening_records};
    ghost use Rattle.apf_gate.specs.Gauges.{shape_in};

    ghost holds = { λ key. IsRuled (shape_in key.value.lives key.value.numbers key.value.limit key.value.response key.value.widths.items key.value.stations) };

    ghost first = { λ key. opening_records (shape_in key.value.lives key.value.numbers key.value.limit key.value.response key.value.widths.items key.value.stations) 0 };
}

pub(crate) type Board<A> = Table<(), LinkedList<Record>, Snapshot<Gauge<A>>, GateRule, A>;

pub(crate) type Place = Seat<(), LinkedList<Record>>;
