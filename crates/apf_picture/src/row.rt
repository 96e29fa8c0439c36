//! The requests of one row, and their numbers.

ghost use Rattle.std.specs.Prelude.{◌≡◌, ◌<◌, ◌≤◌, ◌+◌, ◌*◌, ◌^◌, length, vec_len, min, slice_get, slice_index, All, IfOk, OnOk};
ghost use Rattle.apf_picture.specs.Labels.{called, called_first, label_at};
ghost use Rattle.apf_picture.specs.Ranks.{own_rows};
ghost use Rattle.apf_picture.specs.Rows.{AreRows, IsOneMore, count_of, wait_of, longest_of, members_of, tall_of};

use crate::label::{Label, flow_label};
use crate::life::{Fate, Life};
use crate::rank::OWN_ROWS;
use crate::scale::scaled;
use apf_traces::TraceRequest;
use std::alloc::{AllocError, Global};

/// The numbers of some requests.
#[derive(Clone, Copy)]
pub(crate) struct Numbers {
    pub(crate) requests: u32,
    pub(crate) executed: u32,
    pub(crate) rejected: u32,
    pub(crate) gave_up: u32,
    /// The longest wait of those that executed, in microseconds.
    pub(crate) longest: u64,
    /// The longest wait of those that gave up.
    pub(crate) longest_given_up: u64,
}

/// A row of the picture.
#[derive(Drop)]
pub(crate) struct Row {
    pub(crate) number: u32,
    pub(crate) label: Label,
    pub(crate) numbers: Numbers,
    /// Its requests, in the order of the trace.
    pub(crate) lives: Vec<Life>,
    /// How high its bars are together, in pixels.
    pub(crate) tall: u32,
}

// How many of the requests ended so.
fn count(lives: &[Life], fate: Fate) -> u32
    requires { length lives.now < 2 ^ 31 }
    ensures { result ≡ count_of fate lives.now }
{
    lives.iter().filter(|life| life.fate == fate).count() as u32
}

// How long a request waited, if it ended so.
fn wait(life: &Life, fate: Fate) -> u64
    ensures { result ≡ wait_of fate life.now }
{
    if life.fate == fate { life.wait } else { 0 }
}

// The longest wait of the requests that ended so, or 0 of none.
fn longest(lives: &[Life], fate: Fate) -> u64
    ensures { result ≡ longest_of fate lives.now }
{
    let mut longest = 0;
    for life in lives {
        longest = wait(life, fate).max(longest);
    }
    longest
}

impl Numbers {
    ghost use Rattle.apf_picture.specs.Rows.{numbers_of};

    /// Of these requests.
    pub(crate) fn of(lives: &[Life]) -> Numbers
        requires { length lives.now < 2 ^ 31 }
        ensures { result ≡ numbers_of lives.now }
    {
        Numbers {
            requests: lives.len() as u32,
            executed: count(lives, Fate::Executed),
            rejected: count(lives, Fate::Rejected),
            gave_up: count(lives, Fate::GaveUp),
            longest: longest(lives, Fate::Executed),
            longest_given_up: longest(lives, Fate::GaveUp),
        }
    }
}

// The requests of the row.
fn members(alloc: Global, lives: &[Life], row: u32) -> Result<Vec<Life>, AllocError>
    ensures members { IfOk result (λ members. members.items ≡ members_of lives.now row) }
    ensures few { IfOk result (λ members. vec_len members ≤ length lives.now) }
{
    let mut members = Vec::new(alloc);
    for life in lives {
        if life.row == row {
            members.push(*life)?;
        }
    }
    Ok(members)
}

// How high the bars of this many requests are together: at most 6 pixels each, and by their share of all requests.
fn tall(members: u64, requests: u64) -> u32
    requires { members < 2 ^ 31 }
    ensures { result ≡ tall_of members requests }
{
    (6 * members).min(30 + scaled(members, requests, 240)) as u32
}

impl Row {
    ghost use Rattle.apf_picture.specs.Bars.{height_of};
    ghost use Rattle.apf_picture.specs.Rows.{IsRow};

    /// How high the row is, with its label and its ticks.
    pub(crate) fn height(&self) -> u64
        ensures height { result ≡ height_of self.now }
        ensures within { result < 2 ^ 33 }
    {
        u64::from(self.tall) + 42
    }

    /// The row of this number and this label.
    pub(crate) fn of(
        alloc: Global,
        lives: &[Life],
        row: u32,
        label: Label,
    ) -> Result<Row, AllocError>
        requires { length lives.now < 2 ^ 31 }
        ensures row { IfOk result (IsRow lives.now) }
        ensures number { IfOk result (λ it. it.number ≡ row) }
        ensures label { IfOk result (λ it. it.label ≡ label) }
    {
        let members = members(alloc, lives, row)?;
        Ok(Row {
            number: row,
            label,
            numbers: Numbers::of(members.as_slice()),
            tall: tall(members.len() as u64, lives.len() as u64),
            lives: members,
        })
    }
}

// Adds the row of this number and this label.
fn push_row(
    rows: &mut Vec<Row>,
    alloc: Global,
    lives: &[Life],
    row: u32,
    label: Label,
) -> Result<(), AllocError>
    requires { length lives.now < 2 ^ 31 }
    ensures { OnOk result (IsOneMore lives.now row (called label) rows.old.items rows.new.items) }
{
    rows.push(Row::of(alloc, lives, row, label)?)?;
    Ok(())
}

// The label of a row of one flow.
fn own_label(
    alloc: Global,
    trace: &[TraceRequest],
    firsts: &[u32],
    flow: u32,
    is_shared: bool,
) -> Result<Label, AllocError>
    requires flow { flow < length firsts.now }
    requires firsts { All (λ first. first < length trace.now) firsts.now }
    ensures { IfOk result (λ label. called label ≡ called_first is_shared (slice_get trace.now (slice_index firsts.now flow))) }
{
    flow_label(alloc, &trace[firsts[flow as usize] as usize], is_shared)
}

// The rows of these flows.
fn first_rows(
    alloc: Global,
    trace: &[TraceRequest],
    firsts: &[u32],
    own: &[u32],
    is_shared: bool,
    lives: &[Life],
) -> Result<Vec<Row>, AllocError>
    requires lives { length lives.now < 2 ^ 31 }
    requires own { length own.now ≤ own_rows }
    requires each { All (λ flow. flow < length firsts.now) own.now }
    requires firsts { All (λ first. first < length trace.now) firsts.now }
    ensures { IfOk result (λ rows. AreRows lives.now (label_at trace.now firsts.now own.now is_shared) (length own.now) rows.items) }
{
    let mut rows = Vec::new(alloc);
    for (row, flow) in own.iter().enumerate() {
        let label = own_label(alloc, trace, firsts, *flow, is_shared)?;
        push_row(&mut rows, alloc, lives, row as u32, label)?;
    }
    Ok(rows)
}

/// The rows of the picture: one of each of these flows, and one of the other flows, if there are any.
pub(crate) fn rows(
    alloc: Global,
    trace: &[TraceRequest],
    firsts: &[u32],
    own: &[u32],
    is_shared: bool,
    lives: &[Life],
) -> Result<Vec<Row>, AllocError>
    requires lives { length lives.now < 2 ^ 31 }
    requires flows { length firsts.now < 2 ^ 31 }
    requires own { length own.now ≡ min (length firsts.now) own_rows }
    requires each { All (λ flow. flow < length firsts.now) own.now }
    requires firsts { All (λ first. first < length trace.now) firsts.now }
    ensures rows { IfOk result (λ rows. AreRows lives.now (label_at trace.now firsts.now own.now is_shared) (min (length firsts.now) (own_rows + 1)) rows.items) }
    ensures few { IfOk result (λ rows. vec_len rows ≤ 13) }
{
    let flows = firsts.len() as u32;
    let mut rows = first_rows(alloc, trace, firsts, own, is_shared, lives)?;
    if flows <= OWN_ROWS {
        return Ok(rows);
    }
    let label = Label::Others(flows - OWN_ROWS);
    push_row(&mut rows, alloc, lives, OWN_ROWS, label)?;
    Ok(rows)
}
