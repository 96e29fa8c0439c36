//! How much there is of spans at a time, and the most that there ever is.

ghost use Rattle.std.specs.Prelude.{◌≡◌, ◌<◌, ◌≤◌, ◌^◌, length, vec_len, map, IfOk};
ghost use Rattle.apf_picture.specs.Changes.{beginning_of, end_of};
ghost use Rattle.apf_picture.specs.Columns.{IsMost};
ghost use Rattle.apf_picture.specs.Spans.{held, columns_of};

use crate::scale::{COLUMNS, scaled};
use crate::span::Span;
use crate::totals::{Change, Totals};
use std::alloc::{AllocError, Global};
use std::marker::Model;

/// Spans, with their beginnings and their ends by the times. To a contract it is the list of the spans.
#[derive(Drop)]
pub(crate) struct Timeline {
    spans: Vec<Span>,
    begun: Totals,
    ended: Totals,
}

impl Model for Timeline {
    ghost use Rattle.std.specs.Prelude.{◌≡◌, ◌+◌, ℕ, List};
    ghost use Rattle.apf_picture.specs.declared.span.Span.{Span};
    ghost use Rattle.apf_picture.specs.Changes.{sum_until};
    ghost use Rattle.apf_picture.specs.Spans.{held};

    ghost Value = { List Span };

    ghost view = { λ it. it.spans.items };

    ghost invariant = { λ it. (time : ℕ) → held it.spans.items time + sum_until time it.ended ≡ sum_until time it.begun };
}

// What begins, and when.
fn beginnings(alloc: Global, spans: &[Span]) -> Result<Vec<Change>, AllocError>
    ensures beginnings { IfOk result (λ changes. changes.items ≡ map beginning_of spans.now) }
    ensures count { IfOk result (λ changes. vec_len changes ≡ length spans.now) }
{
    let mut changes = Vec::new(alloc);
    for span in spans {
        changes.push(Change {
            time: span.from,
            amount: span.amount,
        })?;
    }
    Ok(changes)
}

// What ends, and when.
fn ends(alloc: Global, spans: &[Span]) -> Result<Vec<Change>, AllocError>
    ensures ends { IfOk result (λ changes. changes.items ≡ map end_of spans.now) }
    ensures count { IfOk result (λ changes. vec_len changes ≡ length spans.now) }
{
    let mut changes = Vec::new(alloc);
    for span in spans {
        changes.push(Change {
            time: span.from.max(span.to),
            amount: span.amount,
        })?;
    }
    Ok(changes)
}

impl Timeline {
    /// Of these spans.
    pub(crate) fn of(alloc: Global, spans: Vec<Span>) -> Result<Timeline, AllocError>
        requires { vec_len spans < 2 ^ 31 }
        ensures { IfOk result (λ timeline. timeline ≡ spans.items) }
    {
        let begun = Totals::of(alloc, beginnings(alloc, spans.as_slice())?)?;
        let ended = Totals::of(alloc, ends(alloc, spans.as_slice())?)?;
        Ok(Timeline {
            spans,
            begun,
            ended,
        })
    }

    // How much there is at the time: what has begun without what has ended.
    fn at(&self, time: u64) -> u64
        ensures { result ≡ held self.now time }
    {
        self.begun.until(time) - self.ended.until(time)
    }

    /// The most that there ever is. There is more than before only at the beginning of a span.
    pub(crate) fn most(&self) -> u64
        ensures { IsMost (held self.now) result }
    {
        let mut most = 0;
        for span in &self.spans {
            most = self.at(span.from).max(most);
        }
        most
    }

    /// How much there is at the time of each column, in a run of this length.
    pub(crate) fn columns(&self, alloc: Global, end: u64) -> Result<Vec<u64>, AllocError>
        ensures { IfOk result (λ values. values.items ≡ columns_of (held self.now) end) }
    {
        let mut values = Vec::new(alloc);
        for column in 0..COLUMNS {
            values.push(self.at(scaled(column, COLUMNS, end)))?;
        }
        Ok(values)
    }
}
