//! What is drawn of a level over time: its seats in use, who waits, who was rejected, and its limit.

ghost use Rattle.std.specs.Prelude.{◌≡◌, ◌++◌, ◌∷◌, [], ℕ, List, IfOk, OnOk};
ghost use Rattle.apf_stream.specs.declared.deed.NewLimit.{NewLimit as NewLimitOf};
ghost use Rattle.apf_stream.specs.declared.ended.Ended.{Ended as EndedOf};
ghost use Rattle.apf_strips.specs.Spans.{AreBins, Span};
ghost use Rattle.apf_cluster.specs.Drawn as spec;

use crate::fault::ClusterFault;
use apf_stream::{Ended, NewLimit};
use apf_strips::{MOST_TIME, Series, Strip};
use apf_words::Decision;
use std::alloc::Global;

/// What is drawn of a level.
#[derive(Drop)]
pub(crate) struct Drawn {
    /// The limit that is in force, and from when on.
    pub(crate) limit: u32,
    pub(crate) since: u64,
    /// The strip of what was told, if one is drawn.
    pub(crate) strip: Option<Strip>,
}

// So much was in force from one time until another.
fn add_span(series: &mut Series, amount: u64, from: u64, to: u64) -> Result<(), ClusterFault>
    ensures { OnOk result ((before : List Span) → AreBins before series.old → AreBins (before ++ spec.span amount from to ∷ []) series.new) }
{
    if from > to || to > MOST_TIME {
        return Err(ClusterFault::Untimely);
    }
    match series.add(amount, from, to) {
        Ok(()) => Ok(()),
        Err(_) => Err(ClusterFault::TooMany),
    }
}

// The seats of a request that was told.
fn add_seats(series: &mut Series, ended: &Ended) -> Result<(), ClusterFault>
    ensures { OnOk result ((before : List Span) → AreBins before series.old → AreBins (before ++ spec.seats_of ended.now) series.new) }
{
    match ended.since {
        Some(since) => add_span(
            series,
            u64::from(ended.hold.asked.width),
            since,
            ended.over_at,
        ),
        None => Ok(()),
    }
}

// How long it waited.
fn add_wait(series: &mut Series, ended: &Ended) -> Result<(), ClusterFault>
    ensures { OnOk result ((before : List Span) → AreBins before series.old → AreBins (before ++ spec.waits_of ended.now) series.new) }
{
    let until = match ended.since {
        Some(since) => since,
        None => ended.over_at,
    };
    add_span(series, 1, ended.hold.asked.times.arrives_at, until)
}

// That it was rejected.
fn add_rejection(series: &mut Series, ended: &Ended) -> Result<(), ClusterFault>
    ensures { OnOk result ((before : List Span) → AreBins before series.old → AreBins (before ++ spec.rejected_of ended.now) series.new) }
{
    match ended.decision {
        Decision::QueueFull | Decision::ConcurrencyLimit | Decision::Closed => {
            let Some(behind) = ended.over_at.checked_add(1) else {
                return Err(ClusterFault::Untimely);
            };
            add_span(series, 1, ended.over_at, behind)
        }
        Decision::Execute | Decision::Cancelled => Ok(()),
    }
}

// A request was told.
fn add(strip: &mut Strip, ended: &Ended) -> Result<(), ClusterFault>
    ensures told { OnOk result ((told : List EndedOf) → spec.AreToldIn told strip.old → spec.AreToldIn (told ++ ended.now ∷ []) strip.new) }
    ensures limit { strip.new.limit ≡ strip.old.limit }
{
    add_seats(&mut strip.seats, ended)?;
    add_wait(&mut strip.waiting, ended)?;
    add_rejection(&mut strip.rejected, ended)?;
    Ok(())
}

// These requests were told.
fn add_all(strip: &mut Strip, ends: &[Ended]) -> Result<(), ClusterFault>
    ensures told { OnOk result ((told : List EndedOf) → spec.AreToldIn told strip.old → spec.AreToldIn (told ++ ends.now) strip.new) }
    ensures limit { strip.new.limit ≡ strip.old.limit }
{
    for ended in ends {
        add(strip, ended)?;
    }
    Ok(())
}

impl Drawn {
    /// Nobody came, and this limit is in force. A strip is drawn if it is asked for.
    ///
    /// # Errors
    ///
    /// `NoMemory`.
    pub(crate) fn new(alloc: Global, limit: u32, draws: bool) -> Result<Drawn, ClusterFault>
        ensures nobody { IfOk result (spec.AreDrawn limit [] []) }
        ensures asked { IfOk result (λ drawn. spec.HasStrip draws drawn.strip) }
    {
        let strip = if draws {
            Some(Strip::new(alloc)?)
        } else {
            None
        };
        Ok(Drawn {
            limit,
            since: 0,
            strip,
        })
    }

    /// These requests were told.
    ///
    /// # Errors
    ///
    /// `Untimely` if one is over too late, or `TooMany`.
    pub(crate) fn hear(&mut self, ends: &[Ended]) -> Result<(), ClusterFault>
        ensures draws { OnOk result (spec.DrawsTold ends.now self.old self.new) }
        ensures still { OnOk result (spec.DrawsStill self.old self.new) }
    {
        if let Some(strip) = &mut self.strip {
            add_all(strip, ends)?;
        }
        Ok(())
    }

    /// This limit is set.
    ///
    /// # Errors
    ///
    /// `Untimely` if another one was set later, or `TooMany`.
    pub(crate) fn set(&mut self, new: NewLimit) -> Result<(), ClusterFault>
        ensures draws { OnOk result (spec.DrawsLimit new self.old self.new) }
        ensures still { OnOk result (spec.DrawsStill self.old self.new) }
    {
        if let Some(strip) = &mut self.strip {
            add_span(&mut strip.limit, u64::from(self.limit), self.since, new.at)?;
        }
        self.limit = new.limit;
        self.since = new.at;
        Ok(())
    }

    /// The strip, if one is drawn, with the last limit until this time.
    ///
    /// # Errors
    ///
    /// `Untimely` if a limit was set later, or `TooMany`.
    pub(crate) fn close(self, end: u64) -> Result<Option<Strip>, ClusterFault>
        ensures strip { IfOk result (λ strip. (first : ℕ) (under : List NewLimitOf) (told : List EndedOf) → spec.AreDrawn first under told self → spec.IsStripBy end first under told strip) }
        ensures still { IfOk result (spec.StillHas self.strip) }
    {
        let Drawn {
            limit,
            since,
            strip,
        } = self;
        let Some(mut strip) = strip else {
            return Ok(None);
        };
        add_span(&mut strip.limit, u64::from(limit), since, end)?;
        Ok(Some(strip))
    }
}
