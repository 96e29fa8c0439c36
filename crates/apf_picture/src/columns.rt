//! The seats in use and the lengths of the queues, at the time of each column and at most.

ghost use Rattle.std.specs.Prelude.{◌≡◌, ◌<◌, ◌≤◌, ◌*◌, ◌^◌, length, vec_len, map, reverse, All, IfOk};
ghost use Rattle.std.specs.List.{range_with_len};
ghost use Rattle.apf_picture.specs.Spans.{seat_spans as the_seat_spans, wait_spans as the_wait_spans};
ghost use Rattle.apf_picture.specs.Columns.{seats_at, tops_of, lengths_of, tops_in, row_in, IsArea, IsStrip, queue_in, place_in, all_queues, AreUsedQueues, IsMost, most_waiting as the_most_waiting};
ghost use Rattle.apf_picture.specs.Ranks.{own_rows};

use crate::life::Life;
use crate::rank::OWN_ROWS;
use crate::span::Span;
use crate::timeline::Timeline;
use std::alloc::{AllocError, Global};

/// The seats in use by a row and those below it, at the time of each column.
#[derive(Drop)]
pub(crate) struct Area {
    pub(crate) row: u32,
    pub(crate) tops: Vec<u64>,
}

/// The length of a queue, at the time of each column.
#[derive(Drop)]
pub(crate) struct Strip {
    /// Its place among the strips.
    pub(crate) place: u32,
    pub(crate) queue: u32,
    pub(crate) lengths: Vec<u64>,
    /// The most that ever wait in the queue.
    pub(crate) most: u64,
}

// The seats that the requests of the row and of those below it have, each for its time.
fn seat_spans(alloc: Global, lives: &[Life], row: u32) -> Result<Vec<Span>, AllocError>
    ensures spans { IfOk result (λ spans. spans.items ≡ the_seat_spans lives.now row) }
    ensures few { IfOk result (λ spans. vec_len spans ≤ length lives.now) }
{
    let mut spans = Vec::new(alloc);
    for life in lives {
        if life.row <= row {
            spans.push(Span {
                from: life.until,
                to: life.ends,
                amount: life.seats,
            })?;
        }
    }
    Ok(spans)
}

// The requests that stand in the queue, each for its time.
fn wait_spans(alloc: Global, lives: &[Life], queue: u32) -> Result<Vec<Span>, AllocError>
    ensures spans { IfOk result (λ spans. spans.items ≡ the_wait_spans lives.now queue) }
    ensures few { IfOk result (λ spans. vec_len spans ≤ length lives.now) }
{
    let mut spans = Vec::new(alloc);
    for life in lives {
        if life.queue == Some(queue) {
            spans.push(Span {
                from: life.arrives,
                to: life.until,
                amount: 1,
            })?;
        }
    }
    Ok(spans)
}

#[tactic(auto, using(crate::proofs::Peaks::columns_of_seats))]
fn row_area(alloc: Global, lives: &[Life], row: u32, end: u64) -> Result<Area, AllocError>
    requires { length lives.now < 2 ^ 31 }
    ensures tops { IfOk result (λ area. tops_in area ≡ tops_of lives.now end row) }
    ensures row { IfOk result (λ area. row_in area ≡ row) }
{
    let spans = seat_spans(alloc, lives, row)?;
    let tops = Timeline::of(alloc, spans)?.columns(alloc, end)?;
    Ok(Area { row, tops })
}

#[tactic(auto, using(crate::proofs::Peaks::columns_of_waits))]
fn queue_strip(
    alloc: Global,
    lives: &[Life],
    place: u32,
    queue: u32,
    end: u64,
) -> Result<Strip, AllocError>
    requires { length lives.now < 2 ^ 31 }
    ensures strip { IfOk result (IsStrip lives.now end) }
    ensures queue { IfOk result (λ strip. queue_in strip ≡ queue) }
    ensures place { IfOk result (λ strip. place_in strip ≡ place) }
{
    let spans = wait_spans(alloc, lives, queue)?;
    let timeline = Timeline::of(alloc, spans)?;
    let lengths = timeline.columns(alloc, end)?;
    Ok(Strip {
        place,
        queue,
        lengths,
        most: timeline.most(),
    })
}

/// The most seats that are ever in use.
pub(crate) fn most_seats(alloc: Global, lives: &[Life]) -> Result<u64, AllocError>
    requires { length lives.now < 2 ^ 31 }
    ensures { IfOk result (IsMost (seats_at lives.now own_rows)) }
{
    let spans = seat_spans(alloc, lives, OWN_ROWS)?;
    Ok(Timeline::of(alloc, spans)?.most())
}

/// The areas of this many rows, from the last to the first.
pub(crate) fn areas(
    alloc: Global,
    lives: &[Life],
    rows: u32,
    end: u64,
) -> Result<Vec<Area>, AllocError>
    requires { length lives.now < 2 ^ 31 }
    ensures areas { IfOk result (λ areas. All (IsArea lives.now end) areas.items) }
    ensures rows { IfOk result (λ areas. map row_in areas.items ≡ reverse (range_with_len 0 rows)) }
{
    let mut areas = Vec::new(alloc);
    for place in 0..rows {
        areas.push(row_area(alloc, lives, rows - 1 - place, end)?)?;
    }
    Ok(areas)
}

// The queues in which requests waited, in the order of the requests.
fn all_queues(alloc: Global, lives: &[Life]) -> Result<Vec<u32>, AllocError>
    ensures queues { IfOk result (λ queues. queues.items ≡ all_queues lives.now) }
    ensures few { IfOk result (λ queues. vec_len queues ≤ length lives.now) }
{
    let mut queues = Vec::new(alloc);
    for life in lives {
        if let Some(queue) = life.queue {
            queues.push(queue)?;
        }
    }
    Ok(queues)
}

// Each of them once, in the order of their numbers.
fn used_queues(alloc: Global, lives: &[Life]) -> Result<Vec<u32>, AllocError>
    requires { length lives.now < 2 ^ 31 }
    ensures queues { IfOk result (λ queues. AreUsedQueues lives.now queues.items) }
    ensures few { IfOk result (λ queues. vec_len queues < 2 ^ 31) }
{
    let mut queues = all_queues(alloc, lives)?;
    queues.sort()?;
    queues.dedup();
    Ok(queues)
}

/// The strips of the queues in which requests waited, in the order of their numbers.
#[tactic(auto, using(crate::proofs::Ranges::strips_more))]
pub(crate) fn strips(alloc: Global, lives: &[Life], end: u64) -> Result<Vec<Strip>, AllocError>
    requires { length lives.now < 2 ^ 31 }
    ensures queues { IfOk result (λ strips. AreUsedQueues lives.now (map queue_in strips.items)) }
    ensures places { IfOk result (λ strips. map place_in strips.items ≡ range_with_len 0 (vec_len strips)) }
    ensures few { IfOk result (λ strips. vec_len strips < 2 ^ 31) }
    ensures strips { IfOk result (λ strips. All (IsStrip lives.now end) strips.items) }
{
    let queues = used_queues(alloc, lives)?;
    let mut strips = Vec::new(alloc);
    for (place, queue) in queues.iter().enumerate() {
        strips.push(queue_strip(alloc, lives, place as u32, *queue, end)?)?;
    }
    Ok(strips)
}

/// The most requests that ever wait in one queue.
pub(crate) fn most_waiting(strips: &[Strip]) -> u64
    ensures { result ≡ the_most_waiting strips.now }
{
    let mut most = 0;
    for strip in strips {
        most = strip.most.max(most);
    }
    most
}
