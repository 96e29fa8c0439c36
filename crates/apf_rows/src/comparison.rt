//! What two levels say of the same requests, side by side.

ghost use Rattle.std.specs.Prelude.{◌≡◌, IfOk, OnOk, length, map, slice_get};
ghost use Rattle.std.specs.List.{flat_map, range_with_len};
ghost use Rattle.std.specs.List.Sorted.{IsPermutation, IsSortedBy};
ghost use Rattle.std.specs.Io.KnownBytes.{Appends};
ghost use Rattle.apf_rows.specs.Comparisons.{IsOrder, all_line, comes_before, comparison_header, comparison_text, figures_text, longest as the_longest, lost_text, numbers_text, others_line, pair_line, pair_text, percentiles_text, place_of as the_place_of, requests_text};

use crate::account::Figures;
use crate::table::{Line, Table, write_percentile};
use apf_flows::{write_hash, write_names};
use std::alloc::{AllocError, Global};
use std::io;
use std::io::Write;

/// Where a flow stands among those that are compared.
#[derive(Clone, Copy, Debug, PartialEq, Eq)]
pub struct Place {
    /// The greatest number less how much the flow's longest wait changes, in microseconds.
    pub likeness: u64,
    /// The number of the flow.
    pub flow: usize,
}

// The longest wait of a flow, if it is there.
fn longest(lines: &[Line], flow: usize) -> u64
    ensures { result ≡ the_longest (slice_get lines.now flow) }
{
    match lines.get(flow) {
        Some(line) => line.figures.sums.longest,
        None => 0,
    }
}

// The place of a flow.
fn place_of(lines: &[Line], others: &[Line], flow: usize) -> Place
    ensures { result ≡ the_place_of lines.now others.now flow }
{
    let one = longest(lines, flow);
    let other = longest(others, flow);
    Place {
        likeness: u64::MAX - one.abs_diff(other),
        flow,
    }
}

// The places of all flows, in the order of the flows.
fn places(alloc: Global, lines: &[Line], others: &[Line]) -> Result<Vec<Place>, AllocError>
    ensures { IfOk result (λ all. all.items ≡ map (the_place_of lines.now others.now) (range_with_len 0 (length lines.now))) }
{
    let mut all = Vec::with_capacity(alloc, lines.len())?;
    for flow in 0..lines.len() {
        all.push(place_of(lines, others, flow))?;
    }
    Ok(all)
}

// Puts those first that have the least likeness, and those of one likeness in the order of the flows.
fn put_in_order(places: &mut Vec<Place>)
    ensures same { IsPermutation places.old.items places.new.items }
    ensures in_order { IsSortedBy comes_before places.new.items }
{
    places.sort_unstable_by_key(|place| (place.likeness, place.flow));
}

/// The order in which the flows of two tables of the same requests are told: those first whose longest wait changes most.
///
/// # Errors
///
/// `AllocError` if memory was refused.
pub fn order_of(alloc: Global, one: &Table, other: &Table) -> Result<Vec<Place>, AllocError>
    ensures { IfOk result (λ order. IsOrder one.now.lines.items other.now.lines.items order.items) }
{
    let mut order = places(alloc, one.lines.as_slice(), other.lines.as_slice())?;
    put_in_order(&mut order);
    Ok(order)
}

// Writes how many requests there are.
#[tactic(auto, unfolding(crate::specs::Comparisons::requests_text))]
fn write_requests<W: Write>(out: &mut W, one: &Figures) -> io::Result<()>
    ensures { OnOk result (Appends (W.contents out.old) (W.contents out.new) (requests_text one.now)) }
{
    let requests = one.sums.requests;
    write!(out, " {requests}")
}

// Writes a percentile of both.
#[tactic(auto, unfolding(crate::specs::Comparisons::percentiles_text))]
fn write_percentiles<W: Write>(
    out: &mut W,
    is_exact: bool,
    one: u64,
    is_exact_2: bool,
    other: u64,
) -> io::Result<()>
    ensures { OnOk result (Appends (W.contents out.old) (W.contents out.new) (percentiles_text is_exact one is_exact_2 other)) }
{
    write_percentile(out, " ", is_exact, one)?;
    write_percentile(out, " ", is_exact_2, other)
}

// Writes a number of both.
#[tactic(auto, unfolding(crate::specs::Comparisons::numbers_text))]
fn write_numbers<W: Write>(out: &mut W, one: u64, other: u64) -> io::Result<()>
    ensures { OnOk result (Appends (W.contents out.old) (W.contents out.new) (numbers_text one other)) }
{
    write!(out, " {one} {other}")
}

// Writes the longest waits of both, who was turned away, and who gave up.
#[tactic(auto, unfolding(crate::specs::Comparisons::lost_text))]
fn write_lost<W: Write>(out: &mut W, one: &Figures, other: &Figures) -> io::Result<()>
    ensures { OnOk result (Appends (W.contents out.old) (W.contents out.new) (lost_text one.now other.now)) }
{
    write_numbers(out, one.sums.longest, other.sums.longest)?;
    write_numbers(out, one.sums.rejected, other.sums.rejected)?;
    write_numbers(out, one.sums.cancelled, other.sums.cancelled)
}

// Writes the figures of both.
#[tactic(auto, unfolding(crate::specs::Comparisons::figures_text))]
fn write_figures<W: Write>(out: &mut W, one: &Figures, other: &Figures) -> io::Result<()>
    ensures { OnOk result (Appends (W.contents out.old) (W.contents out.new) (figures_text one.now other.now)) }
{
    write_requests(out, one)?;
    write_percentiles(out, one.is_exact, one.median, other.is_exact, other.median)?;
    write_percentiles(out, one.is_exact, one.high, other.is_exact, other.high)?;
    write_lost(out, one, other)
}

// Writes the line of a flow of which the two have these lines.
#[tactic(auto, unfolding(crate::specs::Comparisons::pair_line))]
fn write_pair<W: Write>(out: &mut W, line: &Line, other: &Line) -> io::Result<()>
    ensures { OnOk result (Appends (W.contents out.old) (W.contents out.new) (pair_line line.now other.now)) }
{
    write_hash(out, line.hash)?;
    write_figures(out, &line.figures, &other.figures)?;
    write_names(out, &line.names)?;
    out.write_all(b"\n")
}

// Writes the line of the flow of a place, if both have it.
fn write_place<W: Write>(
    out: &mut W,
    lines: &[Line],
    others: &[Line],
    place: &Place,
) -> io::Result<()>
    ensures { OnOk result (Appends (W.contents out.old) (W.contents out.new) (pair_text lines.now others.now place.now)) }
{
    let Some(line) = lines.get(place.flow) else {
        return Ok(());
    };
    let Some(other) = others.get(place.flow) else {
        return Ok(());
    };
    write_pair(out, line, other)
}

// Writes the lines of the flows.
fn write_places<W: Write>(
    out: &mut W,
    lines: &[Line],
    others: &[Line],
    places: &[Place],
) -> io::Result<()>
    ensures { OnOk result (Appends (W.contents out.old) (W.contents out.new) (flat_map (pair_text lines.now others.now) places.now)) }
{
    for place in places {
        write_place(out, lines, others, place)?;
    }
    Ok(())
}

// Writes the line of the flows that have no line of their own, if there are any.
#[tactic(auto, unfolding(crate::specs::Comparisons::others_line))]
fn write_others<W: Write>(out: &mut W, one: &Figures, other: &Figures) -> io::Result<()>
    ensures { OnOk result (Appends (W.contents out.old) (W.contents out.new) (others_line one.now other.now)) }
{
    if one.sums.requests == 0 {
        return Ok(());
    }
    out.write_all(b"others")?;
    write_figures(out, one, other)?;
    out.write_all(b"\n")
}

// Writes the line of all requests.
#[tactic(auto, unfolding(crate::specs::Comparisons::all_line))]
fn write_all_line<W: Write>(out: &mut W, one: &Figures, other: &Figures) -> io::Result<()>
    ensures { OnOk result (Appends (W.contents out.old) (W.contents out.new) (all_line one.now other.now)) }
{
    out.write_all(b"whole")?;
    write_figures(out, one, other)?;
    out.write_all(b"\n")
}

// Writes the names of the columns.
#[tactic(auto, unfolding(crate::specs::Comparisons::comparison_header))]
fn write_header<W: Write>(out: &mut W) -> io::Result<()>
    ensures { OnOk result (Appends (W.contents out.old) (W.contents out.new) comparison_header) }
{
    out.write_all(
        b"flow requests median median-2 p99 p99-2 longest longest-2 rejected rejected-2 cancelled cancelled-2 schema distinguisher\n",
    )
}

/// Writes a line of names, a line for each flow in this order, and the line of all requests. Each number but the first stands
/// twice, of the one table and of the other. Both are of the same requests.
///
/// # Errors
///
/// The writer's. Then nothing is known of how much was written.
#[tactic(auto, unfolding(crate::specs::Comparisons::comparison_text))]
pub fn write_comparison<W: Write>(
    out: &mut W,
    one: &Table,
    other: &Table,
    order: &[Place],
) -> io::Result<()>
    ensures { OnOk result (Appends (W.contents out.old) (W.contents out.new) (comparison_text one.now other.now order.now)) }
{
    write_header(out)?;
    write_places(out, one.lines.as_slice(), other.lines.as_slice(), order)?;
    write_others(out, &one.others, &other.others)?;
    write_all_line(out, &one.all, &other.all)
}
