//! The rows in the order of the flows' first lines, and what they print.

ghost use Rattle.std.specs.Prelude.{◌≡◌, ◌++◌, List, IfOk, OnOk, IsPermutation};
ghost use Rattle.std.specs.List.{AllZip, flat_map};
ghost use Rattle.std.specs.List.Sorted.{IsSortedBy};
ghost use Rattle.std.specs.Io.KnownBytes.{Appends};
ghost use Rattle.apf_traces.specs.declared.request.TraceRequest.{TraceRequest as RequestOf};
ghost use Rattle.apf_stream.specs.declared.ended.Ended.{Ended as EndedOf};
ghost use Rattle.apf_rows.specs.Rows.{AreRows, HaveMet};
ghost use Rattle.apf_rows.specs.Tables.{IsLineOf, IsTable, comes_first};
ghost use Rattle.apf_rows.specs.Texts.{decided_text, flow_text, others_text, percentile_text, spent_text, table_text, used_text, waited_text, waits_text};

use crate::account::Figures;
use crate::row::Row;
use crate::sums::Sums;
use apf_flows::{write_hash, write_of_names};
use apf_traces::FlowNames;
use std::alloc::{AllocError, Global};
use std::io;
use std::io::Write;

/// What one flow's requests came to, in numbers.
#[derive(Drop)]
pub struct Line {
    /// The hash of the flow.
    pub hash: u64,
    /// The number of the flow's first line.
    pub first: u64,
    /// The names of that line.
    pub names: Option<FlowNames>,
    pub figures: Figures,
}

/// What all flows came to, in numbers.
#[derive(Drop)]
pub struct Table {
    /// A line for each flow that has a row of its own, in the order of their first lines.
    pub lines: Vec<Line>,
    /// What the requests of all other flows came to.
    pub others: Figures,
    /// What all requests came to.
    pub all: Figures,
}

impl Line {
    // Of a row.
    fn of(row: Row) -> Line
        ensures { IsLineOf row result }
    {
        let Row {
            hash,
            first,
            names,
            mut account,
        } = row;
        let figures = account.figures();
        Line {
            hash,
            first,
            names,
            figures,
        }
    }

    /// Writes the line.
    #[tactic(auto, unfolding(crate::specs::Texts::flow_text))]
    pub(crate) fn write<W: Write>(&self, out: &mut W) -> io::Result<()>
        ensures { OnOk result (Appends (W.contents out.old) (W.contents out.new) (flow_text self.now)) }
    {
        out.write_all(b"flow ")?;
        write_hash(out, self.hash)?;
        write_decided(out, &self.figures.sums)?;
        write_used(out, &self.figures)?;
        write_of_names(out, &self.names)?;
        out.write_all(b"\n")
    }
}

// The lines of these rows.
fn lines_of(alloc: Global, rows: Vec<Row>) -> Result<Vec<Line>, AllocError>
    ensures { IfOk result (λ lines. AllZip IsLineOf rows.items lines.items) }
{
    let mut lines = Vec::with_capacity(alloc, rows.len())?;
    for row in rows {
        lines.push(Line::of(row))?;
    }
    Ok(lines)
}

// Puts the lines into the order of the flows' first lines.
fn put_in_order(lines: &mut Vec<Line>)
    ensures same { IsPermutation lines.old.items lines.new.items }
    ensures in_order { IsSortedBy comes_first lines.new.items }
{
    lines.sort_unstable_by_key(|line| line.first);
}

/// Writes these words, and a percentile behind them, with a mark before one that is shortened.
pub(crate) fn write_percentile<W: Write>(
    out: &mut W,
    words: &str,
    is_exact: bool,
    wait: u64,
) -> io::Result<()>
    ensures { OnOk result (Appends (W.contents out.old) (W.contents out.new) (words.now ++ percentile_text is_exact wait)) }
{
    if is_exact {
        write!(out, "{words}{wait}")
    } else {
        write!(out, "{words}~{wait}")
    }
}

// Writes how many requests were decided how.
#[tactic(auto, unfolding(crate::specs::Texts::decided_text))]
fn write_decided<W: Write>(out: &mut W, sums: &Sums) -> io::Result<()>
    ensures { OnOk result (Appends (W.contents out.old) (W.contents out.new) (decided_text sums.now)) }
{
    let requests = sums.requests;
    let executed = sums.executed;
    let rejected = sums.rejected;
    let cancelled = sums.cancelled;
    write!(
        out,
        " requests {requests} executed {executed} rejected {rejected} cancelled {cancelled}"
    )
}

// Writes how long requests waited.
#[tactic(auto, unfolding(crate::specs::Texts::waits_text))]
fn write_waits<W: Write>(out: &mut W, figures: &Figures) -> io::Result<()>
    ensures { OnOk result (Appends (W.contents out.old) (W.contents out.new) (waits_text figures.now)) }
{
    let longest = figures.sums.longest;
    write_percentile(out, " wait median ", figures.is_exact, figures.median)?;
    write_percentile(out, " p99 ", figures.is_exact, figures.high)?;
    write!(out, " longest {longest}")
}

// Writes what requests used, and how long they waited.
#[tactic(auto, unfolding(crate::specs::Texts::used_text))]
fn write_used<W: Write>(out: &mut W, figures: &Figures) -> io::Result<()>
    ensures { OnOk result (Appends (W.contents out.old) (W.contents out.new) (used_text figures.now)) }
{
    let seat_time = figures.sums.seat_time;
    write!(out, " seat-time {seat_time}")?;
    write_waits(out, figures)
}

// Writes the line of the flows that have no row of their own, if there are any.
#[tactic(auto, unfolding(crate::specs::Texts::others_text))]
fn write_others<W: Write>(out: &mut W, figures: &Figures) -> io::Result<()>
    ensures { OnOk result (Appends (W.contents out.old) (W.contents out.new) (others_text figures.now)) }
{
    if figures.sums.requests == 0 {
        return Ok(());
    }
    out.write_all(b"others")?;
    write_decided(out, &figures.sums)?;
    write_used(out, figures)?;
    out.write_all(b"\n")
}

// Writes when the last thing was done, and the seats that were used and that could have been.
#[tactic(auto, unfolding(crate::specs::Texts::spent_text))]
fn write_spent<W: Write>(out: &mut W, limit: u32, sums: &Sums) -> io::Result<()>
    ensures { OnOk result (Appends (W.contents out.old) (W.contents out.new) (spent_text limit sums.now)) }
{
    let last = sums.last;
    let seat_time = sums.seat_time;
    let possible = u128::from(limit) * u128::from(last);
    write!(out, "end {last} seat-time {seat_time} of {possible}")
}

// Writes how long all requests waited, and for how long one waits before it gives up.
#[tactic(auto, unfolding(crate::specs::Texts::waited_text))]
fn write_waited<W: Write>(out: &mut W, patience: u64, sums: &Sums) -> io::Result<()>
    ensures { OnOk result (Appends (W.contents out.old) (W.contents out.new) (waited_text patience sums.now)) }
{
    let waited = sums.waited;
    writeln!(out, " waited {waited} patience {patience}")
}

// Writes the lines of the flows.
fn write_lines<W: Write>(out: &mut W, lines: &[Line]) -> io::Result<()>
    ensures { OnOk result (Appends (W.contents out.old) (W.contents out.new) (flat_map flow_text lines.now)) }
{
    for line in lines {
        line.write(out)?;
    }
    Ok(())
}

impl Table {
    /// Of these rows.
    ///
    /// # Errors
    ///
    /// `AllocError` if memory was refused.
    pub(crate) fn of(
        alloc: Global,
        rows: Vec<Row>,
        others: Figures,
        all: Figures,
    ) -> Result<Table, AllocError>
        ensures each { IfOk result (λ t. (lines : List Line) × AllZip IsLineOf rows.items lines × IsPermutation lines t.lines.items) }
        ensures order { IfOk result (λ t. IsSortedBy comes_first t.lines.items) }
        ensures others { IfOk result (λ t. t.others ≡ others) }
        ensures all { IfOk result (λ t. t.all ≡ all) }
    {
        let mut lines = lines_of(alloc, rows)?;
        put_in_order(&mut lines);
        Ok(Table { lines, others, all })
    }

    /// Writes a line for each flow, in the order of their first lines, and the line of the whole: of a level with this limit,
    /// where a request that waits gives up after this patience in microseconds, or never at 0.
    ///
    /// # Errors
    ///
    /// The writer's. Then nothing is known of how much was written.
    pub fn write<W: Write>(&self, limit: u32, patience: u64, out: &mut W) -> io::Result<()>
        ensures { OnOk result (Appends (W.contents out.old) (W.contents out.new) (table_text limit patience self.now)) }
    {
        write_lines(out, self.lines.as_slice())?;
        write_others(out, &self.others)?;
        write_spent(out, limit, &self.all.sums)?;
        write_waited(out, patience, &self.all.sums)
    }
}
