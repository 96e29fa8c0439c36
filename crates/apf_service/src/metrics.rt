//! The numbers of a level in the text format of Prometheus, by the names of kube-apiserver.

ghost use Rattle.std.specs.Prelude.{◌≡◌, OnOk};
ghost use Rattle.std.specs.Io.KnownBytes.{Appends};
ghost use Rattle.apf_service.specs.Metrics.{family_name, family_help, family_type, head_text, sample_text, family_text, rejected_text, gauges_text, rejections_text, end_text, metrics_text};

use crate::tally::Tally;
use apf_texts::decision_name;
use apf_words::Decision;
use std::io;
use std::io::Write;

/// A family of numbers.
#[derive(Clone, Copy, Debug, PartialEq, Eq)]
pub enum Family {
    /// Those who wait.
    Waiting,
    /// Those who execute.
    Executing,
    /// The seats of those who execute.
    Seats,
    /// The limit.
    Limit,
    /// Those who executed.
    Dispatched,
    /// Those who were rejected, or cancelled.
    Rejected,
}

impl Family {
    // Its name.
    fn name(self) -> &'static str
        ensures { result.now ≡ family_name self }
    {
        match self {
            Family::Waiting => "apiserver_flowcontrol_current_inqueue_requests",
            Family::Executing => "apiserver_flowcontrol_current_executing_requests",
            Family::Seats => "apiserver_flowcontrol_current_executing_seats",
            Family::Limit => "apiserver_flowcontrol_current_limit_seats",
            Family::Dispatched => "apiserver_flowcontrol_dispatched_requests_total",
            Family::Rejected => "apiserver_flowcontrol_rejected_requests_total",
        }
    }

    // What it stands for.
    fn help(self) -> &'static str
        ensures { result.now ≡ family_help self }
    {
        match self {
            Family::Waiting => "Requests that wait in the queues of the priority level.",
            Family::Executing => "Requests that execute.",
            Family::Seats => "Seats of the requests that execute.",
            Family::Limit => "Seats that the priority level may give.",
            Family::Dispatched => "Requests that executed.",
            Family::Rejected => "Requests that were rejected or cancelled.",
        }
    }

    // Its type: a counter never falls.
    fn kind(self) -> &'static str
        ensures { result.now ≡ family_type self }
    {
        match self {
            Family::Dispatched | Family::Rejected => "counter",
            Family::Waiting | Family::Executing | Family::Seats | Family::Limit => "gauge",
        }
    }
}

// What a family stands for, and its type.
#[tactic(auto, unfolding(crate::specs::Metrics::head_text))]
fn write_head<W: Write>(out: &mut W, family: Family) -> io::Result<()>
    ensures { OnOk result (Appends (W.contents out.old) (W.contents out.new) (head_text family)) }
{
    let name = family.name();
    let help = family.help();
    let kind = family.kind();
    writeln!(out, "# HELP {name} {help}\n# TYPE {name} {kind}")
}

// Its number, of the level of this name.
#[tactic(auto, unfolding(crate::specs::Metrics::sample_text))]
fn write_sample<W: Write>(out: &mut W, family: Family, level: &str, value: u64) -> io::Result<()>
    ensures { OnOk result (Appends (W.contents out.old) (W.contents out.new) (sample_text family level.now value)) }
{
    let name = family.name();
    writeln!(out, "{name}{{priority_level=\"{level}\"}} {value}")
}

// A family with its one number.
#[tactic(auto, unfolding(crate::specs::Metrics::family_text))]
fn write_family<W: Write>(out: &mut W, family: Family, level: &str, value: u64) -> io::Result<()>
    ensures { OnOk result (Appends (W.contents out.old) (W.contents out.new) (family_text family level.now value)) }
{
    write_head(out, family)?;
    write_sample(out, family, level, value)
}

// How many were rejected for this reason.
#[tactic(auto, unfolding(crate::specs::Metrics::rejected_text))]
fn write_rejected<W: Write>(out: &mut W, level: &str, reason: &str, value: u64) -> io::Result<()>
    ensures { OnOk result (Appends (W.contents out.old) (W.contents out.new) (rejected_text level.now reason.now value)) }
{
    writeln!(
        out,
        "apiserver_flowcontrol_rejected_requests_total{{priority_level=\"{level}\",reason=\"{reason}\"}} {value}"
    )
}

// Those who wait, those who execute, their seats and the limit.
#[tactic(auto, unfolding(crate::specs::Metrics::gauges_text))]
fn write_gauges<W: Write>(out: &mut W, level: &str, limit: u32, tally: Tally) -> io::Result<()>
    ensures { OnOk result (Appends (W.contents out.old) (W.contents out.new) (gauges_text level.now limit tally)) }
{
    write_family(out, Family::Waiting, level, u64::from(tally.waiting))?;
    write_family(out, Family::Executing, level, u64::from(tally.running))?;
    write_family(out, Family::Seats, level, u64::from(tally.seats))?;
    write_family(out, Family::Limit, level, u64::from(limit))
}

// Those who were rejected, by the reason.
#[tactic(auto, unfolding(crate::specs::Metrics::rejections_text))]
fn write_rejections<W: Write>(out: &mut W, level: &str, tally: Tally) -> io::Result<()>
    ensures { OnOk result (Appends (W.contents out.old) (W.contents out.new) (rejections_text level.now tally)) }
{
    let counts = tally.counts;
    write_rejected(
        out,
        level,
        decision_name(Decision::QueueFull),
        counts.queue_full,
    )?;
    write_rejected(
        out,
        level,
        decision_name(Decision::ConcurrencyLimit),
        counts.concurrency_limit,
    )?;
    write_rejected(out, level, decision_name(Decision::Closed), counts.closed)?;
    write_rejected(
        out,
        level,
        decision_name(Decision::Cancelled),
        counts.cancelled,
    )
}

// The line behind all.
#[tactic(auto, unfolding(crate::specs::Metrics::end_text))]
fn write_end<W: Write>(out: &mut W) -> io::Result<()>
    ensures { OnOk result (Appends (W.contents out.old) (W.contents out.new) (end_text)) }
{
    writeln!(out, "# EOF")
}

/// Writes all of it, and `# EOF` behind it.
///
/// # Errors
///
/// The writer's. Then nothing is known of how much was written.
#[tactic(auto, unfolding(crate::specs::Metrics::metrics_text))]
pub fn write_metrics<W: Write>(out: &mut W, level: &str, limit: u32, tally: Tally) -> io::Result<()>
    ensures { OnOk result (Appends (W.contents out.old) (W.contents out.new) (metrics_text level.now limit tally)) }
{
    write_gauges(out, level, limit, tally)?;
    write_family(out, Family::Dispatched, level, tally.counts.executed)?;
    write_head(out, Family::Rejected)?;
    write_rejections(out, level, tally)?;
    write_end(out)
}
