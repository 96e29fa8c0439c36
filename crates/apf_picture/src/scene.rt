//! What a picture is made of.

use apf_flows::Flows;
use apf_model::Config;
use apf_traces::TraceRequest;
use apf_words::Decision;

/// What became of one request of a run.
#[derive(Clone, Copy, Debug, PartialEq, Eq)]
pub struct Outcome {
    pub decision: Decision,
    /// How long it waited, until it was given its seats or gave up, in microseconds.
    pub wait: u64,
    /// The queue that it entered, if it entered one.
    pub queue: Option<u32>,
}

/// A run of a level on the requests of a trace, or a stretch of it.
#[derive(Clone, Copy)]
pub struct Scene<'a> {
    /// What the level was opened with.
    pub config: Config,
    /// How long a request waits at most, in microseconds. 0: nobody gives up.
    pub patience: u64,
    /// When the stretch begins that is drawn, in microseconds: 0 of a whole run.
    pub from: u64,
    /// When it ends, in microseconds: of a whole run when the run ended.
    pub end: u64,
    /// Whether that is the whole run.
    pub is_whole: bool,
    /// The requests that are there at some moment of the stretch, at most 10,000.
    pub trace: &'a [TraceRequest],
    /// The flows of the trace.
    pub flows: &'a Flows,
    /// What became of each request of the trace.
    pub outcomes: &'a [Outcome],
}
