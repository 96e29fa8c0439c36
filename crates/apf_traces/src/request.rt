//! What one line of a trace asks for.

/// The two names of a flow.
#[derive(Debug, PartialEq, Eq, Drop)]
pub struct FlowNames {
    /// The name of the flow schema.
    pub schema: String,
    /// The distinguisher.
    pub distinguisher: String,
}

/// A request of a trace. Its number is its line's, from 0.
#[derive(Debug, PartialEq, Eq, Drop)]
pub struct TraceRequest {
    /// When the request arrives, in microseconds from the beginning of the trace, 0 to 1,000,000,000,000.
    pub arrives_at: u64,
    /// How long the request runs once it has its seats, in microseconds, 0 to 10,000,000,000.
    pub runs_for: u64,
    /// The hash of the request's flow: given itself, or the `flow_hash` of the names.
    pub hash: u64,
    /// The names of the request's flow, or none where the trace gives the hash.
    pub names: Option<FlowNames>,
    /// The seats that the request takes while it executes, 1 to 20,000; 1 if absent.
    pub width: u32,
    /// What a dispatch of the request is charged, 1 to 4,294,967,295, where the line says that.
    pub cost: Option<u32>,
}
