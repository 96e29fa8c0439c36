//! The hands of the flows of a trace.

ghost use Rattle.std.specs.Prelude.{◌≡◌, [], Some, IfErr, IfOk};
ghost use Rattle.apf_trace_reader.specs.Reading.{HasRead};
ghost use Rattle.apf_flow.specs.declared.fault.DealerFault.{DealerFault as Fault};
ghost use Rattle.apf_hands.specs.Hands.{fault_by, sizes_of};
ghost use Rattle.apf_hands.specs.Flows.{HasWritten};
ghost use Rattle.apf_hands.specs.declared.trace.FlowsFault.TheVariants.{Hands, Trace};

use crate::firsts::read_firsts;
use crate::hands::{HandsFault, has_flow, write_hands, write_hands_of};
use apf_model::Config;
use apf_trace_reader::{ReadFault, TraceReader};
use std::alloc::Global;
use std::io::{Read, Write};
use thiserror::Error;

/// Why the hands of the flows of a trace are not written.
#[derive(Debug, Drop, Error)]
pub enum FlowsFault {
    /// The trace was not read.
    #[error("{0}")]
    Trace(ReadFault),
    /// The hands were not written.
    #[error("{0}")]
    Hands(HandsFault),
}

impl From<ReadFault> for FlowsFault {
    ghost from_gives = { λ fault told. told ≡ Trace fault };

    fn from(fault: ReadFault) -> Self {
        FlowsFault::Trace(fault)
    }
}

impl From<HandsFault> for FlowsFault {
    ghost from_gives = { λ fault told. told ≡ Hands fault };

    fn from(fault: HandsFault) -> Self {
        FlowsFault::Hands(fault)
    }
}

/// Writes the flows of a trace of any length, each with the hand of queues that it is dealt: all of them as [`write_hands`]
/// does, or those of one distinguisher as [`write_hands_of`] does. The reader has read nothing, and reads the trace to its
/// end before anything is written. Memory is taken for the flows alone. Answers whether there is a flow that is asked for:
/// where all are, it is yes.
///
/// # Errors
///
/// `Trace` with the reader's fault, or with `NoMemory`, before anything is written; then `Hands` as of [`write_hands`].
pub fn write_flows<R: Read, W: Write>(
    alloc: Global,
    config: &Config,
    reader: &mut TraceReader,
    input: &mut R,
    flow: Option<&str>,
    out: &mut W,
) -> Result<bool, FlowsFault>
    ensures ok { IfOk result (λ is_found. HasRead [] [] (R.remaining input.old) reader.old
        → HasWritten reader.old.window.size config.now flow.entry is_found (R.remaining input.old) (R.remaining input.new) (W.contents out.old) (W.contents out.new)) }
    ensures dealer { IfErr result (λ told. (fault : Fault) → told ≡ FlowsFault.Hands (HandsFault.Dealer fault) → fault_by (sizes_of config.now) ≡ Some fault) }
{
    let firsts = read_firsts(alloc, reader, input)?;
    match flow {
        None => {
            write_hands(alloc, config, &firsts, out)?;
            Ok(true)
        }
        Some(name) => {
            write_hands_of(alloc, config, &firsts, name, out)?;
            Ok(has_flow(&firsts, name))
        }
    }
}
