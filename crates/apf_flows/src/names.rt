//! How a flow is named: by its hash, and by its two names where the trace gives them.

ghost use Rattle.std.specs.Prelude.{OnOk};
ghost use Rattle.std.specs.Io.KnownBytes.{Appends};
ghost use Rattle.apf_flows.specs.Names.{hash_text, names_text, of_names_text};

use crate::json::write_text;
use apf_traces::FlowNames;
use std::io;
use std::io::Write;

/// Writes a flow's hash as 16 hexadecimal digits.
///
/// # Errors
///
/// The writer's. Then nothing is known of how much was written.
#[tactic(auto, unfolding(crate::specs::Names::hash_text))]
pub fn write_hash<W: Write>(out: &mut W, hash: u64) -> io::Result<()>
    ensures { OnOk result (Appends (W.contents out.old) (W.contents out.new) (hash_text hash)) }
{
    write!(out, "{hash:016x}")
}

/// Writes the two names of a flow, the schema and the distinguisher, or nothing where there are none.
///
/// Each is a JSON text with one space before it. It is escaped only where JSON must.
///
/// # Errors
///
/// The writer's. Then nothing is known of how much was written.
pub fn write_names<W: Write>(out: &mut W, names: &Option<FlowNames>) -> io::Result<()>
    ensures { OnOk result (Appends (W.contents out.old) (W.contents out.new) (names_text names.now)) }
{
    match names {
        Some(names) => {
            out.write_all(b" ")?;
            write_text(out, names.schema.as_str())?;
            out.write_all(b" ")?;
            write_text(out, names.distinguisher.as_str())
        }
        None => Ok(()),
    }
}

/// Writes ` of` and the two names of a flow, or nothing where there are none.
///
/// # Errors
///
/// The writer's. Then nothing is known of how much was written.
pub fn write_of_names<W: Write>(out: &mut W, names: &Option<FlowNames>) -> io::Result<()>
    ensures { OnOk result (Appends (W.contents out.old) (W.contents out.new) (of_names_text names.now)) }
{
    if names.is_some() {
        out.write_all(b" of")?;
    }
    write_names(out, names)
}
