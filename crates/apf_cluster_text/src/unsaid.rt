//! What logs do not say of their requests.

ghost use Rattle.std.specs.Prelude.{◌≡◌, OnOk, option_map};
ghost use Rattle.std.specs.Io.KnownBytes.{Appends};
ghost use Rattle.apf_cluster_text.specs.Unsaid as spec;

use crate::server_lines::write_server_lines;
use apf_joined_reader::Counts;
use apf_objects::Schema;
use std::io;
use std::io::Write;

// Writes that the seats are not known.
#[tactic(auto, unfolding(crate::specs::Unsaid::no_seats))]
fn write_no_seats<W: Write>(out: &mut W) -> io::Result<()>
    ensures { OnOk result (Appends (W.contents out.old) (W.contents out.new) spec.no_seats) }
{
    out.write_all(b"\nnot in the log: how many seats a request takes (here one)\n")
}

// Writes what is known of each request: of the server's own log, if it is read, what that says.
fn write_known<W: Write>(out: &mut W, schemas: &[Schema], counts: Option<&Counts>) -> io::Result<()>
    ensures { OnOk result (Appends (W.contents out.old) (W.contents out.new) (spec.known_text schemas.now (option_map (λ counts. counts.now) counts.entry))) }
{
    match counts {
        Some(counts) => write_server_lines(out, schemas, counts),
        None => write_no_seats(out),
    }
}

// Writes that a run of the log is one beside other work.
#[tactic(auto, unfolding(crate::specs::Unsaid::other_work))]
fn write_other_work<W: Write>(out: &mut W) -> io::Result<()>
    ensures { OnOk result (Appends (W.contents out.old) (W.contents out.new) spec.other_work) }
{
    out.write_all(
        b"not in the log: how long a request runs where the server does other work (here as long as in the log)\n",
    )
}

// Writes how long those would run that were turned away, if there are any.
fn write_away<W: Write>(out: &mut W, turned_away: u64) -> io::Result<()>
    ensures { OnOk result (Appends (W.contents out.old) (W.contents out.new) (spec.away_text turned_away)) }
{
    if turned_away == 0 {
        return Ok(());
    }
    write!(
        out,
        "not in the log: how long {turned_away} requests that were turned away would run (here the median of those of their distinguisher)\n"
    )
}

// Writes which requests are not known.
#[tactic(auto, unfolding(crate::specs::Unsaid::clients_and_policy))]
fn write_clients_and_policy<W: Write>(out: &mut W) -> io::Result<()>
    ensures { OnOk result (Appends (W.contents out.old) (W.contents out.new) spec.clients_and_policy) }
{
    out.write_all(
        b"not in the log: which clients would try again (here those whose second requests are in the log)\nnot in the log: requests that the audit policy leaves out\n",
    )
}

/// Writes for people what an audit log does not say of its requests, a line each, and what a simulation takes in its place. Where
/// the server's own log was read too, there is first what that says of them: `schemas` are those of the cluster. The server of the
/// log turned so many of them away.
///
/// # Errors
///
/// The writer's. Then nothing is known of how much was written.
#[tactic(auto, unfolding(crate::specs::Unsaid::unsaid_text))]
pub fn write_unsaid<W: Write>(
    out: &mut W,
    schemas: &[Schema],
    counts: Option<&Counts>,
    turned_away: u64,
) -> io::Result<()>
    ensures { OnOk result (Appends (W.contents out.old) (W.contents out.new) (spec.unsaid_text schemas.now (option_map (λ counts. counts.now) counts.entry) turned_away)) }
{
    write_known(out, schemas, counts)?;
    write_other_work(out)?;
    write_away(out, turned_away)?;
    write_clients_and_policy(out)
}
