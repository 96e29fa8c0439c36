//! The line of both sides of the bound.

ghost use Rattle.std.specs.Prelude.{◌≡◌, OnOk};
ghost use Rattle.std.specs.Io.KnownBytes.{Appends};
ghost use Rattle.apf_simulator.specs.Books.{furthest_text, other_text, sides_line};

use apf_bound::{Furthest, Sides};
use std::io;
use std::io::Write;

// Writes the pair of queues that came furthest apart, and by how much.
#[tactic(auto, unfolding(crate::specs::Books::furthest_text))]
fn write_furthest<W: Write>(furthest: Furthest, out: &mut W) -> io::Result<()>
    ensures { OnOk result (Appends (W.contents out.old) (W.contents out.new) (furthest_text furthest)) }
{
    let Furthest { busy, other, ahead } = furthest;
    write!(out, "bound {busy} {other} {ahead}")
}

// Writes the other side of the bound, with what it is made of.
#[tactic(auto, unfolding(crate::specs::Books::other_text))]
fn write_other<W: Write>(cost: u32, slack: u64, limit: u128, out: &mut W) -> io::Result<()>
    ensures { OnOk result (Appends (W.contents out.old) (W.contents out.new) (other_text cost slack limit)) }
{
    writeln!(out, " cost {cost} misjudged {slack} limit {limit}")
}

/// Writes the line of both sides.
///
/// # Errors
///
/// The writer's. Then nothing is known of how much was written.
pub(crate) fn write_sides<W: Write>(sides: &Sides, out: &mut W) -> io::Result<()>
    ensures { OnOk result (Appends (W.contents out.old) (W.contents out.new) (sides_line sides.now.furthest sides.now)) }
{
    let Some(furthest) = sides.furthest else {
        return writeln!(out, "bound none");
    };
    write_furthest(furthest, out)?;
    write_other(sides.largest_cost, sides.slack, sides.limit(), out)
}
