//! What is written of each flow's hand: how many share its queues, and some of those that cover it.

ghost use Rattle.std.specs.Prelude.{OnOk, take};
ghost use Rattle.std.specs.Io.KnownBytes.{Appends};
ghost use Rattle.apf_hands.specs.Alike.{IsOnce, others_of};
ghost use Rattle.apf_hands.specs.Hands.{sharers_line, named_text, named_line, more_line, covering_text, covers_text};
ghost use Rattle.apf_hands.specs.Holders.{places_at, others_text, all_others_text};

use crate::holders::{Holders, holding};
use apf_flows::write_hash;
use std::io;
use std::io::Write;

/// This many flows that cover a hand are named.
const MOST_NAMED: usize = 10;

// Writes the line of a queue that others hold too.
#[tactic(auto, unfolding(crate::specs::Hands::sharers_line))]
fn write_sharers_line<W: Write>(out: &mut W, queue: u32, sharers: usize) -> io::Result<()>
    ensures { OnOk result (Appends (W.contents out.old) (W.contents out.new) (sharers_line queue sharers)) }
{
    writeln!(out, "  shares {queue} with {sharers} flows")
}

// Writes that line, if others hold the queue.
fn write_sharers<W: Write>(out: &mut W, holders: &Holders, queue: u32) -> io::Result<()>
    ensures { OnOk result (Appends (W.contents out.old) (W.contents out.new) (others_text (places_at holders.now) queue)) }
{
    let sharers = holding(holders, queue).len().saturating_sub(1);
    if sharers > 0 {
        return write_sharers_line(out, queue, sharers);
    }
    Ok(())
}

/// Writes the lines of the queues of a hand that others hold too.
///
/// # Errors
///
/// The writer's. Then nothing is known of how much was written.
pub(crate) fn write_all_sharers<W: Write>(
    out: &mut W,
    holders: &Holders,
    hand: &[u32],
) -> io::Result<()>
    ensures { OnOk result (Appends (W.contents out.old) (W.contents out.new) (all_others_text (places_at holders.now) hand.now)) }
{
    for queue in hand {
        write_sharers(out, holders, *queue)?;
    }
    Ok(())
}

// Writes the first of these hashes but one, at most so many, each with a space before it.
fn write_named<W: Write>(out: &mut W, hash: u64, hashes: &[u64], most: usize) -> io::Result<()>
    ensures { OnOk result (Appends (W.contents out.old) (W.contents out.new) (named_text (take most (others_of hash hashes.now)))) }
{
    let mut left = most;
    for other in hashes {
        if left == 0 {
            return Ok(());
        }
        if *other == hash {
            continue;
        }
        out.write_all(b" ")?;
        write_hash(out, *other)?;
        left -= 1;
    }
    Ok(())
}

// Writes the line that names the first of these flows but one, at most so many.
#[tactic(auto, unfolding(crate::specs::Hands::named_line))]
fn write_named_line<W: Write>(out: &mut W, hash: u64, hashes: &[u64], most: usize) -> io::Result<()>
    ensures { OnOk result (Appends (W.contents out.old) (W.contents out.new) (named_line (take most (others_of hash hashes.now)))) }
{
    out.write_all(b"  covered by")?;
    write_named(out, hash, hashes, most)?;
    out.write_all(b"\n")
}

// Writes the line of how many more there are.
#[tactic(auto, unfolding(crate::specs::Hands::more_line))]
fn write_more_line<W: Write>(out: &mut W, count: usize) -> io::Result<()>
    ensures { OnOk result (Appends (W.contents out.old) (W.contents out.new) (more_line count)) }
{
    writeln!(out, "  covered by {count} more")
}

/// Writes the first of the flows that cover the hand of a flow, and how many more there are. The hashes are those of the flows
/// with the queues of that hand, among them its own.
///
/// # Errors
///
/// The writer's. Then nothing is known of how much was written.
#[tactic(auto, unfolding(crate::specs::Hands::covering_text))]
pub(crate) fn write_covering<W: Write>(out: &mut W, hash: u64, hashes: &[u64]) -> io::Result<()>
    requires { IsOnce hash hashes.now }
    ensures { OnOk result (Appends (W.contents out.old) (W.contents out.new) (covering_text (others_of hash hashes.now))) }
{
    let count = hashes.len().saturating_sub(1);
    if count > MOST_NAMED {
        write_named_line(out, hash, hashes, MOST_NAMED)?;
        return write_more_line(out, count - MOST_NAMED);
    }
    if count > 0 {
        write_named_line(out, hash, hashes, MOST_NAMED)?;
    }
    Ok(())
}

/// Writes all flows that cover the hand of a flow. The hashes are those of the flows with the queues of that hand, among them its
/// own.
///
/// # Errors
///
/// The writer's. Then nothing is known of how much was written.
#[tactic(auto, unfolding(crate::specs::Hands::covers_text))]
pub(crate) fn write_covers<W: Write>(out: &mut W, hash: u64, hashes: &[u64]) -> io::Result<()>
    requires { IsOnce hash hashes.now }
    ensures { OnOk result (Appends (W.contents out.old) (W.contents out.new) (covers_text (others_of hash hashes.now))) }
{
    if hashes.len() > 1 {
        return write_named_line(out, hash, hashes, hashes.len());
    }
    Ok(())
}
