//! The queues of a hand, and who shares them.

ghost use Rattle.std.specs.Prelude.{◌≡◌, OnOk, map};
ghost use Rattle.std.specs.Io.KnownBytes.{Appends};
ghost use Rattle.apf_hands.specs.Alike.{IsOnce, held_whole_text};
ghost use Rattle.apf_hands.specs.Hands.{shares_one, shared, queues_text, share_text, shares_text, hand_text};
ghost use Rattle.apf_hands.specs.Holders.{AreHolders, places_at};
ghost use Rattle.apf_hands.specs.Dealt.{flow_of, flows_of};

use crate::brief::write_covers;
use crate::dealt::Dealt;
use crate::holders::Holders;
use crate::sharers::{first_of, pass, rests_of};
use apf_flows::{write_hash, write_names, write_of_names};
use std::io;
use std::io::Write;

// Whether some queue of the hand is in the other one.
fn has_shared(hand: &[u32], other: &[u32]) -> bool
    ensures { result ≡ shares_one hand.now other.now }
{
    hand.iter().any(|queue| other.contains(queue))
}

// Writes queues, each with a space before it.
fn write_queues<W: Write>(out: &mut W, hand: &[u32]) -> io::Result<()>
    ensures { OnOk result (Appends (W.contents out.old) (W.contents out.new) (queues_text hand.now)) }
{
    for queue in hand {
        write!(out, " {queue}")?;
    }
    Ok(())
}

// Writes the queues of the hand that are in the other one.
fn write_shared<W: Write>(out: &mut W, hand: &[u32], other: &[u32]) -> io::Result<()>
    ensures { OnOk result (Appends (W.contents out.old) (W.contents out.new) (queues_text (shared hand.now other.now))) }
{
    for queue in hand {
        if other.contains(queue) {
            write!(out, " {queue}")?;
        }
    }
    Ok(())
}

/// Writes the line of a flow and its hand.
#[tactic(auto, unfolding(crate::specs::Hands::hand_text))]
pub(crate) fn write_hand<W: Write>(out: &mut W, flow: &Dealt<'_>) -> io::Result<()>
    ensures { OnOk result (Appends (W.contents out.old) (W.contents out.new) (hand_text (flow_of flow.now))) }
{
    out.write_all(b"flow ")?;
    write_hash(out, flow.first.hash)?;
    out.write_all(b" hand")?;
    write_queues(out, flow.hand.as_slice())?;
    write_of_names(out, &flow.first.names)?;
    out.write_all(b"\n")
}

// Writes the line of another flow that shares a queue, and nothing of one that does not.
#[tactic(auto, unfolding(crate::specs::Hands::share_line))]
fn write_share<W: Write>(out: &mut W, flow: &Dealt<'_>, other: &Dealt<'_>) -> io::Result<()>
    ensures { OnOk result (Appends (W.contents out.old) (W.contents out.new) (share_text (flow_of flow.now) (flow_of other.now))) }
{
    let (hand, held) = (flow.hand.as_slice(), other.hand.as_slice());
    if flow.first.hash == other.first.hash || !has_shared(hand, held) {
        return Ok(());
    }
    out.write_all(b"  shares")?;
    write_shared(out, hand, held)?;
    out.write_all(b" with ")?;
    write_hash(out, other.first.hash)?;
    write_names(out, &other.first.names)?;
    out.write_all(b"\n")
}

// Writes the lines of all flows that share a queue. No other flow is looked at.
fn write_shares<W: Write>(
    out: &mut W,
    flow: &Dealt<'_>,
    flows: &[Dealt<'_>],
    holders: &Holders,
) -> io::Result<()>
    requires { AreHolders (flows_of flows.now) (places_at holders.now) }
    ensures { OnOk result (Appends (W.contents out.old) (W.contents out.new) (shares_text (flow_of flow.now) (flows_of flows.now))) }
{
    let mut rests = rests_of(holders, flow.hand.as_slice());
    while let Some(place) = first_of(rests.as_slice()) {
        write_share(out, flow, &flows[place])?;
        pass(rests.as_mut_slice(), place);
    }
    Ok(())
}

/// Writes the lines of a flow, with each other flow that shares a queue, and all that cover its hand. The hashes are those of the
/// flows with the queues of its hand.
pub(crate) fn write_whole<W: Write>(
    out: &mut W,
    flow: &Dealt<'_>,
    flows: &[Dealt<'_>],
    holders: &Holders,
    hashes: &[u64],
) -> io::Result<()>
    requires holders { AreHolders (flows_of flows.now) (places_at holders.now) }
    requires once { IsOnce flow.now.first.now.hash hashes.now }
    ensures { OnOk result (Appends (W.contents out.old) (W.contents out.new) (held_whole_text hashes.now (flows_of flows.now) (flow_of flow.now))) }
{
    write_hand(out, flow)?;
    write_shares(out, flow, flows, holders)?;
    write_covers(out, flow.first.hash, hashes)
}
