//! The hands of the flows of a trace, and who shares their queues.

ghost use Rattle.std.specs.Prelude.{◌≡◌, OnOk, IfErr, IfOk, IfSome, Some, Err};
ghost use Rattle.std.specs.List.{list_any};
ghost use Rattle.std.specs.Io.KnownBytes.{Appends};
ghost use Rattle.apf_flow.specs.declared.fault.DealerFault.{DealerFault as Fault};
ghost use Rattle.apf_hands.specs.declared.hands.HandsFault.TheVariants.{NoMemory, CannotWrite};
ghost use Rattle.apf_hands.specs.Dealt.{flow_of as flow_of_dealt, flows_of as flows_of_dealt};
ghost use Rattle.apf_hands.specs.Hands.{sizes_of, fault_by, flows_in, hands_text, has_distinguisher, IsNoDealer, part_text};
ghost use Rattle.apf_hands.specs.Alike.{held_text, IsOnce};
ghost use Rattle.apf_hands.specs.Dealing.{HaveHands};
ghost use Rattle.apf_hands.specs.Holders.{places_at};

use crate::alike::{alike_of, alike_to};
use crate::brief::{write_all_sharers, write_covering};
use crate::dealt::{Dealt, deal_all, dealer_of};
use crate::firsts::Firsts;
use crate::holders::{Holders, holders_of};
use crate::sharing::{write_hand, write_whole};
use apf_flow::DealerFault;
use apf_model::Config;
use apf_traces::TraceRequest;
use std::alloc::{AllocError, Global};
use std::io;
use std::io::Write;
use thiserror::Error;

/// Why the hands of flows are not written.
#[derive(Clone, Copy, Debug, PartialEq, Eq, Error)]
pub enum HandsFault {
    /// The level's queues and hand size do not make a dealer.
    #[error("{0}")]
    Dealer(DealerFault),
    /// Memory was refused.
    #[error("out of memory")]
    NoMemory,
    /// The output was not written. Nothing is known of how much of it was.
    #[error("cannot write")]
    CannotWrite,
}

impl From<AllocError> for HandsFault {
    ghost from_gives = { λ _ fault. fault ≡ NoMemory };

    fn from(_error: AllocError) -> Self {
        HandsFault::NoMemory
    }
}

impl From<io::Error> for HandsFault {
    ghost from_gives = { λ _ fault. fault ≡ CannotWrite };

    fn from(_error: io::Error) -> Self {
        HandsFault::CannotWrite
    }
}

// Writes the lines of a flow, where these are the hashes of the flows with the queues of its hand.
fn write_flow<W: Write>(
    out: &mut W,
    flow: &Dealt<'_>,
    holders: &Holders,
    hashes: &[u64],
) -> io::Result<()>
    requires { IsOnce flow.now.first.now.hash hashes.now }
    ensures { OnOk result (Appends (W.contents out.old) (W.contents out.new) (held_text (places_at holders.now) hashes.now (flow_of_dealt flow.now))) }
{
    write_hand(out, flow)?;
    write_all_sharers(out, holders, flow.hand.as_slice())?;
    write_covering(out, flow.first.hash, hashes)
}

// Writes the lines of all flows. Of each flow those are looked at that hold its queues, and not the others: how many hold each of
// them is known, and so are the flows with the same queues. All memory is taken before the first byte.
fn write_all<W: Write>(alloc: Global, out: &mut W, flows: &[Dealt<'_>]) -> Result<(), HandsFault>
    requires dealt { HaveHands flows.now }
    ensures ok { OnOk result (Appends (W.contents out.old) (W.contents out.new) (hands_text (flows_of_dealt flows.now))) }
    ensures no_dealer { IfErr result IsNoDealer }
    ensures memory { result ≡ Err HandsFault.NoMemory → out.new ≡ out.old }
{
    let holders = holders_of(alloc, flows)?;
    let alike = alike_of(alloc, flows)?;
    for flow in flows {
        let hashes = alike_to(&alike, flow.queues.as_slice());
        write_flow(out, flow, &holders, hashes)?;
    }
    Ok(())
}

// Whether the request has this distinguisher.
fn has_name(first: &TraceRequest, distinguisher: &str) -> bool
    ensures { result ≡ has_distinguisher distinguisher.now first.now.names }
{
    match &first.names {
        Some(names) => names.distinguisher.as_str() == distinguisher,
        None => false,
    }
}

// Writes the lines of the flows of this distinguisher. Of each those are looked at that share a queue with it, and not the others. All
// memory is taken before the first byte.
fn write_part<W: Write>(
    alloc: Global,
    out: &mut W,
    flows: &[Dealt<'_>],
    distinguisher: &str,
) -> Result<(), HandsFault>
    requires dealt { HaveHands flows.now }
    ensures ok { OnOk result (Appends (W.contents out.old) (W.contents out.new) (part_text distinguisher.now (flows_of_dealt flows.now) (flows_of_dealt flows.now))) }
    ensures no_dealer { IfErr result IsNoDealer }
    ensures memory { result ≡ Err HandsFault.NoMemory → out.new ≡ out.old }
{
    let holders = holders_of(alloc, flows)?;
    let alike = alike_of(alloc, flows)?;
    for flow in flows {
        if has_name(flow.first, distinguisher) {
            let hashes = alike_to(&alike, flow.queues.as_slice());
            write_whole(out, flow, flows, &holders, hashes)?;
        }
    }
    Ok(())
}

// The flows whose first requests these are, each with its hand.
fn dealt_flows<'a>(
    alloc: Global,
    config: &Config,
    firsts: &'a Firsts,
) -> Result<Vec<Dealt<'a>>, HandsFault>
    ensures ok { IfOk result (λ all. flows_of_dealt all.items ≡ flows_in (sizes_of config.now) firsts.now) }
    ensures hands { IfOk result (λ all. HaveHands all.items) }
    ensures dealer { IfSome (fault_by (sizes_of config.now)) (λ fault. result ≡ Err (HandsFault.Dealer fault)) }
    ensures no_other { IfErr result (λ told. (fault : Fault) → told ≡ HandsFault.Dealer fault → fault_by (sizes_of config.now) ≡ Some fault) }
{
    let dealer = match dealer_of(config) {
        Ok(dealer) => dealer,
        Err(fault) => return Err(HandsFault::Dealer(fault)),
    };
    Ok(deal_all(alloc, &dealer, firsts.as_slice())?)
}

/// Writes each flow with the hand of queues that it is dealt, in the order of their first requests, which are given.
///
/// Below it stands a line for each of its queues that other flows hold too, with how many do. If the hands of other
/// flows hold all of its queues, a line names the first ten of those flows, and another one says how many more there
/// are. A flow has its hash, and the names that its first request has. On a level that rejects, the hands have no
/// queues.
///
/// # Errors
///
/// [`HandsFault::Dealer`] with the dealer's fault, if the queues and the hand size of a level that queues have one.
/// Then nothing is written. After that `NoMemory` if memory was refused, before anything is written, and `CannotWrite` if the
/// writer failed.
pub fn write_hands<W: Write>(
    alloc: Global,
    config: &Config,
    firsts: &Firsts,
    out: &mut W,
) -> Result<(), HandsFault>
    ensures ok { OnOk result (Appends (W.contents out.old) (W.contents out.new) (hands_text (flows_in (sizes_of config.now) firsts.now))) }

    // The dealer's fault is told, before anything is written, and no other fault is told as one.
    ensures dealer { IfSome (fault_by (sizes_of config.now)) (λ fault. (result ≡ Err (HandsFault.Dealer fault)) × (out.new ≡ out.old)) }
    ensures no_other { IfErr result (λ told. (fault : Fault) → told ≡ HandsFault.Dealer fault → fault_by (sizes_of config.now) ≡ Some fault) }

    // Where memory was refused, nothing is written.
    ensures memory { result ≡ Err HandsFault.NoMemory → out.new ≡ out.old }
{
    let flows = dealt_flows(alloc, config, firsts)?;
    write_all(alloc, out, flows.as_slice())
}

/// Writes the flows that have this distinguisher, each with the hand of queues that it is dealt, in the order of the first
/// requests of the flows, which are given.
///
/// Below each stands a line for each other flow that shares a queue with it, with the queues that are shared in the
/// order of the hand. If the hands of other flows hold all of its queues, a last line names those flows. A flow has
/// its hash, and the names that its first request has. Nothing is written if no flow has the distinguisher.
///
/// # Errors
///
/// As for [`write_hands`].
pub fn write_hands_of<W: Write>(
    alloc: Global,
    config: &Config,
    firsts: &Firsts,
    distinguisher: &str,
    out: &mut W,
) -> Result<(), HandsFault>
    ensures ok { OnOk result (Appends (W.contents out.old) (W.contents out.new)
        (part_text distinguisher.now (flows_in (sizes_of config.now) firsts.now) (flows_in (sizes_of config.now) firsts.now))) }

    // The dealer's fault is told, before anything is written, and no other fault is told as one.
    ensures dealer { IfSome (fault_by (sizes_of config.now)) (λ fault. (result ≡ Err (HandsFault.Dealer fault)) × (out.new ≡ out.old)) }
    ensures no_other { IfErr result (λ told. (fault : Fault) → told ≡ HandsFault.Dealer fault → fault_by (sizes_of config.now) ≡ Some fault) }

    // Where memory was refused, nothing is written.
    ensures memory { result ≡ Err HandsFault.NoMemory → out.new ≡ out.old }
{
    let flows = dealt_flows(alloc, config, firsts)?;
    write_part(alloc, out, flows.as_slice(), distinguisher)
}

/// Whether one of the flows whose first requests these are has this distinguisher.
pub fn has_flow(firsts: &Firsts, distinguisher: &str) -> bool
    ensures { result ≡ list_any (λ first. has_distinguisher distinguisher.now first.item.names) firsts.now }
{
    firsts
        .as_slice()
        .iter()
        .any(|first| has_name(&first.item, distinguisher))
}
