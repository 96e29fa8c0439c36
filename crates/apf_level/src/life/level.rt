//! The gate beside the lock, and how a level begins.

ghost use Rattle.std.specs.Prelude.{◌≡◌, ◌<◌, length, All, IfOk, IfErr, OnOk};
ghost use Rattle.apf_words.specs.Limits.{max_requests};
ghost use Rattle.apf_model.specs.declared.response.Response.TheVariants.{Queue, Reject};
ghost use Rattle.apf_gate.specs.declared.record.State.TheVariants.{Fresh};
ghost use Rattle.apf_gate.specs.Records.{new_desk};
ghost use Rattle.apf_gate.specs.Slots.{IsTicket};
ghost use Rattle.apf_gate.specs.Tokens.{desk_gate};
ghost use Rattle.apf_line.specs.Levels.{IsBookOf};
ghost use Rattle.apf_level.specs.LifeSections.{AreSleepers};
ghost use Rattle.apf_level.specs.LifeCalls.{IsGateFor, AreFirst, AreSettings, IsFaultOf, IsJudged};

use crate::life::naming::Naming;
use crate::life::queued::{Queued, QueuedLock};
use crate::life::shared::Shared;
use crate::life::tokens::Done;
use crate::life::unqueued::{Unqueued, UnqueuedLock};
use apf_book::{BookFault, LifeBook, Settling};
use apf_flow::Dealer;
use apf_gate::{Desk, Gate, Pass, Station, Ticket};
use apf_line::every_level_has_histories;
use apf_model::{Config, Response};
use std::alloc::{AllocError, Global};
use std::marker::{Model, PhantomData};
use std::sync::Mutex;

/// Why a level is not opened: the dealer's fault, the queues', or out of memory, the first of these.
pub type LevelFault = BookFault;

/// A priority level for a server's whole life, which any number of threads may step on. K says which one it is.
#[derive(Drop)]
pub struct Level<K: Naming> {
    pub(crate) gate: Gate<Global>,
    pub(crate) shared: Shared<K>,
}

impl<K: Naming> Model for Level<K> {
    ghost use Rattle.apf_gate.specs.Tokens.{GateId};
    ghost use Rattle.apf_line.specs.Levels.{IsLevelOf};

    ghost Value = { GateId };

    ghost view = { λ l. l.gate };

    ghost invariant = { λ l. IsLevelOf K.level l.gate };
}

/// A level that was opened, with a token for each slot, and its Stations.
#[derive(Drop)]
pub struct Opened<K: Naming> {
    pub level: Level<K>,
    pub slots: Vec<Done>,
    pub stations: Vec<Station>,
}

impl<K: Naming> Level<K> {
    /// A level over the parts of K's gate, as `Gate::open_for_life` gave them for the config's limit and response.
    /// Its slots are those of the gate, which nobody holds yet. All memory is taken here, that of the newest events
    /// too: two for each slot.
    ///
    /// On a level whose response is Reject the settings of queues are not used. A queue is charged the cost of each
    /// request that is dispatched from it, and that stays: see `open_settling`.
    ///
    /// # Errors
    ///
    /// The first of these: the dealer's fault, the queues', and `NoMemory` if memory was refused. Then everything is
    /// given up.
    pub fn open_for_life(
        alloc: Global,
        config: &Config,
        gate: Gate<Global>,
        desk: Desk,
        passes: Vec<Pass>,
        stations: Vec<Station>,
    ) -> Result<Opened<K>, LevelFault>
        requires opening { IsGateFor K.level config.now Settling.Never gate desk }
        requires first { AreFirst gate passes.items }
        ensures level { IfOk result (λ o. o.level ≡ gate) }
        ensures slots { IfOk result (λ o. o.slots.items ≡ passes.items) }
        ensures stations { IfOk result (λ o. o.stations.items ≡ stations.items) }
        ensures judged { IsJudged config.now gate.shape.slots result }
    {
        Level::open_settling(alloc, config, Settling::Never, gate, desk, passes, stations)
    }

    /// The same, and says whether what requests take is settled. If so, `release_measured` does that; else it settles
    /// nothing.
    ///
    /// # Errors
    ///
    /// As of `open_for_life`.
    pub fn open_settling(
        alloc: Global,
        config: &Config,
        settling: Settling,
        gate: Gate<Global>,
        desk: Desk,
        passes: Vec<Pass>,
        stations: Vec<Station>,
    ) -> Result<Opened<K>, LevelFault>
        requires opening { IsGateFor K.level config.now settling gate desk }
        requires first { AreFirst gate passes.items }
        ensures level { IfOk result (λ o. o.level ≡ gate) }
        ensures slots { IfOk result (λ o. o.slots.items ≡ passes.items) }
        ensures stations { IfOk result (λ o. o.stations.items ≡ stations.items) }
        ensures judged { IsJudged config.now gate.shape.slots result }
    {
        let shared = match config.limit_response {
            Response::Queue => queued::<K>(alloc, config, passes.len() as u32, settling, desk)?,
            Response::Reject => unqueued::<K>(desk),
        };
        let slots = unheld(alloc, passes)?;
        Ok(Opened {
            level: Level { gate, shared },
            slots,
            stations,
        })
    }
}

// A token for each slot, which nobody held yet.
fn unheld(alloc: Global, passes: Vec<Pass>) -> Result<Vec<Done>, AllocError>
    requires fresh { All (λ t. t.pass.state ≡ Fresh) passes.items }
    ensures same { IfOk result (λ s. s.items ≡ passes.items) }
{
    let mut slots = Vec::with_capacity(alloc, passes.len())?;
    for pass in passes {
        slots.push(Done { pass })?;
    }
    Ok(slots)
}

// The lock of a level with queues.
fn queued<K: Naming>(
    alloc: Global,
    config: &Config,
    slots: u32,
    settling: Settling,
    desk: Desk,
) -> Result<Shared<K>, LevelFault>
    requires opening { IsGateFor K.level config.now settling K.level.gate desk }
    requires slots { slots ≡ K.level.gate.shape.slots }
    requires has_queues { K.level.gate.shape.response ≡ Queue }
    ensures settings { OnOk result (AreSettings config.now slots) }
    ensures fault { IfErr result (IsFaultOf config.now slots) }
{
    every_level_has_histories();
    desk.is_of_a_gate();
    let dealer = match Dealer::new(config.queues, config.hand_size) {
        Ok(dealer) => dealer,
        Err(fault) => return Err(BookFault::Dealer(fault)),
    };
    let book = LifeBook::new(alloc, config, slots, desk, settling)?;
    let queued = Queued {
        book,
        sleepers: first_tickets(alloc, slots)?,
        slept: false,
        of: PhantomData,
    };
    let lock = QueuedLock {
        lock: Mutex::new(queued),
        dealer,
    };
    Ok(Shared::Queued(lock))
}

// The tickets of the first requests of the slots.
fn first_tickets(alloc: Global, slots: u32) -> Result<Vec<Ticket>, AllocError>
    ensures count { IfOk result (λ t. length t.items ≡ slots) }
    ensures own { IfOk result (λ t. All (λ one. one.number < slots) t.items) }
{
    let mut tickets = Vec::with_capacity(alloc, slots as usize)?;
    for slot in 0..slots {
        tickets.push(Ticket::of(slot))?;
    }
    Ok(tickets)
}

// The lock of a level without queues.
fn unqueued<K: Naming>(desk: Desk) -> Shared<K>
    requires own { desk_gate desk ≡ K.level.gate }
    requires fresh { desk.desk ≡ new_desk desk.desk.knows.shape }
    requires no_queues { K.level.gate.shape.response ≡ Reject }
{
    let unqueued = Unqueued {
        desk,
        of: PhantomData,
    };
    let lock = UnqueuedLock {
        lock: Mutex::new(unqueued),
    };
    Shared::Unqueued(lock)
}
