//! The slots, and what is due first.

ghost use Rattle.std.specs.Prelude.{◌≡◌, ℕ, slice_index, ◌+◌, ◌*◌, ◌^◌, ◌<◌, ◌≤◌, true, None, Some, replicate, length, slice_get, slice_set, IfOk, IfSome, IfNone, OnOk, OnErr};
ghost use Rattle.apf_times.specs.declared.due.Due.{Due};
ghost use Rattle.apf_calendar.specs.declared.guest.Guest.{Guest as GuestOf};
ghost use Rattle.apf_times.specs.Courses.{AreInRange};
ghost use Rattle.apf_times.specs.Dues.{giving_up, finish};
ghost use Rattle.apf_times.specs.Limits.{max_patience, max_wait};
ghost use Rattle.apf_least.specs.Least.{no_number};
ghost use Rattle.apf_calendar.specs.declared.guest.Stay.TheVariants.{Waits};
ghost use Rattle.apf_calendar.specs.Guests.{SlotsView, IsFree, WaitsIn, with_slot, NothingBy, IsNext, CarriesOut, Starts, EndsTooFar, due_of, then_of};
ghost use Rattle.apf_calendar.specs.Kept.{key_if, key_in, free_in, IsKeptGuest};

use crate::MOST_TIME;
use crate::guest::{Guest, Stay};
use apf_least::{LeastTree, NO_NUMBER};
use apf_times::Times;
use std::alloc::{AllocError, Allocator};
use std::marker::Model;

/// What was carried out: the request finished, or the end of its patience came.
#[derive(Clone, Copy, Debug, PartialEq, Eq)]
pub struct Carried {
    /// The slot that the request is in, or was in if it finished.
    pub slot: u32,
    /// The request as it was before. It finished if it had its seats, and else the end of its patience came.
    pub guest: Guest,
    /// When it was due, in microseconds.
    pub at: u64,
}

/// A request would finish later than [`MOST_TIME`].
#[derive(Clone, Copy, Debug, PartialEq, Eq)]
pub struct TooFar;

/// The slots, who is in them, the time, and what is due first.
#[derive(Drop)]
pub struct SlotCalendar<A: Allocator> {
    slots: Vec<Option<Guest>, A>,
    dues: LeastTree<A>,
    frees: LeastTree<A>,
    patience: u64,
    time: u64,
}

impl<A: Allocator> Model for SlotCalendar<A> {
    ghost use Rattle.apf_calendar.specs.Guests.{SlotsView};
    ghost use Rattle.apf_calendar.specs.Kept.{AreKept};

    ghost Value = { SlotsView };

    ghost view = { λ c. record { time = c.time; patience = c.patience; slots = c.slots.items } };

    ghost invariant = { λ c. AreKept (record { time = c.time; patience = c.patience; slots = c.slots.items }) c.dues c.frees };
}

// How many numbers of lines there may be.
const LINES: u128 = 1 << 64;

// What is due at this time, as one number. Of one time a finish, of turn 0, comes before the end of a patience, of turn 1.
fn number(at: u64, turn: u64, line: u64) -> u128
    requires low { at ≤ max_wait }
    requires one { turn ≤ 1 }
    ensures { result ≡ (2 * at + turn) * 2 ^ 64 + line }
{
    u128::from(2 * at + turn) * LINES + u128::from(line)
}

// When something is due of the guest, if anything is.
#[tactic(auto, using(crate::proofs::Dues::due_holds, crate::proofs::Dues::due_waits))]
fn due_at(patience: u64, guest: Guest) -> Option<u64>
    requires patience { patience ≤ max_patience }
    requires range { AreInRange guest.times }
    requires low { (d : Due) → due_of patience guest ≡ Some d → d.at ≤ max_wait }
    ensures some { IfSome result (λ at. (d : Due) × (due_of patience guest ≡ Some d) × (at ≡ d.at)) }
    ensures none { IfNone result (due_of patience guest ≡ None) }
{
    match guest.stay {
        Stay::Waits if patience == 0 => None,
        Stay::Waits => Some(guest.times.arrives_at + patience),
        Stay::Impatient => None,
        Stay::Holds(since) => Some(since + guest.times.runs_for),
    }
}

// What is due of the guest, as one number.
#[tactic(auto, using(crate::proofs::Dues::due_holds, crate::proofs::Dues::due_waits), unfolding(crate::specs::Kept::key))]
fn key_of(patience: u64, guest: Guest) -> u128
    requires patience { patience ≤ max_patience }
    requires range { AreInRange guest.times }
    requires low { (d : Due) → due_of patience guest ≡ Some d → d.at ≤ max_wait }
    ensures { result ≡ key_if (due_of patience guest) }
{
    match guest.stay {
        Stay::Waits if patience == 0 => NO_NUMBER,
        Stay::Waits => number(guest.times.arrives_at + patience, 1, guest.line),
        Stay::Impatient => NO_NUMBER,
        Stay::Holds(since) => number(since + guest.times.runs_for, 0, guest.line),
    }
}

// What is due of who is in the slot, as one number, and the slot as that of one which is free.
fn numbers_of(patience: u64, slot: u32, guest: Option<Guest>) -> (u128, u128)
    requires patience { patience ≤ max_patience }
    requires range { (g : GuestOf) → guest ≡ Some g → AreInRange g.times }
    requires low { (g : GuestOf) → guest ≡ Some g → (d : Due) → due_of patience g ≡ Some d → d.at ≤ max_wait }
    ensures due { result.0 ≡ key_in patience (Some guest) }
    ensures free { result.1 ≡ free_in slot (Some guest) }
{
    match guest {
        Some(guest) => (key_of(patience, guest), NO_NUMBER),
        None => (NO_NUMBER, u128::from(slot)),
    }
}

impl Guest {
    // Who is in the slot once what was due of the request was carried out.
    fn then(self) -> Option<Guest>
        ensures { result ≡ then_of self }
    {
        match self.stay {
            Stay::Waits | Stay::Impatient => Some(Guest {
                stay: Stay::Impatient,
                ..self
            }),
            Stay::Holds(_) => None,
        }
    }
}

// This many slots, in which nobody is.
fn nobody<A: Allocator>(alloc: A, slots: usize) -> Result<Vec<Option<Guest>, A>, AllocError>
    ensures { IfOk result (λ v. v.items ≡ replicate slots None) }
{
    Ok(vec![in alloc; None; slots]?)
}

impl<A: Allocator + Copy> SlotCalendar<A> {
    /// This many free slots, at time 0. A request gives up if it waits as long as `patience` in microseconds, or never at
    /// 0. All memory is taken here.
    ///
    /// # Errors
    ///
    /// `AllocError` if memory was refused.
    pub fn new(alloc: A, slots: u32, patience: u64) -> Result<SlotCalendar<A>, AllocError>
        requires some { 1 ≤ slots }
        requires few { slots ≤ 2 ^ 31 }
        requires patience { patience ≤ max_patience }
        ensures { IfOk result (λ c. c ≡ record { time = 0; patience = patience; slots = replicate slots None }) }
    {
        let held = nobody(alloc, slots as usize)?;
        let dues = LeastTree::new(alloc, slots)?;
        let frees = all_free(alloc, slots)?;
        Ok(SlotCalendar {
            slots: held,
            dues,
            frees,
            patience,
            time: 0,
        })
    }
}

// The tree of the free slots, where all are free.
fn all_free<A: Allocator>(alloc: A, slots: u32) -> Result<LeastTree<A>, AllocError>
    requires few { slots ≤ 2 ^ 31 }
    ensures room { IfOk result (λ t. slots ≤ length t) }
    ensures free { IfOk result (λ t. (i : ℕ) → i < length t → slice_index t i ≡ free_in i (slice_get (replicate slots None) i)) }
{
    let mut frees = LeastTree::new(alloc, slots)?;
    for slot in 0..slots {
        frees.set(slot, u128::from(slot));
    }
    Ok(frees)
}

impl<A: Allocator> SlotCalendar<A> {
    /// The time of what was carried out last, or 0.
    pub fn time(&self) -> u64
        ensures time { result ≡ self.now.time }
        ensures low { result ≤ max_wait }
    {
        self.time
    }

    /// How many slots there are.
    pub fn len(&self) -> usize
        ensures { result ≡ length self.now.slots }
    {
        self.slots.len()
    }

    /// Who is in the slot.
    pub fn guest(&self, slot: u32) -> Option<Guest>
        requires { slot < length self.now.slots }
        ensures { slice_get self.now.slots slot ≡ Some result }
    {
        self.slots[slot as usize]
    }

    /// The first free slot, or `None` if none is free.
    pub fn free_slot(&self) -> Option<u32>
        ensures some { IfSome result (IsFree self.now) }
        ensures first { IfSome result (λ slot. (i : ℕ) → IsFree self.now i → slot ≤ i) }
        ensures none { IfNone result ((i : ℕ) → IsFree self.now i → ⊥) }
    {
        self.frees.first_least(0)
    }

    // This guest is in the slot now, or nobody is.
    fn put(&mut self, slot: u32, guest: Option<Guest>)
        requires is_slot { slot < length self.old.slots }
        requires kept { (g : GuestOf) → guest ≡ Some g → IsKeptGuest self.old.time self.old.patience g }
        ensures { self.new ≡ with_slot self.old slot guest }
    {
        let (due, free) = numbers_of(self.patience, slot, guest);
        self.slots[slot as usize] = guest;
        self.dues.set(slot, due);
        self.frees.set(slot, free);
    }

    // What is due first, or `None` if nothing is due.
    fn first_due(&self) -> Option<Carried>
        ensures some { IfSome result (λ c. IsNext self.now c) }
        ensures none { IfNone result ((by : ℕ) → NothingBy self.now by) }
    {
        let Some(slot) = self.dues.first_least(0) else {
            return None;
        };
        let Some(guest) = self.slots[slot as usize] else {
            unreachable!()
        };
        let Some(at) = due_at(self.patience, guest) else {
            unreachable!()
        };
        Some(Carried { slot, guest, at })
    }

    /// Carries out what is due first, if it is due up to this time, and answers it. Time goes on to it. A request that
    /// finishes leaves its slot. One whose patience ends waits still, until it leaves or is given its seats.
    pub fn next_by(&mut self, by: u64) -> Option<Carried>
        ensures some { IfSome result (λ c. CarriesOut self.old by c self.new) }
        ensures none { IfNone result (NothingBy self.old by) }
        ensures unchanged { IfNone result (self.new ≡ self.old) }
        ensures forward { self.old.time ≤ self.new.time }
    {
        let Some(carried) = self.first_due() else {
            return None;
        };
        if by < carried.at {
            return None;
        }
        self.time = carried.at;
        self.put(carried.slot, carried.guest.then());
        Some(carried)
    }

    /// A request arrives, and waits in this free slot. Time goes on to its arrival: nothing is due up to then.
    pub fn arrive(&mut self, slot: u32, line: u64, times: Times)
        requires free { IsFree self.old slot }
        requires range { AreInRange times }
        requires forward { self.old.time ≤ times.arrives_at }
        requires over { NothingBy self.old times.arrives_at }
        ensures { self.new ≡ record { time = times.arrives_at; patience = self.old.patience; slots = slice_set self.old.slots slot (Some (record { line = line; times = times; stay = Waits })) } }
    {
        self.time = times.arrives_at;
        self.put(
            slot,
            Some(Guest {
                line,
                times,
                stay: Stay::Waits,
            }),
        );
    }

    /// Time goes on to this one, in microseconds: nothing is due up to then.
    pub fn go_on(&mut self, at: u64)
        requires low { at ≤ max_wait }
        requires forward { self.old.time ≤ at }
        requires over { NothingBy self.old at }
        ensures { self.new ≡ record { time = at; patience = self.old.patience; slots = self.old.slots } }
    {
        self.time = at;
    }

    /// The request of this slot, which waits, is given its seats now.
    ///
    /// # Errors
    ///
    /// [`TooFar`] if it would finish later than [`MOST_TIME`]. Then nothing changes.
    pub fn start(&mut self, slot: u32) -> Result<(), TooFar>
        requires waits { WaitsIn self.old slot }
        ensures started { OnOk result (Starts self.old slot self.new) }
        ensures too_far { OnErr result (EndsTooFar max_wait self.old slot) }
        ensures unchanged { OnErr result (self.new ≡ self.old) }
    {
        let Some(guest) = self.slots[slot as usize] else {
            unreachable!()
        };
        if self.time + guest.times.runs_for > MOST_TIME {
            return Err(TooFar);
        }
        self.put(
            slot,
            Some(Guest {
                stay: Stay::Holds(self.time),
                ..guest
            }),
        );
        Ok(())
    }

    /// The request of this slot, which waits, leaves.
    pub fn leave(&mut self, slot: u32)
        requires waits { WaitsIn self.old slot }
        ensures { self.new ≡ with_slot self.old slot None }
    {
        self.put(slot, None);
    }
}
