//! The first of what came, where what comes may be late by a number of places.

ghost use Rattle.std.specs.Prelude.{◌≡◌, ◌≢◌, ◌<◌, ◌≤◌, [], ◌∷◌, ◌↔◌, true, false, None, length, slice_index_or, Err, IfOk, IsOk, IsPermutation, OnErr, OnOk};
ghost use Rattle.std.specs.BinaryHeap.{IsHeap, heap_capacity, heap_items};
ghost use Rattle.std.specs.VecDeque.{deque_capacity};
ghost use Rattle.std.specs.List.{AllByRecursion};
ghost use Rattle.std.specs.declared.cmp.Reverse.{Reverse as ReverseOf};
ghost use Rattle.apf_times.specs.declared.window.Arrival.{Arrival as ArrivalOf};
ghost use Rattle.apf_times.specs.declared.window.WindowError.TheVariants.{NoMemory, TooLate};
ghost use Rattle.apf_times.specs.Windows.{IsHandedOut, IsPopped, IsPushed, NoneBefore, WindowView, all_held, is_late, place_cmp, precedes, unwrapped};
ghost use Rattle.apf_times.specs.WindowRuns.{AreInPlace};

use std::alloc::{AllocError, Allocator};
use std::cmp::Reverse;
use std::collections::{BinaryHeap, VecDeque};
use std::marker::Model;

/// When something arrives, and its line. The earlier arrival comes first, and of one time the lower line.
#[derive(Clone, Copy, Debug, PartialEq, Eq, PartialOrd, Ord)]
pub struct Place {
    /// In microseconds.
    pub arrives_at: u64,
    pub line: u64,
}

impl Place {
    // Whether it comes before the other one.
    fn is_before(self, other: Place) -> bool
        ensures { result ≡ precedes self other }
    {
        self < other
    }
}

/// Something, with its place.
#[derive(Drop)]
#[derive_where(PartialEq, Eq, PartialOrd, Ord)]
pub struct Arrival<T> {
    pub place: Place,
    #[derive_where(skip(EqHashOrd))]
    pub item: T,
}

/// Why a window did not take something.
#[derive(Clone, Copy, Debug, PartialEq, Eq)]
pub enum WindowError {
    /// It is before what was handed out.
    TooLate,
    NoMemory,
}

impl From<AllocError> for WindowError {
    ghost from_gives = { λ refused error. error ≡ NoMemory };

    fn from(_: AllocError) -> WindowError {
        WindowError::NoMemory
    }
}

/// What came, until this many more came. It hands out the first of them once it holds more than its size, so
/// what comes may be late by as many places. It takes memory as it comes to hold more, and none any more once
/// more came than its size.
///
/// What comes behind all that came before it takes the same time, whatever the size. The rest takes longer,
/// the more of it is held.
#[derive(Drop)]
pub struct Window<T: Drop, A: Allocator> {
    // each came behind all that were here
    in_order: VecDeque<Arrival<T>, A>,
    // the others
    late: BinaryHeap<Reverse<Arrival<T>>, A>,
    last: Option<Place>,
    size: usize,
}

impl<T: Drop, A: Allocator> Model for Window<T, A> {
    ghost use Rattle.std.specs.Prelude.{min};
    ghost use Rattle.std.specs.BinaryHeap.{IsHeap, heap_capacity, heap_items};
    ghost use Rattle.std.specs.VecDeque.{deque_capacity};
    ghost use Rattle.apf_times.specs.Windows.{WindowView, all_held, place_cmp};
    ghost use Rattle.apf_times.specs.WindowRuns.{AreInPlace};

    ghost Value = { WindowView T };

    ghost view = { λ w. record { held = all_held w.in_order.items (heap_items w.late); last = w.last; size = w.size; room = min (deque_capacity w.in_order) (heap_capacity w.late) } };

    ghost invariant = { λ w. AreInPlace w.in_order.items × IsHeap (λ x y. place_cmp y.0.place x.0.place) (heap_items w.late) };
}

// Whether nothing of what came in order is behind this place.
fn is_behind<T: Drop, A: Allocator>(in_order: &VecDeque<Arrival<T>, A>, place: Place) -> bool
    ensures { result ≡ true → AreInPlace in_order.now.items → AllByRecursion (λ x. precedes place x.place ≡ false) in_order.now.items }
{
    match in_order.back() {
        Some(last) => !place.is_before(last.place),
        None => true,
    }
}

// Whether the first of all that is held came late.
fn is_late_first<T: Drop, A: Allocator>(
    in_order: &VecDeque<Arrival<T>, A>,
    late: &BinaryHeap<Reverse<Arrival<T>>, A>,
) -> bool
    requires order { AreInPlace in_order.now.items }
    requires heap { IsHeap (λ x y. place_cmp y.0.place x.0.place) (heap_items late.now) }
    ensures late { result ≡ true → (x : ReverseOf (ArrivalOf T)) → x ≡ slice_index_or (heap_items late.now) 0 x → NoneBefore x.0 in_order.now.items }
    ensures some { result ≡ true → 0 < length (heap_items late.now) }
    ensures in_order { result ≡ false → (x : ArrivalOf T) → x ≡ slice_index_or in_order.now.items 0 x → 0 < length in_order.now.items → NoneBefore x (unwrapped (heap_items late.now)) }
    ensures none { result ≡ false → length in_order.now.items ≡ 0 → heap_items late.now ≡ [] }
{
    match (late.peek(), in_order.front()) {
        (Some(Reverse(late)), Some(first)) => late.place.is_before(first.place),
        (late, _) => late.is_some(),
    }
}

// Takes the first of all that is held out of where it stands.
fn take_first<T: Drop, A: Allocator>(
    in_order: &mut VecDeque<Arrival<T>, A>,
    late: &mut BinaryHeap<Reverse<Arrival<T>>, A>,
) -> Option<Arrival<T>>
    requires order { AreInPlace in_order.old.items }
    requires heap { IsHeap (λ x y. place_cmp y.0.place x.0.place) (heap_items late.old) }
    ensures taken { IsHandedOut (all_held in_order.old.items (heap_items late.old)) result (all_held in_order.new.items (heap_items late.new)) }
    ensures order { AreInPlace in_order.new.items }
    ensures heap { IsHeap (λ x y. place_cmp y.0.place x.0.place) (heap_items late.new) }
    ensures room { (deque_capacity in_order.new ≡ deque_capacity in_order.old) × (heap_capacity late.new ≡ heap_capacity late.old) }
{
    if is_late_first(in_order, late) {
        let Reverse(first) = late.pop()?;
        return Some(first);
    }
    in_order.pop_front()
}

impl<T: Drop, A: Allocator + Copy> Window<T, A> {
    /// It holds nothing, and takes no memory. It will hold `size` at most.
    pub fn new(alloc: A, size: usize) -> Window<T, A>
        ensures held { result.held ≡ [] }
        ensures last { result.last ≡ None }
        ensures size { result.size ≡ size }
    {
        Window {
            in_order: VecDeque::new(alloc),
            late: BinaryHeap::new(alloc),
            last: None,
            size,
        }
    }
}

impl<T: Drop, A: Allocator> Window<T, A> {
    // How many are held.
    fn len(&self) -> usize
        ensures { result ≡ length self.now.held }
    {
        self.in_order.len() + self.late.len()
    }

    // Takes memory for one more, wherever it goes: for twice as many as before, but for no more than ever are
    // held.
    fn make_room(&mut self) -> Result<(), AllocError>
        ensures held { self.new.held ≡ self.old.held }
        ensures last { self.new.last ≡ self.old.last }
        ensures size { self.new.size ≡ self.old.size }
        ensures grows { self.old.room ≤ self.new.room }
        ensures room { OnOk result (length self.old.held < self.new.room) }
        ensures succeeds { length self.old.held < self.old.room → IsOk result }
    {
        let held = self.len();
        if held < self.in_order.capacity() && held < self.late.capacity() {
            return Ok(());
        }
        let most = self.size.saturating_sub(held);
        let room = (held + 1).saturating_add(held.max(3).min(most));
        self.in_order.reserve_exact(room - self.in_order.len())?;
        self.late.reserve(room - self.late.len())
    }

    // This is held too.
    fn hold(&mut self, arrival: Arrival<T>) -> Result<(), AllocError>
        ensures joins { OnOk result (IsPermutation (arrival ∷ self.old.held) self.new.held) }
        ensures unchanged { OnErr result (self.new.held ≡ self.old.held) }
        ensures last { self.new.last ≡ self.old.last }
        ensures size { self.new.size ≡ self.old.size }
        ensures grows { self.old.room ≤ self.new.room }
        ensures room { OnOk result (length self.old.held < self.new.room) }
        ensures succeeds { length self.old.held < self.old.room → IsOk result }
    {
        self.make_room()?;
        if is_behind(&self.in_order, arrival.place) {
            self.in_order.push_back(arrival)?;
        } else {
            self.late.push(Reverse(arrival))?;
        }
        Ok(())
    }

    /// Takes what came, and hands out the first of all that is held, or `None` while no more are held than
    /// the size.
    ///
    /// # Errors
    ///
    /// [`WindowError`]: it is before what was handed out last, or memory was refused. Then nothing changes.
    pub fn push(&mut self, place: Place, item: T) -> Result<Option<Arrival<T>>, WindowError>
        ensures pushed { IfOk result (λ out. IsPushed (record { place = place; item = item }) self.old out self.new) }
        ensures late { (result ≡ Err TooLate) ↔ (is_late place self.old.last ≡ true) }
        ensures held { OnErr result (self.new.held ≡ self.old.held) }
        ensures last { OnErr result (self.new.last ≡ self.old.last) }
        ensures size { self.new.size ≡ self.old.size }
        ensures room { self.old.room ≤ self.new.room }
        ensures has_room { OnOk result (length self.old.held < self.new.room) }
        ensures succeeds { length self.old.held < self.old.room → result ≢ Err NoMemory }
    {
        if self.last.is_some_and(|last| place < last) {
            return Err(WindowError::TooLate);
        }
        self.hold(Arrival { place, item })?;
        if self.len() <= self.size {
            return Ok(None);
        }
        Ok(self.pop())
    }

    /// The first of what is held, which is handed out, or `None` if nothing is held. At the end of what
    /// comes this hands out the rest.
    pub fn pop(&mut self) -> Option<Arrival<T>>
        ensures popped { IsPopped self.old result self.new }
        ensures size { self.new.size ≡ self.old.size }
        ensures room { self.new.room ≡ self.old.room }
    {
        let first = take_first(&mut self.in_order, &mut self.late)?;
        self.last = Some(first.place);
        Some(first)
    }
}
