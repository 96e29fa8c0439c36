//! What is true of every call of a level.

ghost use Rattle.std.specs.Prelude.{◌≡◌, ℕ, Bool, List, Option, All};
ghost use Rattle.apf_history.specs.declared.events.LogEntry.{LogEntry};
ghost use Rattle.apf_book.specs.declared.life_event.LifeEvent.{LifeEvent};
ghost use Rattle.apf_line.specs.Seats.{AreSeated};
ghost use Rattle.apf_local.specs.declared.answer.Answer.{Answer};
ghost use Rattle.apf_local.specs.declared.answer.Answer.TheVariants.{Released};
ghost use Rattle.apf_local.specs.declared.answer.Ask.{Ask};
ghost use Rattle.apf_local.specs.declared.answer.Place.{Place};
ghost use Rattle.apf_local.specs.declared.answer.Place.TheVariants.{Free};
ghost use Rattle.apf_local.specs.Levels.{LocalView, SameLocal, IsArrival, IsRenewal, IsArrivalOfRenewed, IsFinish};
ghost use Rattle.apf_local.specs.Seats.{AreSeatedIn, HeldSlot, KeepsSeats};
ghost use Rattle.apf_local.specs.Tries.{IsTry, IsReading, SlotsStay};

/// Each call of a level keeps what its log says of seats: each request that was settled held its seats then or later, and so
/// did each that was charged more while it ran, unless it executes still (`AreSeatedIn`). It is so of each log that the
/// level was of: an arrival, a try, a reading and a finish keep it, and each call that changes no slot. So when all slots are
/// free it is so of all, and the law of `apf_line` on levels that ended says by which bound their queues shared the seats.
///
/// A settlement that `finish_measured` puts before a log is of a request that held its seats then (`HeldSlot`), and what
/// `spend` puts before it is of one that executes. It runs no code: the contract is the law.
pub fn every_call_keeps_seats()
    ensures arrives { (slot : ℕ) (ask : Ask) (hand : List ℕ) (l l' : LocalView) (answer : Answer) (event : Option LifeEvent)
        → SameLocal l l' → IsArrival slot ask hand l answer event l' → KeepsSeats l l' }
    ensures renews { (slot : ℕ) (ask : Ask) (l l' : LocalView) (done : Bool) → SameLocal l l' → IsRenewal slot ask l done l' → KeepsSeats l l' }
    ensures arrives_renewed { (slot : ℕ) (l l' : LocalView) (answer : Answer) (event : Option LifeEvent)
        → SameLocal l l' → IsArrivalOfRenewed slot l answer event l' → KeepsSeats l l' }
    ensures tries { (slot : ℕ) (ask : Ask) (l l' : LocalView) (answer : Answer) → SameLocal l l' → IsTry slot ask l answer l' → KeepsSeats l l' }
    ensures reads { (slot : ℕ) (l l' : LocalView) (place : Place) → SameLocal l l' → IsReading slot l place l' → KeepsSeats l l' }
    ensures finishes { (slot : ℕ) (l l' : LocalView) (answer : Answer)
        → SameLocal l l' → IsFinish slot l answer l' → (answer ≡ Released → HeldSlot slot l l') → KeepsSeats l l' }
    ensures stays { (l l' : LocalView) → SameLocal l l' → SlotsStay l l' → KeepsSeats l l' }
    ensures idle { (l : LocalView) (log : List LogEntry) → All (λ p. p ≡ Free) l.places → AreSeatedIn l log
        → AreSeated l.owner.gate.shape l.owner.book.desk.desk.knows.trace log }
{}
