//! What requests came to, with how long those that were executed waited.

ghost use Rattle.std.specs.Prelude.{◌≡◌, ℕ, ◌+◌, ◌-◌, ◌^◌, ◌<◌, ◌≤◌, [], ◌∷◌, ◌++◌, List, OnOk, OnErr};
ghost use Rattle.apf_times.specs.Limits.{max_wait};
ghost use Rattle.apf_times.specs.Waits.{AreKept, number};
ghost use Rattle.apf_stream.specs.declared.ended.Ended.{Ended as EndedOf};
ghost use Rattle.apf_rows.specs.Accounts.{AreFigures, IsAccount, IsInReach, before, executed_wait};

use crate::sums::{Sums, wait};
use apf_stream::Ended;
use apf_times::Waits;
use apf_words::Decision;
use std::alloc::{AllocError, Global};
use std::marker::Model;

/// What requests came to, kept while they are told.
#[derive(Drop)]
pub struct Account {
    sums: Sums,
    waits: Waits<Global>,
}

impl Model for Account {
    ghost use Rattle.apf_rows.specs.Accounts.{AccountView, IsHeld};

    ghost Value = { AccountView };

    ghost view = { λ a. record { sums = a.sums; waits = a.waits } };

    ghost invariant = { λ a. IsHeld (record { sums = a.sums; waits = a.waits }) };
}

/// What requests came to, in numbers. Times are microseconds.
#[derive(Clone, Copy, Debug, PartialEq, Eq)]
pub struct Figures {
    pub sums: Sums,
    /// The median wait of those that were executed, or 0 if none was.
    pub median: u64,
    /// The 99th percentile of these waits.
    pub high: u64,
    /// Whether the two percentiles are exact. Of more than 10,000 waits they have their first eight binary digits.
    pub is_exact: bool,
}

// Adds the wait of a request that was decided so, if it was executed.
fn note(waits: &mut Waits<Global>, decision: Decision, wait: u64) -> Result<(), AllocError>
    requires in_range { wait ≤ max_wait }
    requires room { number waits.old < 2 ^ 64 - 1 }
    ensures kept { OnOk result ((others : List ℕ) → AreKept others waits.old → AreKept (before (executed_wait decision wait) others) waits.new) }
    ensures unchanged { OnErr result (waits.new ≡ waits.old) }
{
    match decision {
        Decision::Execute => {
            waits.add(wait)?;
            Ok(())
        }
        Decision::QueueFull | Decision::Closed | Decision::Cancelled | Decision::ConcurrencyLimit =>
            Ok(()),
    }
}

impl Account {
    /// Of no requests. No memory is taken.
    pub fn new(alloc: Global) -> Account
        ensures { IsAccount [] result }
    {
        Account {
            sums: Sums::NONE,
            waits: Waits::new(alloc),
        }
    }

    /// The counts and sums.
    pub fn sums(&self) -> Sums
        ensures { result ≡ self.now.sums }
    {
        self.sums
    }

    /// One request more was told. There are at most 2^64 - 1.
    ///
    /// # Errors
    ///
    /// `AllocError` if memory was refused. Then nothing changes.
    pub fn add(&mut self, ended: &Ended) -> Result<(), AllocError>
        requires reach { IsInReach ended.now }
        requires room { self.old.sums.requests < 2 ^ 64 - 1 }
        ensures added { OnOk result ((told : List EndedOf) → IsAccount told self.old → IsAccount (told ++ ended.now ∷ []) self.new) }
        ensures requests { OnOk result (self.new.sums.requests ≡ self.old.sums.requests + 1) }
        ensures unchanged { OnErr result (self.new ≡ self.old) }
    {
        note(&mut self.waits, ended.decision, wait(ended))?;
        self.sums = self.sums.with(ended);
        Ok(())
    }

    /// The figures. Waits that are kept as they are are sorted where they stand. Nothing is allocated.
    pub fn figures(&mut self) -> Figures
        ensures figures { (told : List EndedOf) → IsAccount told self.old → AreFigures told result }
        ensures same { (told : List EndedOf) → IsAccount told self.old → IsAccount told self.new }
    {
        let median = self.waits.percentile(50);
        let high = self.waits.percentile(99);
        Figures {
            sums: self.sums,
            median,
            high,
            is_exact: self.waits.is_exact(),
        }
    }
}
