//! What the steps of a script made owed, and did not spend yet.

use apf_level::{Level, Naming, Owed, OwedStrike, Owes};
use std::alloc::{AllocError, Global};
use std::sync::Wait;

/// Dispatches and strikes that are owed at the level that K names.
pub struct Debts<K: Naming> {
    dispatches: Vec<Owed<K>>,
    strikes: Vec<OwedStrike<K>>,
}

impl<K: Naming> Debts<K> {
    /// Nothing is owed, and there is room for what this many steps make owed.
    pub fn new(alloc: Global, steps: usize) -> Result<Debts<K>, AllocError> {
        let dispatches = Vec::with_capacity(alloc, steps)?;
        match Vec::with_capacity(alloc, steps) {
            Ok(strikes) => Ok(Debts {
                dispatches,
                strikes,
            }),
            Err(refused) => {
                dispatches.destroy_empty();
                Err(refused)
            }
        }
    }

    /// Keeps the dispatch, if one is owed.
    pub fn keep<R: Wait>(&mut self, rt: &R, level: &Level<K>, owes: Owes<K>) {
        let Some(owed) = owes.left() else {
            return;
        };
        if let Err(refused) = self.dispatches.push(owed) {
            refused.value.dispatch(rt, &mut level.lock(rt));
        }
    }

    /// Keeps the strike, if one is owed.
    pub fn keep_strike<R: Wait>(&mut self, rt: &R, level: &Level<K>, owed: Option<OwedStrike<K>>) {
        let Some(owed) = owed else {
            return;
        };
        if let Err(refused) = self.strikes.push(owed) {
            refused.value.strike(rt, &mut level.lock(rt));
        }
    }

    /// Spends all that is owed.
    pub fn spend<R: Wait>(self, rt: &R, level: &Level<K>) {
        let Debts {
            mut dispatches,
            mut strikes,
        } = self;
        while let Some(owed) = dispatches.pop() {
            owed.dispatch(rt, &mut level.lock(rt));
        }
        dispatches.destroy_empty();
        while let Some(owed) = strikes.pop() {
            owed.strike(rt, &mut level.lock(rt));
        }
        strikes.destroy_empty();
    }
}
