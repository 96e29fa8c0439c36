//! A slot goes on to its next request.

ghost use Rattle.std.specs.Prelude.{◌≡◌, ◌≤◌, ◌↔◌, length, true, false, Option, Some};
ghost use Rattle.apf_words.specs.declared.decision.Decision.{Decision};
ghost use Rattle.apf_gate.specs.Records.{own_width};
ghost use Rattle.apf_gate.specs.Traces.{asked_in};
ghost use Rattle.apf_gate.specs.PassSteps.{PassRenews};
ghost use Rattle.apf_line.specs.Tokens.{IsDone};
ghost use Rattle.apf_line.specs.Attempts.{IsFreshPass};
ghost use Rattle.apf_words.specs.Limits.{max_cost, max_width};
ghost use Rattle.apf_gate.specs.Slots.{next_of};
ghost use Rattle.apf_gate.specs.Tokens.{pass_gate};
ghost use Rattle.apf_level.specs.LifeAdmission.{Renews, SaysSpent};

use crate::life::answers::Renewed;
use crate::life::level::Level;
use crate::life::naming::Naming;
use crate::life::tokens::{Done, Pass};
use apf_gate::Renew;
use apf_model::Ask;

impl<K: Naming> Level<K> {
    /// The slot goes on to its next request, which asks for this: a width of 1 to 20,000 seats, and the hash of its
    /// flow. Its dispatch is charged its width. It takes no lock and no memory: it makes one swap of the slot's word.
    ///
    /// The request before is as it was decided, for ever. `Spent` exactly if the slot's numbers are used up: a slot is
    /// given 2^46 times.
    pub fn renew(&self, done: Done, ask: Ask) -> Renewed
        requires own { pass_gate done ≡ K.level.gate }
        requires some_width { 1 ≤ ask.width }
        requires narrow { ask.width ≤ max_width }
        ensures renews { Renews done ask.width ask.hash ask.width result }
        ensures spent { SaysSpent result ↔ (length K.level.gate.shape.widths ≤ next_of done.pass.number ask.width) }
    {
        self.renew_with_cost(done, ask, ask.width)
    }

    /// As `renew`, but its dispatch is charged this cost, of 1 to 4,294,967,295 in a unit of the caller's.
    pub fn renew_with_cost(&self, done: Done, ask: Ask, cost: u32) -> Renewed
        requires own { pass_gate done ≡ K.level.gate }
        requires some_width { 1 ≤ ask.width }
        requires narrow { ask.width ≤ max_width }
        requires some_cost { 1 ≤ cost }
        requires low_cost { cost ≤ max_cost }
        ensures renews { Renews done ask.width ask.hash cost result }
        ensures spent { SaysSpent result ↔ (length K.level.gate.shape.widths ≤ next_of done.pass.number ask.width) }
    {
        let mut pass = done.into_pass();
        if self.renew_slot(&mut pass, ask, cost) {
            Renewed::Fresh(Pass {
                pass,
                hash: ask.hash,
                cost,
            })
        } else {
            Renewed::Spent(Done { pass })
        }
    }

    /// The slot goes on to its next request, which asks for this: a width of 1 to 20,000 seats, the hash of its flow,
    /// and a cost of 1 to 4,294,967,295 in a unit of the caller's. Answers whether it did: no, exactly if the slot's
    /// numbers are used up, and then nothing changed. The slot's Pass stays in its place, and is fresh then. It takes
    /// no lock and no memory: it makes one swap of the slot's word.
    #[must_use]
    pub fn renew_slot(&self, pass: &mut apf_gate::Pass, ask: Ask, cost: u32) -> bool
        requires own { pass_gate pass.old ≡ K.level.gate }
        requires done { IsDone pass.old }
        requires some_width { 1 ≤ ask.width }
        requires narrow { ask.width ≤ max_width }
        ensures spent { result ≡ false → pass.new ≡ pass.old }
        ensures spent_only { (result ≡ false) ↔ (length K.level.gate.shape.widths ≤ next_of pass.old.pass.number ask.width) }
        ensures fresh { result ≡ true → IsFreshPass K.level.gate pass.new }
        ensures wide { result ≡ true → own_width pass.new.pass ≡ ask.width }
        ensures renews { result ≡ true → ((found : Option Decision) × PassRenews (next_of pass.old.pass.number ask.width) (record { hash = ask.hash; cost = cost }) pass.old.pass found pass.new.pass) }
        ensures asks { result ≡ true → asked_in pass.new.pass.knows.trace pass.new.pass.number ≡ Some (record { hash = ask.hash; cost = cost }) }
    {
        match self.gate.renew(pass, ask.width, ask.hash, cost) {
            Renew::Began(_decision) => true,
            Renew::Spent => false,
        }
    }
}
