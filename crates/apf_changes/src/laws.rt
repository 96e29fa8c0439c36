//! What holds of every text, and of every change.

ghost use Rattle.std.specs.Prelude.{◌≡◌, ℕ, ◌++◌, ◌∷◌, false, Ok, MatchOption};
ghost use Rattle.apf_objects.specs.Rules.{Text};
ghost use Rattle.apf_changes.specs.Applying.{with_change, AreInOrder, AreInRange};
ghost use Rattle.apf_changes.specs.Changes.{ChangeSaid};
ghost use Rattle.apf_changes.specs.Reading.{change_of, of_name, written};
ghost use Rattle.apf_changes.specs.Scenarios.{ScenarioSaid};
ghost use Rattle.apf_changes.specs.Texts.{around_last, dot, equals_sign, has};

/// The law of keys. A setting without a dot and a value without `=` are read of every name, whatever it holds. It runs no code: the
/// contract is the law.
pub fn every_key_is_read()
    ensures { (name setting value : Text) → has dot setting ≡ false → has equals_sign value ≡ false
        → change_of (written name setting value) ≡ of_name name setting value }
{}

/// The law of sides. A text that has a byte has sides: the text is the front, the byte and the back, which has no such byte. A text
/// that has none has no sides. It runs no code: the contract is the law.
pub fn every_text_has_its_sides()
    ensures { (byte : ℕ) (text : Text) → MatchOption (around_last byte text) (has byte text ≡ false)
        (λ sides. (text ≡ sides.front ++ byte ∷ sides.back) × (has byte sides.back ≡ false)) }
{}

/// The law of the order. Where the schemas stand in their order, they do so after each change. It runs no code: the contract is the law.
pub fn every_change_keeps_the_order()
    ensures { (change : ChangeSaid) (before after : ScenarioSaid) → with_change change before ≡ Ok after
        → AreInOrder before.cluster.schemas → AreInOrder after.cluster.schemas }
{}

/// The law of ranges. Where the settings of all levels are in their ranges, as those of objects are, they are so after each change. It
/// runs no code: the contract is the law.
pub fn every_change_keeps_the_ranges()
    ensures { (change : ChangeSaid) (before after : ScenarioSaid) → with_change change before ≡ Ok after
        → AreInRange before.cluster.levels → AreInRange after.cluster.levels }
{}
