//! What holds of every name. The function runs no code: its contract is a law.

ghost use Rattle.std.specs.Prelude.{ℕ, List};
ghost use Rattle.apf_picture.specs.Names.{escaped, IsXmlText};

/// The law of an escaped name. It has no `<`, no `>` and no double quote, and each `&` of it begins one of five references.
pub fn every_name_is_escaped()
    ensures { (name : List ℕ) → IsXmlText (escaped name) }
{}
