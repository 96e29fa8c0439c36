//! What the readers' definitions say of the lines as they are written. The functions run no code: each contract is a law.

ghost use Rattle.apf_protocol.specs.Grammar.{IsReadRight, IsEveryLineRead};
ghost use Rattle.apf_protocol.specs.Shown.{IsEveryFaultShown};

use apf_explain::{every_flow_fault_is_told, every_unknown_key_is_named};

/// The law of what is read. The words that a line is read as are those that it is written of: numbers as their decimal
/// digits, one blank between words, and the text of an object behind an arrival's number. So no line has two forms.
pub fn every_form_is_its_line()
    ensures { IsReadRight }
{}

/// The law of what is written: each line of the forms is read, and as what it was written of. So a line that is refused
/// is none of them.
pub fn every_line_of_a_form_is_read()
    ensures { IsEveryLineRead }
{}

/// The law of an object's fault. Its text, which begins with a brace, is no JSON; or of its value, none of those that the
/// fault's line says may stand at its key stands there. Of an unknown key, the object has the one that the line names.
pub fn every_arrival_fault_is_shown()
    ensures { IsEveryFaultShown }
{
    every_flow_fault_is_told();
    every_unknown_key_is_named();
}
