//! What the definitions say of widths, of numbers and of texts. The functions run no code: their contracts are laws.

ghost use Rattle.apf_service.specs.Widths.{IsEveryWidthKept};
ghost use Rattle.apf_service.specs.Counted.{IsEveryRequestCounted};
ghost use Rattle.apf_service.specs.Serving.{IsEveryTextWritten};

/// The law of widths: the width that the next request of a slot asks for is the one that its number says. So the seats
/// that are counted are those that were asked for.
#[tactic(auto, using(crate::proofs::Keeps::coded_next))]
pub fn every_width_is_kept()
    ensures { IsEveryWidthKept }
{}

/// The law of numbers: each arrival is counted once, and so is each attempt that was not busy. No other line, and
/// nothing that follows of one, changes how many the executed, the rejected, the cancelled and the waiting are together.
#[tactic(auto, using(crate::proofs::Counting::every_counted))]
pub fn every_request_is_counted()
    ensures { IsEveryRequestCounted }
{}

/// The law of texts: where each text of a session is stated, the writer got all of them, one behind the other, and nothing else.
#[tactic(auto, using(crate::proofs::Answering::all_written))]
pub fn every_text_is_written()
    ensures { IsEveryTextWritten }
{}
