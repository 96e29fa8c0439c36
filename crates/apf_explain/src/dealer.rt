//! The line of a config whose hands can't be dealt.

ghost use Rattle.std.specs.Prelude.{◌≡◌, OnOk, IfErr};
ghost use Rattle.std.specs.Io.KnownBytes.{Appends};
ghost use Rattle.apf_explain.specs.Lines.{dealer_text};

use crate::fault::ExplainFault;
use apf_files::Config;
use apf_flow::DealerFault;
use std::io;
use std::io::Write;

fn write_dealer<W: Write>(
    out: &mut W,
    name: &str,
    queues: u32,
    hand_size: u32,
    fault: DealerFault,
) -> io::Result<()>
    ensures { OnOk result (Appends (W.contents out.old) (W.contents out.new) (dealer_text name.now queues hand_size fault)) }
{
    match fault {
        DealerFault::NotPositive => writeln!(
            out,
            "{name}: handSize is {hand_size} and queues is {queues}: both must be at least 1 (8 and 64 if absent)"
        ),
        DealerFault::HandTooLarge => writeln!(
            out,
            "{name}: handSize is {hand_size} and queues is {queues}: a hand can't have more queues than there are (8 and 64 if absent)"
        ),
        DealerFault::DeckTooLarge => writeln!(
            out,
            "{name}: queues is {queues}: it must be at most 2 to the power of 26 (64 if absent)"
        ),
        DealerFault::TooMuchEntropy => writeln!(
            out,
            "{name}: handSize is {hand_size} and queues is {queues}: queues to the power of handSize must be at most 2 to the power of 60 (8 and 64 if absent)"
        ),
    }
}

/// Writes why the hands of a config can't be dealt, as one line for a person.
///
/// `fault` is what `Dealer::new` answers for the config's queues and hand size. A config that was read has only the
/// faults `HandTooLarge` and `TooMuchEntropy`.
///
/// # Errors
///
/// [`ExplainFault::CannotWrite`] if the writer failed.
pub fn explain_dealer<W: Write>(
    name: &str,
    config: &Config,
    fault: DealerFault,
    out: &mut W,
) -> Result<(), ExplainFault>
    ensures ok { OnOk result (Appends (W.contents out.old) (W.contents out.new) (dealer_text name.now config.now.queues config.now.hand_size fault)) }
    ensures err { IfErr result (λ told. told ≡ ExplainFault.CannotWrite) }
{
    Ok(write_dealer(out, name, config.queues, config.hand_size, fault)?)
}
