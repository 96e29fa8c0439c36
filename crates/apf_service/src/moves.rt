//! The lines of those who left a queue.

ghost use Rattle.std.specs.Prelude.{◌≡◌, OnOk};
ghost use Rattle.std.specs.Io.KnownBytes.{Appends};
ghost use Rattle.apf_service.specs.Replies.{moved_text, moves_text};

use apf_book::LifeEvent;
use apf_protocol::Answer;
use std::io;
use std::io::Write;

// Writes the line of an event by which a request left its queue.
fn write_move<W: Write>(out: &mut W, event: LifeEvent) -> io::Result<()>
    ensures { OnOk result (Appends (W.contents out.old) (W.contents out.new) (moved_text event)) }
{
    match event {
        LifeEvent::Enter(..) | LifeEvent::Full(..) => Ok(()),
        LifeEvent::Dispatch(request, queue) => {
            Answer::Dispatches(request.slot(), queue).write(out)
        }
        LifeEvent::Strike(request, queue) => Answer::Strikes(request.slot(), queue).write(out),
    }
}

/// Writes the lines of these events, the oldest first.
pub fn write_moves<W: Write>(out: &mut W, log: &[LifeEvent]) -> io::Result<()>
    ensures { OnOk result (Appends (W.contents out.old) (W.contents out.new) (moves_text log.now)) }
{
    for event in log {
        write_move(out, *event)?;
    }
    Ok(())
}
