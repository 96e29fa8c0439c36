//! What the server's own log says of a request besides.

ghost use Rattle.std.specs.Prelude.{◌≡◌, ◌≤◌, IfSome};
ghost use Rattle.apf_times.specs.Limits.{max_run};
ghost use Rattle.apf_words.specs.Limits.{max_width};
ghost use Rattle.apf_audit.specs.AuditEvent.{event, IsTakenInRange};
ghost use Rattle.apf_audit.specs.Joining as spec;

use crate::event::Taken;

// How long a request ran: as is said, if that is said and it was not turned away, and else as before.
fn joined_run(turned_away: bool, runs_for: u64, said: Option<u64>) -> u64
    ensures { result ≡ spec.joined_run turned_away runs_for said }
{
    match said {
        Some(said) if !turned_away => said,
        _ => runs_for,
    }
}

impl Taken {
    /// The request with what the server's own log says of it: its width, 1 to 20,000 seats, and how long it ran, in microseconds, 0
    /// to 10,000,000,000, where that is said. A request that was turned away keeps its run.
    pub fn joined(self, width: u32, runs_for: Option<u64>) -> Taken
        requires width { (1 ≤ width) × (width ≤ max_width) }
        requires run { IfSome runs_for (λ run. run ≤ max_run) }
        ensures is { event result ≡ spec.joined (event self) width runs_for }
        ensures ranges { IsTakenInRange self → IsTakenInRange result }
    {
        let runs_for = joined_run(self.turned_away, self.runs_for, runs_for);
        Taken {
            runs_for,
            width,
            ..self
        }
    }
}
