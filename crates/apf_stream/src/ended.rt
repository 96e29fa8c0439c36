//! What became of a request.

ghost use Rattle.std.specs.Prelude.{◌≡◌, ◌++◌, ◌∷◌, [], OnOk};
ghost use Rattle.apf_stream.specs.Waits.{wait_of};

use crate::asked::Hold;
use crate::fault::StreamFault;
use apf_words::Decision;

/// What became of a request. Times are microseconds.
#[derive(Clone, Copy, Debug, PartialEq, Eq)]
pub struct Ended {
    pub hold: Hold,
    pub decision: Decision,
    /// When it was given its seats, if it was given any.
    pub since: Option<u64>,
    /// When the last thing of it was done: it finished, gave up, or was rejected on its arrival.
    pub over_at: u64,
}

impl Ended {
    /// How long it waited, until it was given its seats or was over.
    pub fn wait(&self) -> u64
        ensures { result ≡ wait_of self.now }
    {
        let until = match self.since {
            Some(since) => since,
            None => self.over_at,
        };
        until.saturating_sub(self.hold.asked.times.arrives_at)
    }
}

// Puts it behind what was told before.
pub(crate) fn tell(ends: &mut Vec<Ended>, ended: Ended) -> Result<(), StreamFault>
    ensures { OnOk result (ends.new.items ≡ ends.old.items ++ (ended ∷ [])) }
{
    if ends.push(ended).is_err() {
        return Err(StreamFault::NoMemory);
    }
    Ok(())
}
