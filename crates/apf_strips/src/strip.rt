//! The four series of a priority level.

ghost use Rattle.std.specs.Prelude.{◌≡◌, ◌≤◌, IfOk};
ghost use Rattle.apf_strips.specs.Limits.{most_doublings, width_after};
ghost use Rattle.apf_strips.specs.Strips.{IsNewStrip, IsWidenedStrip, most_of};

use crate::FIRST_WIDTH;
use crate::series::Series;
use std::alloc::{AllocError, Global};

/// What became of a priority level over the time of a log.
#[derive(Drop)]
pub struct Strip {
    /// The seats in use.
    pub seats: Series,
    /// The requests that wait.
    pub waiting: Series,
    /// The seats that the level may use.
    pub limit: Series,
    /// The requests that were rejected, each as an amount of one for a microsecond.
    pub rejected: Series,
}

impl Strip {
    /// Nothing was added. All memory is taken here.
    ///
    /// # Errors
    ///
    /// `AllocError` if memory was refused.
    pub fn new(alloc: Global) -> Result<Strip, AllocError>
        ensures { IfOk result IsNewStrip }
    {
        Ok(Strip {
            seats: Series::new(alloc)?,
            waiting: Series::new(alloc)?,
            limit: Series::new(alloc)?,
            rejected: Series::new(alloc)?,
        })
    }

    /// How many times the longest bins became twice as long, at most [`MOST_DOUBLINGS`](crate::MOST_DOUBLINGS).
    pub fn doublings(&self) -> u32
        ensures is { result ≡ most_of self.now }
        ensures few { result ≤ most_doublings }
    {
        let seats = self.seats.doublings().max(self.waiting.doublings());
        seats.max(self.limit.doublings().max(self.rejected.doublings()))
    }

    /// How long the longest bins are, in microseconds.
    #[tactic(auto, unfolding(crate::specs::Limits::width_after), using(crate::proofs::Changes::width_some))]
    pub fn width(&self) -> u64
        ensures { result ≡ width_after (most_of self.now) }
    {
        FIRST_WIDTH << self.doublings()
    }

    /// Makes one bin of each two, until the bins became twice as long so many times. Those that are longer stay.
    ///
    /// Strips whose bins are as long as the longest of all can be compared.
    pub fn widen_to(&mut self, doublings: u32)
        requires { doublings ≤ most_doublings }
        ensures { IsWidenedStrip self.old doublings self.new }
    {
        self.seats.widen_to(doublings);
        self.waiting.widen_to(doublings);
        self.limit.widen_to(doublings);
        self.rejected.widen_to(doublings);
    }
}
