//! A level, a calendar of its slots, and what is noted of who is there.

ghost use Rattle.std.specs.Prelude.{◌≡◌, ◌<◌, ◌≤◌, ◌-◌, ◌^◌, ◌++◌, [], replicate, length, count_by, IfSome, IfOk, IfErr, OnOk};
ghost use Rattle.apf_words.specs.Limits.{max_requests};
ghost use Rattle.apf_times.specs.Limits.{max_patience, max_wait};
ghost use Rattle.apf_book.specs.Life.{LifeView};
ghost use Rattle.apf_book.specs.LifeBook.{IsLifeKept};
ghost use Rattle.apf_model.specs.Outcome.{is_enter, is_dispatch, is_strike};
ghost use Rattle.apf_charges.specs.Charging.{opening_charges};
ghost use Rattle.apf_calendar.specs.Guests.{NothingBy};
ghost use Rattle.apf_local.specs.Openings.{IsOpened, CanOpen, IsOpenFault};
ghost use Rattle.apf_local.specs.Levels.{EndsFrom};
ghost use Rattle.apf_stream.specs.States.{state_of, settling_by};
ghost use Rattle.apf_stream.specs.Ties.{AreTied};
ghost use Rattle.apf_watched.specs.Followed.{AreSidesIn};

use crate::asked::{Asked, Hold};
use apf_book::LifeEvent;
use apf_bound::Sides;
use apf_calendar::SlotCalendar;
use apf_charges::{ChargedBy, Charges};
use apf_gate::Ticket;
use apf_line::Report;
use apf_local::{OpenFault, Settling};
use apf_model::Config;
use apf_times::Times;
use apf_watched::WatchedLevel;
use std::alloc::{AllocError, Global};

/// A level with a calendar of its slots. It is told each request as it arrives, and tells each one as it is over.
#[derive(Drop)]
pub struct Stream {
    // both sides of the bound follow it, if they are kept
    pub(crate) level: WatchedLevel,
    pub(crate) calendar: SlotCalendar<Global>,
    // of who is in each slot, or was there last
    pub(crate) holds: Vec<Hold>,
    pub(crate) charges: Charges,
    // the events that were read last, and up to which place they were read
    pub(crate) room: Vec<LifeEvent>,
    pub(crate) seen: u64,
}

// What is noted of a slot in which nobody was yet.
const NOBODY: Hold = Hold {
    asked: Asked {
        line: 0,
        times: Times {
            arrives_at: 0,
            runs_for: 0,
        },
        width: 1,
        hash: 0,
        cost: None,
    },
    cost: 1,
    queue: None,
};

// Whether what requests take is settled, by what they are charged.
fn settling_of(by: ChargedBy) -> Settling
    ensures { result ≡ settling_by by }
{
    match by {
        ChargedBy::Time => Settling::Told,
        ChargedBy::Seats => Settling::Never,
    }
}

impl Stream {
    /// The level of this config with this many slots, at time 0, to which nobody came. A request that waits as long as
    /// `patience` in microseconds gives up, or never at 0. All memory is taken here, but for what is told.
    ///
    /// # Errors
    ///
    /// The level's fault, or `NoMemory`. Then everything is given up.
    pub fn open(
        alloc: Global,
        config: &Config,
        slots: u32,
        patience: u64,
        by: ChargedBy,
    ) -> Result<Stream, OpenFault>
        requires some { 1 ≤ slots }
        requires few { slots ≤ max_requests }
        requires patience { patience ≤ max_patience }
        ensures opened { IfOk result (λ s. IsOpened config.now slots (settling_by by) s.level.level) }
        ensures calendar { IfOk result (λ s. s.calendar ≡ record { time = 0; patience = patience; slots = replicate slots None }) }
        ensures charges { IfOk result (λ s. s.charges ≡ opening_charges by) }
        ensures tied { IfOk result (λ s. AreTied (state_of s)) }
        ensures settings { OnOk result (CanOpen config.now slots) }
        ensures fault { IfErr result (IsOpenFault config.now slots) }
    {
        let level = WatchedLevel::open(alloc, config, slots, settling_of(by))?;
        let calendar = SlotCalendar::new(alloc, slots, patience)?;
        let holds = vec![in alloc; NOBODY; slots as usize]?;
        let charges = Charges::new(alloc, by)?;
        let no_event = LifeEvent::Enter(Ticket::of(0), 0);
        let room = vec![in alloc; no_event; 2 * slots as usize]?;
        Ok(Stream {
            level,
            calendar,
            holds,
            charges,
            room,
            seen: 0,
        })
    }

    /// Keeps both sides of the bound from now on, if nobody came yet.
    ///
    /// # Errors
    ///
    /// `AllocError` if memory was refused. Then they are not kept.
    pub fn watch(&mut self, alloc: Global) -> Result<(), AllocError>
        ensures { state_of self.new ≡ state_of self.old }
    {
        self.level.watch(alloc)
    }

    /// Both sides of the bound of all that was carried out, if they are kept.
    pub fn sides(&self) -> Option<Sides>
        ensures { IfSome result (AreSidesIn (state_of self.now).level) }
    {
        self.level.sides()
    }

    /// The time of what was carried out last, in microseconds.
    pub fn time(&self) -> u64
        ensures time { result ≡ self.now.calendar.time }
        ensures low { result ≤ max_wait }
    {
        self.calendar.time()
    }

    /// How many requests wait: those that entered a queue, and were neither dispatched nor struck.
    pub fn waiting(&self) -> u64
        ensures { (v : LifeView) → IsLifeKept v self.now.level.level.owner.book → length v.history < 2 ^ 64
            → result ≡ count_by is_enter v.history - count_by is_dispatch v.history - count_by is_strike v.history }
    {
        let stats = self.level.stats();
        stats
            .entered
            .saturating_sub(stats.dispatched)
            .saturating_sub(stats.struck)
    }

    /// Ends the level, and tells what its words and its history say of all requests that ever came. Before that each request
    /// that waits is cancelled, and then each that executes gives its seats back.
    ///
    /// # Errors
    ///
    /// `AllocError` if memory was refused. Then everything is given up.
    pub fn end(self, alloc: Global) -> Result<Report, AllocError>
        ensures { IfOk result (EndsFrom self.level.level) }
    {
        let Stream {
            level,
            calendar: _,
            holds: _,
            charges: _,
            room: _,
            seen: _,
        } = self;
        level.end(alloc)
    }
}
