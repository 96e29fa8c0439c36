//! One reader of a level's log.

ghost use Rattle.std.specs.Prelude.{◌≡◌, ◌*◌, ◌≤◌, [], length, reverse, slice_get, IfOk};
ghost use Rattle.apf_words.specs.Limits.{max_requests};
ghost use Rattle.apf_level.specs.Locked.{log_under};
ghost use Rattle.apf_session.specs.Followers.{Gains};

use apf_level::{Locked, Naming};
use apf_model::Event;
use std::alloc::{AllocError, Global};
use std::marker::Model;

/// The log of a level as far as one reader has read it, the oldest event first. All its memory is taken when it is made.
#[derive(Drop)]
pub struct Follower {
    log: Vec<Event>,
    read: usize,
    ghost is_read: { read ≤ length log.items },
    ghost few_events: { length log.items ≤ 2 * max_requests },
}

impl Model for Follower {
    ghost use Rattle.std.specs.Prelude.{take, length};
    ghost use Rattle.apf_session.specs.Followers.{FollowerView};

    ghost Value = { FollowerView };

    ghost view = { λ f. record { events = take f.read f.log.items; room = length f.log.items } };
}

impl Follower {
    /// Of the log of a level with this many requests, of which nothing was read. A log has at most two events a request.
    ///
    /// # Errors
    ///
    /// `AllocError` if memory was refused.
    pub fn new(alloc: Global, requests: usize) -> Result<Follower, AllocError>
        requires few { requests ≤ max_requests }
        ensures nothing { IfOk result (λ f. f.events ≡ []) }
        ensures room { IfOk result (λ f. f.room ≡ 2 * requests) }
    {
        Ok(Follower {
            log: vec![in alloc; Event::Enter(0, 0); 2 * requests]?,
            read: 0,
        })
    }

    /// Reads what the log gained since it was read last that stands under this lock, which is held.
    pub fn follow<K: Naming>(&mut self, locked: &Locked<'_, K>)
        ensures gained { Gains (reverse (log_under locked.now)) self.old self.new }
    {
        let from = self.read;
        let count = locked.copy_events(from as u32, &mut self.log[from..]);
        self.read = from + count as usize;
    }

    /// How many events were read.
    pub fn len(&self) -> u32
        ensures { result ≡ length self.now.events }
    {
        self.read as u32
    }

    /// The event at this place of the log, if it was read.
    pub fn event(&self, place: u32) -> Option<Event>
        ensures { result ≡ slice_get self.now.events place }
    {
        self.events().get(place as usize).copied()
    }

    /// The events that were read.
    pub fn events(&self) -> &[Event]
        ensures { result.now ≡ self.now.events }
    {
        &self.log[..self.read]
    }
}
