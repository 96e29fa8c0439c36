//! Over how many queues the requests of a run are spread.

ghost use Rattle.std.specs.Prelude.{◌≡◌};

use apf_model::{Ask, Config, Response};
use std::fmt;

/// This many queues, of which each request is dealt this many.
#[derive(Clone, Copy)]
pub struct Shuffle {
    pub queues: u32,
    pub hand: u32,
}

impl Shuffle {
    /// The settings of a level with these queues, whose one seat each request wants.
    pub fn config(self) -> Config {
        Config {
            limit: 1,
            queues: self.queues,
            hand_size: self.hand,
            queue_length_limit: 50,
            limit_response: Response::Queue,
        }
    }

    /// What the request of this number asks for: one seat, and a flow of its own.
    pub fn ask(self, number: u32) -> Ask
        ensures width { result.width ≡ 1 }
    {
        Ask {
            width: 1,
            hash: u64::from(number).wrapping_mul(0x9e37_79b9_7f4a_7c15),
        }
    }
}

impl fmt::Display for Shuffle {
    fn fmt<W: fmt::Write>(&self, f: &mut fmt::Formatter<W>) -> fmt::Result {
        let (queues, hand) = (self.queues, self.hand);
        write!(f, "queues {queues} hands of {hand}")
    }
}
