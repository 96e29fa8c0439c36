//! Queues as plain lists: slowly, and by the rules alone.

use apf_queue::Chosen;
use std::alloc::{AllocError, Global};

// A list of requests and a number for each queue.
#[derive(Drop)]
pub struct Slow {
    length_limit: usize,
    lists: Vec<Vec<(u32, u32)>>,
    next: Vec<u64>,
    level: u64,
    robin: usize,
}

impl Slow {
    pub fn new(alloc: Global, queues: u32, length_limit: u32) -> Result<Slow, AllocError> {
        let mut lists = Vec::new(alloc);
        for _ in 0..queues {
            lists.push(Vec::new(alloc))?;
        }
        Ok(Slow {
            length_limit: length_limit as usize,
            lists,
            next: vec![in alloc; 0; queues as usize]?,
            level: 0,
            robin: (queues as usize).saturating_sub(1),
        })
    }

    pub fn len(&self, queue: u32) -> usize {
        self.lists.get(queue as usize).map_or(0, |list| list.len())
    }

    // The request at a place of a queue.
    pub fn at(&self, queue: u32, place: usize) -> Option<u32> {
        let list = self.lists.get(queue as usize)?;
        let (request, _) = list.get(place)?;
        Some(*request)
    }

    // Whether there was room.
    pub fn push(&mut self, queue: u32, request: u32, cost: u32) -> Result<bool, AllocError> {
        let level = self.level;
        let Some(list) = self.lists.get_mut(queue as usize) else {
            return Ok(false);
        };
        if list.len() >= self.length_limit {
            return Ok(false);
        }
        if list.is_empty() {
            if let Some(next) = self.next.get_mut(queue as usize) {
                *next = level.max(*next);
            }
        }
        list.push((request, cost))?;
        Ok(true)
    }

    pub fn remove(&mut self, request: u32) -> Option<u32> {
        let mut queue = 0u32;
        for list in &mut self.lists {
            if let Some(place) = list.iter().position(|entry| entry.0 == request) {
                let _ = list.remove(place);
                return Some(queue);
            }
            queue = queue.wrapping_add(1);
        }
        None
    }

    pub fn shortest(&self, hand: &[u32]) -> Option<u32> {
        let mut best = None;
        for queue in hand {
            let len = self.len(*queue);
            best = match best {
                Some((other, fewest)) if fewest <= len => Some((other, fewest)),
                _ => Some((*queue, len)),
            };
        }
        best.map(|(queue, _)| queue)
    }

    // The finish of a queue, with what is first in it.
    fn head(&self, queue: usize) -> Option<(u64, u32, u32)> {
        let (request, cost) = *self.lists.get(queue)?.first()?;
        let next = *self.next.get(queue)?;
        Some((next.saturating_add(u64::from(cost)), request, cost))
    }

    pub fn choose(&self) -> Option<Chosen> {
        let queues = self.lists.len();
        let mut best: Option<(u64, Chosen)> = None;
        let after = self.robin.saturating_add(1);
        for queue in (after..queues).chain(0..after.min(queues)) {
            if let Some((finish, request, cost)) = self.head(queue) {
                if best.is_none_or(|(least, _)| finish < least) {
                    best = Some((
                        finish,
                        Chosen {
                            queue: u32::try_from(queue).unwrap_or(0),
                            request,
                            cost,
                        },
                    ));
                }
            }
        }
        best.map(|(_, chosen)| chosen)
    }

    pub fn dispatch(&mut self) -> Option<Chosen> {
        let chosen = self.choose()?;
        let queue = chosen.queue as usize;
        let next = self.next.get_mut(queue)?;
        self.level = self.level.max(*next);
        *next = next.saturating_add(u64::from(chosen.cost));
        self.robin = queue;
        self.remove(chosen.request)?;
        Some(chosen)
    }
}
