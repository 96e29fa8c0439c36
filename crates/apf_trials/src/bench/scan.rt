//! The choice as it was made before there was a tree of finishes: by a scan over all queues, with a
//! division for each. It is plain code that tests each index, so what the scan reads of a queue stands
//! side by side, and a queue costs it one test. Nothing is proved of its answers, which are compared with
//! those of `apf_queue`.

use std::alloc::{AllocError, Global};

// What the scan reads of a queue, side by side.
#[derive(Clone, Copy)]
struct Row {
    len: u32,
    // The width of the queue's first request.
    width: u32,
    start: u64,
}

// Queues as rings of numbers, as `apf_queue` has them.
#[derive(Drop)]
pub struct Scan {
    queues: u32,
    requests: u32,
    // The node after each node, and the node before it: the requests, then a head for each queue.
    after: Vec<u32>,
    before: Vec<u32>,
    widths: Vec<u32>,
    rows: Vec<Row>,
    level: u64,
    robin: u32,
}

fn at(numbers: &[u32], place: u32) -> u32 {
    numbers.get(place as usize).copied().unwrap_or(0)
}

fn put(numbers: &mut [u32], place: u32, number: u32) {
    if let Some(here) = numbers.get_mut(place as usize) {
        *here = number;
    }
}

fn count_up(alloc: Global, count: u32) -> Result<Vec<u32>, AllocError> {
    let mut numbers = Vec::with_capacity(alloc, count as usize)?;
    for number in 0..count {
        numbers.push(number)?;
    }
    Ok(numbers)
}

impl Scan {
    // This many queues, all empty, for this many requests.
    pub fn new(alloc: Global, queues: u32, requests: u32) -> Result<Scan, AllocError> {
        let nodes = requests.saturating_add(queues);
        let row = Row {
            len: 0,
            width: 0,
            start: 0,
        };
        Ok(Scan {
            queues,
            requests,
            after: count_up(alloc, nodes)?,
            before: count_up(alloc, nodes)?,
            widths: vec![in alloc; 0; requests as usize]?,
            rows: vec![in alloc; row; queues as usize]?,
            level: 0,
            robin: queues.saturating_sub(1),
        })
    }

    // How many wait in the queue.
    pub fn len(&self, queue: u32) -> u32 {
        match self.rows.get(queue as usize) {
            Some(row) => row.len,
            None => 0,
        }
    }

    // Puts the request at the end of the queue.
    pub fn push(&mut self, queue: u32, request: u32, width: u32) {
        let head = self.requests.saturating_add(queue);
        let last = at(&self.before, head);
        put(&mut self.after, last, request);
        put(&mut self.before, request, last);
        put(&mut self.after, request, head);
        put(&mut self.before, head, request);
        put(&mut self.widths, request, width);
        let level = self.level;
        let Some(row) = self.rows.get_mut(queue as usize) else {
            return;
        };
        if row.len == 0 {
            row.start = level.max(row.start);
            row.width = width;
        }
        row.len = row.len.wrapping_add(1);
    }

    // The queue of least finish, counting round from the one after the robin.
    fn choice(&self) -> Option<u32> {
        let mut best: Option<(u32, u64)> = None;
        for steps in 0..self.queues {
            let queue = self.robin.wrapping_add(1).wrapping_add(steps) % self.queues.max(1);
            let row = self.rows.get(queue as usize)?;
            if row.len != 0 {
                let finish = row.start.wrapping_add(u64::from(row.width));
                best = match best {
                    Some((first, least)) if least <= finish => Some((first, least)),
                    _ => Some((queue, finish)),
                };
            }
        }
        best.map(|(queue, _)| queue)
    }

    // Chooses and dispatches: the queue and the request.
    pub fn dispatch(&mut self) -> Option<(u32, u32)> {
        let queue = self.choice()?;
        let head = self.requests.wrapping_add(queue);
        let request = at(&self.after, head);
        let second = at(&self.after, request);
        put(&mut self.after, head, second);
        put(&mut self.before, second, head);
        put(&mut self.after, request, request);
        put(&mut self.before, request, request);
        let next = at(&self.widths, second);
        let row = self.rows.get_mut(queue as usize)?;
        self.level = self.level.max(row.start);
        row.start = row.start.wrapping_add(u64::from(row.width));
        row.len = row.len.wrapping_sub(1);
        row.width = next;
        self.robin = queue;
        Some((queue, request))
    }
}
