//! Each allocation refused in turn.

use crate::asserts::{is, is_at};
use crate::opening::{Fault, ask, open_gate};
use crate::rows::strike_on;
use crate::scripts::settings;
use apf_book::{Book, BookFault, Stats, are_costs};
use apf_gate::GateFault;
use apf_short::Refusing;
use std::alloc::{Allocator, Global};
use std::process::Abort;

// Each refusal is told by who asked, the gate, the test's own list or the book, or another request took its
// place: then the answers are the script's. They are so too where the refused request never comes. None comes
// after the opening.
#[test]
fn each_refusal_of_memory_is_told_by_new(rt: HostRuntime) {
    let mut gate = 0u32;
    let mut own = 0u32;
    let mut book = 0u32;
    let mut quiet = 0u32;
    for refused in 1..60 {
        let alloc = Refusing::new(rt.alloc(), refused);
        let answer = strike_on(&rt, &alloc, Some(&alloc));
        if !alloc.has_refused() {
            quiet = quiet.saturating_add(1);
        }
        is_at(&rt, alloc.has_refused(), quiet == 0, refused);
        match answer {
            Ok(()) => {}
            Err(_) if quiet > 0 => panic!(rt; "nothing was refused"),
            Err(Fault::NoMemory) => own = own.saturating_add(1),
            Err(Fault::Gate(GateFault::NoMemory)) => gate = gate.saturating_add(1),
            Err(Fault::Book(BookFault::NoMemory)) => book = book.saturating_add(1),
            Err(_) => panic!(rt; "another fault"),
        }
    }
    assert!(rt; quiet > 0 && gate > 0 && own > 0);
    // The queues, who arrived and the log have memory of their own.
    assert!(rt; book >= 3, "{book} of the book");
}

// The numbers of a book of two requests, with costs or without, that was just opened.
fn opened<A: Allocator + Copy, R: Abort>(
    rt: &R,
    alloc: A,
    has_costs: bool,
) -> Result<Stats, Fault> {
    let asks = [ask(1, 0), ask(2, 1)];
    let costs = [20_000u32, 1];
    let config = settings(1, 2);
    assert!(rt; are_costs(&costs));
    let (_gate, desk, _passes, _stations) = open_gate(alloc, &config, &asks, 0)?;
    let book = if has_costs {
        Book::with_costs(alloc, &config, &asks, &costs, desk)?
    } else {
        Book::new(alloc, &config, &asks, desk)?
    };
    Ok(book.stats())
}

// Each request of memory is refused in turn, and another took its place or it is told as out of memory. How many
// of these are told by the book.
fn refusals<R: Abort>(rt: &R, alloc: Global, has_costs: bool) -> u32 {
    let mut book = 0u32;
    for refused in 1..60 {
        let short = Refusing::new(alloc, refused);
        let answer = opened(rt, &short, has_costs);
        match answer {
            Ok(stats) => is(rt, [stats.entered, stats.waiting], [0, 0]),
            Err(_) if !short.has_refused() => panic!(rt; "nothing was refused"),
            Err(Fault::Book(BookFault::NoMemory)) => book = book.saturating_add(1),
            Err(Fault::NoMemory | Fault::Gate(GateFault::NoMemory)) => {}
            Err(_) => panic!(rt; "another fault at {refused}"),
        }
    }
    book
}

// The queues, who arrived and the log have memory of their own, and so have the costs that are copied. Widths are
// collected: where their first request is refused, another takes its place.
#[test]
fn each_refusal_of_memory_is_told_by_with_costs(rt: HostRuntime) {
    let without = refusals(&rt, rt.alloc(), false);
    assert!(rt; without >= 3, "{without} without costs");
    let costs = refusals(&rt, rt.alloc(), true);
    assert!(rt; costs >= 4, "{costs} with costs");
}
