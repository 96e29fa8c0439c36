//! What a dispatch is charged: the request's cost, or its width where no costs are given.
//!
//! The orders were worked out by hand. The finish of a queue is its next plus the cost of its first request;
//! the least is served, and of equals the one reached first round from the queue after the one served last.

ghost use Rattle.std.specs.Prelude.{◌≡◌, length};
ghost use Rattle.apf_model.specs.Schedule.{AreCosts};
ghost use Rattle.apf_session.specs.Openings.{level_with};

use crate::endings::{Ended, Ending};
use crate::opening::settings;
use crate::scenes::{Scene, run};
use crate::scripts::Step::{Begin, Dispatch, Poll, Release};
use crate::scripts::{Script, Step, numbers};
use apf_book::{Ask, Config, are_costs};
use apf_level::{Counts, Naming};
use apf_model::{Event, Response};
use apf_session::Answer::{Over, Released, Run, Waits};
use apf_session::{OpenFault, Opening, Session};
use apf_words::Decision;
use std::alloc::{AllocError, Global};
use std::marker::Brand;
use std::process::Abort;
use std::sync::Wait;
use std::test::Fail;

// Two queues, and hands of one: the hash is the queue.
fn two_queues(limit: u32) -> Config {
    Config {
        queues: 2,
        ..settings(limit)
    }
}

// One seat, this many queues, and room for this many requests in each.
fn shaped(queues: u32, queue_length_limit: u32) -> Config {
    Config {
        queues,
        queue_length_limit,
        ..settings(1)
    }
}

// A request that takes this many seats, of the flow of this queue.
fn ask(width: u32, queue: u64) -> Ask {
    Ask { width, hash: queue }
}

// Three requests of each of two clients.
fn three_each() -> [Ask; 6] {
    [
        ask(1, 0),
        ask(1, 0),
        ask(1, 0),
        ask(1, 1),
        ask(1, 1),
        ask(1, 1),
    ]
}

// What a level tells whose requests, six, were executed, and five of them from a queue.
fn six_executed(log: &[Event]) -> Ending<'_> {
    Ending {
        closed: false,
        decisions: &[Decision::Execute; 6],
        log,
        stats: numbers(5, 5, 0, 0, 0),
        counts: Counts {
            executed: 6,
            ..Counts::default()
        },
    }
}

// Plays the script on a level with these costs, and ends it.
fn play_named<K: Naming, R: Wait + Abort>(
    rt: &R,
    alloc: Global,
    opening: Opening<'_>,
    costs: &[u32],
    steps: &[Step],
) -> Result<Ended, OpenFault>
    requires level { K.level ≡ level_with opening.gate opening.board.cell opening.config opening.asks.now costs.now }
    requires one_cost_each { length costs.now ≡ length opening.asks.now }
    requires costs { AreCosts costs.now }
{
    let mut session = Session::<K>::open_with_costs(rt, alloc, opening, costs)?;
    Script::of(steps).play(rt, alloc, &mut session);
    let last = session.stats(rt);
    let report = session.end(rt, alloc)?;
    Ok(Ended { last, report })
}

// The same, from the opening of the gate.
fn play<R: Wait + Abort>(
    rt: &R,
    alloc: Global,
    config: Config,
    asks: &[Ask],
    costs: &[u32],
    steps: &[Step],
) -> Result<Ended, OpenFault> {
    let opening = Opening::new(alloc, &config, asks, 0)?;
    assert!(rt; are_costs(costs));
    assert!(rt; costs.len() == opening.asks.len());
    play_named::<Brand, R>(rt, alloc, opening, costs, steps)
}

// The first request runs at once and the others wait, this many in all.
fn arrivals(alloc: Global, requests: u32) -> Result<Vec<Step>, AllocError> {
    let mut steps = Vec::new(alloc);
    steps.push(Begin(0, Run))?;
    for request in 1..requests {
        steps.push(Begin(request, Waits))?;
    }
    Ok(steps)
}

// The requests finish in this order, and each but the last dispatches the next one.
fn served(alloc: Global, order: &[u32]) -> Result<Vec<Step>, AllocError> {
    let mut steps = arrivals(alloc, 6)?;
    let mut runs = None;
    for next in order {
        if let Some(request) = runs {
            steps.push(Release(request, Released(true)))?;
            steps.push(Dispatch(1))?;
            steps.push(Poll(*next, Run))?;
        }
        runs = Some(*next);
    }
    if let Some(request) = runs {
        steps.push(Release(request, Released(false)))?;
    }
    Ok(steps)
}

// One seat, and a client whose requests cost three times what those of the other one do: two of these are
// served before the first of those, and not one.
#[test]
fn costs(rt: HostRuntime) -> Result<(), OpenFault> {
    let alloc = rt.alloc();
    let steps = served(alloc, &[0, 3, 4, 1, 5, 2])?;
    let asks = three_each();
    let costs = [3, 3, 3, 1, 1, 1];
    let ended = play(&rt, alloc, two_queues(1), &asks, &costs, steps.as_slice())?;
    let log = [
        Event::Enter(1, 0),
        Event::Enter(2, 0),
        Event::Enter(3, 1),
        Event::Enter(4, 1),
        Event::Enter(5, 1),
        Event::Dispatch(3, 1),
        Event::Dispatch(4, 1),
        Event::Dispatch(1, 0),
        Event::Dispatch(5, 1),
        Event::Dispatch(2, 0),
    ];
    ended.is_as(&rt, &six_executed(&log));
    Ok(())
}

// The same requests without costs, and with costs that are their widths: one of each client in turn.
#[test]
fn without_costs(rt: HostRuntime) -> Result<(), OpenFault> {
    let alloc = rt.alloc();
    let steps = served(alloc, &[0, 1, 3, 2, 4, 5])?;
    let asks = three_each();
    let script = Scene::Script(Script::of(steps.as_slice()));
    let log = [
        Event::Enter(1, 0),
        Event::Enter(2, 0),
        Event::Enter(3, 1),
        Event::Enter(4, 1),
        Event::Enter(5, 1),
        Event::Dispatch(1, 0),
        Event::Dispatch(3, 1),
        Event::Dispatch(2, 0),
        Event::Dispatch(4, 1),
        Event::Dispatch(5, 1),
    ];
    let without = run(&rt, alloc, two_queues(1), &asks, 0, &[script])?;
    without.is_as(&rt, &six_executed(&log));
    let widths = [1; 6];
    let ended = play(&rt, alloc, two_queues(1), &asks, &widths, steps.as_slice())?;
    ended.is_as(&rt, &six_executed(&log));
    Ok(())
}

// Two seats, and two requests of one seat that cost as much as any may: both run, and one of two seats that
// costs the least waits until both are back.
#[test]
fn costs_take_no_seats(rt: HostRuntime) -> Result<(), OpenFault> {
    let steps = [
        Begin(0, Run),
        Begin(1, Run),
        Begin(2, Waits),
        Release(0, Released(true)),
        Dispatch(0),
        Release(1, Released(true)),
        Dispatch(1),
        Poll(2, Run),
        Release(2, Released(false)),
    ];
    let asks = [ask(1, 0), ask(1, 0), ask(2, 1)];
    let costs = [20_000, 20_000, 1];
    let ended = play(&rt, rt.alloc(), two_queues(2), &asks, &costs, &steps)?;
    ended.executed(&rt, 3);
    Ok(())
}

// A level without queues charges nothing, and its settings of queues and its costs are not used.
#[test]
fn costs_without_queues(rt: HostRuntime) -> Result<(), OpenFault> {
    let config = Config {
        limit_response: Response::Reject,
        ..shaped(0, 0)
    };
    let steps = [
        Begin(0, Run),
        Begin(1, Over(Decision::ConcurrencyLimit)),
        Release(0, Released(false)),
    ];
    let asks = [ask(1, 0), ask(1, 1)];
    let ended = play(&rt, rt.alloc(), config, &asks, &[20_000, 1], &steps)?;
    assert!(rt; ended.report.log.is_empty());
    Ok(())
}

// The settings are refused as those of a level without costs: the dealer's fault comes before the queues'.
#[test]
fn faults_beside_costs(rt: HostRuntime) -> Result<(), Fail> {
    let alloc = rt.alloc();
    for (config, text) in [(shaped(0, 0), "not positive"), (shaped(2, 0), "bad shape")] {
        let Err(OpenFault::Level(fault)) = play(&rt, alloc, config, &[], &[], &[]) else {
            panic!(rt; "{text}")
        };
        assert_eq!(rt; fault.to_string(alloc)?.as_str(), text);
    }
    Ok(())
}

// All numbers of 32 bits but 0 are costs.
#[test]
fn costs_in_range(rt: HostRuntime) {
    assert!(rt; are_costs(&[]) && are_costs(&[1, 4_294_967_295, 3]));
    assert!(rt; !are_costs(&[1, 0]));
    assert!(rt; !are_costs(&[4_294_967_295, 0]));
}
