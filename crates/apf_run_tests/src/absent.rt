//! Commands and requests that name what is not there, and which no reader lets through.

use crate::asserts::is;
use crate::fault::Fault;
use crate::refused::{Nothing, REQUEST};
use apf_run::{Command, Config, Response, replay, run};
use apf_words::MAX_LIMIT;

const CONFIG: Config = Config {
    limit: 1,
    queues: 1,
    hand_size: 1,
    queue_length_limit: 10,
    limit_response: Response::Queue,
};

// Commands of requests that are not there, and limits out of range, do nothing and have no line.
#[test]
fn commands_of_nobody(rt: HostRuntime) -> Result<(), Fault> {
    let commands = [
        Command::Arrive(2),
        Command::Arrive(0),
        Command::Arrive(1),
        Command::Finish(2),
        Command::Limit(0),
        Command::Cancel(u32::MAX),
        Command::Finish(u32::MAX),
        Command::Limit(MAX_LIMIT + 1),
        Command::Arrive(u32::MAX),
        Command::Finish(0),
        Command::Cancel(2),
        Command::Limit(u32::MAX),
        Command::Limit(MAX_LIMIT),
    ];
    let whole = "arrive 0 execute\n\
        arrive 1 queued 0\n\
        finish 0\n\
        dispatch 1 queue 0\n\
        limit 10000 was 1\n\
        level open seats 1 waiting 0\n\
        executed 2 rejected 0 cancelled 0 undecided 0\n\
        queue-full 0 closed 0 concurrency-limit 0\n\
        entered 1 dispatched 1 struck 0\n";
    let transcript = replay(rt.alloc(), &CONFIG, &[REQUEST; 2], &commands)?;
    let mut buffer = vec![in rt.alloc(); 0u8; whole.len()]?;
    let mut rest = buffer.as_mut_slice();
    is(&rt, transcript.write(&mut rest), Ok(()));
    is(&rt, rest.len(), 0);
    is(&rt, buffer.as_slice(), whole.as_bytes());
    Ok(())
}

// Requests that name nobody who is there cancel nobody.
#[test]
fn requests_that_name_nobody(rt: HostRuntime) -> Result<(), Fault> {
    let mut requests = [REQUEST; 4];
    for (request, other) in requests.iter_mut().zip([4, 5, 10_000, u32::MAX]) {
        request.cancels = Some(other);
    }
    let report = run(&rt, rt.alloc(), &CONFIG, &requests, 2, &Nothing)?;
    is(&rt, report.counts.executed, 4);
    is(&rt, report.counts.cancelled, 0);
    Ok(())
}
