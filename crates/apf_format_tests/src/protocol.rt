//! The largest numbers of an answer and of a fault of `apf_protocol`, which no session comes to.

use crate::asserts::is;
use apf_protocol::{Answer, FaultKind, Given, LineFault};
use std::test::Fail;

// A queue that was given more seats than any run gives, and the last line that has a number.
#[test]
fn the_most(rt: HostRuntime) -> Result<(), Fail> {
    let mut out = Vec::new(rt.alloc());
    let given = Given {
        queue: 1,
        waiting: 2,
        entered: 3,
        service: u64::MAX,
    };
    Answer::Queue(given).write(&mut out)?;
    LineFault::from(FaultKind::NoMemory).write(&mut out, u64::MAX)?;
    let lines =
        b"queue 1 waiting 2 entered 3 service 18446744073709551615\nfault 18446744073709551615 out of memory\n";
    is(&rt, out.as_slice(), lines.as_slice());
    Ok(())
}
