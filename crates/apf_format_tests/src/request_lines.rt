//! What `apf_request_lines` reads and no command prints: the level of a request, and the value of a key that is not there.

use crate::asserts::is;
use apf_request_lines::{Key, read_line, written_at};
use std::alloc::Global;

const LINE: &[u8] =
    b"I1130 17:53:08.123456       1 httplog.go:132] \"HTTP\" verb=\"LIST\" URI=\"/api/v1/pods?limit=500\" latency=\"12.345678ms\" userAgent=\"kubectl/v1.29.0 (linux/amd64) kubernetes/abc\" audit-ID=\"5d0c8a33-1\" srcIP=\"10.0.0.1:4711\" apf_pl=\"workload-low\" apf_fs=\"service-accounts\" apf_iseats=3 apf_fseats=7 apf_additionalLatency=\"5ms\" apf_execution_time=\"11.2ms\" resp=200";

const WITHOUT: &[u8] =
    b"I1130 1 httplog.go:132] \"HTTP\"   apf_fseats=2   audit-ID=b apf_iseats=1 audit-ID=c";

// Whether this is the level that the line of a request names. One that names none is as one that names the empty text.
fn has_level(alloc: Global, line: &[u8], want: &[u8]) -> bool {
    let Ok(Some(request)) = read_line(alloc, line) else {
        return false;
    };
    match &request.level {
        Some(level) => level.as_slice() == want,
        None => want.is_empty(),
    }
}

#[test]
fn levels(rt: HostRuntime) {
    is(&rt, has_level(rt.alloc(), LINE, b"workload-low"), true);
    is(&rt, has_level(rt.alloc(), WITHOUT, b""), true);
    is(
        &rt,
        written_at(Key::Seats, b"] \"HTTP\" a=1").is_none(),
        true,
    );
}
