//! Writers with room for fewer bytes than a line has, down to none.

use crate::explain::calls::{Asked, fails};
use apf_files::{ConfigFault, ConfigKey, RequestFault};
use apf_flow::DealerFault;
use std::test::Fail;

const JSON: [(&[u8], Asked); 14] = [
    (b"{", Asked::Config(ConfigFault::NotJson)),
    (b"[]", Asked::Config(ConfigFault::NotObject)),
    (b"{\"a\":1}", Asked::Config(ConfigFault::UnknownKey)),
    (b"{}", Asked::Config(ConfigFault::Missing)),
    (
        b"{\"limit\":\"a\"}",
        Asked::Config(ConfigFault::BadValue(ConfigKey::Limit)),
    ),
    (b"[", Asked::Requests(RequestFault::NotJson)),
    (b"{}", Asked::Requests(RequestFault::NotArray)),
    (b"[0]", Asked::Requests(RequestFault::TooMany)),
    (b"[0]", Asked::Requests(RequestFault::NotObject(0))),
    (b"[{\"a\":1}]", Asked::Requests(RequestFault::UnknownKey(0))),
    (b"[{}]", Asked::Requests(RequestFault::BadFlow(0))),
    (
        b"[{\"hash\":-1}]",
        Asked::Requests(RequestFault::BadFlow(0)),
    ),
    (
        b"[{\"hash\":0,\"work\":-1}]",
        Asked::Requests(RequestFault::BadWork(0)),
    ),
    (b"kind: List", Asked::Objects),
];

#[test]
fn json(rt: HostRuntime) -> Result<(), Fail> {
    for (bytes, asked) in JSON {
        fails(&rt, rt.alloc(), asked, bytes)?;
    }
    Ok(())
}

const OTHERS: [(&[u8], Asked); 8] = [
    (b"x\n", Asked::Script),
    (b"\n", Asked::Script),
    (b"\r\n", Asked::Script),
    (b"close", Asked::Script),
    (b"arrive 9\n", Asked::Script),
    (b"limit 0\n", Asked::Script),
    (b"\x1f\x8b", Asked::Script),
    (b"", Asked::Dealer(3, 8, DealerFault::HandTooLarge)),
];

#[test]
fn others(rt: HostRuntime) -> Result<(), Fail> {
    for (bytes, asked) in OTHERS {
        fails(&rt, rt.alloc(), asked, bytes)?;
    }
    Ok(())
}
