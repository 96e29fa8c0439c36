//! Level words, decisions, marks and the limits, with values worked out by hand.

use crate::asserts::{is, is_at};
use apf_words::{
    Decision, LevelWord, MAX_LIMIT, MAX_REQUESTS, MAX_STATIONS, MAX_WIDTH, UNDECIDED, decided,
    decision_in, fits, mark_in, undecided,
};
use std::alloc::Global;
use std::process::Abort;
use std::test::Fail;

#[test]
fn packing(rt: HostRuntime) -> Result<(), Fail> {
    let closed = LevelWord::new(true, 2, 3, 1).ok_or("in range")?;
    is(&rt, closed.pack(), 9223373136368500739);
    let full = LevelWord::new(false, 10_000, 20_000, 10_000).ok_or("in range")?;
    is(&rt, full.pack(), 10995126763540000);
    for number in [1 << 20, u32::MAX] {
        is(&rt, LevelWord::new(false, number, 0, 1), None);
        is(&rt, LevelWord::new(false, 0, number, 1), None);
        is(&rt, LevelWord::new(false, 0, 0, number), None);
    }
    Ok(())
}

#[test]
fn unpacking(rt: HostRuntime) -> Result<(), Fail> {
    is(&rt, LevelWord::unpack(1152921504606846976), None);
    let open = LevelWord::unpack(1099511627776).ok_or("no bit of 60 to 62")?;
    is(&rt, open.closed(), false);
    let numbers = [open.waiters(), open.seats(), open.limit()];
    is(&rt, numbers, [0, 0, 1]);
    Ok(())
}

// Asserts that the level word of these bits has these parts in print.
fn is_printed(rt: &impl Abort, alloc: Global, word: u64, parts: &str) -> Result<(), Fail> {
    let word = LevelWord::unpack(word).ok_or("no bit of 60 to 62")?;
    let text = format!(in alloc; "{word:?}")?;
    let expected = format!(in alloc; "LevelWord {{ {parts} }}")?;
    is(rt, text.as_str(), expected.as_str());
    Ok(())
}

// Whoever prints a level word reads its four parts, not the number that it is kept as.
#[test]
fn printing(rt: HostRuntime) -> Result<(), Fail> {
    for (word, parts) in [
        (
            9223373136368500739,
            "closed: true, waiters: 2, seats: 3, limit: 1",
        ),
        (
            10995126763540000,
            "closed: false, waiters: 10000, seats: 20000, limit: 10000",
        ),
    ] {
        is_printed(&rt, rt.alloc(), word, parts)?;
    }
    Ok(())
}

#[test]
fn codes(rt: HostRuntime) {
    for (code, want) in [(5, Some(Decision::ConcurrencyLimit)), (6, None), (0, None)] {
        is(&rt, Decision::of_code(code), want);
    }
    let codes = [
        UNDECIDED,
        Decision::Execute.code(),
        Decision::Cancelled.code(),
    ];
    is(&rt, codes, [0, 1, 4]);
}

// The greatest mark has 61 bits.
#[test]
fn marks(rt: HostRuntime) {
    let words = [
        undecided(0),
        undecided(5),
        decided(5, Decision::Cancelled),
        decided(2305843009213693951, Decision::Closed),
    ];
    is(&rt, words, [0, 40, 44, 18446744073709551611]);
    for (word, mark, decision) in [
        (
            18446744073709551611,
            2305843009213693951,
            Some(Decision::Closed),
        ),
        (40, 5, None),
    ] {
        is(&rt, (mark_in(word), decision_in(word)), (mark, decision));
    }
}

#[test]
fn fitting(rt: HostRuntime) {
    for (seats, limit, width, fit) in [
        (0, 1, 1, true),
        (1, 1, 1, false),
        (3, 4, 1, true),
        (0, 2, 5, true),
        (1, 2, 5, false),
        (5, 2, 1, false),
    ] {
        let place = (seats, limit, width);
        is_at(&rt, fits(seats, limit, width), fit, place);
    }
}

// An open level of limit 7 with 4 that wait and 3 seats in use is 7 * 2^40 + 4 * 2^20 + 3, and the bit of a
// closed one is 2^63.
#[test]
fn changes(rt: HostRuntime) -> Result<(), Fail> {
    is(&rt, LevelWord::opening(1).pack(), 1099511627776);
    is(&rt, LevelWord::opening(10_000).pack(), 10995116277760000);
    for (is_closed, bit) in [(false, 0), (true, 9223372036854775808)] {
        let level = LevelWord::new(is_closed, 4, 3, 7).ok_or("in range")?;
        is(&rt, level.pack(), bit | 7696585588739);
        is(&rt, level.with_seats(2).pack(), bit | 7696585588741);
        is(&rt, level.with_waiter().pack(), bit | 7696586637315);
        is(&rt, level.with_grant(2).pack(), bit | 7696584540165);
        is(&rt, level.with_limit(9).pack(), bit | 9895608844291);
    }
    Ok(())
}

// The same level: what is taken off its word, and the bit of a closed one.
#[test]
fn changes_of_a_word(rt: HostRuntime) {
    for bit in [0, 9223372036854775808u64] {
        let word = bit | 7696585588739;
        let released = word.wrapping_sub(LevelWord::to_release(2));
        let left = word.wrapping_sub(LevelWord::to_leave());
        let closed = word | LevelWord::to_close();
        let want = [
            bit | 7696585588737,
            bit | 7696584540163,
            9223379733440364547,
        ];
        is(&rt, [released, left, closed], want);
    }
}

#[test]
fn limits(rt: HostRuntime) {
    let limits = [MAX_LIMIT, MAX_REQUESTS, MAX_WIDTH, MAX_STATIONS];
    is(&rt, limits, [10_000, 10_000, 20_000, 64]);
}
