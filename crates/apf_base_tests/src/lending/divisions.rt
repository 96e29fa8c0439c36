//! Seats that are divided.

ghost use Rattle.std.specs.Prelude.{◌≤◌, All, IfOk, length};
ghost use Rattle.apf_lending.specs.Claims.{IsClaim};

use crate::asserts::is_at;
use apf_lending::{Claim, divide};
use std::alloc::{AllocError, Global};
use std::process::Abort;
use std::test::Fail;

// The least limit, what a level asked for at once, its greatest limit, and its target in thousandths.
type Row = (u64, u64, u64, u64);

// What the level of such a row claims.
fn claim_of(row: &Row) -> Claim
    ensures { IsClaim result }
{
    let max = row.2.min(281_474_976_710_655);
    let current = row.1.min(max);
    let min = row.0.min(current);
    Claim::of_limited(min, current, max, current, row.3)
}

// What the levels of such rows claim.
fn claims_of(alloc: Global, rows: &[Row]) -> Result<Vec<Claim>, AllocError>
    ensures claims { IfOk result (λ claims. All IsClaim claims.items) }
    ensures few { IfOk result (λ claims. length claims.items ≤ 1000) }
{
    let mut claims = Vec::new(alloc);
    for row in rows {
        if claims.len() < 1000 {
            claims.push(claim_of(row))?;
        }
    }
    Ok(claims)
}

// The limits of the levels of such rows.
fn limits_of(alloc: Global, seats: u64, rows: &[Row]) -> Result<Vec<u64>, AllocError> {
    let claims = claims_of(alloc, rows)?;
    divide(alloc, seats.min(1_000_000_000), claims.as_slice())
}

// Asserts that these are the limits.
fn has(rt: &impl Abort, alloc: Global, seats: u64, rows: &[Row], want: &[u64]) -> Result<(), Fail> {
    let limits = limits_of(alloc, seats, rows)?;
    is_at(rt, limits.as_slice(), want, seats);
    Ok(())
}

// A program in Python made these, with fractions: it goes through the numbers at which a level ceases to be linear in their order.
#[test]
fn drawn(rt: HostRuntime) -> Result<(), Fail> {
    for (seats, rows, want) in [
        (
            2152,
            [
                (3, 3, 605, 3000),
                (0, 0, 0, 0),
                (1, 1, 1, 1000),
                (12, 12, 245, 12000),
                (120, 120, 1100, 120000),
                (12, 12, 198, 12000),
            ]
            .as_slice(),
            [605, 0, 1, 245, 1100, 198].as_slice(),
        ),
        (
            2238,
            [
                (38, 38, 98, 38000),
                (506, 1000, 1001, 1000000),
                (1, 1, 1, 1000),
                (1, 1, 2, 1000),
                (1, 1, 8, 2994),
                (145, 197, 1100, 197000),
                (4, 4, 5, 4000),
                (6, 13, 20, 174447),
            ]
            .as_slice(),
            [98, 1001, 1, 2, 8, 1100, 5, 20].as_slice(),
        ),
        (
            48,
            [
                (91, 245, 845, 245000),
                (1, 1, 5, 1000),
                (18, 49, 49, 49000),
                (5, 5, 5005, 713634),
                (102, 245, 252, 245000),
            ]
            .as_slice(),
            [91, 1, 18, 5, 102].as_slice(),
        ),
        (
            757,
            [
                (0, 0, 0, 0),
                (0, 1, 101, 2598),
                (60, 98, 98, 503730),
                (5, 6, 49, 6000),
                (23, 973, 1000, 973000),
                (305, 305, 1600, 305000),
            ]
            .as_slice(),
            [0, 0, 74, 5, 372, 305].as_slice(),
        ),
        (
            185,
            [
                (13, 13, 20, 542783),
                (93, 93, 98, 93000),
                (57, 92, 5098, 92000),
                (0, 0, 8, 0),
            ]
            .as_slice(),
            [13, 93, 79, 0].as_slice(),
        ),
        (
            9126,
            [
                (3, 5, 5005, 756888),
                (205, 205, 1100, 205000),
                (0, 5, 5, 153274),
                (19, 19, 198, 19000),
                (767, 767, 1000, 767000),
                (4, 4, 113, 570795),
                (0, 5, 605, 611685),
                (133, 133, 1100, 133000),
            ]
            .as_slice(),
            [5005, 1100, 5, 198, 1000, 113, 605, 1100].as_slice(),
        ),
        (198, [(87, 98, 198, 98000)].as_slice(), [198].as_slice()),
        (
            14257,
            [
                (28, 28, 6000, 28000),
                (28, 49, 149, 49000),
                (914, 1000, 1000, 1000000),
                (113, 113, 246, 113000),
                (7, 9, 5049, 9000),
                (112, 112, 1100, 112000),
                (2, 13, 613, 13000),
                (40, 92, 98, 354397),
            ]
            .as_slice(),
            [6000, 149, 1000, 246, 5049, 1100, 613, 98].as_slice(),
        ),
        (
            49,
            [(0, 0, 1, 0), (48, 48, 49, 156623)].as_slice(),
            [0, 49].as_slice(),
        ),
        (
            384,
            [
                (1, 1, 1, 1000),
                (1, 1, 5001, 355626),
                (39, 39, 49, 39000),
                (0, 0, 0, 0),
                (28, 28, 149, 28000),
                (2, 2, 49, 2000),
                (54, 500, 1100, 519046),
            ]
            .as_slice(),
            [1, 1, 39, 0, 28, 2, 313].as_slice(),
        ),
        (
            63,
            [
                (13, 13, 613, 13000),
                (0, 5, 5, 5000),
                (1, 1, 5001, 1000),
                (94, 500, 500, 500000),
                (70, 70, 99, 70000),
                (0, 0, 6, 0),
            ]
            .as_slice(),
            [13, 0, 1, 94, 70, 0].as_slice(),
        ),
        (
            995,
            [
                (150, 150, 245, 150000),
                (0, 1, 601, 1000),
                (46, 46, 149, 749743),
            ]
            .as_slice(),
            [245, 601, 149].as_slice(),
        ),
        (
            236,
            [
                (0, 0, 1, 394912),
                (51, 51, 1600, 51000),
                (408, 408, 500, 408000),
                (129, 129, 5500, 129000),
            ]
            .as_slice(),
            [0, 51, 408, 129].as_slice(),
        ),
        (
            1811,
            [
                (49, 49, 49, 49000),
                (32, 95, 698, 95000),
                (0, 0, 0, 0),
                (148, 264, 1100, 488529),
                (0, 1, 2, 303655),
                (1, 1, 2, 1000),
                (5, 5, 105, 5000),
                (1, 1, 1, 1000),
            ]
            .as_slice(),
            [49, 624, 0, 1100, 2, 2, 33, 1].as_slice(),
        ),
        (
            140,
            [(88, 88, 252, 88000), (50, 50, 98, 50000), (1, 1, 8, 1753)].as_slice(),
            [88, 50, 2].as_slice(),
        ),
        (
            582,
            [
                (27, 27, 149, 27000),
                (233, 233, 345, 233000),
                (115, 115, 345, 300111),
                (0, 0, 0, 1407),
            ]
            .as_slice(),
            [28, 242, 312, 0].as_slice(),
        ),
        (
            5345,
            [
                (684, 684, 1007, 684000),
                (8, 8, 5013, 349002),
                (35, 35, 345, 35000),
                (93, 244, 1001, 244000),
                (0, 0, 7, 1543),
                (0, 0, 1, 0),
                (1, 1, 1, 467516),
                (1, 49, 49, 496257),
            ]
            .as_slice(),
            [1007, 2981, 299, 1001, 7, 0, 1, 49].as_slice(),
        ),
        (
            45,
            [
                (0, 0, 1, 735055),
                (0, 1, 1, 2332),
                (5, 5, 6, 5000),
                (1, 1, 101, 1000),
            ]
            .as_slice(),
            [1, 1, 6, 37].as_slice(),
        ),
        (
            604,
            [
                (269, 269, 500, 269000),
                (0, 0, 0, 0),
                (236, 245, 246, 245000),
                (92, 92, 845, 92000),
            ]
            .as_slice(),
            [269, 0, 243, 92].as_slice(),
        ),
        (
            4289,
            [
                (4, 4, 5013, 4000),
                (7, 7, 20, 153493),
                (0, 0, 0, 0),
                (3, 5, 12, 5000),
                (24, 98, 98, 326974),
                (42, 42, 105, 42000),
                (1, 1, 8, 1557),
                (22, 245, 245, 390819),
            ]
            .as_slice(),
            [3801, 20, 0, 12, 98, 105, 8, 245].as_slice(),
        ),
        (
            263,
            [
                (10, 245, 252, 245000),
                (11, 11, 13, 11000),
                (0, 0, 600, 0),
                (0, 0, 0, 263241),
            ]
            .as_slice(),
            [252, 11, 0, 0].as_slice(),
        ),
        (
            1921,
            [
                (5, 13, 5013, 13000),
                (202, 202, 1007, 202000),
                (0, 0, 100, 0),
            ]
            .as_slice(),
            [914, 1007, 0].as_slice(),
        ),
        (
            1321,
            [
                (88, 500, 500, 500000),
                (867, 867, 6000, 867000),
                (23, 47, 50, 47000),
                (1, 1, 5, 2368),
                (1, 1, 2, 105426),
                (0, 0, 0, 0),
                (14, 14, 49, 14000),
                (1, 1, 101, 1000),
            ]
            .as_slice(),
            [396, 867, 41, 1, 1, 0, 14, 1].as_slice(),
        ),
        (44, [(43, 43, 98, 43000)].as_slice(), [44].as_slice()),
        (601, [(0, 0, 600, 2346)].as_slice(), [600].as_slice()),
        (
            979,
            [
                (257, 257, 507, 648955),
                (120, 500, 507, 500000),
                (0, 1, 1, 96168),
                (522, 522, 1600, 522000),
                (92, 92, 198, 92000),
                (0, 0, 100, 539),
            ]
            .as_slice(),
            [257, 120, 0, 522, 92, 0].as_slice(),
        ),
        (
            1960,
            [
                (10, 39, 50, 39000),
                (987, 987, 1007, 987000),
                (47, 47, 98, 47000),
                (48, 48, 98, 48000),
                (284, 284, 600, 561723),
                (33, 33, 105, 33000),
            ]
            .as_slice(),
            [50, 1007, 98, 98, 600, 105].as_slice(),
        ),
        (
            17,
            [
                (40, 40, 5049, 40000),
                (2, 13, 14, 13000),
                (0, 0, 7, 0),
                (38, 66, 98, 235152),
                (37, 37, 49, 37000),
            ]
            .as_slice(),
            [40, 2, 0, 38, 37].as_slice(),
        ),
    ] {
        has(&rt, rt.alloc(), seats, rows, want)?;
    }
    Ok(())
}

// By hand: 100 seats among three levels that have 10, 30 and 60. The first asks for 60 and may have 50 at most. The others share
// the 50 seats that are left as 20 is to 30.
#[test]
fn worked(rt: HostRuntime) -> Result<(), Fail> {
    let rows: &[Row] = &[
        (5, 10, 50, 60_000),
        (10, 15, 130, 20_000),
        (20, 20, 160, 30_000),
    ];
    has(&rt, rt.alloc(), 100, rows, &[50, 20, 30])
}
