//! Worked percentiles, and random ones beside a plain count.

use crate::asserts::is_at;
use crate::times::draws::Xorshift;
use apf_times::percentile;
use std::alloc::Global;
use std::process::Abort;
use std::test::Fail;

// A copy of the waits is sorted, so that each row begins with the same order.
fn percentile_of(alloc: Global, waits: &[u64], percent: u32) -> Result<u64, Fail> {
    let mut copy = Vec::from_slice(alloc, waits)?;
    let percent = percent.clamp(1, 100);
    Ok(percentile(copy.as_mut_slice(), percent))
}

// Asserts that this is the percentile of these waits.
fn has(rt: &impl Abort, alloc: Global, waits: &[u64], percent: u32, want: u64) -> Result<(), Fail> {
    let found = percentile_of(alloc, waits, percent)?;
    is_at(rt, found, want, (percent, waits));
    Ok(())
}

// By hand: of n waits in order, the wait at place percent * n / 100, rounded up.
#[test]
fn worked(rt: HostRuntime) -> Result<(), Fail> {
    for (waits, percent, want) in [
        ([].as_slice(), 50, 0),
        ([7].as_slice(), 1, 7),
        ([7].as_slice(), 100, 7),
        ([0, 0, 120, 120].as_slice(), 50, 0),
        ([120, 0, 120, 0].as_slice(), 51, 120),
        ([50, 160, 0].as_slice(), 50, 50),
        ([50, 160, 0].as_slice(), 99, 160),
        ([50, 15, 40, 20, 35].as_slice(), 5, 15),
        ([50, 15, 40, 20, 35].as_slice(), 30, 20),
        ([50, 15, 40, 20, 35].as_slice(), 40, 20),
        ([50, 15, 40, 20, 35].as_slice(), 50, 35),
        ([50, 15, 40, 20, 35].as_slice(), 100, 50),
        ([20, 3, 16, 6, 15, 7, 13, 8, 10, 8].as_slice(), 25, 7),
        ([20, 3, 16, 6, 15, 7, 13, 8, 10, 8].as_slice(), 50, 8),
        ([20, 3, 16, 6, 15, 7, 13, 8, 10, 8].as_slice(), 75, 15),
        ([20, 3, 16, 6, 15, 7, 13, 8, 10, 9, 8].as_slice(), 50, 9),
        ([u64::MAX, 0, u64::MAX].as_slice(), 34, u64::MAX),
        ([u64::MAX, 0, u64::MAX].as_slice(), 33, 0),
    ] {
        has(&rt, rt.alloc(), waits, percent, want)?;
    }
    Ok(())
}

// At 100 waits the percentile P is the wait at place P, and one more wait moves it.
#[test]
fn of_a_hundred(rt: HostRuntime) -> Result<(), Fail> {
    let mut waits: Vec<u64> = Vec::new(rt.alloc());
    for number in 0..100u64 {
        waits.push(1_000 - number)?;
    }
    for percent in 1..101 {
        has(
            &rt,
            rt.alloc(),
            waits.as_slice(),
            percent,
            900 + u64::from(percent),
        )?;
    }
    waits.push(0)?;
    for (percent, want) in [(1, 901), (99, 999), (100, 1_000)] {
        has(&rt, rt.alloc(), waits.as_slice(), percent, want)?;
    }
    Ok(())
}

// The least wait that enough are not above, by a count for each wait.
fn plainly(waits: &[u64], percent: u32) -> u64 {
    let mut least = None;
    for wait in waits {
        let mut not_above = 0u64;
        for other in waits {
            if other <= wait {
                not_above = not_above.saturating_add(1);
            }
        }
        let enough = not_above.saturating_mul(100)
            >= u64::from(percent).saturating_mul(waits.len() as u64);
        if enough && least.is_none_or(|found| *wait < found) {
            least = Some(*wait);
        }
    }
    least.unwrap_or(0)
}

fn agree(rt: &impl Abort, alloc: Global, widest: u32, random: &mut Xorshift) -> Result<(), Fail> {
    let count = random.below(40);
    let mut waits: Vec<u64> = Vec::new(alloc);
    for _ in 0..count {
        waits.push(u64::from(random.below(widest)))?;
    }
    for percent in 1..101 {
        let want = plainly(waits.as_slice(), percent);
        has(rt, alloc, waits.as_slice(), percent, want)?;
    }
    Ok(())
}

#[test]
fn random(rt: HostRuntime) -> Result<(), Fail> {
    let mut random = Xorshift::new(88_172_645_463_325_252);
    for round in 0..200 {
        let widest = if round % 2 == 0 { 5 } else { 1_000_000 };
        agree(&rt, rt.alloc(), widest, &mut random)?;
    }
    Ok(())
}
