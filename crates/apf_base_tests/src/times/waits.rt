//! Worked waits, and random ones beside a sorted list of all of them.

use crate::asserts::{is, is_at};
use crate::times::calls::{add_wait, percentile_of};
use crate::times::draws::Xorshift;
use apf_short::Refusing;
use apf_times::{MOST_WAIT, Waits};
use std::alloc::{AllocError, Allocator, Global};
use std::process::Abort;
use std::test::Fail;

// Waits from `first` on, each one longer than the one before, added with the longest first.
fn add_run<A: Allocator + Copy>(
    rt: &impl Abort,
    waits: &mut Waits<A>,
    first: u64,
    count: u32,
) -> Result<(), AllocError> {
    for number in 0..count {
        let more = u64::from(count.abs_diff(number).saturating_sub(1));
        add_wait(rt, waits, first.saturating_add(more))?;
    }
    Ok(())
}

// By hand. Of 1 to 10,000 the median is 5,000. With 20,000 there are 10,001, and the median is 5,001, which
// is 1001110001001 in binary: its first eight digits and zeros are 4,992. 9,901 is 10011010101101, and
// 9,856 is left. 20,000 is 100111000100000, and 19,968 is left.
#[test]
fn one_more_than_ten_thousand(rt: HostRuntime) -> Result<(), Fail> {
    let mut waits = Waits::new(rt.alloc());
    is(&rt, (waits.len(), waits.is_exact()), (0, true));
    is(&rt, percentile_of(&mut waits, 50), 0);
    add_run(&rt, &mut waits, 1, 10_000)?;
    is(&rt, (waits.len(), waits.is_exact()), (10_000, true));
    for (percent, want) in [(1, 100), (50, 5_000), (99, 9_900), (100, 10_000)] {
        is(&rt, percentile_of(&mut waits, percent), want);
    }
    add_wait(&rt, &mut waits, 20_000)?;
    is(&rt, (waits.len(), waits.is_exact()), (10_001, false));
    for (percent, want) in [(1, 101), (2, 201), (50, 4_992), (99, 9_856), (100, 19_968)] {
        is(&rt, percentile_of(&mut waits, percent), want);
    }
    Ok(())
}

// All waits below 256 stay as they are.
#[test]
fn short_waits(rt: HostRuntime) -> Result<(), Fail> {
    let mut waits = Waits::new(rt.alloc());
    for _ in 0..50 {
        add_run(&rt, &mut waits, 0, 256)?;
    }
    is(&rt, (waits.len(), waits.is_exact()), (12_800, false));
    for (percent, want) in [
        (1, 2),
        (25, 63),
        (50, 127),
        (75, 191),
        (99, 253),
        (100, 255),
    ] {
        is(&rt, percentile_of(&mut waits, percent), want);
    }
    Ok(())
}

// 2 * 10^14 has 48 binary digits. 181 * 2^40 is left.
#[test]
fn the_longest(rt: HostRuntime) -> Result<(), Fail> {
    let mut waits = Waits::new(rt.alloc());
    for _ in 0..10_000 {
        add_wait(&rt, &mut waits, MOST_WAIT)?;
    }
    is(&rt, percentile_of(&mut waits, 50), 200_000_000_000_000);
    add_wait(&rt, &mut waits, 0)?;
    for (percent, want) in [(1, 199_011_604_627_456), (100, 199_011_604_627_456)] {
        is(&rt, percentile_of(&mut waits, percent), want);
    }
    Ok(())
}

// The first eight binary digits, found by halving.
fn plainly_shortened(wait: u64) -> u64 {
    let mut first = wait;
    let mut unit = 1u64;
    for _ in 0..64 {
        if first < 256 {
            break;
        }
        first /= 2;
        unit = unit.saturating_mul(2);
    }
    first.saturating_mul(unit)
}

// The wait at the nearest rank of a list in ascending order.
fn at_rank(sorted: &[u64], percent: u32) -> u64 {
    let rank = (sorted.len() as u64)
        .saturating_mul(u64::from(percent))
        .div_ceil(100);
    let place = rank.saturating_sub(1) as usize;
    sorted.get(place).copied().unwrap_or(0)
}

fn agree(
    rt: &impl Abort,
    waits: &mut Waits<Global>,
    plain: &mut Vec<u64>,
    is_exact: bool,
) -> Result<(), Fail> {
    plain.sort_unstable();
    is(
        rt,
        (waits.len(), waits.is_exact()),
        (plain.len() as u64, is_exact),
    );
    for percent in 1..101 {
        let at = at_rank(plain.as_slice(), percent);
        let want = if is_exact { at } else { plainly_shortened(at) };
        is_at(rt, percentile_of(waits, percent), want, percent);
    }
    Ok(())
}

// A wait of up to this many binary digits.
fn draw(random: &mut Xorshift, digits: u32) -> u64 {
    let length = random.below(digits.saturating_add(1)).min(63);
    (random.next() % (1u64 << length)).min(MOST_WAIT)
}

#[test]
fn random(rt: HostRuntime) -> Result<(), Fail> {
    let mut random = Xorshift::new(88_172_645_463_325_252);
    for digits in [1, 8, 9, 20, 48] {
        let mut waits = Waits::new(rt.alloc());
        let mut plain: Vec<u64> = Vec::new(rt.alloc());
        for number in 1..30_001u32 {
            let wait = draw(&mut random, digits);
            add_wait(&rt, &mut waits, wait)?;
            plain.push(wait)?;
            if number < 20 || [9_999, 10_000, 10_001, 30_000].contains(&number) {
                agree(&rt, &mut waits, &mut plain, number <= 10_000)?;
            }
        }
    }
    Ok(())
}

// Fills waits, and says whether nothing was refused. What is refused changes nothing, and comes again.
fn fill<A: Allocator>(rt: &impl Abort, alloc: &Refusing<A>, count: u32) -> bool {
    let mut waits = Waits::new(alloc);
    let mut refusals = 0u32;
    for number in 0..count {
        if add_wait(rt, &mut waits, u64::from(number)).is_err() {
            is(
                rt,
                (waits.len(), waits.is_exact()),
                (u64::from(number), true),
            );
            refusals = refusals.saturating_add(1);
            assert!(rt; add_wait(rt, &mut waits, u64::from(number)).is_ok());
        }
    }
    is(rt, waits.len(), u64::from(count));
    is(
        rt,
        percentile_of(&mut waits, 1),
        u64::from(count.div_ceil(100)).saturating_sub(1),
    );
    is(rt, refusals, alloc.has_refused() as u32);
    refusals == 0
}

// No more memory is asked for than for the first 10,001 waits.
#[test]
fn each_refusal_is_returned(rt: HostRuntime) {
    let mut refusals = 0u32;
    for refused in 1..100 {
        let is_filled = fill(&rt, &Refusing::new(rt.alloc(), refused), 10_001);
        let are_more = fill(&rt, &Refusing::new(rt.alloc(), refused), 20_000);
        is_at(&rt, are_more, is_filled, refused);
        if is_filled {
            break;
        }
        refusals = refusals.saturating_add(1);
    }
    assert!(rt; refusals > 3 && refusals < 99);
}

// Nothing is asked for before the first wait.
#[test]
fn empty_waits_take_no_memory(rt: HostRuntime) {
    let alloc = Refusing::new(rt.alloc(), 1);
    let mut waits = Waits::new(&alloc);
    is(&rt, percentile_of(&mut waits, 99), 0);
    assert!(rt; !alloc.has_refused());
    assert!(rt; add_wait(&rt, &mut waits, 7).is_err());
    is(&rt, waits.len(), 0);
}
