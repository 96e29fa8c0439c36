//! Flow hashes and hands, with values from outside.

use crate::asserts::{is, is_at};
use apf_flow::{Dealer, DealerFault, flow_hash};
use std::alloc::Global;
use std::process::Abort;
use std::test::Fail;

// Two empty texts leave the zero byte alone, whose digest begins 6e340b9cffb37a98.
#[test]
fn hash(rt: HostRuntime) {
    is(&rt, flow_hash("", ""), 0x987a_b3ff_9c0b_346e);
}

// Computed with Python's hashlib.
#[test]
fn hashes_of_texts(rt: HostRuntime) {
    for (schema, distinguisher, want) in [
        ("workload-low", "alice", 0xa67f_3f6b_c720_4775),
        ("workload-lowa", "lice", 0x4d31_2bf8_7d3c_c803),
        ("a", "b", 0xd3b1_bc1b_ae71_b259),
        ("ab", "", 0xd5c0_2636_ebaa_9c96),
        ("", "ab", 0xaf14_5b5f_9ada_d10b),
        ("Ä", "ß€😀", 0xa558_af8b_c7e3_a4b9),
    ] {
        let found = flow_hash(schema, distinguisher);
        is_at(&rt, found, want, (schema, distinguisher));
    }
}

// Asserts that this hand is dealt.
fn is_dealt(rt: &impl Abort, deck: u32, hand: u32, hash: u64, want: &[u32]) -> Result<(), Fail> {
    let dealer = Dealer::new(deck, hand)?;
    is_at(rt, dealer.deal(hash).as_slice(), want, (deck, hand, hash));
    Ok(())
}

#[test]
fn deals(rt: HostRuntime) -> Result<(), Fail> {
    for (deck, hand, hash, want) in [
        (8, 3, 0, [0, 1, 2].as_slice()),
        (8, 3, 100, [4, 6, 1].as_slice()),
        (8, 3, 335, [7, 6, 5].as_slice()),
        (8, 3, 336, [0, 1, 2].as_slice()),
        (1, 1, u64::MAX, [0].as_slice()),
        (64, 1, 10_987_292_151_339_758_702, [46].as_slice()),
        (64, 8, 0, [0, 1, 2, 3, 4, 5, 6, 7].as_slice()),
        (5, 5, 119, [4, 3, 2, 1, 0].as_slice()),
        (5, 5, 7, [2, 1, 0, 3, 4].as_slice()),
        (
            16,
            15,
            u64::MAX,
            [15, 0, 8, 7, 2, 6, 9, 3, 14, 1, 5, 13, 11, 12, 10].as_slice(),
        ),
        (67_108_864, 2, u64::MAX, [67_108_863, 4095].as_slice()),
    ] {
        is_dealt(&rt, deck, hand, hash, want)?;
    }
    Ok(())
}

// Asserts that this is the number of a fault, and this its text.
fn is_told(
    rt: &impl Abort,
    alloc: Global,
    fault: DealerFault,
    number: u8,
    text: &str,
) -> Result<(), Fail> {
    is(rt, fault.number(), number);
    let written = fault.to_string(alloc)?;
    is(rt, written.as_str(), text);
    Ok(())
}

#[test]
fn dealer_faults(rt: HostRuntime) -> Result<(), Fail> {
    for (deck, hand, fault, number, text) in [
        (0, 1, DealerFault::NotPositive, 1, "not positive"),
        (3, 0, DealerFault::NotPositive, 1, "not positive"),
        (3, 4, DealerFault::HandTooLarge, 2, "hand too large"),
        (
            67_108_865,
            1,
            DealerFault::DeckTooLarge,
            3,
            "deck too large",
        ),
        (
            67_108_865,
            67_108_866,
            DealerFault::HandTooLarge,
            2,
            "hand too large",
        ),
        (16, 16, DealerFault::TooMuchEntropy, 4, "too much entropy"),
        (64, 11, DealerFault::TooMuchEntropy, 4, "too much entropy"),
        (
            32_769,
            4,
            DealerFault::TooMuchEntropy,
            4,
            "too much entropy",
        ),
    ] {
        is_at(&rt, Dealer::new(deck, hand), Err(fault), (deck, hand));
        is_told(&rt, rt.alloc(), fault, number, text)?;
    }
    Ok(())
}

// The last sizes before a fault: `64 ^ 10` and `32768 ^ 4` are 2^60.
#[test]
fn largest_sizes(rt: HostRuntime) {
    for (deck, hand) in [
        (1, 1),
        (15, 15),
        (16, 15),
        (64, 10),
        (32_768, 4),
        (67_108_864, 2),
    ] {
        assert!(rt; Dealer::new(deck, hand).is_ok(), "{deck} {hand}");
    }
}
