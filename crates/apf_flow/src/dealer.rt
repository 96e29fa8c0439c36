//! Deals hands of queues by a hash, as shuffle sharding does.

ghost use Rattle.std.specs.Prelude.{◌≡◌, ◌≢◌, ◌<◌, ◌+◌, ◌^◌, ◌↔◌, length, IsTrue, IsOk, IfOk, All, AllPairs};
ghost use Rattle.std.specs.Result.{result_err};
ghost use Rattle.apf_flow.specs.Places.{IsCardAt};

use crate::fault::DealerFault;
use arrayvec::ArrayVec;
use std::marker::Model;

/// The most cards of a deck.
const MAX_DECK: u32 = 1 << 26;

/// The largest `deck ^ hand`: a hand uses up 60 of a hash's 64 bits at most.
const MAX_HANDS: u64 = 1 << 60;

/// Deals hands of `hand` distinct cards from a deck of `deck` cards, which are numbered from 0.
///
/// The cards are a priority level's queues. It is the dealer of the apiserver's package
/// `shufflesharding`, with limits of its own.
#[derive(Clone, Copy, Debug, PartialEq, Eq)]
pub struct Dealer {
    deck: u32,
    hand: u32,
}

impl Model for Dealer {
    ghost use Rattle.apf_flow.specs.Sizes.{Sizes, IsDealable};

    ghost Value = { Sizes };

    ghost view = { λ dealer. record { deck = dealer.deck; hand = dealer.hand } };

    ghost invariant = { λ dealer. IsDealable dealer.deck dealer.hand };

    ghost inverse = { λ sizes. record { deck = sizes.deck; hand = sizes.hand } };
}

impl Dealer {
    ghost use Rattle.apf_flow.specs.Sizes.{IsDealable};
    ghost use Rattle.apf_flow.specs.Fault.{fault_of};
    ghost use Rattle.apf_flow.specs.Deal.{hand_of};

    /// A dealer of hands of `hand` cards from a deck of `deck` cards, 1 to 2^26.
    ///
    /// A hand has 1 to 15 cards, since 16 from a deck of 16 are too much entropy already.
    ///
    /// # Errors
    ///
    /// The first of these that applies: [`DealerFault::NotPositive`] if `deck` or `hand` is 0,
    /// [`DealerFault::HandTooLarge`] if `hand > deck`, [`DealerFault::DeckTooLarge`] if `deck` is
    /// above 2^26, [`DealerFault::TooMuchEntropy`] if `deck ^ hand`, over whole numbers, is above
    /// 2^60.
    pub fn new(deck: u32, hand: u32) -> Result<Dealer, DealerFault>
        ensures accepted { IsOk result ↔ IsDealable deck hand }
        ensures fault { result_err result ≡ fault_of deck hand }
        ensures sizes { IfOk result (λ dealer. (dealer.deck ≡ deck) × (dealer.hand ≡ hand)) }
    {
        if deck == 0 || hand == 0 {
            return Err(DealerFault::NotPositive);
        }
        if hand > deck {
            return Err(DealerFault::HandTooLarge);
        }
        if deck > MAX_DECK {
            return Err(DealerFault::DeckTooLarge);
        }
        if has_too_much_entropy(deck, hand) {
            return Err(DealerFault::TooMuchEntropy);
        }
        Ok(Dealer { deck, hand })
    }

    /// The hand that `hash` deals: distinct cards below the deck's size, in the order dealt.
    ///
    /// Step i, from 0, takes the remainder of the hash by `deck - i` as the place, in ascending
    /// order, among the cards not yet dealt, and goes on with the quotient. No list of the cards
    /// left is kept: each place is corrected by the places before it.
    pub fn deal(&self, hash: u64) -> ArrayVec<u32, 15>
        ensures dealt { result.items ≡ hand_of self.now hash }

        // What follows from it, whatever the hash.
        ensures size { length result.items ≡ self.now.hand }
        ensures not_empty { 0 < length result.items }
        ensures distinct { AllPairs (λ card later. card ≢ later) result.items }
        ensures in_deck { All (λ card. card < self.now.deck) result.items }
    {
        let deck = self.deck;
        let hand = self.hand;
        let mut places: ArrayVec<u32, 15> = ArrayVec::new();
        let mut cards: ArrayVec<u32, 15> = ArrayVec::new();
        let mut rest = hash;
        for i in 0..hand {
            let left = u64::from(deck - i);
            let place = (rest % left) as u32;
            rest /= left;
            cards.push(card_at(places.as_slice(), place));
            places.push(place);
        }
        cards
    }
}

// Whether `deck ^ hand` is above the limit.
fn has_too_much_entropy(deck: u32, hand: u32) -> bool
    ensures { IsTrue result ↔ (2 ^ 60 < deck ^ hand) }
{
    match u64::from(deck).checked_pow(hand) {
        Some(hands) => hands > MAX_HANDS,
        None => true,
    }
}

// The card at `place` among those left after the cards at `places` were taken out in turn.
//
// It puts the cards back, the last one first: each that goes in at or below the place moves it up.
fn card_at(places: &[u32], place: u32) -> u32
    requires { place + length places.now < 2 ^ 32 }
    ensures { IsCardAt places.now place result }
{
    let mut card = place;
    for j in (0..places.len()).rev() {
        if places[j] <= card {
            card += 1;
        }
    }
    card
}
