//! Laws over the definitions alone. The functions do nothing; their contracts are the laws.

ghost use Rattle.std.specs.Prelude.{◌≡◌, ◌≢◌, ◌↔◌, ◌<◌, ◌≤◌, ◌^◌, ◌++◌, ℕ, List, [], length, map, codes, Ok, Err};
ghost use Rattle.std.specs.Prelude.{Contains, slice_get, slice_index};
ghost use Rattle.std.specs.List.{range_with_len};
ghost use Rattle.std.specs.List.Sorted.{IsStrictlyIncreasing};
ghost use Rattle.pb_core.specs.Election.{ElectionView, IsElection, VoterView, voter_ids};
ghost use Rattle.pb_core.specs.Money.{money_of, largest_money};
ghost use Rattle.pb_core.specs.Order.{IsOrder, ballot_in, in_order, position_in};
ghost use Rattle.pb_core.specs.MoneyText.{IsMoneyText, IsWorth, money_text};

use crate::money_fault::MoneyFault;

/// What is written of an amount of 64 bits is a number, a point and two digits, worth just this amount; a
/// zero begins the number only where it is the whole of it. An amount that can be read reads back as the same
/// amount.
pub fn money_reads_back()
    ensures back { (h : ℕ) → h ≤ largest_money → money_of (money_text h) ≡ Ok h }
    ensures spelled { (h : ℕ) → h < 2 ^ 64 → (whole : List ℕ) × (decimals : List ℕ)
        × (money_text h ≡ whole ++ (codes "." ++ decimals)) × (length decimals ≡ 2)
        × IsMoneyText (money_text h) whole decimals × IsWorth whole decimals h
        × ((rest : List ℕ) → whole ≡ codes "0" ++ rest → rest ≡ []) }
{}

/// An amount that is read is the number that the digits of its text name. A text that has no such
/// digits is bad; one whose number is no whole number of hundredths is too fine; and one whose number
/// is above the largest amount is too large.
pub fn money_is_what_its_text_names()
    ensures amount { (text : List ℕ) → (h : ℕ) → money_of text ≡ Ok h
        ↔ ((whole : List ℕ) × (decimals : List ℕ)
        × IsMoneyText text whole decimals × IsWorth whole decimals h × (h ≤ largest_money)) }

    ensures bad { (text : List ℕ) → money_of text ≡ Err MoneyFault.BadMoney
        ↔ (¬ ((whole : List ℕ) × (decimals : List ℕ) × IsMoneyText text whole decimals)) }

    ensures too_fine { (text : List ℕ) → money_of text ≡ Err MoneyFault.MoneyTooFine
        ↔ ((whole : List ℕ) × (decimals : List ℕ)
        × IsMoneyText text whole decimals × ((h : ℕ) → ¬ IsWorth whole decimals h)) }

    ensures too_large { (text : List ℕ) → money_of text ≡ Err MoneyFault.MoneyTooLarge
        ↔ ((whole : List ℕ) × (decimals : List ℕ) × (h : ℕ)
        × IsMoneyText text whole decimals × IsWorth whole decimals h × (largest_money < h)) }
{}

/// What an order is. The position of a place is the first at which it stands there, and the length of the order if
/// it does not. A ballot has, rising, the positions of the places that it approves. An election in an order has the
/// same terms; its projects stand as their places do, and its voters are the same, each with the ballot by positions.
pub fn orders_are_their_words()
    ensures first { (order : List ℕ) (place position : ℕ) → position < length order
        → slice_index order position ≡ place
        → ((before : ℕ) → before < position → slice_index order before ≢ place)
        → position_in order place ≡ position }
    ensures none { (order : List ℕ) (place : ℕ) → ¬ Contains order place
        → position_in order place ≡ length order }
    ensures rising { (order ballot : List ℕ) → IsStrictlyIncreasing (ballot_in order ballot) }
    ensures approved { (order ballot : List ℕ) (position : ℕ) → Contains (ballot_in order ballot) position
        ↔ ((position < length order) × Contains ballot (slice_index order position)) }
    ensures terms { (order : List ℕ) (e : ElectionView) → ((in_order order e).budget ≡ e.budget)
        × ((in_order order e).max_length ≡ e.max_length) }
    ensures projects { (order : List ℕ) (e : ElectionView) → IsElection e → IsOrder order
        → length order ≡ length e.projects → (length (in_order order e).projects ≡ length order)
        × ((position : ℕ) → position < length order
        → slice_get (in_order order e).projects position ≡ slice_get e.projects (slice_index order position)) }
    ensures voters { (order : List ℕ) (e : ElectionView) → (voter_ids (in_order order e) ≡ voter_ids e)
        × (map (λ (v : VoterView). v.ballot) (in_order order e).voters
        ≡ map (λ (v : VoterView). ballot_in order v.ballot) e.voters) }
{}

/// An election whose projects are put in an order, and then back, is as it was: nothing of it is lost.
pub fn orders_lead_back()
    ensures { (e : ElectionView) (order : List ℕ) → IsElection e → IsOrder order
        → length order ≡ length e.projects
        → in_order (map (position_in order) (range_with_len 0 (length order))) (in_order order e) ≡ e }
{}
