//! Laws over prices, each as the contract of a function that does nothing.

ghost use Rattle.std.specs.Prelude.{◌≡◌, ◌↔◌, ℕ, ◌+◌, ◌*◌, ◌<◌, ◌≤◌, List, [], Option, Some, None, Contains, length};
ghost use Rattle.std.specs.Prelude.{slice_index, sum_by};
ghost use Rattle.std.specs.List.{range_with_len};
ghost use Rattle.std.specs.List.Sorted.{IsStrictlyIncreasing};
ghost use mathlib.Core.Option.{some};
ghost use lib.ListN.{get_elem?};
ghost use Rattle.atomic_table.specs.Table.{State, keeps, stepped};
ghost use Rattle.pb_core.specs.Election.{ElectionView};
ghost use Rattle.pb_price.specs.Claims.{AreClaims};
ghost use Rattle.pb_price.specs.Price.{PriceView, price_at, IsPrice};
ghost use Rattle.pb_price.specs.Supporters.{SupportView, ballot_at, cost_in_parts, supporters_of};
ghost use Rattle.pb_price.specs.declared.claims.drawn.Drawn.{Drawn};
ghost use Rattle.pb_price.specs.declared.grain.Grain.TheVariants.{Fine};

/// The supporters of a project are the voters whose ballot approves it, by position, rising.
pub fn supporters_approve()
    ensures rise { (e : ElectionView) (place : ℕ) → IsStrictlyIncreasing (supporters_of e place) }
    ensures approve { (e : ElectionView) (place voter : ℕ) → Contains (supporters_of e place) voter
        ↔ ((voter < length e.voters) × Contains (ballot_at e voter) place) }
{}

/// The price that is computed is the one of which the words of its rule hold: in hundredths the least payment by which
/// the supporters cover the cost; in fine money, of what costs something, the one by which they cover it exactly; and none
/// where all that is left to them together is below the cost.
pub fn price_is_least_payment()
    ensures { (s : SupportView) (rests : List ℕ) (place : ℕ) (answer : Option PriceView)
        → (s.grain ≡ Fine → 0 < cost_in_parts s place) → (answer ≡ price_at s rests place) ↔ IsPrice s rests place answer }
{}

/// Where no rest rises, no price falls, and a project without a price gets none.
pub fn no_price_falls()
    ensures rises { (s : SupportView) (before after : List ℕ) (place : ℕ) (p q : PriceView)
        → ((voter : ℕ) → slice_index after voter ≤ slice_index before voter)
        → IsPrice s before place (Some p) → IsPrice s after place (Some q)
        → p.amount * q.payers ≤ q.amount * p.payers }
    ensures stays_none { (s : SupportView) (before after : List ℕ) (place : ℕ)
        → ((voter : ℕ) → slice_index after voter ≤ slice_index before voter)
        → IsPrice s before place None → IsPrice s after place None }
{}

/// What the rule of the claims says of an atomic step, of whatever kind it is: the numbers in the view of the
/// worker who makes it grow by those that the word passes, each once, and by no others. So a worker has drawn
/// a number only where its own step took the word past it.
pub fn a_step_draws_what_the_word_passes()
    ensures { (pieces workers id next : ℕ) (s : State (Unit {0}) Drawn) (old new : Drawn)
        → AreClaims pieces workers s → get_elem? s.views id ≡ some old
        → AreClaims pieces workers (stepped s 0 next id [] new keeps) → (weight : ℕ → ℕ)
        → sum_by weight new.numbers + sum_by weight (range_with_len 0 (slice_index s.words 0))
        ≡ sum_by weight old.numbers + sum_by weight (range_with_len 0 next) }
{}
