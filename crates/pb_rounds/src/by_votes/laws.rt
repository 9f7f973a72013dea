//! Laws over most votes first, each as the contract of a function that does nothing.

ghost use Rattle.std.specs.Prelude.{◌≡◌, ◌≢◌, ◌⊎◌, ◌↔◌, ◌<◌, ◌≤◌, ◌++◌, ℕ, List, All, AllPairs, Contains, false, sum_by};
ghost use Rattle.std.specs.Prelude.{true, ◌-◌};
ghost use Rattle.pb_core.specs.Election.{ElectionView, IsElection};
ghost use Rattle.pb_price.specs.Supporters.{SupportView, cost_at, support_of};
ghost use Rattle.pb_rounds.specs.MostVotes.{IsMostVotesFirst, comes_first, fits, is_taken};
ghost use Rattle.pb_rounds.specs.MostVotes.{most_votes_first, votes_at};

/// What the tests of the rule say. A project fits if it has a supporter, is not taken, and costs no more than is
/// left. One comes first with more votes, or with as many and a lower cost, or with these too and an earlier
/// place.
pub fn tests_of_most_votes_are_their_words()
    ensures taken { (taken : List ℕ) (place : ℕ) → (is_taken taken place ≡ true) ↔ Contains taken place }
    ensures fits { (s : SupportView) (taken : List ℕ) (left place : ℕ) → (fits s taken left place ≡ true)
        ↔ ((0 < votes_at s place) × (¬ Contains taken place) × (cost_at s place ≤ left)) }
    ensures first { (s : SupportView) (place other : ℕ) → (comes_first s place other ≡ true)
        ↔ ((votes_at s other < votes_at s place) ⊎ ((votes_at s other ≡ votes_at s place)
        × ((cost_at s place < cost_at s other) ⊎ ((cost_at s place ≡ cost_at s other) × (place < other))))) }
{}

/// Most votes first adds the one list of projects of which the words of its rule hold.
pub fn most_votes_first_is_its_rule()
    ensures { (e : ElectionView) (taken : List ℕ) (left : ℕ) (added : List ℕ) → IsElection e
        → (added ≡ most_votes_first (support_of e) taken left) ↔ IsMostVotesFirst
        (support_of e) taken left added }
{}

/// What most votes first adds is paid from what was left, has supporters, was not taken before and is added
/// once; and no project that fits is left.
pub fn what_is_added_fits()
    ensures paid { (e : ElectionView) (taken : List ℕ) (left : ℕ) → IsElection e
        → sum_by (cost_at (support_of e)) (most_votes_first (support_of e) taken left) ≤ left }
    ensures supported { (e : ElectionView) (taken : List ℕ) (left : ℕ) → IsElection e
        → All (λ place. 0 < votes_at (support_of e) place) (most_votes_first (support_of e) taken left) }
    ensures not_taken { (e : ElectionView) (taken : List ℕ) (left : ℕ) → IsElection e
        → All (λ place. is_taken taken place ≡ false) (most_votes_first (support_of e) taken left) }
    ensures once { (e : ElectionView) (taken : List ℕ) (left : ℕ) → IsElection e
        → AllPairs (λ place other. place ≢ other) (most_votes_first (support_of e) taken left) }
    ensures none_fits { (e : ElectionView) (taken : List ℕ) (left place : ℕ) → IsElection e
        → fits (support_of e) (taken ++ most_votes_first (support_of e) taken left)
        (left - sum_by (cost_at (support_of e)) (most_votes_first (support_of e) taken left)) place ≡ false }
{}
