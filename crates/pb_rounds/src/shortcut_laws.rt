//! Why the shortcuts of a completion pass over no raise that decides, each as the contract of a function that
//! does nothing. Nobody has to believe them: what a count promises says nothing of shortcuts.

ghost use Rattle.std.specs.Prelude.{◌≡◌, ◌<◌, ◌≤◌, ℕ};
ghost use Rattle.pb_core.specs.Election.{ElectionView};
ghost use Rattle.pb_price.specs.Supporters.{IsSupport, support_in};
ghost use Rattle.pb_price.specs.declared.grain.Grain.{Grain};
ghost use Rattle.pb_rounds.specs.Completed.{IsExhausted};
ghost use Rattle.pb_rounds.specs.Count.{spent_on};
ghost use Rattle.pb_rounds.specs.Inner.Between.{KeepsUpTo, places_of_elected};
ghost use Rattle.pb_rounds.specs.Inner.Reach.{LeavesRoom};
ghost use Rattle.pb_rounds.specs.Run.{outcome_of};
ghost use Rattle.pb_rounds.specs.declared.measure.Measure.{Measure};

/// Where the projects within reach of a share leave of the budget what some other project with supporters
/// costs, the outcome at that share is neither over the budget nor exhausted.
pub fn room_decides_nothing()
    ensures { (m : Measure) (grain : Grain) (e : ElectionView) (share : ℕ) → LeavesRoom (support_in grain e) e.budget share
        → (¬ (e.budget < spent_on (support_in grain e) (outcome_of m grain e share).elected))
        × (¬ IsExhausted (support_in grain e) e.budget (outcome_of m grain e share).elected) }
{}

/// Where the projects elected at a smaller share are so from a larger one, each before every other even at
/// its price of the smaller share, every share in between elects the same projects in the same order. (For
/// the same elected before, rests grow with the share and prices fall. So in between the elected project's
/// price is at most that of the smaller share, and the others' prices are at least those of the larger one.)
pub fn same_elected_in_between()
    ensures { (m : Measure) (grain : Grain) (e : ElectionView) (small share large : ℕ) → small ≤ share → share ≤ large
        → KeepsUpTo m (support_in grain e) small large
        → places_of_elected (outcome_of m grain e share).elected ≡ places_of_elected
        (outcome_of m grain e small).elected }
{}
