//! Laws over counts and their rules, each as the contract of a function that does nothing.

ghost use Rattle.std.specs.Prelude.{◌≡◌, ◌≢◌, ◌↔◌, ◌⊎◌, ◌+◌, ◌*◌, ◌<◌, ◌≤◌, ◌==◌, ◌++◌, ◌∷◌, ℕ, List, [], None, Some};
ghost use Rattle.std.specs.Prelude.{◌^◌, All, Any, Contains, false, filter, length, option_map, replicate, slice_index, slice_index_or, sum_by, true};
ghost use Rattle.std.specs.List.{list_any, range_with_len};
ghost use Rattle.pb_core.specs.Election.{ElectionView, IsElection};
ghost use Rattle.pb_core.specs.Order.{in_order};
ghost use Rattle.pb_price.specs.Grain.{in_parts};
ghost use Rattle.pb_price.specs.Price.{PriceView, IsPrice};
ghost use Rattle.pb_price.specs.Supporters.{IsSupport, SupportView, support_in, support_of, supporters_at};
ghost use Rattle.pb_price.specs.declared.grain.Grain.{Grain};
ghost use Rattle.pb_price.specs.declared.grain.Grain.TheVariants.{Fine, Hundredths};
ghost use Rattle.pb_rounds.specs.Cheapest.{IsLeft, IsRun, rests_after};
ghost use Rattle.pb_rounds.specs.Completed.{AreSpent, IsCompleted};
ghost use Rattle.pb_rounds.specs.Count.{add1_of, count_of, has_too_fine_cost, is_too_fine, opening_share, share_by, step_of};
ghost use Rattle.pb_rounds.specs.CountFault.{largest_step, refusal_of};
ghost use Rattle.pb_rounds.specs.Counted.{IsCountFault, IsCountOf};
ghost use Rattle.pb_rounds.specs.Fairness.{OfSomeMember, paid_within};
ghost use Rattle.pb_rounds.specs.Outcome.{OutcomeView, settled};
ghost use Rattle.pb_rounds.specs.Payments.{paid_in_turn};
ghost use Rattle.pb_rounds.specs.RuleNames.{profile_name};
ghost use Rattle.pb_rounds.specs.TieOrder.{IsTieOrder, by_file};
ghost use Rattle.pb_rounds.specs.Run.{ElectedView, RunView, charged, is_elected, outcome_of, payment_of, weight_of};
ghost use Rattle.pb_rounds.specs.declared.count_fault.CountFault.TheVariants.{RaisesSpent};
ghost use Rattle.pb_rounds.specs.declared.measure.Measure.{Measure};
ghost use Rattle.pb_rounds.specs.declared.options.Completion.TheVariants.{Add1, NoShares};
ghost use Rattle.pb_rounds.specs.declared.options.CountOptions.{CountOptions};
ghost use Rattle.pb_rounds.specs.declared.rule.Rule.{Rule};
ghost use Rattle.pb_rounds.specs.declared.tie_rule.TieRule.{TieRule};

/// The opening share is the largest that all voters can get of the budget; in fine money, just what they get of it.
/// Where nobody votes it is 0.
pub fn opening_share_is_largest()
    ensures within { (grain : Grain) (e : ElectionView)
        → length e.voters * opening_share grain e ≤ in_parts grain (length e.voters) e.budget }
    ensures largest { (grain : Grain) (e : ElectionView) → 0 < length e.voters
        → in_parts grain (length e.voters) e.budget < length e.voters * (opening_share grain e + 1) }
    ensures exactly { (e : ElectionView) → 0 < length e.voters
        → length e.voters * opening_share Fine e ≡ in_parts Fine (length e.voters) e.budget }
    ensures nobody { (grain : Grain) (e : ElectionView) → length e.voters ≡ 0 → opening_share grain e ≡ 0 }
{}

/// Completion by raises decides on a number of raises exactly where the words of its rule hold of that
/// number, and on none exactly where no number of raises up to the limit ends it.
pub fn completion_is_its_rule()
    ensures decided { (m : Measure) (grain : Grain) (e : ElectionView) (step limit raises : ℕ)
        → IsSupport (support_in grain e)
        → (add1_of m grain e step limit ≡ Some raises) ↔ IsCompleted m grain e step limit raises }
    ensures spent { (m : Measure) (grain : Grain) (e : ElectionView) (step limit : ℕ)
        → IsSupport (support_in grain e) → (add1_of m grain e step limit ≡ None) ↔ AreSpent m grain e step limit }
{}

/// A count has one outcome, up to how many prices were computed, and `count_of` computes it; it computes none
/// exactly where the raises are spent. Amounts can be counted so finely just where the largest share that there can be,
/// and each cost, are less than 2^64 parts; in hundredths they always are.
pub fn count_is_computed()
    ensures one { (e : ElectionView) (options : CountOptions) (first second : OutcomeView)
        → IsCountOf e options first → IsCountOf e options second
        → first ≡ record second { priced = first.priced } }
    ensures computed { (e : ElectionView) (options : CountOptions) (o : OutcomeView) → IsCountOf e options o
        → count_of e options ≡ Some (settled o) }
    ensures spent { (e : ElectionView) (options : CountOptions) → IsElection e → refusal_of options ≡ None
        → is_too_fine e options ≡ false
        → (count_of e options ≡ None) ↔ IsCountFault e options RaisesSpent }
    ensures fine { (e : ElectionView) (options : CountOptions) → (is_too_fine e options ≡ false)
        ↔ ((share_by options.completion options.grain e (step_of e options) options.max_raises < 2 ^ 64)
        × All (λ p. in_parts options.grain (length e.voters) p.cost < 2 ^ 64) e.projects) }
    ensures costs { (grain : Grain) (e : ElectionView) → (has_too_fine_cost grain e ≡ false)
        ↔ All (λ p. in_parts grain (length e.voters) p.cost < 2 ^ 64) e.projects }
    ensures hundredths { (e : ElectionView) (options : CountOptions) → IsElection e → refusal_of options ≡ None
        → options.grain ≡ Hundredths → is_too_fine e options ≡ false }
{}

/// The run at a share is the one of which the words of its rule hold: each of the elected was the cheapest of
/// its round and collected what its supporters could pay of its price, the rests are what is left then, and
/// no project left has a price. Of two projects whose price for each unit of utility is the same, the rule for ties,
/// which has put them in order, decides, and nothing else.
pub fn run_is_its_rule()
    ensures run { (m : Measure) (grain : Grain) (e : ElectionView) (share : ℕ) (run : RunView)
        → IsSupport (support_in grain e)
        → (run ≡ outcome_of m grain e share) ↔ IsRun m (support_in grain e) share run.elected run.rests }
    ensures ties { (m : Measure) (s : SupportView) (share : ℕ) (elected : List ElectedView) (rests : List ℕ)
        → (before : List ElectedView) (w : ElectedView) (later : List ElectedView) (other : ℕ) (price : PriceView)
        → IsRun m s share elected rests → elected ≡ before ++ w ∷ later → IsLeft s before other → other ≢ w.place
        → IsPrice s (rests_after s (replicate s.voters share) before) other (Some price)
        → price.amount * (w.exact.payers * weight_of m s w.place)
        ≡ w.exact.amount * (price.payers * weight_of m s other) → w.place < other }
{}

/// What voters pay. Nobody pays more than the price, or than is left. A supporter pays the one or the other, and nobody
/// else anything. What is left then, and what was paid, is what was left before. For each of the elected, one after
/// the other, each voter pays out of what those before it left. A project is elected if one of the elected has its
/// place.
pub fn payments_are_their_words()
    ensures within { (supporters rests : List ℕ) (price v : ℕ) → (payment_of supporters price rests v ≤ price)
        × (payment_of supporters price rests v ≤ slice_index rests v) }
    ensures supporter { (supporters rests : List ℕ) (price v : ℕ) → Contains supporters v
        → (payment_of supporters price rests v ≡ price) ⊎ (payment_of supporters price rests v ≡ slice_index rests v) }
    ensures other { (supporters rests : List ℕ) (price v : ℕ) → ¬ Contains supporters v
        → payment_of supporters price rests v ≡ 0 }
    ensures left { (supporters rests : List ℕ) (price : ℕ) → (length (charged supporters price rests) ≡ length rests)
        × ((v : ℕ) → slice_index (charged supporters price rests) v + payment_of supporters price rests v
        ≡ slice_index rests v) }
    ensures rows { (s : SupportView) (rests : List ℕ) (elected : List ElectedView)
        → length (paid_in_turn s rests elected) ≡ length elected }
    ensures in_turn { (s : SupportView) (rests : List ℕ) (before : List ElectedView) (w : ElectedView)
        → (later : List ElectedView)
        → (length (slice_index_or (paid_in_turn s rests (before ++ w ∷ later)) (length before) []) ≡ length rests)
        × ((v : ℕ) → slice_index (slice_index_or (paid_in_turn s rests (before ++ w ∷ later)) (length before) []) v
        ≡ payment_of (supporters_at s w.place) w.price (rests_after s rests before) v) }
    ensures elected { (elected : List ElectedView) (place : ℕ) → (is_elected elected place ≡ true)
        ↔ Any (λ (w : ElectedView). w.place ≡ place) elected }
{}

/// Every run, and so every outcome of a count, is fair to groups: of voters who all want a project that is
/// not elected, and whose shares together pay for it, at least one had already spent so much, on elected
/// projects that took no more from it (under measure cost, for their cost) than that project would have, that
/// too little of the share was left. (Added projects are no elected ones.)
///
/// So at least one supports so many of the elected that, at the amount for each, they and one more would take
/// more than the share; under measure cost, so costly ones that, at the amount for as much cost as the
/// project's, they and the project would.
pub fn outcomes_are_fair_to_groups()
    ensures run { (m : Measure) (s : SupportView) (share : ℕ) (elected : List ElectedView) (rests : List ℕ)
        → IsRun m s share elected rests → OfSomeMember s elected (λ place amount voter.
        share < paid_within m s share elected place amount voter + amount) }
    ensures count { (e : ElectionView) (options : CountOptions) (o : OutcomeView) → IsCountOf e options o
        → OfSomeMember (support_in options.grain e) o.elected (λ place amount voter. o.share
        < paid_within options.measure (support_in options.grain e) o.share o.elected place amount voter + amount) }
    ensures winners { (e : ElectionView) (options : CountOptions) (o : OutcomeView) → IsCountOf e options o
        → let weight : ℕ → ℕ = weight_of options.measure (support_in options.grain e) in
        OfSomeMember (support_in options.grain e) o.elected (λ place amount voter.
        let supported = filter
        (λ w. list_any (λ v. v == voter) (supporters_at (support_in options.grain e) w.place)) o.elected in
        o.share * weight place < amount * (sum_by (λ w. weight w.place) supported + weight place)) }
{}

/// Two rules of one name give shares or not, raise them or not and fill up or not. Where they give shares they have
/// the same measure and count money as finely, and where they raise them the same step. Ties are broken by the same keys and the same lot, if
/// by one.
pub fn names_tell_rules_apart()
    ensures { (first second : Rule) → first.options.step ≤ largest_step → second.options.step ≤ largest_step
        → profile_name first ≡ profile_name second
        → (first.options.completion ≢ NoShares → (first.options.measure ≡ second.options.measure)
        × (first.options.grain ≡ second.options.grain))
        × (first.options.completion ≡ second.options.completion) × (first.fill_up ≡ second.fill_up)
        × (first.options.completion ≡ Add1 → first.options.step ≡ second.options.step)
        × (first.ties.keys ≡ second.ties.keys)
        × (option_map (λ seed. seed.bytes) first.ties.lot ≡ option_map (λ seed. seed.bytes) second.ties.lot) }
{}

/// Equal projects come in one order. Where the rule for ties is that of the file alone, it is the order of the file,
/// and an election sorted by it is as it was.
pub fn ties_have_one_order()
    ensures one { (ties : TieRule) (e : ElectionView) (first second : List ℕ)
        → IsTieOrder ties e first → IsTieOrder ties e second → first ≡ second }
    ensures file { (e : ElectionView) (order : List ℕ) → IsElection e → IsTieOrder by_file e order
        → (order ≡ range_with_len 0 (length e.projects)) × (in_order order e ≡ e) }
{}
