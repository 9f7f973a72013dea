//! Laws over what a count comes to, each as the contract of a function that does nothing.

ghost use Rattle.std.specs.Prelude.{◌≡◌, ◌≢◌, [], ◌⊎◌, ◌↔◌, ◌+◌, ◌-◌, ◌*◌, ◌<◌, ◌≤◌, ℕ, All, AllPairs, Contains};
ghost use Rattle.std.specs.Prelude.{List, false, length, map, slice_index, sum_by, ◌∷◌, ◌++◌, ◌==◌, None, Some};
ghost use Rattle.std.specs.Prelude.{filter, is_some, replicate, slice_get, take, true};
ghost use Rattle.std.specs.List.{Any};
ghost use Rattle.std.specs.List.Sorted.{IsStrictlyIncreasing};
ghost use Rattle.pb_core.specs.Election.{ElectionView, IsElection};
ghost use Rattle.pb_core.specs.Order.{IsOrder, in_order};
ghost use Rattle.pb_price.specs.Supporters.{SupportView, cost_at, cost_in_parts, support_in, support_of, supporters_at, ballot_at};
ghost use Rattle.pb_rounds.specs.Fairness.{paid_within};
ghost use Rattle.pb_rounds.specs.MostVotes.{fits, is_taken, votes_at};
ghost use Rattle.pb_reasons.specs.AllTies.{all_ties, answered_ties, runs_of, different, is_same_pair};
ghost use Rattle.pb_reasons.specs.BesideVotes.{elected_by_votes};
ghost use Rattle.pb_reasons.specs.Counted.{CountedView, IsCountBy, counted, is_selected, winners_of};
ghost use Rattle.pb_reasons.specs.CountedElection.{CountedElectionView, IsCountedElection};
ghost use Rattle.pb_price.specs.Price.{PriceView, price_at};
ghost use Rattle.pb_price.specs.Grain.{in_parts};
ghost use Rattle.pb_price.specs.declared.grain.Grain.TheVariants.{Fine, Hundredths};
ghost use Rattle.pb_rounds.specs.Cheapest.{rests_after};
ghost use Rattle.pb_rounds.specs.Completed.{IsExhausted};
ghost use Rattle.pb_rounds.specs.Count.{share_by, step_of};
ghost use Rattle.pb_reasons.specs.Fairness.{losers, needed, spent};
ghost use Rattle.pb_reasons.specs.Money.{money_of};
ghost use Rattle.pb_reasons.specs.Reasons.{paid_for, round_of, voter_payments};
ghost use Rattle.pb_reasons.specs.Ties.{is_tied, ties_in, ties_with_added};
ghost use Rattle.pb_reasons.specs.Totals.{totals_of};
ghost use Rattle.pb_reasons.specs.declared.payment.Payment.{Payment};
ghost use Rattle.pb_reasons.specs.declared.tie.Tie.{Tie};
ghost use Rattle.pb_reasons.specs.declared.told_tie.ToldTie.{ToldTie};
ghost use Rattle.pb_rounds.specs.Counted.{IsCountFault, IsCountOf};
ghost use Rattle.pb_rounds.specs.Outcome.{OutcomeView};
ghost use Rattle.pb_rounds.specs.declared.count_fault.CountFault.TheVariants.{RaisesSpent};
ghost use Rattle.pb_rounds.specs.Run.{ElectedView, is_elected, outcome_of, payment_of, weight_of};
ghost use Rattle.pb_rounds.specs.declared.measure.Measure.{Measure};
ghost use Rattle.pb_rounds.specs.declared.options.Completion.TheVariants.{Add1, NoShares};
ghost use Rattle.pb_rounds.specs.declared.rule.FillUp.TheVariants.{MostVotes};
ghost use Rattle.pb_rounds.specs.declared.rule.Rule.{Rule};

/// The winners of a count are its elected and its added projects, each once, and together they cost at most
/// the budget. What was paid beyond the costs of the elected is the surplus; in fine money nothing is, and the surplus
/// is what they do not cover. Where a count is filled up, no other project that has a supporter costs at most what the
/// winners leave of the budget.
pub fn winners_share_the_budget()
    ensures selected { (c : CountedView) (place : ℕ) → is_selected c place ≡ is_taken (winners_of c) place }
    ensures once { (c : CountedElectionView) → IsCountedElection c
        → AllPairs (λ place other. place ≢ other) (winners_of c.counted) }
    ensures spent { (c : CountedElectionView) → (totals_of c.rule.options.grain c.election c.counted).spent
        ≡ sum_by (cost_at (support_of c.election)) (winners_of c.counted) }
    ensures surplus { (c : CountedElectionView) → IsCountedElection c
        → let grain = c.rule.options.grain in let elected = c.counted.outcome.elected in
        let cost = in_parts grain (length c.election.voters) (sum_by (λ w. cost_at (support_of c.election) w.place) elected) in
        let paid = sum_by (λ w. w.collected) elected in let surplus = (totals_of grain c.election c.counted).surplus in
        (grain ≡ Hundredths → surplus + cost ≡ paid) × (grain ≡ Fine → surplus + paid ≡ cost) }
    ensures paid { (c : CountedElectionView) → IsCountedElection c
        → (totals_of c.rule.options.grain c.election c.counted).spent ≤ c.election.budget }
    ensures none_fits { (c : CountedElectionView) (place : ℕ) → IsCountedElection c → c.rule.fill_up ≡ MostVotes
        → fits (support_of c.election) (winners_of c.counted)
        (c.election.budget - (totals_of c.rule.options.grain c.election c.counted).spent) place ≡ false }
{}

/// Most votes first as a rule of its own: where nobody has a share and what is left is filled up, nobody is elected
/// by shares, and the winners are those of most votes first, from an empty list and over the whole budget.
pub fn most_votes_is_its_rule()
    ensures { (c : CountedElectionView) → IsCountedElection c → c.rule.options.completion ≡ NoShares
        → c.rule.fill_up ≡ MostVotes
        → (c.counted.outcome.elected ≡ []) × (winners_of c.counted ≡ elected_by_votes c.election) }
{}

/// In each tie of all ties, those of every run and of the added, the chosen project comes before the other one in the
/// order of ties; so in those of the answered run.
pub fn chosen_come_first()
    ensures { (x : CountedElectionView) → IsCountedElection x
        → All (λ (t : ToldTie). t.tie.winner < t.tie.other) (all_ties x ++ answered_ties x) }
{}

/// Where there is no tie at all, no order of the projects has others win: a count by the same rule, of the same election
/// with its projects in any order, has the same winners, in the same order, and none is refused for its raises.
pub fn without_ties_no_others_win()
    ensures same { (x : CountedElectionView) (order : List ℕ) (c : CountedView) → IsCountedElection x
        → all_ties x ≡ [] → IsOrder order → length order ≡ length x.election.projects
        → IsCountBy x.rule (in_order order x.election) c
        → map (slice_index order) (winners_of c) ≡ winners_of x.counted }
    ensures counted { (x : CountedElectionView) (order : List ℕ) → IsCountedElection x → all_ties x ≡ []
        → IsOrder order → length order ≡ length x.election.projects
        → ¬ IsCountFault (in_order order x.election) x.rule.options RaisesSpent }
{}

/// Which ties there are. A project is tied with the winner of a round if it is not elected, and has a price that is as
/// good: the same, or under measure cost the same for its cost. The ties of a round are those of its winner with
/// projects not elected up to then, at the rests that the rounds before it leave. Those of an added project are with
/// the others that did not win, and have as many votes and the same cost. Both come in the order of the other projects.
/// A count rests on one run for each raise up to the answered one, and on one more where that one is not exhausted, so
/// that the next ended the raises.
pub fn ties_are_their_words()
    ensures tied { (m : Measure) (s : SupportView) (elected : List ElectedView) (rests : List ℕ)
        → (w : ElectedView) (place : ℕ) → (is_tied m s elected rests w place ≡ true)
        ↔ ((is_elected elected place ≡ false) × ((price : PriceView) × (price_at s rests place ≡ Some price)
        × (price.amount * (w.exact.payers * weight_of m s w.place) ≡ w.exact.amount * (price.payers * weight_of m s place)))) }
    ensures round { (m : Measure) (s : SupportView) (share : ℕ) (elected : List ElectedView) (round : ℕ) (t : Tie)
        → Contains (ties_in m s share elected round) t ↔ ((w : ElectedView) × (slice_get elected round ≡ Some w)
        × ((place : ℕ) × (place < length s.costs)
        × (is_tied m s (take (round + 1) elected) (rests_after s (replicate s.voters share) (take round elected)) w place ≡ true)
        × (t ≡ record { round = Some (round + 1); winner = w.place; other = place }))) }
    ensures round_rises { (m : Measure) (s : SupportView) (share : ℕ) (elected : List ElectedView) (round : ℕ)
        → IsStrictlyIncreasing (map (λ (t : Tie). t.other) (ties_in m s share elected round)) }
    ensures added { (s : SupportView) (c : CountedView) (winner : ℕ) (t : Tie)
        → Contains (ties_with_added s c winner) t ↔ ((place : ℕ) × (place < length s.costs)
        × (is_taken (winners_of c) place ≡ false) × (votes_at s place ≡ votes_at s winner)
        × (cost_at s place ≡ cost_at s winner) × (t ≡ record { round = None; winner = winner; other = place })) }
    ensures added_rises { (s : SupportView) (c : CountedView) (winner : ℕ)
        → IsStrictlyIncreasing (map (λ (t : Tie). t.other) (ties_with_added s c winner)) }
    ensures runs { (x : CountedElectionView) → IsCountedElection x → let o = x.counted.outcome in
        ((x.rule.options.completion ≡ Add1 → IsExhausted (support_in x.rule.options.grain x.election) x.election.budget o.elected)
        → runs_of x ≡ o.raised + 1)
        × (x.rule.options.completion ≡ Add1 → (¬ IsExhausted (support_in x.rule.options.grain x.election) x.election.budget o.elected)
        → runs_of x ≡ o.raised + 2) }
{}

/// Which ties are told, and in which order: each tie of a round of a run, with the numbers of the run, from 0, and of the
/// round, from 1; and each tie of an added project, with the number of the answered run and the project's number among the
/// added, from 1. They come run by run, round by round, and in the order in which the other projects stand in the file;
/// those of the added come last.
pub fn all_ties_are_their_words()
    ensures told { (x : CountedElectionView) (t : ToldTie) → IsCountedElection x → let o = x.rule.options in
        let share = share_by o.completion o.grain x.election (step_of x.election o) t.run in
        let elected = (outcome_of o.measure o.grain x.election share).elected in let c = x.counted in
        Contains (all_ties x) t ↔ (((t.run < runs_of x) × ((round : ℕ) × (t.number ≡ round + 1)
        × Contains (ties_in o.measure (support_in o.grain x.election) share elected round) t.tie))
        ⊎ ((t.run ≡ c.outcome.raised) × ((number : ℕ) × (number < length c.added) × (t.number ≡ number + 1)
        × Contains (ties_with_added (support_of x.election) (record c { added = take (number + 1) c.added })
        (slice_index c.added number)) t.tie))) }
    ensures in_order { (x : CountedElectionView) → IsCountedElection x → AllPairs (λ (t u : ToldTie).
        ((is_some t.tie.round ≡ true) × (u.tie.round ≡ None))
        ⊎ ((is_some t.tie.round ≡ is_some u.tie.round) × ((t.run < u.run) ⊎ ((t.run ≡ u.run)
        × ((t.number < u.number) ⊎ ((t.number ≡ u.number)
        × (slice_index x.order t.tie.other < slice_index x.order u.tie.other))))))) (all_ties x) }
{}

/// Which ties are different. Two are of the same pair if they have the same winner and the same other project. One tie
/// more comes last, unless one before it is of the same pair: then it changes nothing.
pub fn different_ties_are_their_words()
    ensures pair { (t u : Tie) → (is_same_pair t u ≡ true) ↔ ((t.winner ≡ u.winner) × (t.other ≡ u.other)) }
    ensures none { different [] ≡ [] }
    ensures known { (ties : List Tie) (t : Tie) → Any (λ (u : Tie). is_same_pair t u ≡ true) ties
        → different (ties ++ t ∷ []) ≡ different ties }
    ensures new { (ties : List Tie) (t : Tie) → All (λ (u : Tie). is_same_pair t u ≡ false) ties
        → different (ties ++ t ∷ []) ≡ different ties ++ t ∷ [] }
{}

/// What a voter paid: the payments above 0 for projects of the ballot, places rising. For an elected project it is paid
/// out of what the rounds before leave, and for any other nothing. The round that elected a project is the first with
/// its place, from 0; where none did, it is their number.
pub fn payments_of_a_voter_are_their_words()
    ensures paid { (e : ElectionView) (o : OutcomeView) (voter : ℕ) (p : Payment)
        → Contains (voter_payments e o voter) p ↔ (Contains (ballot_at e voter) p.place
        × (p.amount ≡ paid_for e o p.place voter) × (0 < p.amount)) }
    ensures rise { (e : ElectionView) (o : OutcomeView) (voter : ℕ) → IsElection e → voter < length e.voters
        → IsStrictlyIncreasing (map (λ (p : Payment). p.place) (voter_payments e o voter)) }
    ensures in_round { (e : ElectionView) (o : OutcomeView) (before : List ElectedView) (w : ElectedView)
        → (later : List ElectedView) → o.elected ≡ before ++ w ∷ later
        → All (λ (v : ElectedView). v.place ≢ w.place) before → (voter : ℕ) → paid_for e o w.place voter
        ≡ payment_of (supporters_at (support_of e) w.place) w.price
        (rests_after (support_of e) (replicate (length e.voters) o.share) before) voter }
    ensures no_other { (e : ElectionView) (o : OutcomeView) (place : ℕ)
        → All (λ (v : ElectedView). v.place ≢ place) o.elected → (voter : ℕ) → paid_for e o place voter ≡ 0 }
    ensures round { (before : List ElectedView) (w : ElectedView) (later : List ElectedView) (place : ℕ)
        → All (λ (v : ElectedView). v.place ≢ place) before → w.place ≡ place
        → round_of (before ++ w ∷ later) place ≡ length before }
    ensures none { (elected : List ElectedView) (place : ℕ) → All (λ (v : ElectedView). v.place ≢ place) elected
        → round_of elected place ≡ length elected }
{}

/// Where the money of supporters went. The payments that are told are the first five, or all there are, of those above
/// 0, from the largest on, equal ones in their order; and the others together are what is left of the sum.
pub fn largest_payments_are_their_words()
    ensures most { (paid : List Payment) → (rest : List Payment)
        × AllPairs (λ (p q : Payment). q.amount ≤ p.amount) ((money_of paid).most ++ rest)
        × All (λ (p : Payment). 0 < p.amount) ((money_of paid).most ++ rest)
        × ((amount : ℕ) → 0 < amount
        → filter (λ (p : Payment). p.amount == amount) ((money_of paid).most ++ rest)
        ≡ filter (λ (p : Payment). p.amount == amount) paid)
        × (length (money_of paid).most ≤ 5) × (rest ≢ [] → length (money_of paid).most ≡ 5) }
    ensures others { (paid : List Payment)
        → (money_of paid).others + sum_by (λ (p : Payment). p.amount) (money_of paid).most
        ≡ sum_by (λ (p : Payment). p.amount) paid }
{}

/// What a table of fairness is made of. Its projects are those with a supporter that did not win, in the order of
/// the file. What a project needed of each supporter is the least amount that pays for it if all give as much.
/// What was spent is the most that one of them paid within that, or 0.
pub fn rows_of_fairness_are_their_words()
    ensures rise { (e : ElectionView) (c : CountedView) → IsStrictlyIncreasing (losers e c) }
    ensures lost { (e : ElectionView) (c : CountedView) (place : ℕ) → Contains (losers e c) place
        ↔ ((place < length e.projects) × (0 < votes_at (support_of e) place)
        × (is_taken (winners_of c) place ≡ false)) }
    ensures needed { (s : SupportView) (place : ℕ) → 0 < votes_at s place
        → (cost_in_parts s place ≤ votes_at s place * needed s place)
        × ((less : ℕ) → less < needed s place → votes_at s place * less < cost_in_parts s place) }
    ensures most { (m : Measure) (s : SupportView) (o : OutcomeView) (place : ℕ)
        → let paid : ℕ → ℕ = paid_within m s o.share o.elected place (needed s place) in
        All (λ voter. paid voter ≤ spent m s o place) (supporters_at s place)
        × ((spent m s o place ≡ 0) ⊎ Any (λ voter. paid voter ≡ spent m s o place) (supporters_at s place)) }
{}

/// Each row of a table of fairness shows it: of all supporters of a project that lost, one had already spent
/// so much, on elected projects that took no more from it (under measure cost, for their cost) than the
/// project would have, that what the project needed of it was more than was left of the share.
pub fn rows_are_fair()
    ensures { (c : CountedElectionView) → IsCountedElection c
        → All (λ place. c.counted.outcome.share
        < spent c.rule.options.measure (support_in c.rule.options.grain c.election) c.counted.outcome place
        + needed (support_in c.rule.options.grain c.election) place) (losers c.election c.counted) }
{}
