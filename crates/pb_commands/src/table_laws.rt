//! Laws of the tables.

ghost use Rattle.std.specs.Prelude.{◌≡◌, ◌<◌, ◌+◌, ◌-◌, ℕ, Some, false, length, slice_get, sum_by};
ghost use Rattle.std.specs.List.{range_with_len};
ghost use Rattle.pb_price.specs.Grain.{in_parts};
ghost use Rattle.pb_price.specs.Supporters.{cost_at, cost_in_parts, support_in, support_of};
ghost use Rattle.pb_price.specs.declared.grain.Grain.TheVariants.{Fine, Hundredths};
ghost use Rattle.pb_reasons.specs.Counted.{is_selected};
ghost use Rattle.pb_reasons.specs.CountedElection.{CountedElectionView, IsCountedElection};
ghost use Rattle.pb_reasons.specs.Reasons.{all_payments, project_reason, voter_reason};
ghost use Rattle.pb_reasons.specs.declared.project_reason.Ending.TheVariants as ending;
ghost use Rattle.pb_reasons.specs.declared.project_reason.Lost.{Lost};
ghost use Rattle.pb_reasons.specs.declared.project_reason.Won.{Won};
ghost use Rattle.pb_rounds.specs.PriceSystem.{IsPriceSystem};
ghost use Rattle.pb_rounds.specs.Run.{ElectedView};
ghost use Rattle.pb_reasons.specs.Totals.{totals_of};

/// What the two tables of a count tell: a project that is neither elected nor added lacks something, and the
/// payments that are told are a price system of the elected.
/// They agree with the report: the projects that it names as
/// elected are so in the table of projects, with the same round, price and collected amount; and its spent
/// and its surplus sum to what the voters paid, which is what was collected, and what the added projects
/// cost. In fine money what they paid and what is uncovered sum to its spent less what the added cost.
pub fn tables_tell()
    ensures missing { (x : CountedElectionView) (place : ℕ)
        → IsCountedElection x → place < length x.election.projects → is_selected x.counted place ≡ false
        → (lost : Lost) × ((project_reason x.rule.options.grain x.election x.counted place).ending ≡ ending.Lost lost)
        × (0 < lost.missing)
        × (lost.left + lost.missing ≡ cost_in_parts (support_in x.rule.options.grain x.election) place) }
    ensures payments { (x : CountedElectionView) → IsCountedElection x
        → IsPriceSystem (support_in x.rule.options.grain x.election) x.counted.outcome.share x.counted.outcome.elected
        x.counted.outcome.rests (all_payments x.election x.counted.outcome) }
    ensures elected { (x : CountedElectionView) (round : ℕ) (w : ElectedView)
        → IsCountedElection x → slice_get x.counted.outcome.elected round ≡ Some w
        → (won : Won) × ((project_reason x.rule.options.grain x.election x.counted w.place).ending ≡ ending.Won won)
        × (won.round ≡ round + 1) × (won.price ≡ w.price) × (won.exact ≡ w.exact)
        × (won.collected ≡ w.collected) }
    ensures paid { (x : CountedElectionView) → IsCountedElection x
        → let paid = sum_by (λ w. w.collected) x.counted.outcome.elected in
        let totals = totals_of x.rule.options.grain x.election x.counted in
        let added = sum_by (cost_at (support_of x.election)) x.counted.added in
        (sum_by (λ voter. (voter_reason x.election x.counted voter).paid)
        (range_with_len 0 (length x.election.voters)) ≡ paid)
        × (x.rule.options.grain ≡ Hundredths → totals.spent + totals.surplus ≡ paid + added)
        × (x.rule.options.grain ≡ Fine
        → paid + totals.surplus ≡ in_parts Fine (length x.election.voters) (totals.spent - added)) }
{}
