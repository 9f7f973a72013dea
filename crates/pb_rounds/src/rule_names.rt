//! What measures, completions and monies are called on the command line.

ghost use Rattle.std.specs.Prelude.{◌≡◌, ◌≢◌, IfSome, None};
ghost use Rattle.pb_price.specs.declared.grain.Grain.{Grain};
ghost use Rattle.pb_rounds.specs.RuleNames.{by_grain, completion_name, measure_name};
ghost use Rattle.pb_rounds.specs.declared.options.Completion.TheVariants.{NoShares};
ghost use Rattle.pb_rounds.specs.declared.rule.FillUp.TheVariants.{MostVotes};
ghost use Rattle.pb_rounds.specs.declared.rule_names.TheConstants.{FINE, HUNDREDTHS};

use crate::measure::Measure;
use crate::options::Completion;
use crate::rule::FillUp;
use pb_price::Grain;

pub(crate) const VOTES: &str = "votes";

pub(crate) const COST: &str = "cost";

/// The measures by their names, the standard one first.
pub const MEASURES: &[&str] = &[VOTES, COST];

pub(crate) const NONE: &str = "none";

pub(crate) const ADD1: &str = "add1";

pub(crate) const UTILITARIAN: &str = "utilitarian";

pub(crate) const ADD1U: &str = "add1u";

/// What stands in a rule's name where nobody has a share; no option has this name.
pub(crate) const MV: &str = "MV";

/// The completions by their names: what is done with the money that a first run leaves.
pub const COMPLETIONS: &[&str] = &[NONE, ADD1, UTILITARIAN, ADD1U];

/// The name of a measure.
pub fn measure_name(measure: Measure) -> &'static str
    ensures { result.now ≡ measure_name measure }
{
    match measure {
        Measure::Votes => VOTES,
        Measure::Cost => COST,
    }
}

/// The measure with this name, if one has it.
pub fn measure_named(name: &str) -> Option<Measure>
    ensures some { IfSome result (λ measure. measure_name measure ≡ name.now) }
    ensures none { result ≡ None → (m : Measure) → measure_name m ≢ name.now }
{
    if name == VOTES {
        Some(Measure::Votes)
    } else if name == COST {
        Some(Measure::Cost)
    } else {
        None
    }
}

pub(crate) const HUNDREDTHS: &str = "hundredths";

pub(crate) const FINE: &str = "fine";

/// How finely money is counted, by name, the standard one first.
pub const GRAINS: &[&str] = &[HUNDREDTHS, FINE];

/// The name of how finely money is counted.
pub fn grain_name(grain: Grain) -> &'static str
    ensures { result.now ≡ by_grain grain HUNDREDTHS.now FINE.now }
{
    match grain {
        Grain::Hundredths => HUNDREDTHS,
        Grain::Fine => FINE,
    }
}

/// How finely money is counted, by this name, if one has it.
pub fn grain_named(name: &str) -> Option<Grain>
    ensures some { IfSome result (λ grain. by_grain grain HUNDREDTHS.now FINE.now ≡ name.now) }
    ensures none { result ≡ None → (g : Grain) → by_grain g HUNDREDTHS.now FINE.now ≢ name.now }
{
    if name == HUNDREDTHS {
        Some(Grain::Hundredths)
    } else if name == FINE {
        Some(Grain::Fine)
    } else {
        None
    }
}

/// The name of a completion: whether shares are raised, and what is done with what the elected leave.
pub fn completion_name(completion: Completion, fill_up: FillUp) -> &'static str
    ensures { result.now ≡ completion_name completion fill_up }
{
    match (completion, fill_up) {
        (Completion::Plain, FillUp::Nothing) => NONE,
        (Completion::Add1, FillUp::Nothing) => ADD1,
        (Completion::Plain, FillUp::MostVotes) => UTILITARIAN,
        (Completion::Add1, FillUp::MostVotes) => ADD1U,
        (Completion::NoShares, FillUp::Nothing | FillUp::MostVotes) => MV,
    }
}

/// The completion with this name, if one has it.
pub fn completion_named(name: &str) -> Option<(Completion, FillUp)>
    ensures some { IfSome result (λ x. completion_name x.0 x.1 ≡ name.now) }
    ensures filled_up { IfSome result (λ x. x.0 ≡ NoShares → x.1 ≡ MostVotes) }
    ensures none { result ≡ None → (c : Completion) (f : FillUp) → completion_name c f ≢ name.now }
{
    if name == NONE {
        Some((Completion::Plain, FillUp::Nothing))
    } else if name == ADD1 {
        Some((Completion::Add1, FillUp::Nothing))
    } else if name == UTILITARIAN {
        Some((Completion::Plain, FillUp::MostVotes))
    } else if name == ADD1U {
        Some((Completion::Add1, FillUp::MostVotes))
    } else if name == MV {
        Some((Completion::NoShares, FillUp::MostVotes))
    } else {
        None
    }
}
