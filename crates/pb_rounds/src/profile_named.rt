//! Rules by their names.

ghost use Rattle.std.specs.Prelude.{◌≡◌, IfOk, IfSome};
ghost use Rattle.pb_rounds.specs.RuleNames.{profile_name};

use crate::options::CountOptions;
use crate::rule::{FillUp, Rule};
use crate::rule_names::{completion_named, grain_named, measure_named};
use crate::tie_rule::{TieRule, ties_named};
use pb_core::money::Money;
use pb_core::no_memory::NoMemory;
use std::alloc::Global;

/// The rule with this name, if a rule has it. What the name doesn't say is as in the standard rule.
pub fn profile_named(alloc: Global, name: &str) -> Result<Option<Rule>, NoMemory>
    ensures { IfOk result (λ found. IfSome found (λ rule. profile_name rule ≡ name.now)) }
{
    let rule = nearest_rule(name);
    let own = rule.profile(alloc)?;
    let is_same = own.as_str() == name;
    drop(own);
    if is_same { Ok(Some(rule)) } else { Ok(None) }
}

/// The rule that has in its name what the parts of this text say, between `/`. What none of them says is as in
/// the standard rule.
pub fn nearest_rule(name: &str) -> Rule {
    let mut options = CountOptions::standard();
    let mut fill_up = FillUp::Nothing;
    let mut ties = TieRule::file();
    for part in name.split('/') {
        if let Some(measure) = measure_named(part) {
            options.measure = measure;
        } else if let Some(named) = completion_named(part) {
            options.completion = named.0;
            fill_up = named.1;
        } else if let Some(grain) = grain_named(part) {
            options.grain = grain;
        } else if let Some(named) = ties_said(part) {
            ties = named;
        } else {
            options.step = step_named(part).unwrap_or(options.step);
        }
    }
    Rule {
        options,
        fill_up,
        ties,
    }
}

/// The step that a part of a name says, if it says one.
fn step_named(part: &str) -> Option<Money> {
    Money::read(part.strip_prefix("step=")?).ok()
}

/// The rule for ties that a part of a name says, if it says one.
fn ties_said(part: &str) -> Option<TieRule> {
    ties_named(part.strip_prefix("ties=")?)
}
