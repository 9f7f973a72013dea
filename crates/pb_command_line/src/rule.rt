//! The options of a count, and the rule that they name.

use crate::argument::Argument;
use crate::arguments::{
    BESIDE, COMPARE, COMPLETION, DECIDE, MEASURE, MONEY, PLAIN, PROFILE, RAISES, RULE, SAME_AS,
    STEP, TIES, of_count,
};
use crate::decider::{BEFORE, Decider, split_name};
use crate::elsewhere::has_option;
use crate::flaw::{Flaw, TIES_ARE};
use crate::method::Method;
use crate::said_rule::SaidRule;
use crate::task::PageRun;
use crate::two_rules::{Comparing, TwoRules};
use clap::ArgMatches;
use pb_core::money::Money;
use pb_price::Grain;
use pb_rounds::measure::Measure;
use pb_rounds::options::{Completion, CountOptions};
use pb_rounds::profile_named::{nearest_rule, profile_named};
use pb_rounds::rule::{FillUp, Rule};
use pb_rounds::rule_names::{completion_named, grain_named, measure_named};
use pb_rounds::tie_rule::{TieRule, ties_named};
use std::alloc::{AllocError, Global};

/// The options that say a part of how shares are used.
const OF_SHARES: &[Argument] = &[MEASURE, COMPLETION, PLAIN, STEP, MONEY, RAISES];

/// How what decides begins behind the name of a rule, also where it is not whole.
const DECIDES: &str = "/decide";

/// The options that give a rule by its name.
pub(crate) const OF_NAMES: &[Argument] = &[PROFILE, BESIDE];

/// What options say of the rules by which ballots are counted.
#[derive(Clone, Copy)]
pub(crate) struct SaidRules {
    /// The rule of the count, as far as they say it.
    pub(crate) said: SaidRule,
    /// The rule with which that one is compared, if one is named.
    pub(crate) beside: Option<Rule>,
    /// By what it is judged which of both applies, if that is asked.
    pub(crate) decider: Option<Decider>,
}

impl SaidRules {
    /// Nothing is said.
    pub(crate) fn nothing() -> SaidRules {
        SaidRules {
            said: SaidRule::nothing(),
            beside: None,
            decider: None,
        }
    }

    /// What these options say.
    pub(crate) fn of(alloc: Global, given: &ArgMatches<'_>) -> Result<SaidRules, AllocError> {
        Ok(SaidRules {
            said: said_rule(given, named_rule(alloc, given, PROFILE.name)?),
            beside: beside_of(alloc, given)?,
            decider: decider_of(given),
        })
    }
}

/// The rule with which that of a count is compared, if one is named: with the same workers, and as many raises
/// allowed.
fn beside_of(alloc: Global, given: &ArgMatches<'_>) -> Result<Option<Rule>, AllocError> {
    match named_rule(alloc, given, BESIDE.name)? {
        Some(rule) => {
            let mut said = SaidRule::named(&rule);
            said.max_raises = given.get_one("raises");
            Ok(Some(rule_of(given, &said)))
        }
        None => Ok(None),
    }
}

/// By what it is judged which of two rules applies, if an option says so, or the name of the rule.
fn decider_of(given: &ArgMatches<'_>) -> Option<Decider> {
    match given.get_str(DECIDE.name) {
        Some(by) => Decider::named(by),
        None => split_name(given.get_str(PROFILE.name)?).1,
    }
}

/// The other rule, and by what it is judged which one applies, if that is asked: without a name it is most votes first,
/// with the ties of the rule that counts.
pub(crate) fn decides(given: &ArgMatches<'_>, rules: &SaidRules) -> Option<(Decider, Rule)> {
    let workers = given.get_one("workers");
    decision_by(
        rules.decider,
        rules.beside,
        &rules.said,
        workers.unwrap_or(CountOptions::standard().workers),
    )
}

/// The same, where this decides, the other rule is this one, if it is named, and this is said of the rule that counts.
/// As many raises are allowed by both.
pub(crate) fn decision_by(
    decider: Option<Decider>,
    beside: Option<Rule>,
    said: &SaidRule,
    workers: u32,
) -> Option<(Decider, Rule)> {
    let by = decider?;
    let mut other = match beside {
        Some(rule) => SaidRule::named(&rule),
        None => SaidRule::method(Method::MostVotes),
    };
    other.ties = other.ties.or(said.ties);
    other.max_raises = said.max_raises;
    Some((by, other.rule(workers)))
}

/// Whether both rules have one name.
pub(crate) fn are_one(alloc: Global, rule: &Rule, other: &Rule) -> Result<bool, AllocError> {
    let Ok(name) = rule.profile(alloc) else {
        return Err(AllocError);
    };
    let are_one = match other.profile(alloc) {
        Ok(other) => {
            let are_one = name.as_str() == other.as_str();
            drop(other);
            Ok(are_one)
        }
        Err(_) => Err(AllocError),
    };
    drop(name);
    are_one
}

/// Whether an argument of this name is an option of a count.
pub(crate) fn is_of_count(name: &str) -> bool {
    for option in of_count() {
        if option.name == name {
            return true;
        }
    }
    false
}

/// Whether shares are raised, and how what is left is filled up, if an option says so.
fn completion_of(given: &ArgMatches<'_>) -> Option<(Completion, FillUp)> {
    if given.get_flag("plain") {
        return Some((Completion::Plain, FillUp::Nothing));
    }
    completion_named(given.get_str("completion")?)
}

/// The rule of a count, of which options say this; what is not given is as in the standard one.
pub(crate) fn rule_of(given: &ArgMatches<'_>, said: &SaidRule) -> Rule {
    let standard = CountOptions::standard();
    said.rule(given.get_one("workers").unwrap_or(standard.workers))
}

/// The rule that this option gives by its name; none where none is given, or no rule has the name.
pub(crate) fn named_rule(
    alloc: Global,
    given: &ArgMatches<'_>,
    option: &str,
) -> Result<Option<Rule>, AllocError> {
    match given.get_str(option) {
        Some(name) => match profile_named(alloc, whole_name(rule_name(option, name))) {
            Ok(named) => Ok(named),
            Err(_) => Err(AllocError),
        },
        None => Ok(None),
    }
}

/// The name of a rule without what decides, which the one that an option gives may say too, but not that of the rule
/// beside it.
fn rule_name<'n>(option: &str, name: &'n str) -> &'n str {
    if option == BESIDE.name {
        name
    } else {
        split_name(name).0
    }
}

/// The whole name of a rule whose short one this may be.
fn whole_name(name: &str) -> &str {
    if name == "MV" { "MV/ties=file" } else { name }
}

/// The rule, as far as options say it; this one is given by its name, if one is.
fn said_rule(given: &ArgMatches<'_>, named: Option<Rule>) -> SaidRule {
    let mut said = match named {
        Some(rule) => SaidRule::named(&rule),
        None => by_options(given),
    };
    said.max_raises = given.get_one("raises");
    said.method = said.method.or(method_of(given));
    said.of_shares = of_shares(given);
    said
}

/// The method, if an option names one.
fn method_of(given: &ArgMatches<'_>) -> Option<Method> {
    Method::named(given.get_str(RULE.name)?)
}

/// The place of the first option that is given and says a part of how shares are used, if one is.
fn of_shares(given: &ArgMatches<'_>) -> Option<usize> {
    OF_SHARES
        .iter()
        .position(|option| is_given(given, option.name))
}

/// Whether an option is given: one without a value has the text `false` where it is not.
fn is_given(given: &ArgMatches<'_>, option: &str) -> bool {
    match given.get_str(option) {
        Some(text) => text != "false",
        None => false,
    }
}

/// What is asked for that most votes first has not, where that is the rule: an option, this command, or that the
/// result is compared with it.
pub(crate) fn without_shares<'a>(
    command: &str,
    compares: Option<Comparing>,
    said: &SaidRule,
    beside: Option<&Rule>,
) -> Option<Flaw<'a>> {
    if !said.is_most_votes() {
        return None;
    }
    if let Some(option) = said.of_shares.and_then(|place| OF_SHARES.get(place)) {
        // Raises are those of the other rule then. They are the last of these options.
        if option.name != RAISES.name || !raises_shares(beside) {
            return Some(Flaw::OfShares(option.name));
        }
    }
    if command == "fairness" {
        return Some(Flaw::NoShares);
    }
    compares.map(|by| Flaw::TwoRules(TwoRules::OneRule(by)))
}

/// Whether there is a rule, and shares are raised by it.
fn raises_shares(rule: Option<&Rule>) -> bool {
    rule.is_some_and(|rule| matches!(rule.options.completion, Completion::Add1))
}

/// Which comparison with most votes first the arguments of this command ask for, if they do, and don't name it.
pub(crate) fn compares(
    command: &str,
    given: &ArgMatches<'_>,
    rules: &SaidRules,
) -> Option<Comparing> {
    if command == "page" && given.get_flag(COMPARE.name) {
        return Some(Comparing::Page);
    }
    if rules.beside.is_some() || is_filled(given) {
        return None;
    }
    match (command, rules.decider) {
        ("compare", _) => Some(Comparing::Beside),
        ("bylaw", Some(_)) => Some(Comparing::Bylaw),
        (_, Some(_)) => Some(Comparing::Deciding),
        (_, None) => None,
    }
}

/// Whether a published page says what the options leave open.
pub(crate) fn is_filled(given: &ArgMatches<'_>) -> bool {
    given.get_str(SAME_AS.name).is_some()
}

/// What is asked for of the comparison step that this command has not, or of the other rule where nothing decides.
pub(crate) fn undecided<'a>(
    command: &str,
    given: &ArgMatches<'_>,
    rules: &SaidRules,
) -> Option<Flaw<'a>> {
    let flaw = match (rules.decider, rules.beside) {
        (Some(_), _) if command == "compare" => TwoRules::BothShown,
        (Some(_), _) if !has_option(command, DECIDE.name) => TwoRules::NoDecision,
        (Some(_), _) if command == "page" && given.get_flag(COMPARE.name) => {
            TwoRules::ComparedToo
        }
        (None, Some(_)) if has_option(command, DECIDE.name) && !is_filled(given) => {
            TwoRules::BesideAlone
        }
        _ => return None,
    };
    Some(Flaw::TwoRules(flaw))
}

/// Says on standard error why a page is refused that is made as options and a published page say together, and
/// answers whether it is.
pub fn refuses_page<R: Eprint>(
    rt: &R,
    alloc: Global,
    run: &PageRun<'_>,
) -> Result<bool, AllocError> {
    match page_flaw(alloc, run)? {
        Some(flaw) => {
            flaw.say(rt);
            Ok(true)
        }
        None => Ok(false),
    }
}

/// What is wrong with the rules of such a page, if something is.
fn page_flaw<'a>(alloc: Global, run: &PageRun<'_>) -> Result<Option<Flaw<'a>>, AllocError> {
    let compares = match (run.compares, run.decider, run.beside) {
        (true, Some(_), _) => return Ok(Some(Flaw::TwoRules(TwoRules::ComparedToo))),
        (_, None, Some(_)) => return Ok(Some(Flaw::TwoRules(TwoRules::BesideAlone))),
        (true, None, None) => Some(Comparing::Page),
        (false, Some(_), None) => Some(Comparing::Deciding),
        (false, _, _) => None,
    };
    if let Some(other) = &run.beside {
        if are_one(alloc, &run.given.rule(1), other)? {
            return Ok(Some(Flaw::TwoRules(TwoRules::BesideItself(true))));
        }
    }
    Ok(without_shares("page", compares, &run.given, run.beside.as_ref()))
}

/// What options say of the rule that each say a part of it.
fn by_options(given: &ArgMatches<'_>) -> SaidRule {
    let mut said = SaidRule::nothing().completed(completion_of(given));
    said.measure = measure_of(given);
    said.step = given.get_one::<u32>("step").map(step_of);
    said.ties = ties_of(given);
    said.grain = grain_of(given);
    said
}

/// Says that no rule has the name which this option gives: which part of it is no rule for ties, or else which rule's
/// name is the nearest.
pub(crate) fn refuse_name<R: Eprint>(
    rt: &R,
    alloc: Global,
    option: &str,
    name: &str,
) -> Result<(), AllocError> {
    if name.trim().contains(|c: char| c == ';' || c == ' ') {
        let _ = eprintln!(rt;
            "option --{option}: {name:?} is not the name of a rule. Of two names give the first with --profile, and the second with --beside."
        );
        return Ok(());
    }
    if let Some(ties) = no_ties(name) {
        let _ = eprintln!(rt;
            "option --{option}: {name:?} is not the name of a rule: {ties:?} is no rule for ties. {TIES_ARE}"
        );
        return Ok(());
    }
    if let Some((rule, _)) = name.split_once(DECIDES) {
        return refuse_decider(rt, alloc, option, name, rule);
    }
    let nearest = match nearest_rule(name).profile(alloc) {
        Ok(nearest) => nearest,
        Err(_) => return Err(AllocError),
    };
    let _ = eprintln!(rt;
        "option --{option}: {name:?} is not the name of a rule. The nearest one is {nearest}."
    );
    drop(nearest);
    Ok(())
}

/// Says of a name that is to say what decides what can stand behind it, which begins with the name of this rule.
fn refuse_decider<R: Eprint>(
    rt: &R,
    alloc: Global,
    option: &str,
    name: &str,
    rule: &str,
) -> Result<(), AllocError> {
    let Ok(nearest) = nearest_rule(rule).profile(alloc) else {
        return Err(AllocError);
    };
    let behind = name.strip_prefix(rule).unwrap_or("");
    let _ = if option == BESIDE.name {
        eprintln!(rt;
            "option --{option}: {name:?} is not the name of a rule. What decides stands at the end of the name that --profile gives, and not here: give {nearest}."
        )
    } else if split_name(name).1.is_some() {
        eprintln!(rt;
            "option --{option}: {name:?} is not the name of a rule. The nearest one is {nearest}{behind}."
        )
    } else {
        eprintln!(rt;
            "option --{option}: {name:?} is not the name of a rule. At its end can stand /decide=choices or /decide=worth: give {nearest}{BEFORE}choices or {nearest}{BEFORE}worth."
        )
    };
    drop(nearest);
    Ok(())
}

/// What stands in the name of a rule for its rule for ties, if it is none.
fn no_ties(name: &str) -> Option<&str> {
    for part in name.split('/') {
        if let Some(ties) = part.strip_prefix("ties=") {
            if ties_named(ties).is_none() {
                return Some(ties);
            }
        }
    }
    None
}

/// The text for `--ties` that names no rule for ties, if one is given.
pub(crate) fn bad_ties<'a>(given: &ArgMatches<'a>) -> Option<&'a str> {
    let text = given.get_str(TIES.name)?;
    match ties_named(text) {
        Some(_) => None,
        None => Some(text),
    }
}

/// Which of equal projects comes first, if an option says so.
fn ties_of(given: &ArgMatches<'_>) -> Option<TieRule> {
    ties_named(given.get_str(TIES.name)?)
}

/// A step of so many hundredths.
fn step_of(hundredths: u32) -> Money {
    Money(u64::from(hundredths))
}

/// How finely money is counted, if an option says so.
fn grain_of(given: &ArgMatches<'_>) -> Option<Grain> {
    grain_named(given.get_str(MONEY.name)?)
}

/// The measure, if an option names one.
fn measure_of(given: &ArgMatches<'_>) -> Option<Measure> {
    measure_named(given.get_str("measure")?)
}
