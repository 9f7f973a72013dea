//! What a published page marks of how it was made.

ghost use Rattle.std.specs.Prelude.{◌≡◌, IfSome, IsTrue, Some};

use pb_command_line::currency::is_currency;
use pb_command_line::{Decider, Method, PageRun, SaidRule, is_link};
use pb_core::money::Money;
use pb_core::no_memory::NoMemory;
use pb_rounds::measure::Measure;
use pb_rounds::options::{Completion, LARGEST_STEP, MOST_RAISES};
use pb_rounds::profile_named::profile_named;
use pb_rounds::rule::{FillUp, Rule};
use pb_rounds::rule_names::{completion_named, grain_named, measure_named};
use pb_rounds::tie_rule::{TieRule, ties_named};
use std::alloc::Global;

/// What a published page marks of how it was made; what it does not mark is nothing. A wrong mark makes another
/// page, which is not the same, or none.
#[derive(Drop)]
pub(crate) struct Marks {
    title: Option<String>,
    /// The address of the files that are published beside the page.
    files: Option<String>,
    /// The address of a page that recounts.
    recount: Option<String>,
    currency: Option<String>,
    /// It has the comparison with most votes.
    compares: bool,
    pub(crate) rule: SaidRule,
    /// By what it was decided which of two rules applies.
    decider: Option<Decider>,
    /// The other rule.
    beside: Option<Rule>,
}

/// An option of a rule that has a value.
#[derive(Clone, Copy)]
enum RuleOption {
    Method,
    Measure,
    Completion,
    Step,
    Raises,
    Ties,
    Money,
}

impl Marks {
    /// What this page marks. In the place of bytes that are no text stands a sign that no page has there.
    pub(crate) fn of(alloc: Global, page: &[u8]) -> Result<Marks, NoMemory> {
        let text = String::from_utf8_lossy(alloc, page)?;
        let marks = Marks::of_text(alloc, text.as_str());
        drop(text);
        marks
    }

    /// What a page with this text marks.
    fn of_text(alloc: Global, page: &str) -> Result<Marks, NoMemory> {
        Ok(Marks {
            title: shown(alloc, between(page, "<title>", "</title>"))?,
            files: shown(alloc, link_of(page, "<a class='files' href='"))?,
            recount: shown(alloc, link_of(page, "<a href='"))?,
            currency: currency_of(alloc, page)?,
            compares: page.contains("<h2 id='compared'>"),
            rule: rule_of(page),
            decider: Decider::named(decision_of(page).0),
            beside: profile_named(alloc, decision_of(page).1)?,
        })
    }

    /// What is asked for a page, and what is not given as it is marked. A link or a currency that no page of this
    /// program has is passed over.
    pub(crate) fn filled<'m>(&'m self, asked: &PageRun<'m>) -> PageRun<'m>
        ensures title { IfSome asked.now.title (λ title. result.title ≡ Some title) }
        ensures files { IfSome asked.now.files (λ address. result.files ≡ Some address) }
        ensures recount { IfSome asked.now.recount (λ address. result.recount ≡ Some address) }
        ensures currency { IfSome asked.now.currency (λ currency. result.currency ≡ Some currency) }
        ensures words { result.words ≡ asked.now.words }
        ensures compares { IsTrue asked.now.compares → IsTrue result.compares }
        ensures decider { IfSome asked.now.decider (λ decider. result.decider ≡ Some decider) }
        ensures beside { IfSome asked.now.beside (λ rule. result.beside ≡ Some rule) }
    {
        let files = text_of(&self.files).filter(|link| is_link(link));
        let recount = text_of(&self.recount).filter(|link| is_link(link));
        let currency = text_of(&self.currency).filter(|text| is_currency(text));
        PageRun {
            ballots: asked.ballots,
            title: asked.title.or(text_of(&self.title)),
            files: asked.files.or(files),
            recount: asked.recount.or(recount),
            words: asked.words,
            currency: asked.currency.or(currency),
            compares: asked.compares || self.compares,
            same_as: asked.same_as,
            given: asked.given.or(&self.rule),
            decider: asked.decider.or(self.decider),
            beside: match asked.beside {
                Some(rule) => Some(rule),
                None => self.beside,
            },
        }
    }
}

/// The text, if there is one.
fn text_of(text: &Option<String>) -> Option<&str> {
    match text {
        Some(text) => Some(text.as_str()),
        None => None,
    }
}

/// What stands between these two texts, where they first come.
fn between<'p>(page: &'p str, before: &str, after: &str) -> Option<&'p str> {
    let (_, rest) = page.split_once(before)?;
    let (found, _) = rest.split_once(after)?;
    Some(found)
}

/// The address of the first link below the last heading that begins so.
fn link_of<'p>(page: &'p str, beginning: &str) -> Option<&'p str> {
    let (_, check) = page.split_once("<h2 id='check'>")?;
    between(check, beginning, "'>")
}

/// The currency that stands beside the budget.
fn currency_of(alloc: Global, page: &str) -> Result<Option<String>, NoMemory> {
    let budget = between(page, "<data class='budget' value='", "</data>");
    let amount = shown(alloc, budget.and_then(behind_tag))?;
    let found = match &amount {
        Some(amount) => beside_digits(amount.as_str()),
        None => None,
    };
    let currency = match found {
        Some(text) => match String::from_str(alloc, text) {
            Ok(text) => Ok(Some(text)),
            Err(_) => Err(NoMemory),
        },
        None => Ok(None),
    };
    drop(amount);
    currency
}

/// What stands behind the end of a tag.
fn behind_tag(text: &str) -> Option<&str> {
    let (_, shown) = text.split_once("'>")?;
    Some(shown)
}

/// What stands before the digits of an amount, or behind them.
fn beside_digits(amount: &str) -> Option<&str> {
    let (before, _) = amount.split_once(|c: char| c.is_ascii_digit())?;
    let (_, behind) = amount.rsplit_once(|c: char| c.is_ascii_digit())?;
    let (before, behind) = (before.trim(), behind.trim());
    if !before.is_empty() {
        return Some(before);
    }
    if behind.is_empty() {
        return None;
    }
    Some(behind)
}

/// The rule, as the options of the command say it.
fn rule_of(page: &str) -> SaidRule {
    let mut rule = SaidRule::nothing();
    let Some(commands) = between(page, "<pre><code>", "</code></pre>") else {
        return rule;
    };
    // An option that a page leaves out has its usual value.
    rule.method = Some(Method::EqualShares);
    rule.measure = Some(Measure::Votes);
    rule = rule.completed(Some((Completion::Add1, FillUp::Nothing)));
    rule.ties = Some(TieRule::file());
    rule.grain = grain_named("hundredths");
    let mut option = None;
    for word in commands.split_whitespace() {
        match option {
            Some(RuleOption::Method) => rule.method = Method::named(word),
            Some(RuleOption::Measure) => rule.measure = measure_named(word),
            Some(RuleOption::Completion) => rule = rule.completed(completion_named(word)),
            Some(RuleOption::Step) => rule.step = step_named(word),
            Some(RuleOption::Raises) => rule.max_raises = raises_named(word),
            Some(RuleOption::Ties) => rule.ties = ties_named(word),
            Some(RuleOption::Money) => rule.grain = grain_named(word),
            None => {}
        }
        if word == "--plain" {
            rule = rule.completed(Some((Completion::Plain, FillUp::Nothing)));
        }
        option = option_named(word);
    }
    // A decided count has the rule that was given there, and its limit where the one that applies has one.
    let limit = between(page, "<data class='limit' value='", "'>");
    rule.max_raises = rule.max_raises.or(limit.and_then(raises_named));
    rule
}

/// What decided, and the name of the other rule, as the command says them; empty texts where it does not.
fn decision_of(page: &str) -> (&str, &str) {
    match between(page, "<pre><code>", "</code></pre>").and_then(behind_decide) {
        Some(decision) => decision.split_once(" --beside ").unwrap_or((decision, "")),
        None => ("", ""),
    }
}

/// What stands behind the option for what decides.
fn behind_decide(commands: &str) -> Option<&str> {
    let (_, decision) = commands.split_once(" --decide ")?;
    Some(decision)
}

/// The option of a rule that this word is, if it is one with a value.
fn option_named(word: &str) -> Option<RuleOption> {
    match word {
        "--rule" => Some(RuleOption::Method),
        "--measure" => Some(RuleOption::Measure),
        "--completion" => Some(RuleOption::Completion),
        "--step" => Some(RuleOption::Step),
        "--raises" => Some(RuleOption::Raises),
        "--ties" => Some(RuleOption::Ties),
        "--money" => Some(RuleOption::Money),
        _ => None,
    }
}

/// The step of this many hundredths, if a count can have it.
fn step_named(word: &str) -> Option<Money> {
    let hundredths: u64 = word.parse().ok()?;
    if hundredths == 0 || hundredths > LARGEST_STEP.0 {
        return None;
    }
    Some(Money(hundredths))
}

/// This limit of raises, if a count can have it.
fn raises_named(word: &str) -> Option<u32> {
    let raises: u32 = word.parse().ok()?;
    if raises > MOST_RAISES {
        return None;
    }
    Some(raises)
}

/// A text with the characters that a page writes by their numbers.
fn shown(alloc: Global, text: Option<&str>) -> Result<Option<String>, NoMemory> {
    let Some(text) = text else {
        return Ok(None);
    };
    let (first, rest) = text.split_once("&#").unwrap_or((text, ""));
    let mut out = String::from_str(alloc, first)?;
    for part in rest.split("&#") {
        match part.split_once(';') {
            Some((number, rest)) => {
                out.push(char::from(number.parse().unwrap_or(b'?')))?;
                out.push_str(rest)?
            }
            None => out.push_str(part)?,
        }
    }
    Ok(Some(out))
}
