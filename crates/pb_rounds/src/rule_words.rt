//! A rule by its one name, and in the words of an exported file.

ghost use Rattle.std.specs.Prelude.{◌≡◌, ◌++◌, [], IfOk, OnOk, codes, decimal, string_bytes};
ghost use Rattle.std.specs.Prelude.{if◌then◌else◌};
ghost use Rattle.pb_core.specs.MoneyText.{money_text};
ghost use Rattle.pb_rounds.specs.Inner.RuleNames.{named};
ghost use Rattle.pb_rounds.specs.RuleNames.{by_grain, by_ties, fills_up, method_text, profile_name};
ghost use Rattle.pb_rounds.specs.RuleNames.{rule_text, rule_word, ties_name};
ghost use Rattle.std.specs.Str.{bytes_eq};

use crate::measure::Measure;
use crate::options::{Completion, CountOptions};
use crate::rule::{FillUp, Rule};
use crate::rule_names::{completion_name, grain_name, measure_name};
use crate::tie_rule::TieRule;
use itoa::Buffer;
use pb_core::no_memory::NoMemory;
use pb_price::Grain;
use std::alloc::Global;

impl Rule {
    /// Pabulib's word for the rule; `unknown` where it has none.
    pub fn word(&self) -> &'static str
        ensures { result.now ≡ rule_word self.now.options.completion self.now.fill_up }
    {
        match (self.options.completion, self.fill_up) {
            (Completion::Plain, FillUp::Nothing) => "equalshares",
            (Completion::Add1, FillUp::Nothing) => "equalshares/add1",
            (Completion::Plain | Completion::Add1, FillUp::MostVotes) => "unknown",
            (Completion::NoShares, FillUp::Nothing) => "unknown",
            (Completion::NoShares, FillUp::MostVotes) => "greedy",
        }
    }

    /// Its name, such as `ES/votes/add1/hundredths/step=1.00/ties=file`: the measure, the completion, and where
    /// shares are raised by how much; where nobody has a share `MV/ties=file`, or `NS/ties=file` if nothing is
    /// filled up. The most raises is no part of it.
    pub fn profile(&self, alloc: Global) -> Result<String, NoMemory>
        ensures { IfOk result (λ text. string_bytes text ≡ profile_name self.now) }
    {
        let ties = self.ties.text(alloc)?;
        let name = self.name_with(alloc, ties.as_str());
        drop(ties);
        name
    }

    /// Its name, with this name of its rule for ties.
    fn name_with(&self, alloc: Global, ties: &str) -> Result<String, NoMemory>
        ensures { IfOk result (λ text. string_bytes text ≡ named
            self.now.options.measure self.now.options.grain self.now.options.completion self.now.fill_up self.now.options.step ties.now) }
    {
        let measure = measure_name(self.options.measure);
        let completion = completion_name(self.options.completion, self.fill_up);
        let grain = grain_name(self.options.grain);
        match self.options.completion {
            Completion::Plain => {
                Ok(format!(in alloc; "ES/{measure}/{completion}/{grain}/ties={ties}")?)
            }
            Completion::Add1 => {
                let step = self.options.step.text(alloc)?;
                let name = format!(in alloc;
                    "ES/{measure}/{completion}/{grain}/step={step}/ties={ties}"
                );
                drop(step);
                Ok(name?)
            }
            Completion::NoShares => {
                let method = match self.fill_up {
                    FillUp::Nothing => "NS",
                    FillUp::MostVotes => "MV",
                };
                Ok(format!(in alloc; "{method}/ties={ties}")?)
            }
        }
    }

    /// The rule in words.
    pub fn text(&self, alloc: Global) -> Result<String, NoMemory>
        ensures { IfOk result (λ text. string_bytes text ≡ rule_text self.now) }
    {
        let mut text = self.method_text(alloc)?;
        put_ties(alloc, &mut text, &self.ties)?;
        Ok(text)
    }

    /// The rule in words, but for its rule for ties.
    fn method_text(&self, alloc: Global) -> Result<String, NoMemory>
        ensures { IfOk result (λ text. string_bytes text ≡ method_text self.now) }
    {
        if let Completion::NoShares = self.options.completion {
            let words = match self.fill_up {
                FillUp::Nothing => "no shares",
                FillUp::MostVotes => "most votes first",
            };
            return Ok(String::from_str(alloc, words)?);
        }
        let words = match self.options.measure {
            Measure::Votes => "equal shares by price",
            Measure::Cost => "equal shares by price over cost",
        };
        let mut text = String::from_str(alloc, words)?;
        match self.options.completion {
            Completion::Plain | Completion::NoShares => text.push_str(", no raises")?,
            Completion::Add1 => put_raises(alloc, &mut text, &self.options)?,
        }
        put_fill_up(&mut text, self.fill_up)?;
        put_grain(&mut text, self.options.grain)?;
        Ok(text)
    }
}

/// Puts a rule for ties after a text, where it is not the order of the file alone.
fn put_ties(alloc: Global, text: &mut String, ties: &TieRule) -> Result<(), NoMemory>
    ensures { OnOk result (string_bytes text.new ≡ string_bytes text.old
        ++ by_ties ties.now [] (codes ", ties by " ++ ties_name ties.now)) }
{
    let name = ties.text(alloc)?;
    let put = put_ties_named(text, name.as_str());
    drop(name);
    put
}

/// Puts the rule for ties with this name after a text.
fn put_ties_named(text: &mut String, name: &str) -> Result<(), NoMemory>
    ensures { OnOk result (string_bytes text.new ≡ string_bytes text.old
        ++ (if bytes_eq name.now (codes "file") then [] else codes ", ties by " ++ name.now)) }
{
    if name == "file" {
        return Ok(());
    }
    text.push_str(", ties by ")?;
    text.push_str(name)?;
    Ok(())
}

/// Puts how what is left is filled up after a text.
fn put_fill_up(text: &mut String, fill_up: FillUp) -> Result<(), NoMemory>
    ensures { OnOk result (string_bytes text.new
        ≡ string_bytes text.old ++ (if fills_up fill_up then codes ", filled up by votes" else [])) }
{
    match fill_up {
        FillUp::Nothing => Ok(()),
        FillUp::MostVotes => {
            text.push_str(", filled up by votes")?;
            Ok(())
        }
    }
}

/// Puts after a text that money is fine, if it is.
fn put_grain(text: &mut String, grain: Grain) -> Result<(), NoMemory>
    ensures { OnOk result (string_bytes text.new ≡ string_bytes text.old ++ by_grain grain [] (codes ", in fine money")) }
{
    match grain {
        Grain::Hundredths => Ok(()),
        Grain::Fine => {
            text.push_str(", in fine money")?;
            Ok(())
        }
    }
}

/// Puts the step of the raises and their limit after a text.
fn put_raises(alloc: Global, text: &mut String, options: &CountOptions) -> Result<(), NoMemory>
    ensures { OnOk result (string_bytes text.new
        ≡ string_bytes text.old ++ (codes ", raises of " ++ money_text options.now.step
        ++ codes ", at most " ++ decimal options.now.max_raises)) }
{
    let step = options.step.text(alloc)?;
    let put = put_terms(text, step.as_str(), options.max_raises);
    drop(step);
    put
}

/// Puts the terms of raises after a text: their step, and how many there are at most.
fn put_terms(text: &mut String, step: &str, most: u32) -> Result<(), NoMemory>
    ensures { OnOk result (string_bytes text.new ≡ string_bytes text.old
        ++ (codes ", raises of " ++ step.now ++ codes ", at most " ++ decimal most)) }
{
    let mut digits = Buffer::new();
    text.push_str(", raises of ")?;
    text.push_str(step)?;
    text.push_str(", at most ")?;
    text.push_str(digits.format(most))?;
    Ok(())
}
