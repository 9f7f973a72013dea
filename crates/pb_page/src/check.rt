//! How to check a result.

ghost use Rattle.std.specs.Prelude.{◌≡◌, ◌∷◌, [], OnOk, codes};
ghost use Rattle.std.specs.Option.{option_map_or};
ghost use Rattle.pb_page.specs.Content.{fill, section, text};
ghost use Rattle.pb_page.specs.Inner.Counted.{begun, chosen, method_given, options_given, options_told, ties_option};
ghost use Rattle.pb_page.specs.Inner.Counted.{files_said, journal_source, link_said, made_by, name_said, options_said};
ghost use Rattle.pb_page.specs.Inner.Grown.{Grows};
ghost use Rattle.pb_page.specs.Page.{by_raises, check, command, source};
ghost use Rattle.pb_page.specs.declared.keys.TheConstants as key;
ghost use Rattle.pb_rounds.specs.RuleNames.{by_completion, by_grain, by_measure, profile_name, ties_name};

use crate::decided::put_decision_options;
use crate::facts::{Decided, Facts, ReadText};
use crate::keys;
use crate::language::Language;
use crate::markup::Value;
use crate::place::Place;
use crate::put::{put, put_own};
use crate::rule::has_no_shares;
use crate::sentences::say_paragraph;
use crate::templates::{
    AUDIT, BY_VOTES, CHECK_CLOSING, CHECK_FILE, CHECK_JOURNAL, CHECK_OPENING, COMMAND_CLOSING,
    COMMAND_OPENING, COUNT, OPTIONS, PARAGRAPH, SOURCES_CLOSING, TIES_OPTION,
};
use pb_core::no_memory::NoMemory;
use pb_price::Grain;
use pb_rounds::measure::Measure;
use pb_rounds::options::Completion;
use pb_rounds::rule::{FillUp, Rule};
use pb_rounds::rule_names::{completion_name, measure_name};
use pb_rounds::tie_rule::TieRule;

/// What was counted, where a page recounts it, the command that does, with its options, and the program.
pub(crate) fn put_check(page: &mut Vec<u8>, facts: &Facts, rule: &Rule) -> Result<(), NoMemory>
    ensures { OnOk result (Grows page.old.items page.new.items
        (section facts.now.language (check facts.now rule.now))) }
{
    let language = &facts.language;
    let said = [
        Value::Said(keys::CHECK_HEADING),
        Value::Said(keys::CHECK_BYTES),
    ];
    put(page, language, CHECK_OPENING, &said)?;
    put_file(page, language, facts.file)?;
    put_journal(page, language, facts.journal)?;
    put_own(page, SOURCES_CLOSING)?;
    put_files(page, language, facts.files)?;
    put_link(page, language, facts.recount)?;
    put_own(page, COMMAND_OPENING)?;
    put_command(page, facts, rule)?;
    put_own(page, COMMAND_CLOSING)?;
    tell_options(page, language, rule)?;
    put_name(page, language, rule)?;
    say_made_by(page, language, facts.program)?;
    put_own(page, CHECK_CLOSING)
}

/// The file that was counted.
fn put_file(page: &mut Vec<u8>, language: &Language, file: ReadText<'_>) -> Result<(), NoMemory>
    ensures { OnOk result (Grows page.old.items page.new.items (source (codes "FILE: ") file.entry)) }
{
    let values = [Value::Text(file.name), Value::Text(file.digest)];
    put(page, language, CHECK_FILE, &values)
}

/// The journal, if there is one.
fn put_journal(
    page: &mut Vec<u8>,
    language: &Language,
    journal: Option<ReadText<'_>>,
) -> Result<(), NoMemory>
    ensures { OnOk result (Grows page.old.items page.new.items (journal_source journal.entry)) }
{
    match journal {
        Some(journal) => {
            let values = [Value::Text(journal.name), Value::Text(journal.digest)];
            put(page, language, CHECK_JOURNAL, &values)
        }
        None => Ok(()),
    }
}

/// Where the files lie that are published beside the page, if they do.
#[tactic(auto, using(crate::proofs::Grown::none))]
fn put_files(page: &mut Vec<u8>, language: &Language, address: Option<&str>) -> Result<(), NoMemory>
    ensures { OnOk result (Grows page.old.items page.new.items (files_said language.now address.entry)) }
{
    match address {
        Some(address) => say_paragraph(page, language, keys::FILES, &[Place::Files(address)]),
        None => Ok(()),
    }
}

/// Where a page recounts them, if one does, and what stands above the command.
fn put_link(page: &mut Vec<u8>, language: &Language, address: Option<&str>) -> Result<(), NoMemory>
    ensures { OnOk result (Grows page.old.items page.new.items (link_said language.now address.entry)) }
{
    match address {
        Some(address) => {
            say_paragraph(
                page,
                language,
                keys::RECOUNT,
                &[Place::Link(address, keys::LINK)],
            )?;
            put(page, language, PARAGRAPH, &[Value::Said(keys::PROGRAM_TOO)])
        }
        None => put(page, language, PARAGRAPH, &[Value::Said(keys::PROGRAM)]),
    }
}

/// The command that recounts them, with its options.
fn put_command(page: &mut Vec<u8>, facts: &Facts, rule: &Rule) -> Result<(), NoMemory>
    ensures { OnOk result (Grows page.old.items page.new.items (command facts.now rule.now)) }
{
    let given = given_rule(&facts.decided, rule);
    put_program(page, facts.journal)?;
    put_options(page, &facts.language, &given)?;
    put_decision_options(page, &facts.language, &facts.decided)
}

/// The rule that was given, where this one applies.
fn given_rule(decided: &Option<Decided>, rule: &Rule) -> Rule
    ensures { result ≡ option_map_or (λ d. d.rule) decided.now rule.now }
{
    match decided {
        Some(decided) => decided.rule,
        None => *rule,
    }
}

/// Its options, but for how it was decided.
fn put_options(page: &mut Vec<u8>, language: &Language, rule: &Rule) -> Result<(), NoMemory>
    ensures { OnOk result (Grows page.old.items page.new.items (options_given rule.now)) }
{
    put_method(page, language, rule)?;
    put_ties_option(page, language, rule)
}

/// Its options, but for ties.
fn put_method(page: &mut Vec<u8>, language: &Language, rule: &Rule) -> Result<(), NoMemory>
    ensures { OnOk result (Grows page.old.items page.new.items (method_given rule.now)) }
{
    if has_no_shares(rule) {
        return put_own(page, BY_VOTES);
    }
    put_chosen(page, language, rule)
}

/// The option for ties, where one is needed.
#[tactic(auto, using(crate::proofs::Grown::none))]
fn put_ties_option(page: &mut Vec<u8>, language: &Language, rule: &Rule) -> Result<(), NoMemory>
    ensures { OnOk result (Grows page.old.items page.new.items (ties_option rule.now)) }
{
    if rule.ties.is_file() {
        return Ok(());
    }
    name_ties(page, language, &rule.ties)
}

/// The option for a rule for ties.
fn name_ties(page: &mut Vec<u8>, language: &Language, ties: &TieRule) -> Result<(), NoMemory>
    ensures { OnOk result (Grows page.old.items page.new.items
        (fill (codes " --ties ~") (text (ties_name ties.now) ∷ []))) }
{
    let name = ties.text(*page.allocator())?;
    let put = put_ties_named(page, language, name.as_str());
    drop(name);
    put
}

/// The same, where it has this name.
fn put_ties_named(page: &mut Vec<u8>, language: &Language, ties: &str) -> Result<(), NoMemory>
    ensures { OnOk result (Grows page.old.items page.new.items (fill (codes " --ties ~") (text ties.now ∷ []))) }
{
    put(page, language, TIES_OPTION, &[Value::Text(ties)])
}

/// Its options where voters have shares.
fn put_chosen(page: &mut Vec<u8>, language: &Language, rule: &Rule) -> Result<(), NoMemory>
    ensures { OnOk result (Grows page.old.items page.new.items (chosen rule.now)) }
{
    let values = [
        Value::Text(money_option(rule.options.grain)),
        Value::Text(measure_option(rule.options.measure)),
        Value::Text(completion_option(rule.options.completion, rule.fill_up)),
        Value::Number(rule.options.step.0),
        Value::Small(rule.options.max_raises),
    ];
    put(page, language, OPTIONS, &values)
}

/// The command that recounts them, up to its options.
fn put_program(page: &mut Vec<u8>, journal: Option<ReadText<'_>>) -> Result<(), NoMemory>
    ensures { OnOk result (Grows page.old.items page.new.items (begun journal.entry)) }
{
    match journal {
        Some(_) => put_own(page, AUDIT),
        None => put_own(page, COUNT),
    }
}

/// The option for fine money, behind a space; nothing where none is needed.
fn money_option(grain: Grain) -> &'static str
    ensures { result.now ≡ by_grain grain [] (codes " --money fine") }
{
    match grain {
        Grain::Hundredths => "",
        Grain::Fine => " --money fine",
    }
}

/// The option for a measure, behind a space; nothing where none is needed.
fn measure_option(measure: Measure) -> &'static str
    ensures { result.now ≡ by_measure measure [] (codes " --measure cost") }
{
    match measure {
        Measure::Votes => "",
        Measure::Cost => " --measure cost",
    }
}

/// The option for a completion, behind a space; nothing where none is needed.
fn completion_option(completion: Completion, fill_up: FillUp) -> &'static str
    ensures { result.now ≡ by_completion completion fill_up (codes " --plain") []
        (codes " --completion utilitarian") (codes " --completion add1u") }
{
    match (completion, fill_up) {
        (Completion::Plain | Completion::NoShares, FillUp::Nothing) => " --plain",
        (Completion::Add1, FillUp::Nothing) => "",
        (Completion::Plain | Completion::NoShares, FillUp::MostVotes) =>
            " --completion utilitarian",
        (Completion::Add1, FillUp::MostVotes) => " --completion add1u",
    }
}

/// The options in words, where voters have shares.
#[tactic(auto, using(crate::proofs::Grown::none))]
fn tell_options(page: &mut Vec<u8>, language: &Language, rule: &Rule) -> Result<(), NoMemory>
    ensures { OnOk result (Grows page.old.items page.new.items (options_told language.now rule.now)) }
{
    if has_no_shares(rule) {
        return Ok(());
    }
    say_options(page, language, rule)
}

/// The options in words, and by the program's names.
fn say_options(page: &mut Vec<u8>, language: &Language, rule: &Rule) -> Result<(), NoMemory>
    ensures { OnOk result (Grows page.old.items page.new.items (options_said language.now rule.now)) }
{
    let options = &rule.options;
    let places = [
        Place::Said(measure_key(options.measure)),
        Place::Text(measure_name(options.measure)),
        Place::Said(completion_key(rule)),
        Place::Text(completion_name(options.completion, rule.fill_up)),
        Place::Amount("step", options.step, language.amounts),
        Place::Number("limit", u64::from(options.max_raises)),
    ];
    say_paragraph(page, language, options_key(rule), &places)
}

/// The rule's one name.
fn put_name(page: &mut Vec<u8>, language: &Language, rule: &Rule) -> Result<(), NoMemory>
    ensures { OnOk result (Grows page.old.items page.new.items (name_said language.now (profile_name rule.now))) }
{
    let name = rule.profile(*page.allocator())?;
    let put = say_name(page, language, name.as_str());
    drop(name);
    put
}

/// The same, where it is this.
fn say_name(page: &mut Vec<u8>, language: &Language, name: &str) -> Result<(), NoMemory>
    ensures { OnOk result (Grows page.old.items page.new.items (name_said language.now name.now)) }
{
    let name = Place::Code(name);
    say_paragraph(page, language, keys::RULE_NAME, &[name])
}

/// The key of the sentence on the options.
fn options_key(rule: &Rule) -> u16
    ensures { result ≡ by_raises rule.now key.OPTIONS_UNRAISED key.OPTIONS }
{
    match (rule.options.completion, rule.fill_up) {
        (Completion::Plain | Completion::NoShares, FillUp::Nothing | FillUp::MostVotes) => {
            keys::OPTIONS_UNRAISED
        }
        (Completion::Add1, FillUp::Nothing | FillUp::MostVotes) => keys::OPTIONS,
    }
}

/// The key of what a measure is in words.
fn measure_key(measure: Measure) -> u16
    ensures { result ≡ by_measure measure key.MEASURE_VOTES key.MEASURE_COST }
{
    match measure {
        Measure::Votes => keys::MEASURE_VOTES,
        Measure::Cost => keys::MEASURE_COST,
    }
}

/// The key of what the completion is in words.
fn completion_key(rule: &Rule) -> u16
    ensures { result ≡ by_completion rule.now.options.completion rule.now.fill_up key.COMPLETION_NONE
        key.COMPLETION_ADD1 key.COMPLETION_UTILITARIAN key.COMPLETION_ADD1U }
{
    match (rule.options.completion, rule.fill_up) {
        (Completion::Plain | Completion::NoShares, FillUp::Nothing) => keys::COMPLETION_NONE,
        (Completion::Add1, FillUp::Nothing) => keys::COMPLETION_ADD1,
        (Completion::Plain | Completion::NoShares, FillUp::MostVotes) =>
            keys::COMPLETION_UTILITARIAN,
        (Completion::Add1, FillUp::MostVotes) => keys::COMPLETION_ADD1U,
    }
}

/// Which program made the page.
fn say_made_by<'a>(
    page: &mut Vec<u8>,
    language: &Language<'a>,
    program: &'a str,
) -> Result<(), NoMemory>
    ensures { OnOk result (Grows page.old.items page.new.items (made_by language.now program.now)) }
{
    let program = Place::Text(program);
    say_paragraph(page, language, keys::MADE_BY, &[program])
}
