//! What given arguments ask for.

use crate::asked::asked_by;
use crate::bylaw::{bylaw_text, has_a_step};
use crate::command_line::command_line;
use crate::commands::BYLAW;
use crate::decider::Decider;
use crate::elsewhere::{elsewhere_words, uncounted_words, without_tips};
use crate::flaw::Flaw;
use crate::numbers::{BadNumber, bad_number};
use crate::rule::{
    OF_NAMES, SaidRules, are_one, bad_ties, compares, is_filled, named_rule, refuse_name, rule_of,
    undecided, without_shares,
};
use crate::task::Asked;
use crate::two_rules::TwoRules;
use clap::error::ErrorKind;
use clap::{ArgMatches, Error};
use pb_rounds::rule::Rule;
use std::alloc::{AllocError, Global};
use std::io;

/// The status of arguments that are refused.
const BAD_ARGUMENTS: u8 = 2;
/// The status where a text that was asked for could not be printed.
const NOT_PRINTED: u8 = 3;

/// What given arguments come to.
#[derive(Clone, Copy)]
pub enum Parsed<'a> {
    /// They ask for this.
    Asks(Asked<'a>),
    /// They ask for nothing more: they are refused, or for a text that was printed. The program ends with
    /// this status.
    Ends(u8),
}

/// Reads the arguments of the program, its own name first. Where they are refused, or ask for a text such as
/// the help, that text is printed.
pub fn parse<'a, R: Print + Eprint>(
    rt: &R,
    alloc: Global,
    arguments: &'a [String],
) -> Result<Parsed<'a>, AllocError> {
    match command_line(alloc)?.try_get_matches_from(plain_help(arguments)) {
        Ok(matches) => {
            let parsed = parsed_by(rt, alloc, &matches);
            drop(matches);
            parsed
        }
        Err(error) => {
            let end = refused(rt, alloc, &error, arguments);
            drop(error);
            end
        }
    }
}

/// What parsed arguments come to. They may be refused although each has its form.
fn parsed_by<'a, R: Print + Eprint>(
    rt: &R,
    alloc: Global,
    matches: &ArgMatches<'a>,
) -> Result<Parsed<'a>, AllocError> {
    let mut rules = SaidRules::nothing();
    if let Some((name, given)) = matches.subcommand() {
        if let Some(bad) = bad_number(given) {
            return Ok(Parsed::Ends(refuse_number(rt, &bad)));
        }
        if let Some(text) = bad_ties(given) {
            return Ok(refused_by(rt, Flaw::Ties(text)));
        }
        if refuses_names(rt, alloc, given)? {
            return Ok(Parsed::Ends(BAD_ARGUMENTS));
        }
        rules = SaidRules::of(alloc, given)?;
        if let Some(flaw) = undecided(name, given, &rules) {
            return Ok(refused_by(rt, flaw));
        }
        let compares = compares(name, given, &rules);
        if let Some(flaw) = without_shares(name, compares, &rules.said, rules.beside.as_ref()) {
            return Ok(refused_by(rt, flaw));
        }
        let rule = rule_of(given, &rules.said);
        if let Some(other) = &rules.beside {
            if !is_filled(given) && are_one(alloc, &rule, other)? {
                return Ok(refused_by(
                    rt,
                    Flaw::TwoRules(TwoRules::BesideItself(rules.decider.is_some())),
                ));
            }
        }
        if name == BYLAW.name {
            return print_bylaw(rt, alloc, &rule, rules.decider);
        }
    }
    let asked = asked_by(matches, &rules);
    if let Some(flaw) = Flaw::of(&asked.task) {
        return Ok(refused_by(rt, flaw));
    }
    Ok(Parsed::Asks(asked))
}

/// Says of the first option that gives a rule by its name, and gives one that no rule has, that this is so; answers
/// whether there is one.
fn refuses_names<R: Eprint>(
    rt: &R,
    alloc: Global,
    given: &ArgMatches<'_>,
) -> Result<bool, AllocError> {
    for option in OF_NAMES {
        let named = named_rule(alloc, given, option.name)?;
        if let (Some(name), None) = (given.get_str(option.name), named) {
            refuse_name(rt, alloc, option.name, name)?;
            return Ok(true);
        }
    }
    Ok(false)
}

/// Says why arguments are refused, and how the program then ends.
fn refused_by<'a, R: Eprint>(rt: &R, flaw: Flaw<'_>) -> Parsed<'a> {
    flaw.say(rt);
    Parsed::Ends(BAD_ARGUMENTS)
}

/// Prints this rule as a paragraph for a by-law, if a count can be by it.
fn print_bylaw<'a, R: Print + Eprint>(
    rt: &R,
    alloc: Global,
    rule: &Rule,
    decider: Option<Decider>,
) -> Result<Parsed<'a>, AllocError> {
    if !has_a_step(rule) {
        let _ = eprintln!(rt;
            "error: no count can raise shares by this step. Give one of 0.01 to 10000000.00, which is --step 1 to --step 1000000000."
        );
        return Ok(Parsed::Ends(BAD_ARGUMENTS));
    }
    let text = bylaw_text(alloc, rule, decider)?;
    let printed = rt.print(text.as_str());
    drop(text);
    Ok(end_of_print(rt, printed))
}

/// How the program ends that printed a text which was asked for.
fn end_of_print<'a, R: Eprint>(rt: &R, printed: io::Result<()>) -> Parsed<'a> {
    match printed {
        Ok(()) => Parsed::Ends(0),
        Err(reason) => {
            let _ = eprintln!(rt; "standard output: {reason}.");
            Parsed::Ends(NOT_PRINTED)
        }
    }
}

/// The arguments; `help --help` asks for no more than `help`.
fn plain_help(arguments: &[String]) -> &[String] {
    match (arguments.get(1), arguments.get(2)) {
        (Some(command), Some(option))
            if command.as_str() == "help" && matches!(option.as_str(), "--help" | "-h") => {
            &arguments[..2]
        }
        _ => arguments,
    }
}

/// Refuses what is no number of an option.
fn refuse_number<R: Eprint>(rt: &R, bad: &BadNumber<'_>) -> u8 {
    let BadNumber { name, value, range } = *bad;
    let _ = if bad.is_whole() {
        eprintln!(rt; "option --{name}: {value} is not allowed. Give a value {range}.")
    } else {
        eprintln!(rt; "option --{name}: {value:?} is not a whole number. Give a value {range}.")
    };
    BAD_ARGUMENTS
}

/// How the program ends where `clap` refuses its arguments, or prints what they ask for.
fn refused<'a, R: Print + Eprint>(
    rt: &R,
    alloc: Global,
    error: &Error,
    arguments: &[String],
) -> Result<Parsed<'a>, AllocError> {
    if error.kind() == ErrorKind::OutOfMemory {
        return Err(AllocError);
    }
    if error.exit_code() != 0 {
        say_refused(rt, alloc, error, arguments)?;
        return Ok(Parsed::Ends(BAD_ARGUMENTS));
    }
    Ok(end_of_print(rt, error.print(rt)))
}

/// Says why `clap` refuses these arguments, which commands have an option that the named one has not, and
/// what an option of `check` needs.
fn say_refused<R: Eprint>(
    rt: &R,
    alloc: Global,
    error: &Error,
    arguments: &[String],
) -> Result<(), AllocError> {
    let more = match error.kind() {
        ErrorKind::UnknownArgument => elsewhere_words(alloc, arguments)?,
        ErrorKind::MissingRequiredArgument => uncounted_words(alloc, arguments)?,
        _ => None,
    };
    let text = format!(in alloc; "{error}")?;
    let words = without_tips(alloc, text.as_str(), more.is_some());
    drop(text);
    let words = words?;
    let _ = rt.eprint(words.as_str());
    drop(words);
    if let Some(words) = more {
        let _ = rt.eprint(words.as_str());
        drop(words);
    }
    Ok(())
}
