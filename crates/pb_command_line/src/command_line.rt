//! The command line as `clap` reads it, built from the commands and their arguments.

use crate::argument::{Argument, Takes};
use crate::arguments::{
    AGAINST, ALL, COMPLETION, COST, DECIDE, FIRST, HISTORY, MEASURE, MONEY, PLAIN, PROJECT, RULE,
    STEP, TIES, VOTER, VOTERS,
};
use crate::commands::{CommandForm, forms};
use crate::decider::DECIDERS;
use crate::helps::{ABOUT, AFTER_HELP};
use crate::method::METHODS;
use crate::rule::is_of_count;
use clap::{Arg, ArgAction, Command};
use pb_rounds::rule_names::{COMPLETIONS, GRAINS, MEASURES};
use std::alloc::{AllocError, Global};

/// The program's name and its version, which is the same for each build of it.
pub const PROGRAM: &str = "pb_app 1.0.0";

/// The program's version, and of which commit it is, which `tools/package` fills in.
const VERSION: &str = "1.0.0 (built from source; which commit is not recorded)";

/// The command line that the program reads.
pub(crate) fn command_line<'a>(alloc: Global) -> Result<Command<'a>, AllocError> {
    let mut program = program(alloc)?;
    for form in forms() {
        program = with_command(alloc, program, form)?;
    }
    Ok(program)
}

/// The program without its commands.
fn program<'a>(alloc: Global) -> Result<Command<'a>, AllocError> {
    Command::new(alloc, "pb_app")
        .version(VERSION)
        .about(ABOUT)
        .after_help(AFTER_HELP)
        .bin_name("pb_app")
}

/// The program with one command more, of this form.
fn with_command<'a>(
    alloc: Global,
    program: Command<'a>,
    form: &CommandForm,
) -> Result<Command<'a>, AllocError> {
    match command_of(alloc, form) {
        Ok(command) => program.subcommand(command),
        Err(refused) => {
            drop(program);
            Err(refused)
        }
    }
}

/// The command of this form, with its arguments.
fn command_of<'a>(alloc: Global, form: &CommandForm) -> Result<Command<'a>, AllocError> {
    let asks_against = form.has(AGAINST.name);
    let mut command = Command::new(alloc, form.name)
        .about(form.about)
        .after_help(form.notes);
    for group in form.groups {
        command = with_arguments(alloc, command, group.arguments(), asks_against)?;
    }
    Ok(command)
}

/// A command with these arguments more. Where it has `--against`, the options of a count need it.
fn with_arguments<'a>(
    alloc: Global,
    command: Command<'a>,
    arguments: &[Argument],
    asks_against: bool,
) -> Result<Command<'a>, AllocError> {
    let mut command = command;
    for argument in arguments {
        let needs = needed_by(argument.name, asks_against);
        command = with_argument(alloc, command, argument, needs)?;
    }
    Ok(command)
}

/// The option without which the one of this name may not be given, if there is one.
fn needed_by(name: &str, asks_against: bool) -> Option<&'static str> {
    if name == HISTORY.name {
        Some(VOTER.name)
    } else if name == FIRST.name {
        Some(ALL.name)
    } else if asks_against && is_of_count(name) {
        Some(AGAINST.name)
    } else {
        None
    }
}

/// A command with one argument more, which may be given only with this option, if one is named.
fn with_argument<'a>(
    alloc: Global,
    command: Command<'a>,
    argument: &Argument,
    needs: Option<&'static str>,
) -> Result<Command<'a>, AllocError> {
    let arg = match (made(alloc, argument), needs) {
        (Ok(arg), Some(option)) => arg.requires_arg(option),
        (made, _) => made,
    };
    match arg {
        Ok(arg) => command.arg(arg),
        Err(refused) => {
            drop(command);
            Err(refused)
        }
    }
}

/// An argument, as `clap` takes it.
fn made<'a>(alloc: Global, argument: &Argument) -> Result<Arg<'a>, AllocError> {
    let arg = Arg::new(alloc, argument.name).help(argument.help);
    match argument.takes {
        Takes::Path => Ok(
            arg.value_name(argument.name)
                .required(true)
                .action(ArgAction::Set),
        ),
        Takes::Nothing => Ok(arg.long(argument.name).action(ArgAction::SetTrue)),
        Takes::All => {
            arg.long(argument.name)
                .action(ArgAction::SetTrue)
                .conflicts_with_all(&[PROJECT.name, COST.name, VOTERS.name])
        }
        takes => option(arg.long(argument.name), argument.value_name(), takes),
    }
}

/// An option with a value, which its help calls so.
fn option<'a>(arg: Arg<'a>, value_name: &'static str, takes: Takes) -> Result<Arg<'a>, AllocError> {
    let arg = arg.value_name(value_name).action(ArgAction::Set);
    match takes {
        Takes::OptionalPath(letter) => Ok(arg.short(letter)),
        Takes::Number(_) => Ok(arg.allow_negative_numbers(true)),
        Takes::NumberOfAll(_) => {
            arg.allow_negative_numbers(true)
                .conflicts_with(PROJECT.name)
        }
        Takes::Measure => Ok(arg.value_parser(MEASURES)),
        Takes::Completion => arg.value_parser(COMPLETIONS).conflicts_with(PLAIN.name),
        Takes::Method => Ok(arg.value_parser(METHODS)),
        Takes::Decide => Ok(arg.value_parser(DECIDERS)),
        Takes::Money => Ok(arg.value_parser(GRAINS)),
        Takes::Profile => alone(arg),
        Takes::Amount(_) => arg.conflicts_with(VOTERS.name),
        _ => Ok(arg),
    }
}

/// An option beside which no other may say a part of the rule.
fn alone<'a>(arg: Arg<'a>) -> Result<Arg<'a>, AllocError> {
    arg.conflicts_with(RULE.name)?
        .conflicts_with(MEASURE.name)?
        .conflicts_with(COMPLETION.name)?
        .conflicts_with(PLAIN.name)?
        .conflicts_with(STEP.name)?
        .conflicts_with(TIES.name)?
        .conflicts_with(DECIDE.name)?
        .conflicts_with(MONEY.name)
}
