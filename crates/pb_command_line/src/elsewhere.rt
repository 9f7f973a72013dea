//! Options that a command does not have.

use crate::argument::Argument;
use crate::commands::{CommandForm, forms};
use crate::rule::is_of_count;
use std::alloc::{AllocError, Global};

/// What `clap` says of what it can't pass as a value either.
const DASHES: &str = "  tip: to pass '";

/// What it says of an option that the command has and that is written alike.
const ALIKE: &str = "  tip: a similar argument exists: ";

/// The text of a refusal by `clap`, without the lines about `--`, behind which nothing is an option: no
/// command takes a value that looks like one; and without the line about an option that is written alike, if another
/// command has the one that was given.
pub(crate) fn without_tips(
    alloc: Global,
    text: &str,
    is_elsewhere: bool,
) -> Result<String, AllocError> {
    let mut out = String::new(alloc);
    let mut is_blank = false;
    for line in text.split('\n') {
        let is_tip = line.starts_with(DASHES) || (is_elsewhere && line.starts_with(ALIKE));
        if !is_tip && !(line.is_empty() && is_blank) {
            push_behind(&mut out, "\n", line)?;
            is_blank = line.is_empty();
        }
    }
    Ok(out)
}

/// Puts a text at the end of another, with this between them where there is another.
fn push_behind(out: &mut String, between: &str, text: &str) -> Result<(), AllocError> {
    out.push_str(if out.is_empty() { "" } else { between })?;
    out.push_str(text)
}

/// Words for the first of these arguments that is an option of other commands, and not of the one that is
/// named.
pub(crate) fn elsewhere_words(
    alloc: Global,
    arguments: &[String],
) -> Result<Option<String>, AllocError> {
    let Some(command) = arguments.get(1) else {
        return Ok(None);
    };
    for argument in arguments {
        let name = option_of(argument.as_str());
        if !name.is_empty() && name != "help" {
            let owners = owners_of(alloc, name)?;
            if !is_listed(owners.as_str(), command.as_str()) {
                return others_with(alloc, command.as_str(), name, owners);
            }
            drop(owners);
        }
    }
    Ok(None)
}

/// Words for the first of these arguments that is an option of a count, if they are those of a `check` that
/// does not count.
pub(crate) fn uncounted_words(
    alloc: Global,
    arguments: &[String],
) -> Result<Option<String>, AllocError> {
    match arguments.get(1) {
        Some(command) if command.as_str() == "check" => {}
        _ => return Ok(None),
    }
    for argument in arguments {
        let name = option_of(argument.as_str());
        if is_of_count(name) {
            return Ok(Some(format!(in alloc;
                "`pb_app check` takes --{name} only with --against, because it does not count otherwise.\nAdd --against, or omit --{name} and other options of a count.\n"
            )?));
        }
    }
    Ok(None)
}

/// The name of the option that an argument is; the empty text where it is none.
fn option_of(argument: &str) -> &str {
    let option = argument.strip_prefix("--").unwrap_or("");
    match option.split_once('=') {
        Some((name, _)) => name,
        None => option,
    }
}

/// Words for which other commands have an option, where some have.
fn others_with(
    alloc: Global,
    command: &str,
    name: &str,
    others: String,
) -> Result<Option<String>, AllocError> {
    if others.is_empty() {
        drop(others);
        return Ok(None);
    }
    let words = if !command.starts_with("-") && !others.as_str().contains(',') {
        format!(in alloc;
            "`pb_app {command}` has no option --{name}. Only the command {others} has it.\n"
        )
    } else if command.starts_with("-") {
        format!(in alloc;
            "Name a command first. These commands have the option --{name}: {others}.\n"
        )
    } else {
        format!(in alloc;
            "`pb_app {command}` has no option --{name}. These commands have it: {others}.\n"
        )
    };
    drop(others);
    Ok(Some(words?))
}

/// Whether the command with this name has this option.
pub(crate) fn has_option(command: &str, option: &str) -> bool {
    for form in forms() {
        if form.name == command {
            return form.has(option);
        }
    }
    false
}

/// Whether a command is among these, which have commas between them.
fn is_listed(commands: &str, command: &str) -> bool {
    for name in commands.split(',') {
        if name.trim() == command {
            return true;
        }
    }
    false
}

/// The names of the commands that have this option, with commas between them.
fn owners_of(alloc: Global, option: &str) -> Result<String, AllocError> {
    let mut names = String::new(alloc);
    for form in forms() {
        if form.has(option) {
            push_behind(&mut names, ", ", form.name)?;
        }
    }
    Ok(names)
}

impl CommandForm {
    /// Whether an option of this name is among the command's arguments.
    pub(crate) fn has(&self, option: &str) -> bool {
        for group in self.groups {
            if has(group.arguments(), option) {
                return true;
            }
        }
        false
    }
}

/// Whether an option of this name is among these arguments.
fn has(arguments: &[Argument], option: &str) -> bool {
    for argument in arguments {
        if argument.name == option && !argument.is_path() {
            return true;
        }
    }
    false
}
