//! What parsed arguments ask for.

use crate::rule::{SaidRules, decides, rule_of};
use crate::task::{
    Admits, Asked, AuditRun, Ballots, BallotsRun, CheckRun, CompareRun, CountRun, DeskRun,
    OneChange, PageRun, ServeRun, Task, WhatIfRun, Whose,
};
use crate::text_source::TextSource;
use clap::ArgMatches;
use pb_core::money::Money;
use pb_rounds::options::CountOptions;
use pb_rounds::rule::{FillUp, Rule};
use pb_rounds::tie_rule::TieRule;

/// How many losers are asked about, where no option says it.
const FIRST: u32 = 100;

/// What parsed arguments ask for; without a command it is a count of standard input.
/// Options say this of the rules.
pub(crate) fn asked_by<'a>(matches: &ArgMatches<'a>, rules: &SaidRules) -> Asked<'a> {
    match matches.subcommand() {
        Some((name, given)) => Asked {
            task: task_of(name, given, rules),
            rule: rule_of(given, &rules.said),
            decides: decides(given, rules),
            output: given.get_str("output"),
            shows: shows_by(given),
            is_strict: given.get_flag("strict"),
            takes_other: given.get_flag("other-file"),
            keeps_voters: given.get_flag("keep-voters"),
        },
        None => Asked {
            task: Task::Count(CountRun {
                ballots: Ballots {
                    file: TextSource::Input,
                    journal: None,
                },
                digests: false,
            }),
            rule: Rule {
                options: CountOptions::standard(),
                fill_up: FillUp::Nothing,
                ties: TieRule::file(),
            },
            decides: None,
            output: None,
            shows: None,
            is_strict: false,
            takes_other: false,
            keeps_voters: false,
        },
    }
}

/// What the arguments of a command ask for.
fn task_of<'a>(name: &str, given: &ArgMatches<'a>, rules: &SaidRules) -> Task<'a> {
    let file = source_of(given, "FILE");
    match count_of(name, given, rules, ballots_of(given, file)) {
        Some(task) => task,
        None => desk_of(name, given, file),
    }
}

/// What the arguments of a command ask for that counts these ballots; no other command has a task here.
fn count_of<'a>(
    name: &str,
    given: &ArgMatches<'a>,
    rules: &SaidRules,
    ballots: Ballots<'a>,
) -> Option<Task<'a>> {
    let task = match name {
        "count" => Task::Count(CountRun {
            ballots,
            digests: given.get_flag("digests"),
        }),
        "projects" => Task::Projects(ballots),
        "voters" => Task::Voters(ballots),
        "fairness" => Task::Fairness(ballots),
        "compare" => Task::Compare(CompareRun {
            ballots,
            beside: rules.beside,
            by_project: given.get_flag("projects"),
        }),
        "ties" => Task::Ties(ballots),
        "whatif" => Task::WhatIf(WhatIfRun {
            ballots,
            whose: whose_of(given),
        }),
        "page" => Task::Page(page_of(given, rules, ballots)),
        "export" => Task::Export(ballots),
        _ => return None,
    };
    Some(task)
}

/// The page that the arguments ask for.
fn page_of<'a>(given: &ArgMatches<'a>, rules: &SaidRules, ballots: Ballots<'a>) -> PageRun<'a> {
    PageRun {
        ballots,
        title: given.get_str("title"),
        files: given.get_str("files"),
        recount: given.get_str("recount"),
        words: given.get_str("words"),
        currency: given.get_str("currency"),
        compares: given.get_flag("compare"),
        same_as: given.get_str("same-as").map(source_at),
        given: rules.said,
        decider: rules.decider,
        beside: rules.beside,
    }
}

/// What the arguments of a command ask for that checks a file, or has to do with a desk.
fn desk_of<'a>(name: &str, given: &ArgMatches<'a>, file: TextSource<'a>) -> Task<'a> {
    match name {
        "check" => Task::Check(CheckRun {
            file,
            compares: given.get_flag("against"),
        }),
        "desk" => Task::Desk(DeskRun {
            file,
            script: source_of(given, "SCRIPT"),
            clerks: given.get_one("clerks").unwrap_or(1),
            shuts: given.get_flag("shut"),
            admits: admits_of(given),
        }),
        "ballots" => Task::Ballots(BallotsRun {
            file,
            journal: source_of(given, "JOURNAL"),
            voter: given.get_str("voter"),
            history: given.get_flag("history"),
        }),
        "serve" => Task::Serve(ServeRun {
            file: path_of(given, "FILE"),
            journal: path_of(given, "JOURNAL"),
            admits: admits_of(given),
        }),
        _ => Task::Audit(AuditRun {
            file,
            journal: source_of(given, "JOURNAL"),
            requires_shut: given.get_flag("require-shut"),
            digests: given.get_flag("digests"),
        }),
    }
}

/// Which project a question about changed elections is about.
fn whose_of<'a>(given: &ArgMatches<'a>) -> Whose<'a> {
    if given.get_flag("all") {
        return Whose::Losers(given.get_one("first").unwrap_or(FIRST));
    }
    Whose::Project(given.get_str("project"), change_of(given))
}

/// The one change that is counted, if an option says so. A text that names no cost is one of 0.
fn change_of(given: &ArgMatches<'_>) -> Option<OneChange> {
    match given.get_str("cost") {
        Some(text) => Some(OneChange::Cost(Money::read(text).unwrap_or(Money(0)))),
        None => given.get_one("voters").map(OneChange::Voters),
    }
}

/// Which requests a desk admits.
fn admits_of<'a>(given: &ArgMatches<'a>) -> Admits<'a> {
    Admits {
        by_id: given.get_flag("by-id"),
        roll: given.get_str("roll"),
        least: given.get_one("min").unwrap_or(0),
        keeps_file: given.get_flag("keep-file-ballots"),
        may_shut: !given.get_flag("no-shut"),
    }
}

/// The ballots of this file, or those that a given journal leaves.
fn ballots_of<'a>(given: &ArgMatches<'a>, file: TextSource<'a>) -> Ballots<'a> {
    let journal = match given.get_str("journal") {
        Some(path) => Some(source_at(path)),
        None => None,
    };
    Ballots { file, journal }
}

/// Whether it is shown how far the work has come.
fn shows_by(given: &ArgMatches<'_>) -> Option<bool> {
    if given.get_flag("quiet") {
        Some(false)
    } else if given.get_flag("progress") {
        Some(true)
    } else {
        None
    }
}

/// Where a text is read from.
fn source_of<'a>(given: &ArgMatches<'a>, name: &str) -> TextSource<'a> {
    source_at(path_of(given, name))
}

/// The file with this path, or standard input.
fn source_at<'a>(path: &'a str) -> TextSource<'a> {
    match path {
        "-" => TextSource::Input,
        path => TextSource::File(path),
    }
}

/// A file's path; a parse succeeds only where those that are required are given.
fn path_of<'a>(given: &ArgMatches<'a>, name: &str) -> &'a str {
    given.get_str(name).unwrap_or("")
}
