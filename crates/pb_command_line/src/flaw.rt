//! Arguments that are refused although each has its form.

use crate::address::{is_address, lacks_scheme};
use crate::currency::is_currency;
use crate::task::{BallotsRun, OneChange, PageRun, Task, WhatIfRun, Whose};
use crate::text_source::TextSource;
use crate::two_rules::TwoRules;
use pb_core::money::Money;

/// Why arguments are refused although each has its form.
#[derive(Clone, Copy)]
pub(crate) enum Flaw<'a> {
    /// This argument is standard input, from which the requests come.
    Requests(&'static str),
    /// These two arguments are both standard input.
    Twice(&'static str, &'static str),
    /// This argument is standard input, and can only be a file.
    Piped(&'static str),
    /// No link of a page may lead to the address of this option.
    Address(&'static str, &'a str),
    /// The link of this option would lead to a file with this name, which seems to be meant as the address of a
    /// site.
    NoScheme(&'static str, &'a str),
    /// This text would be read as a part of an amount.
    Currency(&'a str),
    /// No project can have the one cost that is tried.
    Cost,
    /// No project is asked about.
    NoProject,
    /// So many losers can't be asked about.
    First(u32),
    /// No voter has the id whose history is asked for: it is empty.
    NoVoter,
    /// This option says how shares are used, and the rule has none.
    OfShares(&'static str),
    /// The command tells of shares, and the rule has none.
    NoShares,
    /// This text names no rule for ties.
    Ties(&'a str),
    /// Something is wrong with the rules of a count by two.
    TwoRules(TwoRules),
}

impl<'a> Flaw<'a> {
    /// The first flaw of the arguments that ask for this, if they have one.
    pub(crate) fn of(task: &Task<'a>) -> Option<Flaw<'a>> {
        if let Some(name) = among_requests(task) {
            return Some(Flaw::Requests(name));
        }
        if let Some((first, second)) = read_twice(task) {
            return Some(Flaw::Twice(first, second));
        }
        if let Some(name) = piped(task) {
            return Some(Flaw::Piped(name));
        }
        if let Some(flaw) = bad_address(task) {
            return Some(flaw);
        }
        if let Some(flaw) = bad_currency(task) {
            return Some(flaw);
        }
        if has_no_project(task) {
            return Some(Flaw::NoProject);
        }
        if has_no_cost(task) {
            return Some(Flaw::Cost);
        }
        if has_no_voter(task) {
            return Some(Flaw::NoVoter);
        }
        if let Some(first) = bad_first(task) {
            return Some(Flaw::First(first));
        }
        None
    }

    /// Says it on standard error.
    pub(crate) fn say<R: Eprint>(self, rt: &R) {
        let _ = match self {
            Flaw::Requests(name) => eprintln!(rt;
                "error: {name} can't be standard input (-), because the requests come from there. Name a file."
            ),
            Flaw::Twice(first, second) => eprintln!(rt;
                "error: {first} and {second} can't both be standard input (-). Name a file for one of them."
            ),
            Flaw::Piped(name) => {
                eprintln!(rt; "error: {name} can't be standard input (-). Name a file.")
            }
            Flaw::Address(option, address) => {
                let (kind, example) = beside_the_page(option);
                eprintln!(rt;
                    "error: --{option} {address:?} can't be the address of a link. Give one that begins with https:// or http://, or the name of a {kind} beside the page, such as {example}. It must not have spaces."
                )
            }
            Flaw::NoScheme(option, address) => eprintln!(rt;
                "error: --{option} {address:?} lacks https:// at its beginning. Give --{option} https://{address}, or --{option} ./{address} if it is a file in a folder beside the page."
            ),
            Flaw::Currency(currency) => eprintln!(rt;
                "error: --currency {currency:?} has a digit, which would be read as a part of the amount. Give letters or a sign, such as EUR or €."
            ),
            Flaw::Cost => eprintln!(rt;
                "error: --cost must be an amount from 0.01 to 10000000000000. Write it with digits only, like 53.66: no currency, nothing between thousands, at most two decimals."
            ),
            Flaw::NoProject => eprintln!(rt;
                "error: whatif needs the id of a project. Give it with --project, or ask about each project that lost with --all."
            ),
            Flaw::First(first) => eprintln!(rt;
                "option --first: {first} is not allowed. Give a value from 1 to 10000."
            ),
            Flaw::NoVoter => {
                eprintln!(rt; "error: --history needs the id of a voter. Give it with --voter.")
            }
            Flaw::Ties(text) => return say_ties(rt, text),
            Flaw::OfShares(option) => return say_of_shares(rt, option),
            Flaw::NoShares => return say_no_shares(rt),
            Flaw::TwoRules(two) => return two.say(rt),
        };
    }
}

/// What can lie beside a page, to which the address of this option leads, and an example.
fn beside_the_page(option: &str) -> (&'static str, &'static str) {
    if option == "files" {
        ("folder", "files/")
    } else {
        ("file", "recount.html")
    }
}

/// Says that fairness is about shares, which most votes first has none of.
fn say_no_shares<R: Eprint>(rt: &R) {
    let _ = eprintln!(rt;
        "error: fairness is about shares, and there are no shares with most votes first. Count by equal shares."
    );
}

/// Says that this option is none of most votes first.
fn say_of_shares<R: Eprint>(rt: &R, option: &'static str) {
    let _ = eprintln!(rt;
        "error: --{option} is an option of equal shares, and there are no shares with most votes first. Omit --{option}, or count by equal shares."
    );
}

/// Which texts name a rule for ties.
pub(crate) const TIES_ARE: &str =
    "Give file, votes, cost, votes,cost or cost,votes; all but file may end in ,lot:SEED, and lot:SEED may stand alone. A SEED has 1 to 64 of A-Z, a-z, 0-9 and -.";

/// Says that this text names no rule for ties.
fn say_ties<R: Eprint>(rt: &R, text: &str) {
    let _ = eprintln!(rt; "option --ties: {text:?} is not allowed. {TIES_ARE}");
}

/// Whether a path is given, and is that of standard input.
fn is_input(path: Option<&str>) -> bool {
    matches!(path, Some("-"))
}

/// The argument that is standard input and can only be a file, if one is.
fn piped(task: &Task<'_>) -> Option<&'static str> {
    match task {
        Task::Desk(run) if is_input(run.admits.roll) => Some("ROLL"),
        Task::Page(run) if is_input(run.words) => Some("WORDS"),
        _ => None,
    }
}

/// What is wrong with the addresses to which a page would lead, if something is.
fn bad_address<'a>(task: &Task<'a>) -> Option<Flaw<'a>> {
    match task {
        Task::Page(run) => match judged_address("files", run.files) {
            Some(flaw) => Some(flaw),
            None => judged_address("recount", run.recount),
        },
        _ => None,
    }
}

/// What is wrong with the address that this option gives, if it gives one and something is.
fn judged_address<'a>(option: &'static str, address: Option<&'a str>) -> Option<Flaw<'a>> {
    let address = address?;
    if !is_address(address) {
        Some(Flaw::Address(option, address))
    } else if lacks_scheme(address) {
        Some(Flaw::NoScheme(option, address))
    } else {
        None
    }
}

/// What is wrong with the currency that a page would show, if something is.
fn bad_currency<'a>(task: &Task<'a>) -> Option<Flaw<'a>> {
    match task {
        Task::Page(
            PageRun {
                currency: Some(currency),
                ..
            },
        ) if !is_currency(currency) => Some(Flaw::Currency(*currency)),
        _ => None,
    }
}

/// Whether no project is asked about.
fn has_no_project(task: &Task<'_>) -> bool {
    match task {
        Task::WhatIf(
            WhatIfRun {
                whose: Whose::Project(None, _),
                ..
            },
        ) => true,
        _ => false,
    }
}

/// Whether the one cost that is tried is none that a project can have.
fn has_no_cost(task: &Task<'_>) -> bool {
    match task {
        Task::WhatIf(
            WhatIfRun {
                whose: Whose::Project(_, Some(OneChange::Cost(cost))),
                ..
            },
        ) => *cost == Money(0),
        _ => false,
    }
}

/// The number of losers that are asked about, if it is out of its range.
fn bad_first(task: &Task<'_>) -> Option<u32> {
    match task {
        Task::WhatIf(
            WhatIfRun {
                whose: Whose::Losers(first),
                ..
            },
        ) if *first == 0 || *first > 10_000 => Some(*first),
        _ => None,
    }
}

/// Whether the history of a voter is asked for whose id is empty.
fn has_no_voter(task: &Task<'_>) -> bool {
    match task {
        Task::Ballots(
            BallotsRun {
                voter: Some(voter),
                history: true,
                ..
            },
        ) => voter.trim().is_empty(),
        _ => false,
    }
}

/// The argument that is standard input where the requests come from there, if one is.
fn among_requests(task: &Task<'_>) -> Option<&'static str> {
    match task {
        Task::Serve(run) if run.file == "-" => Some("FILE"),
        Task::Serve(run) if run.journal == "-" => Some("JOURNAL"),
        Task::Serve(run) if is_input(run.admits.roll) => Some("ROLL"),
        _ => None,
    }
}

/// Two arguments that are both standard input, if two are.
fn read_twice(task: &Task<'_>) -> Option<(&'static str, &'static str)> {
    match (task.texts(), task.published(), task) {
        ((TextSource::Input, Some(TextSource::Input)), _, Task::Desk(_)) => {
            Some(("FILE", "SCRIPT"))
        }
        ((TextSource::Input, Some(TextSource::Input)), _, _) => Some(("FILE", "JOURNAL")),
        ((TextSource::Input, _), Some(TextSource::Input), _) => Some(("FILE", "PAGE")),
        ((_, Some(TextSource::Input)), Some(TextSource::Input), _) => Some(("JOURNAL", "PAGE")),
        _ => None,
    }
}
