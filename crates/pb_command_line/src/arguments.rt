//! The arguments that the commands have, each with its help.

use crate::argument::{Argument, Takes};

/// The file that each command reads first.
pub(crate) const ELECTION: Argument = Argument {
    name: "FILE",
    takes: Takes::Path,
    help: "The election, a .pb file with approval votes; - is standard input",
};

/// The script that the desk serves.
pub(crate) const SCRIPT: Argument = Argument {
    name: "SCRIPT",
    takes: Takes::Path,
    help: "The clerks' requests, one on each row, in the form CLERK;REQUEST;VOTER;PLACES (see pb_app serve --help); - is standard input",
};

/// The journal that is audited.
pub(crate) const JOURNAL: Argument = Argument {
    name: "JOURNAL",
    takes: Takes::Path,
    help: "The journal of a desk that was opened with FILE; - is standard input",
};

/// The file whose desk stands on a disk.
pub(crate) const SERVED: Argument = Argument {
    name: "FILE",
    takes: Takes::Path,
    help: "The election, a .pb file with approval votes",
};

/// The file that a desk stands on.
pub(crate) const DURABLE: Argument = Argument {
    name: "JOURNAL",
    takes: Takes::Path,
    help: "The file of the desk's journal: the desk continues it if it exists, and creates it if it does not",
};

/// The journal whose desk leaves the ballots.
pub(crate) const LEFT_BY: Argument = Argument {
    name: "journal",
    takes: Takes::OptionalSource("JOURNAL"),
    help: "Counts the ballots as they were when the desk of this journal was shut; - is standard input",
};

/// How many clerks a desk has.
pub(crate) const CLERKS: Argument = Argument {
    name: "clerks",
    takes: Takes::Number("N"),
    help: "How many clerks work at the same time, 1 to 64; rows of different clerks may be taken in any order [default: 1]",
};

/// Whether the desk is shut at the end of a run.
pub(crate) const SHUT: Argument = Argument {
    name: "shut",
    takes: Takes::Nothing,
    help: "Shuts the desk after the last row, in the name of clerk 0; with several clerks, shut the desk in this way, not by a row of SCRIPT",
};

/// Whether rows name projects by their ids.
pub(crate) const BY_ID: Argument = Argument {
    name: "by-id",
    takes: Takes::Nothing,
    help: "Requests name projects by their ids instead of their positions; write `,` between ids",
};

/// The voters' roll.
pub(crate) const ROLL: Argument = Argument {
    name: "roll",
    takes: Takes::OptionalFile("ROLL"),
    help: "Takes requests only for the voters in this file; it has one voter on each row, with the voter's id as the first field",
};

/// How many projects a ballot has at least.
pub(crate) const LEAST: Argument = Argument {
    name: "min",
    takes: Takes::Number("N"),
    help: "The smallest number of projects that a new ballot may name [default: 0]",
};

/// Whether the ballots that came with the file are kept.
pub(crate) const KEEP_FILE: Argument = Argument {
    name: "keep-file-ballots",
    takes: Takes::Nothing,
    help: "Refuses each request for a voter whom FILE lists: ballots that came with FILE stay as they are",
};

/// Whether no request shuts the desk.
pub(crate) const NO_SHUT: Argument = Argument {
    name: "no-shut",
    takes: Takes::Nothing,
    help: "Refuses each request to shut the desk",
};

/// How many workers a count has.
pub(crate) const WORKERS: Argument = Argument {
    name: "workers",
    takes: Takes::Number("N"),
    help: "How many processors the count may use, 1 to 64; more can be faster, and the result is the same [default: 1]",
};

/// The step of a raise.
pub(crate) const STEP: Argument = Argument {
    name: "step",
    takes: Takes::Number("H"),
    help: "How much each raise adds to a voter's share, in hundredths (100 is 1.00), 1 to 1000000000 [default: 100]",
};

/// The limit of raises.
pub(crate) const RAISES: Argument = Argument {
    name: "raises",
    takes: Takes::Number("L"),
    help: "The most raises that are allowed, 0 to 1000000; a count that needs more is refused [default: 1000000]",
};

/// Whether completion is left out.
pub(crate) const PLAIN: Argument = Argument {
    name: "plain",
    takes: Takes::Nothing,
    help: "Stops after the first count: the share is not raised (no Add1); the same as --completion none",
};

/// What is done with the money that a first run leaves.
pub(crate) const COMPLETION: Argument = Argument {
    name: "completion",
    takes: Takes::Completion,
    help: "What is done with money that is left. none: nothing; add1: the share is raised; utilitarian: the money goes to the other projects, those with the most votes first; add1u: first add1, then utilitarian [default: add1]",
};

/// What a project is worth to those who approve it.
pub(crate) const MEASURE: Argument = Argument {
    name: "measure",
    takes: Takes::Measure,
    help: "Which project wins next. votes: the one whose price is lowest (price: the most that one supporter pays); cost: the one whose price, divided by its cost, is lowest [default: votes]",
};

/// Whether voters have shares.
pub(crate) const RULE: Argument = Argument {
    name: "rule",
    takes: Takes::Method,
    help: "Which rule counts. equal-shares: the Method of Equal Shares; most-votes: projects win in the order of their votes, each if the rest of the budget pays for it. There are no shares with most-votes, so it can't be used with --measure, --completion, --plain, --step, --raises or --money, nor with fairness or page --compare, nor with compare or --decide unless --beside names another rule [default: equal-shares]",
};

/// Which of equal projects comes first.
pub(crate) const TIES: Argument = Argument {
    name: "ties",
    takes: Takes::Ties,
    help: "Which of equal projects wins. file: the one that comes first in FILE; votes: the one with more votes; cost: the cheaper one; votes,cost and cost,votes: by the one, then by the other. Each of the last four may end in ,lot:SEED, and lot:SEED may stand alone: then a lot that SEED draws decides; SEED has 1 to 64 of A-Z, a-z, 0-9 and -. Projects that are still equal go by FILE [default: file]",
};

/// How finely money is counted.
pub(crate) const MONEY: Argument = Argument {
    name: "money",
    takes: Takes::Money,
    help: "How finely shares, prices and payments are counted. hundredths: in whole ones, shares rounded down and prices up; fine: shares and prices are exact, and payments are rounded down to parts of which a hundredth has 10,000 for each voter [default: hundredths]",
};

/// The one name of the rule.
pub(crate) const PROFILE: Argument = Argument {
    name: "profile",
    takes: Takes::Profile,
    help: "The rule by its name, in place of --rule, --measure, --completion, --plain, --step, --ties and --money; for example ES/cost/add1u/hundredths/step=1.00/ties=file (without shares that are raised: ES/votes/none/hundredths/ties=file; most votes first: MV)",
};

/// The file that gets the result.
pub(crate) const OUTPUT: Argument = Argument {
    name: "output",
    takes: Takes::OptionalPath('o'),
    help: "Writes the result to this file; an older file is replaced only when the result is complete",
};

/// The voter whose ballot is asked for.
pub(crate) const VOTER: Argument = Argument {
    name: "voter",
    takes: Takes::Text("ID"),
    help: "Prints only the ballot of the voter with this id",
};

/// Whether the voter's entries are asked for.
pub(crate) const HISTORY: Argument = Argument {
    name: "history",
    takes: Takes::Nothing,
    help: "With --voter: prints the voter's ballot in FILE, and each entry for the voter with the ballot after it",
};

/// Whether an open desk is refused.
pub(crate) const REQUIRE_SHUT: Argument = Argument {
    name: "require-shut",
    takes: Takes::Nothing,
    help: "Refuses the journal if its desk is still open",
};

/// Whether the column `selected` is compared with a count.
pub(crate) const AGAINST: Argument = Argument {
    name: "against",
    takes: Takes::Nothing,
    help: "If the file has no fault, also counts it with the options below, and warns where its column `selected` differs from the result",
};

/// Whether the further columns of VOTES are exported.
pub(crate) const KEEP_VOTERS: Argument = Argument {
    name: "keep-voters",
    takes: Takes::Nothing,
    help: "Keeps the further columns of VOTES (age, sex, ..), which are left out otherwise; they are empty for voters who are only in the journal",
};

/// Whether a warning refuses the file.
pub(crate) const STRICT: Argument = Argument {
    name: "strict",
    takes: Takes::Nothing,
    help: "Refuses a file if a warning says that the result may be wrong, for example because rows are missing, or because 60.000 (perhaps sixty thousand) is read as 60.00",
};

/// Whether a journal of another file is read all the same.
pub(crate) const OTHER_FILE: Argument = Argument {
    name: "other-file",
    takes: Takes::Nothing,
    help: "Accepts a journal that was made with another .pb file; use it only if all projects of the old file are in FILE in the same order; new ones may only come after them",
};

/// Whether it is not shown how far the work has come.
pub(crate) const QUIET: Argument = Argument {
    name: "quiet",
    takes: Takes::Nothing,
    help: "Shows no progress",
};

/// Whether nothing is told of a desk's work either.
pub(crate) const QUIET_DESK: Argument = Argument {
    name: "quiet",
    takes: Takes::Nothing,
    help: "Shows no progress and no summary; refusals and warnings are still shown",
};

/// Whether nothing is told of a voter without a ballot either.
pub(crate) const QUIET_BALLOTS: Argument = Argument {
    name: "quiet",
    takes: Takes::Nothing,
    help: "Shows no progress, and no message if the voter has no ballot",
};

/// Whether nothing is told of the rows that are served.
pub(crate) const QUIET_SERVE: Argument = Argument {
    name: "quiet",
    takes: Takes::Nothing,
    help: "Shows no summary, does not say why a row is not a valid request, and at a terminal gives no instructions and no answers in words",
};

/// Whether it is shown.
pub(crate) const PROGRESS: Argument = Argument {
    name: "progress",
    takes: Takes::Nothing,
    help: "Shows progress on standard error, even if that is not a terminal",
};

/// Whether digests stand before a report.
pub(crate) const DIGESTS: Argument = Argument {
    name: "digests",
    takes: Takes::Nothing,
    help: "Prints the SHA-256 of FILE and of JOURNAL before the report; others can compare it with that of their copies",
};

/// Whether the digest of the file stands before a report.
pub(crate) const DIGEST: Argument = Argument {
    name: "digests",
    takes: Takes::Nothing,
    help: "Prints the SHA-256 of FILE before the report; others can compare it with that of their copies",
};

/// Whether a comparison has a row for each project.
pub(crate) const BY_PROJECT: Argument = Argument {
    name: "projects",
    takes: Takes::Nothing,
    help: "Prints a row for each project, with a column for each rule: 1 if the project wins by that rule, 0 if not",
};

/// The rule with which the one that counts is compared.
pub(crate) const BESIDE: Argument = Argument {
    name: "beside",
    takes: Takes::Text("NAME"),
    help: "Compares with the rule of this name, as for --profile, in place of most votes first; --raises and --workers are for both counts [default: most votes first, with the ties of the first rule]",
};

/// By what it is judged which of two rules applies.
pub(crate) const DECIDE: Argument = Argument {
    name: "decide",
    takes: Takes::Decide,
    help: "Counts by a second rule too. Its result applies if the voters who have more by it outnumber those who have more by the first rule (choices: more winners among their choices; worth: winners among them that cost more together); otherwise that of the first rule does. With --profile, write /decide=BY at the end of the name",
};

/// The rule that may apply in place of the one that is given.
pub(crate) const DECIDED_BESIDE: Argument = Argument {
    name: "beside",
    takes: Takes::Text("NAME"),
    help: "The second rule by its name, as for --profile; --raises and --workers are for both counts [default: most votes first, with the ties of the first rule]",
};

/// What a page is about.
pub(crate) const TITLE: Argument = Argument {
    name: "title",
    takes: Takes::Text("TEXT"),
    help: "The title of the page [default: the title in the file WORDS, or Participatory budgeting]",
};

/// Where a page leads those who want its files.
pub(crate) const FILES: Argument = Argument {
    name: "files",
    takes: Takes::Text("URL"),
    help: "Puts a link to the files for the public on the page: an address as for --recount",
};

/// Where a page leads those who recount it.
pub(crate) const RECOUNT: Argument = Argument {
    name: "recount",
    takes: Takes::Text("URL"),
    help: "Puts a link to your copy of recount.html on the page: an address with https:// or http://, or the name of a file beside the page",
};

/// What a page says.
pub(crate) const WORDS: Argument = Argument {
    name: "words",
    takes: Takes::OptionalFile("WORDS"),
    help: "Reads the texts of the page from this file, for a page in another language than English, for example words/de.words",
};

/// The currency of its amounts.
pub(crate) const CURRENCY: Argument = Argument {
    name: "currency",
    takes: Takes::Text("TEXT"),
    help: "The currency that the page shows with each amount, such as EUR [default: the one that META names, or none]",
};

/// What the page has besides.
pub(crate) const COMPARE: Argument = Argument {
    name: "compare",
    takes: Takes::Nothing,
    help: "Adds a table that compares this result with that of another rule, by which the projects with the most votes win; not with --decide",
};

/// The published page that is compared with the one that is made.
pub(crate) const SAME_AS: Argument = Argument {
    name: "same-as",
    takes: Takes::OptionalSource("PAGE"),
    help: "Says whether PAGE, a page that was published, is just the page of this count; options that are not given are taken from PAGE, but for --words; - is standard input",
};

/// Which project is asked about.
pub(crate) const PROJECT: Argument = Argument {
    name: "project",
    takes: Takes::Text("ID"),
    help: "The id of the project",
};

/// Whether the losers are asked about.
pub(crate) const ALL: Argument = Argument {
    name: "all",
    takes: Takes::All,
    help: "Asks about each project that lost, those with most votes first, and prints a row for each: the highest cost and the fewest further voters with which a search found that it wins",
};

/// How many losers are asked about.
pub(crate) const FIRST: Argument = Argument {
    name: "first",
    takes: Takes::NumberOfAll("N"),
    help: "With --all: asks about the first N of them only, 1 to 10000 [default: 100]",
};

/// The one cost that is tried.
pub(crate) const COST: Argument = Argument {
    name: "cost",
    takes: Takes::Amount("X"),
    help: "Tries only this cost for the project, an amount above 0, for example 53.66",
};

/// The one number of further voters that is tried.
pub(crate) const VOTERS: Argument = Argument {
    name: "voters",
    takes: Takes::Number("N"),
    help: "Tries only N further voters, who approve this project and no other; N can be 0",
};

/// The options of a count, which stand together in each help.
pub(crate) fn of_count() -> &'static [Argument] {
    OF_COUNT
}

const OF_COUNT: &[Argument] = &[
    WORKERS, STEP, RAISES, PLAIN, COMPLETION, MEASURE, RULE, TIES, MONEY, PROFILE,
];

/// The options of what prints the result of a count, which stand together too.
pub(crate) fn of_result() -> &'static [Argument] {
    OF_RESULT
}

const OF_RESULT: &[Argument] = &[STRICT, OUTPUT, QUIET, PROGRESS];
