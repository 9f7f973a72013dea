//! The commands that the program knows, each with its arguments.

use crate::argument_group::ArgumentGroup;
use crate::argument_group::ArgumentGroup::{OfCount, OfResult, Own};
use crate::arguments::{
    AGAINST, ALL, BESIDE, BY_ID, BY_PROJECT, CLERKS, COMPARE, COMPLETION, COST, CURRENCY, DECIDE,
    DECIDED_BESIDE, DIGEST, DIGESTS, DURABLE, ELECTION, FILES, FIRST, HISTORY, JOURNAL, KEEP_FILE,
    KEEP_VOTERS, LEAST, LEFT_BY, MEASURE, MONEY, NO_SHUT, OTHER_FILE, OUTPUT, PLAIN, PROFILE,
    PROGRESS, PROJECT, QUIET, QUIET_BALLOTS, QUIET_DESK, QUIET_SERVE, RECOUNT, REQUIRE_SHUT, ROLL,
    RULE, SAME_AS, SCRIPT, SERVED, SHUT, STEP, STRICT, TIES, TITLE, VOTER, VOTERS, WORDS,
};
use crate::helps::{AFTER_BALLOTS, AFTER_SERVE};

/// A command that the program knows.
#[derive(Clone, Copy)]
pub(crate) struct CommandForm {
    pub(crate) name: &'static str,
    /// What stands below its arguments.
    pub(crate) notes: &'static str,
    pub(crate) about: &'static str,
    /// Its arguments, in the order in which its help lists them.
    pub(crate) groups: &'static [ArgumentGroup],
}

/// The forms of all commands, in the order in which the help lists them. A function that names a form is
/// checked with all its texts, so a function of its own names each.
pub(crate) fn forms() -> [&'static CommandForm; 15] {
    [
        count(),
        projects(),
        voters(),
        fairness(),
        compare(),
        ties(),
        what_if(),
        page(),
        export(),
        check(),
        desk(),
        audit(),
        ballots(),
        serve(),
        bylaw(),
    ]
}

/// The command that counts.
fn count() -> &'static CommandForm {
    COUNT
}

const COUNT: &CommandForm = &CommandForm {
    name: "count",
    notes: "Manual pages: man pb_app-election, man pb_app-report, man pb_app-counting.",
    about: "Counts a .pb file, and prints the report",
    groups: &[
        Own(&[ELECTION]),
        OfCount,
        Own(&[DECIDE, DECIDED_BESIDE, DIGEST]),
        OfResult,
    ],
};

/// The command that shows the projects of a count.
fn projects() -> &'static CommandForm {
    PROJECTS
}

const PROJECTS: &CommandForm = &CommandForm {
    name: "projects",
    notes: "Manual pages: man pb_app-election, man 5 pb_app-projects, man pb_app-counting.",
    about: "Counts a .pb file, and prints who won and why, and how much money the other projects lacked",
    groups: &[
        Own(&[ELECTION, LEFT_BY, OTHER_FILE]),
        OfCount,
        Own(&[DECIDE, DECIDED_BESIDE]),
        OfResult,
    ],
};

/// The command that shows the voters of a count.
fn voters() -> &'static CommandForm {
    VOTERS_PAID
}

const VOTERS_PAID: &CommandForm = &CommandForm {
    name: "voters",
    notes: "Manual pages: man pb_app-election, man 5 pb_app-voters, man pb_app-counting.",
    about: "Counts a .pb file, and prints what each voter paid, and for what",
    groups: &[
        Own(&[ELECTION, LEFT_BY, OTHER_FILE]),
        OfCount,
        Own(&[DECIDE, DECIDED_BESIDE]),
        OfResult,
    ],
};

/// The command that shows how fair a count is.
fn fairness() -> &'static CommandForm {
    FAIRNESS
}

const FAIRNESS: &CommandForm = &CommandForm {
    name: "fairness",
    notes: "Manual pages: man pb_app-election, man 5 pb_app-fairness, man pb_app-counting.",
    about: "Counts a .pb file, and prints for each project that lost how much one of its supporters had already spent",
    groups: &[Own(&[ELECTION, LEFT_BY, OTHER_FILE]), OfCount, OfResult],
};

/// The command that counts by another rule too.
fn compare() -> &'static CommandForm {
    COMPARISON
}

const COMPARISON: &CommandForm = &CommandForm {
    name: "compare",
    notes: "Manual pages: man pb_app-election, man 5 pb_app-compare, man pb_app-counting.",
    about: "Counts a .pb file, and compares the winners with those of another rule, such as most votes first",
    groups: &[
        Own(&[ELECTION, BESIDE, BY_PROJECT, LEFT_BY, OTHER_FILE]),
        OfCount,
        OfResult,
    ],
};

/// The command that shows all ties of a count.
fn ties() -> &'static CommandForm {
    ALL_TIES
}

const ALL_TIES: &CommandForm = &CommandForm {
    name: "ties",
    notes: "At most 1000 runs are counted: the first, and one for each raise. changes, of the first hundred pairs: 1 if others win, or the count is refused, where just these two are exchanged in the order of ties; 0 if not, which says nothing of other exchanges.\n\nManual pages: man pb_app-election, man 5 pb_app-ties, man pb_app-counting.",
    about: "Counts a .pb file, and prints each tie and its winner",
    groups: &[Own(&[ELECTION, LEFT_BY, OTHER_FILE]), OfCount, OfResult],
};

/// The command that counts changed elections.
fn what_if() -> &'static CommandForm {
    WHAT_IF
}

const WHAT_IF: &CommandForm = &CommandForm {
    name: "whatif",
    notes: "Each row is one change: another cost, or further voters; with --all it is one project. For each change the whole election was counted again. The table says nothing about a cost or a number of voters that has no row: try it with --cost or --voters.\n\nManual pages: man pb_app-election, man 5 pb_app-whatif, man pb_app-proposers.",
    about: "Counts a .pb file again and again, and prints at which cost, or with how many further voters, a project wins",
    groups: &[
        Own(&[
            ELECTION, PROJECT, COST, VOTERS, ALL, FIRST, LEFT_BY, OTHER_FILE,
        ]),
        OfCount,
        OfResult,
    ],
};

/// The command that makes a page.
fn page() -> &'static CommandForm {
    PAGE
}

const PAGE: &CommandForm = &CommandForm {
    name: "page",
    notes: "Manual pages: man pb_app-election, man 5 pb_app-page, man pb_app-counting.",
    about: "Counts a .pb file, and prints the result as a web page for the public",
    groups: &[
        Own(&[
            ELECTION, LEFT_BY, OTHER_FILE, TITLE, FILES, RECOUNT, WORDS, CURRENCY, COMPARE, SAME_AS,
        ]),
        OfCount,
        Own(&[DECIDE, DECIDED_BESIDE]),
        OfResult,
    ],
};

/// The command that makes another .pb file.
fn export() -> &'static CommandForm {
    EXPORT
}

const EXPORT: &CommandForm = &CommandForm {
    name: "export",
    notes: "Manual pages: man pb_app-election, man 5 pb_app-export, man pb_app-counting.",
    about: "Counts a .pb file, and prints ballots and result as a new .pb file; counting that file with the same options gives the same result",
    groups: &[
        Own(&[ELECTION, LEFT_BY, OTHER_FILE, KEEP_VOTERS]),
        OfCount,
        Own(&[DECIDE, DECIDED_BESIDE]),
        OfResult,
    ],
};

/// The command that checks a .pb file.
fn check() -> &'static CommandForm {
    CHECK
}

const CHECK: &CommandForm = &CommandForm {
    name: "check",
    notes: "Manual pages: man pb_app-election, man pb_app-faults.",
    about: "Lists the faults for which a .pb file is refused, and warns of what is probably a mistake",
    groups: &[
        Own(&[ELECTION, AGAINST]),
        OfCount,
        Own(&[OUTPUT, QUIET, PROGRESS]),
    ],
};

/// The command that tries a desk.
fn desk() -> &'static CommandForm {
    DESK
}

const DESK: &CommandForm = &CommandForm {
    name: "desk",
    notes: "Manual pages: man pb_app-election, man pb_app-script, man pb_app-journal.",
    about: "Runs a file of requests (a script) on a new desk, and prints the journal",
    groups: &[Own(&[
        ELECTION, SCRIPT, CLERKS, SHUT, BY_ID, ROLL, LEAST, KEEP_FILE, OUTPUT, QUIET_DESK, PROGRESS,
    ])],
};

/// The command that checks a journal.
fn audit() -> &'static CommandForm {
    AUDIT
}

const AUDIT: &CommandForm = &CommandForm {
    name: "audit",
    notes: "Manual pages: man pb_app-election, man pb_app-journal, man pb_app-report, man pb_app-counting.",
    about: "Checks a journal against its .pb file; if the desk is shut, counts its ballots and prints the report",
    groups: &[
        Own(&[ELECTION, JOURNAL, OTHER_FILE]),
        OfCount,
        Own(&[
            DECIDE,
            DECIDED_BESIDE,
            REQUIRE_SHUT,
            DIGESTS,
            STRICT,
            OUTPUT,
            QUIET_DESK,
            PROGRESS,
        ]),
    ],
};

/// The command that shows the ballots that a journal leaves.
fn ballots() -> &'static CommandForm {
    BALLOTS
}

const BALLOTS: &CommandForm = &CommandForm {
    name: "ballots",
    notes: AFTER_BALLOTS,
    about: "Checks a journal against its .pb file, and prints the ballots that the voters have now",
    groups: &[Own(&[
        ELECTION,
        JOURNAL,
        VOTER,
        HISTORY,
        OTHER_FILE,
        OUTPUT,
        QUIET_BALLOTS,
        PROGRESS,
    ])],
};

/// The command that writes the journal of a desk.
fn serve() -> &'static CommandForm {
    SERVE
}

const SERVE: &CommandForm = &CommandForm {
    name: "serve",
    notes: AFTER_SERVE,
    about: "Runs a desk: takes requests from standard input, and writes each to the journal on disk before it answers",
    groups: &[Own(&[
        SERVED,
        DURABLE,
        OTHER_FILE,
        BY_ID,
        ROLL,
        LEAST,
        KEEP_FILE,
        NO_SHUT,
        QUIET_SERVE,
    ])],
};

/// The command that says a rule in the words of a by-law.
fn bylaw() -> &'static CommandForm {
    BYLAW
}

/// The command that says a rule in the words of a by-law.
pub(crate) const BYLAW: &CommandForm = &CommandForm {
    name: "bylaw",
    notes: "Manual pages: man pb_app-counting.",
    about: "Prints the rule of a count as a paragraph for a by-law",
    groups: &[Own(&[
        STEP, PLAIN, COMPLETION, MEASURE, RULE, TIES, MONEY, PROFILE, DECIDE,
    ])],
};
