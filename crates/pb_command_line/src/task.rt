//! What the arguments of the command line ask for.

use crate::decider::Decider;
use crate::rule::decision_by;
use crate::said_rule::SaidRule;
use crate::text_source::TextSource;
use pb_core::money::Money;
use pb_rounds::rule::Rule;

/// The ballots that are counted.
#[derive(Clone, Copy)]
pub struct Ballots<'a> {
    /// The .pb file.
    pub file: TextSource<'a>,
    /// The journal of its desk, which leaves the ballots; with none they are the file's own.
    pub journal: Option<TextSource<'a>>,
}

/// Which requests a desk admits, and how their rows name projects.
#[derive(Clone, Copy)]
pub struct Admits<'a> {
    /// Rows name projects by their ids, and not by their places.
    pub by_id: bool,
    /// The path of the voters' roll.
    pub roll: Option<&'a str>,
    /// How many projects a ballot has at least.
    pub least: u32,
    /// No request is for a voter whom the file lists.
    pub keeps_file: bool,
    /// A request may shut the desk.
    pub may_shut: bool,
}

/// A desk of a .pb file that stands on a journal; standard input asks.
#[derive(Clone, Copy)]
pub struct ServeRun<'a> {
    /// The path of the .pb file.
    pub file: &'a str,
    pub journal: &'a str,
    pub admits: Admits<'a>,
}

/// A run of the desk of a .pb file, whose clerks serve a script.
#[derive(Clone, Copy)]
pub struct DeskRun<'a> {
    /// The .pb file.
    pub file: TextSource<'a>,
    pub script: TextSource<'a>,
    /// How many clerks there are.
    pub clerks: u32,
    /// The desk is shut at the end.
    pub shuts: bool,
    pub admits: Admits<'a>,
}

/// An audit of a journal on a .pb file.
#[derive(Clone, Copy)]
pub struct AuditRun<'a> {
    /// The .pb file.
    pub file: TextSource<'a>,
    pub journal: TextSource<'a>,
    /// An open desk is refused.
    pub requires_shut: bool,
    /// The digests of what was read stand before the report.
    pub digests: bool,
}

/// The report of a count.
#[derive(Clone, Copy)]
pub struct CountRun<'a> {
    pub ballots: Ballots<'a>,
    /// The digests of what was read stand before the report.
    pub digests: bool,
}

/// A count beside one by another rule.
#[derive(Clone, Copy)]
pub struct CompareRun<'a> {
    pub ballots: Ballots<'a>,
    /// The other rule, if it is named; else it is most votes first.
    pub beside: Option<Rule>,
    /// A row for each project, in place of one for each rule.
    pub by_project: bool,
}

/// The ballots that a journal leaves on the desk of a .pb file.
#[derive(Clone, Copy)]
pub struct BallotsRun<'a> {
    /// The .pb file.
    pub file: TextSource<'a>,
    pub journal: TextSource<'a>,
    /// The voter whose ballot is asked for, as it was given; with none all are.
    pub voter: Option<&'a str>,
    /// What the voter's ballot was is asked for, entry by entry.
    pub history: bool,
}

/// A check of a .pb file.
#[derive(Clone, Copy)]
pub struct CheckRun<'a> {
    pub file: TextSource<'a>,
    /// The column `selected` is compared with a count.
    pub compares: bool,
}

/// The page of a count.
#[derive(Clone, Copy)]
pub struct PageRun<'a> {
    pub ballots: Ballots<'a>,
    /// What was voted on, if it is said.
    pub title: Option<&'a str>,
    /// The address of the files that are published beside the page, if one is given.
    pub files: Option<&'a str>,
    /// The address of a page that recounts in a browser, if one is given.
    pub recount: Option<&'a str>,
    /// The path of the file with what the page says, if it is not English.
    pub words: Option<&'a str>,
    /// The currency of its amounts, if one is given.
    pub currency: Option<&'a str>,
    /// The page also has the comparison with most votes.
    pub compares: bool,
    /// Where the published page is read from that is compared with this one, if one is.
    pub same_as: Option<TextSource<'a>>,
    /// The rule, as far as options say it.
    pub given: SaidRule,
    /// By what it is judged whether another rule applies, if that is asked.
    pub decider: Option<Decider>,
    /// The other rule, if it is named.
    pub beside: Option<Rule>,
}

impl PageRun<'_> {
    /// The other rule, and by what it is judged which one applies, if that is asked, for so many workers.
    pub fn decides(&self, workers: u32) -> Option<(Decider, Rule)> {
        decision_by(self.decider, self.beside, &self.given, workers)
    }
}

/// The one change of an election that is counted.
#[derive(Clone, Copy)]
pub enum OneChange {
    /// The project has this cost; 0 where the text names none, and such arguments are refused.
    Cost(Money),
    /// There are so many further voters, who approve the project alone.
    Voters(u32),
}

/// Which project a question about changed elections is about.
#[derive(Clone, Copy)]
pub enum Whose<'a> {
    /// The one with this id; none where no option names one, and such arguments are refused. With no change
    /// that is counted alone, changes are searched.
    Project(Option<&'a str>, Option<OneChange>),
    /// Each of so many losers, those with most votes.
    Losers(u32),
}

/// A question about changed elections: what would have made a project win.
#[derive(Clone, Copy)]
pub struct WhatIfRun<'a> {
    pub ballots: Ballots<'a>,
    pub whose: Whose<'a>,
}

/// What the arguments ask for.
#[derive(Clone, Copy)]
pub enum Task<'a> {
    /// The report of a count of a .pb file.
    Count(CountRun<'a>),
    /// The projects of a count of these ballots: who won and why, who lost and by how much.
    Projects(Ballots<'a>),
    /// The voters of a count of these ballots: who paid.
    Voters(Ballots<'a>),
    /// How fair a count of these ballots is to the supporters of the projects that lost.
    Fairness(Ballots<'a>),
    /// A count of these ballots beside one by another rule.
    Compare(CompareRun<'a>),
    /// All ties of a count of these ballots.
    Ties(Ballots<'a>),
    /// Counts of changed elections.
    WhatIf(WhatIfRun<'a>),
    /// The page of a count.
    Page(PageRun<'a>),
    /// The .pb file of these ballots, with what their count came to.
    Export(Ballots<'a>),
    /// A check of a .pb file.
    Check(CheckRun<'a>),
    /// A run of the desk of a .pb file.
    Desk(DeskRun<'a>),
    /// An audit of a journal on a .pb file.
    Audit(AuditRun<'a>),
    /// The ballots that a journal leaves on the desk of a .pb file.
    Ballots(BallotsRun<'a>),
    /// A desk of a .pb file that stands on a journal.
    Serve(ServeRun<'a>),
}

impl<'a> Task<'a> {
    /// The texts that are read: the .pb file, and behind it a script or a journal, where there is one.
    pub fn texts(&self) -> (TextSource<'a>, Option<TextSource<'a>>) {
        match *self {
            Task::Check(CheckRun { file, .. }) => (file, None),
            Task::Projects(ballots)
            | Task::Voters(ballots)
            | Task::Fairness(ballots)
            | Task::Ties(ballots)
            | Task::Export(ballots)
            | Task::Count(CountRun { ballots, .. })
            | Task::Compare(CompareRun { ballots, .. })
            | Task::WhatIf(WhatIfRun { ballots, .. })
            | Task::Page(PageRun { ballots, .. }) => (ballots.file, ballots.journal),
            Task::Desk(DeskRun { file, script, .. }) => (file, Some(script)),
            Task::Audit(AuditRun { file, journal, .. })
            | Task::Ballots(BallotsRun { file, journal, .. }) => (file, Some(journal)),
            Task::Serve(ServeRun { file, journal, .. }) => {
                (TextSource::File(file), Some(TextSource::File(journal)))
            }
        }
    }

    /// The journal that is read, if one is.
    pub fn journal(&self) -> Option<TextSource<'a>> {
        match self {
            Task::Desk(_) => None,
            _ => self.texts().1,
        }
    }

    /// Whether the result is a journal.
    pub fn makes_journal(&self) -> bool {
        matches!(self, Task::Desk(_))
    }

    /// Whether the result pairs ids with ballots.
    pub fn pairs_ids(&self) -> bool {
        match self {
            Task::Desk(_) | Task::Voters(_) | Task::Export(_) | Task::Ballots(_) => true,
            Task::Count(_)
            | Task::Projects(_)
            | Task::Fairness(_)
            | Task::Compare(_)
            | Task::Ties(_)
            | Task::WhatIf(..)
            | Task::Page(..)
            | Task::Check(_)
            | Task::Audit(_)
            | Task::Serve(..) => false,
        }
    }

    /// Whether digests of what is read are part of the result.
    pub fn shows_digests(&self) -> bool {
        matches!(
            self,
            Task::Page(_)
                | Task::Count(CountRun { digests: true, .. })
                | Task::Audit(AuditRun { digests: true, .. })
        )
    }

    /// Which requests are admitted: all, where no desk takes any.
    pub fn admits(&self) -> Admits<'a> {
        match *self {
            Task::Desk(DeskRun { admits, .. }) | Task::Serve(ServeRun { admits, .. }) => admits,
            _ => Admits {
                by_id: false,
                roll: None,
                least: 0,
                keeps_file: false,
                may_shut: true,
            },
        }
    }

    /// The path of the third file that is read, if there is one: the voters' roll, or the words of a page.
    pub fn third(&self) -> Option<&'a str> {
        match *self {
            Task::Page(PageRun { words, .. }) => words,
            _ => self.admits().roll,
        }
    }

    /// The published page that is read, if one is.
    pub fn published(&self) -> Option<TextSource<'a>> {
        match *self {
            Task::Page(PageRun { same_as, .. }) => same_as,
            _ => None,
        }
    }

    /// Their paths; standard input has none.
    pub fn paths(&self) -> (Option<&'a str>, Option<&'a str>) {
        let (file, second) = self.texts();
        match second {
            Some(text) => (file.path(), text.path()),
            None => (file.path(), None),
        }
    }
}

/// What the arguments ask for, and where the result goes.
#[derive(Clone, Copy)]
pub struct Asked<'a> {
    pub task: Task<'a>,
    /// By which rule the ballots are counted, where some are.
    pub rule: Rule,
    /// The other rule, and by what it is judged which of both applies, if that is asked.
    pub decides: Option<(Decider, Rule)>,
    /// The path of the file that gets the result; none is standard output.
    pub output: Option<&'a str>,
    /// Whether it is shown how far the work has come; none is where standard error is a terminal.
    pub shows: Option<bool>,
    /// A warning refuses the .pb file of a count.
    pub is_strict: bool,
    /// A journal that belongs to another .pb file is read all the same.
    pub takes_other: bool,
    /// The further columns of VOTES are exported too.
    pub keeps_voters: bool,
}

impl Asked<'_> {
    /// The other rule by which the ballots are counted too, if one is named, or may apply.
    pub fn beside(&self) -> Option<Rule> {
        match (&self.task, self.decides) {
            (Task::Compare(run), _) => run.beside,
            (_, Some((_, rule))) => Some(rule),
            _ => None,
        }
    }
}
