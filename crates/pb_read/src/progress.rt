//! How far a file was read.

ghost use Rattle.std.specs.Prelude.{◌≡◌, ◌≢◌, None, false, Some, IfErr, OnOk, MatchResult};
ghost use Rattle.pb_read.specs.Inner.Forms.{next_row};
ghost use Rattle.pb_read.specs.Listed.{is_of_row, leaves_out};
ghost use Rattle.pb_read.specs.Stages.{head, plain, the_end};
ghost use Rattle.pb_core.specs.Inner.Terms.{opening};
ghost use Rattle.pb_read.specs.Inner.Machine.{meta_checks, terms_said};
ghost use Rattle.pb_read.specs.Inner.Progresses.{Advances, EndsWith, IsOfNoValue, IsRead, IsReady, Refuses};
ghost use Rattle.pb_read.specs.Inner.Progresses.{Stays, place_of};
ghost use Rattle.pb_read.specs.Inner.Opening.{empty};
ghost use Rattle.pb_read.specs.declared.progress.Stage.TheVariants.{Start, Header};
ghost use Rattle.pb_read.specs.declared.section.Section.TheVariants.{Projects};

use crate::columns::{ProjectColumns, VoteColumns};
use crate::draft::Draft;
use crate::fault::ReadKind;
use crate::meta::Meta;
use crate::row::Row;
use crate::section::Section;
use crate::watch::Part;
use pb_core::election::Election;
use pb_core::money::Money;
use pb_core::terms::Terms;
use std::alloc::Global;
use std::mem;

/// How far a file was read: what the next record may be.
#[derive(Clone, Copy)]
pub enum Stage {
    /// META's head.
    Start,
    /// A section's header row, after its head.
    Header(Section),
    /// A row of META, or PROJECTS' head.
    InMeta(Meta),
    /// A row of PROJECTS, or VOTES' head.
    InProjects(ProjectColumns),
    /// A row of VOTES, or the end of the file.
    InVotes(VoteColumns),
}

/// How far a file was read, and what it gave so far.
#[derive(Drop)]
pub(crate) struct Progress {
    pub(crate) stage: Stage,
    pub(crate) draft: Draft,
}

impl Progress {
    /// Nothing was read yet.
    pub(crate) fn new(alloc: Global) -> Progress
        ensures start { place_of result ≡ (Start, empty) }
        ensures ready { IsReady result }
    {
        Progress {
            stage: Stage::Start,
            draft: Draft::new(alloc, Terms::of_budget(Money(0))),
        }
    }

    /// Reads a record, and answers what it is, or the lowest fault that applies to it.
    pub(crate) fn read(&mut self, row: &Row) -> Result<Part, ReadKind>
        requires { IsReady self.old }
        ensures ok { OnOk result (Advances self.old (next_row row.now) self.new) }
        ensures err { IfErr result (Refuses self.old (next_row row.now)) }
        ensures stays { IfErr result (λ kind. kind ≢ ReadKind.NoMemory → Stays self.old self.new) }
    {
        if row.is_blank() {
            return Ok(Part::Other);
        }
        match Section::headed_by(row) {
            Some(section) => self.open(section),
            None => self.read_plain(row),
        }
    }

    /// Reads a section's head.
    #[tactic(auto, unfolding(crate::specs::Inner::Machine::row_fault))]
    fn open(&mut self, section: Section) -> Result<Part, ReadKind>
        requires { IsReady self.old }
        ensures ok { OnOk result (Advances self.old (head section) self.new) }
        ensures err { IfErr result (Refuses self.old (head section)) }
        ensures stays { IfErr result (λ kind. kind ≢ ReadKind.NoMemory → Stays self.old self.new) }
    {
        match (self.stage, section) {
            (Stage::Start, Section::Meta) | (Stage::InProjects(_), Section::Votes) => {
                self.stage = Stage::Header(section);
                Ok(Part::Head(section))
            }
            (Stage::InMeta(meta), Section::Projects) => self.open_projects(meta),
            (Stage::Header(_), _) => Err(ReadKind::NoHeader),
            _ => Err(ReadKind::SectionOrder),
        }
    }

    /// Reads PROJECTS' head after META.
    fn open_projects(&mut self, meta: Meta) -> Result<Part, ReadKind>
        requires { IsRead meta }
        ensures ok { OnOk result ((meta_checks meta ≡ None)
            × (place_of self.new ≡ (Header Projects, opening (terms_said meta))) × IsReady self.new) }
        ensures err { IfErr result (λ kind.
            (meta_checks meta ≡ Some kind) × (self.new ≡ self.old)) }
    {
        let terms = match meta.terms() {
            Ok(terms) => terms,
            Err(kind) => return Err(kind),
        };
        let draft = Draft::new(self.draft.alloc, terms);
        drop(mem::replace(&mut self.draft, draft));
        self.stage = Stage::Header(Section::Projects);
        Ok(Part::Head(Section::Projects))
    }

    /// Reads a row that is no section's head.
    #[tactic(auto, unfolding(crate::specs::Inner::Machine::row_fault))]
    fn read_plain(&mut self, row: &Row) -> Result<Part, ReadKind>
        requires { IsReady self.old }
        ensures ok { OnOk result (Advances self.old (plain row.now) self.new) }
        ensures err { IfErr result (Refuses self.old (plain row.now)) }
        ensures stays { IfErr result (λ kind. kind ≢ ReadKind.NoMemory → Stays self.old self.new) }
    {
        match self.stage {
            Stage::Start => Err(ReadKind::NoSection),
            Stage::Header(section) => self.read_names(section, row),
            Stage::InMeta(mut meta) => {
                meta.note(row);
                self.stage = Stage::InMeta(meta);
                Ok(Part::Key)
            }
            Stage::InProjects(columns) => match self.draft.add_project(columns, row) {
                Ok(()) => Ok(Part::Project(columns)),
                Err(kind) => Err(kind),
            },
            Stage::InVotes(columns) => match self.draft.add_voter(columns, row) {
                Ok(()) => Ok(Part::Vote(columns)),
                Err(kind) => Err(kind),
            },
        }
    }

    /// Reads the row of column names of this section.
    #[tactic(auto, unfolding(crate::specs::Inner::Machine::row_fault))]
    fn read_names(&mut self, section: Section, row: &Row) -> Result<Part, ReadKind>
        requires ready { IsReady self.old }
        requires due { self.old.stage ≡ Header section }
        ensures ok { OnOk result (Advances self.old (plain row.now) self.new) }
        ensures err { IfErr result (Refuses self.old (plain row.now)) }
        ensures stays { IfErr result (λ kind. kind ≢ ReadKind.NoMemory → Stays self.old self.new) }
    {
        match section {
            Section::Meta => self.stage = Stage::InMeta(Meta::new()),
            Section::Projects => match ProjectColumns::of(row) {
                Some(columns) => self.stage = Stage::InProjects(columns),
                None => return Err(ReadKind::MissingColumn),
            },
            Section::Votes => match VoteColumns::of(row) {
                Some(columns) => self.stage = Stage::InVotes(columns),
                None => return Err(ReadKind::MissingColumn),
            },
        }
        Ok(Part::Names(section))
    }

    /// Whether a record that comes here is left out for a fault of this kind: a row of PROJECTS or VOTES alone.
    pub(crate) fn leaves_out(&self, kind: ReadKind) -> bool
        ensures { result ≡ leaves_out self.now.stage kind }
    {
        match self.stage {
            Stage::InProjects(_) | Stage::InVotes(_) => is_of_row(kind),
            _ => false,
        }
    }

    /// Whether the file may end here, or why not.
    #[tactic(auto, unfolding(crate::specs::Inner::Machine::row_fault))]
    pub(crate) fn may_end(&self) -> Result<(), ReadKind>
        ensures end { MatchResult result (λ _. EndsWith (place_of self.now) self.now.draft.election)
            (Refuses self.now the_end) }
        ensures no_row { IfErr result (λ kind. leaves_out self.now.stage kind ≡ false) }
        ensures no_value { IfErr result IsOfNoValue }
    {
        match self.stage {
            Stage::InVotes(_) => Ok(()),
            Stage::Header(_) => Err(ReadKind::NoHeader),
            Stage::Start | Stage::InMeta(_) | Stage::InProjects(_) => Err(ReadKind::NoSection),
        }
    }
}

/// Whether rows of PROJECTS and VOTES have a fault of this kind by themselves.
fn is_of_row(kind: ReadKind) -> bool
    ensures { result ≡ is_of_row kind }
{
    let number = kind.number();
    number == 2 || number == 8 || (11 <= number && number <= 20)
}
