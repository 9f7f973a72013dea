//! Who makes a page of a count.

ghost use Rattle.std.specs.Prelude.{◌≡◌, IfOk, IfSome};
ghost use Rattle.pb_app.specs.Inner.Page.{AreAsked, IsPageOf};

use crate::keeping_watch::KeepingWatch;
use crate::page_count::PageCount;
use crate::tongue::Tongue;
use pb_command_line::currency::is_currency;
use pb_command_line::{PROGRAM, PageRun, TextSource};
use pb_commands::{Counting, Decide};
use pb_core::election::Election;
use pb_core::gate::Gate;
use pb_core::money::Money;
use pb_core::no_memory::NoMemory;
use pb_page::{Categories, Decided, Facts, Language, ReadText, page_of};
use pb_reasons::CountedElection;
use pb_streams::Hex;
use pb_witness::page_notes::PageNotes;
use std::cell::Cell;
use std::path::Path;
use std::thread::Threads;

/// What standard input is called.
const INPUT: &str = "standard input";

/// Makes the page that a run asks for.
#[derive(Drop)]
pub(crate) struct PageMaker<'a, 'p, 'r, S> {
    pub(crate) run: &'p PageRun<'r>,
    /// How it is decided by which rule the count is, if it is.
    pub(crate) decide: Option<Decide>,
    pub(crate) speech: &'a S,
    /// The digest of the .pb file, once that is read.
    pub(crate) file: &'a Cell<Option<Hex>>,
    /// The digest of the journal, once one is read.
    pub(crate) journal: &'a Cell<Option<Hex>>,
}

/// What was asked and read for a page, but for what is counted.
#[derive(Clone, Copy)]
struct SeenOfFile<'a> {
    run: &'a PageRun<'a>,
    /// The digest of the .pb file.
    file: Option<Hex>,
    /// That of the journal, if there is one.
    journal: Option<Hex>,
    notes: &'a PageNotes,
    /// The different categories of the projects.
    categories: &'a [&'a str],
    /// How it was decided by which rule the count is, if it was.
    decided: Option<Decided>,
}

impl<S: Tongue> PageMaker<'_, '_, '_, S> {
    /// The page of this count, once this one has looked on at the whole file.
    pub(crate) fn text_of<T: Threads + Sync, G: Gate, H>(
        &self,
        counting: &Counting<T, G>,
        watch: &KeepingWatch<'_, H, PageNotes>,
        counted: &PageCount,
    ) -> Result<Vec<u8>, NoMemory>
        ensures { IfOk result (λ text. IsPageOf self.now.run.now counted.now.decided counted.now.count text.items) }
    {
        let notes = &watch.keeper;
        if !notes.is_whole() {
            return Err(NoMemory);
        }
        let categories = notes.categories()?;
        let seen = SeenOfFile {
            run: self.run,
            file: self.file.get(),
            journal: self.journal.get(),
            notes,
            categories: categories.as_slice(),
            decided: counted.decided,
        };
        let page = page_with(counting, &counted.count, self.speech, &seen);
        drop(categories);
        page
    }
}

/// The page of this count in this language, with what was seen besides.
fn page_with<'a, T: Threads + Sync, G: Gate, S: Tongue>(
    counting: &Counting<T, G>,
    count: &CountedElection,
    speech: &'a S,
    seen: &'a SeenOfFile<'a>,
) -> Result<Vec<u8>, NoMemory>
    ensures { IfOk result (λ text. IsPageOf seen.now.run.now seen.now.decided count.now text.items) }
{
    let (rt, alloc, gate) = (counting.rt, counting.alloc, counting.gate);
    let said = speech.said(alloc, currency_of(seen))?;
    let own = said.title;
    let language = said.language(is_whole(count.election()));
    let facts = facts_of(seen, own, language);
    let page = page_of(rt, alloc, gate, count, &facts);
    drop(said);
    page
}

/// The currency that was asked for, or else the one that META names, if it is one.
fn currency_of<'a>(seen: &'a SeenOfFile<'a>) -> Option<&'a str> {
    match seen.run.currency {
        Some(asked) => Some(asked),
        None => match seen.notes.currency() {
            Some(named) if is_currency(named) => Some(named),
            _ => None,
        },
    }
}

/// What the page says beside the outcome, in this language, which has this title for a page without one.
fn facts_of<'a>(seen: &'a SeenOfFile<'a>, title: &'a str, language: Language<'a>) -> Facts<'a>
    ensures { AreAsked seen.now.run.now seen.now.decided result }
{
    let run = seen.run;
    let journal = match (&run.ballots.journal, &seen.journal) {
        (Some(source), Some(digest)) => Some(read_text_of(source, Some(digest))),
        _ => None,
    };
    Facts {
        title: title_of(run, title),
        file: read_text_of(&run.ballots.file, seen.file.as_ref()),
        journal,
        files: run.files,
        recount: run.recount,
        compares: run.compares,
        decided: seen.decided,
        categories: categories_of(seen),
        program: PROGRAM,
        language,
    }
}

/// The title that was asked for, or else this one.
fn title_of<'a>(run: &PageRun<'a>, own: &'a str) -> &'a str
    ensures { IfSome run.now.title (λ title. result ≡ title) }
{
    match run.title {
        Some(title) => title,
        None => own,
    }
}

/// The categories of the projects, if a project has one.
fn categories_of<'a>(seen: &'a SeenOfFile<'a>) -> Option<Categories<'a>> {
    if !seen.notes.has_categories() {
        return None;
    }
    Some(Categories {
        names: seen.categories,
        of_project: seen.notes.of_project(),
    })
}

/// Whether the budget and all costs are whole.
fn is_whole(election: &Election) -> bool {
    let mut is_whole = has_no_decimals(election.budget());
    for project in election.projects() {
        is_whole = is_whole && has_no_decimals(project.cost());
    }
    is_whole
}

/// Whether an amount is whole.
fn has_no_decimals(amount: Money) -> bool {
    amount.0 % 100 == 0
}

/// A text that was read, by its name without its folders.
fn read_text_of<'a>(source: &TextSource<'a>, digest: Option<&'a Hex>) -> ReadText<'a> {
    let name = match source.path() {
        Some(path) => Path::new(path).file_name().unwrap_or(path),
        None => INPUT,
    };
    let digest = match digest {
        Some(digest) => digest.text(),
        None => "",
    };
    ReadText { name, digest }
}
