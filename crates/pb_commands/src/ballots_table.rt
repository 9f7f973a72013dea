//! The table of the ballots that a desk has.

ghost use Rattle.std.specs.Prelude.{◌≡◌, ◌<◌, ◌-◌, ◌++◌, ◌∷◌, ℕ, List, [], OnOk, IfOk, decimal, map};
ghost use Rattle.std.specs.Prelude.{slice_get, slice_index_or, string_bytes, true};
ghost use Rattle.std.specs.FinMap as finite;
ghost use Rattle.std.specs.Option.{option_and_then, option_copied, option_map_or};
ghost use Rattle.std.specs.Str.{bytes_eq};
ghost use Rattle.pb_rows.specs.Writing.{text_of_row};
ghost use Rattle.pb_commands.specs.Ballots.{ballots_table, given_to, last_given};
ghost use Rattle.pb_commands.specs.Inner.Ballots.{ids_text};

use crate::report::whole;
use pb_core::answer::Answer;
use pb_core::entry::Entry;
use pb_core::no_memory::NoMemory;
use pb_core::project::Project;
use pb_core::voter_id::VoterId;
use pb_desk::Desk;
use pb_desk::request_fields::brought;
use pb_ids::IdTable;
use pb_rows::{Field, RowsWriter};
use std::alloc::Global;

/// The table of a desk's ballots, or of the ballot of this voter alone, as text.
pub(crate) fn ballots_text(
    alloc: Global,
    desk: &Desk,
    voter: Option<&str>,
) -> Result<Vec<u8>, NoMemory>
    ensures { IfOk result (λ text. text.items ≡ ballots_table (option_copied voter.entry) desk.now) }
{
    let mut rows = RowsWriter::start(alloc);
    put_ballots(&mut rows, alloc, desk, voter)?;
    whole(rows)
}

/// Writes the columns, and a row for each ballot.
fn put_ballots(
    rows: &mut RowsWriter,
    alloc: Global,
    desk: &Desk,
    voter: Option<&str>,
) -> Result<(), NoMemory>
    ensures { OnOk result (rows.new.text
        ≡ rows.old.text ++ ballots_table (option_copied voter.entry) desk.now) }
{
    rows.put_row(&["voter_id", "entry", "project_ids"])?;
    let givers = givers_of(alloc, desk)?;
    let projects = desk.projects();
    let mut ids = String::new(alloc);
    for (id, ballot) in desk.standing() {
        let id = id.text();
        if is_asked(voter, id) {
            write_ids(&mut ids, projects, ballot.places())?;
            put_ballot(rows, id, givers.get(id), ids.as_str())?;
        }
    }
    Ok(())
}

/// The voters to whom entries of the journal gave a ballot, each with the number of the last that did.
fn givers_of(alloc: Global, desk: &Desk) -> Result<IdTable, NoMemory>
    ensures { IfOk result (λ givers. (id : List ℕ) → finite.get givers id ≡ last_given id desk.now.journal) }
{
    let mut givers = IdTable::new(alloc);
    for index in 0..desk.entries() {
        let number = index + 1;
        if let Some(voter) = given_by(desk, number) {
            givers.insert(alloc, voter.text(), number)?;
        }
    }
    Ok(givers)
}

/// The voter to whom the entry with this number gave a ballot.
fn given_by(desk: &Desk, number: u32) -> Option<&VoterId>
    requires { 0 < number }
    ensures { option_copied result
        ≡ option_and_then (λ x. given_to x.answer x.request) (slice_get desk.now.journal (number - 1)) }
{
    given_to(desk.entry(number)?)
}

/// The voter to whom an entry gave a ballot.
fn given_to(entry: &Entry) -> Option<&VoterId>
    ensures { option_copied result ≡ given_to entry.now.answer entry.now.request }
{
    match entry.answer {
        Answer::Done => {
            let (voter, _ballot) = brought(&entry.request)?;
            Some(voter)
        }
        _ => None,
    }
}

/// Whether the row of the voter with this id is asked for.
fn is_asked(voter: Option<&str>, id: &str) -> bool
    ensures { result ≡ option_map_or (bytes_eq id.now) (option_copied voter.entry) true }
{
    match voter {
        Some(voter) => id == voter,
        None => true,
    }
}

/// Writes the ids of the projects at these places, with `,` between two, in place of what the text held.
fn write_ids(text: &mut String, projects: &[Project], places: &[u32]) -> Result<(), NoMemory>
    ensures { OnOk result (string_bytes text.new ≡ ids_text (map (λ p. p.id) projects.now) places.now) }
{
    text.clear();
    for (i, place) in places.iter().enumerate() {
        if i > 0 {
            text.push_str(",")?;
        }
        text.push_str(id_at(projects, *place))?;
    }
    Ok(())
}

/// The id of the project at this place.
fn id_at<'a>(projects: &'a [Project], place: u32) -> &'a str
    ensures { result.now ≡ slice_index_or (map (λ p. p.id) projects.now) place [] }
{
    match projects.get(place as usize) {
        Some(project) => project.id(),
        None => "",
    }
}

/// Writes the row of a ballot, which the entry with this number gave, or the file.
fn put_ballot(
    rows: &mut RowsWriter,
    id: &str,
    number: Option<u32>,
    ids: &str,
) -> Result<(), NoMemory>
    ensures { OnOk result (rows.new.text ≡ rows.old.text
        ++ text_of_row (id.now ∷ option_map_or decimal number [] ∷ ids.now ∷ [])) }
{
    let entry = match number {
        Some(number) => Field::number(number),
        None => Field::Empty,
    };
    rows.put_fields(&[Field::Text(id), entry, Field::Text(ids)])?;
    Ok(())
}
