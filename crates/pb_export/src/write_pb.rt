//! Elections, written as .pb files.

ghost use Rattle.std.specs.Prelude.{◌≡◌, ◌≢◌, ◌<◌, ◌++◌, ◌∷◌, [], ℕ, All, IfErr, IfOk, None, OnOk, Some, length, map};
ghost use Rattle.std.specs.Prelude.{string_bytes};
ghost use Rattle.csv.specs.Records.{AllText};
ghost use Rattle.pb_core.specs.Election.{project_ids};
ghost use Rattle.pb_read.specs.StandsFor.{StandsFor};
ghost use Rattle.pb_rows.specs.Reading.{records_of};
ghost use Rattle.pb_rows.specs.Writing.{text_of_row, text_of_rows};
ghost use Rattle.pb_export.specs.Export.{export_refusal};
ghost use Rattle.pb_export.specs.Inner.Behind.{behind};
ghost use Rattle.pb_export.specs.Inner.Growing.{Grows};
ghost use Rattle.pb_export.specs.Inner.Parts.{key_row, key_rows, limit_rows, meta_parts, project_row, terms_rows, vote_text};
ghost use Rattle.pb_export.specs.FileRows.{file_rows, projects_rows};
ghost use Rattle.pb_export.specs.FileRows.{votes_rows};

use crate::amount::amount_text;
use crate::behind::Behind;
use crate::export_fault::ExportFault;
use crate::further::Further;
use crate::further_keys::FurtherKey;
use crate::readable::{has_comma_in_vote, has_section_word, is_of_file, may_follow};
use crate::told::Told;
use itoa::Buffer;
use pb_core::election::Election;
use pb_core::laws::money_reads_back;
use pb_core::no_memory::NoMemory;
use pb_core::project::Project;
use pb_core::terms::Terms;
use pb_read::MetaKey;
use pb_rows::{RowsWriter, rows_come_back};
use std::alloc::Global;

/// Writes an election as a .pb file: META, PROJECTS and VOTES, each with its header row, projects and voters
/// in their order. Readers pass over what `told` has: the rows `rule` and `comment` of META, the columns
/// `votes` and `selected` of PROJECTS, and further keys and columns. A further key whose name the file has of
/// its own, or that is a section's head, is left out.
///
/// The file is read back as this election. An election that can't be is refused: a section's name as an id
/// first, then a comma in the id of a project that a ballot approves, then what no file's election has.
pub fn write_pb(alloc: Global, election: &Election, told: &Told<'_>) -> Result<Vec<u8>, ExportFault>
    requires votes { length told.now.votes.now ≡ length election.now.projects }
    requires selected { length told.now.selected.now ≡ length election.now.projects }
    ensures reads_back { IfOk result (λ text. StandsFor (records_of text.items) election.now) }
    ensures text { IfOk result (λ text. text.items ≡ text_of_rows
        (file_rows election.now told.now.rule.now told.now.comment.now told.now.votes.now
        told.now.selected.now
        told.now.further.now)) }
    ensures ok { OnOk result (export_refusal election.now ≡ None) }
    ensures fault { IfErr result (λ fault. fault ≢ ExportFault.NoMemory → export_refusal election.now ≡ Some fault) }
{
    // Rows and amounts that are written are read back; and what is true of every election holds of what is
    // read back.
    rows_come_back();
    money_reads_back();
    let _budget = election.budget();
    let _keys = told.further.keys.keys();
    if has_section_word(election) {
        return Err(ExportFault::SectionWord);
    }
    if has_comma_in_vote(election) {
        return Err(ExportFault::CommaInId);
    }
    if !is_of_file(election) {
        return Err(ExportFault::OfNoFile);
    }
    let mut rows = RowsWriter::start(alloc);
    match put_file(&mut rows, alloc, election, told) {
        Ok(()) => match rows.finish() {
            Ok(text) => Ok(text),
            Err(_) => Err(ExportFault::NoMemory),
        },
        Err(_) => {
            drop(rows);
            Err(ExportFault::NoMemory)
        }
    }
}

/// Writes the three sections.
fn put_file(
    rows: &mut RowsWriter,
    alloc: Global,
    election: &Election,
    told: &Told<'_>,
) -> Result<(), NoMemory>
    requires votes { length told.now.votes.now ≡ length election.now.projects }
    requires selected { length told.now.selected.now ≡ length election.now.projects }
    ensures { OnOk result (Grows
        (file_rows election.now told.now.rule.now told.now.comment.now told.now.votes.now
        told.now.selected.now
        told.now.further.now) rows.old.text rows.new.text) }
{
    put_meta(rows, alloc, election, told.rule, told.comment)?;
    put_keys(rows, told.further.keys.keys())?;
    put_projects(rows, alloc, election.projects(), told)?;
    put_votes(rows, alloc, election, told.further)
}

/// Writes META but for further keys.
fn put_meta(
    rows: &mut RowsWriter,
    alloc: Global,
    election: &Election,
    rule: &str,
    comment: &str,
) -> Result<(), NoMemory>
    ensures { OnOk result (Grows (meta_parts election.now rule.now comment.now []) rows.old.text
        rows.new.text) }
{
    let mut project_digits = Buffer::new();
    let mut voter_digits = Buffer::new();
    let projects = project_digits.format(election.projects().len() as u32);
    let voters = voter_digits.format(election.voters().len() as u32);
    rows.put_row(&["META"])?;
    put_pair(rows, "key", "value")?;
    put_terms(rows, alloc, election.terms())?;
    put_pair(rows, "num_projects", projects)?;
    put_pair(rows, "num_votes", voters)?;
    put_pair(rows, "rule", rule)?;
    put_pair(rows, "comment", comment)
}

/// Writes a row of META: a key and its value.
fn put_pair(rows: &mut RowsWriter, key: &str, value: &str) -> Result<(), NoMemory>
    ensures { OnOk result (Grows ((key.now ∷ value.now ∷ []) ∷ []) rows.old.text rows.new.text) }
{
    rows.put_row(&[key, value])?;
    Ok(())
}

/// Writes further keys of META, but for those that may not follow.
fn put_keys(rows: &mut RowsWriter, keys: &[FurtherKey]) -> Result<(), NoMemory>
    ensures { OnOk result (Grows (key_rows keys.now) rows.old.text rows.new.text) }
{
    for key in keys {
        put_key(rows, key)?;
    }
    Ok(())
}

/// Writes a further key of META, if it may follow.
fn put_key(rows: &mut RowsWriter, key: &FurtherKey) -> Result<(), NoMemory>
    ensures { OnOk result (Grows (key_row key.now) rows.old.text rows.new.text) }
{
    if may_follow(key.name.as_str().trim()) {
        put_pair(rows, key.name.as_str(), key.value.as_str())?;
    }
    Ok(())
}

/// Writes the rows of META that readers take.
fn put_terms(rows: &mut RowsWriter, alloc: Global, terms: Terms) -> Result<(), NoMemory>
    ensures { OnOk result (Grows (terms_rows terms) rows.old.text rows.new.text) }
{
    let budget = amount_text(alloc, terms.budget)?;
    put_pair(rows, MetaKey::Budget.text(), budget.as_str())?;
    put_pair(rows, MetaKey::VoteType.text(), "approval")?;
    put_limit(rows, terms.max_length)
}

/// Writes the row of META on how long a ballot may be, where there is a limit.
fn put_limit(rows: &mut RowsWriter, max_length: Option<u32>) -> Result<(), NoMemory>
    ensures { OnOk result (Grows (limit_rows max_length) rows.old.text rows.new.text) }
{
    if let Some(most) = max_length {
        let mut digits = Buffer::new();
        put_pair(rows, MetaKey::MaxLength.text(), digits.format(most))?;
    }
    Ok(())
}

/// Writes PROJECTS.
fn put_projects(
    rows: &mut RowsWriter,
    alloc: Global,
    projects: &[Project],
    told: &Told<'_>,
) -> Result<(), NoMemory>
    requires votes { length told.now.votes.now ≡ length projects.now }
    requires selected { length told.now.selected.now ≡ length projects.now }
    ensures { OnOk result (Grows
        (projects_rows told.now.votes.now told.now.selected.now told.now.further.now projects.now)
        rows.old.text rows.new.text) }
{
    rows.put_row(&["PROJECTS"])?;
    let names = ["project_id", "cost", "votes", "name", "selected"];
    put_with(rows, alloc, &names, told.further.names_of_projects())?;
    for place in 0..projects.len() {
        let further = told.further.of_project(place);
        put_project(
            rows,
            alloc,
            &projects[place],
            (told.votes[place], told.selected[place]),
            further,
        )?;
    }
    Ok(())
}

/// Writes the row of a project that has so many votes, and is elected or not.
fn put_project(
    rows: &mut RowsWriter,
    alloc: Global,
    project: &Project,
    counted: (u32, bool),
    further: Behind<'_>,
) -> Result<(), NoMemory>
    ensures text { OnOk result (rows.new.text ≡ rows.old.text
        ++ text_of_row (project_row project.now counted.0 counted.1 (behind further.entry))) }
    ensures are_text { OnOk result
        (AllText (project_row project.now counted.0 counted.1 (behind further.entry))) }
{
    let (votes, selected) = counted;
    let mut digits = Buffer::new();
    let cost = amount_text(alloc, project.cost())?;
    let selected = if selected { "1" } else { "0" };
    let own = [
        project.id(),
        cost.as_str(),
        digits.format(votes),
        project.name(),
        selected,
    ];
    put_with(rows, alloc, &own, further)
}

/// Writes VOTES.
fn put_votes(
    rows: &mut RowsWriter,
    alloc: Global,
    election: &Election,
    further: &Further,
) -> Result<(), NoMemory>
    ensures { OnOk result (Grows
        (votes_rows (project_ids election.now) further.now election.now.voters) rows.old.text rows.new.text) }
{
    rows.put_row(&["VOTES"])?;
    put_with(
        rows,
        alloc,
        &["voter_id", "vote"],
        further.names_of_voters(),
    )?;
    let projects = election.projects();
    for voter in election.voters() {
        let vote = vote_text(alloc, projects, voter.ballot.places())?;
        let id = voter.id.text();
        let own = [id, vote.as_str()];
        put_with(rows, alloc, &own, further.of_voter(id))?;
    }
    Ok(())
}

/// Writes a row of these fields, and further ones behind them.
fn put_with(
    rows: &mut RowsWriter,
    alloc: Global,
    own: &[&str],
    further: Behind<'_>,
) -> Result<(), NoMemory>
    ensures text { OnOk result (rows.new.text ≡ rows.old.text
        ++ text_of_row (map (λ field. field.now) own.now ++ behind further.entry)) }
    ensures are_text { OnOk result (AllText (behind further.entry)) }
{
    let mut fields = Vec::new(alloc);
    fields.extend_from_slice(own)?;
    for place in 0..further.columns {
        fields.push(further.field(place))?;
    }
    rows.put_row(fields.as_slice())?;
    Ok(())
}

/// The ids of the projects at these places, with `,` between two.
fn vote_text(alloc: Global, projects: &[Project], places: &[u32]) -> Result<String, NoMemory>
    requires { All (λ place. place < length projects.now) places.now }
    ensures { IfOk result (λ text. string_bytes text ≡ vote_text (map (λ p. p.id) projects.now) places.now) }
{
    let mut text = String::new(alloc);
    for (i, place) in places.iter().enumerate() {
        if i > 0 {
            text.push_str(",")?;
        }
        text.push_str(projects[*place as usize].id())?;
    }
    Ok(text)
}
