//! What a file has that the count does not use.

use crate::behind::Behind;
use crate::further_keys::FurtherKeys;
use crate::text_row::TextRow;
use pb_ids::IdTable;
use std::alloc::Global;

/// What a file has that the count does not use: its comment, further keys of META with their values, and
/// further columns of PROJECTS and VOTES. The fields of a project are at its place, those of a voter are
/// found by the voter's id. A row has as many fields as its row of the file has, which may be fewer than
/// there are columns.
#[derive(Drop)]
pub struct Further {
    /// The value of META's `comment`; empty if there is none.
    pub(crate) comment: String,
    pub(crate) keys: FurtherKeys,
    /// The names of the further columns of PROJECTS.
    pub(crate) project_names: TextRow,
    /// The fields of each project.
    pub(crate) projects: Vec<TextRow>,
    /// The names of the further columns of VOTES.
    pub(crate) voter_names: TextRow,
    /// The place of each voter among `voters`, by id.
    pub(crate) places: IdTable,
    /// The fields of each voter.
    pub(crate) voters: Vec<TextRow>,
}

impl Further {
    ghost use Rattle.std.specs.Prelude.{◌≡◌, [], string_bytes};
    ghost use Rattle.std.specs.FinMap as finite;
    ghost use Rattle.pb_export.specs.Inner.Behind.{behind, of_project, of_voter};

    /// Nothing further.
    pub fn none(alloc: Global) -> Further
        ensures projects { result.projects.items ≡ [] }
        ensures voters { (result.voters.items ≡ []) × (result.places ≡ finite.empty) }
        ensures names { (result.project_names ≡ []) × (result.voter_names ≡ []) }
        ensures keys { (result.keys ≡ []) × (string_bytes result.comment ≡ []) }
    {
        Further {
            comment: String::new(alloc),
            keys: FurtherKeys::none(alloc),
            project_names: TextRow::new(alloc),
            projects: Vec::new(alloc),
            voter_names: TextRow::new(alloc),
            places: IdTable::new(alloc),
            voters: Vec::new(alloc),
        }
    }

    /// The value of META's `comment`; empty if there is none.
    pub fn comment(&self) -> &str
        ensures { result.now ≡ string_bytes self.now.comment }
    {
        self.comment.as_str()
    }

    /// The names of the further columns of PROJECTS.
    pub(crate) fn names_of_projects(&self) -> Behind<'_>
        ensures { behind result ≡ self.now.project_names }
    {
        Behind::names(&self.project_names)
    }

    /// The further fields of the project at a place.
    pub(crate) fn of_project(&self, place: usize) -> Behind<'_>
        ensures { behind result ≡ of_project self.now place }
    {
        let fields: &[String] = match self.projects.get(place) {
            Some(fields) => fields.texts(),
            None => &[],
        };
        Behind::below(&self.project_names, fields)
    }

    /// The names of the further columns of VOTES.
    pub(crate) fn names_of_voters(&self) -> Behind<'_>
        ensures { behind result ≡ self.now.voter_names }
    {
        Behind::names(&self.voter_names)
    }

    /// The further fields of the voter with this id; none has a text where the file does not have the voter.
    pub(crate) fn of_voter(&self, id: &str) -> Behind<'_>
        ensures { behind result ≡ of_voter self.now id.now }
    {
        let fields: &[String] = match self.places.get(id) {
            Some(place) => match self.voters.get(place as usize) {
                Some(fields) => fields.texts(),
                None => &[],
            },
            None => &[],
        };
        Behind::below(&self.voter_names, fields)
    }
}
