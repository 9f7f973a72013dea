//! Whether an election can be read back from a file.

ghost use Rattle.std.specs.Prelude.{◌≡◌, ◌<◌, ◌&&◌, [], ◌∷◌, All, codes, length, map, slice_index_or};
ghost use Rattle.std.specs.List.{list_all, list_any};
ghost use Rattle.pb_export.specs.Export.{is_of_file};
ghost use Rattle.pb_export.specs.Inner.Parts.{can_be_named, has_comma, has_comma_in_vote, has_section_word, is_own_key};
ghost use Rattle.pb_export.specs.Inner.Parts.{is_section_word, is_small, is_tidy};
ghost use Rattle.pb_export.specs.FileRows.{may_follow};
ghost use Rattle.pb_read.specs.Rows.{is_word};

use pb_core::election::{Election, MOST_PROJECTS};
use pb_core::project::Project;
use pb_core::terms::Terms;
use pb_core::voter::Voter;
use pb_read::MetaKey;

#[tactic(auto, unfolding(pb_read::specs::Rows::head_of))]
/// Whether an id would be read as a section's head.
fn is_section_word(id: &str) -> bool
    ensures { result ≡ is_section_word id.now }
{
    "META".eq_ignore_ascii_case(id)
        || "PROJECTS".eq_ignore_ascii_case(id)
        || "VOTES".eq_ignore_ascii_case(id)
}

/// Whether a further key with this name, trimmed, may follow in META.
pub(crate) fn may_follow(name: &str) -> bool
    ensures { result ≡ may_follow name.now }
{
    !(is_own_key(name) || is_section_word(name))
}

/// Whether an exported file has a key with this name of its own.
fn is_own_key(name: &str) -> bool
    ensures { result ≡ is_own_key name.now }
{
    MetaKey::of(name).is_some() || is_key_beside(name)
}

/// Whether this is a key that readers pass over, and that an exported file has of its own.
fn is_key_beside(name: &str) -> bool
    ensures { result ≡ list_any (λ word. is_word word name.now)
        (codes "num_projects" ∷ codes "num_votes" ∷ codes "rule" ∷ codes "comment" ∷ []) }
{
    "num_projects".eq_ignore_ascii_case(name)
        || "num_votes".eq_ignore_ascii_case(name)
        || "rule".eq_ignore_ascii_case(name)
        || "comment".eq_ignore_ascii_case(name)
}

/// Whether an id of a project or a voter would be read as a section's head.
pub(crate) fn has_section_word(election: &Election) -> bool
    ensures { result ≡ has_section_word election.now }
{
    has_project_word(election.projects()) || has_voter_word(election.voters())
}

/// Whether the id of one of these projects would be read as a section's head.
fn has_project_word(projects: &[Project]) -> bool
    ensures { result ≡ list_any (λ p. is_section_word p.id) projects.now }
{
    for project in projects {
        if is_section_word(project.id()) {
            return true;
        }
    }
    false
}

/// Whether the id of one of these voters would be read as a section's head.
fn has_voter_word(voters: &[Voter]) -> bool
    ensures { result ≡ list_any (λ v. is_section_word v.id) voters.now }
{
    for voter in voters {
        if is_section_word(voter.id.text()) {
            return true;
        }
    }
    false
}

/// Whether an election is as one that a file stands for.
pub(crate) fn is_of_file(election: &Election) -> bool
    ensures { result ≡ is_of_file election.now }
{
    are_tidy(election.projects()) && can_be_named(election.terms())
}

/// Whether no id or name of these projects has white space at its ends.
fn are_tidy(projects: &[Project]) -> bool
    ensures { result ≡ list_all (λ p. is_tidy p.id && is_tidy p.name) projects.now }
{
    for project in projects {
        if !(is_tidy(project.id()) && is_tidy(project.name())) {
            return false;
        }
    }
    true
}

/// Whether a text has no white space at its ends.
fn is_tidy(text: &str) -> bool
    ensures { result ≡ is_tidy text.now }
{
    text.trim() == text
}

/// Whether a file can name these terms.
fn can_be_named(terms: Terms) -> bool
    ensures { result ≡ can_be_named terms }
{
    is_small(terms.max_length)
}

/// Whether a file can name this limit on a ballot's length.
fn is_small(max_length: Option<u32>) -> bool
    ensures { result ≡ is_small max_length }
{
    match max_length {
        Some(most) => most as usize <= MOST_PROJECTS,
        None => true,
    }
}

/// Whether a ballot approves a project whose id has a comma.
pub(crate) fn has_comma_in_vote(election: &Election) -> bool
    ensures { result ≡ has_comma_in_vote election.now }
{
    let projects = election.projects();
    for voter in election.voters() {
        if approves_comma(projects, voter.ballot.places()) {
            return true;
        }
    }
    false
}

/// Whether the id of one of the projects at these places has a comma.
fn approves_comma(projects: &[Project], places: &[u32]) -> bool
    requires { All (λ place. place < length projects.now) places.now }
    ensures { result
        ≡ list_any (λ place. has_comma (slice_index_or (map (λ p. p.id) projects.now) place [])) places.now }
{
    for place in places {
        let id = projects[*place as usize].id();
        if id.as_bytes().contains(&b',') {
            return true;
        }
    }
    false
}
