//! The projects that one rule elects and another does not.

ghost use Rattle.std.specs.Prelude.{OnOk, flat_map};
ghost use Rattle.pb_page.specs.Inner.Grown.{Grows};
ghost use Rattle.pb_page.specs.Page.{beside, entry, links};

use crate::language::Language;
use crate::markup::Value;
use crate::projects_at::ProjectsAt;
use crate::put::{put, put_own};
use crate::templates::{ENTRY, LINKS_CLOSING, LINKS_OPENING};
use pb_core::no_memory::NoMemory;

/// Those of these winners that are none of the others, each a link to its row, below what is said of them; nothing
/// where there are none.
pub(crate) fn put_only(
    page: &mut Vec<u8>,
    language: &Language,
    said: u16,
    winners: &ProjectsAt,
    others: &[u32],
) -> Result<(), NoMemory>
    ensures { OnOk result (Grows page.old.items page.new.items
        (links language.now winners.now.count.now said (beside others.now winners.now.places.now))) }
{
    let only = winners.beside(*page.allocator(), others)?;
    let at = ProjectsAt {
        count: winners.count,
        places: only.as_slice(),
    };
    let put = put_links(page, language, said, &at);
    drop(only);
    put
}

/// These projects below what is said of them; nothing where there are none.
#[tactic(auto, using(crate::proofs::Grown::none))]
fn put_links(
    page: &mut Vec<u8>,
    language: &Language,
    said: u16,
    projects: &ProjectsAt,
) -> Result<(), NoMemory>
    ensures { OnOk result (Grows page.old.items page.new.items
        (links language.now projects.now.count.now said projects.now.places.now)) }
{
    if projects.places.is_empty() {
        return Ok(());
    }
    put(page, language, LINKS_OPENING, &[Value::Said(said)])?;
    put_entries(page, language, projects)?;
    put_own(page, LINKS_CLOSING)
}

/// These projects, each a link to its row, with its cost.
pub(crate) fn put_entries<'a>(
    page: &mut Vec<u8>,
    language: &Language<'a>,
    at: &ProjectsAt<'a>,
) -> Result<(), NoMemory>
    ensures { OnOk result (Grows page.old.items page.new.items
        (flat_map (entry language.now at.now.count.now) at.now.places.now)) }
{
    let count = at.count;
    let places = at.places;
    let projects = count.election().projects();
    for place in places {
        let project = &projects[*place as usize];
        let cost = project.cost();
        let values = [
            Value::Small(count.place(*place)),
            Value::Text(project.id()),
            Value::Text(project.name()),
            Value::Amount(cost),
            Value::Shown(cost, language.costs),
        ];
        put(page, &*language, ENTRY, &values)?;
    }
    Ok(())
}
