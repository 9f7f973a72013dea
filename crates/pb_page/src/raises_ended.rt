//! Why the raises ended.

ghost use Rattle.std.specs.Prelude.{◌≡◌, OnOk};
ghost use Rattle.pb_page.specs.Inner.Counted.{those_said};
ghost use Rattle.pb_page.specs.Inner.Grown.{Grows};
ghost use Rattle.pb_page.specs.Page.{beside, raises_ended};
ghost use Rattle.pb_page.specs.declared.keys.TheConstants as key;
ghost use Rattle.pb_reasons.specs.Counted.{winners_of};

use crate::counted_in::counted_in;
use crate::elected_only::put_entries;
use crate::ended::Ended;
use crate::keys;
use crate::language::Language;
use crate::markup::Value;
use crate::place::Place;
use crate::projects_at::ProjectsAt;
use crate::put::{put, put_own};
use crate::rule::put_item;
use crate::sentences::say_item;
use crate::templates::{LIST_CLOSING, THOSE_OPENING};
use pb_core::no_memory::NoMemory;
use pb_reasons::{NextRaise, RaiseEnd};

/// Why the raises ended; nothing where the count has none.
#[tactic(auto, using(crate::proofs::Grown::none))]
pub(crate) fn put_end(
    page: &mut Vec<u8>,
    language: &Language,
    ended: &Ended,
) -> Result<(), NoMemory>
    ensures { OnOk result (Grows page.old.items page.new.items
        (raises_ended language.now ended.now.count.now ended.now.end.now)) }
{
    match ended.end {
        RaiseEnd::Plain => Ok(()),
        RaiseEnd::Exhausted => put_item(page, language, keys::EXHAUSTED),
        RaiseEnd::Over(next) => put_over(page, language, ended, next),
    }
}

/// What one raise more would elect: that it would cost more than the budget, which projects that have not won only
/// then, and which of the elected no more.
fn put_over(
    page: &mut Vec<u8>,
    language: &Language,
    ended: &Ended,
    next: &NextRaise,
) -> Result<(), NoMemory>
    requires { ended.now.end.now ≡ RaiseEnd.Over next.now }
    ensures { OnOk result (Grows page.old.items page.new.items
        (raises_ended language.now ended.now.count.now (RaiseEnd.Over next.now))) }
{
    let count = ended.count;
    let places = [
        Place::Parted(
            "next_share",
            counted_in(count, false, next.share),
            language.amounts,
        ),
        Place::Amount("next_cost", next.cost, language.costs),
    ];
    say_item(page, language, keys::OVER, &places)?;
    let only_then = ProjectsAt {
        count,
        places: next.only_then.as_slice(),
    };
    put_then(page, language, &only_then)?;
    let no_more = ProjectsAt {
        count,
        places: next.no_more.as_slice(),
    };
    put_those(page, language, keys::NO_MORE, &no_more)
}

/// The list of those of these projects that are none of the winners.
fn put_then(page: &mut Vec<u8>, language: &Language, projects: &ProjectsAt) -> Result<(), NoMemory>
    ensures { OnOk result (Grows page.old.items page.new.items
        (those_said language.now projects.now.count.now key.ONLY_THEN
        (beside (winners_of projects.now.count.now.counted) projects.now.places.now))) }
{
    let count = projects.count;
    let new = projects.beside(*page.allocator(), count.winners())?;
    let at = ProjectsAt {
        count,
        places: new.as_slice(),
    };
    let put = put_those(page, language, keys::ONLY_THEN, &at);
    drop(new);
    put
}

/// Those projects below what is said of them; nothing where there are none.
#[tactic(auto, using(crate::proofs::Grown::none))]
fn put_those(
    page: &mut Vec<u8>,
    language: &Language,
    said: u16,
    projects: &ProjectsAt,
) -> Result<(), NoMemory>
    ensures { OnOk result (Grows page.old.items page.new.items
        (those_said language.now projects.now.count.now said projects.now.places.now)) }
{
    if projects.places.is_empty() {
        return Ok(());
    }
    put(page, language, THOSE_OPENING, &[Value::Said(said)])?;
    put_entries(page, language, projects)?;
    put_own(page, LIST_CLOSING)
}
