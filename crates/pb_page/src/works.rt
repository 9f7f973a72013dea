//! What shares are, in words and in a picture.

ghost use Rattle.std.specs.Prelude.{◌≡◌, OnOk, false, length};
ghost use Rattle.pb_page.specs.Inner.Counted.{works_said};
ghost use Rattle.pb_page.specs.Inner.Grown.{Grows};
ghost use Rattle.pb_page.specs.Page.{by_raises, counted_in, works};
ghost use Rattle.pb_page.specs.declared.keys.TheConstants as key;
ghost use Rattle.pb_page.specs.declared.picture.TheConstants.{GROWN_SHARES, OPENING_SHARES};
ghost use Rattle.pb_rounds.specs.Count.{opening_share};

use crate::counted_in::counted_in;
use crate::keys;
use crate::language::Language;
use crate::markup::Value;
use crate::picture::{GROWN_SHARES, OPENING_SHARES};
use crate::place::Place;
use crate::put::{put, put_own};
use crate::sentences::say_paragraph;
use crate::templates::{FIGURE_CLOSING, FIGURE_OPENING};
use pb_core::no_memory::NoMemory;
use pb_reasons::CountedElection;
use pb_rounds::count::opening_share;
use pb_rounds::options::Completion;
use pb_rounds::rule::{FillUp, Rule};

/// What shares are, as this election has them: a paragraph, and a picture with what it shows. Nothing where nobody
/// voted.
pub(crate) fn put_works(
    page: &mut Vec<u8>,
    language: &Language,
    count: &CountedElection,
) -> Result<(), NoMemory>
    ensures { OnOk result (Grows page.old.items page.new.items (works language.now count.now)) }
{
    let rule = count.rule();
    let election = count.election();
    if election.voters().is_empty() {
        return Ok(());
    }
    say_works(page, language, works_key(&rule), count)?;
    put_own(page, FIGURE_OPENING)?;
    put_own(page, picture_of(&rule))?;
    put(
        page,
        language,
        FIGURE_CLOSING,
        &[Value::Said(picture_key(&rule))],
    )
}

/// The sentences with this key, on how the budget is shared.
fn say_works(
    page: &mut Vec<u8>,
    language: &Language,
    key: u16,
    count: &CountedElection,
) -> Result<(), NoMemory>
    ensures { let e = count.now.election in OnOk result (Grows page.old.items page.new.items (works_said language.now key
        e.budget (length e.voters) (counted_in count.now false 1 (opening_share count.now.rule.options.grain e)))) }
{
    let election = count.election();
    let voters = election.voters().len() as u64;
    let share = opening_share(election, count.rule().options.grain);
    let places = [
        Place::Amount("budget", election.budget(), language.costs),
        Place::Number("voters", voters),
        Place::Parted(
            "opening_share",
            counted_in(count, false, share),
            language.amounts,
        ),
    ];
    say_paragraph(page, language, key, &places)
}

/// The key of the sentences.
fn works_key(rule: &Rule) -> u16
    ensures { result ≡ by_raises rule.now key.WORKS_UNRAISED key.WORKS }
{
    match (rule.options.completion, rule.fill_up) {
        (Completion::Plain | Completion::NoShares, FillUp::Nothing | FillUp::MostVotes) =>
            keys::WORKS_UNRAISED,
        (Completion::Add1, FillUp::Nothing | FillUp::MostVotes) => keys::WORKS,
    }
}

/// The picture.
fn picture_of(rule: &Rule) -> &'static str
    ensures { result.now ≡ by_raises rule.now OPENING_SHARES.now GROWN_SHARES.now }
{
    match (rule.options.completion, rule.fill_up) {
        (Completion::Plain | Completion::NoShares, FillUp::Nothing | FillUp::MostVotes) =>
            OPENING_SHARES,
        (Completion::Add1, FillUp::Nothing | FillUp::MostVotes) => GROWN_SHARES,
    }
}

/// The key of what it shows.
fn picture_key(rule: &Rule) -> u16
    ensures { result ≡ by_raises rule.now key.WORKS_PICTURE_UNRAISED key.WORKS_PICTURE }
{
    match (rule.options.completion, rule.fill_up) {
        (Completion::Plain | Completion::NoShares, FillUp::Nothing | FillUp::MostVotes) =>
            keys::WORKS_PICTURE_UNRAISED,
        (Completion::Add1, FillUp::Nothing | FillUp::MostVotes) => keys::WORKS_PICTURE,
    }
}
