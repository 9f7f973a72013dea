//! What the voters got.

ghost use Rattle.std.specs.Prelude.{OnOk, flat_map};
ghost use Rattle.std.specs.List.{range_with_len};
ghost use Rattle.pb_page.specs.Content.{section};
ghost use Rattle.pb_page.specs.Inner.Counted.{ballots_end, exact_row, got_said, voters_told};
ghost use Rattle.pb_page.specs.Inner.Grown.{Grows};
ghost use Rattle.pb_page.specs.Page.{ballots_row, voters};

use crate::histogram::{BallotsRow, at_least, exactly, won_by_voter};
use crate::keys;
use crate::language::Language;
use crate::markup::Value;
use crate::place::Place;
use crate::put::{put, put_own};
use crate::sentences::{say, say_paragraph};
use crate::templates::{
    TABLE_CLOSING, VOTERS_OPENING, VOTERS_ROW, VOTERS_ROW_CLOSING, VOTERS_TABLE,
};
use pb_core::no_memory::NoMemory;
use pb_reasons::CountedElection;

/// So many winners or more are one row.
const MOST: u32 = 9;

/// How many voters have a winner among their choices, and the histogram of winners a voter.
pub(crate) fn put_voters(
    page: &mut Vec<u8>,
    language: &Language,
    count: &CountedElection,
) -> Result<(), NoMemory>
    ensures { OnOk result (Grows page.old.items page.new.items (voters_told language.now count.now)) }
{
    let won = won_by_voter(*page.allocator(), count)?;
    let put = put_won(page, language, won.as_slice());
    drop(won);
    put
}

/// The same, where so many choices of each voter won.
fn put_won(page: &mut Vec<u8>, language: &Language, won: &[u32]) -> Result<(), NoMemory>
    ensures { OnOk result (Grows page.old.items page.new.items (section language.now (voters language.now won.now))) }
{
    let heading = [Value::Said(keys::VOTERS_HEADING)];
    put(page, language, VOTERS_OPENING, &heading)?;
    say_got(page, language, won)?;
    let heads = [
        Value::Said(keys::VOTERS_CAPTION),
        Value::Said(keys::CHOSEN),
        Value::Said(keys::VOTERS),
    ];
    put(page, language, VOTERS_TABLE, &heads)?;
    put_rows(page, language, won)?;
    let most = at_least(MOST, won);
    let last = BallotsRow {
        said: keys::OR_MORE,
        number: MOST,
        ballots: most,
    };
    put_row(page, language, last, won)?;
    put_own(page, TABLE_CLOSING)
}

/// How many voters have a winner among their choices.
fn say_got(page: &mut Vec<u8>, language: &Language, won: &[u32]) -> Result<(), NoMemory>
    ensures { OnOk result (Grows page.old.items page.new.items (got_said language.now won.now)) }
{
    let with = at_least(1, won);
    let without = exactly(0, won);
    let voters = won.len() as u64;
    let places = [
        Place::Digits(with),
        Place::Number("voters", voters),
        Place::Digits(without),
        Place::Noun(keys::ALL, voters),
        Place::Noun(keys::HAVE, with),
        Place::Noun(keys::LACK, without),
    ];
    say_paragraph(page, language, keys::GOT, &places)
}

/// A row for each number of winners below the last.
fn put_rows(page: &mut Vec<u8>, language: &Language, won: &[u32]) -> Result<(), NoMemory>
    ensures { OnOk result (Grows page.old.items page.new.items
        (flat_map (exact_row language.now won.now) (range_with_len 0 9))) }
{
    for number in 0..MOST {
        let ballots = exactly(number, won);
        let row = BallotsRow {
            said: keys::EXACTLY,
            number,
            ballots,
        };
        put_row(page, language, row, won)?;
    }
    Ok(())
}

/// A row of the histogram, where a ballot has so many winners or more.
#[tactic(auto, using(crate::proofs::Grown::none))]
fn put_row(
    page: &mut Vec<u8>,
    language: &Language,
    row: BallotsRow,
    won: &[u32],
) -> Result<(), NoMemory>
    ensures { OnOk result (Grows page.old.items page.new.items
        (ballots_row language.now row.said row.number row.ballots won.now)) }
{
    if at_least(row.number, won) == 0 {
        return Ok(());
    }
    put(page, language, VOTERS_ROW, &[Value::Small(row.number)])?;
    say(
        page,
        language,
        row.said,
        &[Place::Digits(u64::from(row.number))],
    )?;
    put_ballots(page, language, row.ballots, won.len() as u64)
}

/// The end of a row: on how many ballots of so many.
fn put_ballots(
    page: &mut Vec<u8>,
    language: &Language,
    ballots: u64,
    voters: u64,
) -> Result<(), NoMemory>
    ensures { OnOk result (Grows page.old.items page.new.items (ballots_end language.now ballots voters)) }
{
    let values = [
        Value::Width(ballots, voters),
        Value::Number(ballots),
        Value::Grouped(ballots, language.costs.group),
    ];
    put(page, language, VOTERS_ROW_CLOSING, &values)
}
