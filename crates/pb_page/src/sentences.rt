//! Sentences from outside, with markup at their places.

ghost use Rattle.std.specs.Prelude.{◌≡◌, ◌++◌, OnOk, flat_map, map};
ghost use Rattle.pb_core.specs.MoneyText.{money_text};
ghost use Rattle.pb_page.specs.Amount.{shown};
ghost use Rattle.pb_page.specs.Content.{figure, item, number, paragraph, parted, say, text};
ghost use Rattle.pb_page.specs.Inner.Grown.{Grows};
ghost use Rattle.pb_page.specs.Inner.Value.{at_place, character_said};

use crate::keys;
use crate::language::Language;
use crate::markup::{Divided, Form, Value, rounded, write_byte};
use crate::place::Place;
use crate::put::{put, put_own};
use crate::templates::{CODE, FIGURE, FILES_LINK, NAMELESS, PROJECT_LINK, RECOUNT_LINK, TEXT};
use pb_core::money::Money;
use pb_core::no_memory::NoMemory;

/// The bytes below this one are places of a sentence: byte 0 the first, byte 1 the second, and so on.
const PLACES: u8 = 32;

/// Puts the sentence at a key after a page. Its bytes from 32 on are text, and stay text. Those below are its
/// places: what is given for each stands there, and nothing where nothing is given.
pub(crate) fn say(
    page: &mut Vec<u8>,
    language: &Language,
    key: u16,
    places: &[Place],
) -> Result<(), NoMemory>
    ensures { OnOk result (Grows page.old.items page.new.items
        (say language.now key (map (at_place language.now) places.now))) }
{
    let bytes = language.text(key).as_bytes();
    for byte in bytes {
        say_byte(page, language, *byte, places)?;
    }
    Ok(())
}

/// Puts a paragraph after a page: the sentence at a key.
pub(crate) fn say_paragraph(
    page: &mut Vec<u8>,
    language: &Language,
    key: u16,
    places: &[Place],
) -> Result<(), NoMemory>
    ensures { OnOk result (Grows page.old.items page.new.items
        (paragraph (say language.now key (map (at_place language.now) places.now)))) }
{
    put_own(page, "<p>")?;
    say(page, language, key, places)?;
    put_own(page, "</p>\n")
}

/// Puts an item of a list after a page: the sentence at a key.
pub(crate) fn say_item(
    page: &mut Vec<u8>,
    language: &Language,
    key: u16,
    places: &[Place],
) -> Result<(), NoMemory>
    ensures { OnOk result (Grows page.old.items page.new.items
        (item (say language.now key (map (at_place language.now) places.now)))) }
{
    put_own(page, "<li>")?;
    say(page, language, key, places)?;
    put_own(page, "</li>\n")
}

/// Puts a byte of a sentence after a page.
#[tactic(auto, unfolding(crate::specs::Inner::Grown::Grows))]
fn say_byte(
    page: &mut Vec<u8>,
    language: &Language,
    byte: u8,
    places: &[Place],
) -> Result<(), NoMemory>
    ensures { OnOk result (Grows page.old.items page.new.items
        (character_said (map (at_place language.now) places.now) byte)) }
{
    if byte >= PLACES {
        return write_byte(page, byte);
    }
    let place = usize::from(byte);
    if place >= places.len() {
        return Ok(());
    }
    put_place(page, language, &places[place])
}

/// Puts what stands at a place.
fn put_place(page: &mut Vec<u8>, language: &Language, place: &Place) -> Result<(), NoMemory>
    ensures { OnOk result (Grows page.old.items page.new.items (at_place language.now place.now)) }
{
    match *place {
        Place::Text(text) => put(page, language, TEXT, &[Value::Text(text)]),
        Place::Digits(number) => {
            let shown = [Value::Grouped(number, language.costs.group)];
            put(page, language, TEXT, &shown)
        }
        Place::Noun(key, number) => put(page, language, TEXT, &[Value::Noun(key, number)]),
        Place::Shown(amount, form) => put(page, language, TEXT, &[Value::Shown(amount, form)]),
        Place::Number(name, number) => put_number(page, language, name, number),
        Place::Amount(name, amount, form) => put_amount(page, language, name, amount, form),
        Place::Parted(name, amount, form) => put_parted(page, language, name, amount, form),
        Place::Nameless(amount, form) => {
            let values = [Value::Amount(amount), Value::Shown(amount, form)];
            put(page, language, NAMELESS, &values)
        }
        Place::Said(key) => put(page, language, TEXT, &[Value::Said(key)]),
        Place::Code(text) => put(page, language, CODE, &[Value::Text(text)]),
        Place::Project(place, id, name) => {
            let values = [Value::Small(place), Value::Text(id), Value::Text(name)];
            put(page, language, PROJECT_LINK, &values)
        }
        Place::Files(address) => {
            let values = [Value::Text(address), Value::Said(keys::FILES_LINK)];
            put(page, language, FILES_LINK, &values)
        }
        Place::Link(address, key) => {
            let values = [Value::Text(address), Value::Said(key)];
            put(page, language, RECOUNT_LINK, &values)
        }
    }
}

/// Puts a number by its name: as it is, for programs, and in groups of three digits.
fn put_number(
    page: &mut Vec<u8>,
    language: &Language,
    name: &'static str,
    value: u64,
) -> Result<(), NoMemory>
    ensures { OnOk result (Grows page.old.items page.new.items (number language.now name.now value)) }
{
    let values = [
        Value::Text(name),
        Value::Number(value),
        Value::Grouped(value, language.costs.group),
    ];
    put(page, language, FIGURE, &values)
}

/// Puts an amount by its name: as it is, for programs, and as people write it.
fn put_amount(
    page: &mut Vec<u8>,
    language: &Language,
    name: &'static str,
    value: Money,
    form: Form,
) -> Result<(), NoMemory>
    ensures { OnOk result (Grows page.old.items page.new.items
        (figure name.now (money_text value) (text (shown form.entry value)))) }
{
    let values = [
        Value::Text(name),
        Value::Amount(value),
        Value::Shown(value, form),
    ];
    put(page, language, FIGURE, &values)
}

/// Puts an amount that is divided by its name: as it is, for programs, and rounded, as people write it.
fn put_parted(
    page: &mut Vec<u8>,
    language: &Language,
    name: &'static str,
    amount: Divided,
    form: Form,
) -> Result<(), NoMemory>
    ensures { OnOk result (Grows page.old.items page.new.items (parted form.entry name.now amount)) }
{
    let values = [
        Value::Text(name),
        Value::Exact(amount.amount, amount.divisor),
        Value::Hundredths(rounded(&amount), form),
    ];
    put(page, language, FIGURE, &values)
}
