//! Where the money of a loser's supporters went.

ghost use Rattle.std.specs.Prelude.{◌≡◌, ◌<◌, IfOk, OnOk, flat_map, length};
ghost use Rattle.pb_page.specs.Inner.Counted.{more_told, nothing_told, payment_told, told_of, went_as};
ghost use Rattle.pb_page.specs.Inner.Grown.{Grows};
ghost use Rattle.pb_page.specs.Page.{money_told};

use crate::counted_in::{counted_in, parts_in};
use crate::keys;
use crate::language::Language;
use crate::markup::Value;
use crate::place::Place;
use crate::put::{put, put_own};
use crate::rule::put_item;
use crate::sentences::say_item;
use crate::templates::{WENT_CLOSING, WENT_OPENING};
use crate::ties::project_place;
use pb_core::money::Money;
use pb_core::no_memory::NoMemory;
use pb_reasons::{CountedElection, Ending, MoneyPaid, MoneyTeller, Payment, ProjectReason};
use std::alloc::Global;

/// So many supporters a project needs, so that what they paid tells no one's ballot.
const LEAST: u32 = 5;

/// What the supporters of the project at this place paid, if it lost for this reason and that is told.
pub(crate) fn paid_of(
    alloc: Global,
    money: &MoneyTeller,
    place: u32,
    reason: &ProjectReason,
) -> Result<Option<MoneyPaid>, NoMemory>
    requires { place < length money.now.election.projects }
    ensures { IfOk result (λ paid. paid ≡ told_of money.now place reason.now.votes reason.now.ending) }
{
    match reason.ending {
        Ending::Lost(_) if reason.votes >= LEAST => {
            let paid = money.money(alloc, place)?;
            Ok(Some(paid))
        }
        _ => Ok(None),
    }
}

/// Puts what was paid by supporters who have this left, where it is told.
#[tactic(auto, using(crate::proofs::Grown::none))]
pub(crate) fn put_went<'a>(
    page: &mut Vec<u8>,
    language: &Language<'a>,
    count: &'a CountedElection,
    paid: &Option<MoneyPaid>,
    left: Money,
) -> Result<(), NoMemory>
    ensures { OnOk result (Grows page.old.items page.new.items
        (went_as language.now count.now paid.now left)) }
{
    match paid {
        Some(paid) => put_money(page, language, count, paid, left),
        None => Ok(()),
    }
}

/// What was paid, and what is left.
fn put_money<'a>(
    page: &mut Vec<u8>,
    language: &Language<'a>,
    count: &'a CountedElection,
    paid: &MoneyPaid,
    left: Money,
) -> Result<(), NoMemory>
    ensures { OnOk result (Grows page.old.items page.new.items
        (money_told language.now count.now left paid.now)) }
{
    let most = paid.most.as_slice();
    let kept = Place::Parted("kept", counted_in(count, false, left), language.amounts);
    put(page, language, WENT_OPENING, &[Value::Said(keys::WENT)])?;
    put_payments(page, language, count, most)?;
    put_more(page, language, count, paid.others)?;
    put_nothing(page, language, most.is_empty())?;
    say_item(page, language, keys::KEPT, &[kept])?;
    put_own(page, WENT_CLOSING)
}

/// What was paid for each of these.
fn put_payments<'a>(
    page: &mut Vec<u8>,
    language: &Language<'a>,
    count: &'a CountedElection,
    payments: &[Payment],
) -> Result<(), NoMemory>
    ensures { OnOk result (Grows page.old.items page.new.items
        (flat_map (payment_told language.now count.now) payments.now)) }
{
    for payment in payments {
        put_payment(page, language, count, payment)?;
    }
    Ok(())
}

/// What was paid for one.
fn put_payment<'a>(
    page: &mut Vec<u8>,
    language: &Language<'a>,
    count: &'a CountedElection,
    payment: &Payment,
) -> Result<(), NoMemory>
    ensures { OnOk result (Grows page.old.items page.new.items
        (payment_told language.now count.now payment.now)) }
{
    let place = payment.place;
    let places = [
        Place::Parted(
            "paid_for",
            counted_in(count, false, payment.amount),
            language.amounts,
        ),
        project_place(count, place),
    ];
    say_item(page, language, keys::PAID, &places)
}

/// What was paid for others, if something was.
#[tactic(auto, using(crate::proofs::Grown::none))]
fn put_more(
    page: &mut Vec<u8>,
    language: &Language,
    count: &CountedElection,
    others: u128,
) -> Result<(), NoMemory>
    ensures { OnOk result (Grows page.old.items page.new.items (more_told language.now count.now others)) }
{
    if others == 0 {
        return Ok(());
    }
    let more = Place::Parted(
        "paid_more",
        parts_in(count, false, others),
        language.amounts,
    );
    say_item(page, language, keys::PAID_MORE, &[more])
}

/// That nothing was paid, if it was not.
#[tactic(auto, using(crate::proofs::Grown::none))]
fn put_nothing(page: &mut Vec<u8>, language: &Language, is_empty: bool) -> Result<(), NoMemory>
    ensures { OnOk result (Grows page.old.items page.new.items (nothing_told language.now is_empty)) }
{
    if is_empty {
        return put_item(page, language, keys::PAID_NOTHING);
    }
    Ok(())
}
