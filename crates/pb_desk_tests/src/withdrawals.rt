//! Many casts and withdrawals, beside a plain list of all that was cast.

use crate::checks::same;
use crate::elections::{read, shown};
use crate::serving::{has_ballots, is_done, is_served, request};
use pb_core::answer::Answer;
use pb_core::request::Request;
use pb_desk::Desk;
use std::alloc::Global;
use std::process::Abort;

/// Two projects, and nobody who voted.
const NO_VOTERS: &str =
    "META\nkey;value\nbudget;100\nvote_type;approval\nPROJECTS\nproject_id;cost\na;30\nb;30\nVOTES\nvoter_id;vote\n";

/// The voter of each ballot that was cast, and the place of the one project that it approves, if it stands.
type Plain = Vec<(u32, Option<u32>)>;

fn start(rt: &impl Abort, alloc: Global) -> Desk {
    Desk::start(alloc, read(rt, alloc, NO_VOTERS), 10_000).expect(rt, "a desk")
}

/// The standing ballot of the voter with this number becomes this one.
fn change(plain: &mut Plain, number: u32, place: Option<u32>) {
    for cast in plain.iter_mut() {
        if cast.0 == number && cast.1.is_some() {
            cast.1 = place;
        }
    }
}

/// A word, the number of a voter, and the place of a project.
struct Asked(&'static str, u32, u32);

/// The voter with this number casts a ballot for the project of this place, replaces the ballot by one for
/// it, or withdraws the ballot.
fn ask(rt: &impl Abort, alloc: Global, desk: &mut Desk, plain: &mut Plain, asked: Asked) {
    let Asked(word, number, place) = asked;
    let id = format!(in alloc; "v{number}").expect(rt, "memory");
    is_done(rt, desk, request(rt, alloc, word, id.as_str(), &[place]));
    drop(id);
    match word {
        "cast" => plain.push((number, Some(place))).expect(rt, "memory"),
        "replace" => change(plain, number, Some(place)),
        _ => change(plain, number, None),
    }
}

/// The ballots that stand, as text.
fn shown_plain(rt: &impl Abort, alloc: Global, plain: &[(u32, Option<u32>)]) -> String {
    let mut text = String::new(alloc);
    for (number, cast) in plain {
        if let Some(place) = cast {
            write!(text, "v{number} {place};").expect(rt, "memory");
        }
    }
    text
}

/// The desk's ballots are those of the plain list, in its order.
fn are_same(rt: &impl Abort, alloc: Global, desk: &Desk, plain: &Plain) {
    let wanted = shown_plain(rt, alloc, plain.as_slice());
    has_ballots(rt, alloc, desk, wanted.as_str());
}

/// The election that the desk leaves has the voters of the plain list, in its order.
fn leaves_the_same(rt: &impl Abort, alloc: Global, desk: Desk, plain: &Plain) {
    let mut desk = desk;
    is_served(rt, &mut desk, 0, &Request::Shut, Ok(Answer::Done));
    let election = desk.into_election().expect(rt, "an election");
    let found = shown(rt, alloc, &election);
    let voters = shown_plain(rt, alloc, plain.as_slice());
    let wanted = format!(in alloc; "10000;a,,3000;b,,3000;|{voters}").expect(rt, "memory");
    same(rt, found.as_str(), wanted.as_str(), "the election");
    drop(wanted);
    drop(voters);
    drop(found);
    drop(election);
}

/// This many voters cast a ballot, for the two projects in turn.
fn all_cast(rt: &impl Abort, alloc: Global, desk: &mut Desk, plain: &mut Plain, voters: u32) {
    for number in 0..voters {
        ask(rt, alloc, desk, plain, Asked("cast", number, number % 2));
    }
}

/// Of this many voters all but each eighth withdraw.
fn most_withdraw(rt: &impl Abort, alloc: Global, desk: &mut Desk, plain: &mut Plain, voters: u32) {
    for number in 0..voters {
        if number % 8 != 0 {
            ask(rt, alloc, desk, plain, Asked("withdraw", number, 0));
        }
    }
}

/// 64 voters cast. All but each eighth withdraw, from the front. Those who withdrew and are odd cast again,
/// now last, and voters 8 and 9 replace.
#[test]
fn ballots_keep_their_order_where_many_withdraw(rt: HostRuntime) {
    let alloc = rt.alloc();
    let (mut desk, mut plain) = (start(&rt, alloc), Vec::new(alloc));
    all_cast(&rt, alloc, &mut desk, &mut plain, 64);
    most_withdraw(&rt, alloc, &mut desk, &mut plain, 64);
    are_same(&rt, alloc, &desk, &plain);
    for half in 0..32u32 {
        ask(
            &rt,
            alloc,
            &mut desk,
            &mut plain,
            Asked("cast", 2 * half + 1, 1),
        );
    }
    ask(&rt, alloc, &mut desk, &mut plain, Asked("replace", 8, 1));
    ask(&rt, alloc, &mut desk, &mut plain, Asked("replace", 9, 0));
    are_same(&rt, alloc, &desk, &plain);
    leaves_the_same(&rt, alloc, desk, &plain);
    drop(plain);
}
