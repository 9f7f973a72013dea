//! Closing a shared desk. The winners are worked by hand in docs/counting.md and the README.

ghost use Rattle.std.specs.Prelude.{◌≡◌, All};

use crate::checks::{THREE_VOTERS, same};
use crate::faults::shows;
use pb_closing::close_and_count::close_and_count;
use pb_closing::{CloseFault, Closing, DeskCount};
use pb_core::{Request, VoterId};
use pb_desk::Desk;
use pb_read::read_pb;
use pb_rounds::count_fault::CountFault;
use pb_rounds::options::CountOptions;
use pb_rounds::outcome::Elected;
use pb_rounds::rule::{FillUp, Rule};
use pb_rounds::tie_order::put_in_tie_order;
use pb_rounds::tie_rule::TieRule;
use pb_shared::clerk::Clerk;
use pb_shared::shared_desk::SharedDesk;
use std::alloc::Global;
use std::process::Abort;
use std::thread::Threads;

/// A desk of the three voters.
fn desk(rt: &impl Abort, alloc: Global) -> Desk {
    let election = read_pb(alloc, THREE_VOTERS.as_bytes()).expect(rt, "an election");
    Desk::start(alloc, election, 10).expect(rt, "a desk")
}

/// Withdraws the ballot of v3.
fn withdrawal(rt: &impl Abort, alloc: Global) -> Request {
    let voter = VoterId::new(alloc, "v3").expect(rt, "memory");
    Request::Withdraw(voter.expect(rt, "an id"))
}

/// The clerk with this number asks this.
fn asks_by(
    rt: &impl Abort,
    shared: &SharedDesk,
    clerks: &mut Vec<Clerk>,
    number: usize,
    request: &Request,
)
    requires { All (λ clerk. clerk.desk ≡ shared.now) clerks.old.items }
    ensures { All (λ clerk. clerk.desk ≡ shared.now) clerks.new.items }
{
    assert!(rt; number < clerks.len());
    let served = shared.serve(&mut clerks[number], request);
    same(rt, served.is_ok(), true, "a request");
}

/// The second clerk lets v3 withdraw, and the first then shuts the desk, or does not.
fn ask(rt: &impl Abort, alloc: Global, shared: &SharedDesk, clerks: &mut Vec<Clerk>, shuts: bool)
    requires { All (λ clerk. clerk.desk ≡ shared.now) clerks.old.items }
    ensures { All (λ clerk. clerk.desk ≡ shared.now) clerks.new.items }
{
    let withdrawal = withdrawal(rt, alloc);
    asks_by(rt, shared, clerks, 1, &withdrawal);
    drop(withdrawal);
    if shuts {
        asks_by(rt, shared, clerks, 0, &Request::Shut);
    }
}

/// What the desk of three voters comes to, that two clerks shared and asked.
fn close<R: Threads + Sync + Abort>(
    rt: &R,
    alloc: Global,
    shuts: bool,
    workers: u32,
) -> Result<Closing, CloseFault> {
    let (shared, mut clerks) = SharedDesk::share(alloc, desk(rt, alloc), 2).expect(rt, "shared");
    ask(rt, alloc, &shared, &mut clerks, shuts);
    let options = CountOptions {
        workers,
        ..CountOptions::standard()
    };
    let rule = Rule {
        options,
        fill_up: FillUp::Nothing,
        ties: TieRule::file(),
    };
    close_and_count(rt, alloc, shared, clerks, &rule)
}

/// Of each winner the place, the price and what was collected.
fn show_winners(rt: &impl Abort, text: &mut String, winners: &[Elected]) {
    for winner in winners {
        let (place, price, collected) = (winner.place, winner.price.0, winner.collected.0);
        write!(text, "; {place}, {price}, {collected}").expect(rt, "memory");
    }
}

/// A count as text: entries, voters and raises, and the winners.
fn counted(rt: &impl Abort, alloc: Global, count: &DeskCount) -> String {
    let voters = count.election.voters().len();
    let (entries, raised) = (count.entries, count.outcome.raised);
    let mut text = format!(in alloc; "counted: {entries}, {voters}, {raised}").expect(rt, "memory");
    show_winners(rt, &mut text, count.outcome.elected.as_slice());
    text
}

/// What a closing says, as text.
fn said(rt: &impl Abort, alloc: Global, closed: &Result<Closing, CloseFault>) -> String {
    match closed {
        Ok(Closing::Counted(count)) => counted(rt, alloc, count),
        Ok(Closing::Open(desk)) => {
            let (entries, ballots) = (desk.entries(), desk.ballots());
            format!(in alloc; "open: {entries}, {ballots}").expect(rt, "memory")
        }
        Err(CloseFault::NotCounted(fault, _, election)) => {
            let voters = election.voters().len();
            format!(in alloc; "{}: {voters}", fault.name()).expect(rt, "memory")
        }
        Err(_) => String::new(alloc),
    }
}

/// Whether the desk is shut, the number of workers, and what the closing says.
///
/// Each voter's share of the example's 100.00 is 50.00 at first. v1 and v2 pay 15.00 each for a, and b's one
/// supporter v2 has 35.00 left; 25 raises of 1.00 leave v2 with the 60.00 that b costs. A desk that is open
/// has an entry and two ballots, whatever the options are; a refused count hands the election of two voters
/// back.
const CLOSINGS: &[(bool, u32, &str)] = &[
    (true, 1, "counted: 2, 2, 25; 0, 1500, 3000; 1, 6000, 6000"),
    (false, 0, "open: 1, 2"),
    (true, 0, "WorkerCount: 2"),
];

/// The closing of such a desk says this.
fn closes<R: Threads + Sync + Abort>(
    rt: &R,
    alloc: Global,
    shuts: bool,
    workers: u32,
    wanted: &str,
) {
    let closed = close(rt, alloc, shuts, workers);
    let text = said(rt, alloc, &closed);
    same(rt, text.as_str(), wanted, wanted);
    drop(text);
    drop(closed);
}

#[test]
fn a_shut_desk_is_counted(rt: HostRuntime) {
    for (shuts, workers, wanted) in CLOSINGS {
        closes(&rt, rt.alloc(), *shuts, *workers, wanted);
    }
}

/// The fault is shown as this text.
fn tells(rt: &impl Abort, alloc: Global, fault: CloseFault, wanted: &str) {
    shows(rt, alloc, &fault, wanted);
    drop(fault);
}

#[test]
fn a_closing_tells_its_faults(rt: HostRuntime) {
    let alloc = rt.alloc();
    tells(&rt, alloc, CloseFault::Unfinished(4), "the lock word is 4");
    let open = desk(&rt, alloc);
    tells(&rt, alloc, CloseFault::NoMemory(open), "out of memory");
    let mut election = read_pb(alloc, THREE_VOTERS.as_bytes()).expect(&rt, "an election");
    let order = put_in_tie_order(alloc, &mut election, &TieRule::file()).expect(&rt, "an order");
    let spent = CloseFault::NotCounted(CountFault::RaisesSpent, order, election);
    tells(&rt, alloc, spent, "the raises are spent");
    let election = read_pb(alloc, THREE_VOTERS.as_bytes()).expect(&rt, "an election");
    tells(&rt, alloc, CloseFault::NotSorted(election), "out of memory");
}
