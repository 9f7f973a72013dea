//! Two clerks of a shared desk, for `tools/refuse`, which runs this program with each of its allocations
//! refused in turn.
//!
//! It says `served` where both clerks are served as ever, and `serve refused` where memory was refused to one
//! of them, who then saw the desk as it was, and both were answered after that. It says `share refused` where
//! the desk came back from a call to share it, and could then be shared, and `out of memory` where there was
//! none before. `other` is wrong.
#![tactic(auto)]

ghost use Rattle.std.specs.Prelude.{◌≡◌, All, IfSome};

use pb_core::{Answer, Ballot, NoMemory, Request, VoterId};
use pb_desk::Desk;
use pb_read::read_pb;
use pb_shared::clerk::Clerk;
use pb_shared::share_fault::ShareFault;
use pb_shared::shared_desk::SharedDesk;
use pb_shared::shared_fault::SharedFault;
use std::alloc::Global;
use std::io;

/// An election of two projects and three voters.
const THREE_VOTERS: &str =
    "META\nkey;value\nbudget;100\nvote_type;approval\nPROJECTS\nproject_id;cost\na;30\nb;60\nVOTES\nvoter_id;vote\nv1;a\nv2;a,b\nv3;b\n";

fn main(rt: HostRuntime) -> io::Result<()> {
    let said = match run(rt.alloc()) {
        Ok(said) => said,
        Err(NoMemory) => "out of memory",
    };
    println!(rt; "{said}")
}

/// A new ballot of this voter, for project 0.
fn cast(alloc: Global, name: &str) -> Result<Request, NoMemory> {
    let voter = VoterId::new(alloc, name)?.ok_or(NoMemory)?;
    Ok(Request::Cast(voter, Ballot::of(alloc, &[0])?))
}

/// A desk on the three voters.
fn desk(alloc: Global) -> Result<Desk, NoMemory> {
    let Ok(election) = read_pb(alloc, THREE_VOTERS.as_bytes()) else {
        return Err(NoMemory);
    };
    match Desk::start(alloc, election, 10) {
        Ok(desk) => Ok(desk),
        Err(_) => Err(NoMemory),
    }
}

/// Whether nothing was served on the desk: no entry, and the three ballots.
fn is_as_opened(desk: &Desk) -> bool {
    desk.entries() == 0 && desk.ballots() == 3 && !desk.is_shut()
}

/// Has two requests ready, and says what becomes of them.
fn run(alloc: Global) -> Result<&'static str, NoMemory> {
    let ann = cast(alloc, "ann")?;
    let said = match cast(alloc, "bob") {
        Ok(bob) => share(alloc, &ann, &bob),
        Err(NoMemory) => Err(NoMemory),
    };
    drop(ann);
    said
}

/// Shares a desk among two clerks, who ask this.
fn share(alloc: Global, ann: &Request, bob: &Request) -> Result<&'static str, NoMemory> {
    match SharedDesk::share(alloc, desk(alloc)?, 2) {
        Ok((shared, clerks)) => {
            let mut clerks = clerks;
            let said = visit(&shared, &mut clerks, ann, bob);
            drop(clerks);
            drop(shared);
            Ok(said)
        }
        Err(fault) => Ok(share_again(alloc, fault)),
    }
}

/// Shares a desk that came back.
fn share_again(alloc: Global, fault: ShareFault) -> &'static str {
    let is_memory = fault.number() == 2;
    let desk = match fault {
        ShareFault::ClerkCount(desk) => desk,
        ShareFault::NoMemory(desk) => desk,
    };
    let was_as_opened = is_as_opened(&desk);
    let shared = SharedDesk::share(alloc, desk, 2);
    let is_shared = shared.is_ok();
    drop(shared);
    if is_memory && was_as_opened && is_shared {
        "share refused"
    } else {
        "other"
    }
}

/// The last clerk of a list of this desk's clerks.
fn last_of(shared: &SharedDesk, clerks: &mut Vec<Clerk>) -> Option<Clerk>
    requires { All (λ clerk. clerk.desk ≡ shared.now) clerks.old.items }
    ensures clerk { IfSome result (λ clerk. clerk.desk ≡ shared.now) }
    ensures left { All (λ clerk. clerk.desk ≡ shared.now) clerks.new.items }
{
    let _ = shared;
    clerks.pop()
}

/// Both clerks ask, the first one first.
fn visit(shared: &SharedDesk, clerks: &mut Vec<Clerk>, ann: &Request, bob: &Request) -> &'static str
    requires { All (λ clerk. clerk.desk ≡ shared.now) clerks.old.items }
{
    let Some(mut second) = last_of(shared, clerks) else {
        return "other";
    };
    let said = match last_of(shared, clerks) {
        Some(first) => both_ask(shared, first, &mut second, ann, bob),
        None => "other",
    };
    drop(second);
    said
}

/// The first clerk asks, and then the second, who tries up to five times.
fn both_ask(
    shared: &SharedDesk,
    first: Clerk,
    second: &mut Clerk,
    ann: &Request,
    bob: &Request,
) -> &'static str
    requires first { first.desk ≡ shared.now }
    requires second { second.old.desk ≡ shared.now }
{
    let mut first = first;
    let said = match shared.serve(&mut first, ann) {
        Ok(Answer::Done) => match shared.serve_within(second, bob, 5) {
            Ok(Answer::Done) => "served",
            Err(SharedFault::NoMemory) => after_refusal(shared, second, &mut first, bob, 1),
            _ => "other",
        },
        Err(SharedFault::NoMemory) => after_refusal(shared, &mut first, second, ann, 0),
        _ => "other",
    };
    drop(first);
    said
}

/// Whether this many ballots were cast on the desk, each by an entry.
fn has_served(desk: &Desk, entries: u32) -> bool {
    desk.entries() == entries && desk.ballots().checked_sub(3) == Some(entries)
}

/// A clerk to whom memory was refused sees the desk with this many entries, as it was; another clerk is
/// served, and then the clerk itself.
fn after_refusal(
    shared: &SharedDesk,
    clerk: &mut Clerk,
    other: &mut Clerk,
    asked: &Request,
    entries: u32,
) -> &'static str
    requires clerk { clerk.old.desk ≡ shared.now }
    requires other { other.old.desk ≡ shared.now }
{
    let seen = shared.look(clerk, |desk| has_served(desk, entries));
    if seen == Ok(true)
        && shared.serve(other, &Request::Shut) == Ok(Answer::Done)
        && shared.serve(clerk, asked) == Ok(Answer::DeskShut)
        && shared.front(clerk).checked_sub(2) == Some(entries)
    {
        "serve refused"
    } else {
        "other"
    }
}
