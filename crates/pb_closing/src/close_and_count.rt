//! From a shared desk to its winners: its clerks come back, and where it is shut its ballots are counted.

ghost use Rattle.std.specs.Prelude.{◌≡◌, ◌≢◌, ◌<◌, ℕ, map, All, Contains, IfErr};
ghost use Rattle.pb_closing.specs.Closed.{ComesTo, IsClosedAs};

use crate::close_fault::CloseFault;
use crate::closing::{Closing, DeskCount};
use pb_core::gate::{Gate, NoGate};
use pb_desk::desk::Desk;
use pb_desk::into_fault::IntoFault;
use pb_rounds::count::count_watched;
use pb_rounds::rule::Rule;
use pb_rounds::tie_order::put_in_tie_order;
use pb_shared::clerk::Clerk;
use pb_shared::shared_desk::SharedDesk;
use pb_shared::unfinished::Unfinished;
use std::alloc::Global;
use std::thread::Threads;

/// Takes the clerks of a shared desk back. Where the desk is shut, the ballots that its journal leaves are
/// counted as this rule elects; else the desk is the answer, whatever the rule is.
///
/// To publish the journal, write it by a clerk's `look` before: what a clerk has seen begins the journal, and
/// is all of it where it has as many entries as the answer says.
pub fn close_and_count<T: Threads + Sync>(
    rt: &T,
    alloc: Global,
    shared: SharedDesk,
    clerks: Vec<Clerk>,
    rule: &Rule,
) -> Result<Closing, CloseFault>
    requires own { All (λ clerk. clerk.desk ≡ shared) clerks.items }
    // The headline: there is one journal, and the answer is what it comes to; and when each refusal comes.
    ensures closed { IsClosedAs shared clerks.items rule.now result }

    // With all clerks handed back the lock is never the reason.
    ensures all { ((number : ℕ) → number < shared.clerks
        → Contains (map (λ c. c.sheet.number) clerks.items) number)
        → IfErr result (λ fault. (word : ℕ) → fault ≢ CloseFault.Unfinished word) }
{
    match shared.finish(clerks) {
        Ok(desk) => count_desk(rt, alloc, desk, rule, &NoGate),
        Err(Unfinished(word)) => Err(CloseFault::Unfinished(word)),
    }
}

/// Counts the ballots that a desk's journal leaves, where the desk is shut; else the desk is the answer. The
/// gate is told of raises before they are tried.
pub fn count_desk<T: Threads + Sync, G: Gate>(
    rt: &T,
    alloc: Global,
    desk: Desk,
    rule: &Rule,
    gate: &G,
) -> Result<Closing, CloseFault>
    ensures { ComesTo desk rule.now result }
{
    let entries = desk.entries();
    let mut election = match desk.into_election() {
        Ok(election) => election,
        Err(IntoFault::NotShut(desk)) => return Ok(Closing::Open(desk)),
        Err(IntoFault::NoMemory(desk)) => return Err(CloseFault::NoMemory(desk)),
    };
    let order = match put_in_tie_order(alloc, &mut election, &rule.ties) {
        Ok(order) => order,
        Err(_) => return Err(CloseFault::NotSorted(election)),
    };
    match count_watched(rt, alloc, &election, &rule.options, gate) {
        Ok(outcome) => Ok(Closing::Counted(DeskCount {
            entries,
            election,
            order,
            outcome,
        })),
        Err(fault) => Err(CloseFault::NotCounted(fault, order, election)),
    }
}
