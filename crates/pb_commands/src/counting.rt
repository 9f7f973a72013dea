//! How to count, as one value, and the count of what is read.

ghost use Rattle.std.specs.Prelude.{◌≡◌, ◌≢◌, IfErr, IfOk};
ghost use Rattle.pb_faults.specs.Fault.{merged};
ghost use Rattle.pb_reasons.specs.CountedElection.{IsCountIn, IsCountedElection, IsFaultIn};
ghost use Rattle.pb_core.specs.Election.{ElectionView, IsElection};
ghost use Rattle.pb_commands.specs.Closed.{CountRefuses, Gives, Leaves};
ghost use Rattle.pb_commands.specs.Ends.{Ends, IfBothKnown, known};

use crate::inputs::{Inputs, election_of};
use pb_core::election::Election;
use pb_core::gate::Gate;
use pb_faults::AppFault;
use pb_read::Heed;
use pb_reasons::CountedElection;
use pb_rounds::count::count_watched;
use pb_rounds::count_fault::CountFault;
use pb_rounds::rule::Rule;
use pb_rounds::tie_order::put_in_tie_order;
use std::alloc::Global;
use std::io::Read;
use std::thread::Threads;

/// How to count: by which threads, in which memory, by which rule, and who is told of raises.
#[derive(Drop)]
pub struct Counting<'a, T, G> {
    pub rt: &'a T,
    pub alloc: Global,
    /// It is told of raises before they are tried.
    pub gate: &'a G,
    pub rule: &'a Rule,
}

/// Reads an election and counts it by the rule.
///
/// The file is refused before the journal, the journal before an open desk, and that before the options. Who
/// looks on while the file is read may refuse it for a warning, before the journal is judged.
pub fn count_inputs<T: Threads + Sync, P: Read + Drop, J: Read + Drop, G: Gate, H: Heed>(
    counting: &Counting<T, G>,
    inputs: Inputs<P, J>,
    watch: &mut H,
) -> Result<CountedElection, AppFault>
    ensures counted { IfOk result IsCountedElection }
    ensures given { IfOk result (λ x. (e : ElectionView) × IsElection e × IsCountIn counting.now.rule.now e x
        × IfBothKnown (P.remaining inputs.file) (known J.remaining inputs.journal)
        (λ bytes journal. Leaves bytes journal e)) }
    ensures ends { Ends (Gives (IsCountIn counting.now.rule.now))
        (CountRefuses counting.now.rule.now) (P.remaining inputs.file)
        (known J.remaining inputs.journal) (H.refused_for watch.new, H.shown watch.old, H.shown watch.new) result }
    ensures reads { IfErr result (λ fault. fault ≢ AppFault.Write) }
{
    let election = match election_of(counting.alloc, inputs, watch) {
        Ok(election) => election,
        Err(fault) => return Err(fault),
    };
    match counted(counting, election) {
        Ok(count) => Ok(count),
        Err(fault) => Err(not_counted(fault)),
    }
}

/// A refused count, as a run answers it.
pub(crate) fn not_counted(fault: CountFault) -> AppFault
    ensures { result ≡ merged (AppFault.Count fault) }
{
    AppFault::Count(fault).merged()
}

/// Counts an election by the rule.
pub(crate) fn counted<T: Threads + Sync, G: Gate>(
    counting: &Counting<T, G>,
    election: Election,
) -> Result<CountedElection, CountFault>
    ensures counted { IfOk result IsCountedElection }
    ensures given { IfOk result (IsCountIn counting.now.rule.now election) }
    ensures is_election { IsElection election }
    ensures fault { IfErr result (λ fault. fault ≢ CountFault.NoMemory
        → IsFaultIn counting.now.rule.now election fault) }
{
    let (rt, alloc, rule) = (counting.rt, counting.alloc, counting.rule);
    // What is true of every election holds of this one.
    let _projects = election.projects();
    let mut election = election;
    let order = match put_in_tie_order(alloc, &mut election, &rule.ties) {
        Ok(order) => order,
        Err(_) => {
            drop(election);
            return Err(CountFault::NoMemory);
        }
    };
    let outcome = match count_watched(rt, alloc, &election, &rule.options, counting.gate) {
        Ok(outcome) => outcome,
        Err(fault) => {
            drop(election);
            drop(order);
            return Err(fault);
        }
    };
    let count = CountedElection::of(alloc, election, order, *rule, outcome)?;
    // What is true of every count is so of this one.
    let _election = count.election();
    Ok(count)
}
