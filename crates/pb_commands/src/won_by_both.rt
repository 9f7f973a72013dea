//! Who wins an election by two rules.

ghost use Rattle.std.specs.Prelude.{◌≡◌, IfErr, IfOk};
ghost use Rattle.pb_commands.specs.Beside.{AreWinners};
ghost use Rattle.pb_commands.specs.Inner.Beside.{IsRefused, IsRefusedBeside};

use crate::counting::{Counting, counted};
use pb_core::election::Election;
use pb_core::gate::Gate;
use pb_rounds::count_fault::CountFault;
use pb_rounds::rule::Rule;
use std::thread::Threads;

/// Who wins an election.
#[derive(Drop)]
struct WonInFile {
    /// The election as it stands in the file.
    election: Election,
    /// The winners, by their places in it.
    winners: Vec<u32>,
}

/// Who wins an election by two rules.
#[derive(Drop)]
pub(crate) struct WonByBoth {
    /// The election as it stands in the file.
    pub(crate) election: Election,
    /// The winners by the rule, by their places in it.
    pub(crate) winners: Vec<u32>,
    /// Those by the other one.
    pub(crate) others: Vec<u32>,
}

impl WonByBoth {
    /// The election.
    pub(crate) fn into_election(self) -> Election
        ensures { result ≡ self.election }
    {
        let WonByBoth { election, .. } = self;
        election
    }
}

/// Who wins an election by the rule, and by this other one. The count by the rule is refused first.
pub(crate) fn won_by_both<T: Threads + Sync, G: Gate>(
    counting: &Counting<T, G>,
    election: Election,
    other: &Rule,
) -> Result<WonByBoth, CountFault>
    ensures same { IfOk result (λ won. won.election ≡ election) }
    ensures winners { IfOk result (λ won. AreWinners counting.now.rule.now election won.winners.items) }
    ensures others { IfOk result (λ won. AreWinners other.now election won.others.items) }
    ensures fault { IfErr result (IsRefusedBeside counting.now.rule.now other.now election) }
{
    let own = match won_by(counting, election) {
        Ok(won) => won,
        Err(fault) => return Err(fault),
    };
    let WonInFile { election, winners } = own;
    let beside = Counting {
        rt: counting.rt,
        alloc: counting.alloc,
        gate: counting.gate,
        rule: other,
    };
    match won_by(&beside, election) {
        Ok(won) => Ok(WonByBoth {
            election: won.election,
            winners,
            others: won.winners,
        }),
        Err(fault) => {
            drop(winners);
            Err(fault)
        }
    }
}

/// Who wins an election by the rule.
fn won_by<T: Threads + Sync, G: Gate>(
    counting: &Counting<T, G>,
    election: Election,
) -> Result<WonInFile, CountFault>
    ensures same { IfOk result (λ won. won.election ≡ election) }
    ensures winners { IfOk result (λ won. AreWinners counting.now.rule.now election won.winners.items) }
    ensures fault { IfErr result (IsRefused counting.now.rule.now election) }
{
    let count = match counted(counting, election) {
        Ok(count) => count,
        Err(fault) => return Err(fault),
    };
    let winners = count.winners_in_file(counting.alloc)?;
    let election = count.into_file(counting.alloc)?;
    Ok(WonInFile { election, winners })
}
