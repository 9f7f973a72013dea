//! The rounds of an outcome, replayed: how many paid in full.

ghost use Rattle.std.specs.Prelude.{◌≡◌, ◌<◌, All, IfOk, length, replicate};
ghost use Rattle.std.specs.List.Sorted.{IsStrictlyIncreasing};
ghost use Rattle.pb_rounds.specs.Run.{charged};
ghost use Rattle.pb_reasons.specs.Inner.Replay.{full_payers, full_payers_by_round};

use pb_core::money::Money;
use pb_core::no_memory::NoMemory;
use pb_price::supporters::Supporters;
use pb_rounds::outcome::Elected;
use std::alloc::Global;

/// Takes the price from the rest of each of these supporters, or the whole rest where that is less: how many
/// paid the whole price.
pub(crate) fn pay(supporters: &[u32], price: Money, rests: &mut [Money]) -> usize
    requires known { All (λ voter. voter < length rests.old) supporters.now }
    requires rise { IsStrictlyIncreasing supporters.now }
    ensures in_full { result ≡ full_payers supporters.now price rests.old }
    ensures rests { rests.new ≡ charged supporters.now price rests.old }
{
    let mut in_full = 0;
    for voter in supporters {
        let rest = &mut rests[*voter as usize];
        let payment = rest.0.min(price.0);
        rest.0 -= payment;
        if payment == price.0 {
            in_full += 1;
        }
    }
    in_full
}

/// How many paid the whole price for each of the elected, one after the other, each voter out of this share.
pub(crate) fn replay(
    alloc: Global,
    supporters: &Supporters,
    share: Money,
    elected: &[Elected],
) -> Result<Vec<usize>, NoMemory>
    requires { All (λ w. w.place < length supporters.now.costs) elected.now }
    ensures { IfOk result (λ in_full. in_full.items
        ≡ full_payers_by_round supporters.now (replicate supporters.now.voters share) elected.now) }
{
    let mut rests = vec![in alloc; share; supporters.voters() as usize]?;
    let mut in_full = Vec::with_capacity(alloc, elected.len())?;
    for winner in elected {
        let payers = pay(supporters.of(winner.place), winner.price, &mut rests);
        in_full.push(payers)?;
    }
    Ok(in_full)
}
