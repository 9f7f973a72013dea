//! Which round elected which project.

ghost use Rattle.std.specs.Prelude.{◌<◌, ◌^◌, All, IfOk, length};
ghost use Rattle.pb_reasons.specs.Inner.Kept.{AreRounds};

use pb_core::no_memory::NoMemory;
use pb_rounds::outcome::Elected;
use std::alloc::Global;

/// For each of this many projects the number of its round, from 0; as many as there are elected where it has
/// none.
pub(crate) fn rounds_of(
    alloc: Global,
    elected: &[Elected],
    projects: usize,
) -> Result<Vec<u32>, NoMemory>
    requires known { All (λ w. w.place < projects) elected.now }
    requires few { length elected.now < 2 ^ 32 }
    ensures { IfOk result (λ rounds. AreRounds projects elected.now rounds.items) }
{
    let mut rounds = vec![in alloc; elected.len() as u32; projects]?;
    let mut round = elected.len();
    while round > 0 {
        round -= 1;
        let winner = &elected[round];
        rounds[winner.place as usize] = round as u32;
    }
    Ok(rounds)
}
