//! How changed elections are counted for several projects.

ghost use Rattle.std.specs.Prelude.{◌≡◌};
ghost use Rattle.pb_reasons.specs.Inner.Losers.{about};

use crate::changes::question::Question;
use crate::changes::recount::Recount;
use pb_rounds::rule::Rule;
use std::alloc::Global;

/// How changed elections are counted for several projects: by which threads, in which memory, by
/// which rule, and who is told of raises.
#[derive(Drop)]
pub struct Recounts<'a, T, G> {
    pub rt: &'a T,
    pub alloc: Global,
    /// It is told of raises before they are tried, and of projects before they are searched.
    pub gate: &'a G,
    pub rule: Rule,
}

impl<'a, T, G> Recounts<'a, T, G> {
    /// The counts for the project at this place.
    pub(crate) fn about(&self, place: u32) -> Recount<'a, T, G>
        ensures { result.question ≡ about self.now.rule place }
    {
        Recount {
            rt: self.rt,
            alloc: self.alloc,
            gate: self.gate,
            question: Question {
                rule: self.rule,
                place,
            },
        }
    }
}
