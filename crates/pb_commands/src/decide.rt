//! The comparison step: which of two rules applies, and the count by it.

ghost use Rattle.std.specs.Prelude.{◌≡◌, ◌≢◌, ◌⊎◌, ◌∷◌, [], IfErr, IfOk, codes, decimal};
ghost use Rattle.std.specs.Prelude.{if◌then◌else◌, nat_lt};
ghost use Rattle.pb_core.specs.Election.{ElectionView, IsElection};
ghost use Rattle.pb_reasons.specs.Comparison.{comparison_of};
ghost use Rattle.pb_reasons.specs.CountedElection.{IsCountIn, IsCountedElection};
ghost use Rattle.pb_rounds.specs.RuleNames.{profile_name};
ghost use Rattle.pb_rows.specs.Writing.{text_of_row};
ghost use Rattle.pb_commands.specs.Beside.{BesideRefuses};
ghost use Rattle.pb_commands.specs.Closed.{Gives, Leaves};
ghost use Rattle.pb_commands.specs.Decided.{Applies, by_of};
ghost use Rattle.pb_commands.specs.Ends.{Ends, IfBothKnown, known};
ghost use Rattle.pb_commands.specs.Inner.Beside.{IsRefusedBeside};

use crate::counting::{Counting, counted, not_counted};
use crate::inputs::{Inputs, election_of};
use crate::report::whole;
use crate::won_by_both::{WonByBoth, won_by_both};
use pb_core::election::Election;
use pb_core::gate::Gate;
use pb_core::no_memory::NoMemory;
use pb_faults::AppFault;
use pb_read::Heed;
use pb_reasons::{Comparison, CountedElection, RuleRow, compare};
use pb_rounds::count_fault::CountFault;
use pb_rounds::rule::Rule;
use pb_rows::{Field, RowsWriter};
use std::alloc::Global;
use std::io::Read;
use std::thread::Threads;

/// By what it is judged whether voters have more.
#[derive(Clone, Copy)]
pub enum DecidedBy {
    /// By how many of their choices win.
    Choices,
    /// By what these cost.
    Worth,
}

impl DecidedBy {
    /// Its name.
    pub(crate) fn name(self) -> &'static str
        ensures { result.now ≡ (by_of self).0 }
    {
        match self {
            DecidedBy::Choices => "choices",
            DecidedBy::Worth => "worth",
        }
    }

    /// How many voters have more by a rule than by the other one.
    fn more(self, row: &RuleRow) -> u32
        ensures { result ≡ (by_of self).1 row.now }
    {
        match self {
            DecidedBy::Choices => row.more_choices,
            DecidedBy::Worth => row.more_worth,
        }
    }
}

/// The comparison step: which other rule may apply, and by what it is judged whether it does.
#[derive(Clone, Copy)]
pub struct Decide {
    pub other: Rule,
    pub by: DecidedBy,
}

/// The count by the rule that applies, and by how many voters it was decided.
#[derive(Drop)]
pub struct DecidedCount {
    pub count: CountedElection,
    /// How many voters have more by the rule.
    pub own: u32,
    /// How many have more by the other one.
    pub other: u32,
}

/// The rule that applies, and by how many voters it was decided.
#[derive(Clone, Copy)]
struct Decision {
    rule: Rule,
    own: u32,
    other: u32,
}

/// Reads an election, counts it by the rule and by the other one, and then by the one that applies.
///
/// The file is refused before the journal, the journal before an open desk, and that before the options of both
/// rules. Who looks on while the file is read may refuse it for a warning, before the journal is judged.
pub fn decided_inputs<T: Threads + Sync, P: Read + Drop, J: Read + Drop, G: Gate, H: Heed>(
    counting: &Counting<T, G>,
    inputs: Inputs<P, J>,
    watch: &mut H,
    decide: &Decide,
) -> Result<DecidedCount, AppFault>
    ensures counted { IfOk result (λ it. IsCountedElection it.count) }
    ensures given { IfOk result (λ it. (e : ElectionView) × IsElection e × IsCountIn it.count.rule e it.count
        × Applies decide.now counting.now.rule.now e (it.count.rule, it.own, it.other)
        × IfBothKnown (P.remaining inputs.file) (known J.remaining inputs.journal)
        (λ bytes journal. Leaves bytes journal e)) }
    ensures ends { Ends (Gives (Applies decide.now counting.now.rule.now))
        (BesideRefuses counting.now.rule.now decide.now.other) (P.remaining inputs.file)
        (known J.remaining inputs.journal) (H.refused_for watch.new, H.shown watch.old, H.shown watch.new) result }
    ensures reads { IfErr result (λ fault. fault ≢ AppFault.Write) }
{
    let election = match election_of(counting.alloc, inputs, watch) {
        Ok(election) => election,
        Err(fault) => return Err(fault),
    };
    match decided(counting, election, decide) {
        Ok(decided) => Ok(decided),
        Err(fault) => Err(not_counted(fault)),
    }
}

/// Counts an election by the rule and by the other one, and then by the one that applies. The count by the rule is
/// refused first.
pub(crate) fn decided<T: Threads + Sync, G: Gate>(
    counting: &Counting<T, G>,
    election: Election,
    decide: &Decide,
) -> Result<DecidedCount, CountFault>
    ensures counted { IfOk result (λ it. IsCountedElection it.count) }
    ensures given { IfOk result (λ it. IsElection election × IsCountIn it.count.rule election it.count) }
    ensures applies { IfOk result (λ it.
        Applies decide.now counting.now.rule.now election (it.count.rule, it.own, it.other)) }
    ensures fault { IfErr result (IsRefusedBeside counting.now.rule.now decide.now.other election) }
{
    let won = match won_by_both(counting, election, &decide.other) {
        Ok(won) => won,
        Err(fault) => return Err(fault),
    };
    let decision = choose(counting.alloc, &won, counting.rule, decide)?;
    let by = Counting {
        rt: counting.rt,
        alloc: counting.alloc,
        gate: counting.gate,
        rule: &decision.rule,
    };
    match counted(&by, won.into_election()) {
        Ok(count) => Ok(DecidedCount {
            count,
            own: decision.own,
            other: decision.other,
        }),
        Err(fault) => Err(fault),
    }
}

/// Which of both rules applies where these win.
fn choose(
    alloc: Global,
    won: &WonByBoth,
    rule: &Rule,
    decide: &Decide,
) -> Result<Decision, NoMemory>
    ensures rule { IfOk result (λ it. it.rule
        ≡ (if nat_lt it.own it.other then decide.now.other else rule.now)) }
    ensures own { IfOk result (λ it. it.own ≡ (by_of decide.now.by).1
        (comparison_of won.now.election won.now.winners.items won.now.others.items).own) }
    ensures other { IfOk result (λ it. it.other ≡ (by_of decide.now.by).1
        (comparison_of won.now.election won.now.winners.items won.now.others.items).other) }
    ensures either { IfOk result (λ it. (it.rule ≡ rule.now) ⊎ (it.rule ≡ decide.now.other)) }
{
    let (winners, others) = (won.winners.as_slice(), won.others.as_slice());
    let rows = compare(alloc, &won.election, winners, others)?;
    Ok(decision_of(&rows, rule, decide))
}

/// Which of both rules applies where they compare so: the other one, if more voters have more by it.
fn decision_of(rows: &Comparison, rule: &Rule, decide: &Decide) -> Decision
    ensures rule { result.rule ≡ (if nat_lt result.own result.other then decide.now.other else rule.now) }
    ensures own { result.own ≡ (by_of decide.now.by).1 rows.now.own }
    ensures other { result.other ≡ (by_of decide.now.by).1 rows.now.other }
    ensures either { (result.rule ≡ rule.now) ⊎ (result.rule ≡ decide.now.other) }
{
    let own = decide.by.more(&rows.own);
    let other = decide.by.more(&rows.other);
    let rule = if own < other { decide.other } else { *rule };
    Decision { rule, own, other }
}

/// The row that says which rule applies.
pub(crate) fn decided_row(alloc: Global, decided: &DecidedCount) -> Result<Vec<u8>, NoMemory>
    ensures { IfOk result (λ row. row.items ≡ text_of_row (codes "decided"
        ∷ profile_name decided.now.count.rule ∷ decimal decided.now.own ∷ decimal decided.now.other ∷ [])) }
{
    let name = decided.count.rule().profile(alloc)?;
    let mut row = RowsWriter::start(alloc);
    let fields = [
        Field::Text("decided"),
        Field::Text(name.as_str()),
        Field::number(decided.own),
        Field::number(decided.other),
    ];
    row.put_fields(&fields)?;
    drop(name);
    whole(row)
}
