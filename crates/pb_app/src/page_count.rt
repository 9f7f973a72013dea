//! The count that a page shows.

ghost use Rattle.std.specs.Prelude.{◌≡◌, ◌≢◌, IfErr, IfOk, None, Some};
ghost use Rattle.pb_commands.specs.Closed.{Gives, Leaves};
ghost use Rattle.pb_commands.specs.Ends.{Ends, IfBothKnown, known};
ghost use Rattle.pb_core.specs.Election.{ElectionView};
ghost use Rattle.pb_reasons.specs.CountedElection.{IsCountedElection};
ghost use Rattle.pb_app.specs.Inner.Page.{IsCountFor, PageRefuses, is_worth, told};

use pb_commands::{
    AppFault, CountedElection, Counting, Decide, DecidedBy, DecidedCount, Inputs, count_inputs,
    decided_inputs,
};
use pb_core::gate::Gate;
use pb_page::Decided;
use pb_read::Heed;
use pb_rounds::rule::Rule;
use std::io::Read;
use std::thread::Threads;

/// The count that a page shows, and how it was decided by which rule it is, if it was.
#[derive(Drop)]
pub(crate) struct PageCount {
    pub(crate) count: CountedElection,
    pub(crate) decided: Option<Decided>,
}

/// Reads an election, and counts it by the rule; or, where that is decided, by the one of two that applies.
///
/// The file is refused before the journal, the journal before an open desk, and that before the options. A warning
/// may refuse the file, before the journal is judged.
pub(crate) fn page_count<T: Threads + Sync, P: Read + Drop, J: Read + Drop, G: Gate, H: Heed>(
    counting: &Counting<T, G>,
    inputs: Inputs<P, J>,
    watch: &mut H,
    decide: &Option<Decide>,
) -> Result<PageCount, AppFault>
    ensures counted { IfOk result (λ it. IsCountedElection it.count) }
    ensures given { IfOk result (λ it. (e : ElectionView) × IsCountFor counting.now.rule.now decide.now e (it.count, it.decided)
        × IfBothKnown (P.remaining inputs.file) (known J.remaining inputs.journal)
        (λ bytes journal. Leaves bytes journal e)) }
    ensures ends { Ends (Gives (IsCountFor counting.now.rule.now decide.now))
        (PageRefuses counting.now.rule.now decide.now) (P.remaining inputs.file)
        (known J.remaining inputs.journal) (H.refused_for watch.new, H.shown watch.old, H.shown watch.new) result }
    ensures reads { IfErr result (λ fault. fault ≢ AppFault.Write) }
{
    match decide {
        None => plain_count(counting, inputs, watch),
        Some(decide) => decided_count(counting, inputs, watch, decide),
    }
}

/// The same by this rule alone.
fn plain_count<T: Threads + Sync, P: Read + Drop, J: Read + Drop, G: Gate, H: Heed>(
    counting: &Counting<T, G>,
    inputs: Inputs<P, J>,
    watch: &mut H,
) -> Result<PageCount, AppFault>
    ensures counted { IfOk result (λ it. IsCountedElection it.count) }
    ensures given { IfOk result (λ it. (e : ElectionView) × IsCountFor counting.now.rule.now None e (it.count, it.decided)
        × IfBothKnown (P.remaining inputs.file) (known J.remaining inputs.journal)
        (λ bytes journal. Leaves bytes journal e)) }
    ensures ends { Ends (Gives (IsCountFor counting.now.rule.now None))
        (PageRefuses counting.now.rule.now None) (P.remaining inputs.file)
        (known J.remaining inputs.journal) (H.refused_for watch.new, H.shown watch.old, H.shown watch.new) result }
    ensures reads { IfErr result (λ fault. fault ≢ AppFault.Write) }
{
    match count_inputs(counting, inputs, watch) {
        Ok(count) => Ok(PageCount {
            count,
            decided: None,
        }),
        Err(fault) => Err(fault),
    }
}

/// The same by the one of two rules that applies.
fn decided_count<T: Threads + Sync, P: Read + Drop, J: Read + Drop, G: Gate, H: Heed>(
    counting: &Counting<T, G>,
    inputs: Inputs<P, J>,
    watch: &mut H,
    decide: &Decide,
) -> Result<PageCount, AppFault>
    ensures counted { IfOk result (λ it. IsCountedElection it.count) }
    ensures given { IfOk result (λ it. (e : ElectionView) × IsCountFor counting.now.rule.now (Some decide.now) e (it.count, it.decided)
        × IfBothKnown (P.remaining inputs.file) (known J.remaining inputs.journal)
        (λ bytes journal. Leaves bytes journal e)) }
    ensures ends { Ends (Gives (IsCountFor counting.now.rule.now (Some decide.now)))
        (PageRefuses counting.now.rule.now (Some decide.now)) (P.remaining inputs.file)
        (known J.remaining inputs.journal) (H.refused_for watch.new, H.shown watch.old, H.shown watch.new) result }
    ensures reads { IfErr result (λ fault. fault ≢ AppFault.Write) }
{
    match decided_inputs(counting, inputs, watch, decide) {
        Ok(decided) => Ok(of_decided(decided, counting.rule, decide)),
        Err(fault) => Err(fault),
    }
}

/// The count that was decided between this rule and another one.
fn of_decided(decided: DecidedCount, rule: &Rule, decide: &Decide) -> PageCount
    ensures count { result.count ≡ decided.count }
    ensures decided { result.decided ≡ Some (told rule.now decide.now decided.own decided.other) }
{
    PageCount {
        decided: Some(Decided {
            rule: *rule,
            other: decide.other,
            by_worth: is_worth(decide.by),
            own: decided.own,
            others: decided.other,
        }),
        count: decided.count,
    }
}

/// Whether it is by worth that voters have more.
fn is_worth(by: DecidedBy) -> bool
    ensures { result ≡ is_worth by }
{
    match by {
        DecidedBy::Choices => false,
        DecidedBy::Worth => true,
    }
}
