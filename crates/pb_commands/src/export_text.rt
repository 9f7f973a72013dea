//! The file of a counted election, as text.

ghost use Rattle.std.specs.Prelude.{◌≡◌, ◌++◌, IfErr, IfOk, OnOk, map, string_bytes};
ghost use Rattle.pb_core.specs.Election.{ElectionView, IsElection};
ghost use Rattle.pb_commands.specs.Inner.Exporting.{IsStopped, own_comment};
ghost use Rattle.pb_commands.specs.Exported.{IsExportOf};
ghost use Rattle.pb_reasons.specs.CountedElection.{in_file};
ghost use Rattle.pb_rounds.specs.TieOrder.{IsSortedFor};
ghost use Rattle.pb_faults.specs.Fault.{merged};
ghost use Rattle.pb_price.specs.Supporters.{support_of};
ghost use Rattle.pb_reasons.specs.Counted.{is_selected};
ghost use Rattle.pb_rounds.specs.MostVotes.{votes_at};
ghost use Rattle.pb_rounds.specs.RuleNames.{rule_text};

use pb_core::no_memory::NoMemory;
use pb_export::write_pb::write_pb;
use pb_export::{Carried, Told};
use pb_faults::AppFault;
use pb_reasons::CountedElection;
use pb_rounds::rule::Rule;
use std::alloc::Global;

/// The file of an election that was counted, with what was kept of the file that was read, and these words of how
/// it was decided.
pub(crate) fn export_text(
    alloc: Global,
    count: CountedElection,
    carried: &Carried,
    decided: &str,
) -> Result<Vec<u8>, AppFault>
    ensures ok { (e : ElectionView) → IsElection e → IsSortedFor count.rule.ties e count.order count.election
        → IfOk result (λ text. IsExportOf count.rule
        (rule_text count.rule ++ own_comment decided.now) carried.now.further e text.items) }
    ensures fault { (e : ElectionView) → IsElection e → IsSortedFor count.rule.ties e count.order count.election
        → IfErr result (IsStopped e) }
    ensures merged { IfErr result (λ fault. merged fault ≡ fault) }
{
    let further = carried.further()?;
    // What is true of every count is so of this one.
    let _election = count.election();
    let rule = count.rule();
    let comment = comment_text(alloc, &rule, decided, further.comment())?;
    let votes = votes_of(alloc, &count)?;
    let selected = selected_of(alloc, &count)?;
    let election = count.into_file(alloc)?;
    let told = Told {
        rule: rule.word(),
        comment: comment.as_str(),
        votes: votes.as_slice(),
        selected: selected.as_slice(),
        further,
    };
    let text = write_pb(alloc, &election, &told)?;
    Ok(text)
}

/// How many ballots approve each project.
fn votes_of(alloc: Global, count: &CountedElection) -> Result<Vec<u32>, NoMemory>
    ensures { IfOk result (λ votes. votes.items ≡
        map (votes_at (support_of count.now.election)) (in_file count.now)) }
{
    let mut votes = Vec::new(alloc);
    for place in 0..count.election().projects().len() {
        let reason = count.project(count.position(place as u32));
        votes.push(reason.votes)?;
    }
    Ok(votes)
}

/// Whether each project is elected or added.
fn selected_of(alloc: Global, count: &CountedElection) -> Result<Vec<bool>, NoMemory>
    ensures { IfOk result (λ selected. selected.items ≡
        map (is_selected count.now.counted) (in_file count.now)) }
{
    let mut selected = Vec::new(alloc);
    for place in 0..count.election().projects().len() {
        selected.push(count.has_won(count.position(place as u32)))?;
    }
    Ok(selected)
}

/// The rule of a count, in words, and after it how it was decided, and the comment that the file had.
fn comment_text(alloc: Global, rule: &Rule, decided: &str, own: &str) -> Result<String, NoMemory>
    ensures { IfOk result (λ text. string_bytes text
        ≡ (rule_text rule.now ++ own_comment decided.now) ++ own_comment own.now) }
{
    let mut text = rule.text(alloc)?;
    put_own(&mut text, decided)?;
    put_own(&mut text, own)?;
    Ok(text)
}

/// Puts a comment after a text, if there is one.
fn put_own(text: &mut String, own: &str) -> Result<(), NoMemory>
    ensures { OnOk result (string_bytes text.new ≡ string_bytes text.old ++ own_comment own.now) }
{
    if own.is_empty() {
        return Ok(());
    }
    text.push_str(". ")?;
    text.push_str(own)?;
    Ok(())
}
