//! The run that compares a published page with the one that it makes of a count.

ghost use Rattle.std.specs.Prelude.{◌≡◌, ◌≢◌, ◌==◌, ◌≤◌, ℕ, IfOk, IfSome, List, None, count_by};
ghost use Rattle.std.specs.Prelude.{length, take};
ghost use Rattle.pb_core.specs.Election.{ElectionView};
ghost use Rattle.pb_commands.specs.Closed.{Gives};
ghost use Rattle.pb_commands.specs.Ends.{Ends, IfBothKnown, known};
ghost use Rattle.pb_app.specs.Inner.Page.{FirstDiffers, IsPageBy, PageRefuses};

use crate::keeping_watch::KeepingWatch;
use crate::page_maker::PageMaker;
use crate::run_page::run_page;
use crate::tongue::Tongue;
use pb_commands::{AppFault, Counting, Inputs};
use pb_core::gate::Gate;
use pb_read::Heed;
use pb_witness::page_notes::PageNotes;
use std::io::Read;
use std::thread::Threads;

/// Reads an election, counts it by the rule, or by the one that applies, makes the page of the count, and says where a published page first
/// differs from it, if it does: the number of bytes before that. What refuses the count, and when, is as for the
/// page.
pub(crate) fn run_same<
    T: Threads + Sync,
    P: Read + Drop,
    J: Read + Drop,
    G: Gate,
    H: Heed,
    S: Tongue,
>(
    counting: &Counting<T, G>,
    inputs: Inputs<P, J>,
    watch: &mut KeepingWatch<'_, H, PageNotes>,
    maker: &PageMaker<'_, '_, '_, S>,
    published: &[u8],
) -> Result<Option<usize>, AppFault>
    ensures same { IfOk result (λ found. found ≡ None → IfBothKnown (P.remaining inputs.file)
        (known J.remaining inputs.journal) (λ bytes journal.
        Gives (IsPageBy maker.now.run.now counting.now.rule.now maker.now.decide) bytes journal published.now)) }
    ensures differs { IfOk result (λ found. IfSome found (λ at. IfBothKnown (P.remaining inputs.file)
        (known J.remaining inputs.journal) (λ bytes journal. (text : List ℕ)
        × Gives (IsPageBy maker.now.run.now counting.now.rule.now maker.now.decide) bytes journal text
        × FirstDiffers text published.now at))) }

    // Whether or not the bytes are known that were read.
    ensures is_page { IfOk result (λ found. found ≡ None
        → (e : ElectionView) × IsPageBy maker.now.run.now counting.now.rule.now maker.now.decide e published.now) }
    ensures is_other { IfOk result (λ found. IfSome found (λ at. (e : ElectionView) × (text : List ℕ)
        × IsPageBy maker.now.run.now counting.now.rule.now maker.now.decide e text × FirstDiffers text published.now at)) }
    ensures ends { Ends (Gives (IsPageBy maker.now.run.now counting.now.rule.now maker.now.decide))
        (PageRefuses counting.now.rule.now maker.now.decide) (P.remaining inputs.file)
        (known J.remaining inputs.journal)
        (H.refused_for watch.new.warnings.now, H.shown watch.old.warnings.now, H.shown watch.new.warnings.now) result }
{
    let mut made = Vec::new(counting.alloc);
    match run_page(counting, inputs, watch, &mut made, maker) {
        Ok(()) => {
            let found = first_difference(made.as_slice(), published);
            drop(made);
            Ok(found)
        }
        Err(fault) => {
            drop(made);
            Err(of_memory(fault))
        }
    }
}

/// The fault of a text in memory: it is refused for memory alone.
fn of_memory(fault: AppFault) -> AppFault
    ensures write { fault ≡ AppFault.Write → result ≡ AppFault.Memory }
    ensures other { fault ≢ AppFault.Write → result ≡ fault }
{
    match fault {
        AppFault::Write => AppFault::Memory,
        fault => fault,
    }
}

/// How many bytes two texts have alike, before the first that differs; nothing where they are the same.
fn first_difference(made: &[u8], published: &[u8]) -> Option<usize>
    ensures same { result ≡ None → made.now ≡ published.now }
    ensures differs { IfSome result (FirstDiffers made.now published.now) }
{
    let shared = made.len().min(published.len());
    for at in 0..shared {
        let (one, other) = (made[at], published[at]);
        if one != other {
            return Some(at);
        }
    }
    if made.len() == published.len() {
        None
    } else {
        Some(shared)
    }
}

/// How many line ends so many bytes of a text have.
pub(crate) fn line_ends(text: &[u8], at: usize) -> u64
    requires { at ≤ length text.now }
    ensures { result ≡ count_by (λ byte. byte == 10) (take at text.now) }
{
    let mut lines: u64 = 0;
    for place in 0..at {
        if text[place] == b'\n' {
            lines += 1;
        }
    }
    lines
}
