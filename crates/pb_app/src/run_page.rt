//! The run that writes the page of a count.

ghost use Rattle.std.specs.Prelude.{OnOk};
ghost use Rattle.pb_core.specs.Election.{ElectionView};
ghost use Rattle.pb_commands.specs.Closed.{Gives};
ghost use Rattle.pb_commands.specs.Ends.{Runs, known};
ghost use Rattle.pb_commands.specs.Inner.Written.{HasWritten};
ghost use Rattle.pb_app.specs.Inner.Page.{IsPageBy, PageRefuses};

use crate::keeping_watch::KeepingWatch;
use crate::page_count::page_count;
use crate::page_maker::PageMaker;
use crate::tongue::Tongue;
use pb_commands::{AppFault, Counting, Inputs, write_out};
use pb_core::gate::Gate;
use pb_read::Heed;
use pb_witness::page_notes::PageNotes;
use std::io::{Read, Write};
use std::thread::Threads;

/// Reads an election, counts it by the rule, or by the one that applies, and writes the page that this one makes of the count, as its run
/// asks.
///
/// The file is refused before the journal, the journal before an open desk, and that before the options.
/// Nothing is written but the whole page. Where the fault is `Write` some of the page may have gone out; on
/// any other fault the writer is as it was. A warning may refuse the file, before the journal is judged.
pub(crate) fn run_page<
    T: Threads + Sync,
    P: Read + Drop,
    J: Read + Drop,
    G: Gate,
    H: Heed,
    S: Tongue,
    W: Write,
>(
    counting: &Counting<T, G>,
    inputs: Inputs<P, J>,
    watch: &mut KeepingWatch<'_, H, PageNotes>,
    writer: &mut W,
    maker: &PageMaker<'_, '_, '_, S>,
) -> Result<(), AppFault>
    ensures runs { Runs (Gives (IsPageBy maker.now.run.now counting.now.rule.now maker.now.decide))
        (PageRefuses counting.now.rule.now maker.now.decide) (P.remaining inputs.file)
        (known J.remaining inputs.journal)
        (H.refused_for watch.new.warnings.now, H.shown watch.old.warnings.now, H.shown watch.new.warnings.now)
        W.contents writer.old writer.new result }

    // Whether or not the bytes are known that were read.
    ensures written { OnOk result ((e : ElectionView) × HasWritten (IsPageBy maker.now.run.now counting.now.rule.now maker.now.decide e)
        (W.contents writer.old) (W.contents writer.new)) }
{
    let counted = match page_count(counting, inputs, watch, &maker.decide) {
        Ok(counted) => counted,
        Err(fault) => return Err(fault),
    };
    let made = maker.text_of(counting, &*watch, &counted);
    drop(counted);
    match made {
        Ok(text) => write_out(writer, text.as_slice(), AppFault::Write),
        Err(_) => Err(AppFault::Memory),
    }
}
