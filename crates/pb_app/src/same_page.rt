//! The command `page` with a published page: whether that is the page of the count.

ghost use Rattle.std.specs.Prelude.{◌≡◌, ◌≢◌, ◌≤◌, ℕ, IfErr, IfOk, IfSome, List, None, OnOk, codes, length};
ghost use Rattle.std.specs.Io.KnownBytes.{Appends};
ghost use Rattle.pb_core.specs.Election.{ElectionView};
ghost use Rattle.pb_app.specs.Inner.Page.{FirstDiffers, IfDiffers, IsPageBy, line_of};

use crate::command_run::CommandRun;
use crate::keeping_watch::KeepingWatch;
use crate::page::speech_of;
use crate::page_maker::PageMaker;
use crate::run_same::{line_ends, run_same};
use crate::system::System;
use pb_command_line::PageRun;
use pb_commands::{AppFault, Decide, write_out};
use pb_faults::PageRefusal;
use pb_page::Speech;
use pb_streams::{End, RunRefusal};
use pb_warnings::warnings::Warnings;
use pb_witness::page_notes::PageNotes;
use pb_words::same_words::differs_words;
use std::io::Write;

/// The published page that a run compares with the one that it makes, and how it is decided by which rule that is.
#[derive(Clone, Copy)]
pub(crate) struct Compared<'p> {
    pub(crate) page: &'p [u8],
    pub(crate) decide: Option<Decide>,
}

/// Counts these ballots, and writes the row `same` where the published page is just the page of the outcome.
/// Else the first line that differs refuses it. What refuses the page, and when, is as for `page`.
pub(crate) fn same_page<'a, R: System, W: Write>(
    run: &CommandRun<'a, R>,
    asked: &PageRun<'a>,
    published: &Compared<'_>,
    writer: &mut W,
    seen: &mut Warnings,
) -> Result<(), RunRefusal>
    ensures ok { OnOk result ((e : ElectionView) × IsPageBy asked.now run.now.counting.rule.now published.now.decide e published.now.page.now
        × Appends (W.contents writer.old) (W.contents writer.new) (codes "same\n")) }
    ensures unchanged { IfErr result (λ refusal.
        refusal ≢ RunRefusal.Fault AppFault.Write → writer.new ≡ writer.old) }
    ensures differs { IfErr result (λ refusal. IfDiffers refusal (λ line. (e : ElectionView) × (text : List ℕ)
        × IsPageBy asked.now run.now.counting.rule.now published.now.decide e text
        × (at : ℕ) × FirstDiffers text published.now.page.now at × (line ≡ line_of published.now.page.now at))) }
{
    let speech = speech_of(run.counting.rt, asked.words)?;
    let maker = PageMaker {
        run: asked,
        decide: published.decide,
        speech: &speech,
        file: &run.kinship.file,
        journal: &run.kinship.journal,
    };
    let mut watch = KeepingWatch {
        warnings: seen,
        keeper: PageNotes::new(run.counting.alloc),
    };
    let found = difference(run, &maker, &mut watch, published.page);
    drop(watch);
    drop(speech);
    match found? {
        None => Ok(write_out(writer, b"same\n", AppFault::Write)?),
        Some(at) => Err(differs(run, asked, published.page, at)),
    }
}

/// Opens the ballots of a page, counts them, and says where a published page first differs from that of the
/// outcome, while this one looks on at the file.
fn difference<'a, R: System>(
    run: &CommandRun<'a, R>,
    maker: &PageMaker<'_, '_, 'a, Speech>,
    watch: &mut KeepingWatch<'_, Warnings, PageNotes>,
    published: &[u8],
) -> Result<Option<usize>, AppFault>
    ensures same { IfOk result (λ found. found ≡ None
        → (e : ElectionView) × IsPageBy maker.now.run.now run.now.counting.rule.now maker.now.decide e published.now) }
    ensures other { IfOk result (λ found. IfSome found (λ at. (e : ElectionView) × (text : List ℕ)
        × IsPageBy maker.now.run.now run.now.counting.rule.now maker.now.decide e text × FirstDiffers text published.now at)) }
{
    let inputs = run.inputs(&maker.run.ballots)?;
    run_same(&run.counting, inputs, watch, maker, published)
}

/// A published page differs behind so many bytes.
fn differs<R: System>(
    run: &CommandRun<'_, R>,
    asked: &PageRun<'_>,
    published: &[u8],
    at: usize,
) -> RunRefusal
    requires { at ≤ length published.now }
    ensures { IfDiffers result (λ line. line ≡ line_of published.now at) }
{
    let line = line_ends(published, at).saturating_add(1);
    let path = match &asked.same_as {
        Some(source) => source.path(),
        None => None,
    };
    let words = differs_words(run.counting.alloc, path, line, column_at(published, at));
    RunRefusal::Told(End::Page(PageRefusal { line }), words)
}

/// The character of its line that a text has behind so many bytes, from 1.
fn column_at(text: &[u8], at: usize) -> u64 {
    let mut column: u64 = 1;
    for byte in text.iter().take(at) {
        match *byte {
            b'\n' => column = 1,
            // The further bytes of a character.
            0x80..=0xbf => {}
            _ => column = column.saturating_add(1),
        }
    }
    column
}
