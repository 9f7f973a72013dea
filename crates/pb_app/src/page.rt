//! The command `page`: a result that people look at.

ghost use Rattle.std.specs.Prelude.{◌≡◌, ◌≢◌, IfErr, OnOk};
ghost use Rattle.pb_core.specs.Election.{ElectionView};
ghost use Rattle.pb_commands.specs.Inner.Written.{HasWritten};
ghost use Rattle.pb_app.specs.Inner.Page.{IfDiffers, IsPageBy};

use crate::command_run::CommandRun;
use crate::keeping_watch::KeepingWatch;
use crate::page_maker::PageMaker;
use crate::run_page::run_page;
use crate::system::System;
use crate::worded::{refusal_of, words_file_words};
use pb_command_line::PageRun;
use pb_commands::{AppFault, Decide};
use pb_faults::RunText;
use pb_page::{Speech, WordsFault};
use pb_streams::{End, RunRefusal, open_file};
use pb_warnings::warnings::Warnings;
use pb_witness::page_notes::PageNotes;
use std::fs::File;
use std::io::{ErrorKind, Read, Write};

/// Counts these ballots, and writes the page of the outcome, which is by the rule that applies where that is decided. If a file of words is given, the page is in its
/// language, and it is read first. What else refuses the page, and when, is as for the tables. Nothing is
/// written but the whole page. Where the fault is `Write` some of it may have gone out; on any other refusal
/// the writer is as it was.
pub(crate) fn page<'a, R: System, W: Write>(
    run: &CommandRun<'a, R>,
    asked: &PageRun<'a>,
    decide: Option<Decide>,
    writer: &mut W,
    seen: &mut Warnings,
) -> Result<(), RunRefusal>
    ensures ok { OnOk result ((e : ElectionView) × HasWritten (IsPageBy asked.now run.now.counting.rule.now decide e)
        (W.contents writer.old) (W.contents writer.new)) }
    ensures unchanged { IfErr result (λ refusal.
        refusal ≢ RunRefusal.Fault AppFault.Write → writer.new ≡ writer.old) }
{
    let speech = speech_of(run.counting.rt, asked.words)?;
    let maker = PageMaker {
        run: asked,
        decide,
        speech: &speech,
        file: &run.kinship.file,
        journal: &run.kinship.journal,
    };
    let mut watch = KeepingWatch {
        warnings: seen,
        keeper: PageNotes::new(run.counting.alloc),
    };
    let done = write_page(run, &maker, &mut watch, writer);
    drop(watch);
    drop(speech);
    Ok(done?)
}

/// Opens the ballots of a page, counts them, and writes the page, while this one looks on at the file.
fn write_page<'a, R: System, W: Write>(
    run: &CommandRun<'a, R>,
    maker: &PageMaker<'_, '_, 'a, Speech>,
    watch: &mut KeepingWatch<'_, Warnings, PageNotes>,
    writer: &mut W,
) -> Result<(), AppFault>
    ensures ok { OnOk result ((e : ElectionView) × HasWritten (IsPageBy maker.now.run.now run.now.counting.rule.now maker.now.decide e)
        (W.contents writer.old) (W.contents writer.new)) }
    ensures unchanged { IfErr result (λ fault. fault ≢ AppFault.Write → writer.new ≡ writer.old) }
{
    let inputs = run.inputs(&maker.run.ballots)?;
    run_page(&run.counting, inputs, watch, writer, maker)
}

/// The language of the file of words with this path, or English.
pub(crate) fn speech_of<R: System>(rt: &R, path: Option<&str>) -> Result<Speech, RunRefusal>
    ensures { IfErr result (λ refusal. IfDiffers refusal (λ line. ⊥)) }
{
    let speech = match path {
        Some(path) => speech_in(rt, open_file(rt, path, RunText::Words)?),
        None => Speech::english(rt.alloc()),
    };
    match speech {
        Ok(speech) => Ok(speech),
        Err(WordsFault::NoMemory) => Err(RunRefusal::Fault(AppFault::Memory)),
        Err(fault) => {
            let words = words_file_words(rt, rt.alloc(), path.unwrap_or("-"), &fault);
            Err(RunRefusal::Told(End::Words(refusal_of(&fault)), words))
        }
    }
}

/// The language of a file of words.
fn speech_in<R: System>(rt: &R, mut file: File) -> Result<Speech, WordsFault> {
    let mut text = Vec::new(rt.alloc());
    let read = file.read_to_end(&mut text);
    drop(file);
    let speech = match read {
        Ok(_) => Speech::read(rt.alloc(), text.as_slice()),
        Err(error) if error.kind() == ErrorKind::OutOfMemory => Err(WordsFault::NoMemory),
        Err(_) => Err(WordsFault::ReadFailed),
    };
    drop(text);
    speech
}
