//! Words for the faults of a .pb file.

use crate::file_words::put_reading_failed;
use crate::looks::put_looks;
use crate::prelude::*;
use crate::read_rules::{put_rule, words_of};
use pb_read::{ReadFault, Stage};
use pb_witness::known::{Known, ReadAgain, Repeat};
use pb_witness::witness::Witness;
use std::mem;

/// Words for a fault of the .pb file with this path; no path is standard input. If the witness did not look
/// on while the file was read, or the cause of the fault may be in the rest, the file is read once more.
pub fn read_words<R: Files>(
    rt: &R,
    alloc: Global,
    path: Option<&str>,
    fault: &ReadFault,
    witness: &Witness,
) -> Said {
    let faults = [*fault];
    let text = Text::new(rt, alloc, path);
    let asks_for_rest = matches!(
        fault.kind,
        ReadKind::UnknownProject | ReadKind::RepeatedVoter
    );
    let is_known = !witness.refused.is_empty() && !(asks_for_rest && text.is_file());
    if is_known || fault.kind == ReadKind::ReadFailed {
        return list_words(rt, alloc, path, &faults, witness);
    }
    let mut again = Witness::new(alloc);
    again.look_again(&text);
    let said = list_words(rt, alloc, path, &faults, &again);
    // Letting go of it by a call keeps this function's proof short.
    drop(again);
    said
}

/// Words for these faults of the .pb file with this path, their records rising; no path is standard input.
/// The witness has looked on while it was read.
pub fn list_words<R: Files>(
    rt: &R,
    alloc: Global,
    path: Option<&str>,
    faults: &[ReadFault],
    witness: &Witness,
) -> Said {
    let mut out = WordsWriter::new(alloc);
    if !witness.is_whole {
        out.fail();
    }
    put_faults(&mut out, &Text::new(rt, alloc, path), faults, witness);
    out.finish()
}

/// Puts what is said of these faults.
fn put_faults<R: Files>(
    out: &mut WordsWriter,
    text: &Text<R>,
    faults: &[ReadFault],
    witness: &Witness,
) {
    let again = ReadAgain::of(text, witness);
    match &again {
        Ok(again) => { put_each_fault(out, text, faults, Known { witness, again }) }
        Err(_) => out.fail(),
    }
    // Letting go of it by a call keeps this function's proof short.
    drop(again)
}

/// Puts what is said of each of these faults, where so much is known of the file: of one cause once.
fn put_each_fault<'c, R: Files>(
    out: &mut WordsWriter,
    text: &'c Text<'c, R>,
    faults: &[ReadFault],
    known: Known<'c>,
) {
    let can_be_read = text.is_file();
    let mut names_row = false;
    let mut told = [false; MANY_CAUSES];
    if let Some(faulty) = known.witness.refused.iter().find(|it| it.is_of_mail()) {
        let _ = put_mark(out, text, faulty.mark);
        return out.put(MAIL);
    }
    for (place, fault) in faults.iter().enumerate() {
        let refused = known.witness.refused.get(place);
        let Some(faulty) = refused.filter(|it| it.refusal.fault == *fault) else {
            put_unread(out, text, *fault);
            continue;
        };
        let case = Case {
            text,
            known,
            faulty,
        };
        let is_told = match case.cause_number() {
            Some(number) => told
                .get_mut(number)
                .is_some_and(|it| mem::replace(it, true)),
            None => faulty.kind() == ReadKind::UnknownProject && case.is_told(),
        };
        if !is_told && can_be_read {
            case.put_fault(out)
        } else if !is_told {
            names_row |= case.put_from_input(out);
        }
    }
    if names_row {
        out.put(
            "Empty lines are not counted as rows. To see the line, and what is wrong there, save the text in a file, and name this file in the command.\n",
        );
    }
}

/// What is said of a file that is the source of an e-mail.
const MAIL: &str =
    ": codes such as `=C3=A9` stand for letters: this is the source of an e-mail, in which a `=` at the end of a line cuts it.\nSave the attachment itself, and don't correct the rows.\n";

/// How many causes there are of which words are put once: those of repeated ids, marks of conflicts, and a row that is meant
/// as a head.
const MANY_CAUSES: usize = Repeat::COUNT + 3;

impl<R: Files> Case<'_, R> {
    /// The number of the cause of a record's fault, if words for it are put once: a voter's repeated id, a
    /// mark of a merge conflict, a row that is meant as a head.
    fn cause_number(&self) -> Option<usize> {
        match self.faulty.kind() {
            _ if self.has_nul() => Some(Repeat::COUNT.saturating_add(2)),
            ReadKind::UnknownProject => None,
            ReadKind::RepeatedVoter => {
                let repeat = self.known.repeat_of(self.text, self.faulty);
                (repeat.is_shared() || self.text.is_file()).then_some(repeat as usize)
            }
            _ if self.faulty.is_conflict() => Some(Repeat::COUNT),
            _ if self.faulty.seen.swallowing.is_some() => None,
            _ => self
                .faulty
                .odd_head()
                .map(|_| Repeat::COUNT.saturating_add(1)),
        }
    }

    /// Puts what is wrong with a record that was refused, or with the end of the file, and what to do.
    fn put_fault(&self, out: &mut WordsWriter) {
        let kind = self.faulty.refusal.fault.kind;
        if matches!(kind, ReadKind::NotText | ReadKind::NoSection) && put_looks(out, self.text) {
            return;
        }
        let is_said = match kind {
            ReadKind::ReadFailed => false,
            _ if self.faulty.record.len() == 0 => self.put_end(out),
            _ => self.put_found(out),
        };
        if !is_said {
            put_unread(out, self.text, self.faulty.refusal.fault);
        }
    }

    /// Puts what is known of a fault of a text that can't be read again. Answers whether that is a row's.
    fn put_from_input(&self, out: &mut WordsWriter) -> bool {
        match (self.faulty.refusal.fault.kind, &self.faulty.stage) {
            (ReadKind::NoSection, Stage::Start) => {
                let form = if self.faulty.record.len() == 0 {
                    "{} is empty.\nName a .pb file in the command, for example `pb_app count FILE`.\n"
                } else {
                    "{}: a .pb file begins with the line META, but this text does not.\nCheck that this is the .pb file. If it is, write META on its first line, or get the whole file again.\n"
                };
                out.fill(form, &[Name(self.text.path)]);
                return false;
            }
            (ReadKind::UnknownProject, _) if self.known.witness.ids.left_out.len() > 0 => {
                put_record_number(out, self.text, u64::from(self.faulty.refusal.fault.at));
                out.put(
                    ": the vote names an id that no project has, or the id of a project whose row has a fault.",
                );
                self.put_count(out);
                out.put("\nCorrect the rows of the projects first.\n")
            }
            _ => put_unread(out, self.text, self.faulty.refusal.fault),
        }
        !matches!(
            self.faulty.refusal.fault.kind,
            ReadKind::ReadFailed | ReadKind::NoMemory
        )
    }

    /// Puts how many votes are refused for the same reason, where there are several.
    fn put_count(&self, out: &mut WordsWriter) {
        let found = self.known.cause_of(self.faulty.piece());
        let count = found.map_or(1, |found| found.votes.count);
        if count > 1 {
            out.fill(" {} votes are refused for this.", &[Number(count)]);
        }
    }
}

/// Puts what is said of a fault by itself.
fn put_unread<R: Files>(out: &mut WordsWriter, text: &Text<R>, fault: ReadFault) {
    let at = u64::from(fault.at);
    if fault.kind == ReadKind::ReadFailed && put_reading_failed(out, text, Some(at)) {
        return;
    }
    put_record_number(out, text, at);
    let (what, remedy) = words_of(fault.kind);
    out.fill(": {}.\n", &[Own(what)]);
    put_rule(out, remedy)
}
