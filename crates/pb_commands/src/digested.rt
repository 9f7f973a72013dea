//! The digests of what was read, and by which rule it was counted, above a report.

ghost use Rattle.std.specs.Prelude.{◌≡◌, ◌++◌, ◌∷◌, ◌⊎◌, ℕ, [], IfErr, IfOk, OnOk, codes, take};
ghost use Rattle.std.specs.Io.KnownBytes.{Appends};
ghost use Rattle.std.specs.Option.{option_map_or};
ghost use Rattle.pb_faults.specs.declared.fault.AppFault.TheVariants.{Memory, Write};
ghost use Rattle.pb_commands.specs.Decided.{names_of};
ghost use Rattle.pb_rows.specs.Writing.{text_of_row};

use crate::decided_name::{CountedBy, put_names};
use pb_core::no_memory::NoMemory;
use pb_faults::{AppFault, write_out};
use pb_rows::RowsWriter;
use std::alloc::Global;
use std::io::Write;

/// The SHA-256 of a .pb file, and of a journal if one was read, in digits of hexadecimal.
#[derive(Clone, Copy)]
pub struct Digests<'a> {
    pub file: &'a str,
    pub journal: Option<&'a str>,
}

/// Writes a row for each digest, then where there is a rule by which the report counted a row with its name, and
/// below them the report, as one text.
pub fn write_digested<W: Write>(
    alloc: Global,
    digests: &Digests<'_>,
    counted_by: Option<&CountedBy>,
    report: &[u8],
    writer: &mut W,
) -> Result<(), AppFault>
    // The text goes out whole; where the writer fails, its front.
    ensures written { let text = text_of_row (codes "digest" ∷ codes "file" ∷ codes "sha256" ∷ digests.now.file.now ∷ [])
        ++ (option_map_or (λ journal.
        text_of_row (codes "digest" ∷ codes "journal" ∷ codes "sha256" ∷ journal.now ∷ []))
        digests.now.journal []
        ++ (option_map_or (λ by.
        text_of_row (codes "rule" ∷ names_of by.now.rule.now by.now.decide)) counted_by.entry []
        ++ report.now)) in
        OnOk result (Appends (W.contents writer.old) (W.contents writer.new) text)
        × IfErr result (λ fault. fault ≡ Write → (n : ℕ)
        × Appends (W.contents writer.old) (W.contents writer.new) (take n text)) }
    ensures fault { IfErr result (λ fault. (fault ≡ Write) ⊎ (fault ≡ Memory) × (writer.new ≡ writer.old)) }
{
    let text = digested_text(alloc, digests, counted_by, report)?;
    write_out(writer, text.as_slice(), AppFault::Write)
}

/// The rows of the digests and of the rule, and below them the report.
fn digested_text(
    alloc: Global,
    digests: &Digests<'_>,
    counted_by: Option<&CountedBy>,
    report: &[u8],
) -> Result<Vec<u8>, NoMemory>
    ensures { IfOk result (λ text. text.items
        ≡ text_of_row (codes "digest" ∷ codes "file" ∷ codes "sha256" ∷ digests.now.file.now ∷ [])
        ++ (option_map_or (λ journal.
        text_of_row (codes "digest" ∷ codes "journal" ∷ codes "sha256" ∷ journal.now ∷ []))
        digests.now.journal []
        ++ (option_map_or (λ by.
        text_of_row (codes "rule" ∷ names_of by.now.rule.now by.now.decide)) counted_by.entry []
        ++ report.now))) }
{
    let mut rows = RowsWriter::start(alloc);
    rows.put_row(&["digest", "file", "sha256", digests.file])?;
    if let Some(journal) = digests.journal {
        rows.put_row(&["digest", "journal", "sha256", journal])?;
    }
    put_counted_by(alloc, &mut rows, counted_by)?;
    let mut text = rows.finish()?;
    text.extend_from_slice(report)?;
    Ok(text)
}

/// Puts a row that names this rule, if there is one.
fn put_counted_by(
    alloc: Global,
    rows: &mut RowsWriter,
    counted_by: Option<&CountedBy>,
) -> Result<(), NoMemory>
    ensures { OnOk result (rows.new.text ≡ rows.old.text
        ++ (option_map_or (λ by.
        text_of_row (codes "rule" ∷ names_of by.now.rule.now by.now.decide)) counted_by.entry [])) }
{
    match counted_by {
        Some(by) => put_names(alloc, rows, by),
        None => Ok(()),
    }
}
