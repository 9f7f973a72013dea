//! Words for an exported file: what it lacks, and why there is none.

use crate::prelude::*;
use pb_witness::unwritable::{project_with_comma, voter_like_a_heading};

/// The keys of META that Pabulib asks for, beside those that each exported file has.
pub const ASKED_FOR: [&str; 6] = [
    "description",
    "country",
    "unit",
    "instance",
    "date_begin",
    "date_end",
];

/// Words where the file with this path lacks some of these keys, and so does the exported file; no path is
/// standard input.
pub fn lacking_words(alloc: Global, path: Option<&str>, lacking: &[bool; 6]) -> Said {
    let mut out = WordsWriter::new(alloc);
    let mut before = "";
    for place in 0..6usize {
        if lacking[place] {
            if before.is_empty() {
                out.fill("{}: META lacks what Pabulib asks for: ", &[Name(path)]);
            }
            out.fill("{}`{}`", &[Own(before), Own(ASKED_FOR[place])]);
            before = ", ";
        }
    }
    if !before.is_empty() {
        out.put(
            ".\nThe exported file lacks it too. Add it before you publish the file at Pabulib.\n",
        );
    }
    out.finish()
}

/// Words for an election with a section's name as an id, whose ballots are those of this .pb file, or of a
/// journal.
pub fn heading_words<R: Files>(
    rt: &R,
    alloc: Global,
    file: Option<&str>,
    journal: Option<&str>,
) -> Said {
    match voter_like_a_heading(&Text::new(rt, alloc, journal))? {
        Some(voter) => said(
            alloc,
            "{}: the voter {} can't be written into a .pb file, because this id is a heading there.\nGive this voter another id in copies of the file and the journal (tools/replace_ids.py does it), and export these.\n",
            &[Name(journal), Quoted(voter.as_str())],
        ),
        None => said(
            alloc,
            "{}: the id of a voter or a project is META, PROJECTS or VOTES. It can't be written into a .pb file, because it is a heading there.\nGive the voter or project another id in a copy of the file, and export this.\n",
            &[Name(file)],
        ),
    }
}

/// Words for an election with a vote for a project whose id has a comma; whether its ballots are those of a
/// journal.
pub fn comma_words<R: Files>(rt: &R, alloc: Global, file: Option<&str>, has_journal: bool) -> Said {
    let mut out = WordsWriter::new(alloc);
    let project = project_with_comma(&Text::new(rt, alloc, file))?;
    out.fill("{}: a ballot names ", &[Name(file)]);
    match &project {
        Some(id) => out.fill("the project {}", &[Quoted(id.as_str())]),
        None => out.put("a project whose id has a comma"),
    }
    out.put(
        ", but in a .pb file commas separate the ids of a vote.\nGive this project another id in a copy of the .pb file, and run again with that copy",
    );
    out.put(if has_journal {
        " and with `--other-file`.\n"
    } else {
        ".\n"
    });
    out.finish()
}
