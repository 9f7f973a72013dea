//! What is said of each cause why a vote names an id that no project has, and what to do about it.

use crate::faulty_record::BY_COLUMN;
use crate::read_rules::words_of;
use pb_read::ReadKind;
use pb_seen::changed::Difference;
use pb_seen::changed::Difference::{Hidden, Zeros};
use pb_witness::cause::Cause;

pub(crate) const LATE_PROJECT: &str =
    "This row looks like a project. If it is one, move it above the heading VOTES. If not, ask whoever made the file.\n";

pub(crate) const NAMES_AGAIN: &str = "If this line has the column names again, delete it.\n";

/// What to do about rows of VOTES whose ids are those of projects.
pub(crate) const NAMES: &str =
    "Votes have names of projects in place of ids. Write the ids, with `,` between them. A name may have a comma in it.\n";

pub(crate) const LISTED: &str =
    "This row and one beside it have ids of projects in place of voters: they may be a list or a tally, and no votes. If so, delete all of its rows. If not, ask whoever made the file what is meant.\n";

/// What to do about an id with a character that no id of a project has.
pub(crate) const ODD_LETTER: &str =
    "This contains {}, which no id in PROJECTS contains. It may be another kind of dash or letter, a code for a missing value, or what a program put there, as € for `(e)`. Compare the id with those. Ask whoever made the file what it means.\n";

/// What to do about a letter of another alphabet that may look like one of the ids'; and one that is written in two ways.
pub(crate) const OF_OTHER_ALPHABET: &str =
    "This contains {}, a letter of another alphabet, which may look like one of the ids in PROJECTS. Compare the id with those by eye. If it looks like one of them, and the ballot has it, write that one. If not, ask whoever made the file what it means.\n";

pub(crate) const WRITTEN_TWICE: &str =
    "This contains {}, which no id in PROJECTS contains. A letter such as \u{e4} can be one character, or an a and a mark, and looks the same. Compare the id with those in PROJECTS by eye. If it looks like one of them, and the ballot has it, write that one. If not, ask whoever made the file what it means.\n";

/// What to do about a letter of another alphabet, where the ids are letters.
pub(crate) const OTHER_ALPHABET: &str =
    "Ballots may have the letters of another alphabet in its own order (\u{410}, \u{411}, \u{412} for A, B, C): then \u{412}, which looks like B, is the third. Ask which project each letter is.\n";

/// What to do about an unknown number above those of all projects.
pub(crate) const RENUMBERED: &str =
    "First find out whether the list was numbered anew after people had voted: then votes with older numbers name wrong projects too, though no program sees it. If so, correct all older votes by the list that these voters had. If not, and the project was withdrawn, take its id out of the votes. If neither, ask whoever made the file which project is meant.\n";

/// What to do about an id whose number comes next to that in the vote above.
pub(crate) const COUNTED_ON: &str =
    "But for this number, which is the next one, the vote on the line above is the same. A cell may have been copied downwards, and a spreadsheet counted on: then the votes above this one are wrong too, from the second of them on. Compare all of them with the ballots, and look for other rows that go on so. If all are right, ask whoever made the file which project is meant.\n";

/// What to do about a word beside ids.
pub(crate) const WORD_BESIDE: &str =
    "This seems to be a word, beside ids. Look at the ballot, and write all ids that are meant. Keep the row: its other ids are votes. If the ballot can't be read there, or the word says something else, ask whoever made the file.\n";

/// What is said first of a letter that may be a scanner's sign for a number.
pub(crate) const FOR_A_BOX: &str =
    "It may stand for {}: a scanner may write one sign for a box, A for 10, B for 11. Look at some ballots. If it does, write the numbers in all votes. If not:\n";

/// What is said first where several votes are one text beside an id.
pub(crate) const EXAMPLE: &str =
    "The first three of these votes are one text. If it is the form's example, which voters left as it was, leave all fields with it empty. If not:\n";

/// What is said where a program may have written a word in place of the vote.
pub(crate) const TRIAL: &str =
    "A trial version of a program may have written this in place of the vote. Get the table again, by the whole program.\n";

/// What is said first where a key may have given a digit twice, and another project's id may have come so too.
pub(crate) const TWICE: &str =
    "If a key gave the digit twice, {} may stand for {} in other votes: compare all votes for {} with the ballots. If not:\n";

/// What is said where a web form may have sent the vote.
pub(crate) const WEB_FORM: &str =
    "A web form sends this for a ticked box that has no value: these voters chose something. Get the votes again.\n";

/// What is said where each vote is 1 or 0.
pub(crate) const TURNOUT: &str =
    "Each vote is 1 or 0: this may be a list of who has voted, and has no votes. Get the ballots.\n";

/// What is said first of a number that may have a 1 too many before it.
pub(crate) const ONE_BEFORE: &str =
    "If a 1 too many stands before it (a scanner may read the line of a table so), other votes have it too, also where their ids are known: compare all votes of this list with the ballots. If not:\n";

/// What is said where a program may have read a project's id as another word.
pub(crate) const READ_AS: &str =
    "This may be the id of the project {} on line {}: some programs read `NO` as `false`, `YES` as `true`, and `NA` as `nan`. If so, write the id in PROJECTS as the votes have it, also in votes that name it as PROJECTS does. If not, look at the ballot, and ask whoever made the file before you take anything out.\n";

/// What is said first where several ids are unknown.
pub(crate) const PART: &str =
    "Compare PROJECTS with the list on which people voted: PROJECTS may be only a part of it (the winners, a page, a district). If projects are missing, get the whole list. ";

/// When alone unknown ids are to be taken out, where they are several, or perhaps numbers of an older list.
pub(crate) const ALL_WITHDRAWN: &str = " Use it only if all of these projects were withdrawn.";

pub(crate) const NOT_RENUMBERED: &str =
    " Use it only if the project was withdrawn, and the list was not numbered anew.";

/// What is said first of the last row.
pub(crate) const LAST_ROW: &str =
    "This is the last row of the file. If the file is cut off, get the whole file again. {} If it is a vote:\n";

/// Whether a text ends in a code of a web page without its `;`.
pub(crate) fn is_cut_code(text: &str) -> bool {
    match text.rsplit_once('&') {
        Some((_, code)) => matches!(code, "amp" | "lt" | "gt" | "quot" | "nbsp")
            || code.starts_with('#'),
        None => false,
    }
}

/// What is said where an id is unknown, with the id and the line of what the cause is about in place of `{}`.
pub(crate) fn what_of(cause: Cause) -> &'static str {
    match cause {
        Cause::LeftOut =>
            ": the row of project {} on line {} has a fault, so this vote can't be accepted.",
        Cause::NoProjects => ": PROJECTS has no projects, so no vote can name one.",
        Cause::Quotes => ": a quotation mark is beside an id, and is read as part of it.",
        Cause::Alike(Hidden, false) => ": an invisible character is in or beside the id {}.",
        Cause::Alike(Hidden, true) =>
            ": an invisible character is in the id, and votes name the project as {}.",
        Cause::Alike(_, true) => ": votes name this project as {}.",
        Cause::ChangedProject =>
            ": a spreadsheet seems to have changed this id, and votes name ids that no project has, such as {}.",
        _ => ": no project has the id {}.",
    }
}

/// What to do about it, with the id and the line of the project that the cause is about in place of `{}`.
pub(crate) fn remedy_of(cause: Cause) -> &'static str {
    match cause {
        Cause::LeftOut => "Correct that line first. The votes for this project may be right.\n",
        Cause::NoProjects => "Get the whole file again: its projects are missing.\n",
        Cause::Cut =>
            "The project on line {} has a comma in its id, but commas separate the ids of a vote. Give this project another id, and write it in the votes.\n",
        Cause::PointZero =>
            "Some programs write `5.0` for 5. Write the id as PROJECTS has it, without the point and the zero.\n",
        Cause::Decimal =>
            "A spreadsheet may have read ids with a comma between them as one number: `1,10` as 1.1. Get the votes again, as text.\n",
        Cause::Shortened =>
            "A spreadsheet shortened the id, and nobody can tell from it which project is meant. Get the votes again, as text.\n",
        Cause::Date =>
            "A spreadsheet may have made a date of the id. Get the votes again, as text.\n",
        Cause::Nothing =>
            "Programs write this where a value is missing. Look for the ballot (of a vote on the web: what the voter sent). If nobody voted there, as in a list of all voters, the row is no vote: take it out. If the voter approves no project, leave the field empty.\n",
        Cause::Beside =>
            "Programs write this where a value is missing: to fill up a vote, or for a name that they did not find. Look at the ballot. If no id is missing there, take it out of the vote.\n",
        Cause::Places =>
            "This is beside other ids. Look at the ballot. If the votes name places in the list of projects, counted from 0, or this is the rest of a longer id, get them again, with the ids of the projects. If 0 fills up a vote for fewer projects, take it out.\n",
        Cause::Columns => BY_COLUMN,
        Cause::Alike(difference, is_project) => alike_remedy(difference, is_project),
        Cause::Name =>
            "This is the name of project {} on line {}, or a part of it. If it is meant, write its id in the vote.\n",
        Cause::Mentioned =>
            "The name of project {} on line {} mentions this id, so the vote may be meant for that project. Ask whoever made the file.\n",
        Cause::OtherForm =>
            "No id in PROJECTS has this form. Ask whoever made the file what it means.\n",
        Cause::More =>
            "This is an id with something beside it. Find out what the voter chose (look at the ballot, or ask whoever made the file), and write these ids, with `,` between them. Points, ranks and marks against a project (as `-` may be) are no approvals: this program can't count them.\n",
        Cause::ChangedProject => "Get the projects again, with their ids as text.\n",
        Cause::Several =>
            "Several projects have almost this id, or this name. Ask whoever made the file which of them is meant.\n",
        Cause::Begun =>
            "The id {} on line {} has this one in it, and others may. Ask whoever made the file which project is meant.\n",
        Cause::Unknown | Cause::Near => words_of(ReadKind::UnknownProject).1,
        cause => list_remedy(cause),
    }
}

/// What to do about ids that are no list of ids with commas between them.
fn list_remedy(cause: Cause) -> &'static str {
    match cause {
        Cause::Word =>
            "This seems to be a word in place of an id. Look for the ballot (of a vote on the web: what the voter sent). If nobody voted there, the row is no vote: take it out. If nothing was chosen there, delete the word, and keep the row. If the ballot can't be read, or the word says something else, ask whoever made the file.\n",
        Cause::OtherElection =>
            "No vote of the file names a project. PROJECTS and VOTES may be of two elections, or the ids of one of them were changed. Get the whole file again.\n",
        Cause::Range =>
            "This may be a range of ids, several ids, one in place of another, or an id with points, which this program can't count. Look at the voter's ballot, and write all ids that are meant, with `,` between them.\n",
        Cause::Joined =>
            "A word stands between the ids. It may say `and`, `or`, `to` or `not`. Look at the voter's ballot, or ask whoever made the file.\n",
        Cause::CutOff =>
            "This seems to be cut off, as programs show long texts, and what is left may be a part of an id. Get the votes again, whole.\n",
        Cause::Kept =>
            "The project {} on line {} differs only by zeros before a number, but other votes have these zeros, so a program may have made this id out of another one. Look at a ballot, or get the votes again, as text. If it is meant, write its id in the vote.\n",
        Cause::NamesAgain => NAMES_AGAIN,
        Cause::OnLines => "The ids are on lines of their own: write `,` between them.\n",
        Cause::TwoLines =>
            "A line end stands in the vote. It may part two ballots, or an old vote and a new one, or break an id, or begin a note. Look at the voter's ballot, and write all ids that are meant, with `,` between them. If a note says that the vote is not valid, delete the row.\n",
        Cause::Blanks =>
            "The vote has spaces between the ids. Look at a ballot: if these are several ids, write `,` between them; if the space is within one id, take it out.\n",
        Cause::Bars =>
            "The vote has `|` between the ids. Look at a ballot: if these are several ids that the voter approves, write `,` between them. Points, ranks and substitutes are no approvals.\n",
        Cause::Marks =>
            "The vote has another character between the ids. Look at a ballot: if these are several ids that the voter approves, write `,` between them. Points, ranks and substitutes are no approvals.\n",
        Cause::Together =>
            "If these are several ids whose commas are lost, get the votes again, as text. If one id was struck out for another, look at the voter's ballot. If it is the id of a project that was withdrawn, take it out of the votes. If none of this, ask whoever made the file which project is meant.\n",
        Cause::Quotes =>
            "If only some votes of several ids have quotation marks, look at these ballots first: somebody may have marked them. If not, delete all quotation marks in the vote.\n",
        cause => bracket_remedy(cause),
    }
}

/// What to do about decimals, ids that are shifted, and brackets around ids.
fn bracket_remedy(cause: Cause) -> &'static str {
    match cause {
        Cause::Shifted =>
            "The votes may have other ids than PROJECTS: rows or places of a list (then each vote is wrong), ids of an older list, before it was numbered anew, a series that a spreadsheet continued, sums of ids, as a pivot table makes them, or ids that were joined where a text between them was replaced. Compare some votes with the ballots, also those of known ids, and the list on the ballots with PROJECTS. If anything differs, get the votes again, with the ids of PROJECTS. If all is the same, and the project was withdrawn, take its id out of the votes. If it was not, ask whoever made the file.\n",
        Cause::Formula =>
            "A spreadsheet writes this where a formula is wrong. Get the votes again.\n",
        Cause::Subject =>
            "This is the subject of an e-mail, in codes. Look at the e-mail itself, and write the ids that are meant, with `,` between them.\n",
        Cause::EmptyList =>
            "Programs write an empty list so. If the voter approves no project, leave the field empty.\n",
        Cause::Brackets =>
            "Brackets are around the ids, as programs write lists. Write only the ids, with `,` between them.\n",
        Cause::SomeInBrackets =>
            "Brackets are around the vote, but not around all votes, so they may mean that it does not count. Look at the ballot, and ask whoever made the file what they mean.\n",
        Cause::OneInBrackets =>
            "Brackets are around an id, but not around the whole vote. Ask whoever made the file whether the voter approves the project.\n",
        _ => "",
    }
}

/// What to do about an id that is alike the id of a project, in the vote or in PROJECTS.
fn alike_remedy(difference: Difference, is_project: bool) -> &'static str {
    match (difference, is_project) {
        (Hidden, _) => "Delete it, or type the id anew.\n",
        (Zeros, true) =>
            "A spreadsheet may have taken zeros away in PROJECTS. If so, write the ids there as the votes have them, or get the projects again, as text.\n",
        (_, true) =>
            "Some programs write `5.0` for 5, or `'5` for a text. Write the ids in PROJECTS as the votes have them.\n",
        (_, false) => "",
    }
}

/// How an id differs from that of a project.
pub(crate) fn difference(difference: Difference) -> &'static str {
    match difference {
        Difference::PointZero => "differs only by `.0` at its end",
        Difference::Spaces => "differs only by spaces",
        Difference::Marks => "differs only by a mark beside it",
        Difference::Case => "differs only by capital and small letters",
        Difference::Letters => "differs only by letters that look like digits, such as O and 0",
        Difference::Front =>
            "has letters before this number, which may also be a place on the ballot paper, or how many projects are chosen. Look at a ballot first",
        Difference::Zeros =>
            "differs only by zeros before a number, which a spreadsheet takes away",
        Difference::Hidden => "",
    }
}
