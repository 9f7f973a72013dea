//! Words for a row with the id of an earlier one.

use crate::command_words::put_clean;
use crate::prelude::*;
use crate::read_rules::words_of;
use crate::read_texts::OWN_ROWS;
use crate::unknown_words::put_lines;
use pb_witness::known::Repeat;

/// What to do about rows with one project each, whose ids repeat.
const BY_PROJECT: &str =
    "Each row names one project, and ids repeat. Look at a ballot before you change anything. If each voter has a row for each project, `pb_clean {} -o NEW.pb --repeated-voters merge` makes one ballot of a voter's rows. If each row is a person (two lists put together; a ward, or a part of the id, in place of the id), `distinct` makes different voters.\n";

/// What to do about copies of voters' rows.
const COPIES: &str =
    "Such a row is the same as the earlier one. Count the ballots on paper. If one ballot came in twice, delete the copy. If these are different people (a flat, initials), give each an id. If the copy stands in place of another row, get that row.\n";

/// What to do about ids that a spreadsheet did not show.
const NARROW: &str =
    "A spreadsheet writes this where a column is too narrow. Get the ids again, from a wider column.\n";

impl<R: Files> Case<'_, R> {
    /// Puts on which line the id of a row is already, and what to do about it.
    pub(crate) fn put_repeated(&self, out: &mut WordsWriter) {
        self.put_column(out);
        out.fill(": the id {}", &[Quoted(self.faulty.id())]);
        match self.known.earlier(&self.faulty.refusal) {
            Some(mark) => out.fill(
                " is already on line {}.",
                &[Number(line_of(self.text, mark))],
            ),
            None => out.put(" is already in an earlier row."),
        }
        let repeat = self.known.repeat_of(self.text, self.faulty);
        let is_voter = self.faulty.kind() == ReadKind::RepeatedVoter;
        let all = self.known.witness.rows.rows_repeated;
        let rows = self.known.repeated_for(self.text, repeat);
        let is_one = !is_voter || rows.count < 2;
        if is_voter && all > 1 && repeat.is_shared() {
            out.fill(" {} rows repeat an id.", &[Number(all)]);
        } else if !is_one {
            out.fill(" {} rows repeat an id", &[Number(rows.count)]);
            put_lines(out, self.text, &rows);
        }
        out.put("\n");
        self.put_repeated_remedy(out, repeat, self.faulty.kind())
    }

    /// Whether voters' ids repeat in other rows than copies.
    fn repeats_otherwise(&self) -> bool {
        let reasons = [Repeat::Unknown, Repeat::Times];
        let is_voter = self.faulty.kind() == ReadKind::RepeatedVoter;
        let mut counts = reasons
            .iter()
            .map(|reason| self.known.repeated_for(self.text, *reason).count);
        is_voter && counts.any(|count| count > 0)
    }

    /// Puts between which ids copies stand in place of others, if they seem to.
    fn put_pasted_over(&self, out: &mut WordsWriter) {
        if let Some((above, below)) = self.known.pasted_over(self.text, self.faulty) {
            let place = self.faulty.places().0;
            out.fill(
                "Copies stand between {} and {}, where the ids between these should stand: rows may have been pasted over others. If so, get the lost rows from the ballots.\n",
                &[
                    Quoted(text_at(&above, place)),
                    Quoted(text_at(&below, place)),
                ],
            )
        }
    }

    /// Puts why rows with one project each are probably no rows of one voter, or not all of them votes.
    fn put_apart(&self, out: &mut WordsWriter) {
        out.put("Each row names one project, and ids repeat. ");
        let names = self.text.row_at(self.faulty.seen.names);
        if let (Some(place), Some(names)) = (self.known.again.varying, names) {
            return out.fill(
                "But the rows of a voter differ in column {}. Look at a ballot before you change anything: this column may say which rows are votes, or whose they are.\n",
                &[Quoted(text_at(&names, place))],
            );
        }
        out.put(if self.known.witness.rows.name_twice() {
            "But voters have two rows for one project"
        } else {
            "But the ids begin anew in a later row, as in two lists put together"
        });
        out.fill(
            ": so these may be rows of different people. Look at a ballot before you change anything. If they are, `pb_clean {} -o NEW.pb --repeated-voters distinct` makes different voters.\n",
            &[Name(self.text.path)],
        )
    }

    /// Puts what to do about a row with the id of an earlier one, for this reason.
    fn put_repeated_remedy(&self, out: &mut WordsWriter, repeat: Repeat, kind: ReadKind) {
        let is_voter = kind == ReadKind::RepeatedVoter;
        if self.faulty.id().starts_with("###") {
            return out.put(NARROW);
        }
        if is_voter
            && self.faulty.value().is_empty()
            && self.known.witness.ids.are_all(self.faulty.id())
        {
            return out.fill(
                "A project has this id, and the row has no vote. {}\n",
                &[Own(OWN_ROWS)],
            );
        }
        match repeat {
            Repeat::Apart => return self.put_apart(out),
            Repeat::Copy if self.repeats_otherwise() => out.put(
                "The rows are the same, but other ids repeat with other votes. What is true of those rows is probably true of these.\n",
            ),
            Repeat::Copy if is_voter => {
                self.put_pasted_over(out);
                out.put(COPIES)
            }
            Repeat::Unknown if is_voter && self.faulty.value().is_empty() => return out.put(
                "The later row has no vote: it may take the vote back, and then neither row counts. Ask whoever made the file. If it has no meaning, delete it.\n",
            ),
            Repeat::Unknown => out.put(words_of(kind).1),
            _ => out.fill(remedy_of(repeat, is_voter), &[Name(self.text.path)]),
        }
        match repeat {
            Repeat::OtherPeople | Repeat::OneId if !self.known.again.are_copies => {
                put_clean(out, self.text, " --repeated-voters distinct")
            }
            Repeat::Unknown if is_voter => out.fill(
                "`pb_clean {} -o NEW.pb --repeated-voters WORD` does one of these, once you know which: `merge` makes one ballot of the rows, `distinct` makes different voters, `first` or `last` keeps the row that stands first or last in the file.\n",
                &[Name(self.text.path)],
            ),
            _ => {}
        }
    }
}

/// What to do about a row with the id of an earlier one, for this reason, with the file's name in place of `{}`.
fn remedy_of(repeat: Repeat, is_voter: bool) -> &'static str {
    match repeat {
        Repeat::Conflict =>
            "The file has marks of a merge conflict, so these may be two versions of one row. Ask which is right, and keep that one alone.\n",
        Repeat::Shortened if is_voter =>
            "A spreadsheet shortened the ids, so no voter can be told from another. Get the ids of the voters again, as text.\n",
        Repeat::Shortened =>
            "A spreadsheet shortened the ids, so no project can be told from another. Get the ids again, as text, in the votes too.\n",
        Repeat::Nothing =>
            "Programs write this where a value is missing: these rows have no ids. Get the ids again, as text.\n",
        Repeat::ByProject => BY_PROJECT,
        Repeat::OtherPeople =>
            "META counts all rows (`num_votes`), so these may be different people whose ids were used twice. If they are, give each of them an id of its own.\n",
        Repeat::OneId =>
            "These rows have the same id. If they are different people, give each of them an id of its own.\n",
        Repeat::Times =>
            "The rows have different times. If a later vote replaces an earlier one, keep the later row. If not, find out whether they are one ballot, or those of different people.\n`pb_clean {} -o NEW.pb --repeated-voters WORD` does one of these, once you know which: `last` keeps the row of each voter that stands last in the file (see whether it is the later one), `merge` makes one ballot of the rows, `distinct` makes different voters.\n",
        Repeat::Copy =>
            "The two rows are the same. Compare PROJECTS with the office's list. If a project is missing, write it in place of one of them. If none is, delete one.\n",
        Repeat::Apart | Repeat::Unknown => "",
    }
}
