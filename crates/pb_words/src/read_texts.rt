//! What is said of each fault of a .pb file, where no more is known: what is wrong, and on further lines what
//! to do. They are in the order in which `ReadKind` declares the faults.

/// What to do about a row that may be a note, in each text that has `{}` in its place.
pub const NOTE: &str =
    "Compare the number of rows with the number of ballots or projects. If rows are missing, get the whole table: a note may count pages or rows (`1 of 3`, `12 more`), or name a filter. If a note says which rows do not count, or what signs or amounts mean, ask before you go on. If this is only a heading, a total or a note, delete it.";

/// What to do about voters whose ids are those of projects.
pub const OWN_ROWS: &str =
    "The ids of votes may stand in rows of their own, each below its voter. Look at the ballots, and write these ids into the column `vote` of their voters. Don't delete or join rows before that.";

/// What to do about a row that may be of another table, in place of a second `{}`.
pub(crate) const OTHER_TABLE: &str =
    "If it begins another table, take all of that table out; if it has budgets of districts or the like, this program can't count the file.";

pub(crate) const RULES: [&str; 22] = [
    "the file could not be read to its end.
Check the disk or the connection, then run again.\n",
    "a field is not UTF-8 text.
Save the file again with the encoding UTF-8.\n",
    "this is row 2,000,001.
Delete rows that are not needed, such as empty ones: a file with more than 2,000,000 rows can't be \
    counted.\n",
    "a section is missing.
A .pb file has the sections META, PROJECTS and VOTES. Get the whole file again, or add what is missing.\n",
    "a section comes too early, or a second time.
The sections are META, PROJECTS and VOTES, in this order and each once. Correct the order. If a heading is \
    missing or misspelled, write it.\n",
    "a section has no row of column names.
Add the row of column names below the section's heading.\n",
    "a needed column is missing in the row of column names.
PROJECTS needs the columns `project_id` and `cost`; VOTES needs `voter_id` and `vote`.\n",
    "the row has no field for a needed column.
Find out what belongs there, and complete the row. If a voter chose nothing, leave the field empty, but keep its `;`. {}\n",
    "META has no row for `budget`, or none for `vote_type`.
Add the row that is missing: `budget;AMOUNT`, or `vote_type;approval` (only if the votes are approval \
    votes).\n",
    "the vote type is not `approval`.
If voters only tick projects, without ranks or points, write `vote_type;approval`. If not, this program \
    can't count the file.\n",
    "an amount is missing, or is not one that the program can read.
Find out the whole amount, and write it with digits only, like `1200` or `1200.50`: no currency, no minus sign, \
    nothing between thousands.\n",
    "an amount has more than two decimals.
If the point or comma separates thousands, delete it. If not, round the amount to two decimals.\n",
    "an amount is more than 10,000,000,000,000.00, the largest that the \
    program takes.
Check whether the amount has too many digits.\n",
    "a project's cost is 0, but every project must cost something.
If the amounts are in thousands, it may be rounded: get all of them again. If this budget would pay for the project, write the amount. If others pay, it is done in any case, or it was withdrawn, \
    delete its row, take its id out of the votes, and keep these ballots.\n",
    "an id is empty.
First compare a few rows with the original: a column may have slid down by one cell. Fill in the id only if the \
    row is a project or a ballot of its own. If it is a part of the row above, join them. {}\n",
    "an earlier row has the same project id.
Find out whether the rows are one project or two. Two projects need two ids, also in the votes (by \
    the ballots, since a vote for this id may mean either project, or both); if a program made \
    their ids the same (1.10 and 1.1), get both tables again. One project needs one row, with the cost that is valid, or the sum if the rows \
    are parts of it.\n",
    "an earlier row has the same voter id.
Find out whether the rows are one ballot, those of different people, or which of them is valid.\n",
    "the vote names an id that no project has.
If the project was withdrawn, take its id out of the votes. If not, ask whoever made the file which \
    project is meant.\n",
    "this is project row 10,001.
A file with more than 10,000 projects can't be counted.\n",
    "this is vote row 1,000,001.
A file with more than 1,000,000 voters can't be counted.\n",
    "memory ran out.
Run again on a machine with more memory.\n",
    "`max_length` is not a whole number in digits.
Write `max_length` in digits. If it means that there is no limit, leave its value empty.\n",
];
