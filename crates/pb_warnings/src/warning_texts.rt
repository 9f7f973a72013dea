//! What is said of each kind of warning, in the order in which `Oddity` declares them: a text for each form
//! of it. A text has three lines: what is odd, with what is known of the row in place of names in braces; the
//! same where the row can't be read again, unless it is equal; and what to do. They are in three tables, since a proof
//! that reads one takes steps for each letter of it.

use crate::later_texts::later_forms;
use crate::shared_texts::{
    A_RANGE, ALL_PROJECTS, CORRECTED_ROW, CUT_AT_A_LENGTH, CUT_THOUSANDS, IDS_AS_VOTER,
    IN_THOUSANDS, NO_NUMBER, ONE_FIELD, OTHER_VERSION, OUT_OF_ORDER, STRAY_ID, STRAY_VOTE,
    SUBTOTAL, SUM_BEHIND, TOO_CHEAP, TOO_COSTLY, TOO_FEW_ROWS, TOO_LONG, TOO_MANY_ROWS, TOO_SHORT,
    TWO_NUMBERS,
};
use pb_read::Oddity;

/// What to do about three digits behind a mark where other amounts have decimals.
pub(crate) const BESIDE_DECIMALS: &str =
    "Other amounts have decimals. If the point or comma separates thousands here, \
    delete it where three digits follow it, and nowhere else. Otherwise write two decimals.\n";

/// How many kinds come first in `Oddity`.
const FIRST_KINDS: usize = 14;

/// How many these and those behind them are.
const MIDDLE_END: usize = 19;

/// What is said of these.
const FIRST: [&[&str]; 14] = [
    &[
        TOO_FEW_ROWS,
        TOO_MANY_ROWS,
        NO_NUMBER,
        "only this last vote ends behind a comma, so the file may be cut off
only the last vote ends behind a comma, so the file may be cut off
If it is, get the whole file again. If not, delete the comma.",
        "this last row stands where a spreadsheet's sheet ends, so votes may be missing
the last row stands where a spreadsheet's sheet ends, so votes may be missing
A sheet ends after 65,536 or 1,048,576 rows, and what stands below is lost. If votes are missing, get the whole file again. If \
    you know that none is, write their number into META, as `num_votes`.",
        "none of the {number} rows of VOTES names a project
Compare the column `vote` with the ballots: the votes may stand in another column, or in rows of their own. If they do, \
    write them there, or get the votes again.",
        "none of the {number} rows of VOTES names a project, and {limit} voters have ids of projects
{own_rows}",
        "all {number} votes that are not empty name one and the same project, and no other
This may be a list of who has voted, in which 1 stands for yes. Look at some ballots. If they differ, get all votes again, from \
    the ballots. If all voters chose this project alone, nothing is wrong.",
        CUT_AT_A_LENGTH,
    ],
    &[TOO_FEW_ROWS, TOO_MANY_ROWS, NO_NUMBER],
    &[
        "only {value} is counted. The row has {fields} fields, but the number of column names is {number}; behind them stands {beyond}
the row has too many fields: the number of column names is {number}
Look at some ballots first. If a field before the vote is too many, such as a number of the row, delete it, with its \
    `;`. If `;` is between the ids of the vote, write `,` instead: only the ids before the first `;` are counted. If two rows \
    became one because a line end was lost, make two of it again: the last id before the second vote may end with that voter's.",
        "the row has a third field, {value}, which is ignored
a row of META has a third field, which is ignored
If a `;` has cut the amount, write it in one field. If the amount there is the right one, write it into the second field, and delete the third.",
        "only {value} is counted. The row has {fields} fields, but the number of column names is {number}; behind them stands {beyond}
the row has too many fields: the number of column names is {number}
Look at some ballots first. If a field before the vote is too many, such as a number of the row, delete it, with its \
    `;`. If the last field says that the vote \
    is not valid, take the row out. If `;` is between the ids of the vote, write `,` instead. \
    If names of projects stand there, write the ids of all of them into the vote, with `,` between them. If two rows \
    became one because a line end was lost, make two of it again: the last id before the second vote may end with that voter's.",
    ],
    &[TOO_LONG, TOO_COSTLY],
    &[TOO_SHORT, STRAY_VOTE, TOO_CHEAP, STRAY_ID],
    &[
        "the ballot is empty
It is counted, and by equal shares its voter gets a share of the budget. See what other warnings say of the row, and look \
    at the ballot. If it names projects, write their ids. If an empty field means the vote above, or programs read an id such \
    as `NA` as nothing, get the votes again. If there is no such ballot (the row was prepared for a voter who did not come), or \
    it is empty and your rules do not allow that, delete the row.",
        STRAY_VOTE,
        STRAY_ID,
        STRAY_ID,
    ],
    &[
        "no vote names this project
no vote names the project
Check whether votes for it are missing, or whether votes name it by another id.",
    ],
    &[
        "{value} is more than the budget, so the project can't win
the project costs more than the budget, so it can't win
Check whether the amount has too many digits, is two amounts one behind the other, or is in another unit (cents, for example).",
    ],
    &[
        "the id has a comma, so no vote can name the project
the project's id has a comma, so no vote can name it
Give the project another id.",
        "the id has a comma, and its parts are ids of other projects: votes for it count for these
a project's id has a comma, and its parts are ids of other projects: votes for it count for these
Give the project another id. Find out by the ballots which votes are meant for it, and write that id there.",
        "a spreadsheet shortened the id
a spreadsheet shortened a project's id
Get the ids again, as text, in the votes too.",
    ],
    &[
        "{value} is read as {amount}, because a point or a comma begins the decimals
the three digits after an amount's point or comma are read as decimals
If the point or comma separates thousands, delete it in all amounts, or run `pb_clean {file} -o NEW.pb --marks \
    thousands`. Otherwise write two decimals.",
        CUT_THOUSANDS,
        IN_THOUSANDS,
    ],
    &[
        "this value, {value}, is used, and the one on line {line} is ignored
a key is repeated; only the last row of a key counts
The last row of a key counts. Find out which is right, and delete the other. If both are parts of one budget, write their sum.",
        "its id differs from that on line {line} only by zeros, points, spaces or capital letters; cost and name are the same
two projects have ids that differ only by zeros, points, spaces or capital letters, with the same cost and name
If they are one project, delete one row, and write the id of the other in all votes. If not, give them different \
    names.",
        "the key is ignored. It may be `max_length` or `min_length`, misspelled
a key of META is ignored. It may be `max_length` or `min_length`, misspelled
If so, correct the key. If not, give it another name.",
        "no vote names it, and it has the name of the project on line {line}
no vote names a project, and it has the name of another one
A lookup by name finds only one of the two. Compare votes for the other one with the ballots. If they differ, get the votes \
    again. If not, write in both names how the projects differ.",
        "no vote names it alone, and a spreadsheet turns its id into {short}, which is another project's
no vote names a project alone, and a spreadsheet turns its id into that of another project
Check whether votes for that project are meant for this one. If so, get the votes again, as text.",
        "{value} is ignored: the key for the most projects of a ballot is `max_length`. This concerns {ballots}
a key of META is ignored: the key for the most projects of a ballot is `max_length`. This concerns {ballots}
If it is the most projects that a ballot may name, call the key `max_length`, and do with these ballots what your rules say.",
        "{value} stands below `budget`, without a key, and is ignored
an amount stands below `budget`, without a key, and is ignored
If both are parts of one budget, write their sum as `budget`, and delete this row. If not, ask what it is: then give it a \
    key of its own, or delete it.",
        "{value} is ignored: only the amount of the key `budget` is counted
an amount that may be a later budget is ignored: only that of the key `budget` is counted
Compare both with the decision on this vote. If this one is right, write it as `budget`. If not, nothing is wrong, and you \
    can delete this row.",
        "it has the name and the cost of the project on line {line}, and votes name both
a project has the name and the cost of another one, and votes name both
If they are one project, delete one row, and write the id of the other in all votes: once where a vote names both. If \
    they are two, write in both names how they differ.",
        ONE_FIELD,
        OTHER_VERSION,
    ],
    &[
        "its cost, {value}, is the sum of all costs above
a cost is the sum of all costs above
It is counted as a project. If it is one, compare its cost with the office's list. If it is a total, and no vote names it, delete the row.",
        "this last row is the only one with an empty vote
the last row is the only one with an empty vote
It is counted as a voter. {note}",
        "its cost, {value}, is the sum of all other costs
the cost in the first row of PROJECTS is the sum of all other costs
It is counted as a project. If it is one, compare its cost with the office's list. If it is a total, and no vote names it, delete the row.",
        "the id of this last row looks like a total or a note, but its vote names a project
the id of the last row looks like a total or a note, but its vote names a project
It is counted as a voter. {note}",
        "its id looks like a total, and no vote names it
the id in the last row of PROJECTS looks like a total, and no vote names it
It is counted as a project. If it is a total, delete the row. If not, give it another id.",
        "its id is a key of META, which is not read here: the row is counted as any other
the id of a row is a key of META, which is not read here: the row is counted as any other
If the row is meant for META, move it there. If not, give it another id.",
        "its cost, {value}, is at most a hundredth of every other cost. This concerns {projects}
a cost is at most a hundredth of every other cost. This concerns {projects}
It is counted as a project. If it is one, find out its cost: it may be in thousands, or stand there until the right one is known. If \
    it is an answer such as `none of these`, delete its row, take its id out of the votes, and keep these ballots. If it is a note \
    that no vote names, read it, then delete it. If the cost is right, nothing is wrong.",
        "its cost, {value}, is the sum of the projects above, and no vote names it
a cost is the sum of the projects above, and no vote names the project
It is counted as a project. It may be a sum that was carried forward to the next page: if so, delete the row. If it is a project, \
    compare its cost with the office's list.",
        "its cost, {value}, is 1 more than the cost above, and so is each of the next ones
a cost is 1 more than the cost above, and so is each of the next ones
A cell may have been copied downwards, and a spreadsheet counted on. Compare the costs with the office's list.",
        "its name is that of an answer for none of the projects
a project's name is that of an answer for none of the projects
It is counted as a project, and wins money if enough voters chose it. If it is no project, delete its row, take its id out of the \
    votes, and keep these ballots. If it is one, nothing is wrong.",
        "its name is that of a test, or stands for a name
a project's name is that of a test, or stands for a name
It is counted as a project. If it is a test, delete its row, take its id out of the votes, and keep these ballots. If it is a \
    project, write its name.",
        SUM_BEHIND,
        ALL_PROJECTS,
    ],
    &[
        "the column `votes` says {value}, but the number of vote rows that name the project is {number}
the column `votes` is wrong: the number of vote rows that name the project is {number}
If rows are missing, get the whole file again. If ids in the votes may have been changed or exchanged, get the votes \
    again. Correct the number only if you know that every row is here, and that the ids of the votes are those of the \
    projects.",
        "the number of ballots for it is {number}, and `min_project_score_threshold` asks for {limit}. The key is ignored
a project has fewer ballots than `min_project_score_threshold` asks for. The key is ignored
If your rules do not allow the project to win, take its row out, and its id out of the votes.",
        "the column `votes` says {value}, but the number of vote rows that name the project is {number}. The sum of all is right
the column `votes` is wrong: the number of vote rows that name the project is {number}. The sum of all is right
The ids in the votes may have been changed. Get the votes again, and don't correct the numbers before that.",
    ],
    &[
        "the column `selected` says {value}, but by this count it is {number}
the column `selected` is wrong: by this count it is {number}
Check whether the published count had other options, and whether ballots or costs were changed since.",
    ],
];

/// What is said of those behind them.
const MIDDLE: [&[&str]; 5] = [
    &[
        "{value} is less than every cost, so no project can win
the budget is less than every cost, so no project can win
Check whether the budget lacks digits, or is in another unit than the costs (thousands, for example).",
        "{value} is less than most costs, so most projects can't win
the budget is less than most costs, so most projects can't win
Check whether the budget lacks digits, or is in another unit than the costs (thousands, for example).",
    ],
    &[
        "the last {number} rows, from here on, have no vote; every row above has one
the last {number} rows have no vote; every row above has one
They are counted as voters. {note}",
        "the vote is empty, and the id looks like a note. This concerns {rows}
It is counted as a voter. {note}",
        "the id begins with a sign by which programs leave rows out. This concerns {rows}
It is counted as a voter. Ask what the sign means. If the row should be left out, delete it. If not, write the id without the sign.",
        "the ids of the last {number} rows are those of all projects
They are counted as voters. If these rows are a list of the projects or a tally, delete them.",
        "the end of VOTES, {rows} from here on, has no vote, and nothing in column {column}; every row above has something there
the end of VOTES, {rows}, has no vote, and nothing in a column that every row above fills
Each of these is counted as a voter. Look for its ballot. If there is none, as where ids were only prepared, delete its row.",
        "but for their ids, {rows} from here on are those from line {line} on, in the same order
but for their ids, {rows} are earlier ones again, in the same order
A stack of ballots may have been scanned or typed twice. Count the ballots on paper. If these are too many, delete the later \
    rows of the two. If not, keep all.",
        "the id is another row's with a word behind it, and both have the same vote. This concerns {rows}
an id is another row's with a word behind it, and both have the same vote. This concerns {rows}
Both are counted as voters. Ask what the word means. If it cancels the other row, delete both, and keep a row with the voter's \
    new vote, if there is one. If it marks a copy, delete the copy. If these are two people, keep both.",
        "each second row is without a vote, from this one on. This concerns {rows}
each second row is without a vote. This concerns {rows}
They are counted as voters. Look at some ballots. If these rows are the back sides of the ballots, delete each second \
    row, from this one on, and no other, even if it has no vote either. If not, keep all.",
        "the id, {value}, has only signs
an id has only signs
It is counted as a voter. Such signs may say of rows that they do not count, as `/*` and `*/` of all rows between them. Ask. If \
    so, delete these rows and the signs. If not, find out whether this row is a voter.",
        "but for their ids, {rows} from here on are those from line {line} upwards, in the opposite order
but for their ids, {rows} are earlier ones again, in the opposite order
A stack of ballots may have been scanned or typed again, from the bottom. Count the ballots on paper. If these are too many, \
    delete the later rows of the two. If not, keep all.",
        "the id stands in brackets, and other ids have none. This concerns {rows}
an id stands in brackets, and other ids have none. This concerns {rows}
It is counted as a voter. Ask what the brackets mean. If these ballots do not count, delete the rows. If they do, delete the \
    brackets.",
        "{rows} from here on have the vote of the row above, and nothing in column {column}, where every row above has something
the last {rows} of VOTES have the vote of the row above them, and nothing in a column that every row above fills
They are counted as voters. The vote may have been filled down to rows that have only an id. Look for these ballots. If there \
    are none, delete these rows. If there are, nothing is wrong.",
        "the id, {value}, has a word such as `void` or `test` in it. This concerns {rows}
an id has a word such as `void` or `test` in it. This concerns {rows}
It is counted as a voter. Ask what the word means. If this ballot does not count, as a spoiled one or a test, delete the row. If it \
    does, keep it.",
        TWO_NUMBERS,
        A_RANGE,
        CORRECTED_ROW,
        SUBTOTAL,
    ],
    &[
        "a field in quotation marks runs over several lines that look like rows
If each line should be a row of its own, delete the quotation marks.",
        "this row is taken for META's row of column names, so its value is ignored
the first row of META is taken for its row of column names, so its value is ignored
Write `key;value` on a line of its own above it.",
        "{value} stands behind the column names, as the first row would on the same line
the first row seems to stand behind the column names, on the same line
If so, begin a new line where the row begins.",
    ],
    &[
        "{value}, in column {column}, names a project too, but is not counted. This concerns {rows}
a later column names a project too, but is not counted. This concerns {rows}
Look at some ballots and at your rules first. If these choices count as much as those in `vote`, write all ids of a voter into \
    the column `vote`, with `,` between them. If they are a reserve, earlier votes or no votes, call the column `comment`: \
    then they do not count. If a reserve or a second choice counts in place of others, this program can't count the file. \
    If they are corrected votes, or `vote` says how many projects the voter chose, write them in its place. If `vote` says \
    yes or no of this project, write the id there where it says yes, and nothing where not. If they are another voter's, \
    write a row for that voter. If they are numbers of another list, find out which projects they mean. If they are the \
    order in which a voter saw the projects, find out whether `vote` has ids or places in it.",
        "the vote is empty, but {value} stands in column {column}. This concerns {rows}
the vote is empty, but another field of the row names projects. This concerns {rows}
If the voter chose these projects, write their ids into the column `vote`. If not, and it is not the column `voter_id`, give it the name `comment`.",
        "{value} stands in place of a voter's id, and the vote is empty. This concerns {rows}
ids of projects stand in place of a voter's id, and the vote is empty. This concerns {rows}
Find out whose vote it is. If the row above has no vote, look at that voter's ballot: if this is its vote, write it there, and delete this row.",
        "{value} stands in column {column}, and the vote does not name this project. This concerns {rows}
a column has marks for a project that the vote does not name. This concerns {rows}
The vote may be a formula that was not filled down. Look at some ballots. If the voters chose this project too, write its id into \
    the column `vote`.",
        "{value}, in column {column}, is the name of a project that the vote does not name. This concerns {rows}
a column has names of projects, and the vote names others. This concerns {rows}
A lookup may have found another project, or the column `vote` may have been sorted alone. Compare these rows with the \
    ballots. If some votes are wrong, get all votes again.",
        "{value}, in column {column}, is several ids, and where this column has several the vote is always the same one. This \
    concerns {rows}
where a column has several ids, the vote is always the same one. This concerns {rows}
The two columns may be exchanged in a part of the table. Compare all rows that have this vote with the ballots, also those \
    with one id in that column. Where the columns are exchanged, exchange them back. If they are not, and these choices \
    count as much as those in `vote`, write all ids of a voter into the column `vote`. If they are no votes in any row, call \
    the column `comment`.",
        "{value}, in column {column}, is more than the number of projects in the vote, and in most rows it is this number. This \
    concerns {rows}
a column has a number above that of the vote's projects, and in most rows it is this number. This concerns {rows}
Ids of these votes may be missing. Look at their ballots. If a choice is missing, write its id. If not, as where a cross was \
    struck out, call the column `comment`.",
        IDS_AS_VOTER,
    ],
    &[
        "the vote names {twice} more than once, which counts once
the vote names a project more than once, which counts once
If another project was meant, correct the id by the voter's ballot. If voters may give a project several votes, these are points, which \
    this program can't count. If neither, write it once.",
        "the vote has all projects of the one above it, and more; and so has each of the next ones. This concerns {rows}
a vote has all projects of the one above it, and more; and so has each of the next ones. This concerns {rows}
A form may not have been cleared between voters, so that these votes have other voters' choices too. Compare all of them \
    with the ballots, or ask the voters. If all are right, nothing is wrong.",
        "the vote is the one above it but for one id, which is the next in number; and so is each of the next ones. This concerns {rows}
a vote is the one above it but for one id, which is the next in number; and so is each of the next ones. This concerns {rows}
A cell may have been copied downwards, and a spreadsheet counted on. Compare all of these votes with the ballots. If they are test ballots of a scanner or a form, delete these rows, and one beside them that names all projects or none. If a row counts several ballots, write a row for each of them. If each is one ballot as it was cast, nothing is wrong.",
        "the vote names all projects, and every other vote names all or at most {limit}. This concerns {rows}
a vote names all projects, and every other vote names all or at most {limit}. This concerns {rows}
The boxes may have been ticked before the voters saw them. Find out how these votes were cast, or ask the voters. If your \
    rules do not count them, delete these rows. If the voters chose so, nothing is wrong.",
        "the vote names {first} more than once, and every vote begins with it
a vote names a project more than once, and every vote begins with it
An answer to another question may stand before the votes. Look at some ballots. If so, take the first id out of every vote. If \
    not, write it once.",
        OUT_OF_ORDER,
    ],
];

/// What is said of a kind: a text for each form of it.
pub(crate) fn forms_of(oddity: Oddity) -> &'static [&'static str] {
    let place = oddity as usize;
    match (
        place.checked_sub(FIRST_KINDS),
        place.checked_sub(MIDDLE_END),
    ) {
        (_, Some(behind)) => later_forms(behind),
        (Some(behind), None) => middle_forms(behind),
        (None, None) => first_forms(place),
    }
}

/// What is said of the kind at this place among the first.
fn first_forms(place: usize) -> &'static [&'static str] {
    FIRST.get(place).copied().unwrap_or(&[])
}

/// What is said of the kind at this place behind them.
fn middle_forms(place: usize) -> &'static [&'static str] {
    MIDDLE.get(place).copied().unwrap_or(&[])
}
