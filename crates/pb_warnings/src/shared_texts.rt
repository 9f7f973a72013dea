//! What is said of several kinds or forms of warnings alike, or of rows that belong together, in the form of `warning_texts`.

/// What is said of a row without a vote in which another field seems to be it.
pub(crate) const STRAY_ID: &str = "{value} stands in place of a voter's id, and the vote is empty
ids of projects stand in place of a voter's id, and the vote is empty
Find out whose vote it is. If the row above has no vote, look at that voter's ballot: if this is its vote, write it there, and delete this row.";

pub(crate) const STRAY_VOTE: &str = "the vote is empty, but {value} stands in column {column}
the vote is empty, but another field of the row names projects
If the voter chose these projects, write their ids into the column `vote`.";

pub(crate) const TOO_COSTLY: &str =
    "the projects of the vote {value} cost {sum} together, and `max_sum_cost` allows {most}
the projects of the vote cost more together than `max_sum_cost` allows
This ballot is counted. Check this key and the costs. If your rules do not allow the ballot, do with it what they say.";

pub(crate) const TOO_CHEAP: &str =
    "the projects of the vote {value} cost {sum} together, and `min_sum_cost` asks for {most}
the projects of the vote cost less together than `min_sum_cost` asks for
This ballot is counted. Check this key and the costs. If your rules do not allow the ballot, do with it what they say.";

pub(crate) const TOO_LONG: &str =
    "the vote {value} names {projects}, and `max_length` allows {limit}
the vote names {projects}, and `max_length` allows {limit}
This ballot is counted. Look at it, and at that of the row below: they may be two voters' ballots in one field. If your \
    rules do not allow the ballot, do with it what they say.";

pub(crate) const TOO_SHORT: &str =
    "the vote {value} names {projects}, and `min_length` asks for {limit}
the vote names {projects}, and `min_length` asks for {limit}
This ballot is counted. Look at it. If the row is right, and your rules do not allow it, do with it what they say.";

/// What is said of META's number of rows of votes or of projects.
pub(crate) const TOO_FEW_ROWS: &str =
    "{value} is wrong: the number of {kind} rows in the file is {number}
META's number of {kind}s is wrong: the number of {kind} rows in the file is {number}
If rows are missing, get the whole file again. Correct the number only if you know that every row is here.";

pub(crate) const TOO_MANY_ROWS: &str =
    "{value} is wrong: the number of {kind} rows in the file is {number}
META's number of {kind}s is wrong: the number of {kind} rows in the file is {number}
Find out which rows are too many: totals, notes, copies, rows of another year or of a test, ballots that are not valid, projects that were withdrawn. Correct the number only if you know that each row counts.";

pub(crate) const NO_NUMBER: &str =
    "{value} is not a whole number in digits; the number of {kind} rows in the file is {number}
META's number of {kind}s is wrong: the number of {kind} rows in the file is {number}
Write the number in digits.";

pub(crate) const TWO_NUMBERS: &str =
    "the id, {value}, is two numbers; other ids are one number each. This concerns {rows}
an id is two numbers; other ids are one number each. This concerns {rows}
It is counted as one voter. Ask what the id means. If the row stands for several ballots, write a row for each of them, with \
    an id of its own. If it is one ballot, nothing is wrong.";

pub(crate) const A_RANGE: &str =
    "the id, {value}, is a range of numbers, and others begin where one ends. This concerns {rows}
an id is a range of numbers, and others begin where one ends. This concerns {rows}
Each is counted as one voter. Ask what the ids mean. If a row stands for several ballots, write a row for each of them, with \
    an id of its own. If each is one ballot, nothing is wrong.";

pub(crate) const TYPED_TWICE: &str =
    "{number} rows have an id that differs from an earlier one only at its end, and most of them have its vote
Ballots may have been typed twice, to compare both. Look at some of them. If so, keep one row of each ballot. If the rows are of \
    different people, nothing is wrong.";

pub(crate) const A_CHOICE_EACH: &str =
    "{number} rows have an id that differs from an earlier one only at its end, and each row names one project, another one
If each choice of a voter has a row, each is counted as a voter. Write one row for each of these voters, with the ids of all \
    its rows, and `,` between them. If each row is a ballot of its own, nothing is wrong.";

pub(crate) const OUT_OF_ORDER: &str =
    "the vote is not in the order of PROJECTS, as others are, and all such votes end in one id. This concerns {rows}
a vote is not in the order of PROJECTS, as others are, and all such votes end in one id. This concerns {rows}
A program may have read ids as a number (`3,10` as 3.1), or cut or replaced a part of one. Compare these votes with the \
    ballots. If they differ, get all votes again, as text. If not, nothing is wrong.";

pub(crate) const CUT_BY_A_LETTER: &str =
    "{value}, in column {column}, ends like a letter of a web page (`&uuml;`), whose `;` may have cut it
a field ends like a letter of a web page (`&uuml;`), whose `;` may have cut it
Write the letter itself. If the `;` has cut the field, join its two parts: all fields behind it stand one column too far to \
    the right. Then look at the row's cost or vote.";

pub(crate) const CUT_AT_A_LENGTH: &str =
    "the vote ends behind a comma, and no vote is longer: ids may be cut off. This concerns {rows}
a vote ends behind a comma, and no vote is longer: ids may be cut off. This concerns {rows}
Compare these votes, and others of their length, with the ballots. If ids are missing, a program has cut the votes: get all \
    votes again, whole. If not, delete the commas at the ends.";

pub(crate) const CORRECTED_ROW: &str =
    "the id is another row's with a word behind it, as if it replaced that one, and the votes differ. This concerns {rows}
an id is another row's with a word behind it, as if it replaced that one, and the votes differ. This concerns {rows}
Both are counted as voters. Ask which row counts. If this one replaces the other, delete the other, and the word behind this \
    id. If these are two people, keep both.";

/// What is said of a row of META that is one field, of a project whose id is another one's with a word behind it, of one that
/// costs what the next ones do, and of a column of PROJECTS that names others.
pub(crate) const ONE_FIELD: &str = "a key and its value stand in one field here, and are ignored
a key and its value stand in one field of META, and are ignored
Compare it with the other rows of META. If this value counts, write the key, `;` and the value, without quotation marks around \
    both, and delete an earlier row of the key. If not, delete this row.";

pub(crate) const OTHER_VERSION: &str =
    "its id is that of the project on line {line}, with a word such as `new` behind it
a project's id is that of another one, with a word such as `new` behind it
If one has taken the place of the other, find out by the ballots which votes are meant for it, write its id there, and delete the \
    other row. If both are projects, nothing is wrong.";

pub(crate) const SUM_BEHIND: &str =
    "its cost, {value}, is the sum of the next {number} projects, whose ids begin with its id
a cost is the sum of the next projects, whose ids begin with the project's id
It is counted as a project. If it stands for the others together, find out by the ballots what votes for it mean, write these ids \
    there, and delete its row. If it is a project, nothing is wrong.";

pub(crate) const OTHER_PROJECTS: &str = "it has ids of other projects, and is not read
a column of PROJECTS has ids of other projects, and is not read
If it says that projects exclude each other, or that one takes the place of another, do what your rules say: take out the project \
    that can't win, and its id out of the votes. If it says something else, call it `comment`.";

pub(crate) const A_BUDGET_BESIDE: &str =
    "{value} is not counted: all projects share the amount of the key `budget`
a budget beside the key `budget` is not counted: all projects share the amount of that key
If each district or category has a budget of its own, make a file for each: its budget, its projects, only the \
    voters who may vote there, and of each vote the ids of its projects.";

pub(crate) const BUDGETS_OF_PARTS: &str =
    "the different amounts in column {column} are together the budget, and are not read
the different amounts of a column of PROJECTS are together the budget, and are not read
If they are budgets of districts or categories, make a file for each: its budget, its projects, only the \
    voters who may vote there, and of each vote the ids of its projects.";

pub(crate) const CUT_THOUSANDS: &str =
    "the name is {value}, and the cost has three digits at most: a `;` may have cut the amount
a project's name has three digits, and its cost three at most: a `;` may have cut the amount
If so, write the amount in one field, such as `48000`. If not, nothing is wrong.";

pub(crate) const IN_THOUSANDS: &str =
    "its cost, {value}, may be in thousands, and other costs are not. This concerns {projects}
a cost may be in thousands, and other costs are not. This concerns {projects}
Compare these costs with the office's list. Where they are in thousands, write them whole. If they are right, nothing is wrong.";

pub(crate) const ALL_PROJECTS: &str = "its name is that of an answer for all of the projects
a project's name is that of an answer for all of the projects
It is counted as a project, and wins money if enough voters chose it. If it is no project, write the ids of all projects in place \
    of its id in the votes, and delete its row. If it is one, nothing is wrong.";

pub(crate) const OTHER_DISTRICT: &str =
    "{value}, in column {column}, is not the district that META names, and no row has that one. This concerns {rows}
all voters are of another district than the one that META names. This concerns {rows}
These may be the votes of another district, whose projects have the same ids. Compare META, PROJECTS and some votes. If they are \
    of one vote, as where the district has two names, nothing is wrong.";

pub(crate) const OTHER_CURRENCY: &str =
    "{value}, in column {column}, is not the currency that META names. The column is ignored
a project's currency is not the one that META names. The column is ignored
If the costs are not in the currency of the budget, write all of them in that one. If they are, correct META or the column.";

pub(crate) const SUBTOTAL: &str =
    "the id, {value}, has a word for a total in it, and the vote names one project. This concerns {rows}
an id has a word for a total in it, and the vote names one project. This concerns {rows}
It is counted as a voter. If the row is a total of the rows above, as the number of ballots in a box, delete it. If it is a \
    ballot, keep it.";

pub(crate) const A_BUNDLE: &str =
    "the id, {value}, ends in a number of times, and other ids do not. This concerns {rows}
an id ends in a number of times, and other ids do not. This concerns {rows}
It is counted as one voter. Ask what the number means. If the row stands for several equal ballots, write a row for each of \
    them, with an id of its own. If it is one ballot, nothing is wrong.";

pub(crate) const IDS_AS_VOTER: &str =
    "{value}, in place of a voter's id, is a list of projects' ids, so id and vote may be exchanged. This concerns {rows}
a voter's id is a list of projects' ids, so id and vote may be exchanged. This concerns {rows}
Compare these rows with the ballots, and all rows beside them, also those with one id there. Where the two are exchanged, exchange \
    them back.";
