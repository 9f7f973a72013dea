//! What is said of the last kinds of warnings, in the form of `warning_texts`.

use crate::shared_texts::{
    A_BUDGET_BESIDE, A_BUNDLE, A_CHOICE_EACH, BUDGETS_OF_PARTS, CUT_BY_A_LETTER, OTHER_CURRENCY,
    OTHER_DISTRICT, OTHER_PROJECTS, TYPED_TWICE,
};

/// What is said of these.
const LATER: [&[&str]; 8] = [
    &[
        "{number} columns have this name, and only the first is read
{number} columns have the same name, and only the first is read
If the others have values that should count, write them into the first (ids with `,` between them). If not, give \
    the others other names.",
        "{number} columns have this name, and only the first is read
{number} columns have the same name, and only the first is read
If each row has several voters side by side, write a row for each of them.",
        "it has another cost than `cost` in {rows}, and is not read
a column of PROJECTS has other costs than `cost`, and is not read
Ask which of the two has the costs that count. Call that column `cost`, and the other one `comment`.",
        "each vote ends with what this column has in its row
each vote ends with what a column of VOTES has in its row
A formula may have joined one column too many. Compare some votes with the ballots. If they differ, get all votes again.",
        "it has each id that votes name, and no vote names {projects}
a column of PROJECTS has each id that votes name, and no vote names {projects}
Compare some votes with the ballots. If the ballots have the values of this column, call it `project_id`, and the other \
    one `comment`. If not, a lookup may have taken the wrong column: get all votes again.",
        "it has the same ids as `project_id`, in another order, and is not read
a column of PROJECTS has the same ids as `project_id`, in another order, and is not read
Ask which of the two the votes mean. Call that column `project_id`, and the other one `comment`. If only some voters mean \
    this one, as on ballots in another language, write the ids of `project_id` in their votes instead.",
        "its texts begin with the ids of the projects, in another order
the names of projects begin with their ids, in another order
Compare some votes with the ballots. If they mean the numbers in the names, write these as `project_id`. If they mean the ids, take \
    the numbers out of the names.",
    ],
    &[
        "points are ignored: every project named in a vote counts the same
VOTES has points, which are ignored: every project named in a vote counts the same
If your rules count points or ranks, this program can't count the file.",
        "each vote names all {projects}, in different orders, and the order is ignored
each vote names all projects, in different orders, and the order is ignored
If your rules count points or ranks, this program can't count the file.",
    ],
    &[
        "{value} differs from line {line} in column {column}. The column is ignored: every project is counted
a column says which projects are valid. The column is ignored: every project is counted
If it says that projects were withdrawn, take their rows out, and their ids out of the votes.",
        "{value} differs from line {line} in column {column}. The column is ignored: every row is counted
a column says which rows are valid. The column is ignored: every row is counted
If it says that rows do not count, take these out. Of two copies of one ballot one stays.",
        "{value} differs from line {line} in column {column}. The column is ignored: all costs are read as one currency
a column has different currencies. The column is ignored: all costs are read as one currency
If the costs are in different currencies, write all of them in that of the budget. If not, write the same in all rows \
    of the column.",
        "the name {value} may say that it is withdrawn. It is counted. This concerns {projects}
the name of a project may say that it is withdrawn. It is counted. This concerns {projects}
If the project was withdrawn, take its row out, and its id out of the votes. If not, take that out of its name.",
        "{value} differs from line {line} in column {column}. The column is ignored: every row is counted
a column says of which round a vote is. The column is ignored: every row is counted
If these are votes of several rounds, make a file for each round.",
        "{value} differs from line {line} in column {column}. The column is ignored: all costs are read in one unit
a column has different units. The column is ignored: all costs are read in one unit
If the costs are in different units, such as thousands, write all of them in that of the budget. If not, write the same in all \
    rows of the column.",
        "{value} and all other dates in column {column} are far from the date that META gives on line {line}
all dates of a column are far from those that META gives
META may be that of another year. Compare its dates and its budget with the decision on this vote, and correct them.",
        "{value} differs from line {line} in column {column}: they are bytes of 0 and 1. The column is ignored: every row is counted
a column has bytes of 0 and 1. The column is ignored: every row is counted
A database writes no and yes so, and they can't be seen. Get the column again as numbers (in SQL, `column + 0`). If it says that \
    rows do not count, take these out, and the id of such a project also out of the votes.",
        "{value}, in column {column}, is days outside the dates of META, and most others are within. This concerns {rows}
a few dates of a column are days outside those of META, and most others are within. This concerns {rows}
Find out what these rows are. If they are test ballots, delete them. If they came too late, do with them what your rules say. If \
    the date is that on which a ballot was typed or changed, or META's dates are wrong, keep them.",
        "{value}, in column {column}, is not the district that META names, as it is in most rows. This concerns {projects}
a few projects are of another district than the one that META names. This concerns {projects}
If projects of two votes stand here, make a file for each: its budget, its projects, and its voters. If this project \
    belongs to this vote, keep it.",
        "{value}, in column {column}, is not the district that META names, as it is in most rows. This concerns {rows}
a few voters are of another district than the one that META names. This concerns {rows}
If votes of two districts stand here, make a file for each: its budget, its projects, and its voters. If your rules let \
    these voters vote here, keep the rows.",
        OTHER_PROJECTS,
        OTHER_DISTRICT,
        OTHER_CURRENCY,
    ],
    &[A_BUDGET_BESIDE, BUDGETS_OF_PARTS],
    &[
        "the row has {fields} fields, but the number of column names is {number}
the row has too many fields: the number of column names is {number}
If a `;` in the name or another text has cut it, put the text in quotation marks: `\"Park; north\"`. If the decimal comma \
    of an amount has become `;`, write the amount in one field, like `12000,50`. Then check the cost. If the last \
    field says that the project was withdrawn, take its row out, and its id out of the votes.",
        "the row has {value} in it, like a vote
the row has several ids of projects in it, like a vote
If it is a vote, move it below VOTES.",
        CUT_BY_A_LETTER,
    ],
    &[
        "this id begins or ends with an invisible character. Without it, the id is another row's, so the voter is counted twice
a voter's id begins or ends with an invisible character. Without it, the id is another row's, so the voter is counted twice
Delete it, or type the id anew.",
        "but for capital letters this e-mail address is that of another row, so the voter may be counted twice
but for capital letters a voter's e-mail address is that of another row, so the voter may be counted twice
Find out whether these are one voter, and which of the two ballots is valid.",
        "the ids are {number} groups whose ids differ only at their ends, and the rows with each end name projects of their own
the ids are {number} groups whose ids differ only at their ends, and the rows with each end name projects of their own
Each group may be the sheets of one ballot, and is counted as several voters. Look at some ballots. If so, make one row \
    of each group, with all ids of its votes, and `,` between them. If these are different people, keep the rows.",
        "but for the code of its country this phone number is that of another row, so the voter may be counted twice
but for the code of its country a voter's phone number is that of another row, so the voter may be counted twice
Find out whether these are one voter, and which of the two ballots is valid. Take the other one out.",
        "but for a word behind `+` this e-mail address is that of another row, so the voter may be counted twice
but for a word behind `+` a voter's e-mail address is that of another row, so the voter may be counted twice
Both may be one mailbox. Find out whether these are one voter, and which of the ballots is valid. Take the others out. If they \
    are two people who share a mailbox, keep both.",
        "but for capital letters, signs such as `-`, or letters like 0 and 1, this id is that of another row, so the voter may be counted twice
but for capital letters, signs such as `-`, or letters like 0 and 1, a voter's id is that of another row, so the voter may be counted twice
Find out whether these are one voter, and which of the two ballots is valid. Take the other one out. If they are two people, keep both.",
    ],
    &[
        "all projects together cost {sum}, which is less than a hundredth of it
all projects together cost less than a hundredth of the budget
Check whether the costs are in another unit than the budget (thousands, for example).",
        "all projects together cost {sum}, which is less than a tenth of it
all projects together cost less than a tenth of the budget
Check whether the budget is in cents, and the costs are not. If so, write it in the unit of the costs.",
        "{value} is just what all projects cost together
the budget is just what all projects cost together
It may be their sum, and not the budget. Compare it with the decision on the budget.",
    ],
    &[
        "its numbers are ignored: every row is counted as one ballot
VOTES has numbers of ballots, which are ignored: every row is counted as one ballot
If a row stands for several ballots, write a row for each of them, with an id of its own.",
        "{value}, in column {column}, is like the ids of voters, but no row has an id that stands there
a column has ids like those of voters, but no row has one of them
If the row is also the ballot of that voter, as where somebody voted for others, write a row for each of them, with the same vote. \
    If it takes the place of that voter's ballot, or is of somebody else, call the column `comment`.",
        "its values stand in several rows, each time with another project, and every vote names one
a column of VOTES has values that stand in several rows, each time with another project, and every vote names one
If it says whose choice a row is, each choice is counted as a voter. Write one row for each of these voters, with the ids of all \
    its rows, and `,` between them. If each row is a ballot of its own, nothing is wrong.",
        "{value}, in column {column}, stands in an earlier row too, and most others stand in one. This concerns {rows}
a column has something of its own in most rows, and repeats it in a few. This concerns {rows}
These may be several ballots of one voter. Find out whether they are, and which of them is valid. Take the others out. If they \
    are people who share it, keep all.",
        TYPED_TWICE,
        A_CHOICE_EACH,
        A_BUNDLE,
    ],
];

/// What is said of the kind at this place among them.
pub(crate) fn later_forms(place: usize) -> &'static [&'static str] {
    LATER.get(place).copied().unwrap_or(&[])
}
