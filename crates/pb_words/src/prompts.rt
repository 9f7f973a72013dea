//! What is said to whoever types requests at a terminal.

/// What is said of a row that goes on.
pub const OPEN_ROW: &str =
    "A quotation mark is open, so the next line belongs to the same row. Type `\"` to close it.\n";

/// How requests are typed on a desk.
pub fn how_to_ask(by_id: bool, is_shut: bool) -> &'static str {
    if is_shut {
        "The desk is shut: each request gets the answer desk-shut. Ctrl-D on a line of its own ends the run.\n"
    } else if by_id {
        "Type one request on each row: CLERK;REQUEST;VOTER;PLACES, for example `0;cast;ann;a,b`, `0;replace;ann;b` or `0;withdraw;ann;`.
PLACES are the ids of projects, with `,` between them. Ctrl-D on a line of its own ends the run.
"
    } else {
        "Type one request on each row: CLERK;REQUEST;VOTER;PLACES, for example `0;cast;ann;0,2`, `0;replace;ann;1` or `0;withdraw;ann;`.
PLACES are the positions of projects in FILE, counted from 0. Ctrl-D on a line of its own ends the run.
"
    }
}
