//! What is said of each fault of a .pb file: what is wrong, and what to do.

use crate::prelude::*;
use crate::read_texts::{NOTE, OTHER_TABLE, RULES};
use crate::unknown_texts::NAMES_AGAIN;
use pb_core::money::Money;
use pb_read::Column;
use pb_seen::changed::{is_grouped, is_nothing, is_one_of, without_hidden};

/// What may stand beside an amount and is a currency.
const CURRENCIES: &str =
    "€|$|us$|£|¥|￥|₹|₴|fr|zł|zl|pln|eur|euro|euros|usd|dollars|gbp|pounds|chf|czk|kč|kc|huf|ft|sek|nok|dkk|kr|ron|lei|bgn|лв|uah|грн|rub|руб|\
    jpy|円|cny|元|krw|원|inr|rs|brl|reais|mxn|pesos|idr|cve";

/// What to do about an amount beside which something else stands than a currency.
const BESIDE: &str =
    "What stands beside the digits may make it another amount: one below 0, in thousands or cents, without tax, for a year or a piece, a calculation, or one that a program or a scanner changed. Don't just delete it. Find out the right amount, and write it with digits only, like `1200` or `1200.50`.\n";

/// What to do about an amount without a digit.
pub(crate) const NO_AMOUNT: &str =
    "If the row has titles, units or types of the columns, is a line of dashes, or was only prepared, delete it. If it is a project, write its whole amount with digits only, like `1200` or `1200.50`. If its cell was merged with one above or below, the amount there may be the sum of both: then correct both. {} {}\n";

/// What databases and programs call the type of an amount, also with a size in brackets behind it.
const TYPES: &str =
    "float4|float8|float32|float64|int2|int4|int8|int16|int32|int64|varchar|char|decimal|numeric|number";

/// What to do about an amount.
pub(crate) fn amount_remedy(value: &str) -> &'static str {
    let is_of_number = |c: char| c.is_ascii_digit() || c.is_whitespace() || ".,".contains(c);
    let is_whole = value.contains(",-") || value.contains(".-") || value.contains(",\u{2013}");
    let is_other = |word: &str| {
        let is_dash = is_whole && is_one_of("-|\u{2013}", word);
        !word.is_empty() && !is_dash && !is_one_of(CURRENCIES, word)
    };
    let number = value.trim_matches(|c: char| !c.is_ascii_digit());
    let is_type = is_one_of(TYPES, value.split('(').next().unwrap_or(""));
    let is_broken = number.contains(|c: char| !is_of_number(c));
    if is_cost(value) {
        NAMES_AGAIN
    } else if value.starts_with('#') {
        "A spreadsheet writes this where a column is too narrow, or a formula is wrong. Get the amount again.\n"
    } else if number.is_empty() || is_type {
        NO_AMOUNT
    } else if is_grouped(value) {
        words_of(ReadKind::BadMoney).1
    } else if is_broken || without_hidden(value).split(is_of_number).any(is_other) {
        BESIDE
    } else {
        words_of(ReadKind::BadMoney).1
    }
}

/// Puts what to do about a fault, in which a text on notes may have its place, and one on other tables behind it.
pub(crate) fn put_rule(out: &mut WordsWriter, remedy: &str) {
    out.fill(remedy, &[Own(NOTE), Own(OTHER_TABLE)])
}

/// Whether an amount is less than 1.
pub(crate) fn is_below_1(value: &str) -> bool {
    value.starts_with("0.") || value.starts_with("0,")
}

/// What to do about an amount with more than two decimals.
pub(crate) fn fine_remedy(value: &str) -> &'static str {
    if is_below_1(value) {
        "If the amounts are in thousands or millions, write all of them in full, the budget too. If not, round the amount to two decimals.\n"
    } else {
        words_of(ReadKind::MoneyTooFine).1
    }
}

/// Puts how a value breaks the rule of this fault.
pub(crate) fn put_broken(out: &mut WordsWriter, kind: ReadKind, value: &str) {
    let form = match (kind, value) {
        (ReadKind::BadMoney, "") => ": the amount is missing.\n",
        (ReadKind::BadMoney, _) if is_nothing(value) => ": the amount is missing: it says {}.\n",
        (ReadKind::VoteType, "") => ": the vote type is missing.\n",
        (ReadKind::EmptyId, _) => ": the id is empty.\n",
        (ReadKind::ZeroCost, _) => ": the cost is 0, but every project must cost something.\n",
        (ReadKind::VoteType, _) => ": {} is not `approval`.\n",
        (ReadKind::BadMoney, _) => ": {} is not an amount that the program can read.\n",
        (ReadKind::MoneyTooFine, _) => ": {} has more than two decimals.\n",
        (ReadKind::MoneyTooLarge, _) => {
            ": {} is more than 10,000,000,000,000.00, the largest amount that the program takes.\n"
        }
        (ReadKind::BadLength, _) => ": {} is not a whole number in digits.\n",
        _ => ": {} is refused.\n",
    };
    out.fill(form, &[Quoted(value)])
}

/// Whether a value is the column's name, as where a row has the column names again.
pub(crate) fn is_cost(value: &str) -> bool {
    value.eq_ignore_ascii_case(Column::Cost.name())
}

/// What is wrong by this fault, where no more is known, and what to do, which is the second line of each
/// text.
pub(crate) fn words_of(kind: ReadKind) -> (&'static str, &'static str) {
    let rule = RULES.get(kind as usize).copied().unwrap_or("");
    rule.split_once(".\n").unwrap_or((rule, ""))
}
