//! Words that name a command of `pb_clean`.

use crate::meta_words::ONE_CHOICE;
use crate::prelude::*;
use crate::read_rules::{is_below_1, is_cost};
use pb_core::money::Money;
use pb_seen::changed::{has_thousandths, is_grouped, without_hidden};
use pb_seen::fields::JoinedBy;

/// The option by which it takes projects without a cost out.
const DROP_ZERO_COST: &str = " --drop-zero-cost";

/// Puts which command mends the file, with these options.
pub(crate) fn put_clean<R>(out: &mut WordsWriter, text: &Text<R>, options: &'static str) {
    let does = match options {
        DROP_ZERO_COST => "takes such projects out",
        _ => "does this",
    };
    out.fill(
        "`pb_clean {} -o NEW.pb{}` {}.\n",
        &[Name(text.path), Own(options), Own(does)],
    )
}

/// Puts which command takes unknown ids out of votes, and when alone it is to be used.
pub(crate) fn put_dropping<R>(out: &mut WordsWriter, text: &Text<R>, only: &'static str) {
    out.fill(
        "`pb_clean {} -o NEW.pb --drop-unknown` takes such ids out of the votes.{}\n",
        &[Name(text.path), Own(only)],
    )
}

/// Puts which command mends a value of this fault, if one does.
pub(crate) fn put_cleaning<R>(out: &mut WordsWriter, text: &Text<R>, kind: ReadKind, value: &str) {
    match kind {
        // It may be in millions: then to round it loses it.
        ReadKind::MoneyTooFine if is_below_1(value) => {}
        ReadKind::MoneyTooFine if has_thousandths(value) => out.fill(
            "`pb_clean {} -o NEW.pb --marks thousands` does the first, and `--marks decimals --round half-up` the second.\n",
            &[Name(text.path)],
        ),
        ReadKind::MoneyTooFine => out.fill(
            "`pb_clean {} -o NEW.pb --round half-up` rounds it.\n",
            &[Name(text.path)],
        ),
        ReadKind::NotText => out.fill(
            "If you know how it is encoded, `pb_clean {} -o NEW.pb --encoding NAME` does this, for example with `cp1250`.\n",
            &[Name(text.path)],
        ),
        _ => {
            if let Some(options) = clean_options(kind, value) {
                put_clean(out, text, options)
            }
        }
    }
}

/// Puts which command mends a file whose fields something else than `;` separates, if one does.
pub(crate) fn put_separate<R>(out: &mut WordsWriter, text: &Text<R>, joined: JoinedBy) {
    match joined {
        JoinedBy::Tabs => put_clean(out, text, ""),
        JoinedBy::Commas => out.fill(
            "If texts and votes with commas are in quotation marks, `pb_clean {} -o NEW.pb` does this.\n",
            &[Name(text.path)],
        ),
        JoinedBy::Quotes | JoinedBy::Bars => {}
    }
}

/// The options by which `pb_clean` does what words for a value of this fault say, where it does.
fn clean_options(kind: ReadKind, value: &str) -> Option<&'static str> {
    match kind {
        ReadKind::ZeroCost => Some(DROP_ZERO_COST),
        ReadKind::VoteType if value.eq_ignore_ascii_case(ONE_CHOICE) => Some(" --single-choice"),
        ReadKind::BadMoney if may_be_millions(value) => None,
        ReadKind::BadMoney if is_grouped(value) || is_hidden_amount(value) || is_cost(value) =>
            Some(""),
        ReadKind::VoteType if without_hidden(value).eq_ignore_ascii_case("approval") => Some(""),
        _ => None,
    }
}

/// Whether an apostrophe stands before a point or a comma and three digits: it may mark millions, as in `1'250.000`.
fn may_be_millions(value: &str) -> bool {
    let ends = value.rsplit_once('.').or(value.rsplit_once(','));
    let (whole, part) = ends.unwrap_or((value, ""));
    let are_digits = part.as_bytes().iter().all(|byte| byte.is_ascii_digit());
    part.len() == 3 && are_digits && whole.contains(|c: char| c == '\'' || c == '\u{2019}')
}

/// Whether a value is an amount but for characters at its ends that can't be seen, or a dash for its decimals.
fn is_hidden_amount(value: &str) -> bool {
    let bare = without_hidden(value);
    let bare = bare
        .strip_suffix(",-")
        .or(bare.strip_suffix(".-"))
        .unwrap_or(bare);
    bare.len() < value.len() && Money::read(bare).is_ok()
}
