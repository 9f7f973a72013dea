//! What texts look like that a spreadsheet, a database or a program changed.

use crate::fields::count_of;
use std::alloc::{AllocError, Global};

/// What programs write where there is no value.
const NOTHING: &str = "nan|none|null|nil|na|n/a|-|0|\\n";

/// What says in place of ids which projects are meant, or that the vote is none.
const WORDS: &str =
    "all|everything|any|every|invalid|void|spoiled|spoilt|cancelled|canceled|blank|empty|abstain|\
    abstention";

/// What says in the column of a project whether a voter approves it.
const TICKS: &str = "0|1|x|yes|no|true|false";

/// How the names of months begin in several languages.
const MONTHS: &str =
    "jan|feb|fev|mar|apr|avr|abr|mai|maj|may|jun|jui|jul|aug|ago|sep|set|oct|okt|ott|out|nov|dec|dez|\
    dic|sty|lut|kwi|cze|lip|sie|wrz|lis|gru";

/// How an id differs from another one that is alike.
#[derive(Clone, Copy, PartialEq, Eq)]
pub enum Difference {
    Hidden,
    Spaces,
    /// A mark beside it, such as an apostrophe.
    Marks,
    PointZero,
    Case,
    Zeros,
    /// A letter that looks like a digit, such as O and 0.
    Letters,
    /// Letters before a number.
    Front,
}

/// Whether a text is one of these words, with `|` between them, in any case.
pub fn is_one_of(words: &str, text: &str) -> bool {
    let (words, text) = (words.as_bytes(), text.as_bytes());
    words
        .split(|byte| *byte == b'|')
        .any(|word| word.eq_ignore_ascii_case(text))
}

/// Whether a text says that there is no value, as programs write it.
pub fn is_nothing(text: &str) -> bool {
    is_one_of(NOTHING, text)
}

/// Whether a text says of a project whether a voter approves it.
pub fn is_tick(text: &str) -> bool {
    is_one_of(TICKS, text)
}

/// Whether a text says in place of ids which projects are meant, or that the vote is none.
pub fn is_word(text: &str) -> bool {
    is_one_of(WORDS, text)
}

/// Whether a text has a word in it, in any case.
pub fn has_word(text: &str, word: &str) -> bool {
    let (bytes, word) = (text.as_bytes(), word.as_bytes());
    let is_here = |start: usize| {
        let part = bytes.get(start..start.saturating_add(word.len()));
        part.is_some_and(|part| part.eq_ignore_ascii_case(word))
    };
    !word.is_empty() && (0..bytes.len()).any(is_here)
}

/// Whether a text has one of these words in it, also as a part of a longer one, in any case.
pub fn has_part(words: &str, text: &str) -> bool {
    words.split('|').any(|word| has_word(text, word))
}

/// Whether one of the words of a text is one of these, in any case.
pub fn has_one_of(words: &str, text: &str) -> bool {
    text.split(|c: char| !c.is_alphanumeric())
        .any(|word| is_one_of(words, word))
}

/// The first word of a text by white space, and what is behind it.
pub fn first_word(text: &str) -> (&str, &str) {
    let text = text.trim();
    text.split_once(|c: char| c.is_whitespace())
        .unwrap_or((text, ""))
}

/// The last word of a text; the empty text if it has none.
pub fn last_word(text: &str) -> &str {
    let mut words = text.rsplit(|c: char| !c.is_alphanumeric());
    words.find(|word| !word.is_empty()).unwrap_or("")
}

/// Whether a text begins with this word, in any case.
pub fn begins(text: &str, word: &str) -> bool {
    let start = text.as_bytes().get(..word.len());
    start.is_some_and(|start| start.eq_ignore_ascii_case(word.as_bytes()))
}

/// A text without what is neither a letter nor a digit.
pub fn letters_of(alloc: Global, text: &str) -> Result<String, AllocError> {
    let mut out = String::new(alloc);
    for c in text.chars().filter(|c| c.is_alphanumeric()) {
        out.push(c)?;
    }
    Ok(out)
}

/// Whether a text has a digit.
pub fn has_digit(text: &str) -> bool {
    text.contains(|c: char| c.is_ascii_digit())
}

/// Whether a text has a time of day, such as `08:15`.
pub fn has_time(text: &str) -> bool {
    is_number_on_both_sides(text.split_once(':'))
}

/// Whether the first of two texts ends with a digit, and the second begins with one.
fn is_number_on_both_sides(sides: Option<(&str, &str)>) -> bool {
    let Some((one, other)) = sides else {
        return false;
    };
    let one = one.trim().as_bytes();
    let other = other.trim().trim_start_matches('+').as_bytes();
    let last = one.get(one.len().saturating_sub(1));
    let is_digit = |byte: Option<&u8>| byte.map_or(false, |byte| byte.is_ascii_digit());
    is_digit(last) && is_digit(other.get(0))
}

/// Whether a vote begins and ends with brackets, as programs write lists.
pub fn is_in_brackets(vote: &str) -> bool {
    let begin = vote.strip_prefix("c").unwrap_or(vote);
    let is_wrap = |c: char| "[](){}".contains(c);
    begin.trim_start_matches(is_wrap).len() < begin.len()
        && begin.trim_end_matches(is_wrap).len() < begin.len()
}

/// Whether a text is brackets with nothing in them but quotation marks, as programs write an empty list.
pub fn is_empty_list(text: &str) -> bool {
    let is_other = |c: char| !"[](){}'\" ".contains(c);
    is_in_brackets(text) && !text.contains(is_other)
}

/// Whether a text is one or more digits.
pub fn is_digits(text: &str) -> bool {
    !text.is_empty() && text.as_bytes().iter().all(|byte| byte.is_ascii_digit())
}

/// Whether a text is digits on both sides of a point or a comma.
pub fn is_decimal(text: &str) -> bool {
    let (whole, part) = parts_of(text);
    is_digits(whole) && is_digits(part)
}

/// Whether an amount has three decimals, or a group of thousands.
pub fn has_thousandths(text: &str) -> bool {
    let (whole, part) = parts_of(text);
    whole.len() <= 3 && part.len() == 3 && is_digits(part)
}

/// What is before the first point or comma of a text and behind it; none where there is no such mark.
fn parts_of(text: &str) -> (&str, &str) {
    text.split_once(|c: char| c == '.' || c == ',')
        .unwrap_or((text, ""))
}

/// Whether a text is a number as a spreadsheet shortens it, such as `1.23E+11`.
pub fn is_power(text: &str) -> bool {
    let parts = text.split_once("E+").or(text.split_once("e+"));
    let (number, power) = parts.unwrap_or(("", ""));
    is_digits(power) && (is_digits(number) || is_decimal(number))
}

/// Whether a text seems to be a long number that a spreadsheet shortened.
pub fn is_shortened(text: &str) -> bool {
    let lost = text.as_bytes().get(15..).unwrap_or(b"");
    let has_lost = !lost.is_empty() && lost.iter().all(|byte| *byte == b'0');
    let is_round = text.len() >= 10 && text.ends_with("00000");
    is_power(text) || (is_digits(text) && (has_lost || is_round))
}

/// Whether a text is a date: with a month's name or a year of four digits, or if it need not be sure with one
/// of two.
pub fn is_date(text: &str, is_sure: bool) -> bool {
    let day = text.split_once(" 00:00").unwrap_or((text, "")).0;
    let day = day.split_once("T00:00").unwrap_or((day, "")).0;
    let (mut numbers, mut months, mut has_year) = (0u32, 0u32, false);
    for part in day.split(|c: char| c == '-' || c == '.' || c == '/' || c == ' ') {
        if part.is_empty() {
            continue;
        }
        if is_digits(part) && part.len() <= 4 {
            numbers = numbers.saturating_add(1);
            has_year |= part.len() == 4 || (part.len() == 2 && !is_sure);
        } else if is_month(part) {
            months = months.saturating_add(1);
        } else {
            return false;
        }
    }
    match (numbers, months) {
        (1 | 2, 1) => true,
        (3, 0) => has_year,
        _ => false,
    }
}

/// Whether a word is a month's name, or its beginning.
fn is_month(word: &str) -> bool {
    let is_begun = MONTHS.split('|').any(|month| begins(word, month));
    is_begun && word.len() <= 10 && !has_digit(word)
}

/// Whether a text is an amount with groups of thousands that no other reading has.
pub fn is_grouped(text: &str) -> bool {
    let Some(place) = text.find(|c: char| !c.is_ascii_digit()) else {
        return false;
    };
    let (_, behind) = text.split_at(place);
    let mark = behind.chars().next().unwrap_or(' ');
    let is_mark = mark == '.' || mark == ',';
    if !is_mark && mark != '\'' && mark != '\u{2019}' && !mark.is_whitespace() {
        return false;
    }
    let is_decimal = |c: char| (c == '.' || c == ',') && c != mark;
    let (whole, part) = text.split_once(is_decimal).unwrap_or((text, ""));
    let mut groups = 0u32;
    for group in whole.split(mark) {
        let is_whole = group.len() == 3 || (groups == 0 && group.len() < 3);
        if !is_digits(group) || !is_whole {
            return false;
        }
        groups = groups.saturating_add(1);
    }
    let is_sure = !is_mark || groups > 2 || !part.is_empty();
    groups > 1 && is_sure && (part.is_empty() || is_digits(part))
}

/// Whether a text has a character that can't be seen.
pub fn has_hidden(text: &str) -> bool {
    text.contains(|c: char| is_hidden(u32::from(c)))
}

/// A text without the characters at its ends that can't be seen.
pub fn without_hidden(text: &str) -> &str {
    text.trim_matches(|c: char| c.is_whitespace() || is_hidden(u32::from(c)))
}

/// Whether a character marks a text as one, or a formula, beside an id.
fn is_mark(c: char) -> bool {
    "'\"=".contains(c)
}

/// An id without what gets changed: marks at its ends, case, white space, characters that can't be seen, zeros before a number,
/// and `.0` at its end.
pub fn plain(alloc: Global, id: &str) -> Result<String, AllocError> {
    let id = without_hidden(id).trim_matches(is_mark);
    let id = id.strip_suffix(".0").unwrap_or(id);
    let mut out = String::new(alloc);
    let (mut is_front, mut is_zero) = (true, false);
    for c in id.chars() {
        if c.is_whitespace() || is_hidden(u32::from(c)) {
            continue;
        }
        if c == '0' && is_front {
            is_zero = true;
            continue;
        }
        if is_zero && !c.is_ascii_digit() {
            out.push('0')?;
        }
        is_zero = false;
        is_front = !(c.is_ascii_digit() || c == '.' || c == ',');
        push_small(&mut out, c)?;
    }
    if is_zero {
        out.push('0')?;
    }
    Ok(out)
}

/// Puts a character, a letter of any alphabet as a small one: `i` with or without its dot, `ß` as `ss`.
fn push_small(out: &mut String, c: char) -> Result<(), AllocError> {
    match c {
        'I' | '\u{130}' | '\u{131}' => out.push('i'),
        '\u{df}' | '\u{1e9e}' => out.push_str("ss"),
        c => out.push(c.to_lowercase().next().unwrap_or(c)),
    }
}

/// An id with the digits that its letters look like.
pub fn with_digits(alloc: Global, id: &str) -> Result<String, AllocError> {
    let mut out = String::new(alloc);
    for c in id.chars() {
        out.push(match c {
            'O' | 'o' => '0',
            'I' | 'l' => '1',
            'S' => '5',
            'B' => '8',
            'Z' => '2',
            'G' => '6',
            _ => c,
        })?;
    }
    Ok(out)
}

/// The form of an id: a mark for each digit, or for each number if it need not be exact; without digits a
/// mark for each letter, or for all of them.
pub fn form_of(alloc: Global, id: &str, is_exact: bool) -> Result<String, AllocError> {
    let mut out = String::new(alloc);
    let has_digits = has_digit(id);
    let mut before = ' ';
    for c in id.chars() {
        let mark = match c {
            '0'..='9' => '9',
            _ if has_digits => c,
            _ => 'a',
        };
        let is_marked = c.is_ascii_digit() || !has_digits;
        if is_exact || !is_marked || mark != before {
            out.push(mark)?;
        }
        before = if is_marked { mark } else { ' ' };
    }
    Ok(out)
}

/// Whether two ids have different forms, where numbers need not be as long.
pub fn differ_in_form(alloc: Global, one: &str, other: &str) -> Result<bool, AllocError> {
    Ok(form_of(alloc, one, false)?.as_str() != form_of(alloc, other, false)?.as_str())
}

/// How many zeros a text has.
fn zeros_of(text: &str) -> usize {
    count_of(text.as_bytes(), b'0')
}

/// How two ids differ that are alike, and whether it is the second that seems to be changed.
pub fn how_differs(one: &str, other: &str) -> (Difference, bool) {
    let has_space = |text: &str| text.contains(|c: char| c.is_whitespace());
    if has_hidden(one) || has_hidden(other) {
        (Difference::Hidden, has_hidden(other))
    } else if has_space(one) || has_space(other) {
        (Difference::Spaces, false)
    } else if one.ends_with(".0") || other.ends_with(".0") {
        (Difference::PointZero, other.ends_with(".0"))
    } else if one.trim_matches(is_mark) == other.trim_matches(is_mark) {
        (Difference::Marks, !one.contains(is_mark))
    } else if zeros_of(one) == zeros_of(other) {
        (Difference::Case, false)
    } else {
        (Difference::Zeros, other.len() < one.len())
    }
}

/// Whether a character is a control character, or one that is not seen or turns the direction of a line.
pub fn is_hidden(code: u32) -> bool {
    match code {
        0..=0x1f | 0x7f..=0x9f | 0xad | 0x61c | 0xfeff => true,
        0x200b..=0x200f | 0x2028..=0x202e | 0x2060..=0x206f => true,
        0xfff9..=0xfffb | 0xe0000..=0xe007f => true,
        _ => false,
    }
}

/// Whether a text has no such character but line ends.
pub fn is_plain(text: &str) -> bool {
    !text.contains(|c: char| c != '\n' && is_hidden(u32::from(c)))
}
