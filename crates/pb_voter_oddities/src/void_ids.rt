//! Voters' ids with a word such as `void`, `test` or `total`, where nearly all ids have a number, those that are two numbers,
//! where nearly all are one, and those that end in a number of times.

use crate::prelude::*;
use pb_oddities::totals::has_total;
use pb_seen::amounts::whole_number;
use pb_seen::changed::{is_digits, is_one_of};
use pb_seen::fields::has_byte;

/// Such words, and how short they may be.
const WORDS: &str =
    "void|voided|invalid|cancelled|canceled|spoiled|spoilt|duplicate|rejected|withdrawn|revoked|test|demo|sample|dummy|asdf|qwerty|\
    zkouska|zkouška|prueba|essai|prova|anulado|annule|annullato|niewazny|nieważny|ungueltig|ungültig|neplatny|neplatný";

const SHORTEST: usize = 4;

/// How short a word for a total may be.
const SHORTEST_TOTAL: usize = 3;

/// How many words of an id are told apart.
const MOST: usize = 8;

/// Signs between two numbers.
const BETWEEN: &str = "-/&+,\u{2013}";

/// The fewest ids of two numbers that begin where the one before ends.
const FEWEST_CHAINED: u64 = 2;

/// The ids with such a word, two numbers, or a number of times.
#[derive(Clone, Copy)]
pub struct VoidIds {
    /// The first row with one and a vote, measured by how many there are: by how many words its id has, or at 0 if it has no
    /// digit or no other word.
    firsts: [Option<Odd>; MOST],
    /// How many ids have so many words, and how many have a digit.
    words: [u64; MOST],
    numbers: u64,
    /// The first row with two numbers, the second the larger one, measured by how many there are; and how many have one.
    pairs: Option<Odd>,
    alone: u64,
    /// The larger number of the last such row, and how many begin with the next one.
    last: Option<u64>,
    chained: u64,
    /// The first row with a word for a total and one project in its vote, and the first whose id ends in a number of times, each
    /// measured by how many there are.
    totals: Option<Odd>,
    times: Option<Odd>,
}

impl VoidIds {
    /// No id yet.
    pub fn new() -> VoidIds {
        VoidIds {
            firsts: [None; MOST],
            words: [0; MOST],
            numbers: 0,
            pairs: None,
            alone: 0,
            last: None,
            chained: 0,
            totals: None,
            times: None,
        }
    }

    /// Takes a row with an id of these bytes.
    pub fn take(&mut self, row: &Row<'_>, id: &[u8]) {
        let (mut run, mut longest, mut words, mut has_digit) = (0usize, 0usize, 0usize, false);
        let mut is_alone = true;
        for byte in id {
            run = if byte.is_ascii_alphabetic() {
                run.saturating_add(1)
            } else {
                0
            };
            longest = longest.max(run);
            words = words.saturating_add(usize::from(run == 1));
            has_digit |= byte.is_ascii_digit();
            is_alone &= byte.is_ascii_digit();
        }
        self.alone = self.alone.saturating_add(u64::from(is_alone));
        if has_digit && words == 0 && !is_alone {
            self.take_numbers(row);
        }
        if let Some(count) = self.words.get_mut(words) {
            *count = count.saturating_add(1);
        }
        self.numbers = self.numbers.saturating_add(u64::from(has_digit));
        if has_digit && ends_in_times(id) {
            let odd = row.odd(Oddity::SeveralBallots).in_form(6);
            self.times = Some(odd.at(odd.id_place).behind(self.times));
        }
        let may_be_word = longest >= SHORTEST_TOTAL && !has_byte(id, b'@');
        if may_be_word && !row.ballot().is_empty() {
            self.take_words(row, longest, if has_digit && words > 1 { words } else { 0 });
        }
    }

    /// Takes a row with a vote, whose id has a word of this length at most, by how many words are in it.
    fn take_words(&mut self, row: &Row<'_>, longest: usize, words: usize) {
        let odd = row.odd(Oddity::NoteRows);
        let odd = odd.at(odd.id_place);
        if longest >= SHORTEST && has_void_word(row.id()) {
            if let Some(first) = self.firsts.get_mut(words) {
                *first = Some(odd.in_form(12).behind(*first));
            }
        } else if row.ballot().len() == 1 && has_total(row.id()) {
            self.totals = Some(odd.in_form(16).behind(self.totals));
        }
    }

    /// Takes a row whose id may be two numbers.
    fn take_numbers(&mut self, row: &Row<'_>) {
        let Some((one, other)) = two_numbers(row.id()) else {
            return;
        };
        let is_next = self.last.is_some_and(|last| last.saturating_add(1) == one);
        self.chained = self.chained.saturating_add(u64::from(is_next));
        self.last = Some(other);
        let odd = row.odd(Oddity::NoteRows).in_form(13);
        self.pairs = Some(odd.at(odd.id_place).behind(self.pairs));
    }

    /// The first row with two numbers, if they are one in eight of so many at most, and all others are one number; or if two or
    /// more begin where the one before ends.
    pub fn pair(&self, voters: u64) -> Option<Odd> {
        let odd = self.pairs?;
        let are_others = odd.number.saturating_add(self.alone) == voters;
        let is_few = odd.number.saturating_mul(8) <= voters && are_others;
        if self.chained >= FEWEST_CHAINED {
            Some(odd.in_form(14))
        } else {
            is_few.then_some(odd)
        }
    }

    /// The first row with one, if they are one in eight of so many at most, and four in five ids have a digit. Ids with as many
    /// words as most others are no such.
    pub fn odd(&self, voters: u64) -> Option<Odd> {
        let mut first: Option<Odd> = None;
        for (place, odd) in self.firsts.iter().enumerate() {
            let alike = self.words.get(place).copied().unwrap_or(0);
            let is_as_most = place > 0 && alike.saturating_mul(2) > voters;
            if let (Some(odd), false) = (*odd, is_as_most) {
                first = Some(earlier_of(first, odd));
            }
        }
        let are_numbers = self.numbers.saturating_mul(5) >= voters.saturating_mul(4);
        let is_few = |odd: &Odd| are_numbers && odd.number.saturating_mul(8) <= voters;
        first.filter(is_few)
    }

    /// The first row with a word for a total, if these are two or more, and one in four of so many at most.
    pub fn total(&self, voters: u64) -> Option<Odd> {
        let is_few = |odd: &Odd| odd.number > 1 && odd.number.saturating_mul(4) <= voters;
        self.totals.filter(is_few)
    }

    /// The first row whose id ends in a number of times, if these are half of so many at most.
    pub fn bundle(&self, voters: u64) -> Option<Odd> {
        let is_few = |odd: &Odd| odd.number.saturating_mul(2) <= voters;
        self.times.filter(is_few)
    }
}

/// The earlier row of two, measured by both together.
fn earlier_of(one: Option<Odd>, other: Odd) -> Odd {
    let number = one.map_or(0, |odd| odd.number).saturating_add(other.number);
    let first = one.filter(|odd| odd.mark.at < other.mark.at);
    first.unwrap_or(other).by(number)
}

/// The two numbers that an id is, the second one the larger.
fn two_numbers(id: &str) -> Option<(u64, u64)> {
    let (one, other) = id.split_once(|c: char| BETWEEN.contains(c))?;
    let (one, other) = (one.trim(), other.trim());
    if !is_digits(one) || !is_digits(other) {
        return None;
    }
    let (one, other) = (whole_number(one)?, whole_number(other)?);
    (one < other).then_some((one, other))
}

/// Whether an id ends in a number of times, as `W005 x3`.
fn ends_in_times(id: &[u8]) -> bool {
    let mut bytes = id.iter().rev().skip_while(|byte| byte.is_ascii_digit());
    let is_times = matches!(bytes.next(), Some(b'x' | b'X' | b'*'));
    let is_apart = matches!(bytes.next(), Some(b' ' | b'-' | b'_' | b'('));
    is_times && is_apart && id.last().is_some_and(|byte| byte.is_ascii_digit())
}

/// Whether an id has such a word.
fn has_void_word(id: &str) -> bool {
    id.split(|c: char| !c.is_alphabetic())
        .any(|word| is_one_of(WORDS, word))
}
