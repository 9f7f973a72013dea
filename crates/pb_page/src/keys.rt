//! The keys of the sentences: the number of each is the index of its row in the table.

pub(crate) const LANG: u16 = 0;

pub(crate) const DIR: u16 = 1;

pub(crate) const TITLE: u16 = 2;

pub(crate) const VOTED: u16 = 3;

pub(crate) const WON: u16 = 4;

pub(crate) const BUDGET_HEADING: u16 = 5;

pub(crate) const PICTURE: u16 = 6;

pub(crate) const BUDGET_CAPTION: u16 = 7;

pub(crate) const WINNERS_HEADING: u16 = 8;

pub(crate) const WINNERS_CAPTION: u16 = 9;

pub(crate) const NO_WINNERS: u16 = 10;

pub(crate) const NO_ELECTED: u16 = 11;

pub(crate) const ROUND: u16 = 12;

pub(crate) const PROJECT: u16 = 13;

pub(crate) const COST: u16 = 14;

pub(crate) const VOTES: u16 = 15;

pub(crate) const PRICE: u16 = 16;

pub(crate) const IN_FULL: u16 = 17;

pub(crate) const ADDED_HEADING: u16 = 18;

pub(crate) const ADDED_CAPTION: u16 = 19;

pub(crate) const NUMBER: u16 = 20;

pub(crate) const OTHERS_HEADING: u16 = 21;

pub(crate) const OTHERS_CAPTION: u16 = 22;

pub(crate) const NO_OTHERS: u16 = 23;

pub(crate) const LEFT: u16 = 24;

pub(crate) const MISSING: u16 = 25;

pub(crate) const SHORT: u16 = 26;

pub(crate) const VOTERS_HEADING: u16 = 27;

pub(crate) const GOT: u16 = 28;

pub(crate) const VOTERS_CAPTION: u16 = 29;

pub(crate) const CHOSEN: u16 = 30;

pub(crate) const VOTERS: u16 = 31;

pub(crate) const EXACTLY: u16 = 32;

pub(crate) const OR_MORE: u16 = 33;

pub(crate) const RULE_HEADING: u16 = 34;

pub(crate) const SHARE: u16 = 35;

pub(crate) const SUPPORTERS: u16 = 36;

pub(crate) const BY_VOTES: u16 = 37;

pub(crate) const BY_COST: u16 = 38;

pub(crate) const PLAIN: u16 = 39;

pub(crate) const SHARE_UNRAISED: u16 = 40;

pub(crate) const RAISED: u16 = 41;

pub(crate) const UNRAISED: u16 = 42;

pub(crate) const FILLED_UP: u16 = 43;

pub(crate) const METHOD_PLAIN: u16 = 44;

pub(crate) const METHOD_FILLED: u16 = 45;

pub(crate) const METHOD_ADD1: u16 = 46;

pub(crate) const CHECK_HEADING: u16 = 47;

pub(crate) const CHECK_BYTES: u16 = 48;

pub(crate) const RECOUNT: u16 = 49;

pub(crate) const LINK: u16 = 50;

pub(crate) const PROGRAM_TOO: u16 = 51;

pub(crate) const PROGRAM: u16 = 52;

pub(crate) const COMPARED_HEADING: u16 = 53;

pub(crate) const COMPARED_CAPTION: u16 = 54;

pub(crate) const COMPARED_RULE: u16 = 55;

pub(crate) const EQUAL_SHARES: u16 = 56;

pub(crate) const MOST_VOTES: u16 = 57;

pub(crate) const COMPARED_WON: u16 = 58;

pub(crate) const WITHOUT: u16 = 59;

pub(crate) const MORE: u16 = 60;

pub(crate) const AMOUNT: u16 = 61;

// The nouns: each has three forms, that of one, of few and of many.

pub(crate) const PEOPLE: u16 = 62;

pub(crate) const TOPICS: u16 = 65;

pub(crate) const WINNERS: u16 = 68;

pub(crate) const ALL: u16 = 71;

pub(crate) const HAVE: u16 = 74;

pub(crate) const LACK: u16 = 77;

pub(crate) const TIMES: u16 = 80;

// Sentences and heads that only some pages have.

pub(crate) const NONE_WON: u16 = 83;

pub(crate) const BUDGET_NONE: u16 = 84;

pub(crate) const OPTIONS: u16 = 85;

pub(crate) const MADE_BY: u16 = 86;

pub(crate) const EXHAUSTED: u16 = 87;

pub(crate) const OVER: u16 = 88;

pub(crate) const ONLY_THEN: u16 = 89;

pub(crate) const TIES: u16 = 90;

pub(crate) const TIE_BY_VOTES: u16 = 91;

pub(crate) const TIE_BY_COST: u16 = 92;

pub(crate) const CATEGORIES_HEADING: u16 = 93;

pub(crate) const CATEGORIES_CAPTION: u16 = 94;

pub(crate) const NO_CATEGORY: u16 = 95;

pub(crate) const CATEGORY: u16 = 96;

pub(crate) const CATEGORY_WON: u16 = 97;

pub(crate) const CATEGORY_COST: u16 = 98;

pub(crate) const LEFT_SHORT: u16 = 99;

pub(crate) const OPTIONS_UNRAISED: u16 = 100;

pub(crate) const MEASURE_VOTES: u16 = 101;

pub(crate) const MEASURE_COST: u16 = 102;

pub(crate) const COMPLETION_NONE: u16 = 103;

pub(crate) const COMPLETION_ADD1: u16 = 104;

pub(crate) const COMPLETION_UTILITARIAN: u16 = 105;

pub(crate) const COMPLETION_ADD1U: u16 = 106;

pub(crate) const WORKS: u16 = 107;

pub(crate) const WORKS_UNRAISED: u16 = 108;

pub(crate) const WORKS_PICTURE: u16 = 109;

pub(crate) const WORKS_PICTURE_UNRAISED: u16 = 110;

pub(crate) const COMPARED_COST: u16 = 111;

pub(crate) const ONLY_BY_SHARES: u16 = 112;

pub(crate) const ONLY_BY_VOTES: u16 = 113;

pub(crate) const RULE_NAME: u16 = 114;

pub(crate) const CONTENTS: u16 = 115;

pub(crate) const FILES: u16 = 116;

pub(crate) const FILES_LINK: u16 = 117;

pub(crate) const WENT: u16 = 118;

pub(crate) const PAID: u16 = 119;

pub(crate) const PAID_MORE: u16 = 120;

pub(crate) const PAID_NOTHING: u16 = 121;

pub(crate) const KEPT: u16 = 122;

pub(crate) const NO_MORE: u16 = 123;

pub(crate) const TIE_ADDED: u16 = 124;

// Sentences of a count without shares.

pub(crate) const BUDGET_BY_VOTES: u16 = 125;

pub(crate) const BY_MOST_VOTES: u16 = 126;

pub(crate) const PASSED_OVER: u16 = 127;

pub(crate) const MOST_VOTES_FIRST: u16 = 128;

pub(crate) const TIE_WON: u16 = 129;

// Sentences where another rule than the file decides ties.

pub(crate) const BY_VOTES_TIED: u16 = 130;

pub(crate) const BY_COST_TIED: u16 = 131;

pub(crate) const FILLED_UP_TIED: u16 = 132;

pub(crate) const MOST_VOTES_TIED: u16 = 133;

pub(crate) const BY_MOST_VOTES_TIED: u16 = 134;

pub(crate) const ADDED_CAPTION_TIED: u16 = 135;

pub(crate) const TIES_TIED: u16 = 136;

pub(crate) const TIE_BY_VOTES_TIED: u16 = 137;

pub(crate) const TIE_BY_COST_TIED: u16 = 138;

pub(crate) const TIE_ADDED_TIED: u16 = 139;

pub(crate) const TIE_WON_TIED: u16 = 140;

pub(crate) const EQUALS: u16 = 141;

// Sentences where money is fine.

pub(crate) const BUDGET_FINE: u16 = 142;

pub(crate) const FINE_MONEY: u16 = 143;

// Sentences of a count that was decided between two rules.

pub(crate) const DECIDED_HEADING: u16 = 144;

pub(crate) const DECIDED_BY_CHOICES: u16 = 145;

pub(crate) const DECIDED_BY_WORTH: u16 = 146;
