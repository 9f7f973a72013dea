//! What a column of PROJECTS or VOTES may have that no count reads, as its name says.

use crate::prelude::*;
use pb_seen::changed::{begins, first_word, has_digit, has_one_of, has_part, has_word, is_one_of};

/// What columns of VOTES are called that have points, and then those that say how many ballots a row is.
pub const NUMBERS: &str =
    "points|score|weight|weights|count|ballots|ballot_count|num_ballots|number_of_ballots|\
    number_of_votes|voters|quantity|times|freq|_freq|n|n_break|papers|anzahl|count(*)";

/// How many of them give points.
pub const POINTS: usize = 2;

/// What columns are called that say which rows are valid, and how names of further ones begin, such as one
/// with the day on which a project was withdrawn, but for those with a word of something else.
const VALID: &str =
    "valid|is_valid|invalid|accepted|status|withdrawn|cancelled|deleted|duplicate|counted|finished|\
    completed|round|stan|stav|estado|stato|etat|état|statut|wazny|ważny|gueltig|gültig|platny|platný|geldig|valide|validation_status|\
    _validation_status|eligible|feasible|feasibility|decision|ocena|is_current|submitdate|signature|resident|\
    is_deleted|is_latest|is_spam|is_resident|excluded|included|eligibility|filter_$";

const BEGINNINGS: &str = "withdrawn|cancelled|invalid|removed|rejected_|deleted_|revoked|voided";

const OF_OTHERS: &str = "newsletter|last|previous|before|earlier";

/// How words begin that say which rows are valid, and what may stand beside one of them, which is alone.
const STEMS: &str =
    "valid|invalid|withdr|cancel|reject|spoil|spoilt|void|nullif|disqualif|verif|unverif|confirm|unconfirm|eligib|\
    ineligib|duplic|uncounted|test|active|inactive|signature|signed|unsigned|gült|ungült|gueltig|ungueltig|storn|ważn|\
    nieważn|wazn|niewazn|anulowan|odrzucon|válid|inválid|ongeldig|gyldig|ugyldig|annul|neplatn";

const BESIDE: &str = "is|has|was|ok|flag|vote|ballot|row|entry|record";

/// Those of them that may have something else, and others that may.
const VALID_OR_MORE: &str =
    "status|accepted|finished|completed|voted|has_voted|stan|stav|estado|stato|etat|état|statut";

/// What columns are called that say in which round a vote was cast.
const ROUNDS: &str = "round|tour|tura|runda|kolo|ronda|ronde|runde";

/// What columns of PROJECTS are called beside these that may have the answer of a check; and what any of them says of a
/// project that passed it, or failed.
const CHECKS: &str =
    "assessment|opinion|admitted|admissible|legal|lawful|check|legal_check|formal_check|legal_opinion|formal_opinion|\
    opinia|ocena_formalna";

pub const PASSED: &str =
    "positive|passed|pass|admitted|accepted|approved|legal|lawful|admissible|feasible|ok|pozytywna|pozytywny|positiv";

pub const FAILED: &str =
    "negative|failed|fail|not passed|not admitted|rejected|refused|not accepted|not approved|illegal|not legal|unlawful|\
    inadmissible|not admissible|unfeasible|infeasible|not feasible|not ok|negatywna|negatywny|negativ";

/// What columns are called that have remarks, which no list of words knows; how remarks begin that say that their row does
/// not count, and what may stand behind that.
pub const NOTES: &str =
    "remark|remarks|comment|comments|note|notes|uwagi|bemerkung|bemerkungen|anmerkung|poznámka|poznamka|observación|observacion|\
    observaciones|observation|observations|remarque|remarques|nota|notas|opmerking";

const NOT_COUNTED: &str =
    "invalid|not valid|not counted|does not count|void|duplicate|withdrawn|rejected|cancelled|canceled|\
    disqualified|ungültig|nieważny|nieważna|wycofany|wycofane|zurückgezogen|abgelehnt|anulado|anulada|nulo|annulé|annulée|nul|\
    annullato|annullata|neplatný|neplatná|ongeldig";

const BEHIND: &str = "|by|on|in|from|since|of|because|as|-|\u{2013}";

/// What columns, and keys of META, are called that name a district.
pub const DISTRICT: &str = "district|subunit|ward";

/// What columns are called that have currencies.
const CURRENCIES: &str =
    "currency|currencies|waluta|waehrung|währung|devise|moneda|valuta|mena|měna";

/// Columns that hold none unless they have lists of projects, though their values may be as ids are.
pub const OF_VOTERS: &str =
    "age|age_group|sex|gender|voting_method|channel|station|polling_station|ward|district|\
    subdistrict|neighborhood|unit|subunit|education|votes|class|school_class|klasa|form|group|\
    year_group|team|house|building|room|table|desk|urn";

/// Words in the name of a column of costs that may be later ones.
pub const LATER: &str =
    "after|corrected|correction|verified|verification|revised|updated|new|amended|changed";

/// Parts of the name of a column that may have the dates of the votes, and of one that has other dates.
const OF_DATES: &str = "date|time|day|submit|voted|cast|created|data|datum|czas|zeit|fecha";

const OF_OTHER_DATES: &str = "birth|born|regist|since|member|expir";

/// What stands in a column.
#[derive(Clone, Copy, PartialEq, Eq)]
pub enum Has {
    Points,
    /// How many ballots a row is.
    Ballots,
    /// Which rows are valid; or something else under a name that may mean that.
    Valid,
    ValidOrMore,
    Currencies,
    /// Perhaps units of the costs, or the answers of a check.
    Units,
    /// Perhaps dates of votes.
    Dates,
    /// Costs that may be later ones.
    Costs,
    /// Rounds of votes.
    Rounds,
    Notes,
    /// Districts of projects or voters.
    Districts,
}

/// Whether a remark begins with words which say that its row does not count.
pub fn says_not_counted(remark: &str) -> bool {
    let begin = remark
        .split(|c: char| ",;:.!(".contains(c))
        .next()
        .unwrap_or("");
    let (first, rest) = first_word(begin);
    let next = first_word(rest).0;
    let is_said = is_one_of(BEHIND, next) || has_digit(next);
    is_one_of(NOT_COUNTED, begin.trim()) || (is_one_of(NOT_COUNTED, first) && is_said)
}

/// Whether a column of this name says which rows are valid, or has remarks.
pub fn is_of_validity(name: &str) -> bool {
    let is_begun = BEGINNINGS.split('|').any(|word| begins(name, word));
    is_one_of(VALID, name)
        || is_one_of(NOTES, name)
        || (is_begun && !has_one_of(OF_OTHERS, name))
        || says_state(name)
}

/// Whether a name has one word, beside such as `is`, and it begins as one that says which rows are valid.
fn says_state(name: &str) -> bool {
    let mut words = name
        .split(|c: char| !c.is_alphanumeric())
        .filter(|word| !word.is_empty() && !is_one_of(BESIDE, word));
    let (first, other) = (words.next(), words.next());
    let is_begun = |word: &str| STEMS.split('|').any(|stem| begins(word, stem));
    other.is_none() && first.is_some_and(is_begun)
}

impl Has {
    /// The form of the oddity that a value of it is, among those of a column that says what should count.
    pub fn form(self, is_vote: bool) -> usize {
        match self {
            Has::Currencies => 2,
            Has::Rounds => 4,
            Has::Units => 5,
            Has::Dates => 6,
            Has::Districts if is_vote => 10,
            Has::Districts => 9,
            _ => usize::from(is_vote),
        }
    }

    /// What a column of another name may have.
    fn of_others(name: &str, is_votes: bool) -> Option<Has> {
        if !is_votes {
            (!has_one_of(OF_OTHERS, name)).then_some(Has::Units)
        } else if has_part(OF_DATES, name) && !has_part(OF_OTHER_DATES, name) {
            Some(Has::Dates)
        } else {
            None
        }
    }

    /// What a column of this name has, if that is known.
    pub fn by(name: &str, section: Section) -> Option<Has> {
        let is_votes = matches!(section, Section::Votes);
        let is_later = has_word(name, "cost") && has_one_of(LATER, name);
        if is_one_of(NOTES, name) {
            Some(Has::Notes)
        } else if !is_votes && is_one_of(CHECKS, name) {
            Some(Has::ValidOrMore)
        } else if is_one_of(ROUNDS, name) {
            is_votes.then_some(Has::Rounds)
        } else if is_one_of(VALID_OR_MORE, name) {
            Some(Has::ValidOrMore)
        } else if is_one_of(VALID, name) {
            Some(Has::Valid)
        } else if says_state(name) {
            Some(Has::ValidOrMore)
        } else if is_of_validity(name) {
            Some(Has::Valid)
        } else if is_one_of(DISTRICT, name) {
            Some(Has::Districts)
        } else if !is_votes && is_one_of(CURRENCIES, name) {
            Some(Has::Currencies)
        } else if !is_votes && is_later && !has_one_of("of", name) {
            Some(Has::Costs)
        } else {
            Has::of_others(name, is_votes)
        }
    }
}
