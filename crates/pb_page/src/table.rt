//! All that a page says: the keys, and the sentences in English.

use crate::decided_sentences::DECIDED;

/// A sentence of a page.
#[derive(Clone, Copy)]
pub struct SentenceEntry {
    pub key: &'static str,
    /// The places that the sentence has to have, each once: place 0 is the first.
    pub numbers: &'static [&'static str],
    /// The places that it can have, after those.
    pub nouns: &'static [&'static str],
    pub english: &'static str,
}

/// A sentence without places.
macro_rules! plain {
    ($key:literal, $english:literal) => {
        SentenceEntry { key: $key, numbers: &[], nouns: &[], english: $english }
    };
}

/// A sentence with these places of numbers, and no nouns.
macro_rules! placed {
    ($key:literal, $numbers:expr, $english:literal) => {
        SentenceEntry { key: $key, numbers: $numbers, nouns: &[], english: $english }
    };
}

/// How many sentences there are.
pub fn entries() -> usize {
    let mut many: usize = 0;
    for list in lists() {
        many = many.saturating_add(list.len());
    }
    many
}

/// The sentence at this index.
pub fn entry_at(index: usize) -> Option<SentenceEntry> {
    let mut index = index;
    for list in lists() {
        match list.get(index) {
            Some(entry) => return Some(*entry),
            None => index = index.saturating_sub(list.len()),
        }
    }
    None
}

/// The sentence with this key, and its index.
pub(crate) fn entry_of(key: &str) -> Option<(usize, SentenceEntry)> {
    for index in 0..entries() {
        if let Some(entry) = entry_at(index) {
            if entry.key == key {
                return Some((index, entry));
            }
        }
    }
    None
}

/// The lists of sentences, in the order of their keys' numbers. Each has a function of its own, since a proof writes out
/// all texts of a constant.
fn lists() -> [&'static [SentenceEntry]; 5] {
    [first(), middle(), later(), tied(), decided()]
}

fn first() -> &'static [SentenceEntry] {
    FIRST
}

fn middle() -> &'static [SentenceEntry] {
    MIDDLE
}

fn later() -> &'static [SentenceEntry] {
    LATER
}

fn tied() -> &'static [SentenceEntry] {
    TIED
}

fn decided() -> &'static [SentenceEntry] {
    DECIDED
}

/// The first sentences, in the order of their keys' numbers.
const FIRST: &[SentenceEntry] = &[
    plain!("lang", "en"),
    plain!("dir", "ltr"),
    plain!("title", "Participatory budgeting"),
    SentenceEntry {
        key: "lead.voted",
        numbers: &["voters", "projects", "budget"],
        nouns: &["people", "topics"],
        english: "{voters} {people} voted on {projects} {topics}, with a budget of {budget}.",
    },
    SentenceEntry {
        key: "lead.won",
        numbers: &["won", "spent", "left"],
        nouns: &["winners"],
        english: "{won} {winners} won, for {spent} in all; {left} of the budget is left.",
    },
    plain!("budget.heading", "Where the budget goes"),
    placed!(
        "budget.picture",
        &["budget", "spent", "left"],
        "Of {budget}, {spent} is spent and {left} is left."
    ),
    placed!(
        "budget.caption",
        &["spent", "left", "surplus"],
        "Each block is a winning project, as wide as its cost, in the order of the tables below. Spent: {spent}. Left: {left}. Paid beyond the costs, by rounding prices up: {surplus}."
    ),
    plain!("winners.heading", "The winners"),
    plain!(
        "winners.caption",
        "In order of election. What supporters paid is taken from their shares alone. The bar is the project's part of the budget."
    ),
    plain!("winners.none", "No project won."),
    plain!(
        "winners.none_elected",
        "No project was elected by equal shares."
    ),
    plain!("column.round", "Round"),
    plain!("column.project", "Project"),
    plain!("column.cost", "Cost"),
    plain!("column.votes", "Votes"),
    plain!("column.price", "Each supporter paid at most"),
    plain!("column.in_full", "Paid that in full"),
    plain!("added.heading", "Added by votes"),
    plain!(
        "added.caption",
        "What was left of the budget went to the project with the most votes that it still paid for, again and again: of equal votes to the cheaper project, of equal costs to the first in the file. Nobody's share pays for these projects. The bar is the project's part of the budget."
    ),
    plain!("column.number", "Number"),
    plain!("others.heading", "The other projects"),
    plain!(
        "others.caption",
        "In the order of the file. What a project's supporters still have of their shares together, after the last round, and by how much that is less than its cost. The bar is what they have, as a part of its cost. What a project was short does not say how close it came to winning: at a lower cost all rounds would be counted anew, so a far smaller cut can be enough, or, where shares are raised, even a cut by the whole amount may be too small. The command pb_app whatif FILE --project ID looks for a cost at which the project would have won."
    ),
    plain!("others.none", "There are none."),
    plain!("column.left", "Its supporters still have"),
    plain!("column.missing", "Missing"),
    placed!("others.short", &["missing"], "{missing} short"),
    plain!("voters.heading", "What the voters got"),
    SentenceEntry {
        key: "voters.got",
        numbers: &["with", "voters", "without"],
        nouns: &["all", "have", "lack"],
        english: "{with} of {voters} {all} {have} at least one winner among their choices; {without} {lack} none.",
    },
    plain!(
        "voters.caption",
        "How many of a ballot's choices won, and on how many ballots."
    ),
    plain!("column.chosen", "Winners chosen"),
    plain!("column.voters", "Voters"),
    placed!("voters.exactly", &["number"], "{number}"),
    placed!("voters.or_more", &["number"], "{number} or more"),
];

/// The sentences behind them, on how it was counted and how to check it.
const MIDDLE: &[SentenceEntry] = &[
    plain!("rule.heading", "How it was counted"),
    SentenceEntry {
        key: "rule.share",
        numbers: &["share", "raises", "step"],
        nouns: &["times"],
        english: "Each voter got the same share, {share}: an equal part of the budget and {raises} {times} of {step}.",
    },
    plain!(
        "rule.supporters",
        "A project could be paid as long as its supporters, the voters who chose it, could cover its cost together: each paid the same price, or all that was left of the share where that was less."
    ),
    plain!(
        "rule.by_votes",
        "In each round the project with the lowest price per supporter was elected, among equals the first in the file, and its supporters paid for it; the rounds ended when no other project could be paid."
    ),
    plain!(
        "rule.by_cost",
        "In each round the project whose price per supporter was the smallest part of its cost was elected, among equals the first in the file, and its supporters paid for it; the rounds ended when no other project could be paid."
    ),
    plain!(
        "rule.plain",
        "What these rounds left of the budget is not spent."
    ),
    placed!(
        "rule.share_unraised",
        &["share"],
        "Each voter got the same share, {share}: an equal part of the budget."
    ),
    plain!(
        "rule.raised",
        "To spend more of the budget, all rounds were held anew with higher and higher shares."
    ),
    plain!("rule.unraised", "The shares were not raised."),
    plain!(
        "rule.filled_up",
        "Of the projects that anyone voted for and that what is left of the budget still pays for, the one with the most votes is added, of equal votes the cheaper, of equal costs the first in the file, and so on."
    ),
    plain!(
        "method.plain",
        "This is the Method of Equal Shares (Peters, Pierczyński and Skowron 2021), without completion."
    ),
    plain!(
        "method.filled_up",
        "This is the Method of Equal Shares (Peters, Pierczyński and Skowron 2021), filled up by votes (utilitarian completion)."
    ),
    plain!(
        "method.add1",
        "This is the Method of Equal Shares (Peters, Pierczyński and Skowron 2021), with Add1 completion."
    ),
    plain!("check.heading", "Check it yourself"),
    plain!(
        "check.bytes",
        "Exactly these bytes were counted. The same bytes give the same winners by the same rule, whoever counts them."
    ),
    placed!(
        "check.recount",
        &["link"],
        "To recount them in a browser, open {link}."
    ),
    plain!("check.link", "the page that counts"),
    plain!(
        "check.program_too",
        "To recount the votes with the program, and to see the SHA-256 of each file:"
    ),
    plain!(
        "check.program",
        "To recount the votes, and to see the SHA-256 of each file:"
    ),
];

/// The sentences behind those, in the same order. A noun has a row for each of its forms.
const LATER: &[SentenceEntry] = &[
    plain!("compared.heading", "Compared with most votes"),
    plain!(
        "compared.caption",
        "By most votes, projects are taken in the order of their votes, and each wins if what is left of the budget still pays for it. This is only a comparison: the winners are the projects above. Those that win by one rule alone, if there are any, are listed below the table."
    ),
    plain!("compared.rule", "Rule"),
    plain!("compared.equal_shares", "This count"),
    plain!("compared.most_votes", "Most votes"),
    plain!("compared.won", "Winners"),
    plain!(
        "compared.without",
        "Voters with no winner among their choices"
    ),
    plain!(
        "compared.more",
        "Voters with more winners than by the other rule"
    ),
    placed!(
        "amount",
        &["amount", "currency"],
        "{amount}\u{a0}{currency}"
    ),
    plain!("people.one", "person"),
    plain!("people.few", "people"),
    plain!("people.many", "people"),
    plain!("topics.one", "project"),
    plain!("topics.few", "projects"),
    plain!("topics.many", "projects"),
    plain!("winners.one", "project"),
    plain!("winners.few", "projects"),
    plain!("winners.many", "projects"),
    plain!("all.one", "voter"),
    plain!("all.few", "voters"),
    plain!("all.many", "voters"),
    plain!("have.one", "has"),
    plain!("have.few", "have"),
    plain!("have.many", "have"),
    plain!("lack.one", "has"),
    plain!("lack.few", "have"),
    plain!("lack.many", "have"),
    plain!("times.one", "raise"),
    plain!("times.few", "raises"),
    plain!("times.many", "raises"),
    placed!(
        "lead.none",
        &["left"],
        "No project won. Nothing is spent: {left} is left."
    ),
    plain!("budget.none", "The bar is empty, because no project won."),
    placed!(
        "check.options",
        &["by", "measure", "then", "completion", "step", "limit"],
        "Options of this count: measure {measure} ({by}), completion {completion} ({then}), step {step} (--step takes hundredths), limit of raises {limit}."
    ),
    placed!(
        "check.made_by",
        &["program"],
        "This page was made by {program}."
    ),
    plain!(
        "rule.exhausted",
        "The shares were not raised further, because no other project that somebody chose fits into what is left of the budget."
    ),
    placed!(
        "rule.over",
        &["share", "cost"],
        "The shares were not raised further, because at the next share, {share}, the rounds would elect projects that cost {cost} together: more than the budget."
    ),
    plain!(
        "rule.only_then",
        "The rounds would elect these projects only with that raise:"
    ),
    plain!(
        "rule.ties",
        "Ties that the order of the file decided (the command pb_app ties lists all):"
    ),
    placed!(
        "rule.tie_by_votes",
        &["round", "winner", "other"],
        "Round {round}: {winner} was elected. {other} had the same price, but comes later in the file."
    ),
    placed!(
        "rule.tie_by_cost",
        &["round", "winner", "other"],
        "Round {round}: {winner} was elected. {other} had the same price in proportion to its cost, but comes later in the file."
    ),
    plain!("categories.heading", "The money by category"),
    plain!(
        "categories.caption",
        "Of each category: how many of its projects won, and what these cost. The bar is their part of the budget."
    ),
    plain!("categories.none", "No category"),
    plain!("column.category", "Category"),
    plain!("column.category_won", "Winners"),
    plain!("column.category_cost", "Cost of the winners"),
    plain!("column.left_short", "Left short when raising ended"),
    placed!(
        "check.options_unraised",
        &["by", "measure", "then", "completion"],
        "Options of this count: measure {measure} ({by}), completion {completion} ({then})."
    ),
    plain!("measure.votes", "the lowest price per supporter first"),
    plain!(
        "measure.cost",
        "the lowest price per supporter in proportion to its cost first"
    ),
    plain!("completion.none", "what is left is not spent"),
    plain!("completion.add1", "shares are raised"),
    plain!("completion.utilitarian", "what is left is spent by votes"),
    plain!(
        "completion.add1u",
        "shares are raised, and what is then left is spent by votes"
    ),
    placed!(
        "works.raised",
        &["budget", "voters", "share"],
        "At first the budget of {budget} is divided by the number of voters, {voters}: each has a share of {share}, which pays only for projects on their own ballot. If the shares then pay for no other project although some of the budget is left, all shares are raised by the same step and all rounds are held again from the start. Shares are for counting only: together they may come to more than the budget in the end, but what the winners cost together never does."
    ),
    placed!(
        "works.unraised",
        &["budget", "voters", "share"],
        "The budget of {budget} is divided by the number of voters, {voters}: each has a share of {share}, which pays only for projects on their own ballot. Those who chose a project pay for it together. So what the shares pay for never costs more than the budget."
    ),
    plain!(
        "works.picture",
        "A sketch with four voters, not to scale. Above: the budget in equal shares. In the middle: shares that were raised. Below: what the winners cost. The line shows where the budget ends."
    ),
    plain!(
        "works.picture_unraised",
        "A sketch with four voters, not to scale. Above: the budget in equal shares. Below: what the shares pay for. The line shows where the budget ends."
    ),
    plain!("compared.cost", "Cost of the winners"),
    plain!(
        "compared.only_by_shares",
        "These projects win by this count, but not by most votes:"
    ),
    plain!(
        "compared.only_by_votes",
        "These projects win by most votes, but not by this count:"
    ),
    placed!("check.rule", &["rule"], "The name of this rule is {rule}."),
    plain!("contents", "On this page"),
    placed!(
        "check.files",
        &["link"],
        "The file with new voter ids, the report and the tables are {link}. Check them with your own copy of recount.html."
    ),
    plain!("check.files_link", "published here"),
    plain!("others.went", "Where its supporters' money went"),
    placed!(
        "others.paid",
        &["amount", "project"],
        "{amount} for {project}"
    ),
    placed!(
        "others.paid_more",
        &["amount"],
        "{amount} for other projects"
    ),
    plain!("others.paid_nothing", "They paid for no project."),
    placed!("others.kept", &["amount"], "{amount} left"),
    plain!(
        "rule.no_more",
        "The rounds elect these projects now, but would not with that raise:"
    ),
    placed!(
        "rule.tie_added",
        &["winner", "other"],
        "{winner} was added by votes. {other} had as many votes and the same cost, but comes later in the file."
    ),
    placed!(
        "budget.by_votes",
        &["spent", "left"],
        "Each block is a winning project, as wide as its cost, in the order of the table below. Spent: {spent}. Left: {left}."
    ),
    plain!(
        "winners.by_votes",
        "In the order of their votes: of equal votes the cheaper project, of equal costs the first in the file. The bar is the project's part of the budget."
    ),
    plain!(
        "others.by_votes",
        "In the order of the file. They cost more than what was left of the budget when it was their turn, or nobody voted for them."
    ),
    plain!(
        "rule.most_votes",
        "The budget was spent by votes: as long as it paid for a project that anyone voted for, the one with the most votes won, of equal votes the cheaper, of equal costs the first in the file. Nobody had a share of the budget."
    ),
    placed!(
        "rule.tie_won",
        &["winner", "other"],
        "{winner} won. {other} had as many votes and the same cost, but comes later in the file."
    ),
];

/// Those of other rules for ties than the order of the file.
const TIED: &[SentenceEntry] = &[
    plain!(
        "rule.by_votes_tied",
        "In each round the project with the lowest price per supporter was elected, among equals the first by the rule for ties, and its supporters paid for it; the rounds ended when no other project could be paid."
    ),
    plain!(
        "rule.by_cost_tied",
        "In each round the project whose price per supporter was the smallest part of its cost was elected, among equals the first by the rule for ties, and its supporters paid for it; the rounds ended when no other project could be paid."
    ),
    plain!(
        "rule.filled_up_tied",
        "Of the projects that anyone voted for and that what is left of the budget still pays for, the one with the most votes is added, of equal votes the cheaper, of equal costs the first by the rule for ties, and so on."
    ),
    plain!(
        "rule.most_votes_tied",
        "The budget was spent by votes: as long as it paid for a project that anyone voted for, the one with the most votes won, of equal votes the cheaper, of equal costs the first by the rule for ties. Nobody had a share of the budget."
    ),
    plain!(
        "winners.by_votes_tied",
        "In the order of their votes: of equal votes the cheaper project, of equal costs the first by the rule for ties. The bar is the project's part of the budget."
    ),
    plain!(
        "added.caption_tied",
        "What was left of the budget went to the project with the most votes that it still paid for, again and again: of equal votes to the cheaper project, of equal costs to the first by the rule for ties. Nobody's share pays for these projects. The bar is the project's part of the budget."
    ),
    plain!(
        "rule.ties_tied",
        "Ties that this rule decided (the command pb_app ties lists all):"
    ),
    placed!(
        "rule.tie_by_votes_tied",
        &["round", "winner", "other"],
        "Round {round}: {winner} was elected. {other} had the same price, but comes later by the rule for ties."
    ),
    placed!(
        "rule.tie_by_cost_tied",
        &["round", "winner", "other"],
        "Round {round}: {winner} was elected. {other} had the same price in proportion to its cost, but comes later by the rule for ties."
    ),
    placed!(
        "rule.tie_added_tied",
        &["winner", "other"],
        "{winner} was added by votes. {other} had as many votes and the same cost, but comes later by the rule for ties."
    ),
    placed!(
        "rule.tie_won_tied",
        &["winner", "other"],
        "{winner} won. {other} had as many votes and the same cost, but comes later by the rule for ties."
    ),
    placed!(
        "rule.equals",
        &["ties"],
        "Where projects were equal, the rule for ties decided: {ties}. In such a rule, votes means that the project with more votes comes first, cost that the cheaper one does, and lot that their order was drawn from the text behind it. What is still equal comes in the order of the file."
    ),
    placed!(
        "budget.fine",
        &["spent", "left", "uncovered"],
        "Each block is a winning project, as wide as its cost, in the order of the tables below. Spent: {spent}. Left: {left}. Left uncovered of the costs, by rounding payments down: {uncovered}."
    ),
    plain!(
        "rule.fine_money",
        "Money was counted in small parts of a hundredth: prices were not rounded, and what each supporter paid was rounded down to such a part."
    ),
];
