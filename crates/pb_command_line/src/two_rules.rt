//! What is wrong with the rules of a count by two.

/// For what most votes first is counted too.
#[derive(Clone, Copy)]
pub(crate) enum Comparing {
    /// For a comparison, whose other rule an option can name.
    Beside,
    /// For a comparison on a page.
    Page,
    /// To decide which of two rules applies.
    Deciding,
    /// For a by-law by which that is decided.
    Bylaw,
}

/// What is wrong with the rules of a count by two.
#[derive(Clone, Copy)]
pub(crate) enum TwoRules {
    /// The rule is most votes first, which it would be compared with.
    OneRule(Comparing),
    /// The rule would be compared with itself, as an option names it; it may be decided between them.
    BesideItself(bool),
    /// The name of the rule asks for a decision, which the command does not make.
    NoDecision,
    /// It asks a comparison for a decision.
    BothShown,
    /// A page is asked for a decision and a comparison.
    ComparedToo,
    /// The other rule is named, and nothing says which one applies.
    BesideAlone,
}

impl TwoRules {
    /// Says it on standard error.
    pub(crate) fn say<R: Eprint>(self, rt: &R) {
        let _ = match self {
            TwoRules::OneRule(by) => return by.say(rt),
            TwoRules::BesideItself(true) => eprintln!(rt;
                "error: both rules are the same, so there is nothing to decide. Name another rule with --beside, or omit --decide."
            ),
            TwoRules::BesideItself(false) => eprintln!(rt;
                "error: --beside names the rule that counts, which can't be compared with itself. Name another rule."
            ),
            TwoRules::NoDecision => eprintln!(rt;
                "error: the name that --profile gives asks for a decision between two rules, and this command looks at one rule only. Run `pb_app count` with this name: its row `decided` names the rule that applies. Give that one here."
            ),
            TwoRules::BothShown => eprintln!(rt;
                "error: `pb_app compare` shows the results of both rules, and does not decide. Omit /decide= and what follows it."
            ),
            TwoRules::ComparedToo => eprintln!(rt;
                "error: --compare shows the result beside that of most votes first, which may be the one that applies. Omit --compare: with a decision, the page says how many voters have more by each rule, and `pb_app compare` shows both results."
            ),
            TwoRules::BesideAlone => eprintln!(rt;
                "error: --beside names another rule, but nothing says which of the two applies. Add --decide (with --profile: /decide=choices or /decide=worth at the end of the name), or omit --beside."
            ),
        };
    }
}

impl Comparing {
    /// Says that the rule is most votes first itself.
    fn say<R: Eprint>(self, rt: &R) {
        let _ = match self {
            Comparing::Beside => eprintln!(rt;
                "error: the result is compared with that of most votes first, so it can't be counted by the same rule. Count by equal shares, or name another rule with --beside."
            ),
            Comparing::Page => eprintln!(rt;
                "error: the result is compared with that of most votes first, so it can't be counted by the same rule. Count by equal shares, or omit the comparison."
            ),
            Comparing::Deciding => eprintln!(rt;
                "error: both rules are most votes first, so there is nothing to decide. Name another rule with --beside."
            ),
            Comparing::Bylaw => eprintln!(rt;
                "error: this paragraph has most votes first as its second rule, so the first one can't be that too. Give a rule of equal shares, or write the sentences on another second rule yourself."
            ),
        };
    }
}
