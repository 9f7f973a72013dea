//! By what it is judged which of two rules applies.

/// By what it is judged which of two rules applies, as the `DecidedBy` of `pb_commands`.
#[derive(Clone, Copy)]
pub enum Decider {
    /// By how many choices of a voter win.
    Choices,
    /// By what these cost.
    Worth,
}

const CHOICES: &str = "choices";

const WORTH: &str = "worth";

/// Their names.
pub(crate) const DECIDERS: &[&str] = &[CHOICES, WORTH];

/// What stands before the name of one behind that of a rule.
pub(crate) const BEFORE: &str = "/decide=";

impl Decider {
    /// The one with this name, if one has it.
    pub fn named(name: &str) -> Option<Decider> {
        if name == CHOICES {
            Some(Decider::Choices)
        } else if name == WORTH {
            Some(Decider::Worth)
        } else {
            None
        }
    }

    /// Its name.
    pub(crate) fn name(self) -> &'static str {
        match self {
            Decider::Choices => CHOICES,
            Decider::Worth => WORTH,
        }
    }
}

/// The name of a rule, and the decider that is named behind it, if one is.
pub(crate) fn split_name(name: &str) -> (&str, Option<Decider>) {
    match name.rsplit_once(BEFORE) {
        Some((rule, by)) => match Decider::named(by) {
            Some(decider) => (rule, Some(decider)),
            None => (name, None),
        },
        None => (name, None),
    }
}
