//! What an argument of a command is.

/// What an argument of a command takes.
#[derive(Clone, Copy)]
pub(crate) enum Takes {
    /// The path of a file, which has to be named.
    Path,
    /// Where a text is read from, which its help calls so, behind an option.
    OptionalSource(&'static str),
    /// The path of a file, which its help calls so, behind an option.
    OptionalFile(&'static str),
    /// The path of a file, behind an option of this one letter too.
    OptionalPath(char),
    /// A whole number, which its help calls so.
    Number(&'static str),
    /// A whole number, where not one alone is asked about by an option of its own.
    NumberOfAll(&'static str),
    /// The name of a measure.
    Measure,
    /// The name of a completion, where no raises are left out by an option of their own.
    Completion,
    /// The name of a method.
    Method,
    /// By what it is judged which of two rules applies.
    Decide,
    /// The name of a rule for ties.
    Ties,
    /// How finely money is counted, by name.
    Money,
    /// The name of a rule, where none of what it says is said by an option of its own.
    Profile,
    /// A text, which its help calls so.
    Text(&'static str),
    /// An amount of money, where no further voters are asked about by an option of their own.
    Amount(&'static str),
    /// Nothing: it is given or not.
    Nothing,
    /// Nothing, where nothing is asked about one alone.
    All,
}

/// An argument of a command.
#[derive(Clone, Copy)]
pub(crate) struct Argument {
    pub(crate) name: &'static str,
    pub(crate) takes: Takes,
    pub(crate) help: &'static str,
}

impl Argument {
    /// Whether it is a file that has to be named, and no option.
    pub(crate) fn is_path(&self) -> bool {
        match self.takes {
            Takes::Path => true,
            _ => false,
        }
    }

    /// What its help calls its value.
    pub(crate) fn value_name(&self) -> &'static str {
        match self.takes {
            Takes::OptionalSource(name)
            | Takes::OptionalFile(name)
            | Takes::Number(name)
            | Takes::NumberOfAll(name)
            | Takes::Text(name)
            | Takes::Amount(name) => name,
            Takes::OptionalPath(_) => "PATH",
            Takes::Measure => "MEASURE",
            Takes::Completion => "COMPLETION",
            Takes::Method => "RULE",
            Takes::Decide => "BY",
            Takes::Ties => "TIES",
            Takes::Money => "MONEY",
            Takes::Profile => "NAME",
            Takes::Path | Takes::Nothing | Takes::All => self.name,
        }
    }
}
