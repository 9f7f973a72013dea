//! The numbers that options take.

use clap::ArgMatches;

/// An option that takes a number, and which numbers it takes.
#[derive(Clone, Copy)]
struct Numbered {
    name: &'static str,
    range: &'static str,
}

/// The options that take numbers. The ranges are those of the runs, which refuse other numbers of 32 bits.
const NUMBERED: &[Numbered] = &[
    Numbered {
        name: "step",
        range: "from 1 to 1000000000 (100 is 1.00)",
    },
    Numbered {
        name: "raises",
        range: "from 0 to 1000000",
    },
    Numbered {
        name: "workers",
        range: "from 1 to 64",
    },
    Numbered {
        name: "clerks",
        range: "from 1 to 64",
    },
    Numbered {
        name: "min",
        range: "from 0 to 4294967295",
    },
    Numbered {
        name: "first",
        range: "from 1 to 10000",
    },
    Numbered {
        name: "voters",
        range: "from 0 to 1000000",
    },
];

/// A text that was given in the place of a number of 32 bits.
#[derive(Clone, Copy)]
pub(crate) struct BadNumber<'a> {
    /// The option's name.
    pub(crate) name: &'static str,
    pub(crate) value: &'a str,
    /// Which numbers the option takes.
    pub(crate) range: &'static str,
}

impl BadNumber<'_> {
    /// Whether the text is a whole number, which is out of the range.
    pub(crate) fn is_whole(&self) -> bool {
        let digits = self.value.strip_prefix("-").unwrap_or(self.value);
        !digits.is_empty() && digits.as_bytes().iter().all(|byte| byte.is_ascii_digit())
    }
}

/// The first option that was given with a text that is no number of 32 bits, if there is one.
pub(crate) fn bad_number<'a>(given: &ArgMatches<'a>) -> Option<BadNumber<'a>> {
    for numbered in NUMBERED {
        if let Some(value) = given.get_str(numbered.name) {
            if value.parse::<u32>().is_err() {
                return Some(BadNumber {
                    name: numbered.name,
                    value,
                    range: numbered.range,
                });
            }
        }
    }
    None
}
