//! How amounts of money are shown to people.

/// How amounts of money are shown to people.
#[derive(Clone, Copy)]
pub struct Form<'a> {
    /// What stands before an amount, and what behind it, such as a currency.
    pub before: &'a str,
    pub after: &'a str,
    /// What stands between the groups of three digits.
    pub group: &'a str,
    /// What stands before the two decimals.
    pub point: &'a str,
    /// Amounts are whole, and are shown without decimals; one that is not is shown with them all the same.
    pub is_whole: bool,
}
