//! Which form of a noun goes with a number.

ghost use Rattle.std.specs.Prelude.{◌≡◌};
ghost use Rattle.pb_page.specs.Words.{form_of};
ghost use Rattle.pb_page.specs.Inner.Nouns.{ends_in_few};

/// How a language chooses among the forms of a noun.
#[derive(Clone, Copy)]
pub enum Plural {
    /// By nothing: a noun has one form.
    Same,
    /// 1 has a form of its own, as in English and German.
    English,
    /// 0 and 1 have one, as in French.
    French,
    /// 1 has one, and so have the numbers that end in 2, 3 or 4, but not in 12, 13 or 14, as in Polish.
    Polish,
}

impl Plural {
    /// Which form goes with a number: 0 is that of one, 1 that of few, 2 that of many.
    pub fn form(self, number: u64) -> u16
        ensures { result ≡ form_of self number }
    {
        match self {
            Plural::Same => 2,
            Plural::English => if number == 1 { 0 } else { 2 },
            Plural::French => if number < 2 { 0 } else { 2 },
            Plural::Polish if number == 1 => 0,
            Plural::Polish => if ends_in_few(number) { 1 } else { 2 },
        }
    }
}

/// Whether a number ends in 2, 3 or 4, but not in 12, 13 or 14.
fn ends_in_few(number: u64) -> bool
    ensures { result ≡ ends_in_few number }
{
    let last = number % 10;
    let teens = number % 100 / 10 == 1;
    2 <= last && last <= 4 && !teens
}
