//! How finely money is counted.

ghost use Rattle.std.specs.Prelude.{◌≡◌, ◌≤◌};
ghost use Rattle.pb_price.specs.Grain.{in_parts};

/// How many parts a hundredth has in fine money, for each voter.
const PARTS_A_VOTER: u64 = 10_000;

/// How finely shares, prices, payments and rests are counted.
#[derive(Clone, Copy)]
pub enum Grain {
    /// In whole hundredths. A price is rounded up, so that no project gets less than its cost.
    Hundredths,
    /// In parts of a hundredth, 10,000 for each voter. A price is not rounded, and what is paid is rounded
    /// down to a part.
    Fine,
}

impl Grain {
    /// How many parts a hundredth has, where so many vote.
    pub fn parts(self, voters: u32) -> u64
        ensures parts { result ≡ in_parts self voters 1 }
        ensures some { 1 ≤ result }
    {
        match self {
            Grain::Hundredths => 1,
            Grain::Fine => (PARTS_A_VOTER * u64::from(voters)).max(1),
        }
    }
}
