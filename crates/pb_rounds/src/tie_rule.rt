//! Which of equal projects comes first.

ghost use Rattle.std.specs.Prelude.{◌≡◌, ◌≢◌, ◌++◌, ℕ, IfOk, IfSome, List, None, codes, false, string_bytes, true};
ghost use Rattle.std.specs.List.{list_all};
ghost use Rattle.std.specs.Str.{bytes_eq};
ghost use Rattle.pb_rounds.specs.Inner.RuleNames.{is_seed_byte};
ghost use Rattle.pb_rounds.specs.Inner.RuleNames.{keys_name};
ghost use Rattle.pb_rounds.specs.RuleNames.{is_seed, lot_name, ties_name};
ghost use Rattle.pb_rounds.specs.TieOrder.{by_file};

use arrayvec::ArrayString;
use pb_core::no_memory::NoMemory;
use std::alloc::Global;

/// By what equal projects are ordered, before a lot and their places in the file.
#[derive(Clone, Copy)]
pub enum TieKeys {
    /// Nothing.
    Nothing,
    /// Their votes, the most first.
    Votes,
    /// Their costs, the cheapest first.
    Cost,
    /// Their votes, and then their costs.
    VotesThenCost,
    /// Their costs, and then their votes.
    CostThenVotes,
}

impl TieKeys {
    /// Their name.
    fn name(self) -> &'static str
        ensures { result.now ≡ keys_name self }
    {
        match self {
            TieKeys::Nothing => "file",
            TieKeys::Votes => "votes",
            TieKeys::Cost => "cost",
            TieKeys::VotesThenCost => "votes,cost",
            TieKeys::CostThenVotes => "cost,votes",
        }
    }

    /// What stands before the seed of a lot that is drawn behind them.
    fn lot_name(self) -> &'static str
        ensures { result.now ≡ lot_name self }
    {
        match self {
            TieKeys::Nothing => "lot:",
            TieKeys::Votes => "votes,lot:",
            TieKeys::Cost => "cost,lot:",
            TieKeys::VotesThenCost => "votes,cost,lot:",
            TieKeys::CostThenVotes => "cost,votes,lot:",
        }
    }
}

/// Which of equal projects comes first: by these keys, then by a lot, and what is still equal by its place in
/// the file.
#[derive(Clone, Copy)]
pub struct TieRule {
    pub keys: TieKeys,
    /// The seed by which a lot is drawn, if one is: 1 to 64 of A-Z, a-z, 0-9 and `-`.
    pub lot: Option<ArrayString<64>>,
}

impl TieRule {
    /// The order of the file alone.
    pub fn file() -> TieRule
        ensures { result ≡ by_file }
    {
        TieRule {
            keys: TieKeys::Nothing,
            lot: None,
        }
    }

    /// Whether the order of the file alone decides.
    pub fn is_file(&self) -> bool
        ensures keys { result ≡ true → self.now.keys ≡ TieKeys.Nothing }
        ensures lot { result ≡ true → self.now.lot ≡ None }
        ensures name { result ≡ bytes_eq (ties_name self.now) (codes "file") }
    {
        match (self.keys, &self.lot) {
            (TieKeys::Nothing, None) => true,
            _ => false,
        }
    }

    /// The seed of its lot, if it has one.
    pub fn seed(&self) -> Option<&str>
        ensures none { result ≡ None → self.now.lot ≡ None }
        ensures some { IfSome result (λ seed. IfSome self.now.lot (λ own. seed.now ≡ own.bytes)) }
    {
        match &self.lot {
            None => None,
            Some(seed) => Some(seed.as_str()),
        }
    }

    /// Its name, such as `file`, `cost,votes` or `votes,lot:2026-07-01`.
    pub fn text(&self, alloc: Global) -> Result<String, NoMemory>
        ensures { IfOk result (λ text. string_bytes text ≡ ties_name self.now) }
    {
        match &self.lot {
            None => Ok(String::from_str(alloc, self.keys.name())?),
            Some(seed) => {
                let before = self.keys.lot_name();
                let seed = seed.as_str();
                Ok(format!(in alloc; "{before}{seed}")?)
            }
        }
    }
}

/// The rule for ties with this name, if one has it.
pub fn ties_named(name: &str) -> Option<TieRule>
    ensures some { IfSome result (λ ties. ties_name ties ≡ name.now) }
    ensures seed { IfSome result (λ ties. IfSome ties.lot (λ seed. is_seed seed.bytes ≡ true)) }
    ensures none { result ≡ None → (ties : TieRule) → IfSome ties.lot (λ seed. is_seed seed.bytes ≡ true)
        → ties_name ties ≢ name.now }
{
    match keys_named(name) {
        Some(keys) => Some(TieRule { keys, lot: None }),
        None => lot_named(name),
    }
}

/// The rule for ties with this name, which draws a lot, if one has it.
fn lot_named(name: &str) -> Option<TieRule>
    ensures some { IfSome result (λ ties. ties_name ties ≡ name.now) }
    ensures seed { IfSome result (λ ties. IfSome ties.lot (λ seed. is_seed seed.bytes ≡ true)) }
    ensures none { result ≡ None → (keys : TieKeys) (seed : List ℕ) → is_seed seed ≡ true
        → lot_name keys ++ seed ≢ name.now }
{
    if let Some(ties) = lot_behind(TieKeys::Nothing, name) {
        return Some(ties);
    }
    if let Some(ties) = lot_behind(TieKeys::Votes, name) {
        return Some(ties);
    }
    if let Some(ties) = lot_behind(TieKeys::Cost, name) {
        return Some(ties);
    }
    if let Some(ties) = lot_behind(TieKeys::VotesThenCost, name) {
        return Some(ties);
    }
    lot_behind(TieKeys::CostThenVotes, name)
}

/// The rule for ties with this name that draws a lot behind these keys, if it is one.
fn lot_behind(keys: TieKeys, name: &str) -> Option<TieRule>
    ensures some { IfSome result (λ ties. ties_name ties ≡ name.now) }
    ensures seed { IfSome result (λ ties. IfSome ties.lot (λ seed. is_seed seed.bytes ≡ true)) }
    ensures none { result ≡ None → (seed : List ℕ) → is_seed seed ≡ true → lot_name keys ++ seed ≢ name.now }
{
    match name.strip_prefix(keys.lot_name()) {
        Some(seed) => with_lot(keys, seed),
        None => None,
    }
}

/// These keys and then a lot by this seed, if it is one.
fn with_lot(keys: TieKeys, seed: &str) -> Option<TieRule>
    ensures some { IfSome result (λ ties. ties_name ties ≡ lot_name keys ++ seed.now) }
    ensures seed { IfSome result (λ ties. IfSome ties.lot (λ seed. is_seed seed.bytes ≡ true)) }
    ensures none { result ≡ None → is_seed seed.now ≡ false }
{
    match seed_of(seed) {
        Some(seed) => Some(TieRule {
            keys,
            lot: Some(seed),
        }),
        None => None,
    }
}

/// A text as the seed of a lot, if it is one.
fn seed_of(text: &str) -> Option<ArrayString<64>>
    ensures some { IfSome result (λ seed. seed.bytes ≡ text.now) }
    ensures seed { IfSome result (λ seed. is_seed seed.bytes ≡ true) }
    ensures none { result ≡ None → is_seed text.now ≡ false }
{
    if !is_seed(text) {
        return None;
    }
    match ArrayString::<64>::from(text) {
        Ok(seed) => Some(seed),
        Err(_) => None,
    }
}

/// Whether a text is one of 1 to 64 of A-Z, a-z, 0-9 and `-`.
fn is_seed(text: &str) -> bool
    ensures { result ≡ is_seed text.now }
{
    !text.is_empty() && text.len() <= 64 && has_seed_bytes(text.as_bytes())
}

/// Whether all of these bytes are A-Z, a-z, 0-9 or `-`.
fn has_seed_bytes(bytes: &[u8]) -> bool
    ensures { result ≡ list_all is_seed_byte bytes.now }
{
    bytes
        .iter()
        .all(|byte| byte.is_ascii_alphanumeric() || *byte == b'-')
}

/// The keys with this name, if they have one.
fn keys_named(name: &str) -> Option<TieKeys>
    ensures some { IfSome result (λ keys. keys_name keys ≡ name.now) }
    ensures none { result ≡ None → (keys : TieKeys) → keys_name keys ≢ name.now }
{
    if name == "file" {
        Some(TieKeys::Nothing)
    } else if name == "votes" {
        Some(TieKeys::Votes)
    } else if name == "cost" {
        Some(TieKeys::Cost)
    } else if name == "votes,cost" {
        Some(TieKeys::VotesThenCost)
    } else if name == "cost,votes" {
        Some(TieKeys::CostThenVotes)
    } else {
        None
    }
}
