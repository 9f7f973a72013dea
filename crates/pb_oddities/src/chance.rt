//! What can hardly be by chance.

/// Whether so many times the chance that so many in turn are so is less than one, if of all this part is so by chance.
pub fn is_no_chance(times: u64, (part, all): (u64, u64), length: u64) -> bool {
    let mut chance = times.saturating_mul(64);
    for _ in 0..length {
        chance = chance.saturating_mul(part).checked_div(all).unwrap_or(0);
    }
    chance < 64
}
