//! The exact spelling of numbers.

ghost use Rattle.std.specs.Prelude.{◌≡◌, ◌≢◌, ◌<◌, ◌^◌, ℕ, decimal, IfNone, IfSome};

/// The number that the text spells in decimal: no sign, no leading zero (0 is `0`), and at most
/// 4,294,967,295.
pub fn read_number(text: &str) -> Option<u32>
    ensures spelled { IfSome result (λ number. text.now ≡ decimal number) }
    ensures other { IfNone result ((number : ℕ) → number < 2 ^ 32 → text.now ≢ decimal number) }
{
    // A sign or a leading zero comes before `1`.
    let bytes = text.as_bytes();
    if bytes.len() > 1 && bytes[0] < b'1' {
        return None;
    }
    text.parse().ok()
}
