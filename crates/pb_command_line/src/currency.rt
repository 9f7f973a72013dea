//! Currencies that a page may show beside its amounts.

/// Whether a text may stand beside an amount as its currency: one with a digit would be read as a part of the
/// amount.
pub fn is_currency(text: &str) -> bool {
    for character in text.chars() {
        if is_digit(u32::from(character)) {
            return false;
        }
    }
    true
}

/// Whether a character is a digit, a raised or a lowered one too, in a script of today.
fn is_digit(code: u32) -> bool {
    match code {
        0x30..=0x39 | 0xb2..=0xb3 | 0xb9 | 0x2070..=0x2079 | 0x2080..=0x2089 | 0xff10..=0xff19 =>
            true,
        // Arabic, Persian and N'Ko; then the scripts of India, whose digits are 128 apart.
        0x660..=0x669 | 0x6f0..=0x6f9 | 0x7c0..=0x7c9 => true,
        0x966..=0xdef => matches!(code % 128, 0x66..=0x6f),
        // Thai, Lao, Tibetan, Burmese, Khmer and Mongolian.
        0xe50..=0xe59 | 0xed0..=0xed9 | 0xf20..=0xf29 => true,
        0x1040..=0x1049 | 0x17e0..=0x17e9 | 0x1810..=0x1819 => true,
        _ => false,
    }
}
