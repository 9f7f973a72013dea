//! A text from outside, written so that it stays text.

ghost use Rattle.std.specs.Prelude.{◌≡◌, ◌++◌, ◌||◌, ◌==◌, ◌↔◌, IsTrue, OnOk, false};
ghost use Rattle.pb_page.specs.Markup.{character, is_delimiter, written};
ghost use Rattle.pb_page.specs.Inner.Controls.{is_control};

use itoa::Buffer;
use pb_core::no_memory::NoMemory;

/// Writes a text so that it stays text, and is read as it was.
pub(crate) fn write_text(page: &mut Vec<u8>, text: &str) -> Result<(), NoMemory>
    ensures { OnOk result (page.new.items ≡ page.old.items ++ written text.now) }
{
    let bytes = text.as_bytes();
    for byte in bytes {
        write_byte(page, *byte)?;
    }
    Ok(())
}

/// Writes a byte of a text: what could be taken for markup, and control characters, by their numbers.
pub(crate) fn write_byte(page: &mut Vec<u8>, byte: u8) -> Result<(), NoMemory>
    ensures { OnOk result (page.new.items ≡ page.old.items ++ character byte) }
{
    if stands_for_itself(byte) {
        page.push(byte)?;
        return Ok(());
    }
    let mut digits = Buffer::new();
    page.extend_from_slice(b"&#")?;
    page.extend_from_slice(digits.format(byte).as_bytes())?;
    page.extend_from_slice(b";")?;
    Ok(())
}

/// Whether a byte of a text is written as it is.
fn stands_for_itself(byte: u8) -> bool
    ensures { IsTrue result ↔ (((byte == 38) || (is_delimiter byte || is_control byte)) ≡ false) }
{
    !matches!(byte, b'&' | b'<' | b'>' | b'"' | b'\'' | 0..=31 | 127)
}
