//! How a text goes out.

ghost use Rattle.std.specs.Prelude.{◌≡◌, ◌≤◌, ℕ, IfErr, OnOk, length, take};
ghost use Rattle.std.specs.Io.KnownBytes.{Appends};

use std::io::{ErrorKind, Write};

/// How often a write may be interrupted before it fails.
const MOST_INTERRUPTIONS: usize = 1_000;

/// Writes the whole text, and sees that it leaves the writer; `failed` is the fault of a writer that fails. What has
/// gone out then is the front of the text.
pub fn write_out<W: Write, F: Copy>(writer: &mut W, text: &[u8], failed: F) -> Result<(), F>
    ensures ok { OnOk result (Appends (W.contents writer.old) (W.contents writer.new) text.now) }
    ensures fault { IfErr result (λ fault. fault ≡ failed) }
    ensures front { IfErr result (λ fault. (n : ℕ)
        × Appends (W.contents writer.old) (W.contents writer.new) (take n text.now)) }
{
    let mut written = 0;
    for _ in 0..text.len().saturating_add(MOST_INTERRUPTIONS) {
        if written == text.len() {
            break;
        }
        match writer.write(&text[written..]) {
            Ok(0) => return Err(failed),
            Ok(more) => written += more,
            Err(error) => {
                if error.kind() != ErrorKind::Interrupted {
                    return Err(failed);
                }
            }
        }
    }
    if written < text.len() || writer.flush().is_err() {
        return Err(failed);
    }
    Ok(())
}
