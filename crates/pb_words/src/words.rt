//! Words that are being written: text from outside is made fit for a terminal.

use pb_core::money::put_amount;
use pb_seen::changed::{is_hidden, is_plain};
use std::alloc::{AllocError, Global};
use std::io::Error;
use std::str;

/// The most characters of a value that are shown.
const MOST_SHOWN: usize = 60;

/// The most characters of a file's name that are shown.
const MOST_OF_NAME: usize = 4096;

/// What stands in words in the place of a `{}`.
#[derive(Clone, Copy)]
pub enum PlaceholderValue<'v> {
    /// A text that is the program's own.
    Own(&'v str),
    Number(u64),
    /// So many of this unit: `1 raise`, `2 raises`.
    Count(u64, &'v str),
    /// The numbers of so many things, counted from 0: `0`, `0 and 1`, `0 to 7`.
    Numbers(u64),
    /// An amount of so many hundredths, in units: `10.05`.
    Amount(u64),
    /// A text from outside, in quotes and cut after 60 characters; three dots behind them say that it goes
    /// on.
    Quoted(&'v str),
    /// Bytes from outside, which may be no text, in quotes and cut after 60 characters.
    Bytes(&'v [u8]),
    /// The name of a file as it was given; none is standard input.
    Name(Option<&'v str>),
    /// The name of a file beside the one with this path, which has this end more.
    Beside(&'v str, &'v str),
}

/// Words that were written, unless memory was refused.
pub type Said = Result<String, AllocError>;

/// Words that are being written. Where memory is refused they are void, which their end tells.
#[derive(Drop)]
pub struct WordsWriter {
    text: String,
    is_whole: bool,
    /// Whether line ends, quotation marks and backslashes stay as they are.
    is_text: bool,
}

impl WordsWriter {
    /// No words yet.
    pub fn new(alloc: Global) -> WordsWriter {
        WordsWriter {
            text: String::new(alloc),
            is_whole: true,
            is_text: false,
        }
    }

    /// The words, where no memory was refused.
    pub fn finish(self) -> Said {
        if self.is_whole {
            Ok(self.text)
        } else {
            Err(AllocError)
        }
    }

    /// Says that memory was refused.
    pub fn fail(&mut self) {
        self.is_whole = false;
    }

    /// Puts a text that is the program's own.
    pub fn put(&mut self, piece: &str) {
        self.is_whole &= self.text.push_str(piece).is_ok();
    }

    /// Puts a text that is the program's own, with the next one of these values in place of each `{}`.
    pub fn fill(&mut self, form: &str, values: &[PlaceholderValue<'_>]) {
        for (place, piece) in form.split("{}").enumerate() {
            if place > 0 && place <= values.len() {
                self.put_value(&values[place - 1]);
            }
            self.put(piece);
        }
    }

    fn put_value(&mut self, value: &PlaceholderValue<'_>) {
        match value {
            PlaceholderValue::Own(text) => self.put(text),
            PlaceholderValue::Number(number) => self.put_number(*number),
            PlaceholderValue::Count(count, unit) => {
                self.put_number(*count);
                self.put(" ");
                self.put(unit);
                self.put(if *count == 1 { "" } else { "s" })
            }
            PlaceholderValue::Numbers(0 | 1) => self.put("0"),
            PlaceholderValue::Numbers(2) => self.put("0 and 1"),
            PlaceholderValue::Numbers(count) => {
                self.put("0 to ");
                self.put_number(count.saturating_sub(1))
            }
            PlaceholderValue::Amount(amount) => {
                self.is_whole &= put_amount(&mut self.text, u128::from(*amount)).is_ok();
            }
            PlaceholderValue::Quoted(text) => self.put_quoted(text.as_bytes()),
            PlaceholderValue::Bytes(bytes) => self.put_quoted(bytes),
            PlaceholderValue::Name(path) => self.put_name(path.unwrap_or("standard input")),
            PlaceholderValue::Beside(path, end) => {
                self.put_name(path);
                self.put(end)
            }
        }
    }

    fn put_name(&mut self, name: &str) {
        if !self.put_escaped(name.as_bytes(), MOST_OF_NAME) {
            self.put("...");
        }
    }

    /// Puts a number in decimal.
    fn put_number(&mut self, number: u64) {
        self.is_whole &= write!(&mut self.text, "{number}").is_ok();
    }

    fn put_quoted(&mut self, value: &[u8]) {
        self.put("\"");
        let is_whole = self.put_escaped(value, MOST_SHOWN);
        self.put(if is_whole { "\"" } else { "\"..." });
    }

    /// Puts the system's reason, or these words where there is none.
    pub(crate) fn put_reason(&mut self, reason: Option<&Error>, otherwise: &str) {
        match reason {
            Some(error) => self.is_whole &= write!(&mut self.text, ": {error}.\n").is_ok(),
            None => self.put(otherwise),
        }
    }

    /// Puts at most this many characters of a text, those that a terminal would obey as escapes, and answers
    /// whether that is all of it. Bytes that are no text are shown one by one.
    fn put_escaped(&mut self, value: &[u8], most: usize) -> bool {
        match str::from_utf8(value) {
            Ok(text) => {
                for c in text.chars().take(most) {
                    self.put_char(c);
                }
                text.chars().nth(most).is_none()
            }
            Err(_) => {
                for byte in value.iter().take(most) {
                    self.put_byte(*byte);
                }
                value.len() <= most
            }
        }
    }

    fn put_byte(&mut self, byte: u8) {
        if byte < 0x80 {
            return self.put_char(char::from(byte));
        }
        self.is_whole &= write!(&mut self.text, "\\x{byte:02x}").is_ok();
    }

    fn put_char(&mut self, c: char) {
        let escape = match c {
            '\n' | '"' | '\\' if self.is_text => return self.put_plain(c),
            '\n' => "\\n",
            '\r' => "\\r",
            '\t' => "\\t",
            '"' => "\\\"",
            '\\' => "\\\\",
            _ => return self.put_plain(c),
        };
        self.put(escape)
    }

    /// Puts a character that has no escape of its own.
    fn put_plain(&mut self, c: char) {
        let code = u32::from(c);
        let put = if is_hidden(code) && c != '\n' {
            write!(&mut self.text, "\\u{{{code:x}}}")
        } else {
            self.text.push(c)
        };
        self.is_whole &= put.is_ok();
    }
}

/// A text as a terminal may get it: characters that it would obey, and those that are not seen or turn the
/// direction of a line, are shown as escapes, line ends aside. None where there is no such character.
pub fn for_terminal(alloc: Global, bytes: &[u8]) -> Result<Option<String>, AllocError> {
    match str::from_utf8(bytes) {
        Ok(text) if is_plain(text) => return Ok(None),
        _ => {}
    }
    let mut out = WordsWriter::new(alloc);
    out.is_text = true;
    let _ = out.put_escaped(bytes, usize::MAX);
    Ok(Some(out.finish()?))
}

/// A text that is the program's own, with the next one of these values in place of each `{}`.
pub fn said(alloc: Global, form: &str, values: &[PlaceholderValue<'_>]) -> Said {
    let mut out = WordsWriter::new(alloc);
    out.fill(form, values);
    out.finish()
}

/// A file's name, the system's reason why a call on it failed, or these words where there is none, and what
/// to do.
pub(crate) fn failed(
    alloc: Global,
    name: PlaceholderValue<'_>,
    reason: Option<&Error>,
    otherwise: &str,
    remedy: &str,
) -> Said {
    let mut out = WordsWriter::new(alloc);
    out.fill("{}", &[name]);
    out.put_reason(reason, otherwise);
    out.put(remedy);
    out.finish()
}
