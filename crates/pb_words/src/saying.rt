//! What goes to standard error.

use crate::words::Said;

/// Says these words, or that memory ran out before they were formed.
pub fn say_words<R: Eprint>(rt: &R, words: Said) {
    match words {
        Ok(words) => {
            say(rt, words.as_str());
            drop(words);
        }
        Err(_) => say(
            rt,
            "Memory ran out.\nRun again on a machine with more memory.\n",
        ),
    }
}

/// Writes to standard error; what it can't take is left out.
pub fn say<R: Eprint>(rt: &R, text: &str) {
    let _ = rt.eprint(text);
}
