//! Where a text is read from.

/// Where a text is read from.
#[derive(Clone, Copy)]
pub enum TextSource<'a> {
    /// Standard input, which `-` names.
    Input,
    /// The file with this path.
    File(&'a str),
}

impl<'a> TextSource<'a> {
    /// The file's path; standard input has none.
    pub fn path(&self) -> Option<&'a str> {
        match *self {
            TextSource::Input => None,
            TextSource::File(path) => Some(path),
        }
    }
}
