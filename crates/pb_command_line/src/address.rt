//! Addresses that a link of a page may lead to.

/// Whether a link of a page may lead to this address.
pub fn is_link(address: &str) -> bool {
    is_address(address) && !lacks_scheme(address)
}

/// Whether an address is one of http or https, or a relative one. A browser passes over control characters
/// and over blanks at the ends: with one in it, another address might be read than is seen here. Two slashes
/// first, of which a browser takes a backslash for one, lead to another site.
pub(crate) fn is_address(address: &str) -> bool {
    let bytes = address.as_bytes();
    let slashes = bytes
        .iter()
        .take_while(|byte| matches!(**byte, b'/' | b'\\'));
    !bytes.is_empty()
        && slashes.count() < 2
        && bytes.iter().all(|byte| *byte > b' ' && *byte != 127)
        && scheme_of(bytes).is_none_or(|scheme| {
            scheme.eq_ignore_ascii_case(b"https") || scheme.eq_ignore_ascii_case(b"http")
        })
}

/// Whether an address seems to be a site's and lacks its `https://`: it begins with `www.`, or with a name
/// such as `city.org` and a `/`.
pub(crate) fn lacks_scheme(address: &str) -> bool {
    if scheme_of(address.as_bytes()).is_some() {
        return false;
    }
    let (site, has_path) = match address.split_once('/') {
        Some((site, _)) => (site, true),
        None => (address, false),
    };
    is_site(site) && (has_path || begins_with_www(site))
}

/// Whether a text is like `www.city.org`.
fn begins_with_www(text: &str) -> bool {
    match text.split_once('.') {
        Some((word, rest)) => word.eq_ignore_ascii_case("www") && rest.contains('.'),
        None => false,
    }
}

/// Whether a text is like `city.org`: behind its last point are two letters or more, and something is before
/// the first.
fn is_site(text: &str) -> bool {
    match text.rsplit_once('.') {
        Some((name, end)) => {
            !name.is_empty()
                && !name.starts_with(".")
                && end.len() > 1
                && end.as_bytes().iter().all(|byte| byte.is_ascii_alphabetic())
        }
        None => false,
    }
}

/// What stands before the first colon of an address, where no path, query or fragment begins before it.
fn scheme_of(address: &[u8]) -> Option<&[u8]> {
    let end = address
        .iter()
        .position(|byte| matches!(byte, b':' | b'/' | b'?' | b'#'))?;
    if address[end] == b':' {
        Some(&address[..end])
    } else {
        None
    }
}
