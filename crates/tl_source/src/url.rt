//! Addresses of logs over HTTP.

ghost use Rattle.std.specs.Prelude.{◌≡◌, ◌<◌, ◌∷◌, ◌++◌, ◌↔◌, IsTrue, All, MatchOption};
ghost use Rattle.tl_source.specs.Url.{IsUrlByte, IsName, IsAddressByte, IsAddress, IsPort};
ghost use Rattle.tl_source.specs.Url.{IsNamed, IsBracketed, IsAuthority, IsUrl, IsNoUrl};
ghost use Rattle.tl_source.specs.Inner.Authorities.{Lacks, BeginsWith, HasNoPort};
ghost use Rattle.tl_source.specs.Inner.Authorities.{IsNotNamed, IsNotBracketed, IsNoAuthority};

use tl_text::parse_size;

/// The address of a log over HTTP (RFC 3986, section 3), `http://HOST[:PORT][/PREFIX]`.
#[derive(Clone, Copy, Debug, PartialEq, Eq)]
pub struct Url<'t> {
    /// The host and port as the text has them. The header field Host has the same text.
    pub authority: &'t str,
    /// The name or IPv4 address of the host, or its IPv6 address without the brackets around it.
    pub host: &'t str,
    /// The port, 80 if the text has none.
    pub port: u16,
    /// The rest: empty, or a slash and more.
    pub prefix: &'t str,
}

// Reports whether each character is visible ASCII and none of `?`, `#` and `@`.
fn is_plain(text: &str) -> bool
    ensures { IsTrue result ↔ All IsUrlByte text.now }
{
    text.bytes().all(|byte| byte > b' '
        && byte <= b'~'
        && byte != b'?'
        && byte != b'#'
        && byte != b'@')
}

// Reports whether the text is the name or IPv4 address of a host.
fn is_name(text: &str) -> bool
    ensures { IsTrue result ↔ IsName text.now }
{
    !text.is_empty()
        && text.bytes().all(|byte| byte != b'/' && byte != b':' && byte != b'[' && byte != b']')
}

// Reports whether an IPv6 address may have this character.
fn is_address_byte(byte: u8) -> bool
    ensures { IsTrue result ↔ IsAddressByte byte }
{
    byte.is_ascii_hexdigit() || byte == b':' || byte == b'.'
}

// Reports whether the text is not empty and has only characters of an IPv6 address.
fn is_address(text: &str) -> bool
    ensures { IsTrue result ↔ IsAddress text.now }
{
    !text.is_empty() && text.bytes().all(|byte| is_address_byte(byte))
}

// Returns the text before the first such character and the rest from it on, which is empty if there is none.
fn cut_at(text: &str, mark: char) -> (&str, &str)
    requires { mark < 128 }
    ensures joined { text.now ≡ result.0.now ++ result.1.now }
    ensures front { Lacks mark result.0.now }
    ensures rest { BeginsWith mark result.1.now }
{
    match text.find(mark) {
        Some(place) => text.split_at(place),
        None => (text, ""),
    }
}

// Returns the port that the end of an authority gives, 80 if it is empty.
fn port_of(text: &str) -> Option<u16>
    ensures { MatchOption result (HasNoPort text.now) (λ port. IsPort text.now port) }
{
    if text.is_empty() {
        return Some(80);
    }
    let Some(digits) = text.strip_prefix(':') else {
        return None;
    };
    let Some(port) = parse_size(digits) else {
        return None;
    };
    if port < 1 << 16 {
        Some(port as u16)
    } else {
        None
    }
}

// Returns the host and port of an authority with a name or an IPv4 address.
fn named(authority: &str) -> Option<(&str, u16)>
    ensures { MatchOption result (IsNotNamed authority.now)
        (λ r. IsNamed authority.now r.0.now r.1) }
{
    let (host, rest) = cut_at(authority, ':');
    let Some(port) = port_of(rest) else {
        return None;
    };
    if is_name(host) {
        Some((host, port))
    } else {
        None
    }
}

// Returns the host and port of an authority with an IPv6 address. The text lacks the opening bracket.
fn bracketed(authority: &str) -> Option<(&str, u16)>
    ensures { MatchOption result (IsNotBracketed authority.now)
        (λ r. IsBracketed (91 ∷ authority.now) r.0.now r.1) }
{
    let Some((host, rest)) = authority.split_once(']') else {
        return None;
    };
    let Some(port) = port_of(rest) else {
        return None;
    };
    if is_address(host) {
        Some((host, port))
    } else {
        None
    }
}

// Returns the host and port of an authority.
fn host_of(authority: &str) -> Option<(&str, u16)>
    ensures { MatchOption result (IsNoAuthority authority.now)
        (λ r. IsAuthority authority.now r.0.now r.1) }
{
    match authority.strip_prefix('[') {
        Some(rest) => bracketed(rest),
        None => named(authority),
    }
}

impl<'t> Url<'t> {
    /// Parses an address into its parts. It is `None` if the text doesn't begin with `http://`; its host is empty, or
    /// has a bracket or a colon and is no IPv6 address in brackets; its port is no decimal number below 2^16 without
    /// leading zeros; or it has a character that isn't visible ASCII, or one of `?`, `#` and `@`.
    pub fn parse(text: &'t str) -> Option<Url<'t>>
        ensures { MatchOption result (IsNoUrl text.now)
            (λ url. IsUrl text.now url.authority.now url.host.now url.port url.prefix.now) }
    {
        if !is_plain(text) {
            return None;
        }
        let Some(rest) = text.strip_prefix("http://") else {
            return None;
        };
        let (authority, prefix) = cut_at(rest, '/');
        let Some((host, port)) = host_of(authority) else {
            return None;
        };
        Some(Url {
            authority,
            host,
            port,
            prefix,
        })
    }
}
