//! The parts of a request that are signed.

/// A field of a request's head.
#[derive(Clone, Copy, Debug)]
pub struct Field<'t> {
    /// Its name, in lower case.
    pub name: &'t str,
    /// Its value, with no blank at its beginning or end, and no two together.
    pub value: &'t str,
}

/// The parts of a request that are signed.
#[derive(Clone, Copy, Debug)]
pub struct Request<'t> {
    /// The method, such as `PUT`.
    pub method: &'t str,
    /// The path of the target, encoded as it is sent: all bytes are written like `%24`, except letters, digits, `-`,
    /// `.`, `_`, `~` and `/`.
    pub path: &'t str,
    /// What follows the question mark of the target, encoded as it is sent: parameters in the order of their names,
    /// each with a `=`. Empty if there is no query.
    pub query: &'t str,
    /// The fields that are signed, in the order of their names; `host` is one of them.
    pub fields: &'t [Field<'t>],
    /// SHA-256 of the body in hexadecimal (`payload_digest`), the value of the field `x-amz-content-sha256`.
    pub payload: &'t str,
}
