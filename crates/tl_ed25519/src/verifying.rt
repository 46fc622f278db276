//! Checks of signatures and of public keys (RFC 8032, sections 5.1.3 and 5.1.7).

ghost use Rattle.std.specs.Prelude.{◌≡◌, Option};
ghost use Rattle.std.specs.Str.{bytes_eq};
ghost use Rattle.tl_ed25519.specs.Curve as curve;
ghost use Rattle.tl_ed25519.specs.Eddsa.{accepts, expected, has_small_order, is_valid_public_key};

use crate::halves::{first_half, second_half};
use crate::hashing::number_of_three;
use crate::point::Point;
use crate::words::Words;

// Returns the bytes that R must have, or `None` if the key is no point.
fn expected_point(key: &[u8; 32], s: Words, k: Words) -> Option<[u8; 32]>
    ensures { result ≡ expected (curve.decode key.now) s k }
{
    let Some(point) = Point::decode(key) else {
        return None;
    };
    let first = Point::multiply_base_public(s);
    let negated = point.negate();
    let second = negated.multiply_public(k);
    let sum = first.add(&second);
    Some(sum.encode())
}

// Reports whether two byte strings are equal.
fn equal_bytes(first: &[u8], second: &[u8]) -> bool
    ensures { result ≡ bytes_eq first.now second.now }
{
    first == second
}

/// Reports whether a signature of a message is valid under a public key (RFC 8032, section 5.1.7, without the
/// cofactor).
///
/// It is false if the key isn't the canonical encoding of a point, if S isn't below L, and if R isn't the encoding of
/// S * B - k * A. Keys of small order are accepted: check a key with `is_valid_public_key`. Its time depends on its
/// arguments, which are all public.
pub fn verify(key: &[u8; 32], message: &[u8], signature: &[u8; 64]) -> bool
    ensures { result ≡ accepts key.now message.now signature.now }
{
    let point = first_half(signature);
    let rest = second_half(signature);
    let s = Words::from_bytes(rest);
    if s.is_below(&Words::order()) {
        let k = number_of_three(point, key, message);
        let Some(wanted) = expected_point(key, s.again(), k) else {
            return false;
        };
        return equal_bytes(&wanted, point);
    }
    false
}

// Reports whether 8 times a point is the neutral one.
fn has_small_order(point: Point) -> bool
    ensures { result ≡ has_small_order point }
{
    let multiple = point.multiply_public(Words(8, 0, 0, 0));
    let bytes = multiple.encode();
    let neutral = Point::neutral();
    let neutral_bytes = neutral.encode();
    equal_bytes(&bytes, &neutral_bytes)
}

/// Reports whether 32 bytes are a public key fit for use.
///
/// It is true if they are the one canonical encoding of a point (RFC 8032, section 5.1.3) and 8, the curve's cofactor
/// (section 5.1), times that point isn't the neutral point. Under a key of small order anyone can make valid
/// signatures.
pub fn is_valid_public_key(key: &[u8; 32]) -> bool
    ensures { result ≡ is_valid_public_key key.now }
{
    let Some(point) = Point::decode(key) else {
        return false;
    };
    !has_small_order(point)
}
