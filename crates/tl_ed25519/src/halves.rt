//! The halves of 64 bytes.

ghost use Rattle.std.specs.Prelude.{◌≡◌, ◌++◌, length, take, drop};

// Returns the first 32 bytes.
pub(crate) fn first_half(bytes: &[u8; 64]) -> &[u8]
    ensures value { result.now ≡ take 32 bytes.now }
    ensures size { length result.now ≡ 32 }
{
    &bytes[..32]
}

// Returns the last 32 bytes.
pub(crate) fn second_half(bytes: &[u8; 64]) -> &[u8]
    ensures value { result.now ≡ drop 32 bytes.now }
    ensures size { length result.now ≡ 32 }
{
    &bytes[32..]
}

// Returns a copy of a half as an array.
pub(crate) fn copy_of(half: &[u8]) -> [u8; 32]
    requires { length half.now ≡ 32 }
    ensures { result ≡ half.now }
{
    let mut copy = [0; 32];
    copy.copy_from_slice(half);
    copy
}

// Returns two halves as 64 bytes.
pub(crate) fn join(first: &[u8; 32], second: &[u8; 32]) -> [u8; 64]
    ensures { result ≡ first.now ++ second.now }
{
    let mut both = [0; 64];
    both[..32].copy_from_slice(first);
    both[32..].copy_from_slice(second);
    both
}
