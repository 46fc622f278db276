//! The digests of four messages together.

ghost use Rattle.std.specs.Prelude.{◌≡◌, ◌≢◌, ℕ, ◌+◌, ◌*◌, ◌/◌, ◌<◌, ◌≤◌, List, [], ◌∷◌, ◌++◌, length, take, drop, slice_index, slice_index_or};
ghost use Rattle.sha2.specs.Sha256.{compress, digest_bytes, initial_hash_256, padded_message, sha256, word_at};
ghost use Rattle.tl_lanes.specs.Lanes.{lane, lane_at};

use crate::block::tagged_block;
use crate::quad::compress4;
use std::simd::u32x4;

// Returns the word that bytes `at` to `at + 3` of a block are, the highest byte first.
fn word_from(block: &[u8; 64], at: usize) -> u32
    requires { at + 4 ≤ 64 }
    ensures { result ≡ word_at block.now at }
{
    u32::from_be_bytes([block[at], block[at + 1], block[at + 2], block[at + 3]])
}

// Returns the vector of word `k` of each block.
#[inline(always)]
fn gather(blocks: &[[u8; 64]; 4], k: usize) -> u32x4
    requires { k < 16 }
    ensures { (j : ℕ)
        → j < 4 → slice_index result j ≡ word_at (slice_index_or blocks.now j []) (4 * k) }
{
    u32x4::from_array([
        word_from(&blocks[0], 4 * k),
        word_from(&blocks[1], 4 * k),
        word_from(&blocks[2], 4 * k),
        word_from(&blocks[3], 4 * k),
    ])
}

// Updates the hash values with a block of each message.
#[inline(always)]
fn take_in(state: &mut [u32x4; 8], blocks: &[[u8; 64]; 4])
    ensures { (j : ℕ)
        → j < 4 → lane j state.new ≡ compress (lane j state.old) (slice_index_or blocks.now j []) }
{
    let mut words = [u32x4::splat(0); 16];
    'gathered: for k in 0..16 {
        words[k] = gather(blocks, k);
    }
    compress4(state, words);
}

// Returns four times the initial hash value (FIPS 180-4, section 5.3.3).
fn start() -> [u32x4; 8]
    ensures { (j : ℕ) → j < 4 → lane j result ≡ initial_hash_256 }
{
    [
        u32x4::splat(0x6a09e667),
        u32x4::splat(0xbb67ae85),
        u32x4::splat(0x3c6ef372),
        u32x4::splat(0xa54ff53a),
        u32x4::splat(0x510e527f),
        u32x4::splat(0x9b05688c),
        u32x4::splat(0x1f83d9ab),
        u32x4::splat(0x5be0cd19),
    ]
}

// Returns message `j`'s hash value as bytes.
fn finish(state: &[u32x4; 8], j: usize) -> [u8; 32]
    requires { j < 4 }
    ensures { result ≡ digest_bytes (lane j state.now) 8 }
{
    let mut digest = [0u8; 32];
    'written: for i in 0..8 {
        let word = state[i].to_array()[j];
        digest[4 * i..4 * i + 4].copy_from_slice(&word.to_be_bytes());
    }
    digest
}

// Returns block `t` of the padded message, or zeros if the message has fewer blocks.
#[inline(always)]
fn block_or_any(tag: u8, rest: &[u8], t: usize) -> [u8; 64]
    ensures { t ≤ (length rest.now + 9) / 64
        → result ≡ take 64 (drop (t * 64) (padded_message (tag ∷ rest.now))) }
{
    if t <= (rest.len() + 9) / 64 {
        return tagged_block(tag, rest, t);
    }
    [0u8; 64]
}

// Keeps message `j`'s digest, if its last block has just been hashed.
#[inline(always)]
fn keep(digest: &mut [u8; 32], state: &[u32x4; 8], j: usize, t: usize, last: usize)
    requires { j < 4 }
    ensures kept { t ≡ last → digest.new ≡ digest_bytes (lane j state.now) 8 }
    ensures others { t ≢ last → digest.new ≡ digest.old }
{
    if t == last {
        *digest = finish(state, j);
    }
}

// Does the work of both public functions. It is inlined into each. So if the lengths are constants, as for pairs of
// hashes, the compiler knows the number of blocks and the place of the padding.
#[inline(always)]
fn four_digests(tag: u8, a: &[u8], b: &[u8], c: &[u8], d: &[u8]) -> [[u8; 32]; 4]
    ensures a { slice_index_or result 0 [] ≡ sha256 (tag ∷ a.now) }
    ensures b { slice_index_or result 1 [] ≡ sha256 (tag ∷ b.now) }
    ensures c { slice_index_or result 2 [] ≡ sha256 (tag ∷ c.now) }
    ensures d { slice_index_or result 3 [] ≡ sha256 (tag ∷ d.now) }
{
    let mut state = start();
    let last_a = (a.len() + 9) / 64;
    let last_b = (b.len() + 9) / 64;
    let last_c = (c.len() + 9) / 64;
    let last_d = (d.len() + 9) / 64;
    let count = last_a.max(last_b).max(last_c.max(last_d)) + 1;
    let mut digest_a = [0u8; 32];
    let mut digest_b = [0u8; 32];
    let mut digest_c = [0u8; 32];
    let mut digest_d = [0u8; 32];
    'blocks: for t in 0..count {
        let blocks = [
            block_or_any(tag, a, t),
            block_or_any(tag, b, t),
            block_or_any(tag, c, t),
            block_or_any(tag, d, t),
        ];
        take_in(&mut state, &blocks);
        keep(&mut digest_a, &state, 0, t, last_a);
        keep(&mut digest_b, &state, 1, t, last_b);
        keep(&mut digest_c, &state, 2, t, last_c);
        keep(&mut digest_d, &state, 3, t, last_d);
    }
    [digest_a, digest_b, digest_c, digest_d]
}

/// Returns the SHA-256 digests of four messages, in order (FIPS 180-4, section 6.2). Each is of the byte `tag` and
/// then `a`, `b`, `c` or `d`. The call takes as long as for four messages of the longest one's length.
#[inline(never)]
pub fn digest4(tag: u8, a: &[u8], b: &[u8], c: &[u8], d: &[u8]) -> [[u8; 32]; 4]
    ensures a { slice_index_or result 0 [] ≡ sha256 (tag ∷ a.now) }
    ensures b { slice_index_or result 1 [] ≡ sha256 (tag ∷ b.now) }
    ensures c { slice_index_or result 2 [] ≡ sha256 (tag ∷ c.now) }
    ensures d { slice_index_or result 3 [] ≡ sha256 (tag ∷ d.now) }
{
    four_digests(tag, a, b, c, d)
}

// Returns two hashes, one after the other.
#[inline(always)]
fn joined(left: &[u8; 32], right: &[u8; 32]) -> [u8; 64]
    ensures { result ≡ left.now ++ right.now }
{
    let mut both = [0u8; 64];
    both[..32].copy_from_slice(left);
    both[32..].copy_from_slice(right);
    both
}

/// Returns the SHA-256 digests of four messages of 65 bytes (FIPS 180-4, section 6.2). Digest `j`, counted from 0, is
/// of the byte `tag`, hash `2 * j` and hash `2 * j + 1`.
#[inline(never)]
pub fn digest_pairs4(tag: u8, hashes: &[[u8; 32]; 8]) -> [[u8; 32]; 4]
    ensures { (j : ℕ) → j < 4 → slice_index_or result j [] ≡ sha256
        (tag ∷ (slice_index_or hashes.now (2 * j) [] ++ slice_index_or hashes.now (2 * j + 1) [])) }
{
    let a = joined(&hashes[0], &hashes[1]);
    let b = joined(&hashes[2], &hashes[3]);
    let c = joined(&hashes[4], &hashes[5]);
    let d = joined(&hashes[6], &hashes[7]);
    four_digests(tag, &a, &b, &c, &d)
}
