//! One block of each of four messages, taken through SHA-256's rounds together (FIPS 180-4, section 6.2.2).
//!
//! A vector has a word of each message. Contracts speak of each lane `j`, in the terms of the standard for one
//! message.

ghost use Rattle.std.specs.Prelude.{◌≡◌, ℕ, ◌+◌, ◌*◌, ◌/◌, ◌^◌, ◌<◌, ◌≤◌, List, bit_and, bit_xor, slice_index, slice_set};
ghost use Rattle.std.specs.Int.{rotate_right, w32};
ghost use Rattle.sha2.specs.Sha256.{IsRoundsAt, IsWindow, add32, big_sigma0, big_sigma1, ch, compress, maj, round, rounds, schedule, small_sigma0, small_sigma1, window_word, word_at};
ghost use Rattle.tl_lanes.specs.Inner.Columns.{column};
ghost use Rattle.tl_lanes.specs.Lanes.{lane, lane_at};

use crate::consts::ROUND_CONSTANTS;
use std::simd::u32x4;

// ---- the operations on words

#[inline(always)]
fn splat(k: u32) -> u32x4
    ensures { (j : ℕ) → j < 4 → slice_index result j ≡ k }
{
    u32x4::splat(k)
}

#[inline(always)]
fn and(x: u32x4, y: u32x4) -> u32x4
    ensures { (j : ℕ) → j < 4 → slice_index result j ≡ bit_and (slice_index x j) (slice_index y j) }
{
    x & y
}

#[inline(always)]
fn xor(x: u32x4, y: u32x4) -> u32x4
    ensures { (j : ℕ) → j < 4 → slice_index result j ≡ bit_xor (slice_index x j) (slice_index y j) }
{
    x ^ y
}

// A sum of vectors drops each lane's carry, as the standard's sum of words does.
#[inline(always)]
fn add(x: u32x4, y: u32x4) -> u32x4
    ensures { (j : ℕ) → j < 4 → slice_index result j ≡ add32 (slice_index x j) (slice_index y j) }
{
    x + y
}

#[inline(always)]
fn shr(x: u32x4, k: u32) -> u32x4
    requires { k < 32 }
    ensures { (j : ℕ) → j < 4 → slice_index result j ≡ slice_index x j / 2 ^ k }
{
    x >> u32x4::splat(k)
}

// `std::simd` has no rotation of lanes, so one is made of two shifts.
#[inline(always)]
fn rotr(x: u32x4, k: u32) -> u32x4
    requires { (0 < k) × (k < 32) }
    ensures { (j : ℕ) → j < 4 → slice_index result j ≡ rotate_right w32 (slice_index x j) k }
{
    (x >> u32x4::splat(k)) | (x << u32x4::splat(32 - k))
}

// ---- the standard's six functions (4.1.2)

// Ch, by three operations. The standard's form has four, one of them a complement.
#[inline(always)]
fn choose(x: u32x4, y: u32x4, z: u32x4) -> u32x4
    ensures { (j : ℕ)
        → j < 4 → slice_index result j ≡ ch (slice_index x j) (slice_index y j) (slice_index z j) }
{
    xor(z, and(x, xor(y, z)))
}

// Maj, by four operations instead of five. A round calls it with `b` and `c` for `y` and `z`, which were `a` and `b`
// in the round before. So the compiler can reuse that round's `xor(x, y)` as this round's `xor(y, z)`, and three
// remain.
#[inline(always)]
fn majority(x: u32x4, y: u32x4, z: u32x4) -> u32x4
    ensures { (j : ℕ)
        → j < 4 → slice_index result j ≡ maj (slice_index x j) (slice_index y j) (slice_index z j) }
{
    xor(y, and(xor(x, y), xor(y, z)))
}

// The sigma functions are sums of rotations of `x`. Rotating a partial sum rotates each of its parts, so each
// rotation here is of the sum so far, and goes on from where the one before it stopped: with distances 9, 11 and 2
// from the inside out, `x` is rotated by 2, 2 + 11 and 2 + 11 + 9. As measured, this is faster than three rotations
// of `x`.
#[inline(always)]
fn upper_sigma0(x: u32x4) -> u32x4
    ensures { (j : ℕ) → j < 4 → slice_index result j ≡ big_sigma0 (slice_index x j) }
{
    let inner = xor(x, rotr(x, 9));
    let outer = xor(x, rotr(inner, 11));
    rotr(outer, 2)
}

// Rotations by 6, 11 and 25.
#[inline(always)]
fn upper_sigma1(x: u32x4) -> u32x4
    ensures { (j : ℕ) → j < 4 → slice_index result j ≡ big_sigma1 (slice_index x j) }
{
    let inner = xor(x, rotr(x, 14));
    let outer = xor(x, rotr(inner, 5));
    rotr(outer, 6)
}

// Rotations by 7 and 18, and a shift by 3.
#[inline(always)]
fn lower_sigma0(x: u32x4) -> u32x4
    ensures { (j : ℕ) → j < 4 → slice_index result j ≡ small_sigma0 (slice_index x j) }
{
    let inner = xor(x, rotr(x, 11));
    xor(rotr(inner, 7), shr(x, 3))
}

// Rotations by 17 and 19, and a shift by 10.
#[inline(always)]
fn lower_sigma1(x: u32x4) -> u32x4
    ensures { (j : ℕ) → j < 4 → slice_index result j ≡ small_sigma1 (slice_index x j) }
{
    let inner = xor(x, rotr(x, 2));
    xor(rotr(inner, 17), shr(x, 10))
}

// ---- the rounds

// Returns the working variables after a round with the constant `k` and this word of the schedule.
#[inline(always)]
fn after_round(vars: [u32x4; 8], k: u32, word: u32x4) -> [u32x4; 8]
    ensures { (j : ℕ) → j < 4 → lane j result ≡ round (lane j vars) k (slice_index word j) }
{
    let [a, b, c, d, e, f, g, h] = vars;
    let mixed = add(add(h, upper_sigma1(e)), choose(e, f, g));
    let t1 = add(add(mixed, splat(k)), word);
    let t2 = add(upper_sigma0(a), majority(a, b, c));
    [add(t1, t2), a, b, c, add(d, t1), e, f, g]
}

// Does round `t`, one of the first sixteen, whose word is word `t` of the block. `ring` holds the block's words.
#[inline(always)]
fn early_round(ring: &[u32x4; 16], vars: [u32x4; 8], t: usize) -> [u32x4; 8]
    requires { t < 16 }
    ensures { (j : ℕ) → j < 4 → (b h : List ℕ)
        → IsWindow (column j ring.now) (schedule b 48) 16 → lane j vars ≡ rounds h (schedule b 48) t
        → lane j result ≡ rounds h (schedule b 48) (t + 1) }
{
    after_round(vars, ROUND_CONSTANTS[t], ring[t])
}

#[inline(always)]
fn four_early(ring: &[u32x4; 16], vars: [u32x4; 8], t: usize) -> [u32x4; 8]
    requires { t + 4 ≤ 16 }
    ensures { (j : ℕ) → j < 4 → (b h : List ℕ)
        → IsWindow (column j ring.now) (schedule b 48) 16 → lane j vars ≡ rounds h (schedule b 48) t
        → lane j result ≡ rounds h (schedule b 48) (t + 4) }
{
    let first = early_round(ring, vars, t);
    let second = early_round(ring, first, t + 1);
    let third = early_round(ring, second, t + 2);
    early_round(ring, third, t + 3)
}

// Returns the schedule's next word, and puts it into the ring. It is a sum of four of the last sixteen words, and
// replaces the oldest of them, which isn't needed any more.
#[inline(always)]
fn extend(ring: &mut [u32x4; 16], place: usize) -> u32x4
    requires { place < 16 }
    ensures value { (j : ℕ) → j < 4 → slice_index result j ≡ window_word (column j ring.old) place }
    ensures ring { ring.new ≡ slice_set ring.old place result }
{
    let recent = add(
        lower_sigma1(ring[(place + 14) % 16]),
        ring[(place + 9) % 16],
    );
    let word = add(
        add(recent, lower_sigma0(ring[(place + 1) % 16])),
        ring[place],
    );
    ring[place] = word;
    word
}

// Does round `16 * turn + place`, after the first sixteen, with the next word of the schedule.
#[inline(always)]
fn late_round(ring: &mut [u32x4; 16], vars: [u32x4; 8], turn: usize, place: usize) -> [u32x4; 8]
    requires turn { (0 < turn) × (turn ≤ 3) }
    requires place { place < 16 }
    ensures { (j : ℕ) → j < 4
        → (b h : List ℕ) → IsRoundsAt b h (column j ring.old) (lane j vars) (16 * turn + place)
        → IsRoundsAt b h (column j ring.new) (lane j result) (16 * turn + (place + 1)) }
{
    let word = extend(ring, place);
    after_round(vars, ROUND_CONSTANTS[16 * turn + place], word)
}

#[inline(always)]
fn four_late(ring: &mut [u32x4; 16], vars: [u32x4; 8], turn: usize, place: usize) -> [u32x4; 8]
    requires turn { (0 < turn) × (turn ≤ 3) }
    requires place { place + 4 ≤ 16 }
    ensures { (j : ℕ) → j < 4
        → (b h : List ℕ) → IsRoundsAt b h (column j ring.old) (lane j vars) (16 * turn + place)
        → IsRoundsAt b h (column j ring.new) (lane j result) (16 * turn + (place + 4)) }
{
    let first = late_round(ring, vars, turn, place);
    let second = late_round(ring, first, turn, place + 1);
    let third = late_round(ring, second, turn, place + 2);
    late_round(ring, third, turn, place + 3)
}

/// Updates four hash values with one block each (FIPS 180-4, section 6.2.2). Lane `j` of each vector belongs to
/// message `j`. `state` has the eight words of the hash values. `words` has the sixteen words of the blocks: vector
/// `k` is bytes `4 * k` to `4 * k + 3` of each, the highest byte first.
#[inline(never)]
pub fn compress4(state: &mut [u32x4; 8], words: [u32x4; 16])
    ensures { (j : ℕ)
        → j < 4 → (b : List ℕ) → ((k : ℕ) → k < 16 → lane_at words k j ≡ word_at b (4 * k))
        → lane j state.new ≡ compress (lane j state.old) b }
{
    let mut ring = words;
    let mut vars = four_early(&ring, *state, 0);
    vars = four_early(&ring, vars, 4);
    vars = four_early(&ring, vars, 8);
    vars = four_early(&ring, vars, 12);
    // One turn of this loop goes once around the ring. Its places are literals, so no `% 16` is computed at run time.
    'turns: for turn in 1..4 {
        vars = four_late(&mut ring, vars, turn, 0);
        vars = four_late(&mut ring, vars, turn, 4);
        vars = four_late(&mut ring, vars, turn, 8);
        vars = four_late(&mut ring, vars, turn, 12);
    }
    *state = [
        add(state[0], vars[0]),
        add(state[1], vars[1]),
        add(state[2], vars[2]),
        add(state[3], vars[3]),
        add(state[4], vars[4]),
        add(state[5], vars[5]),
        add(state[6], vars[6]),
        add(state[7], vars[7]),
    ];
}
