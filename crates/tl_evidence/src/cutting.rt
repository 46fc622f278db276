//! Where a note ends that other lines follow.

ghost use Rattle.std.specs.Prelude.{◌≡◌, ◌≤◌, ◌==◌, length, map, not, position, vec_items, vec_len};
ghost use Rattle.tl_evidence.specs.Inner.Cutting.{has_space, note_length, signature_length, text_length};

use std::alloc::Allocator;

// Returns the index of the first empty line.
fn find_empty<A: Allocator>(lines: &[Vec<u8, A>]) -> Option<usize>
    ensures { result ≡ position (λ line. vec_len line == 0) lines.now }
{
    lines.iter().position(|line| line.len() == 0)
}

// Returns how many lines stand before the first empty one.
fn text_length<A: Allocator>(lines: &[Vec<u8, A>]) -> usize
    ensures length { result ≡ text_length (map vec_items lines.now) }
    ensures within { result ≤ length lines.now }
{
    match find_empty(lines) {
        Some(place) => place,
        None => lines.len(),
    }
}

// Reports whether a line has a space.
fn has_space(line: &[u8]) -> bool
    ensures { result ≡ has_space line.now }
{
    line.contains(&b' ')
}

// Returns the index of the first line without a space.
fn find_spaceless<A: Allocator>(lines: &[Vec<u8, A>]) -> Option<usize>
    ensures { result ≡ position (λ line. not (has_space (vec_items line))) lines.now }
{
    lines.iter().position(|line| !has_space(line.as_slice()))
}

// Returns how many lines stand before the first one without a space.
fn signature_length<A: Allocator>(lines: &[Vec<u8, A>]) -> usize
    ensures length { result ≡ signature_length (map vec_items lines.now) }
    ensures within { result ≤ length lines.now }
{
    match find_spaceless(lines) {
        Some(place) => place,
        None => lines.len(),
    }
}

/// Returns how many lines the note at the front of these has: those before the first empty line, that line, and the
/// signature lines after it.
pub(crate) fn note_length<A: Allocator>(lines: &[Vec<u8, A>]) -> usize
    ensures length { result ≡ note_length (map vec_items lines.now) }
    ensures within { result ≤ length lines.now }
{
    let text = text_length(lines);
    if text == lines.len() {
        return text;
    }
    text + 1 + signature_length(&lines[text + 1..])
}
