//! Lines of a text, and words of a line.

ghost use Rattle.std.specs.Prelude.{◌≡◌, ◌==◌, ◌<◌, ◌∷◌, [], length, position, slice_index, IsTrue, IsUtf8, MatchOption, ◌↔◌, Some, None};
ghost use Rattle.tl_policy.specs.PolicyText.{is_blank, key_words, words_of};
ghost use Rattle.tl_policy.specs.Terms.{url_of};
ghost use Rattle.tl_policy.specs.Inner.Cutting.{CutsFirst, is_newline};

/// The first line of a text, and what follows its newline.
pub(crate) fn cut_line(text: &str) -> (&str, &str)
    ensures cut { CutsFirst is_newline text.now result.0.now result.1.now }
    ensures shorter { 0 < length text.now → length result.1.now < length text.now }
    ensures utf8 { IsUtf8 result.1.now }
{
    match text.split_once('\n') {
        Some(parts) => parts,
        None => (text, ""),
    }
}

// The place of the first space or tab.
fn first_blank(bytes: &[u8]) -> Option<usize>
    ensures { result ≡ position is_blank bytes.now }
{
    bytes
        .iter()
        .position(|byte| *byte == b' ' || *byte == b'\t')
}

// What stands before the first space or tab, and what stands after it.
fn cut_blank(text: &str) -> (&str, &str)
    ensures cut { CutsFirst is_blank text.now result.0.now result.1.now }
    ensures shorter { 0 < length text.now → length result.1.now < length text.now }
    ensures utf8 { IsUtf8 result.1.now }
{
    match first_blank(text.as_bytes()) {
        Some(end) => (&text[..end], &text[end + 1..]),
        None => (text, ""),
    }
}

/// The first word of a line, and what follows it.
pub(crate) fn next_word(line: &str) -> Option<(&str, &str)>
    ensures { MatchOption result (words_of line.now ≡ []) (λ cut.
        (words_of line.now ≡ cut.0.now ∷ words_of cut.1.now) × (length cut.1.now < length line.now)
        × IsUtf8 cut.1.now) }
{
    let mut left = line;
    while !left.is_empty() {
        let (word, rest) = cut_blank(left);
        if !word.is_empty() {
            return Some((word, rest));
        }
        left = rest;
    }
    None
}

/// Whether a word begins with `#`.
pub(crate) fn is_comment(word: &str) -> bool
    ensures { result ≡ (slice_index word.now 0 == 35) }
{
    word.starts_with('#')
}

/// Whether there is no word.
pub(crate) fn has_no_word(text: &str) -> bool
    ensures { IsTrue result ↔ (words_of text.now ≡ []) }
{
    next_word(text).is_none()
}

/// A key's text and the URL behind it, if there is one, where the words are no more.
pub(crate) fn read_key_words(words: &str) -> Option<(&str, Option<&str>)>
    ensures { MatchOption result (key_words (words_of words.now) ≡ None)
        (λ read. key_words (words_of words.now) ≡ Some (read.0.now, url_of read.1)) }
{
    let Some((key, rest)) = next_word(words) else {
        return None;
    };
    let Some((url, more)) = next_word(rest) else {
        return Some((key, None));
    };
    if !has_no_word(more) {
        return None;
    }
    Some((key, Some(url)))
}
