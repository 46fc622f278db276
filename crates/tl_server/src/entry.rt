//! An entry in the bytes of a bundle. Nothing here allocates.

ghost use Rattle.std.specs.Prelude.{◌≡◌, ◌++◌, MatchBool, MatchOption};
ghost use Rattle.tl_server.specs.Inner.Places.{Finds, FindsNone, HasEntry, LacksIt};
ghost use Rattle.tl_tile.specs.Bundle.{IsPartialEntry, IsShortEntry, bundled_entry};

// Returns the first entry and the bytes after it.
fn first_entry(bytes: &[u8]) -> Option<(&[u8], &[u8])>
    ensures { MatchOption result (IsPartialEntry bytes.now)
        (λ x. IsShortEntry x.0.now × (bytes.now ≡ bundled_entry x.0.now ++ x.1.now)) }
{
    if bytes.len() < 2 {
        return None;
    }
    let (front, rest) = bytes.split_at(2);
    let len = u16::from_be_bytes([front[0], front[1]]) as usize;
    if rest.len() < len {
        return None;
    }
    Some(rest.split_at(len))
}

// Returns the entry at this place, if the bytes are a bundle of `width` entries.
fn entry_at(bytes: &[u8], width: u32, place: u32) -> Option<&[u8]>
    ensures { MatchOption result (FindsNone bytes.now width place)
        (λ entry. HasEntry bytes.now width place entry.now) }
{
    let mut rest = bytes;
    let mut found = None;
    for here in 0..width {
        let Some((entry, after)) = first_entry(rest) else {
            return None;
        };
        if here == place {
            found = Some(entry);
        }
        rest = after;
    }
    if rest.is_empty() { found } else { None }
}

/// Reports whether the bytes are a bundle of `width` entries with this one at this place.
pub(crate) fn has_entry(bytes: &[u8], width: u32, place: u32, entry: &[u8]) -> bool
    ensures { MatchBool result (HasEntry bytes.now width place entry.now)
        (LacksIt bytes.now width place entry.now) }
{
    match entry_at(bytes, width, place) {
        Some(found) => found == entry,
        None => false,
    }
}
