//! The logs of a list, as its lines say them.

ghost use Rattle.std.specs.Prelude.{◌≡◌};
ghost use Rattle.tl_logs.specs.LogList.{ended, named, opened};
ghost use Rattle.tl_logs.specs.Inner.Listing.{entry_in, entry_of};

use crate::reading::cut_at;

/// A log as a list says it: the number of the line that begins it, its key, and its name if a line gives it one.
#[derive(Clone, Copy)]
pub(crate) struct ListEntry<'a> {
    pub(crate) line: u64,
    pub(crate) key: &'a [u8],
    pub(crate) name: Option<&'a [u8]>,
}

// Gives the log that waits its name. Where none does, the name begins a log without a key.
fn name_entry<'a>(waiting: Option<ListEntry<'a>>, line: u64, name: &'a [u8]) -> ListEntry<'a>
    ensures { entry_of result ≡ named (entry_in waiting.entry) line name.now }
{
    match waiting {
        Some(entry) => ListEntry {
            line: entry.line,
            key: entry.key,
            name: Some(name),
        },
        None => ListEntry {
            line,
            key: &[],
            name: Some(name),
        },
    }
}

/// Returns the log that ends with this line, if one does, and leaves in `waiting` the log that waits for a name after
/// it, if one does.
pub(crate) fn add_line<'a>(
    waiting: &mut Option<ListEntry<'a>>,
    line: u64,
    words: &'a [u8],
) -> Option<ListEntry<'a>>
    ensures ends { entry_in result ≡ ended (entry_in waiting.old) line words.now }
    ensures opens { entry_in waiting.new ≡ opened (entry_in waiting.old) line words.now }
{
    let (word, rest) = cut_at(words, b' ');
    if word == b"vkey".as_slice() {
        return waiting.replace(ListEntry {
            line,
            key: rest,
            name: None,
        });
    }
    if word == b"origin".as_slice() {
        return Some(name_entry(waiting.take(), line, rest));
    }
    None
}
