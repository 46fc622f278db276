//! Options of the command `fetch`.

/// What is asked for of a log that isn't trusted.
#[derive(Clone, Copy, Debug, PartialEq, Eq)]
pub enum FetchRequest {
    /// Its name, size and root, a line each.
    Head,
    /// The entry with this index, counted from 0, a line.
    Entry(u64),
    /// The bytes of the entry with this index.
    Raw(u64),
    /// Every entry that wasn't printed yet, a line each; if no such mark is kept, every entry that the state doesn't
    /// count.
    All,
    /// The text of an inclusion proof of the entry with this index.
    Proof(u64),
}

/// The options of `fetch`.
#[derive(Drop)]
pub struct FetchOptions {
    /// The folder of the log, or its address, which begins with `http://`.
    pub from: String,
    /// The text of the log's verifier key.
    pub key: String,
    /// The text of another verifier key of the log, which has two while it goes from one to the next.
    pub other_key: Option<String>,
    /// The texts of the witnesses' verifier keys; those of one witness follow one another.
    pub witnesses: Vec<String>,
    /// How many of the witnesses must have cosigned a checkpoint.
    pub need: u64,
    /// The most seconds since a witness cosigned the checkpoint; without it, any time will do.
    pub fresh: Option<u64>,
    /// The file with the checkpoint that was trusted last; without it, none was. A file beside it, whose name ends in
    /// `.printed`, has the checkpoint up to which all entries were printed.
    pub state: Option<String>,
    /// The folder that keeps checked tiles; without it, none are kept.
    pub cache: Option<String>,
    /// How many seconds one answer may take, at least 1.
    pub timeout: u64,
    /// How many requests to a host are in flight at once; without it, 8.
    pub threads: Option<u16>,
    /// What is printed.
    pub wanted: FetchRequest,
}
