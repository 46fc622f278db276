//! The options of `verify`, `prove` and `submit`, and of `fetch` and `feed` under a policy.

use tl_fetch::FetchOptions;

/// An entry, as the options of a command give it.
#[derive(Drop)]
pub enum EntryOptions {
    /// The bytes of this text.
    Text(String),
    /// The bytes of the file at this path.
    File(String),
    /// The text that stands for the file at a path: `sha256 `, the file's SHA-256 in hexadecimal, and a space and a
    /// name, if one is given.
    Digest {
        /// The path of the file.
        file: String,
        /// The name.
        name: Option<String>,
    },
}

/// The options of `verify`.
#[derive(Drop)]
pub struct VerifyOptions {
    /// The file of the policy.
    pub policy: String,
    /// The entry that the proof has to show.
    pub entry: EntryOptions,
    /// The file that the proof's extra data is written to.
    pub extra: Option<String>,
}

/// Of which entry a proof is made.
#[derive(Drop)]
pub enum ProveRequest {
    /// The entry with this index, counted from 0.
    Index(u64),
    /// An entry that is this one.
    Entry(EntryOptions),
}

/// The options of `prove`.
#[derive(Drop)]
pub struct ProveOptions {
    /// The folder of the log, or its address, which begins with `http://`.
    pub from: String,
    /// The file of the policy.
    pub policy: String,
    /// Of which entry the proof is made.
    pub wanted: ProveRequest,
    /// The file of the proof's extra data.
    pub extra: Option<String>,
    /// How many seconds one answer may take, at least 1.
    pub timeout: u64,
}

/// The options of `submit`.
#[derive(Drop)]
pub struct SubmitOptions {
    /// The address of the log, which begins with `http://`.
    pub to: String,
    /// The file of the policy.
    pub policy: String,
    /// The entry that is posted.
    pub entry: EntryOptions,
    /// The file of the proof's extra data.
    pub extra: Option<String>,
    /// How many seconds may pass until there is a proof, at least 1.
    pub timeout: u64,
}

/// The options of `fetch` or `feed` under a policy.
#[derive(Drop)]
pub struct PolicyFetchOptions {
    /// The file of the policy.
    pub policy: String,
    /// What is fetched or fed, from where, and how. Its keys and witnesses aren't used, nor how many of these are
    /// needed.
    pub fetch: FetchOptions,
}
