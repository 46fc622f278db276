//! Options of the command `append`.

ghost use Rattle.std.specs.Prelude.{◌≡◌, ◌<◌};

use tl_run::LogKey;

/// When a batch is published together with what the next one adds, and not by itself. A shelf that waits for its disk
/// then waits half as often.
#[derive(Clone, Copy, Debug, PartialEq, Eq)]
pub enum Joining {
    /// Never.
    Never,
    /// If the next batch was read already, so that no publication waits for the input.
    AtHand,
    /// Whenever there is a next batch. For an input that never waits, such as a plain file.
    Always,
}

/// How the entries of an input are made into batches.
#[derive(Clone, Copy)]
pub struct Batching {
    /// After how many entries the log is published, at least 1.
    pub size: u64,
    /// Whether partial tiles and bundles are kept once full ones replace them.
    pub keeps_partials: bool,
    /// When a batch is published together with what the next one adds.
    pub joining: Joining,
}

/// The options of `append`, and of `build` into a folder.
#[derive(Drop)]
pub struct AppendOptions {
    /// The folder of the log, or the URL of its bucket.
    pub dir: String,
    /// The name of the log, a key's name.
    pub origin: String,
    /// The log's key.
    pub key: LogKey,
    /// After how many entries the log is published, at least 1. If `None`, only at the end.
    pub batch: Option<u64>,
    /// Whether a new log begins, so that none may be there. Else there is one, and the entries are appended to it.
    pub is_new: bool,
    /// Whether the log may go on from a checkpoint of fewer entries than were published.
    pub allows_older: bool,
    /// Whether partial tiles and bundles are kept once full ones replace them.
    pub keeps_partials: bool,
}

impl AppendOptions {
    ghost use Rattle.tl_append.specs.Running.{batch_size};

    // Returns after how many entries the log is published.
    pub(crate) fn batch_size(&self) -> u64
        ensures size { result ≡ batch_size self.now.batch }
        ensures some { 0 < result }
    {
        self.batch.unwrap_or(u64::MAX).max(1)
    }
}
