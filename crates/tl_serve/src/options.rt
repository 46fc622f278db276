//! Options of the commands `serve` and `witness`.

use tl_run::LogKey;

/// The key by which a witness knows a log.
#[derive(Drop)]
pub enum LogVerifierKey {
    /// The demonstration key of the log's name and this secret.
    Secret(String),
    /// The verifier key of this text.
    Text(String),
}

/// The logs that a witness knows.
#[derive(Drop)]
pub enum KnownLogs {
    /// One log: its name, which is a key's name, and the key it is known by.
    One(String, LogVerifierKey),
    /// The logs that the lines of the file at this path name (`tl_logs::read_logs`).
    Listed(String),
}

/// The key that a witness cosigns with.
#[derive(Drop)]
pub enum WitnessSignerKey {
    /// The demonstration key of this name and this secret.
    Secret(String, String),
    /// The private key whose text is in this file.
    File(String),
}

/// The options that all servers have.
#[derive(Drop)]
pub struct ListenOptions {
    /// The address to listen at: an IP address or a host's name, and a port.
    pub listen: String,
    /// How many connections are answered before the server ends. Without it, the server runs until
    /// it is stopped.
    pub connections: Option<u64>,
    /// How many threads answer, 1 to 63. Without it, as many as the machine has.
    pub threads: Option<u64>,
    /// How many seconds one connection may take in all, at least 1. Half of them are for the head
    /// of its request.
    pub timeout: u64,
    /// How many seconds a connection may wait for its next request, at least 1. Without it, a connection
    /// is closed after one answer.
    pub keep_alive: Option<u64>,
    /// How many connections are held at once at most, at least 1.
    pub clients: u64,
    /// Whether only the address is reported.
    pub quiet: bool,
}

/// A witness that is asked to cosign what a log proposes (C2SP tlog-witness).
#[derive(Drop)]
pub struct AskedWitness {
    /// The text of its verifier key.
    pub key: String,
    /// Its address, `http://HOST[:PORT][/PREFIX]`.
    pub url: String,
}

/// The options of `serve`.
#[derive(Drop)]
pub struct ServeOptions {
    /// The name of the log, a key's name.
    pub origin: String,
    /// The log's key.
    pub key: LogKey,
    /// Where and how long it listens.
    pub server: ListenOptions,
    /// How many lanes the entries come in by, 1 to 64.
    pub lanes: u64,
    /// How many entries a lane has room for, 1 to 65,536.
    pub capacity: u64,
    /// How many entries of a lane are taken at once, 1 to 65,536.
    pub batch: u64,
    /// The signed note of the checkpoint that the log goes on from, in memory.
    pub note: Option<String>,
    /// The folder of the log. Without it, the log is in memory.
    pub dir: Option<String>,
    /// Whether a log begins in the folder, and none may be there. If not, the log that is there
    /// goes on.
    pub is_new: bool,
    /// Whether lines are published as they come.
    pub follow: bool,
    /// Whether posted entries are taken, and answered with their indexes.
    pub takes_posts: bool,
    /// How many milliseconds entries wait at most for more before they are published.
    pub interval: u64,
    /// How many entries are remembered with their indexes. One that is posted again isn't added
    /// again.
    pub remember: u64,
    /// Whether a log in a folder may go on from a checkpoint of fewer entries than were published.
    pub allows_older: bool,
    /// Whether a folder keeps partial tiles and bundles that full ones have replaced.
    pub keeps_partials: bool,
    /// The witnesses that are asked to cosign each checkpoint of a log in a folder.
    pub witnesses: Vec<AskedWitness>,
    /// How many of them must have cosigned a checkpoint before it is shown.
    pub need: u64,
    /// The text of a policy whose quorum those that cosigned must satisfy, too (C2SP tlog-policy).
    pub quorum: Option<String>,
}

/// The options of `witness`.
#[derive(Drop)]
pub struct WitnessOptions {
    /// The logs that it knows.
    pub logs: KnownLogs,
    /// The witness's key.
    pub key: WitnessSignerKey,
    /// The seconds since 1970 to cosign with. Without them, those of the machine's clock.
    pub time: Option<u64>,
    /// The file of what it cosigned. Without it, standard input and output.
    pub state: Option<String>,
    /// Whether that file is made, and none may be there. If not, the file that is there goes on.
    pub is_new: bool,
    /// Whether that file is compacted first, so that it keeps only the last link of each origin.
    pub compacts: bool,
    /// Where and how long it listens.
    pub server: ListenOptions,
}
