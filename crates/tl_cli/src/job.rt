//! The commands of the program with their options.

use crate::in_bucket::{AppendToOptions, ServeFromOptions};
use tl_append::AppendOptions;
use tl_command::{BuildOptions, CheckOptions, HeadOptions, KeygenOptions, SignedOptions};
use tl_fetch::{FeedOptions, FetchOptions};
use tl_prove::{PolicyFetchOptions, ProveOptions, SubmitOptions, VerifyOptions};
use tl_serve::{ServeOptions, WitnessOptions};

/// The options of `inclusion`.
#[derive(Clone, Copy)]
pub struct InclusionOptions {
    /// The index of the line, counted from 0.
    pub index: u64,
    /// How many threads hash at once, at least 1; without it, as many as the machine has.
    pub threads: Option<u16>,
}

/// The options of `consistency`.
#[derive(Clone, Copy)]
pub struct ConsistencyOptions {
    /// The number of the first lines.
    pub old: u64,
    /// How many threads hash at once, at least 1; without it, as many as the machine has.
    pub threads: Option<u16>,
}

/// The options of `keygen` into files.
#[derive(Drop)]
pub struct KeyFileOptions {
    /// The key's name and its type.
    pub key: KeygenOptions,
    /// The file of the private key. The file of the verifier key has this name with `.pub` at its end.
    pub out: String,
}

/// A command of the program, with its options.
#[derive(Drop)]
pub enum Job {
    /// Print the checkpoint of the log of the lines of standard input.
    Head(HeadOptions),
    /// Print what a static mirror of the log of the lines of standard input serves.
    Build(BuildOptions),
    /// Print that, signed by a private key.
    BuildSigned(SignedOptions),
    /// Append the lines of standard input to the log in a folder.
    Append(AppendOptions),
    /// Append the lines of standard input to the log in a bucket.
    AppendTo(AppendToOptions),
    /// Print the inclusion proof of a line of standard input.
    Inclusion(InclusionOptions),
    /// Print the consistency proof from the first lines of standard input to all of them.
    Consistency(ConsistencyOptions),
    /// Say whether the proof on standard input is accepted.
    Check,
    /// Say whether that proof is accepted and about a signed checkpoint.
    CheckUnder(CheckOptions),
    /// Say whether standard input is evidence that a log forked.
    CheckFork {
        /// The text of the log's verifier key.
        key: String,
    },
    /// Make a key.
    Keygen(KeygenOptions),
    /// Make a key in two files.
    KeygenTo(KeyFileOptions),
    /// Print the text of the note on standard input, if it opens.
    Open {
        /// The text of the log's verifier key.
        key: String,
    },
    /// Say whether one list on standard input extends another by an accepted proof.
    Audit,
    /// Serve the log of the lines of standard input.
    Serve(ServeOptions),
    /// Serve the log in a bucket, and append the lines of standard input to it.
    ServeFrom(ServeFromOptions),
    /// Serve a witness of one log, or of those that a file names.
    Witness(WitnessOptions),
    /// Fetch from a log that isn't trusted.
    Fetch(FetchOptions),
    /// Fetch from a log that isn't trusted, under a policy.
    FetchBy(PolicyFetchOptions),
    /// Bring a log's checkpoint before the witnesses of a policy.
    FeedBy(PolicyFetchOptions),
    /// Bring a log's checkpoint before witnesses.
    Feed(FeedOptions),
    /// Check a proof of an entry under a policy.
    Verify(VerifyOptions),
    /// Print a proof of an entry of a log.
    Prove(ProveOptions),
    /// Post an entry to a log, and print a proof of it.
    Submit(SubmitOptions),
    /// Print the program's version.
    Version,
    /// Print a text on how to call the program.
    Help {
        /// The text.
        text: String,
    },
}
