//! The command line of the program `tlog`: it reads the words, runs the command that they name, reports a fault on
//! standard error, and returns an exit status.
//!
//! `read_words` makes a `Job` of the words, which is a command with its options, or the text on how to call the
//! program. `run_job` runs it, and `end_run` prints the line of its fault and returns the status. `run_words` does
//! all of that, and is what a program's `main` calls. The line of a fault names the file, the folder, the bucket or
//! the address that the options gave. `disk` says what a crash may do to files, and syncs them; `rt` is the system.
//!
//! ```rust
//! // tlog inclusion --index 7, of an input of two lines
//! let streams = Streams { is_terminal: false, input: None };
//! let status = run_words(AnyOutcome, &rt, alloc, &words, streams, &mut reader, &mut writer, &mut errors);
//! assert_eq!(status, 1); // and `errors` has the line `tlog: bad index`
//!
//! // the same, step by step
//! let job = read_words(alloc, &words)?;
//! let mut folder = None;
//! let outcome = run_job(AnyOutcome, &rt, alloc, &job, streams, &mut folder, &mut reader, &mut writer, &mut errors);
//! let status = end_run(alloc, &job, outcome, &mut errors);
//! ```
#![tactic(auto)]

mod checking;
mod fault;
mod in_bucket;
mod job;
mod key_files;
mod key_texts;
mod lasting;
mod naming;
mod own_bucket;
mod own_folder;
mod policy_words;
mod proposal_file;
mod running;
mod serving_folder;
mod streams;
mod telling;
mod version;
mod words;

pub use fault::{CommandFault, KeyFile};
pub use in_bucket::{AppendToOptions, ServeFromOptions};
pub use job::{ConsistencyOptions, InclusionOptions, Job, KeyFileOptions};
pub use own_bucket::BucketOptions;
pub use own_folder::OwnFolder;
pub use running::{end_early, end_run, run_job, run_words};
pub use streams::Streams;
pub use words::{WordsFault, read_words};
