//! What a log has published, and what a publication needs.
//!
//! A log is a list of entries that only grows. It publishes by signing a checkpoint (C2SP tlog-checkpoint) of its
//! first n entries. A *publication* is these entries and that note, and the log's *history* is the list of its
//! publications, each of which extends the one before. A client of a publication asks for the tiles and bundles that
//! a tree of n entries consists of (C2SP tlog-tiles): those are the resources that the publication *needs*, and a
//! place that keeps a log must have all of them, with the bytes that the first n entries give.
//!
//! The crate has the definitions, in `specs/`, and the laws about them; it computes nothing. The operator's board
//! (`tl_publisher`), a shelf (`tl_archive`), and the ledger of a log on one (`tl_ledger`) all promise what they do in
//! these words. So a contract that says
//!
//! ```text
//! ensures { IsGrowing history }
//! ```
//!
//! means the same in each of them: every publication begins with all that was published before it, and has more.
//!
//! - `Histories`: a publication, the last one, its size, whether a history grows, whether a list begins a log.
//! - `Resources`: whether two resources are one, and whether a log of a size needs one.
//! - `Pieces`: the same by arithmetic: full pieces of 256, and the partial one at the end of a row.
//! - `Checkpoints`: the checkpoint of a log of given entries, and its text.
#![tactic(auto)]

mod law;

pub use law::needed_pieces_are_counted;
