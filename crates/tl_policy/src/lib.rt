//! Policies: which logs are trusted, and which witnesses have to have cosigned a checkpoint (C2SP tlog-policy).
//!
//! ```text
//! log example.com/log+530ac4f8+AQ8e..
//! witness one one.example+2b06f68b+BJ2z.. https://one.example/
//! witness two two.example+7f10c9a1+BMq1..
//! witness own own.example+c0ffee01+BPw3..
//! group others any one two
//! group all-of-them all others own
//! quorum all-of-them
//! ```
//!
//! One of the first two witnesses and the third have to have cosigned a checkpoint of the log:
//!
//! ```
//! let policy = parse_policy(alloc, alloc, text)?;
//! assert!(policy.is_satisfied(&[false, true, true])); // two, own
//! assert!(!policy.is_satisfied(&[true, true, false])); // one, two
//! let times = policy.cosigned_by(alloc, note.text, note.signatures.as_slice())?; // when each cosigned it
//! ```
#![tactic(auto)]

mod cosigned;
mod draft;
mod fault;
mod grouping;
mod law;
mod lines;
mod naming;
mod policy;
mod quorum;
mod reading;
mod satisfied;
mod trust;
mod trust_fault;
mod words;

pub use cosigned::cosigned_at;
pub use fault::PolicyFault;
pub use law::{more_witnesses_satisfy, need_is_a_policy};
pub use policy::{Member, Policy, PolicyGroup, PolicyLog, PolicyWitness};
pub use reading::parse_policy;
pub use satisfied::Shortfall;
pub use trust::{Trusted, open_under};
pub use trust_fault::TrustFault;
