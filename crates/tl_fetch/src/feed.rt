//! Brings a log's checkpoint before witnesses.

pub(crate) mod asking;
pub(crate) mod by_policy;
pub(crate) mod command;
pub(crate) mod feeding;
pub(crate) mod witnesses;
