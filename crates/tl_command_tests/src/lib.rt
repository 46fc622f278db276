//! Tests of what no row and no script shows of commands: lanes of a server that meet, the seed of a new key, and an
//! audit that finds a collision.
#![tactic(auto)]

#[cfg(test)]
mod audits;
#[cfg(test)]
mod gates;
#[cfg(test)]
mod seeds;
