//! Tests of what no row can show: threads over one ring, readers beside an operator, and a witness that two threads
//! ask at once.
#![tactic(auto)]

#[cfg(test)]
mod logs;
#[cfg(test)]
mod races;
#[cfg(test)]
mod rings;
#[cfg(test)]
mod threads;
