//! What a server needs of the system.

use std::fs::Files;
use std::random::RandomSource;
use std::sync::Wait;
use std::thread::Threads;
use std::time::Clock;

/// The system, as a server needs it apart from sockets: threads, a clock, files and random bytes.
pub trait Host: Threads + Wait + Clock + Files + RandomSource + Copy + Send + Sync + Drop {}

impl<H> Host for H
where
    H: Threads + Wait + Clock + Files + RandomSource + Copy + Send + Sync + Drop,
{}
