//! Loops to measure, chosen by a word each. The scripts in `bench/` run them beside the program.
#![tactic(auto)]

mod rings;
mod signing;

use rings::sequencer;
use sha2::{Digest, Sha256};
use signing::keys;
use std::alloc::Global;
use std::process::ExitCode;
use std::sync::Wait;
use std::thread::Threads;
use std::time::Clock;
use std::{env, io};

// Hashes the first bytes of a message, and writes the digest over its front.
fn digest_once(message: &mut [u8; 4096], length: usize) {
    let mut hasher = Sha256::new();
    hasher.update(&message[..length.min(4096)]);
    let digest = hasher.finalize();
    message[..32].copy_from_slice(&digest);
}

// Makes this many SHA-256 digests of messages of this length, each with the digest before it at its front, and
// returns the first byte of the last one.
fn digests(count: u64, length: usize) -> u8 {
    let mut message = [0u8; 4096];
    for _ in 0..count {
        digest_once(&mut message, length);
    }
    message[0]
}

// Makes digests for each pair of words: how many, and of how many bytes.
fn sha256(rt: &impl Print, words: &[String]) -> io::Result<bool> {
    for pair in words.chunks(2) {
        let [count, length] = pair else {
            return Ok(false);
        };
        let (Ok(count), Ok(length)) = (count.parse::<u64>(), length.parse::<usize>()) else {
            return Ok(false);
        };
        println!(rt;
            "{count} digests of {length} bytes: {}",
            digests(count, length)
        )?;
    }
    Ok(true)
}

// Measures the loop that a word names. Reports whether there is one, and it was measured to its end.
fn measured<R: Threads + Wait + Clock + Print + Copy + Send + 'static>(
    rt: &R,
    alloc: Global,
    word: &str,
    rest: &[String],
) -> io::Result<bool> {
    match word {
        "sha256" => sha256(rt, rest),
        "sequencer" => sequencer(rt, alloc),
        "keys" => keys(rt),
        _ => Ok(false),
    }
}

fn main(rt: HostRuntime) -> ExitCode {
    let Ok(args) = env::args(&rt) else {
        return ExitCode::from(2);
    };
    let Ok(words) = args.collect::<Vec<String>>(rt.alloc()) else {
        return ExitCode::from(1);
    };
    let word = words.get(1).map_or("", |word| word.as_str());
    let rest = words.get(2..).unwrap_or(&[]);
    match measured(&rt, rt.alloc(), word, rest) {
        Ok(true) => ExitCode::SUCCESS,
        Ok(false) => {
            let _ = rt.eprintln("usage: tl_bench sha256 COUNT LENGTH .. | sequencer | keys");
            ExitCode::from(2)
        }
        Err(_) => ExitCode::from(3),
    }
}
