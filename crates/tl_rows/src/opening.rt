//! Rows of logs that are opened new, or go on from what was published, and of steps on them.
//!
//! | A log is opened by | |
//! |---|---|
//! | `$ steps log LANES CAPACITY LIMIT` | of `example.com/log`, with one reader, signed by its length key |
//! | `$ steps open ORIGIN SIGNERS LANES CAPACITY LIMIT READERS` | with these keys, and `reluctant` or `counting` |
//! | `$ steps resume ORIGIN SIGNERS VERIFIERS LANES CAPACITY LIMIT BUNDLE..` | that goes on from a note and bundles |
//! | `$ steps lanes LANES CAPACITY LIMIT [ENTRY]` | a sequencer alone, which may begin with an entry |
//!
//! | A step | |
//! |---|---|
//! | `send LANE ENTRY COUNT` | sends an entry this often: the number of the last one |
//! | `take LANE MOST`, `publish`, `propose`, `attach LINES`, `require NEED NAMES`, `end LANE`, `close` | that call |
//! | `drop` | drops the operator |
//! | `see size`, `see note`, `see bytes RESOURCE`, `see length RESOURCE` | the reader looks |
//! | `kept ..` in place of `see ..` | the board is asked after the close |
//! | `len`, `who PLACE`, `place LANE NUMBER`, `entry PLACE` | of a closed log, or of a sequencer |
//!
//! A resource is `checkpoint`, `bundle INDEX WIDTH` or `tile LEVEL INDEX WIDTH`. `bytes_of`, `entries_of` and
//! `keys_of` say how entries, bundles and keys are spelled. In lines, origins and names `|` stands for a newline and
//! `_` for a space. The key `reluctant` fails once; the key `counting` signs with the number of its signature and the
//! hash of the text.

ghost use Rattle.std.specs.Prelude.{IfOk};
ghost use Rattle.tl_publisher.specs.Operating.{IsOperating};
ghost use Rattle.tl_rows.specs.Inner.Kept.{AreSenders};

use crate::calls::Witnesses;
use crate::lanes::open_lanes;
use crate::running::run_steps;
use crate::sending::Sender;
use crate::signers::{Reluctant, keys_of};
use crate::words::{Row, Told, Words, bytes_of, number_of, small_of, text_of, words_of};
use std::alloc::{AllocError, Global};
use std::fmt::Debug;
use std::sync::Wait;
use tl_note::{Signer, Verifier};
use tl_publisher::{BoardReader, Operator, RunningLog};
use tl_testing::{CountingKey, LengthKey};

// The origin of a log that names no other, and its key.
const ORIGIN: &str = "example.com/log";

const KEY: &str = "example.com/log:01020304";

// An operator, what sends to its lanes, and its readers.
type Opened<R> = (Operator<R>, Vec<Sender>, Vec<BoardReader<Global>>);

// Does the steps of a row with the log that was opened, or writes why it wasn't.
fn begin<R: Wait + Drop, E: Debug + Drop>(
    alloc: Global,
    opened: Result<Opened<R>, E>,
    witnesses: Witnesses,
    row: &Row<'_>,
    out: &mut String,
) -> Told
    requires operating { IfOk opened (λ r. IsOperating (⟦<Operator<R> as RunningLog>⟧.state r.0)) }
    requires own { IfOk opened (λ r.
        AreSenders (⟦<Operator<R> as RunningLog>⟧.state r.0).log r.1.items) }
{
    match opened {
        Ok((operator, submitters, mut readers)) => {
            out.push_str("opened\n")?;
            let Some(reader) = readers.pop() else {
                return Ok(());
            };
            let opened = (operator, submitters, reader);
            run_steps(alloc, opened, witnesses, row.steps.as_slice(), out)
        }
        Err(fault) => write!(out, "{fault:?}\n"),
    }
}

// Returns the keys of the witnesses that steps require, the last first.
fn required(alloc: Global, steps: &[&str]) -> Result<Vec<Vec<LengthKey>>, AllocError> {
    let mut all = Vec::new(alloc);
    for line in steps.iter().rev() {
        if let Some(words) = line.strip_prefix("require ") {
            let (_need, names) = words.split_once(' ').unwrap_or((words, ""));
            all.push(keys_of(alloc, names)?)?;
        }
    }
    Ok(all)
}

// Opens a log, and does the steps of the row. The words are its origin and its signers, how many lanes it has, their
// capacity, the limit, and how many readers there are.
fn open<R: Wait + Drop>(
    rt: R,
    alloc: Global,
    words: [&str; 6],
    row: &Row<'_>,
    out: &mut String,
) -> Told {
    let [origin, keys, lanes, capacity, limit, readers] = words;
    let mut signers: Vec<Box<dyn Signer>> = Vec::new(alloc);
    for key in keys_of(alloc, keys)? {
        signers.push(Box::new(alloc, key)?)?;
    }
    if keys.ends_with("reluctant") {
        signers.push(Box::new(alloc, Reluctant::new(true))?)?;
    }
    if keys.ends_with("counting") {
        signers.push(Box::new(alloc, CountingKey::new(alloc, "counting", 7)?)?)?;
    }
    let mut witnesses: Vec<Vec<Box<dyn Verifier>>> = Vec::new(alloc);
    for keys in required(alloc, row.steps.as_slice())? {
        let mut some: Vec<Box<dyn Verifier>> = Vec::new(alloc);
        for key in keys {
            some.push(Box::new(alloc, key)?)?;
        }
        witnesses.push(some)?;
    }
    let origin = text_of(alloc, origin)?;
    let (capacity, limit) = (number_of(capacity) as usize, number_of(limit));
    let (lanes, readers) = (small_of(lanes), small_of(readers));
    let origin = origin.as_str();
    let opened = Operator::open(rt, alloc, origin, signers, lanes, capacity, limit, readers);
    begin(alloc, opened, witnesses, row, out)
}

// Returns the bundles that words give.
fn bundles_of(alloc: Global, words: &[&str]) -> Result<Vec<Vec<u8>>, AllocError> {
    let mut bundles = Vec::new(alloc);
    for word in words {
        bundles.push(bytes_of(alloc, word)?)?;
    }
    Ok(bundles)
}

// Opens a log that goes on from the row's note and these bundles, with one reader, and does the steps of the row. The
// words are its origin, its signers and its verifiers, how many lanes it has, their capacity, and the limit.
fn resume<R: Wait + Drop>(
    rt: R,
    alloc: Global,
    words: [&str; 6],
    bundles: &[&str],
    row: &Row<'_>,
    out: &mut String,
) -> Told {
    let [origin, keys, known, lanes, capacity, limit] = words;
    let mut signers: Vec<Box<dyn Signer>> = Vec::new(alloc);
    for key in keys_of(alloc, keys)? {
        signers.push(Box::new(alloc, key)?)?;
    }
    let mut verifiers: Vec<Box<dyn Verifier>> = Vec::new(alloc);
    for key in keys_of(alloc, known)? {
        verifiers.push(Box::new(alloc, key)?)?;
    }
    let origin = text_of(alloc, origin)?;
    let bundles = bundles_of(alloc, bundles)?;
    let opened = Operator::resume(
        rt,
        alloc,
        origin.as_str(),
        signers,
        verifiers.as_slice(),
        small_of(lanes),
        number_of(capacity) as usize,
        number_of(limit),
        1,
        row.text,
        bundles.as_slice(),
    );
    begin(alloc, opened, Vec::new(alloc), row, out)
}

/// Opens the log of a row, and does its steps.
pub(crate) fn answer<R: Wait>(
    rt: &R,
    alloc: Global,
    words: &mut Words<'_>,
    row: &Row<'_>,
    out: &mut String,
) -> Told {
    let words = words_of(alloc, words.left)?;
    match words.as_slice() {
        ["log", lanes, capacity, limit] => {
            let words: [&str; 6] = [ORIGIN, KEY, lanes, capacity, limit, "1"];
            open(rt, alloc, words, row, out)
        }
        ["open", origin, keys, lanes, capacity, limit, readers] => {
            let words: [&str; 6] = [origin, keys, lanes, capacity, limit, readers];
            open(rt, alloc, words, row, out)
        }
        [
            "resume",
            origin,
            keys,
            known,
            lanes,
            capacity,
            limit,
            bundles @ ..,
        ] => {
            let words: [&str; 6] = [origin, keys, known, lanes, capacity, limit];
            resume(rt, alloc, words, bundles, row, out)
        }
        ["lanes", lanes, capacity, limit] => {
            open_lanes(alloc, row, [lanes, capacity, limit], None, out)
        }
        ["lanes", lanes, capacity, limit, entry] => {
            open_lanes(alloc, row, [lanes, capacity, limit], Some(entry), out)
        }
        _ => out.push_str("no such log\n"),
    }
}
