//! Rows of a witness that is asked to cosign. The words are `length` or `counting` for the keys that cosign, and the
//! origins, each `ORIGIN;LOG;COSIGNER` with the length key of the log and the key that cosigns, as `NAME:ID`. The
//! input has the lines of the links that were saved.
//!
//! | A step | |
//! |---|---|
//! | `add BODY` | a request: the status and the body of the reply |
//! | `unsaved BODY` | the same with a saver that fails |
//! | `links ORIGIN`, `links ORIGIN FROM MOST` | the links of an origin, or some: the size, the root and the proof |
//! | `head ORIGIN` | the size and the root that it has reached |
//! | `saved` | the lines that were saved |
//! | `book` | the links of each origin, as a book that the witness is made has them; then the book is shared again |
//!
//! In a body `|` stands for a newline and `_` for a space.

use crate::words::{Row, Step, Told, Words, number_of, put_hash, text_of, words_of};
use std::alloc::{AllocError, Global};
use std::str;
use std::sync::Wait;
use tl_hash::{Hash, Sha256Tree};
use tl_note::{Signer, Verifier};
use tl_proof::Link;
use tl_testing::{CountingKey, KeepingSaver, LengthKey};
use tl_witness::{Book, Reply, SharedWitness, Trust, read_chain};

// The time of each request, in seconds since the Unix epoch.
const TIME: u64 = 1_700_000_000;

// A witness, and the system that waits for its locks.
#[derive(Drop)]
struct Shared<'r, R> {
    rt: &'r R,
    witness: SharedWitness<Sha256Tree, Global>,
}

// Writes how many links there are, and each on a line.
fn tell_all(links: Option<&[Link<Global>]>, step: &mut Step<'_>) -> Told {
    let Some(links) = links else {
        return step.say("None");
    };
    step.tell(links.len())?;
    for link in links {
        write!(step.out, "{} ", link.size)?;
        put_hash(step.out, link.root)?;
        for hash in link.proof.as_slice() {
            step.out.push(' ')?;
            put_hash(step.out, *hash)?;
        }
        step.out.push('\n')?;
    }
    Ok(())
}

impl<R: Wait> Shared<'_, R> {
    // Returns the reply to a request.
    fn reply(&self, body: &str, saver: &mut KeepingSaver) -> Result<Reply<Global>, AllocError> {
        self.witness.try_add(self.rt, body.as_bytes(), TIME, saver)
    }

    // Writes links of an origin: all of them, or a number of them from an index on.
    fn tell_links(&self, origin: &str, part: Option<(u64, u64)>, step: &mut Step<'_>) -> Told {
        let found = match part {
            Some((from, most)) => self.witness.links(self.rt, origin, from, most)?,
            None => self.witness.chain(self.rt, origin)?,
        };
        match found {
            Some(links) => tell_all(Some(links.as_slice()), step),
            None => tell_all(None, step),
        }
    }

    // Writes the size and the root that an origin has reached.
    fn tell_head(&self, origin: &str, step: &mut Step<'_>) -> Told {
        let Some((size, root)) = self.witness.head(self.rt, origin) else {
            return step.say("None");
        };
        write!(step.out, "{}: {size} ", step.line)?;
        put_hash(step.out, root)?;
        step.out.push('\n')
    }
}

// Writes the links of each origin that words name, as a book has them.
fn tell_book(book: &Book<Sha256Tree, Global>, words: &str, out: &mut String) -> Told {
    out.push_str("book:\n")?;
    for word in words.split(' ') {
        let (origin, _keys) = word.split_once(';').unwrap_or((word, ""));
        let mut step = Step {
            line: origin,
            out: &mut *out,
        };
        tell_all(book.chain(origin), &mut step)?;
    }
    Ok(())
}

// Posts a request, and writes the status and the body of the reply.
fn add<R: Wait>(
    asked: &Shared<'_, R>,
    saver: &mut KeepingSaver,
    body: &str,
    step: &mut Step<'_>,
) -> Told {
    saver.lacks_memory = false;
    let reply = asked.reply(body, saver)?;
    if saver.lacks_memory {
        return Err(AllocError);
    }
    let text = str::from_utf8(reply.body.as_slice()).unwrap_or("no text");
    step.tell((reply.status, text))
}

// Does a step.
fn do_step<R: Wait>(
    alloc: Global,
    asked: &Shared<'_, R>,
    saver: &mut KeepingSaver,
    step: &mut Step<'_>,
) -> Told {
    let words = words_of(alloc, step.line)?;
    saver.fails = step.line.starts_with("unsaved");
    match words.as_slice() {
        ["add" | "unsaved", body] => {
            let body = text_of(alloc, body)?;
            add(asked, saver, body.as_str(), step)
        }
        ["links", origin] => asked.tell_links(origin, None, step),
        ["links", origin, from, most] => {
            let part = (number_of(from), number_of(most));
            asked.tell_links(origin, Some(part), step)
        }
        ["head", origin] => asked.tell_head(origin, step),
        ["saved"] => write!(step.out, "{}:\n{}", step.line, saver.lines),
        _ => step.say("no such step"),
    }
}

// Does steps, each once more if an allocation fails.
fn run_steps<R: Wait>(
    alloc: Global,
    asked: &Shared<'_, R>,
    saver: &mut KeepingSaver,
    steps: &[&str],
    out: &mut String,
) -> Told {
    for line in steps {
        let mut step = Step {
            line,
            out: &mut *out,
        };
        if do_step(alloc, asked, saver, &mut step).is_err() {
            step.say_refused()?;
            do_step(alloc, asked, saver, &mut step)?;
        }
    }
    Ok(())
}

// An origin, the key of its log, and the name and the identifier of the key that cosigns.
#[derive(Drop)]
struct Party<'a> {
    origin: String,
    log: LengthKey,
    cosigner: (&'a str, u32),
}

// Returns the name and the identifier of a key.
fn named(word: &str) -> (&str, u32) {
    let (name, id) = word.split_once(':').unwrap_or((word, ""));
    (name, u32::from_str_radix(id, 16).unwrap_or(0))
}

// Returns the origins that words name, each with its keys.
fn parties_of<'a>(alloc: Global, words: &'a str) -> Result<Vec<Party<'a>>, AllocError> {
    let mut parties = Vec::new(alloc);
    for word in words.split(' ') {
        let (origin, keys) = word.split_once(';').unwrap_or((word, ""));
        let (log, cosigner) = keys.split_once(';').unwrap_or((keys, ""));
        let (name, id) = named(log);
        parties.push(Party {
            origin: String::from_str(alloc, origin)?,
            log: LengthKey::new(alloc, name, id)?,
            cosigner: named(cosigner),
        })?;
    }
    Ok(parties)
}

/// Opens the witness of a row, and does its steps.
pub(crate) fn answer<R: Wait>(
    rt: &R,
    alloc: Global,
    words: &mut Words<'_>,
    row: &Row<'_>,
    out: &mut String,
) -> Told {
    let is_counting = words.next() == "counting";
    let mut trusts = Vec::new(alloc);
    for Party {
        origin,
        log,
        cosigner,
    } in parties_of(alloc, words.left)? {
        let mut verifiers: Vec<Box<dyn Verifier>> = Vec::new(alloc);
        verifiers.push(Box::new(alloc, log)?)?;
        let (name, id) = cosigner;
        let cosigner: Box<dyn Signer> = if is_counting {
            Box::new(alloc, CountingKey::new(alloc, name, id)?)?
        } else {
            Box::new(alloc, LengthKey::new(alloc, name, id)?)?
        };
        trusts.push(Trust {
            origin,
            verifiers,
            cosigner,
        })?;
    }
    let saved = match read_chain(alloc, row.text.as_bytes()) {
        Ok(saved) => saved,
        Err(fault) => return write!(out, "{fault:?}\n"),
    };
    let book = match Book::open(alloc, alloc, Sha256Tree, trusts, saved) {
        Ok(book) => book,
        Err(fault) => return write!(out, "{fault:?}\n"),
    };
    out.push_str("opened\n")?;
    let (mut saver, steps) = (KeepingSaver::new(alloc), row.steps.as_slice());
    let witness = SharedWitness::new(book).map_err(|_| AllocError)?;
    let shared = Shared { rt, witness };
    let count = steps.iter().take_while(|step| **step != "book").count();
    let (front, rest) = (steps.get(..count), steps.get(count.saturating_add(1)..));
    run_steps(alloc, &shared, &mut saver, front.unwrap_or(&[]), out)?;
    let Some(rest) = rest else {
        return Ok(());
    };
    let book = shared.witness.into_book(rt).map_err(|_| AllocError)?;
    tell_book(&book, words.left, out)?;
    let witness = SharedWitness::new(book).map_err(|_| AllocError)?;
    run_steps(alloc, &Shared { rt, witness }, &mut saver, rest, out)
}
