//! Asks a witness to cosign three checkpoints of a log, the last of which drops entries that the log had.

use crate::journal::Journal;
use base64::engine::general_purpose::STANDARD;
use std::alloc::Global;
use std::io;
use tl_checkpoint::{Checkpoint, write};
use tl_hash::{Hash, Sha256Tree};
use tl_key::demo_key;
use tl_note::{Signer, Verifier, sign_note};
use tl_proof::prove_tree;
use tl_store::{HashStore, tree_hash};
use tl_witness::{Book, Trust};

// The name of the log, and of its key.
const LOG: &str = "example.com/log";

// The time at which the witness is asked, in seconds since the Unix epoch.
const TIME: u64 = 1_700_000_000;

// Returns the signed checkpoint of the log at this size and root.
fn checkpoint(alloc: Global, size: u64, root: Hash) -> Result<String, anyhow::Error> {
    let text = write(
        alloc,
        &Checkpoint {
            origin: String::from_str(alloc, LOG)?,
            size,
            root,
            extensions: Vec::new(alloc),
        },
    )?;
    let signer: Box<dyn Signer> = Box::new(alloc, demo_key(alloc, LOG, b"the log's")?)?;
    Ok(sign_note(alloc, alloc, text.as_str(), &[signer])?)
}

// Returns the body of a request to cosign this log. The witness cosigned the old size last.
fn request(
    alloc: Global,
    log: &HashStore<Sha256Tree, Global>,
    old: u64,
    size: u64,
) -> Result<String, anyhow::Error> {
    let mut body = format!(in alloc; "old {old}\n")?;
    for hash in &prove_tree(alloc, Sha256Tree, size, old, log)? {
        STANDARD.encode_string(hash.as_bytes(), &mut body)?;
        body.push_str("\n")?;
    }
    body.push_str("\n")?;
    let root = tree_hash(alloc, Sha256Tree, size, log)?;
    body.push_str(checkpoint(alloc, size, root)?.as_str())?;
    Ok(body)
}

// Returns requests for the checkpoint of one entry, of three with a proof, and of a list that doesn't begin with
// those three.
fn requests(alloc: Global) -> Result<[String; 3], anyhow::Error> {
    let mut log = HashStore::new(alloc, Sha256Tree);
    log.append(b"a cat")?;
    let first = request(alloc, &log, 0, 1)?;
    log.append(b"a dog")?;
    log.append(b"a hen")?;
    let second = request(alloc, &log, 1, 3)?;
    let mut forked = HashStore::new(alloc, Sha256Tree);
    forked.append(b"a fox")?;
    forked.append(b"a dog")?;
    forked.append(b"a hen")?;
    forked.append(b"an owl")?;
    let third = request(alloc, &forked, 3, 4)?;
    Ok([first, second, third])
}

/// Opens a book that trusts the log's key for the log, and sends it the three requests.
pub fn ask_a_witness(rt: &impl Print, alloc: Global) -> Result<(), anyhow::Error> {
    println!(rt; "A witness, asked three times:")?;
    let verifier: Box<dyn Verifier> = Box::new(alloc, demo_key(alloc, LOG, b"the log's")?)?;
    let mut verifiers = Vec::new(alloc);
    verifiers.push(verifier)?;
    let mut trusts = Vec::new(alloc);
    trusts.push(Trust {
        origin: String::from_str(alloc, LOG)?,
        verifiers,
        cosigner: Box::new(alloc, demo_key(alloc, "witness.example", b"the witness's")?)?,
    })?;
    let mut book = Book::open(alloc, alloc, Sha256Tree, trusts, Vec::new(alloc))?;
    let mut journal = Journal::new(alloc);
    for body in &requests(alloc)? {
        let reply = book.add(body.as_bytes(), TIME, &mut journal);
        println!(rt;
            "- status {}, links saved: {}",
            reply.status,
            journal.count()
        )?;
    }
    Ok(())
}
