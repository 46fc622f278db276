//! Proves that an entry is in a log, and checks the proof without the log.

use std::alloc::Global;
use std::io;
use tl_hash::{Sha256Tree, leaf_hash};
use tl_proof::{check_record, prove_record};
use tl_store::{HashStore, tree_hash};

/// Proves that the second of three entries is in the log, and checks the proof for it and for another entry by the
/// root alone.
pub fn prove_an_entry(rt: &impl Print, alloc: Global) -> Result<(), anyhow::Error> {
    println!(rt; "An entry proved to be in a log:")?;
    let mut store = HashStore::new(alloc, Sha256Tree);
    store.append(b"a cat")?;
    store.append(b"a dog")?;
    store.append(b"a hen")?;
    let root = tree_hash(alloc, Sha256Tree, 3, &store)?;
    let proof = prove_record(alloc, Sha256Tree, 3, 1, &store)?;
    println!(rt; "- the proof has {} hashes", proof.len())?;
    for entry in ["a dog", "a fox"] {
        let leaf = leaf_hash(Sha256Tree, entry.as_bytes());
        let accepted = check_record(Sha256Tree, &proof, 3, root, 1, leaf);
        println!(rt; "- is '{entry}' the second entry under the root: {accepted}")?;
    }
    Ok(())
}
