//! Signs a text as a note, and opens it with the key that signed it and with another.

use std::alloc::Global;
use std::io;
use tl_key::demo_key;
use tl_note::{Signer, Verifier, open_note, sign_note};

/// Signs a text, prints the note, and opens it with the key of the right secret and with that of a wrong one.
pub fn sign_a_note(rt: &impl Print, alloc: Global) -> Result<(), anyhow::Error> {
    println!(rt; "A note:")?;
    let key = demo_key(alloc, "example.com/log", b"a secret")?;
    let signer: Box<dyn Signer> = Box::new(alloc, key)?;
    let note = sign_note(alloc, alloc, "Two cats were seen.\n", &[signer])?;
    print!(rt; "{note}")?;
    for secret in ["a secret", "another secret"] {
        let key = demo_key(alloc, "example.com/log", secret.as_bytes())?;
        let verifier: Box<dyn Verifier> = Box::new(alloc, key)?;
        match open_note(alloc, note.as_str(), &[verifier]) {
            Ok(_) => println!(rt; "- with '{secret}' it opens")?,
            Err(fault) => println!(rt; "- with '{secret}' it doesn't: {fault}")?,
        }
    }
    Ok(())
}
