//! The seed of a new key: the 32 bytes that the system gives, and no key if it gives none.

use std::alloc::Global;
use std::io::{self, Error, ErrorKind};
use std::random::RandomSource;
use tl_command::run_keygen;
use tl_device::Counted;
use tl_key::Note;
use tl_run::RunFault;

// A system that gives no random bytes.
#[derive(Drop)]
struct NoBytes;

impl RandomSource for NoBytes {
    fn fill_bytes(&self, _buf: &mut [u8]) -> io::Result<()> {
        Err(Error::from(ErrorKind::Other))
    }
}

// Returns the outcome of `keygen` with these random bytes, and the private and the verifier's text that it writes.
fn new_key<H: RandomSource>(rt: &H, alloc: Global) -> (Result<(), RunFault>, Vec<u8>, Vec<u8>) {
    let mut writer = Counted::new(Vec::new(alloc));
    let mut errors = Counted::new(Vec::new(alloc));
    let ended = run_keygen::<Note, H, Vec<u8>, Vec<u8>>(
        rt,
        alloc,
        "example.com/log",
        &mut writer,
        &mut errors,
    );
    (ended, writer.into_inner(), errors.into_inner())
}

// Reports whether `keygen` without random bytes fails as a read does, with nothing written.
fn is_key_refused(alloc: Global) -> bool {
    let (ended, private, verifier) = new_key(&NoBytes, alloc);
    ended == Err(RunFault::Read) && private.is_empty() && verifier.is_empty()
}

// A system whose random bytes are 0, 1, 2 and so on.
#[derive(Drop)]
struct CountedBytes;

impl RandomSource for CountedBytes {
    fn fill_bytes(&self, buf: &mut [u8]) -> io::Result<()> {
        for place in 0..buf.len() {
            buf[place] = (place % 256) as u8;
        }
        Ok(())
    }
}

// The texts of the key with the seed 0, 1, 2 and so on to 31: the private one, and the verifier's.
const PRIVATE: &[u8] =
    b"PRIVATE+KEY+example.com/log+d455c521+AQABAgMEBQYHCAkKCwwNDg8QERITFBUWFxgZGhscHR4f\n";

const VERIFIER: &[u8] = b"example.com/log+d455c521+AQOhB7/zzhC+HXDdGOdLwJln5NYwm6UNXx3chmQSVTG4\n";

// Reports whether the seed of a new key is the 32 bytes that the system gives.
fn is_seed_given(alloc: Global) -> bool {
    let (ended, private, verifier) = new_key(&CountedBytes, alloc);
    ended == Ok(()) && private.as_slice() == PRIVATE && verifier.as_slice() == VERIFIER
}

#[test]
fn a_seed_is_what_the_system_gives(rt: HostRuntime) {
    assert!(rt; is_key_refused(rt.alloc()));
    assert!(rt; is_seed_given(rt.alloc()));
}
