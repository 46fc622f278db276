//! Threads that post to two origins of a witness at once, one of which waits.

use crate::logs::{LOG_ID, ORIGIN};
use std::alloc::{AllocError, Allocator, Global};
use std::sync::atomic::{AtomicBool, Ordering};
use std::sync::{Arc, Wait};
use std::test::Fail;
use std::thread;
use std::thread::Threads;
use tl_hash::{Sha256Tree, leaf_hash};
use tl_note::{Signer, Verifier};
use tl_proof::Link;
use tl_testing::{KeepingSaver, LengthKey};
use tl_witness::{Book, Reply, SaveFault, Saver, SharedWitness, Trust};

// The time of the requests.
const TIME: u64 = 1700000000;

const ORIGINS: [&str; 2] = ["example.com/a", "example.com/b"];

// A witness.
type Witness = SharedWitness<Sha256Tree, Global>;

// Returns the trust in the worked log's key for an origin.
fn trust(alloc: Global, origin: &str) -> Result<Trust<Global>, AllocError> {
    let mut verifiers: Vec<Box<dyn Verifier>> = Vec::new(alloc);
    verifiers.push(Box::new(alloc, LengthKey::new(alloc, ORIGIN, LOG_ID)?)?)?;
    let cosigner = LengthKey::new(alloc, "witness.example", 0x0A0B0C0D)?;
    let cosigner: Box<dyn Signer> = Box::new(alloc, cosigner)?;
    let origin = String::from_str(alloc, origin)?;
    Ok(Trust {
        origin,
        verifiers,
        cosigner,
    })
}

// Returns a witness of both origins that has cosigned nothing.
fn opened(alloc: Global) -> Result<Witness, Fail> {
    let mut trusts = Vec::new(alloc);
    for origin in ORIGINS {
        trusts.push(trust(alloc, origin)?)?;
    }
    let book = Book::open(alloc, alloc, Sha256Tree, trusts, Vec::new(alloc))?;
    match SharedWitness::new(book) {
        Ok(witness) => Ok(witness),
        Err(_) => Err(Fail::new("no witness")),
    }
}

// The first request of each origin, and one of a third.
const BODIES: [&str; 3] = [
    "old 0\n\nexample.com/a\n1\nbjQLnP+zepicpUTmu3gKLHiQHT+zNzh2hRGjBhevoB0=\n\n— example.com/log AQIDBAAAAAAAAAA9\n",
    "old 0\n\nexample.com/b\n1\nbjQLnP+zepicpUTmu3gKLHiQHT+zNzh2hRGjBhevoB0=\n\n— example.com/log AQIDBAAAAAAAAAA9\n",
    "old 0\n\nexample.com/c\n1\nbjQLnP+zepicpUTmu3gKLHiQHT+zNzh2hRGjBhevoB0=\n\n— example.com/log AQIDBAAAAAAAAAA9\n",
];

// The cosignature of the text of either origin.
const COSIGNATURE: &[u8] = b"\xe2\x80\x94 witness.example CgsMDQAAAABlU/EAAAAAAAAAAFw=\n";

// Answers a request with this saver.
fn answer_slowly<R: Wait>(
    rt: &R,
    witness: &Witness,
    body: &str,
    saver: WaitingSaver,
) -> Reply<Global> {
    let mut saver = saver;
    witness.add(rt, body.as_bytes(), TIME, &mut saver)
}

// Answers three requests while the other thread saves, and then raises `answered`: `body`, a malformed one, and one
// of an unknown origin. It returns whether the other thread saved, the reply to `body`, and the statuses of the other
// two.
fn answer_meanwhile<R: Wait>(
    rt: &R,
    alloc: Global,
    witness: &Witness,
    body: &str,
    called: &AtomicBool,
    answered: &AtomicBool,
) -> (bool, Reply<Global>, (u16, u16)) {
    let is_saving = is_raised(called);
    let mut saver = KeepingSaver::new(alloc);
    let reply = witness.add(rt, body.as_bytes(), TIME, &mut saver);
    let malformed = witness.add(rt, b"old 0\n", TIME, &mut saver);
    let unknown = witness.add(rt, BODIES[2].as_bytes(), TIME, &mut saver);
    answered.store(true, Ordering::SeqCst);
    (is_saving, reply, (malformed.status, unknown.status))
}

// Reports whether each reply is right when the second request comes while the link of the first is saved.
fn are_right_in_a_save<R: Threads + Wait + Sync>(
    rt: &R,
    alloc: Global,
    witness: &Witness,
    slow: &str,
    quick: &str,
) -> Result<bool, AllocError> {
    let called = Arc::new(alloc, AtomicBool::new(false))?;
    let answered = Arc::new(alloc, AtomicBool::new(false))?;
    let saver = WaitingSaver {
        inner: KeepingSaver::new(alloc),
        called: Arc::try_clone(&called)?,
        answered: Arc::try_clone(&answered)?,
    };
    let (late, (is_saving, reply, others)) = thread::join(
        rt,
        move || answer_slowly(rt, witness, slow, saver),
        || answer_meanwhile(rt, alloc, witness, quick, &called, &answered),
    );
    Ok(
        is_saving
            && late.status == 200
            && late.body.as_slice() == COSIGNATURE
            && reply.status == 200
            && reply.body.as_slice() == COSIGNATURE
            && others == (400, 404),
    )
}

// Reports whether the replies of a new witness are right in that case, and each origin then has its first link.
fn is_answered_in_a_save<R: Threads + Wait + Sync>(
    rt: &R,
    alloc: Global,
    slow: &str,
    quick: &str,
) -> Result<bool, Fail> {
    let witness = opened(alloc)?;
    let reached = Some((1, leaf_hash(Sha256Tree, b"")));
    Ok(
        are_right_in_a_save(rt, alloc, &witness, slow, quick)?
            && witness.head(rt, ORIGINS[0]) == reached
            && witness.head(rt, ORIGINS[1]) == reached,
    )
}

#[test]
fn a_request_waits_for_no_other_origin(rt: HostRuntime) -> Result<(), Fail> {
    for _ in 0..100 {
        assert!(rt; is_answered_in_a_save(&rt, rt.alloc(), BODIES[0], BODIES[1])?);
        assert!(rt; is_answered_in_a_save(&rt, rt.alloc(), BODIES[1], BODIES[0])?);
    }
    Ok(())
}

// How often a thread looks before it gives up.
const TURNS: u64 = 10_000_000;

// Waits until the flag is raised, and returns false if it never was.
fn is_raised(flag: &AtomicBool) -> bool {
    for _ in 0..TURNS {
        if flag.load(Ordering::SeqCst) {
            return true;
        }
        thread::yield_now();
    }
    false
}

// A saver that raises a flag when it is called, waits until another is raised, and fails if that never happens.
#[derive(Drop)]
struct WaitingSaver {
    inner: KeepingSaver,
    called: Arc<AtomicBool, Global>,
    answered: Arc<AtomicBool, Global>,
}

impl Saver for WaitingSaver {
    ghost saved = { λ s. ⟦<KeepingSaver as Saver>⟧.saved s.inner };

    fn save<A: Allocator>(&mut self, origin: &str, link: &Link<A>) -> Result<(), SaveFault> {
        self.called.store(true, Ordering::SeqCst);
        self.inner.fails = !is_raised(&self.answered);
        self.inner.save(origin, link)
    }
}
