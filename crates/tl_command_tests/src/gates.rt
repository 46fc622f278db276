//! Lanes that wait for one another before they send.

use std::alloc::{AllocError, Global};
use std::net::{Net, TcpListener, TcpStream};
use std::sync::Arc;
use std::sync::atomic::{AtomicBool, AtomicU64, Ordering};
use std::thread;
use tl_device::Counted;
use tl_run::LogKey;
use tl_serve::{Gate, Host, ListenOptions, ServeOptions, serve_gated};

// How often a lane looks for the other.
const TURNS: u64 = 10_000_000;

// A gate at which each of two lanes waits for the other, and how many saw the other.
#[derive(Drop)]
struct Meeting {
    first: AtomicBool,
    second: AtomicBool,
    met: AtomicU64,
}

impl Gate for Meeting {
    fn pass(&self, lane: u32) {
        let (own, other) = if lane == 0 {
            (&self.first, &self.second)
        } else {
            (&self.second, &self.first)
        };
        own.store(true, Ordering::SeqCst);
        for _turn in 0..TURNS {
            if other.load(Ordering::SeqCst) {
                self.met.fetch_add(1, Ordering::SeqCst);
                return;
            }
            thread::yield_now();
        }
    }
}

// Returns quiet options of `serve` with the demonstration key of the secret `s`, for a log of two lanes in memory, at
// any address, where it answers no connection.
fn serve_options(alloc: Global) -> Result<ServeOptions, AllocError> {
    let server = ListenOptions {
        listen: String::from_str(alloc, "127.0.0.1:0")?,
        connections: Some(0),
        threads: Some(2),
        timeout: 10,
        keep_alive: None,
        clients: 1024,
        quiet: true,
    };
    let key = LogKey::Secret(String::from_str(alloc, "s")?);
    Ok(ServeOptions {
        origin: String::from_str(alloc, "example.com/log")?,
        key,
        server,
        lanes: 2,
        capacity: 256,
        batch: 100,
        note: None,
        dir: None,
        is_new: false,
        follow: false,
        takes_posts: false,
        interval: 0,
        remember: 0,
        allows_older: false,
        keeps_partials: false,
        witnesses: Vec::new(alloc),
        need: 0,
        quorum: None,
    })
}

// Serves a log of two lanes that meet, and reports whether both saw the other and the log ended well.
fn is_met<H: Host + Net<Listener = TcpListener, Stream = TcpStream>>(
    rt: &H,
    alloc: Global,
) -> Result<bool, AllocError> {
    let meeting = Meeting {
        first: AtomicBool::new(false),
        second: AtomicBool::new(false),
        met: AtomicU64::new(0),
    };
    let meeting = Arc::new(alloc, meeting)?;
    let gate = Arc::try_clone(&meeting)?;
    let options = serve_options(alloc)?;
    let mut reader = Counted::new(b"a\nb\n".as_slice());
    let mut log = Counted::new(Vec::new(alloc));
    let ended = serve_gated(rt, alloc, &options, None, &mut reader, &mut log, gate);
    Ok(ended.is_ok() && meeting.met.load(Ordering::SeqCst) == 2)
}

#[test]
fn each_lane_has_a_thread(rt: HostRuntime) {
    for _ in 0..100 {
        assert!(rt; is_met(&rt, rt.alloc()) == Ok(true));
    }
}
