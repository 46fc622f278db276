//! Connections that have to end in time.

ghost use Rattle.std.specs.Prelude.{◌≡◌};

use std::io;
use std::io::{ErrorKind, Read, Write};
use std::marker::Model;
use std::net::TcpStream;
use std::time::{Clock, Duration, Instant};

// The most times that a call is made again, if the system ends it before its time is over.
const MOST_TRIES: u32 = 1_000;

/// A connection with a limit on the time that it takes in all. A read or a write fails once no time is left. If the
/// system ends one earlier for want of bytes or room, as a machine whose clock ticks late does, it is made again.
/// Contracts see the limit.
#[derive(Drop)]
pub struct Timed<'s, H: Clock> {
    rt: &'s H,
    stream: &'s TcpStream,
    start: Instant,
    limit: Duration,
}

impl<'s, H: Clock> Model for Timed<'s, H> {
    ghost use Rattle.std.specs.declared.time.Duration.{Duration};

    ghost Value = { Duration };

    ghost view = { λ c. c.limit };
}

impl<'s, H: Clock> Timed<'s, H> {
    /// Returns a connection that began at `start`, and may take `limit` from then on.
    pub fn new(rt: &'s H, stream: &'s TcpStream, start: Instant, limit: Duration) -> Timed<'s, H>
        ensures { result ≡ limit }
    {
        Timed {
            rt,
            stream,
            start,
            limit,
        }
    }

    // Returns the time that is left. If it is 0, the system refuses it as a timeout, and the call fails.
    fn left(&self) -> io::Result<Duration> {
        Ok(self.limit.saturating_sub(self.start.elapsed(self.rt)?))
    }
}

// Reports whether a call ended since it waited as long as the system was asked to.
fn has_waited(error: &io::Error) -> bool {
    match error.kind() {
        ErrorKind::WouldBlock | ErrorKind::TimedOut => true,
        _ => false,
    }
}

impl<H: Clock> Read for Timed<'_, H> {
    fn read(&mut self, buf: &mut [u8]) -> io::Result<usize> {
        let mut stream = self.stream;
        for _ in 0..MOST_TRIES {
            self.stream.set_read_timeout(Some(self.left()?))?;
            match stream.read(buf) {
                Err(error) if has_waited(&error) => {}
                result => return result,
            }
        }
        Err(io::Error::from(ErrorKind::TimedOut))
    }
}

impl<H: Clock> Write for Timed<'_, H> {
    fn write(&mut self, buf: &[u8]) -> io::Result<usize> {
        let mut stream = self.stream;
        for _ in 0..MOST_TRIES {
            self.stream.set_write_timeout(Some(self.left()?))?;
            match stream.write(buf) {
                Err(error) if has_waited(&error) => {}
                result => return result,
            }
        }
        Err(io::Error::from(ErrorKind::TimedOut))
    }

    fn flush(&mut self) -> io::Result<()> {
        Ok(())
    }
}
