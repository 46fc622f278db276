//! The bound address of a server, and what else it needs of the system.

use crate::options::ListenOptions;
use crate::telling::tell_refused;
use std::alloc::Global;
use std::io;
use std::io::Write;
use std::net::{Net, SocketAddr, TcpListener, TcpStream};
use std::os::fd::RawFd;
use std::sync::Arc;
use tl_device::Counted;
use tl_feed::Ballot;
use tl_run::RunFault;

/// The bound address of a server. No other process has it while this lasts. Clients that connect
/// before the server answers wait.
#[derive(Drop)]
pub struct BoundListener {
    pub(crate) socket: TcpListener,
    pub(crate) address: SocketAddr,
}

// Returns a listener at this address that never waits.
fn listen<H: Net<Listener = TcpListener, Stream = TcpStream>>(
    rt: &H,
    address: &str,
) -> io::Result<BoundListener> {
    let socket = TcpListener::bind(rt, address)?;
    let address = socket.local_addr()?;
    socket.set_nonblocking(true)?;
    Ok(BoundListener { socket, address })
}

impl BoundListener {
    /// Binds the address of the options, before anything is made for the server. If the address can't be bound, it
    /// prints the reason to `out` and fails with `Listen`.
    pub fn bind<H: Net<Listener = TcpListener, Stream = TcpStream>, L: Write>(
        rt: &H,
        alloc: Global,
        options: &ListenOptions,
        out: &mut Counted<L>,
    ) -> Result<BoundListener, RunFault> {
        let address = options.listen.as_str();
        match listen(rt, address) {
            Ok(bound) => Ok(bound),
            Err(error) => {
                let _ = tell_refused(alloc, out, address, error.kind());
                Err(RunFault::Listen)
            }
        }
    }
}

/// Where a log is served.
#[derive(Clone, Copy)]
pub struct Site<'s> {
    /// The address at which clients connect.
    pub bound: &'s BoundListener,
    /// The descriptor of the input, if lines are followed and there is one to wait for.
    pub input: Option<RawFd>,
    // The ballot by which witnesses are asked about what the log proposes, if they are asked.
    pub(crate) ballot: Option<&'s Arc<Ballot>>,
}

impl<'s> Site<'s> {
    /// Returns the site at this address, with the input of this descriptor.
    pub fn new(bound: &'s BoundListener, input: Option<RawFd>) -> Site<'s> {
        Site {
            bound,
            input,
            ballot: None,
        }
    }

    /// Returns the same site, with this ballot for what the log proposes.
    pub(crate) fn with_ballot<'t>(&'t self, ballot: &'t Arc<Ballot>) -> Site<'t> {
        let ballot = Some(ballot);
        Site {
            bound: self.bound,
            input: self.input,
            ballot,
        }
    }
}
