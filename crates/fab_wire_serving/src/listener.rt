//! What connections come from.

ghost use Rattle.std.specs.Prelude.{⊤, OnErr};

use std::io;
use std::io::ErrorKind;
use std::net::{Net, SocketAddr, TcpListener, TcpStream, ToSocketAddrs};
use std::os::fd::{AsRawFd, RawFd};

/// Gives one connection after the other.
pub trait Listens {
    // It may give none.
    ghost fails: { Self → Type 0 };

    /// The next connection, which is waited for, or is there.
    ///
    /// # Errors
    /// What it answers where it gives none; `WouldBlock` where none is there and none is waited for.
    fn connection(&self) -> io::Result<TcpStream>
        ensures { OnErr result (fails self.now) };

    /// Says whether connections are waited for from now on.
    ///
    /// # Errors
    /// What the system answers, where that can not be.
    fn set_waiting(&self, waits: bool) -> io::Result<()>;

    /// The descriptor that is ready to be read when a connection is there.
    fn descriptor(&self) -> RawFd;
}

impl Listens for TcpListener {
    ghost fails = { λ listener. ⊤ };

    fn connection(&self) -> io::Result<TcpStream> {
        let (stream, _) = self.accept()?;
        Ok(stream)
    }

    fn set_waiting(&self, waits: bool) -> io::Result<()> {
        self.set_nonblocking(!waits)
    }

    fn descriptor(&self) -> RawFd {
        self.as_raw_fd()
    }
}

/// Listens at an address and a port, as `127.0.0.1:8080`, or at the first address of a name that can be
/// listened at. Connections are waited for. As many as the system allows are kept until they are asked
/// for, which on Linux is `net.core.somaxconn`; the system leaves out what comes beyond these, and who
/// wants to connect tries again a second later.
///
/// # Errors
/// What the system answers of the last address; `InvalidInput` where the text is no address and port.
pub fn listen_at<N: Net>(net: &N, address: &str) -> io::Result<TcpListener> {
    let mut last = io::Error::from(ErrorKind::InvalidInput);
    for found in address.to_socket_addrs(net)? {
        match listen_to(net, found) {
            Ok(listener) => return Ok(listener),
            Err(e) => last = e,
        }
    }
    Err(last)
}

/// Listens at an address, with the longest queue that the system allows.
///
/// # Errors
/// What the system answers, where that can not be.
fn listen_to<N: Net>(net: &N, address: SocketAddr) -> io::Result<TcpListener> {
    let listener = TcpListener::from(mio::net::TcpListener::bind(net, address)?);
    listener.set_nonblocking(false)?;
    Ok(listener)
}
