//! Listening sockets.
use std::io;
use std::net::{Net, SocketAddr, TcpListener, TcpStream, ToSocketAddrs};
use std::os::fd::{AsFd, OwnedFd};
use std::time::Duration;

/// A socket that listens at the first address of the host which can be had, with as many connections waiting as the
/// system lets wait. Its `accept` waits for so long at most, and then says `WouldBlock`.
pub fn listen<N: Net>(
    net: &N,
    host: &str,
    port: u16,
    patience: Duration,
) -> io::Result<TcpListener> {
    let mut refused = io::Error::from(io::ErrorKind::NotFound);
    for address in (host, port).to_socket_addrs(net)? {
        match listen_at(net, address, patience) {
            Ok(listener) => return Ok(listener),
            Err(error) => refused = error,
        }
    }
    Err(refused)
}

fn listen_at<N: Net>(net: &N, address: SocketAddr, patience: Duration) -> io::Result<TcpListener> {
    let listener = mio::net::TcpListener::bind(net, address)?;
    let listener = TcpListener::from(OwnedFd::from(listener));
    listener.set_nonblocking(false)?;
    // A listening socket has the same options as a connected one: this is the time of its accept.
    let options = TcpStream::from(listener.as_fd().try_clone_to_owned()?);
    options.set_read_timeout(Some(patience))?;
    Ok(listener)
}
