//! A connector of sockets.
ghost use Rattle.std.specs.Prelude.{◌≡◌, None};

use crate::ears::Ears;
use crate::mio_link::MioLink;
use crate::socket::prepare;
use outside::{Connector, Opened};
use poa_base::Endpoint;
use std::alloc::Global;
use std::io;
use std::io::ErrorKind;
use std::net::{Net, SocketAddr, TcpStream, ToSocketAddrs};
use std::time::Duration;

// For so many seconds a peer is waited for, at each of its addresses.
const CONNECT_PATIENCE: u64 = 60;

// How many milliseconds a read of a link waits.
const PATIENCE: u64 = 10;

/// Opens links over sockets. It tells no content. A host that is no address is looked up, and its addresses are tried in
/// turn. A peer that refuses, or isn't there in a minute, is a fault of the dial. A read of its links waits 10 milliseconds.
#[derive(Drop)]
pub struct MioConnector<N> {
    alloc: Global,
    net: N,
    dial_faults: u64,
    read_faults: u64,
    write_faults: u64,
    quiets: u64,
}

impl<N: Net<Stream = TcpStream>> MioConnector<N> {
    /// A connector that opened nothing yet.
    pub fn new(alloc: Global, net: N) -> Self {
        MioConnector {
            alloc,
            net,
            dial_faults: 0,
            read_faults: 0,
            write_faults: 0,
            quiets: 0,
        }
    }

    // A link to the endpoint.
    fn link(&self, endpoint: &Endpoint) -> io::Result<MioLink> {
        let (stream, peer) = self.connected(endpoint)?;
        stream.set_nodelay(true)?;
        prepare(&stream)?;
        let ears = Ears::new(self.alloc, &self.net)?;
        ears.attach(&stream)?;
        let patience = Duration::from_millis(PATIENCE);
        Ok(MioLink::new(stream, peer, ears, patience, None))
    }

    // A stream to the first address of the endpoint at which somebody is, and that address.
    fn connected(&self, endpoint: &Endpoint) -> io::Result<(TcpStream, SocketAddr)> {
        let Ok(host) = std::str::from_utf8(endpoint.host.as_slice()) else {
            return Err(io::Error::from(ErrorKind::InvalidInput));
        };
        let patience = Duration::from_secs(CONNECT_PATIENCE);
        let mut refused = io::Error::from(ErrorKind::NotFound);
        for address in (host, endpoint.port).to_socket_addrs(&self.net)? {
            match TcpStream::connect_timeout(&self.net, &address, patience) {
                Ok(stream) => return Ok((stream, address)),
                Err(error) => refused = error,
            }
        }
        Err(refused)
    }
}

impl<N: Net<Stream = TcpStream>> Connector for MioConnector<N> {
    type Link = MioLink;

    ghost calls = { λ _. None };

    ghost tally = { λ c. record {
      dial_faults = c.dial_faults;
      read_faults = c.read_faults;
      write_faults = c.write_faults;
      quiets = c.quiets;
    } };

    fn dial(&mut self, endpoint: &Endpoint) -> Opened<MioLink> {
        match self.link(endpoint) {
            Ok(link) => Opened::Link(link),
            Err(_) => {
                self.dial_faults = self.dial_faults.saturating_add(1);
                Opened::Failed
            }
        }
    }

    fn close(&mut self, link: MioLink) {
        self.read_faults = self.read_faults.saturating_add(link.read_faults);
        self.write_faults = self.write_faults.saturating_add(link.write_faults);
        self.quiets = self.quiets.saturating_add(link.quiets);
        let _ = link.close();
    }
}
