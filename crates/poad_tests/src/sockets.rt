ghost use Rattle.std.specs.Prelude.{◌<◌, length};

use crate::waiting::Waiting;
use outside::{Acceptor, Alarm, Connector, Door, Gate, Link, Opened, Took, Wrote};
use outside_sockets::{Ears, MioConnector, MioDoor, MioLink, WaitingGate, listen};
use poa_base::{Bytes, Endpoint, Point, Session, SessionEnd};
use std::io::{Read, Write};
use std::net::{Shutdown, SocketAddr, TcpStream};
use std::sync::{Arc, Wait};
use std::test::Fail;
use std::thread::Threads;
use std::time::Duration;
use std::{io, thread};

const ENDED: Session = Session {
    conn: None,
    end: SessionEnd::Ended,
};

// What may be handed to a thread.
fn is_sent<T: Send>(value: T) -> T {
    value
}

/// A door at an address of this machine.
fn open_door(rt: HostRuntime) -> Result<(MioDoor, SocketAddr), Fail> {
    let listener = listen(&rt, "127.0.0.1", 0, Duration::from_secs(1))?;
    let address = listener.local_addr()?;
    let listener = Arc::new(rt.alloc(), listener)?;
    let door = MioDoor::new(Some(listener), Ears::new(rt.alloc(), &rt)?);
    Ok((door, address))
}

/// The link that comes in at a door.
fn next_link(door: &mut MioDoor) -> Result<MioLink, Fail> {
    match door.next() {
        Door::Link(link) => Ok(link),
        _ => Err(Fail::from("no link")),
    }
}

/// Whether a link's alarm ends a read, and what one side writes the other reads, up to the end. Where no reply is owed a read
/// waits in the system first, and then hears of input and of the end as before.
fn passes_all(link: &mut MioLink, peer: &mut TcpStream) -> io::Result<bool> {
    link.alarm()?.ring();
    let mut buf = [0; 8];
    let was_quiet = link.read(&mut buf, true) == Took::Quiet;
    peer.write_all(b"abc")?;
    let is_written = link.read(&mut buf, true) == Took::Got(3)
        && link.write(b"xyz") == Wrote::Wrote(3);
    let mut answer = [0; 3];
    peer.read_exact(&mut answer)?;
    peer.write_all(b"de")?;
    peer.shutdown(Shutdown::Write)?;
    let is_heard = link.read(&mut buf, false) == Took::Got(2);
    let is_ended = is_heard && comes_to_its_end(link);
    Ok(was_quiet && is_written && answer == *b"xyz" && is_ended)
}

/// Whether a peer finds the end.
fn is_closed(peer: &mut TcpStream) -> io::Result<bool> {
    Ok(peer.read(&mut [0; 8])? == 0)
}

/// Whether a link passes bytes both ways, to the end. It is given back then, and its peer finds the end.
fn serves(door: &mut MioDoor, peer: &mut TcpStream) -> Result<bool, Fail> {
    let mut link = is_sent(next_link(door)?);
    let is_served = passes_all(&mut link, peer);
    door.give_back(link, ENDED);
    Ok(is_served? && is_closed(peer)?)
}

/// Whether a door gives a link for each peer that comes in.
fn gives_links(rt: HostRuntime, door: &mut MioDoor, address: SocketAddr) -> Result<bool, Fail> {
    let is_quiet = matches!(door.next(), Door::Quiet);
    let mut peer = TcpStream::connect(&rt, address)?;
    let is_served = serves(door, &mut peer)?;
    let _second = TcpStream::connect(&rt, address)?;
    Ok(is_quiet && is_served && matches!(door.next(), Door::Link(_)))
}

#[test]
fn a_door_gives_links_over_sockets(rt: HostRuntime) -> Result<(), Fail> {
    let (door, address) = open_door(rt)?;
    assert!(rt; gives_links(rt, &mut is_sent(door), address)?);
    Ok(())
}

/// A door at an address of this machine, for those who have said something.
fn open_speakers_door(rt: HostRuntime) -> io::Result<(MioDoor, SocketAddr)> {
    let listener = listen(&rt, "127.0.0.1", 0, Duration::from_millis(50))?;
    let address = listener.local_addr()?;
    let listener = Arc::new(rt.alloc(), listener)?;
    let door = MioDoor::of_speakers(rt.alloc(), listener, Ears::new(rt.alloc(), &rt)?)?;
    Ok((door, address))
}

/// Whether the next link is of one who says this.
fn is_next(door: &mut MioDoor, byte: u8) -> Result<bool, Fail> {
    let mut link = next_link(door)?;
    let mut buf = [0; 8];
    let is_said = link.read(&mut buf, true) == Took::Got(1) && buf[0] == byte;
    let is_counted = link.traffic().read == 1;
    door.give_back(link, ENDED);
    Ok(is_said && is_counted)
}

/// Whether who says nothing is passed over for one who does, until it says something.
fn gives_speakers(rt: HostRuntime, door: &mut MioDoor, address: SocketAddr) -> Result<bool, Fail> {
    let mut first = TcpStream::connect(&rt, address)?;
    let is_silent = matches!(door.next(), Door::Quiet);
    let mut second = TcpStream::connect(&rt, address)?;
    second.write_all(b"b")?;
    let is_passed_over = is_next(door, b'b')?;
    first.write_all(b"a")?;
    Ok(is_silent && is_passed_over && is_next(door, b'a')?)
}

#[test]
fn a_door_gives_those_who_have_said_something(rt: HostRuntime) -> Result<(), Fail> {
    let (mut door, address) = open_speakers_door(rt)?;
    assert!(rt; gives_speakers(rt, &mut door, address)?);
    Ok(())
}

/// A port of this machine.
fn endpoint(rt: HostRuntime, host: &[u8], port: u16) -> Result<Endpoint, Fail> {
    let host = Bytes::from_vec(Vec::from_slice(rt.alloc(), host)?);
    Ok(Endpoint { host, port })
}

/// Whether the next that a link says, behind reads of nothing, is an end.
fn comes_to_its_end(link: &mut MioLink) -> bool {
    for _ in 0..1000 {
        match link.read(&mut [0; 8], false) {
            Took::Quiet => {}
            took => return took == Took::End,
        }
    }
    false
}

/// Whether a connector opens a link to a door, by the name of its host, over which one side reads what the other writes.
fn opens_links(rt: HostRuntime, connector: &mut MioConnector<HostRuntime>) -> Result<bool, Fail> {
    let (mut door, address) = open_door(rt)?;
    let Opened::Link(mut link) = connector.dial(&endpoint(rt, b"localhost", address.port())?) else {
        return Ok(false);
    };
    let is_written = link.write(b"b") == Wrote::Wrote(1) && is_next(&mut door, b'b')?;
    let is_ended = comes_to_its_end(&mut link);
    connector.close(link);
    Ok(is_written && is_ended)
}

/// A port at which nobody listens any more.
fn left_port(rt: HostRuntime) -> Result<u16, Fail> {
    let (_door, address) = open_door(rt)?;
    Ok(address.port())
}

/// Whether a connector fails where nobody listens, and at a host whose name nobody has.
fn finds_nobody(rt: HostRuntime, connector: &mut MioConnector<HostRuntime>) -> Result<bool, Fail> {
    let gone = connector.dial(&endpoint(rt, b"127.0.0.1", left_port(rt)?)?);
    let unknown = connector.dial(&endpoint(rt, b"no name", 1)?);
    Ok(matches!(gone, Opened::Failed) && matches!(unknown, Opened::Failed))
}

#[test]
fn a_connector_opens_links_over_sockets(rt: HostRuntime) -> Result<(), Fail> {
    let mut connector = MioConnector::new(rt.alloc(), rt);
    assert!(rt; opens_links(rt, &mut connector)? && finds_nobody(rt, &mut connector)?);
    Ok(())
}

// More than the system keeps between two sockets.
const MUCH: usize = 16 << 20;

// How much is read to the end.
fn read_out(mut peer: &TcpStream, buf: &mut [u8]) -> usize
    requires { 0 < length buf.old }
{
    let mut count = 0usize;
    for _ in 0..MUCH {
        match peer.read(buf) {
            Ok(0) | Err(_) => break,
            Ok(more) => count = count.saturating_add(more),
        }
        if count >= MUCH {
            break;
        }
    }
    count
}

/// Writes so much to a link, or all that it takes.
fn fill(link: &mut MioLink) -> usize {
    let piece = [7; 4096];
    let mut count = 0;
    for _ in 0..MUCH {
        if count >= MUCH {
            break;
        }
        let Wrote::Wrote(more) = link.write(&piece[..(MUCH - count).min(4096)]) else {
            break;
        };
        count = more.saturating_add(count);
    }
    count
}

/// Rings an alarm once the writer found no room, and reads all then. Gives how much, and the peer.
fn read_late(mut waiting: Waiting, alarm: Alarm, peer: TcpStream) -> (usize, TcpStream) {
    let _ = waiting.wait(Duration::from_millis(300));
    alarm.ring();
    let _ = waiting.wait(Duration::from_millis(100));
    let mut buf = [0; 4096];
    (read_out(&peer, &mut buf), peer)
}

/// Whether a link writes much to a peer that reads late, and hears its alarm behind it.
fn writes_all(
    rt: &(impl Threads + Wait),
    link: &mut MioLink,
    waiting: Waiting,
    peer: TcpStream,
) -> Result<bool, Fail> {
    let alarm = link.alarm()?;
    let reader = thread::spawn(rt, move || read_late(waiting, alarm, peer))?;
    let count = fill(link);
    let (taken, _peer) = reader.join(rt);
    Ok(count == MUCH && taken == MUCH && link.read(&mut [0; 8], true) == Took::Quiet)
}

#[test]
fn a_write_waits_for_room_and_keeps_the_alarm(rt: HostRuntime) -> Result<(), Fail> {
    let (mut door, address) = open_door(rt)?;
    let (peer, waiting) = (TcpStream::connect(&rt, address)?, Waiting::new(rt)?);
    let mut link = next_link(&mut door)?;
    assert!(rt; writes_all(&rt, &mut link, waiting, peer)?);
    Ok(())
}

#[test]
fn a_door_without_a_port_fails(rt: HostRuntime) -> Result<(), Fail> {
    let mut door = MioDoor::new(None, Ears::new(rt.alloc(), &rt)?);
    assert!(rt; matches!(door.next(), Door::Failed));
    Ok(())
}

#[test]
fn a_gate_takes_its_time(rt: HostRuntime) -> Result<(), Fail> {
    let gate = WaitingGate::new(&rt, 5);
    let start = std::time::Instant::now(&rt)?;
    gate.pass(Point::Free);
    assert!(rt; start.elapsed(&rt)? >= Duration::from_millis(5));
    assert!(rt; !gate.is_open());
    assert!(rt; WaitingGate::new(&rt, 0).is_open());
    Ok(())
}
