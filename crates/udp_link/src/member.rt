// A member that listens at a socket.
ghost use Rattle.std.specs.Prelude.{◌≡◌, ◌<◌, ◌≤◌, Some, length, take, slice_get, IfOk, IfSome};
ghost use Rattle.udp_link.specs.Address.{IsAddressOf};
ghost use Rattle.outside.specs.declared.links.TheConstants.{MOST_PEERS};

use outside::{MOST_PEERS, Peer};
use std::io;
use std::io::ErrorKind;
use std::net::{Ipv4Addr, Net, SocketAddr, SocketAddrV4, UdpSocket};
use std::time::Duration;

/// How long it is waited for a datagram, and a send waits for room, in milliseconds: long enough that a node that
/// hears nothing leaves the processor to others.
const PATIENCE: u64 = 1;

const NOBODY: Peer = Peer {
    ip: [0, 0, 0, 0],
    port: 0,
};

/// A socket that waits only where it is asked to, and then a moment and no longer; where it is bound, and the peers
/// that it sends to.
#[derive(Drop)]
pub(crate) struct Member {
    socket: UdpSocket,
    place: Peer,
    // The first `count` of them.
    peers: [Peer; MOST_PEERS],
    count: u8,
    ghost few: { count ≤ MOST_PEERS },
}

impl Member {
    ghost use Rattle.udp_link.specs.Listening.{peers_of};

    /// Listens at `place`.
    pub(crate) fn open(net: &impl Net, place: Peer, peers: &[Peer]) -> io::Result<Self>
        requires { length peers.now ≤ MOST_PEERS }
        ensures peers { IfOk result (λ member. peers_of member ≡ peers.now) }
        ensures place { IfOk result (λ member. member.place ≡ place) }
    {
        let socket = net.bind_udp(address(place))?;
        let patience = Some(Duration::from_millis(PATIENCE));
        socket.set_read_timeout(patience)?;
        socket.set_write_timeout(patience)?;
        socket.set_nonblocking(true)?;
        Ok(Member {
            socket,
            place,
            peers: table(peers),
            count: peers.len() as u8,
        })
    }

    /// The peer of this number.
    pub(crate) fn peer(&self, to: u8) -> Peer
        requires { to < length (peers_of self.now) }
        ensures { slice_get (peers_of self.now) to ≡ Some result }
    {
        self.peers[to as usize]
    }

    /// Whether the datagram was handed on whole. Where there is no room for it, it is waited for some.
    pub(crate) fn send(&self, to: SocketAddr, bytes: &[u8]) -> bool {
        match self.socket.send_to(bytes, to) {
            Ok(count) => count == bytes.len(),
            Err(error) if is_for_later(error.kind()) => self.send_in_time(to, bytes),
            Err(_) => false,
        }
    }

    /// Whether the datagram was handed on whole, where it may wait a moment for room.
    fn send_in_time(&self, to: SocketAddr, bytes: &[u8]) -> bool {
        let may_wait = self.socket.set_nonblocking(false).is_ok();
        let sent = matches!(self.socket.send_to(bytes, to), Ok(count) if count == bytes.len());
        let waits_no_more = self.socket.set_nonblocking(true).is_ok();
        may_wait && sent && waits_no_more
    }

    /// A datagram that waits, which now stands at the front of `into`. Where a signal came between, nothing waits.
    pub(crate) fn recv(&self, into: &mut [u8]) -> io::Result<Option<usize>>
        ensures { IfOk result (λ got. IfSome got (λ count. count ≤ length into.new)) }
    {
        match self.socket.recv_from(into) {
            Ok((count, _)) => Ok(Some(count)),
            Err(error) if is_for_later(error.kind()) => Ok(None),
            Err(error) => Err(error),
        }
    }

    /// Whether a receive would have something to tell: a datagram waits, or it would fail.
    pub(crate) fn has_news(&self) -> bool {
        match self.socket.peek_from(&mut [0]) {
            Ok(_) => true,
            Err(error) => !is_for_later(error.kind()),
        }
    }

    /// Waits for a datagram, a moment and no longer.
    pub(crate) fn wait(&self) {
        if self.socket.set_nonblocking(false).is_ok() {
            let _ = self.socket.peek_from(&mut [0]);
        }
        let _ = self.socket.set_nonblocking(true);
    }
}

/// Whether the system did nothing yet: nothing waits or there is no room, or a signal came between.
fn is_for_later(kind: ErrorKind) -> bool {
    matches!(kind, ErrorKind::WouldBlock | ErrorKind::Interrupted)
}

// The peers, with nobody after them.
fn table(peers: &[Peer]) -> [Peer; MOST_PEERS]
    requires { length peers.now ≤ MOST_PEERS }
    ensures { take (length peers.now) result ≡ peers.now }
{
    let mut all = [NOBODY; MOST_PEERS];
    all[..peers.len()].copy_from_slice(peers);
    all
}

/// The address of a peer.
pub(crate) fn address(peer: Peer) -> SocketAddr
    ensures { IsAddressOf peer result }
{
    SocketAddr::V4(SocketAddrV4::new(Ipv4Addr::from(peer.ip), peer.port))
}
