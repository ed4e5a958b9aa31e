// Links between the members of a group, which carry datagrams.
ghost use Rattle.std.specs.Prelude.{◌≡◌, ◌≢◌, ℕ, ◌<◌, ◌≤◌, Option, Some, OnOk, OnErr, IfOk, IfSome, IsSome, IsSomeAnd};
ghost use Rattle.std.specs.Prelude.{length};
ghost use Rattle.outside.specs.declared.links.LinkError.TheVariants.{Memory};
ghost use Rattle.outside.specs.Links.{Network, Listens, listen_of, Sends, Receives, WritesFront, faults_after_call};

use std::alloc::{AllocError, AllocFailed};

/// The most bytes that a datagram carries: a UDP datagram over IPv4 has at most this many bytes of data.
pub const LONGEST_DATAGRAM: usize = 65507;

/// The most peers that links reach.
pub const MOST_PEERS: usize = 32;

/// Where a member is reached.
#[derive(Clone, Copy, Debug, PartialEq, Eq)]
pub struct Peer {
    pub ip: [u8; 4],
    pub port: u16,
}

/// Why a call on links didn't do what it was to do.
#[derive(Clone, Copy, Debug, PartialEq, Eq)]
pub enum LinkError {
    /// The network refused it, or not now.
    Failed,
    /// There was no memory for it.
    Memory,
}

impl From<AllocError> for LinkError {
    ghost from_gives = { λ _ e. e ≡ Memory };

    fn from(_: AllocError) -> Self {
        LinkError::Memory
    }
}

impl<T: Drop> From<AllocFailed<T>> for LinkError {
    ghost from_gives = { λ _ e. e ≡ Memory };

    fn from(_: AllocFailed<T>) -> Self {
        LinkError::Memory
    }
}

/// What becomes of a datagram that is handed to links in memory.
#[derive(Clone, Copy, Debug, PartialEq, Eq)]
pub enum Fate {
    /// The send fails.
    Fails,
    /// It never arrives.
    Lost,
    /// It arrives after those that wait.
    Once,
    /// It arrives twice.
    Twice,
    /// It arrives before those that wait.
    First,
}

/// What carries datagrams between the members.
pub trait Links {
    /// How many calls of `listen` and of `recv` have failed. The count stands still at the last value of a `u64`.
    ghost faults: { Self → ℕ };

    /// How many calls of `send` have failed, likewise.
    ghost send_faults: { Self → ℕ };

    /// How many peers a member listens with, if it listens.
    ghost listening: { Self → ℕ → Option ℕ };

    /// What was handed in, waits, and is to fail, where the links tell.
    ghost told: { Self → Option Network };

    /// Lets a member listen at its own place of `peers`, which are indexed by member. On an error, who listens stays as
    /// before.
    fn listen(&mut self, member: u8, peers: &[Peer]) -> Result<(), LinkError>
        requires member { member < length peers.now }
        requires few { length peers.now ≤ MOST_PEERS }
        ensures counted { faults self.new ≡ faults_after_call (faults self.old) result }
        ensures sends { send_faults self.new ≡ send_faults self.old }
        ensures listening { OnOk result (listening self.new member ≡ Some (length peers.now)) }
        ensures others { (m : ℕ) → m ≢ member → listening self.new m ≡ listening self.old m }
        ensures as_before { OnErr result (listening self.new member ≡ listening self.old member) }
        ensures told { Listens (listen_of peers.now member) (told self.old) (told self.new) result };

    /// Hands on a datagram from a member that listens to one of its peers.
    fn send(&mut self, from: u8, to: u8, bytes: &[u8]) -> Result<(), LinkError>
        requires peer { IsSomeAnd (listening self.old from) (λ peers. to < peers) }
        requires size { length bytes.now ≤ LONGEST_DATAGRAM }
        ensures counted { send_faults self.new ≡ faults_after_call (send_faults self.old) result }
        ensures faults { faults self.new ≡ faults self.old }
        ensures listening { (m : ℕ) → listening self.new m ≡ listening self.old m }
        ensures told { Sends (record { from = from; to = to; bytes = bytes.now }) (told self.old) (told self.new)
            result };

    /// Takes a datagram that waits for a listening member: its bytes are the first of `into`, and the others stay as
    /// they were. The answer None says that none waits; then, and on an error, `into` is as before.
    fn recv(&mut self, member: u8, into: &mut [u8]) -> Result<Option<usize>, LinkError>
        requires listens { IsSome (listening self.old member) }
        requires room { length into.old ≡ LONGEST_DATAGRAM }
        ensures bound { IfOk result (λ got. IfSome got (λ count. count ≤ LONGEST_DATAGRAM)) }
        ensures counted { faults self.new ≡ faults_after_call (faults self.old) result }
        ensures sends { send_faults self.new ≡ send_faults self.old }
        ensures listening { (m : ℕ) → listening self.new m ≡ listening self.old m }
        ensures front { WritesFront into.old into.new result }
        ensures told { Receives member into.new (told self.old) (told self.new) result };
}
