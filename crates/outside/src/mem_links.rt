// Links that are held in memory.
ghost use Rattle.std.specs.Prelude.{◌≡◌, ◌≤◌, ◌==◌, ℕ, None, Some, [], map, position, length, IfSome, IfOk, OnOk};
ghost use Rattle.std.specs.Prelude.{OnErr};
ghost use Rattle.std.specs.Option.{option_map};
ghost use Rattle.outside.specs.Links.{waiting_after, first_for, without_first};
ghost use Rattle.outside.specs.MemLinks.{listening_in, listened_of, sent_of, met_of};

use crate::count::count_after;
use crate::{Datagram, Fate, LONGEST_DATAGRAM, LinkError, Links, MOST_PEERS, Peer};
use std::alloc::{AllocError, Global};
use std::collections::VecDeque;

// Who was to listen, and where each member is reached.
#[derive(Drop)]
struct Listened {
    member: u8,
    peers: Vec<Peer>,
}

// What a recv met.
#[derive(Drop)]
enum Entry {
    Came(Vec<u8>),
    Quiet,
    Broke,
}

/// A network in memory: every member is reached in it, and it is given what becomes of each send when it is made.
#[derive(Drop)]
pub struct MemLinks {
    alloc: Global,
    // With how many peers each member listens.
    members: [Option<u8>; MOST_PEERS],
    listened: Vec<Listened>,
    handed: Vec<Datagram>,
    waiting: Vec<Datagram>,
    met: Vec<Entry>,
    fates: VecDeque<Fate>,
    listens: VecDeque<bool>,
    recvs: VecDeque<bool>,
    faults: u64,
    send_faults: u64,
}

impl MemLinks {
    /// A network in which nothing waits and nobody listens. The lists say, in their order, what becomes of each send,
    /// and which calls of `listen` and of `recv` are to fail; after their ends a datagram arrives once and no call is
    /// to fail.
    pub fn new(alloc: Global, fates: Vec<Fate>, listens: Vec<bool>, recvs: Vec<bool>) -> Self
        ensures told { ⟦<MemLinks as Links>⟧.told result ≡
            Some (record {
              listened = [];
              handed = [];
              met = [];
              waiting = [];
              fates = fates.items;
              listens =
                  listens.items;
              recvs = recvs.items;
            }) }
        ensures nobody { (m : ℕ) → ⟦<MemLinks as Links>⟧.listening result m ≡ None }
        ensures faults { ⟦<MemLinks as Links>⟧.faults result ≡ 0 }
        ensures send_faults { ⟦<MemLinks as Links>⟧.send_faults result ≡ 0 }
    {
        MemLinks {
            alloc,
            members: [None; MOST_PEERS],
            listened: Vec::new(alloc),
            handed: Vec::new(alloc),
            waiting: Vec::new(alloc),
            met: Vec::new(alloc),
            fates: VecDeque::from(fates),
            listens: VecDeque::from(listens),
            recvs: VecDeque::from(recvs),
            faults: 0,
            send_faults: 0,
        }
    }

    /// What was handed to `send` so far, failed sends included.
    pub fn handed(&self) -> &[Datagram]
        ensures { IfSome (⟦<MemLinks as Links>⟧.told self.now) (λ n. n.handed ≡ map sent_of result.now) }
    {
        &self.handed
    }

    /// How many calls of `listen` and of `recv` have failed.
    pub fn faults(&self) -> u64
        ensures { result ≡ ⟦<MemLinks as Links>⟧.faults self.now }
    {
        self.faults
    }

    /// How many calls of `send` have failed.
    pub fn send_faults(&self) -> u64
        ensures { result ≡ ⟦<MemLinks as Links>⟧.send_faults self.now }
    {
        self.send_faults
    }
}

impl Links for MemLinks {
    ghost faults = { λ links. links.faults };

    ghost send_faults = { λ links. links.send_faults };

    ghost listening = { λ links m. listening_in links.members m };

    ghost told = { λ links. Some (record {
      listened = map listened_of links.listened.items;
      handed = map sent_of links.handed.items;
      met = map met_of links.met.items;
      waiting = map sent_of links.waiting.items;
      fates = links.fates.items;
      listens = links.listens.items;
      recvs = links.recvs.items;
    }) };

    #[tactic(auto, unfolding(crate::specs::MemLinks::listening_in))]
    fn listen(&mut self, member: u8, peers: &[Peer]) -> Result<(), LinkError> {
        let listened = Listened {
            member,
            peers: peers.to_vec(self.alloc)?,
        };
        self.listened.push(listened)?;
        if self.listens.pop_front() == Some(true) {
            self.faults = count_after(self.faults);
            return Err(LinkError::Failed);
        }
        self.members[member as usize] = Some(peers.len() as u8);
        Ok(())
    }

    fn send(&mut self, from: u8, to: u8, bytes: &[u8]) -> Result<(), LinkError> {
        let handed = datagram(self.alloc, from, to, bytes)?;
        self.handed.reserve(1)?;
        let fate = self.fates.front().copied().unwrap_or(Fate::Once);
        carry(self.alloc, fate, &handed, &mut self.waiting)?;
        self.handed.push(handed)?;
        let _ = self.fates.pop_front();
        if fate == Fate::Fails {
            self.send_faults = count_after(self.send_faults);
            return Err(LinkError::Failed);
        }
        Ok(())
    }

    fn recv(&mut self, member: u8, into: &mut [u8]) -> Result<Option<usize>, LinkError> {
        self.met.reserve(1)?;
        if self.recvs.pop_front() == Some(true) {
            self.met.push(Entry::Broke)?;
            self.faults = count_after(self.faults);
            return Err(LinkError::Failed);
        }
        let Some(datagram) = take_first(&mut self.waiting, member) else {
            self.met.push(Entry::Quiet)?;
            return Ok(None);
        };
        let count = datagram.bytes.len();
        into[..count].copy_from_slice(&datagram.bytes);
        let Datagram {
            from: _,
            to: _,
            bytes,
        } = datagram;
        self.met.push(Entry::Came(bytes))?;
        Ok(Some(count))
    }
}

fn datagram(alloc: Global, from: u8, to: u8, bytes: &[u8]) -> Result<Datagram, AllocError>
    requires { length bytes.now ≤ LONGEST_DATAGRAM }
    ensures { IfOk result (λ d. sent_of d ≡ record { from = from; to = to; bytes = bytes.now }) }
{
    let bytes = bytes.to_vec(alloc)?;
    Ok(Datagram { from, to, bytes })
}

// Lets the datagram wait as its fate says.
fn carry(
    alloc: Global,
    fate: Fate,
    sent: &Datagram,
    waiting: &mut Vec<Datagram>,
) -> Result<(), AllocError>
    ensures ok { OnOk result
        (map sent_of waiting.new.items ≡ waiting_after fate (sent_of sent.now) (map sent_of waiting.old.items)) }
    ensures err { OnErr result (waiting.new.items ≡ waiting.old.items) }
{
    match fate {
        Fate::Fails | Fate::Lost => {}
        Fate::Once => waiting.push(copy(alloc, sent)?)?,
        Fate::Twice => {
            let first = copy(alloc, sent)?;
            let second = copy(alloc, sent)?;
            waiting.reserve(2)?;
            waiting.push(first)?;
            waiting.push(second)?;
        }
        Fate::First => waiting.insert(0, copy(alloc, sent)?)?,
    }
    Ok(())
}

fn copy(alloc: Global, sent: &Datagram) -> Result<Datagram, AllocError>
    ensures { IfOk result (λ d. sent_of d ≡ sent_of sent.now) }
{
    datagram(alloc, sent.from, sent.to, &sent.bytes)
}

// Takes the first datagram that waits for the member.
fn take_first(waiting: &mut Vec<Datagram>, member: u8) -> Option<Datagram>
    ensures first { option_map (λ d. d.bytes.items) result ≡ first_for member (map sent_of waiting.old.items) }
    ensures rest { map sent_of waiting.new.items ≡ without_first member (map sent_of waiting.old.items) }
{
    let place = place_for(waiting, member)?;
    Some(waiting.remove(place))
}

fn place_for(waiting: &[Datagram], member: u8) -> Option<usize>
    ensures { result ≡ position (λ d. d.to == member) waiting.now }
{
    waiting.iter().position(|d| d.to == member)
}
