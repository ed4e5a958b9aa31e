//! A plan of a node.
ghost use Rattle.std.specs.Prelude.{◌≡◌};

use crate::event::ScriptEvent;
use outside::Peer;
use std::marker::Model;

/// Where members are reached, in their order, which contracts see as a list.
#[derive(Debug, Drop)]
pub struct Peers {
    peers: Vec<Peer>,
}

impl Model for Peers {
    ghost use Rattle.std.specs.Prelude.{List};
    ghost use Rattle.outside.specs.declared.links.Peer.{Peer};

    ghost Value = { List Peer };

    ghost view = { λ p. p.peers.items };
}

impl Peers {
    /// Where the members of ids 0, 1 and so on are reached.
    pub fn of(peers: Vec<Peer>) -> Peers
        ensures { result ≡ peers.items }
    {
        Peers { peers }
    }

    /// Where members are reached, that of id 0 first.
    pub fn slice(&self) -> &[Peer]
        ensures { result.now ≡ self.now }
    {
        self.peers.as_slice()
    }
}

/// Events in order, each with the turn in which it is fed, which contracts see as a list.
#[derive(Debug, Drop)]
pub struct Turns {
    turns: Vec<(u32, ScriptEvent)>,
}

impl Model for Turns {
    ghost use Rattle.std.specs.Prelude.{ℕ, List};
    ghost use Rattle.script_mean.specs.declared.event.ScriptEvent.{ScriptEvent};

    ghost Value = { List (ℕ × ScriptEvent) };

    ghost view = { λ t. t.turns.items };
}

impl Turns {
    /// These events in order, each with its turn, in the memory in which they are.
    pub fn of(turns: Vec<(u32, ScriptEvent)>) -> Turns
        ensures { result ≡ turns.items }
    {
        Turns { turns }
    }

    /// The events with their turns, in order.
    pub fn slice(&self) -> &[(u32, ScriptEvent)]
        ensures { result.now ≡ self.now }
    {
        self.turns.as_slice()
    }
}

/// A plan of a node: what its first line says, where each member is reached, and what the
/// applications of members ask for, with the turns.
#[derive(Debug, Drop)]
pub struct NodePlan {
    pub group: u32,
    pub stamp: u32,
    pub peers: Peers,
    pub turns: Turns,
}
