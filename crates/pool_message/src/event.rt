//! Events between layers.

use crate::message_place::MessagePlace;
use layer_mean::Envelope;
use layer_words::Kind;

/// What travels between adjacent layers. Numbers that its kind doesn't have are 0, and a Cast and a Send alone carry a
/// message.
pub struct PoolEvent {
    pub kind: Kind,
    /// The rank that a Cast or a Send names: going up its sender, going down the member that it is for.
    pub peer: u32,
    pub a: u32,
    pub b: u32,
    pub message: MessagePlace,
}

impl PoolEvent {
    ghost use Rattle.std.specs.Prelude.{◌≡◌, None};
    ghost use Rattle.pool_message.specs.Sent.{envelope_of, pool_event};

    /// The event of this envelope that carries what lies in a place.
    pub(crate) fn of(envelope: Envelope, message: MessagePlace) -> PoolEvent
        ensures { result ≡ pool_event envelope message }
    {
        let Envelope { kind, peer, a, b } = envelope;
        PoolEvent {
            kind,
            peer,
            a,
            b,
            message,
        }
    }

    /// All but its message.
    pub fn envelope(&self) -> Envelope
        ensures { result ≡ envelope_of self.now }
    {
        Envelope {
            kind: self.kind,
            peer: self.peer,
            a: self.a,
            b: self.b,
        }
    }

    /// Gets another envelope, and keeps its message, if it has one.
    pub(crate) fn become_of(&mut self, envelope: Envelope)
        ensures { self.new ≡ pool_event envelope self.old.message }
    {
        self.kind = envelope.kind;
        self.peer = envelope.peer;
        self.a = envelope.a;
        self.b = envelope.b;
    }

    /// Ends an event without a message.
    pub(crate) fn close(self)
        requires { self.message ≡ None }
    {
        let PoolEvent {
            kind: _,
            peer: _,
            a: _,
            b: _,
            message,
        } = self;
        message.close();
    }
}
