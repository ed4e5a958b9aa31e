//! Links at which a node waits.

ghost use Rattle.std.specs.Prelude.{◌≡◌, ℕ};

use outside::{Links, MemLinks};

/// Links that can wait for a datagram.
pub trait LiveLinks: Links {
    /// Waits a moment, or until a datagram waits for a member that listens. Nothing of what the links tell changes.
    fn wait(&mut self)
        ensures faults { Self.faults self.new ≡ Self.faults self.old }
        ensures sends { Self.send_faults self.new ≡ Self.send_faults self.old }
        ensures listening { (m : ℕ) → Self.listening self.new m ≡ Self.listening self.old m }
        ensures told { Self.told self.new ≡ Self.told self.old };
}

impl LiveLinks for MemLinks {
    fn wait(&mut self) {}
}
