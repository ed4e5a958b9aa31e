// A datagram that is held in memory.
ghost use Rattle.std.specs.Prelude.{◌≤◌, length};
ghost use Rattle.outside.specs.declared.links.TheConstants.{LONGEST_DATAGRAM};

/// A datagram: who sent it, to whom, and at most `LONGEST_DATAGRAM` bytes.
#[derive(Drop)]
pub struct Datagram {
    pub from: u8,
    pub to: u8,
    pub bytes: Vec<u8>,
    ghost fits: { length bytes.items ≤ LONGEST_DATAGRAM },
}
