//! How datagrams are read, and that what is written is read again.

ghost use Rattle.packet_full.specs.Again.{WrittenIsRead};
ghost use Rattle.packet_full.specs.Steps.{ReadInSteps};

/// A packet that was written in full is read again by each member for which it is meant, whatever the member's rank;
/// every other member refuses it, with the first cause for which it isn't meant for that member.
pub fn written_is_read()
    ensures { WrittenIsRead }
{}

/// A datagram of either form is read in three steps: the preamble, the headers, and the body.
pub fn read_in_steps()
    ensures { ReadInSteps }
{}
