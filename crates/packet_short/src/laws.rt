//! What is written short is read again.

ghost use Rattle.packet_short.specs.Again.{WrittenShortIsRead};

/// A packet that was written short is read again by each member for which it is meant, whatever the member's rank, and
/// refused by each other for the first cause for which it isn't.
pub fn written_short_is_read()
    ensures { WrittenShortIsRead }
{}
