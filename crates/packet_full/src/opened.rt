//! A datagram after its preamble.

use crate::cursor::Cursor;
use crate::front::Preamble;

/// A datagram's preamble, and a cursor after it.
#[derive(Drop)]
pub struct Opened<'a> {
    pub front: Preamble,
    pub cursor: Cursor<'a>,
}
