//! What is asked of the call that opens a member.

use script_mean::GroupLine;

/// What a member is opened for: the bytes of a layer file; whether it runs by bypasses, or layer by layer; its group's
/// number, its stamp, and how many members it has; and which of them it is.
#[derive(Clone, Copy)]
pub struct Order<'a> {
    pub layers: &'a [u8],
    pub bypass: bool,
    pub line: GroupLine,
    pub id: u8,
}
