//! What is told of an output in numbers.

/// An output, or where a member is since its last step: its kind and its numbers, and how many bytes it has, which
/// stand in the room that was given.
#[repr(C)]
#[derive(Clone, Copy)]
pub struct ToldEvent {
    pub kind: u32,
    pub peer: u32,
    pub to: u32,
    pub number: u32,
    pub plan: u32,
    pub length: usize,
}
