//! Events of a family by short names.

/// An event of a script of a family: one of its acts by its number, from 0, or that a packet is given to a member.
#[derive(Clone, Copy, Debug)]
pub enum Choice {
    Act(u32),
    Give(u32, u8),
}
