//! Packets, and why a datagram is refused.

use crate::message::Message;

/// The most members of a group; ids are below it.
pub const MOST_MEMBERS: u8 = 32;

/// The highest id of a group, and the highest rank.
pub const LAST_MEMBER: u8 = 31;

/// The agreed list of members: how many views came before, and a bit for each id in it.
#[derive(Clone, Copy, Debug, PartialEq, Eq)]
pub struct View {
    pub ltime: u32,
    pub mask: u32,
}

/// To whom a packet goes: to all members of its view, or to one rank.
#[derive(Clone, Copy, Debug, PartialEq, Eq)]
pub enum Dest {
    All,
    Rank(u8),
}

/// A message on its way between members. `group` and `stamp` name the group and its incarnation;
/// `sender` is the rank of the sender in `view`.
#[derive(Drop)]
pub struct Packet {
    pub group: u32,
    pub stamp: u32,
    pub view: View,
    pub sender: u8,
    pub dest: Dest,
    pub message: Message,
}

/// Why a datagram is refused, in the order in which the causes are judged.
#[derive(Clone, Copy, Debug, PartialEq, Eq)]
pub enum Stray {
    Short,
    Form,
    Group,
    Stamp,
    View,
    Sender,
    Dest,
    Plan,
    Chain,
    Body,
}
