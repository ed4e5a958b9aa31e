//! What a law looks at.

/// What a delivered cast says: whose it is, and its body, by a number that hardly any other body has.
#[derive(Clone, Copy, PartialEq, Eq)]
pub(crate) struct Content {
    pub peer: u32,
    pub body: u64,
}

/// A view: its logical time and its members.
#[derive(Clone, Copy, PartialEq, Eq)]
pub(crate) struct Name {
    pub ltime: u32,
    pub mask: u32,
}

/// What a member did, as far as a law looks at it.
#[derive(Clone, Copy)]
pub(crate) enum Deed {
    Delivered(Content),
    Entered(Name),
    Left,
}

/// A deed and whose it is.
#[derive(Clone, Copy)]
pub(crate) struct Note {
    pub member: u8,
    pub deed: Deed,
}

/// The number of a body: that of Fowler, Noll and Vo.
pub(crate) fn number_of(body: &[u8]) -> u64 {
    let mut number = 0xcbf2_9ce4_8422_2325u64;
    for byte in body {
        number = (number ^ u64::from(*byte)).wrapping_mul(0x100_0000_01b3);
    }
    number
}
