//! What happens in a run, one thing after the other.

/// A body: this many bytes, each one more than the byte before.
#[derive(Clone, Copy)]
pub(crate) struct Body {
    pub first: u8,
    pub count: u8,
}

/// A packet, named by the step that sent it and by how many packets that step sent before it.
#[derive(Clone, Copy, PartialEq, Eq)]
pub(crate) struct Source {
    pub step: u32,
    pub place: u32,
}

/// What happens to a member.
#[derive(Clone, Copy)]
pub(crate) enum Act {
    /// Its application casts this body.
    Cast(Body),
    /// Its application sends this body to the member of a rank.
    Send(u8, Body),
    /// It asks to leave.
    Leave,
    /// Its clock shows this moment, in milliseconds.
    Tick(u32),
    /// This packet reaches it.
    Give(Source),
}

/// A step of a schedule. Its name stays when others are taken out.
#[derive(Clone, Copy)]
pub(crate) struct Step {
    pub name: u32,
    pub member: u8,
    pub act: Act,
}

impl Act {
    /// The body that it brings, if it brings one.
    pub(crate) fn body(self) -> Option<Body> {
        match self {
            Act::Cast(body) => Some(body),
            Act::Send(_, body) => Some(body),
            _ => None,
        }
    }

    /// This act with another body, where it brings one.
    pub(crate) fn with_body(self, body: Body) -> Act {
        match self {
            Act::Cast(_) => Act::Cast(body),
            Act::Send(rank, _) => Act::Send(rank, body),
            act => act,
        }
    }
}

impl Step {
    /// This step in a group without one member; none where it is that member's step or sends to it.
    pub(crate) fn without(self, gone: u8) -> Option<Step> {
        let member = number_without(self.member, gone)?;
        let act = match self.act {
            Act::Send(rank, body) => Act::Send(number_without(rank, gone)?, body),
            act => act,
        };
        Some(Step {
            member,
            act,
            ..self
        })
    }
}

/// The number of a member in a group without another one: the members after that one each take the number before
/// theirs.
fn number_without(member: u8, gone: u8) -> Option<u8> {
    if member == gone {
        None
    } else if member > gone {
        Some(member - 1)
    } else {
        Some(member)
    }
}

/// A run: how many members its group has, a number above the names of all its steps, and the steps.
#[derive(Drop)]
pub(crate) struct Schedule {
    pub members: u8,
    pub names: u32,
    pub steps: Vec<Step>,
}

/// What a run is to be: the steps with which it begins, which are named by their places, and how many it has.
#[derive(Clone, Copy)]
pub(crate) struct Course<'s> {
    pub first: &'s [Step],
    pub events: u32,
}
