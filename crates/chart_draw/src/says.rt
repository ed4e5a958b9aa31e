//! What lines say.
ghost use Rattle.std.specs.Prelude.{◌≡◌, ◌+◌, ◌&&◌, Some, bytes_eq, codes, if◌then◌else◌, not};
ghost use Rattle.chart_mean.specs.Says as spec;
ghost use Rattle.chart_mean.specs.Mark.{body_key, key_of, sender_of, sign_of};
ghost use Rattle.chart_mean.specs.Place.{rows_to, words_y, y_of};
ghost use Rattle.chart_draw.specs.Reading.{IsSaid, pieces_left, says_shown, word_shown};

use crate::kinds::{is_asking, is_befalling, is_other};
use crate::pieces::Pieces;
use crate::place::{AXIS, down};

/// What a line says. Words are kept as they are spelled.
#[derive(Clone, Copy)]
pub(crate) enum Says<'a> {
    /// The member delivers a body, by cast or send.
    Deliver(&'a [u8], u8, &'a [u8]),
    /// The member sends the packet of this number to all or to a rank, with these headers and this body.
    Packet(&'a [u8], u8, &'a [u8], &'a [u8], &'a [u8]),
    /// The member is in the view of this logical time and mask.
    View(u8, u32, u32),
    /// The member is out.
    Out(u8),
    /// The member does what the line's first word says, with a detail.
    Other(&'a [u8], u8, &'a [u8]),
    /// The packet of this number is given to the member.
    Give(&'a [u8], u8),
    /// The application of the member casts or sends a body, or the member gets the bytes of a datagram.
    Ask(&'a [u8], u8, &'a [u8]),
    /// Another event befalls the member, with a detail.
    Befall(&'a [u8], u8, &'a [u8]),
    /// A tick of which nothing came.
    Idle(u8),
    /// The line is beside the members.
    Aside,
}

impl<'a> Says<'a> {
    /// The member of which the line tells.
    fn member(&self) -> Option<u8>
        ensures { result ≡ spec.member_of (says_shown self.now) }
    {
        match *self {
            Says::Deliver(_, member, _) => Some(member),
            Says::Packet(_, member, _, _, _) => Some(member),
            Says::View(member, _, _) => Some(member),
            Says::Out(member) => Some(member),
            Says::Other(_, member, _) => Some(member),
            Says::Give(_, member) => Some(member),
            Says::Ask(_, member, _) => Some(member),
            Says::Befall(_, member, _) => Some(member),
            Says::Idle(member) => Some(member),
            Says::Aside => None,
        }
    }

    /// How far down the line stands.
    pub(crate) fn y(&self) -> u64
        ensures { result ≡ y_of (says_shown self.now) }
    {
        match self.member() {
            Some(member) => down(u32::from(member)),
            None => AXIS,
        }
    }

    /// The number of rows up to the member's.
    pub(crate) fn rows(&self) -> u32
        ensures { result ≡ rows_to (says_shown self.now) }
    {
        match self.member() {
            Some(member) => u32::from(member) + 1,
            None => 0,
        }
    }

    /// The name of the sign by which the line is drawn.
    pub(crate) fn sign(&self) -> &'a [u8]
        ensures { result.now ≡ sign_of (says_shown self.now) }
    {
        match *self {
            Says::Deliver(kind, _, _) => kind,
            Says::Packet(_, _, _, _, _) => b"packet",
            Says::View(_, _, _) => b"view",
            Says::Out(_) => b"out",
            Says::Other(verb, _, _) => verb,
            Says::Give(_, _) => b"event",
            Says::Ask(_, _, _) => b"event",
            Says::Befall(_, _, _) => b"event",
            Says::Idle(_) => b"idle",
            Says::Aside => b"aside",
        }
    }

    /// How far down the line's words stand.
    pub(crate) fn words_y(&self) -> u64
        ensures { result ≡ words_y (says_shown self.now) }
    {
        match *self {
            Says::Packet(_, member, _, _, _) => down(u32::from(member)) - 9,
            _ => self.below(),
        }
    }

    /// How far down words stand that are below the line's sign.
    fn below(&self) -> u64
        ensures { result ≡ y_of (says_shown self.now) + 23 }
    {
        match self.member() {
            Some(member) => down(u32::from(member)) + 23,
            None => AXIS + 23,
        }
    }

    /// Whether the line tells what came of an event, or how a member is.
    fn is_outcome(&self) -> bool
        ensures { result ≡ spec.is_outcome (says_shown self.now) }
    {
        match *self {
            Says::Deliver(_, _, _) => true,
            Says::Packet(_, _, _, _, _) => true,
            Says::View(_, _, _) => true,
            Says::Out(_) => true,
            Says::Other(_, _, _) => true,
            _ => false,
        }
    }

    /// What the line says before one that says this: nothing came of a tick where no outcome follows.
    pub(crate) fn settled(&self, next: &Says<'_>) -> Says<'a>
        ensures { says_shown result ≡ spec.settled (says_shown self.now) (says_shown next.now) }
    {
        match *self {
            Says::Befall(verb, member, detail) => befallen(verb, member, detail, next.is_outcome()),
            _ => *self,
        }
    }

    /// Whether the line tells of a packet that is given to a member.
    pub(crate) fn is_reception(&self) -> bool
        ensures { result ≡ spec.is_reception (says_shown self.now) }
    {
        match *self {
            Says::Give(_, _) => true,
            _ => false,
        }
    }

    /// The word by which a packet is found: its number where receptions are told, and else its body.
    pub(crate) fn key(&self, told: bool) -> Option<&'a [u8]>
        ensures { word_shown result ≡ key_of told (says_shown self.now) }
    {
        match *self {
            Says::Packet(number, _, _, _, body) => packet_key(told, number, body),
            _ => None,
        }
    }

    /// The member that sends the packet of the line; 0 for a line of any other kind.
    pub(crate) fn sender(&self) -> u8
        ensures { result ≡ sender_of (says_shown self.now) }
    {
        match *self {
            Says::Packet(_, member, _, _, _) => member,
            _ => 0,
        }
    }
}

/// An event of this verb and detail, of which something came or not.
fn befallen<'a>(verb: &'a [u8], member: u8, detail: &'a [u8], came: bool) -> Says<'a>
    ensures { says_shown result ≡ (if bytes_eq verb.now (codes "tick") && not came then spec.idle member
        else spec.befall verb.now member detail.now) }
{
    if verb == b"tick".as_slice() && !came {
        Says::Idle(member)
    } else {
        Says::Befall(verb, member, detail)
    }
}

/// The word by which a packet of this number and body is found.
fn packet_key<'a>(told: bool, number: &'a [u8], body: &'a [u8]) -> Option<&'a [u8]>
    ensures { word_shown result ≡ (if told then Some number.now else body_key body.now) }
{
    if told {
        Some(number)
    } else if body == b"-".as_slice() {
        None
    } else {
        Some(body)
    }
}

/// What a line says.
pub(crate) fn says_of(line: &[u8]) -> Says<'_>
    ensures { says_shown result ≡ spec.says_of line.now }
{
    match any_line(Pieces::words(line)) {
        Some(says) => says,
        None => Says::Aside,
    }
}

fn any_line(mut words: Pieces<'_>) -> Option<Says<'_>>
    ensures { IsSaid (spec.any_line (pieces_left words.entry)) result }
{
    let verb = words.word()?;
    after_first(verb, words)
}

fn after_first<'a>(verb: &'a [u8], words: Pieces<'a>) -> Option<Says<'a>>
    ensures { IsSaid (spec.after_first verb.now (pieces_left words.entry)) result }
{
    if verb == b"deliver".as_slice() {
        deliver(words)
    } else if verb == b"packet".as_slice() {
        packet(words)
    } else if verb == b"view".as_slice() {
        view(words)
    } else if verb == b"out".as_slice() {
        out(words)
    } else if verb == b">".as_slice() {
        event(words)
    } else if is_other(verb) {
        other(verb, words)
    } else {
        None
    }
}

fn deliver(mut words: Pieces<'_>) -> Option<Says<'_>>
    ensures { IsSaid (spec.deliver_line (pieces_left words.entry)) result }
{
    let member = words.member()?;
    let kind = words.kind()?;
    let _peer = words.word()?;
    let body = words.word()?;
    words.end()?;
    Some(Says::Deliver(kind, member, body))
}

fn packet(mut words: Pieces<'_>) -> Option<Says<'_>>
    ensures { IsSaid (spec.packet_line (pieces_left words.entry)) result }
{
    let number = words.word()?;
    let member = words.member()?;
    let to = words.word()?;
    let chain = words.word()?;
    let body = words.word()?;
    words.end()?;
    Some(Says::Packet(number, member, to, chain, body))
}

fn view(mut words: Pieces<'_>) -> Option<Says<'_>>
    ensures { IsSaid (spec.view_line (pieces_left words.entry)) result }
{
    let member = words.member()?;
    let ltime = words.number()?;
    let mask = words.number()?;
    words.end()?;
    Some(Says::View(member, ltime, mask))
}

fn out(mut words: Pieces<'_>) -> Option<Says<'_>>
    ensures { IsSaid (spec.out_line (pieces_left words.entry)) result }
{
    let member = words.member()?;
    words.end()?;
    Some(Says::Out(member))
}

fn other<'a>(verb: &'a [u8], mut words: Pieces<'a>) -> Option<Says<'a>>
    ensures { IsSaid (spec.other_line verb.now (pieces_left words.entry)) result }
{
    let member = words.member()?;
    Some(Says::Other(verb, member, words.first()))
}

fn event(mut words: Pieces<'_>) -> Option<Says<'_>>
    ensures { IsSaid (spec.event_line (pieces_left words.entry)) result }
{
    let verb = words.word()?;
    event_after(verb, words)
}

fn event_after<'a>(verb: &'a [u8], words: Pieces<'a>) -> Option<Says<'a>>
    ensures { IsSaid (spec.event_after verb.now (pieces_left words.entry)) result }
{
    if verb == b"give".as_slice() {
        give(words)
    } else if verb == b"send".as_slice() {
        send(words)
    } else if is_asking(verb) {
        ask(verb, words)
    } else if is_befalling(verb) {
        befall(verb, words)
    } else {
        None
    }
}

fn give(mut words: Pieces<'_>) -> Option<Says<'_>>
    ensures { IsSaid (spec.give_event (pieces_left words.entry)) result }
{
    let number = words.word()?;
    let member = words.member()?;
    words.end()?;
    Some(Says::Give(number, member))
}

fn send(mut words: Pieces<'_>) -> Option<Says<'_>>
    ensures { IsSaid (spec.send_event (pieces_left words.entry)) result }
{
    let member = words.member()?;
    let _rank = words.word()?;
    let body = words.word()?;
    words.end()?;
    Some(Says::Ask(b"send", member, body))
}

fn ask<'a>(verb: &'a [u8], mut words: Pieces<'a>) -> Option<Says<'a>>
    ensures { IsSaid (spec.ask_event verb.now (pieces_left words.entry)) result }
{
    let member = words.member()?;
    let body = words.word()?;
    words.end()?;
    Some(Says::Ask(verb, member, body))
}

fn befall<'a>(verb: &'a [u8], mut words: Pieces<'a>) -> Option<Says<'a>>
    ensures { IsSaid (spec.befall_event verb.now (pieces_left words.entry)) result }
{
    let member = words.member()?;
    Some(Says::Befall(verb, member, words.first()))
}
