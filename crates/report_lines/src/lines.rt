//! Single lines. Each ends with a line feed.

ghost use Rattle.std.specs.Prelude.{◌≡◌, ◌++◌, ◌∷◌, ◌<◌, [], OnOk, codes};
ghost use Rattle.std.specs.Fmt.{decimal};
ghost use Rattle.stack_judge.specs.Answer.{stack_tree};
ghost use Rattle.run_mean.specs.Lines as report;
ghost use Rattle.run_mean.specs.Report as whole;
ghost use Rattle.view_core.specs.Refusals.{refusal_meant};
ghost use Rattle.report_lines.specs.Deliveries.{address_text, contents_text, delivery_front, delivery_text};
ghost use Rattle.report_lines.specs.Deliveries.{packet_text};

use crate::chain::push_chain;
use crate::line::Line;
use crate::named::NamedStack;
use msg_core::{Dest, Headers, Memory, Stray, View};
use packet_full::PacketView;
use view_core::Refusal;

/// How a message arrived at a member: cast to all, or sent to it.
#[derive(Clone, Copy, Debug, PartialEq, Eq)]
pub enum Delivery {
    Cast,
    Send,
}

/// Appends a word, and a number of 32 bits after a space.
pub(crate) fn push_word(line: &mut Line, word: &[u8], id: u8) -> Result<(), Memory>
    ensures { OnOk result (line.new ≡ line.old ++ word.now ++ codes " " ++ decimal id) }
{
    line.text(word)?;
    line.spaced(u32::from(id))
}

/// Appends `deliver M cast P ` or `deliver M send P `, where both numbers have one digit, in one piece.
fn push_digits(line: &mut Line, id: u8, delivery: Delivery, peer: u8) -> Result<(), Memory>
    requires { (id < 10) × (peer < 10) }
    ensures { OnOk result (line.new ≡ line.old ++ delivery_front id (delivery_text delivery) peer) }
{
    let (m, p) = (b'0' + id, b'0' + peer);
    match delivery {
        Delivery::Cast => line.text(&[
            b'd', b'e', b'l', b'i', b'v', b'e', b'r', b' ', m, b' ', b'c', b'a', b's', b't', b' ',
            p, b' ',
        ]),
        Delivery::Send => line.text(&[
            b'd', b'e', b'l', b'i', b'v', b'e', b'r', b' ', m, b' ', b's', b'e', b'n', b'd', b' ',
            p, b' ',
        ]),
    }
}

/// Appends `deliver M cast P ` or `deliver M send P `.
fn push_delivery(line: &mut Line, id: u8, delivery: Delivery, peer: u32) -> Result<(), Memory>
    ensures { OnOk result (line.new ≡ line.old ++ delivery_front id (delivery_text delivery) peer) }
{
    if id < 10 && peer < 10 {
        return push_digits(line, id, delivery, peer as u8);
    }
    push_word(line, b"deliver", id)?;
    match delivery {
        Delivery::Cast => line.text(b" cast")?,
        Delivery::Send => line.text(b" send")?,
    }
    line.spaced(peer)?;
    line.text(b" ")
}

/// `deliver M cast P HEX` and `deliver M send P HEX`: a delivery at member M from rank P.
pub fn deliver_line(
    line: &mut Line,
    id: u8,
    delivery: Delivery,
    peer: u32,
    body: &[u8],
) -> Result<(), Memory>
    ensures { OnOk result (line.new ≡ line.old ++ report.deliver_line id (delivery_text delivery) peer body.now) }
{
    push_delivery(line, id, delivery, peer)?;
    line.hex(body)?;
    line.byte(b'\n')
}

/// `WORD M A`
fn number_line(line: &mut Line, word: &[u8], id: u8, a: u32) -> Result<(), Memory>
    ensures { OnOk result (line.new ≡ line.old ++ report.number_line word.now id a) }
{
    push_word(line, word, id)?;
    line.spaced(a)?;
    line.text(b"\n")
}

/// `block M A`
pub fn block_line(line: &mut Line, id: u8, a: u32) -> Result<(), Memory>
    ensures { OnOk result (line.new ≡ line.old ++ report.number_line (codes "block") id a) }
{
    number_line(line, b"block", id, a)
}

/// `announce M A`: the ranks of a next view, as bits.
pub fn announce_line(line: &mut Line, id: u8, ranks: u32) -> Result<(), Memory>
    ensures { OnOk result (line.new ≡ line.old ++ report.number_line (codes "announce") id ranks) }
{
    number_line(line, b"announce", id, ranks)
}

/// `timer M A`: a moment of the member's clock that is asked for.
pub fn timer_line(line: &mut Line, id: u8, moment: u32) -> Result<(), Memory>
    ensures { OnOk result (line.new ≡ line.old ++ report.number_line (codes "timer") id moment) }
{
    number_line(line, b"timer", id, moment)
}

/// Appends ` M all `: the member whose packet is for all.
fn push_to_all(line: &mut Line, id: u8) -> Result<(), Memory>
    ensures { OnOk result (line.new ≡ line.old ++ address_text id (codes "all")) }
{
    if id < 10 {
        return line.text(&[b' ', b'0' + id, b' ', b'a', b'l', b'l', b' ']);
    }
    line.spaced(u32::from(id))?;
    line.text(b" all ")
}

/// Appends ` M R `, where both numbers have one digit, in one piece.
fn push_address_digits(line: &mut Line, id: u8, rank: u8) -> Result<(), Memory>
    requires { (id < 10) × (rank < 10) }
    ensures { OnOk result (line.new ≡ line.old ++ address_text id (decimal rank)) }
{
    line.text(&[b' ', b'0' + id, b' ', b'0' + rank, b' '])
}

/// Appends ` M R `: the member whose packet is for a rank.
fn push_to_rank(line: &mut Line, id: u8, rank: u8) -> Result<(), Memory>
    ensures { OnOk result (line.new ≡ line.old ++ address_text id (decimal rank)) }
{
    if id < 10 && rank < 10 {
        return push_address_digits(line, id, rank);
    }
    line.spaced(u32::from(id))?;
    line.spaced(u32::from(rank))?;
    line.text(b" ")
}

/// Appends ` M all ` or ` M R `: the member whose packet it is, and whom it is for.
fn push_address(line: &mut Line, id: u8, dest: Dest) -> Result<(), Memory>
    ensures { OnOk result (line.new ≡ line.old ++ address_text id (report.dest_text dest)) }
{
    match dest {
        Dest::All => push_to_all(line, id),
        Dest::Rank(rank) => push_to_rank(line, id, rank),
    }
}

/// Appends `CHAIN HEX` and a line feed.
fn push_contents(
    line: &mut Line,
    stack: &NamedStack,
    headers: &Headers,
    body: &[u8],
) -> Result<(), Memory>
    ensures { OnOk result (line.new ≡ line.old ++ contents_text (stack_tree stack.now) headers.now body.now) }
{
    push_chain(line, stack, headers)?;
    line.byte(b' ')?;
    line.hex(body)?;
    line.byte(b'\n')
}

/// `packet K M D CHAIN HEX`: packet K of member M, with its headers by name.
pub fn packet_line(
    line: &mut Line,
    stack: &NamedStack,
    number: u64,
    id: u8,
    packet: &PacketView<'_>,
) -> Result<(), Memory>
    ensures { OnOk result (line.new ≡ line.old ++ packet_text (stack_tree stack.now) number id
        packet.now.dest packet.now.headers.now packet.now.body.now) }
{
    line.text(b"packet ")?;
    line.number(number)?;
    push_address(line, id, packet.dest)?;
    push_contents(line, stack, packet.headers, packet.body)
}

/// `wire K HEX`: the bytes of packet K as it is sent.
pub fn wire_line(line: &mut Line, number: u64, bytes: &[u8]) -> Result<(), Memory>
    ensures { OnOk result (line.new ≡ line.old ++ report.wire_line number bytes.now) }
{
    line.text(b"wire ")?;
    line.number(number)?;
    line.text(b" ")?;
    line.hex(bytes)?;
    line.text(b"\n")
}

/// `WORD M LTIME MASK`
fn push_view(line: &mut Line, word: &[u8], id: u8, view: View) -> Result<(), Memory>
    ensures { OnOk result (line.new ≡ line.old ++ report.view_line word.now id view) }
{
    push_word(line, word, id)?;
    line.spaced(view.ltime)?;
    line.spaced(view.mask)?;
    line.text(b"\n")
}

/// `view M LTIME MASK`: the view that a member installs.
pub fn view_line(line: &mut Line, id: u8, view: View) -> Result<(), Memory>
    ensures { OnOk result (line.new ≡ line.old ++ report.view_line (codes "view") id view) }
{
    push_view(line, b"view", id, view)
}

/// `state M LTIME MASK`: the view that a member is in.
pub fn state_line(line: &mut Line, id: u8, view: View) -> Result<(), Memory>
    ensures { OnOk result (line.new ≡ line.old ++ report.view_line (codes "state") id view) }
{
    push_view(line, b"state", id, view)
}

/// `out M`: a member leaves its group.
pub fn out_line(line: &mut Line, id: u8) -> Result<(), Memory>
    ensures { OnOk result (line.new ≡ line.old ++ report.out_line id) }
{
    push_word(line, b"out", id)?;
    line.text(b"\n")
}

/// `state M out`: a member is in no view.
pub fn state_out_line(line: &mut Line, id: u8) -> Result<(), Memory>
    ensures { OnOk result (line.new ≡ line.old ++ report.state_out_line id) }
{
    push_word(line, b"state", id)?;
    line.text(b" out\n")
}

/// A cause in lower case.
fn stray_text(cause: Stray) -> &'static [u8]
    ensures { result.now ≡ report.stray_text cause }
{
    match cause {
        Stray::Short => b"short",
        Stray::Form => b"form",
        Stray::Group => b"group",
        Stray::Stamp => b"stamp",
        Stray::View => b"view",
        Stray::Sender => b"sender",
        Stray::Dest => b"dest",
        Stray::Plan => b"plan",
        Stray::Chain => b"chain",
        Stray::Body => b"body",
    }
}

fn cause_text(refusal: Refusal) -> &'static [u8]
    ensures { result.now ≡ report.cause_text (refusal_meant refusal) }
{
    match refusal {
        Refusal::Out => b"out",
        Refusal::TooBig => b"big",
        Refusal::Stray(cause) => stray_text(cause),
    }
}

/// `refused M CAUSE`
pub fn refused_line(line: &mut Line, id: u8, refusal: Refusal) -> Result<(), Memory>
    ensures { OnOk result (line.new ≡ line.old ++ report.refused_line id (refusal_meant refusal)) }
{
    push_word(line, b"refused", id)?;
    line.text(b" ")?;
    line.text(cause_text(refusal))?;
    line.text(b"\n")
}

/// `absent M K`: packet K, which is to be given to member M, isn't there.
pub fn absent_line(line: &mut Line, id: u8, number: u32) -> Result<(), Memory>
    ensures { OnOk result (line.new ≡ line.old ++ report.absent_line id number) }
{
    push_word(line, b"absent", id)?;
    line.spaced(number)?;
    line.text(b"\n")
}

/// `WORD N`
pub(crate) fn count_line(line: &mut Line, word: &[u8], count: u64) -> Result<(), Memory>
    ensures { OnOk result (line.new ≡ line.old ++ report.line (word.now ∷ decimal count ∷ [])) }
{
    line.text(word)?;
    line.text(b" ")?;
    line.number(count)?;
    line.text(b"\n")
}

/// `end N`: the last line of a report, of N events.
pub fn end_line(line: &mut Line, events: u64) -> Result<(), Memory>
    ensures { OnOk result (line.new ≡ line.old ++ whole.end_line events) }
{
    count_line(line, b"end", events)
}

/// `visits V`: how many visits were counted.
pub fn visits_line(line: &mut Line, visits: u64) -> Result<(), Memory>
    ensures { OnOk result (line.new ≡ line.old ++ whole.visits_line visits) }
{
    count_line(line, b"visits", visits)
}
