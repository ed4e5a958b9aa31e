//! Packets that are handed to the network.

ghost use Rattle.std.specs.Prelude.{◌≡◌, ℕ, ◌<◌, ◌≤◌, [], ◌∷◌, map, IsSomeAnd, length};
ghost use Rattle.std.specs.List.{AllByRecursion};
ghost use Rattle.msg_core.specs.declared.packet.Dest.TheVariants.{All};
ghost use Rattle.run_mean.specs.Journal.{receivers};
ghost use Rattle.outside.specs.Lines.{Wrote};
ghost use Rattle.outside.specs.Tells.{tells_of};
ghost use Rattle.node_laws.specs.Losses as losses;
ghost use Rattle.node_loop.specs.Around.{around};
ghost use Rattle.node_loop.specs.Passing.{Handles};
ghost use Rattle.node_laws.specs.Acts.{sending_acts};
ghost use Rattle.node_loop.specs.Sending.{MayTake, datagram_of, sent_to};
ghost use Rattle.stack_shapes.specs.Trees.{plans_tree};

use crate::source::OutputSource;
use crate::tools::Tools;
use msg_core::{Dest, MOST_MEMBERS, View};
use outside::{LONGEST_DATAGRAM, LinkError, Links, Sink, SinkError, put_line};
use packet_full::PacketView;
use packet_mean::Here;
use report_lines::{Line, lost_line};
use report_text::spell;
use view_masks::{has, member_at};

/// A datagram on its way out: who sends it, and the number of its packet.
#[derive(Clone, Copy)]
struct Sending<'a> {
    from: u8,
    number: u64,
    bytes: &'a [u8],
}

/// Puts the line of a sending that failed.
fn write_lost<O: Sink>(line: &mut Line, number: u64, out: &mut O) -> Result<(), SinkError>
    ensures { Wrote (losses.lost_line number ∷ []) (tells_of O.Sink out.old) (tells_of O.Sink out.new) result }
{
    line.clear();
    lost_line(line, number)?;
    put_line(line.slice(), out)
}

/// Hands a datagram on to a member; where that fails, a line says so.
fn send_to<O: Sink, N: Links>(
    line: &mut Line,
    sending: Sending<'_>,
    to: u8,
    out: &mut O,
    links: &mut N,
) -> Result<(), SinkError>
    requires peer { IsSomeAnd (N.listening links.old sending.from) (λ peers. to < peers) }
    requires size { length sending.bytes.now ≤ LONGEST_DATAGRAM }
    ensures handed { Handles
        (sending_acts sending.entry.number (sent_to sending.entry.from sending.entry.bytes.now to ∷ []))
        (around O.Sink N.Links out.old links.old) (around O.Sink N.Links out.new links.new) result }
    ensures listening { (m : ℕ) → N.listening links.new m ≡ N.listening links.old m }
{
    match links.send(sending.from, to, sending.bytes) {
        Ok(()) => Ok(()),
        Err(LinkError::Failed) => write_lost(line, sending.number, out),
        Err(LinkError::Memory) => Err(SinkError::Memory),
    }
}

/// Hands a datagram on to each other member of a view, by ascending id.
fn send_to_others<O: Sink, N: Links>(
    line: &mut Line,
    view: View,
    sending: Sending<'_>,
    out: &mut O,
    links: &mut N,
) -> Result<(), SinkError>
    requires peers { IsSomeAnd (N.listening links.old sending.from)
        (λ peers. AllByRecursion (MayTake sending.bytes.now peers) (receivers sending.from view All)) }
    ensures handed { Handles
        (sending_acts sending.entry.number
        (map (sent_to sending.entry.from sending.entry.bytes.now) (receivers sending.entry.from view All)))
        (around O.Sink N.Links out.old links.old) (around O.Sink N.Links out.new links.new) result }
    ensures listening { (m : ℕ) → N.listening links.new m ≡ N.listening links.old m }
{
    for to in 0..MOST_MEMBERS {
        if has(view.mask, to) && to != sending.from {
            send_to(line, sending, to, out, links)?;
        }
    }
    Ok(())
}

/// Hands a datagram on to those that it is for.
fn send_to_all_of<O: Sink, N: Links>(
    line: &mut Line,
    view: View,
    dest: Dest,
    sending: Sending<'_>,
    out: &mut O,
    links: &mut N,
) -> Result<(), SinkError>
    requires peers { IsSomeAnd (N.listening links.old sending.from)
        (λ peers. AllByRecursion (MayTake sending.bytes.now peers) (receivers sending.from view dest)) }
    ensures handed { Handles
        (sending_acts sending.entry.number
        (map (sent_to sending.entry.from sending.entry.bytes.now) (receivers sending.entry.from view dest)))
        (around O.Sink N.Links out.old links.old) (around O.Sink N.Links out.new links.new) result }
    ensures listening { (m : ℕ) → N.listening links.new m ≡ N.listening links.old m }
{
    match dest {
        Dest::All => send_to_others(line, view, sending, out, links),
        Dest::Rank(rank) => match member_at(view, rank) {
            Some(to) => send_to(line, sending, to, out, links),
            None => Ok(()),
        },
    }
}

/// Hands a packet on to those that it is for, as it is sent; for each sending that fails a line says so.
pub(crate) fn hand_on<O: Sink, N: Links>(
    tools: &mut Tools,
    source: OutputSource<'_>,
    here: &Here,
    packet: &PacketView<'_>,
    out: &mut O,
    links: &mut N,
) -> Result<(), SinkError>
    requires peers { IsSomeAnd (N.listening links.old source.id) (λ peers. AllByRecursion
        (MayTake (datagram_of (plans_tree source.plans.now) here.now packet.now) peers)
        (receivers source.id here.now.view packet.now.dest)) }
    ensures handed { Handles (sending_acts source.entry.number
        (map (sent_to source.entry.id (datagram_of (plans_tree source.entry.plans.now) here.now packet.now))
        (receivers source.entry.id here.now.view packet.now.dest)))
        (around O.Sink N.Links out.old links.old) (around O.Sink N.Links out.new links.new) result }
    ensures listening { (m : ℕ) → N.listening links.new m ≡ N.listening links.old m }
{
    spell(&mut tools.bytes, source.plans, here, packet)?;
    let sending = Sending {
        from: source.id,
        number: source.number,
        bytes: &tools.bytes,
    };
    let line = &mut tools.line;
    send_to_all_of(line, here.view, packet.dest, sending, out, links)
}
