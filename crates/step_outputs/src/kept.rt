//! What is kept of an output.

ghost use Rattle.std.specs.Prelude.{◌≡◌, [], ◌∷◌, ◌==◌, ◌&&◌, ◌+◌, ◌<◌, ◌≤◌, ◌++◌, ℕ, true, false, not, nat_lt};
ghost use Rattle.std.specs.Prelude.{if◌then◌else◌, is_some, List, Some, None, length, vec_len, vec_capacity};
ghost use Rattle.circular_buffer.specs.Buffer.{buffer};
ghost use Rattle.slot_pool.specs.Held.{Held};
ghost use Rattle.msg_core.specs.Chain.{Content};
ghost use Rattle.msg_core.specs.Parts.{longest_body};
ghost use Rattle.msg_core.specs.View.{member_count as members_of, most_members};
ghost use Rattle.layer_words.specs.declared.events.Dir.TheVariants.{Up, Down};
ghost use Rattle.layer_words.specs.declared.events.Kind.TheVariants as kind;
ghost use Rattle.layer_mean.specs.Envelope.{event_in};
ghost use Rattle.layer_mean.specs.Event.{carries};
ghost use Rattle.layer_mean.specs.declared.run.Event.{Event};
ghost use Rattle.packet_mean.specs.declared.here.Here.{Here};
ghost use Rattle.pool_message.specs.Seen.{event_seen, EventLies};
ghost use Rattle.run_mean.specs.Member.{content};
ghost use Rattle.stack_mean.specs.Plans.{plans_limit};
ghost use Rattle.step_outputs.specs.Kept.{announced_by, bytes_in, number_below, number_following, under, LiesWithin};
ghost use Rattle.step_outputs.specs.Kept.{output_with, span_of, IsFor};
ghost use Rattle.step_outputs.specs.Views.{output_meant, signal_meant};

use crate::list::KeptList;
use crate::view::{OutputView, Signal};
use layer_mean::Envelope;
use layer_words::{Dir, Kind};
use msg_core::{Dest, Headers};
use packet_full::{PacketView, put_body};
use packet_mean::Here;
use pool_message::PoolEvent;
use slot_pool::Pool;
use view_masks::member_count;

/// A range of bytes.
#[derive(Clone, Copy)]
pub struct Span {
    pub from: usize,
    pub len: usize,
}

/// What an output is, but for its headers and its bytes.
#[derive(Clone, Copy)]
pub enum What {
    Cast(u32),
    Send(u32),
    Block(u32),
    Announce(u32),
    Timer(u32),
    /// A packet to this destination, and the plan under which it is sent short, if it is.
    Packet(Dest, Option<u8>),
    /// A send that has no other member to go to, and the plan that its packet would have, if any.
    Nowhere(Option<u8>),
    Quiet(Dir, Signal),
}

/// An output. Its headers are in place, and its bytes stand among those of all outputs.
#[derive(Drop)]
pub struct Kept {
    pub what: What,
    pub headers: Headers,
    pub body: Span,
}

/// The bytes of an event's message; none where it has no message.
pub(crate) fn body_of<'p>(event: &'p PoolEvent, pool: &'p Pool) -> &'p [u8]
    requires { EventLies pool.now event.now }
    ensures is { result.now ≡ (content (event_seen pool.now event.now)).body }
    ensures few { length result.now ≤ longest_body }
{
    match event.message.get() {
        Some(message) => {
            let _count = message.len();
            message.body(pool)
        }
        None => &[],
    }
}

/// Where a body is to stand, after those of the others.
pub(crate) fn span_after(body: &[u8], bytes: &Vec<u8>) -> Span
    ensures { result ≡ span_of bytes.now.items body.now }
{
    let from = bytes.len();
    Span {
        from,
        len: body.len(),
    }
}

/// Puts the bytes of a body after those of the others, and tells where they are.
pub(crate) fn keep_bytes(body: &[u8], bytes: &mut Vec<u8>) -> Span
    requires { vec_len bytes.old + length body.now ≤ vec_capacity bytes.old }
    ensures items { bytes.new.items ≡ bytes.old.items ++ body.now }
    ensures place { result ≡ span_of bytes.old.items body.now }
    ensures kept { bytes_in bytes.new.items result ≡ body.now }
    ensures within { LiesWithin bytes.new.items result }
    ensures capacity { vec_capacity bytes.old ≤ vec_capacity bytes.new }
{
    let span = span_after(body, bytes);
    if !body.is_empty() {
        put_body(body, bytes);
    }
    span
}

/// The numbers of an event.
fn signal_of(event: &PoolEvent) -> Signal
    requires { event.now.message ≡ None }
    ensures { (p : List Held) → signal_meant result ≡ event_seen p event.now }
{
    Signal {
        kind: event.kind,
        peer: event.peer,
        a: event.a,
        b: event.b,
    }
}

/// What an event is at the upper edge.
fn above(here: &Here, event: &PoolEvent) -> What
    requires { is_some event.now.message ≡ carries event.now.kind }
    ensures { (p : List Held) → IsFor here.now Up (event_seen p event.now) result }
{
    match event.kind {
        Kind::Cast => What::Cast(event.peer),
        Kind::Send => What::Send(event.peer),
        Kind::Block => What::Block(event.a),
        Kind::View => What::Announce(event.a),
        _ => What::Quiet(Dir::Up, signal_of(event)),
    }
}

/// Whether a rank is that of another member.
fn is_other(here: &Here, peer: u32) -> bool
    ensures is { result ≡ nat_lt peer (members_of here.now.view) && not (peer == here.now.rank) }
    ensures few { result ≡ true → peer < most_members }
{
    peer < member_count(here.view) && peer != u32::from(here.rank)
}

/// What a send to a rank is at the lower edge.
fn sent_to(here: &Here, peer: u32) -> What
    ensures { (e : Event) → e.peer ≡ peer → e.kind ≡ kind.Send → IsFor here.now Down e result }
{
    if is_other(here, peer) {
        What::Packet(Dest::Rank(peer as u8), None)
    } else {
        What::Nowhere(None)
    }
}

/// What an event is at the lower edge.
fn below(here: &Here, event: &PoolEvent) -> What
    requires { is_some event.now.message ≡ carries event.now.kind }
    ensures { (p : List Held) → IsFor here.now Down (event_seen p event.now) result }
{
    match event.kind {
        Kind::Cast => What::Packet(Dest::All, None),
        Kind::Send => sent_to(here, event.peer),
        Kind::Timer => What::Timer(event.a),
        _ => What::Quiet(Dir::Down, signal_of(event)),
    }
}

/// What an event is at the edge at which it leaves.
pub(crate) fn what_of(here: &Here, direction: Dir, event: &PoolEvent) -> What
    requires { is_some event.now.message ≡ carries event.now.kind }
    ensures { (p : List Held) → IsFor here.now direction (event_seen p event.now) result }
{
    match direction {
        Dir::Up => above(here, event),
        Dir::Down => below(here, event),
    }
}

/// What an event that carries a message is at the edge at which it leaves.
pub(crate) fn what_carried(here: &Here, direction: Dir, envelope: Envelope) -> What
    requires { carries envelope.kind ≡ true }
    ensures { (m : Content) → IsFor here.now direction (event_in envelope (Some m)) result }
{
    match direction {
        Dir::Up => match envelope.kind {
            Kind::Cast => What::Cast(envelope.peer),
            Kind::Send => What::Send(envelope.peer),
            _ => unreachable!(),
        },
        Dir::Down => match envelope.kind {
            Kind::Cast => What::Packet(Dest::All, None),
            Kind::Send => sent_to(here, envelope.peer),
            _ => unreachable!(),
        },
    }
}

/// What an event without a message is at the edge at which it leaves.
pub(crate) fn what_bare(direction: Dir, envelope: Envelope) -> What
    requires { carries envelope.kind ≡ false }
    ensures { (here : Here) → IsFor here direction (event_in envelope None) result }
{
    let signal = Signal {
        kind: envelope.kind,
        peer: envelope.peer,
        a: envelope.a,
        b: envelope.b,
    };
    match direction {
        Dir::Up => match envelope.kind {
            Kind::Cast => unreachable!(),
            Kind::Send => unreachable!(),
            Kind::Block => What::Block(envelope.a),
            Kind::View => What::Announce(envelope.a),
            _ => What::Quiet(Dir::Up, signal),
        },
        Dir::Down => match envelope.kind {
            Kind::Cast => unreachable!(),
            Kind::Send => unreachable!(),
            Kind::Timer => What::Timer(envelope.a),
            _ => What::Quiet(Dir::Down, signal),
        },
    }
}

/// A number as that of a plan, if there is a plan of this number.
fn plan_at(next: u32, count: u32) -> Option<u8>
    requires { count ≤ plans_limit }
    ensures { result ≡ number_below count next }
{
    if next < count { Some(next as u8) } else { None }
}

/// The next number, as far as there are plans.
fn number_more(next: u32, count: u32) -> u32
    ensures { result ≡ if nat_lt next count then next + 1 else next }
{
    if next < count { next + 1 } else { next }
}

/// Gives an output the next number, if it takes one; it is sent short under it if there is a plan of this number.
/// Answers the next number after it.
pub(crate) fn take_number(kept: &mut Kept, next: u32, count: u32) -> u32
    requires { count ≤ plans_limit }
    ensures kept { kept.new ≡ record kept.old { what = under (number_below count next) kept.old.what } }
    ensures following { result ≡ number_following count next kept.old.what }
{
    match kept.what {
        What::Packet(dest, _) => {
            kept.what = What::Packet(dest, plan_at(next, count));
            number_more(next, count)
        }
        What::Nowhere(_) => {
            kept.what = What::Nowhere(plan_at(next, count));
            number_more(next, count)
        }
        _ => next,
    }
}

/// Puts what an event is after the others, with the headers of its message, or with none where it has no message.
pub(crate) fn keep(list: &mut KeptList, what: What, event: &PoolEvent, body: Span)
    requires { length list.old.items < list.old.capacity }
    ensures { (p : List Held) →
        list.new ≡ buffer (list.old.items ++
        record { what = what; headers = (content (event_seen p event.now)).headers; body = body } ∷ [])
        list.old.capacity }
{
    match event.message.get() {
        Some(message) => list.push(what, message.headers(), body),
        None => list.push_bare(what, body),
    }
}

/// What is told of an output that is kept with these bytes.
pub(crate) fn shown<'b>(kept: &'b Kept, body: &'b [u8]) -> OutputView<'b>
    ensures { (here : Here) → output_meant here result ≡ output_with here kept.now.what kept.now.headers body.now }
{
    match kept.what {
        What::Cast(peer) => OutputView::Cast(peer, body),
        What::Send(peer) => OutputView::Send(peer, body),
        What::Block(a) => OutputView::Block(a),
        What::Announce(ranks) => OutputView::Announce(ranks),
        What::Timer(moment) => OutputView::Timer(moment),
        What::Packet(dest, plan) => OutputView::Packet(PacketView {
            dest,
            headers: &kept.headers,
            body,
            plan,
        }),
        What::Nowhere(plan) => OutputView::Nowhere(plan),
        What::Quiet(direction, signal) => OutputView::Quiet(direction, signal),
    }
}

/// The ranks of the view that an output announces, if it announces one.
pub(crate) fn announces(kept: &Kept) -> Option<u32>
    ensures { result ≡ announced_by kept.now.what }
{
    match kept.what {
        What::Announce(ranks) => Some(ranks),
        _ => None,
    }
}
