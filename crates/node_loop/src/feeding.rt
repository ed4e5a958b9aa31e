//! One event of a node: its line, what it yields, and its packets handed on.

ghost use Rattle.std.specs.Prelude.{◌≡◌, ◌+◌, ◌^◌, ◌<◌, ◌∷◌, [], ℕ, OnOk};
ghost use Rattle.packet_mean.specs.ChainedState.{IsNumber};
ghost use Rattle.packet_mean.specs.Spelling.{AreBytes};
ghost use Rattle.member_laws.specs.Members.{IsGivenEvent};
ghost use Rattle.script_mean.specs.Event.{member_of};
ghost use Rattle.run_mean.specs.Mode.{Mode};
ghost use Rattle.run_mean.specs.World.{World};
ghost use Rattle.outside.specs.Lines.{Wrote};
ghost use Rattle.outside.specs.Tells.{tells_of};
ghost use Rattle.node_laws.specs.Losses as losses;
ghost use Rattle.node_loop.specs.Around.{around};
ghost use Rattle.node_loop.specs.Course.{FedOn, plans_in, stack_in};
ghost use Rattle.node_loop.specs.Feeding.{Feeds, IsOwn, IsUp, Rests, RestsAgain};

use crate::course::Course;
use crate::desk::NodeDesk;
use crate::outputs::pass_stepped;
use crate::source::OutputSource;
use group_feed::Feed;
use outside::{Links, Sink, SinkError, put_line};
use report_lines::{Line, journal_line};
use script_mean::{ScriptEvent, member_of};
use step_outputs::law_accepted_is_light;
use view_core::Did;

/// Puts the line of an event.
fn write_journal<O: Sink>(
    line: &mut Line,
    event: &ScriptEvent,
    out: &mut O,
) -> Result<(), SinkError>
    ensures { Wrote (losses.journal_line event.now ∷ []) (tells_of O.Sink out.old) (tells_of O.Sink out.new) result }
{
    line.clear();
    journal_line(line, event)?;
    put_line(line.slice(), out)
}

/// The bytes of a slice are bytes.
fn law_bytes(_bytes: &[u8])
    ensures { AreBytes _bytes.now }
{}

/// A number of 32 bits is one.
fn law_number(_number: u32)
    ensures { IsNumber _number }
{}

/// An event has bytes and numbers in range.
pub(crate) fn law_given(event: &ScriptEvent)
    ensures { IsGivenEvent event.now }
{
    match event {
        ScriptEvent::Cast(_, body) => law_bytes(body.slice()),
        ScriptEvent::Send(_, to, body) => {
            law_number(*to);
            law_bytes(body.slice());
        }
        ScriptEvent::Tick(_, moment) => law_number(*moment),
        ScriptEvent::Raw(_, bytes) => law_bytes(bytes.slice()),
        ScriptEvent::Leave(_) | ScriptEvent::Give(_, _) | ScriptEvent::Show(_) => {}
    }
}

/// Feeds an event to a member of this node's own: puts its line, and then the lines of what it yielded, with its
/// packets handed on.
pub(crate) fn feed_event<F: Feed, O: Sink, N: Links>(
    feed: &mut F,
    course: Course<'_>,
    desk: &mut NodeDesk,
    event: &ScriptEvent,
    out: &mut O,
    links: &mut N,
) -> Result<(), SinkError>
    requires up { IsUp (stack_in course) (plans_in course) (F.group feed.old) desk.old (N.listening links.old)
        (member_of event.now ∷ []) }
    requires own { IsOwn event.now }
    requires few { desk.old.events + 1 < 2 ^ 64 }
    ensures fed { (mode : Mode) (n : ℕ) (w : World) →
        Rests mode (stack_in course.entry) (plans_in course.entry) n (F.group feed.old) desk.old w →
        Feeds mode (stack_in course.entry) (plans_in course.entry) n w event.now (F.group feed.new) desk.old desk.new
        (around O.Sink N.Links out.old links.old) (around O.Sink N.Links out.new links.new) result }
    ensures counted { OnOk result (desk.new.events ≡ desk.old.events + 1) }
    ensures listening { (m : ℕ) → N.listening links.new m ≡ N.listening links.old m }
{
    write_journal(&mut desk.tools.line, event, out)?;
    course.stack.stack().law_within_limits();
    law_given(event);
    let number = feed.next_number();
    let mut visits = 0;
    match feed.feed(event, &mut desk.outputs, &mut visits)? {
        Did::Stepped(stepped) => {
            law_accepted_is_light(course.stack.stack());
            desk.outputs.law_places_for_all();
            let source = OutputSource {
                stack: course.stack,
                plans: course.plans,
                id: member_of(event),
                number,
            };
            pass_stepped(&mut desk.tools, source, &desk.outputs, stepped, out, links)?;
            desk.events += 1;
            Ok(())
        }
        Did::Absent => unreachable!(),
        Did::Shown => unreachable!(),
    }
}

/// Feeds an event that is the next thing to do.
pub(crate) fn feed_on<F: Feed, O: Sink, N: Links>(
    feed: &mut F,
    course: Course<'_>,
    desk: &mut NodeDesk,
    event: &ScriptEvent,
    out: &mut O,
    links: &mut N,
) -> Result<(), SinkError>
    requires up { IsUp (stack_in course) (plans_in course) (F.group feed.old) desk.old (N.listening links.old)
        (member_of event.now ∷ []) }
    requires own { IsOwn event.now }
    requires few { desk.old.events + 1 < 2 ^ 64 }
    ensures told { FedOn (stack_in course.entry) (plans_in course.entry) event.now (F.group feed.old) (F.group feed.new)
        desk.old desk.new
        (around O.Sink N.Links out.old links.old) (around O.Sink N.Links out.new links.new) result }
    ensures rests { OnOk result
        (RestsAgain (stack_in course.entry) (plans_in course.entry) (F.group feed.old) desk.old (F.group feed.new)
        desk.new) }
    ensures counted { OnOk result (desk.new.events ≡ desk.old.events + 1) }
    ensures listening { (m : ℕ) → N.listening links.new m ≡ N.listening links.old m }
{
    feed_event(feed, course, desk, event, out, links)
}
