//! Members over a network.

ghost use Rattle.std.specs.Prelude.{◌≡◌, ◌<◌, ◌≤◌, ℕ, Some, IfOk, OnOk, length};
ghost use Rattle.std.specs.List.{AllByRecursion};
ghost use Rattle.group_mean.specs.Node.{node_words, receiving, rounds_of};
ghost use Rattle.stack_mean.specs.Acceptance.{largest_weight};
ghost use Rattle.stack_mean.specs.Plans.{plans_of};
ghost use Rattle.chain_laws.specs.Runs.{TypedStack};
ghost use Rattle.stack_judge.specs.Answer.{stack_tree};
ghost use Rattle.node_laws.specs.Stages.{AreOrdered, from_turn};
ghost use Rattle.node_loop.specs.Around.{around};
ghost use Rattle.node_loop.specs.Course.{Begun, Made, SoFar, course_of, now, plans_in, stack_in};
ghost use Rattle.node_loop.specs.Feeding.{IsOwn, IsUp};
ghost use Rattle.node_loop.specs.Listening.{ListensAll};
ghost use Rattle.node_loop.specs.Serve.{Serves, first_of_plan, whereabouts};
ghost use Rattle.group_feed.specs.Standing.{Stands};
ghost use Rattle.msg_core.specs.View.{most_members};

use crate::course::{Course, Progress, law_number_fits};
use crate::desk::NodeDesk;
use crate::error::NodeError;
use crate::tools::Tools;
use crate::turns::turn;
use group_feed::Feed;
use live_outside::{LiveLinks, LiveSink};
use msg_core::Memory;
use node_laws::law_stopped_goes_on;
use outside::{Clock, LONGEST_DATAGRAM, Links, Peer};
use report_lines::Line;
use report_text::{Pen, write_end};
use stack_judge::Stack;
use std::alloc::{AllocError, Global};
use step_outputs::Outputs;

/// Where a datagram is received.
fn room(alloc: Global) -> Result<Vec<u8>, AllocError>
    ensures { IfOk result (λ room. length room.items ≡ LONGEST_DATAGRAM) }
{
    vec![in alloc; 0; LONGEST_DATAGRAM]
}

/// How often each own member receives in a turn.
const RECEIVES_A_TURN: u8 = 16;

/// Which member each receive of a turn is for: in each round each own member receives once.
#[tactic(auto, unfolding(group_mean::specs::Node::receiving))]
fn receiving(alloc: Global, me: &[u8]) -> Result<Vec<u8>, Memory>
    ensures { IfOk result (λ asking. asking.items ≡ receiving me.now) }
{
    let mut asking = Vec::new(alloc);
    for _ in 0..RECEIVES_A_TURN {
        asking.extend_from_slice(me)?;
    }
    Ok(asking)
}

/// A desk at which nothing was done.
fn desk(alloc: Global, stack: &Stack) -> Result<NodeDesk, Memory>
    ensures places { IfOk result (λ d. d.outputs.places ≡ largest_weight (stack_tree stack.now)) }
    ensures none { IfOk result (λ d. d.events ≡ 0) }
{
    let outputs = Outputs::new(alloc, stack)?;
    let room = room(alloc)?;
    Ok(NodeDesk {
        alloc,
        outputs,
        tools: Tools {
            pen: Pen::new(alloc),
            line: Line::new(alloc),
            bytes: Vec::new(alloc),
        },
        room,
        events: 0,
    })
}

/// Lets each own member listen.
fn listen_all<N: Links>(peers: &[Peer], me: &[u8], links: &mut N) -> Result<(), NodeError>
    requires members { AllByRecursion (λ id. id < length peers.now) me.now }
    requires few { length peers.now ≤ most_members }
    ensures told { ListensAll peers.now me.now (N.faults links.old) (N.faults links.new) (N.told links.old)
        (N.told links.new) result }
    ensures sends { N.send_faults links.new ≡ N.send_faults links.old }
    ensures listening { OnOk result (AllByRecursion (λ id. N.listening links.new id ≡ Some (length peers.now)) me.now) }
{
    for id in me {
        links.listen(*id, peers)?;
    }
    Ok(())
}

/// Makes all turns.
fn make_turns<F: Feed, O: LiveSink, N: LiveLinks, C: Clock>(
    feed: &mut F,
    course: Course<'_>,
    asking: &[u8],
    desk: &mut NodeDesk,
    patience: u32,
    out: &mut O,
    links: &mut N,
    clock: &mut C,
) -> Result<(), NodeError>
    requires up { IsUp (stack_in course) (plans_in course) (F.group feed.old) desk.old (N.listening links.old)
        course.me.now }
    requires own { AllByRecursion (λ entry. IsOwn entry.1) course.plan.now.turns }
    requires ordered { AreOrdered 0 course.plan.now.turns }
    requires asking { asking.now ≡ receiving course.me.now }
    requires members { length course.me.now ≤ most_members }
    requires none { desk.old.events ≡ 0 }
    ensures told { (b : Begun) → b.patience ≡ patience →
        SoFar (stack_in course.entry) (plans_in course.entry) (course_of course.entry) b 0 0
        (from_turn (course_of course.entry) 0 patience) 0
        (now (F.group feed.old) desk.old (around O.Sink N.Links out.old links.old) (C.told clock.old)) →
        Made (stack_in course.entry) (plans_in course.entry) (course_of course.entry) b
        (now (F.group feed.new) desk.new (around O.Sink N.Links out.new links.new) (C.told clock.new)) result }
    ensures listening { (m : ℕ) → N.listening links.new m ≡ N.listening links.old m }
{
    let mut progress = Progress {
        turn: 0,
        patience,
        next: 0,
    };
    for t in 0..course.turns {
        progress.turn = t;
        turn(feed, course, asking, desk, &mut progress, out, links, clock)?;
    }
    Ok(())
}

/// Runs the members `me` of a plan's group, in its mode, over links, for a number of turns, and puts what they do and
/// what it yields line by line: after `> ` each event, and then the lines of its report. Each packet is handed on
/// just after its line, as it is sent; a sending that fails is told by `lost` and the packet's number, and not made
/// again. A receive that fails is told by `deaf` and the member; of these as many are tolerated as `patience` says.
///
/// Each turn is a tick of the clock's moment at each own member, sixteen receives of each, whose datagrams are events of
/// that member, and then the plan's events of this turn for own members. Where a turn hears nothing, what was put is
/// handed on, and the links wait for a datagram. The last line says how many events there were.
pub fn serve<F: Feed, O: LiveSink, N: LiveLinks, C: Clock>(
    alloc: Global,
    feed: &mut F,
    course: Course<'_>,
    patience: u32,
    out: &mut O,
    links: &mut N,
    clock: &mut C,
) -> Result<(), NodeError>
    requires typed { TypedStack (stack_in course) }
    requires plans { plans_in course ≡ plans_of (stack_in course) }
    requires stack { (F.group feed.old).stack ≡ stack_in course }
    requires group_plans { (F.group feed.old).plans ≡ plans_in course }
    requires group { Stands (F.group feed.old) (first_of_plan (stack_in course) course.plan.now) }
    requires members { AllByRecursion (λ id. id < length course.plan.now.peers) course.me.now }
    requires few_members { length course.me.now ≤ most_members }
    requires few_peers { length course.plan.now.peers ≤ most_members }
    requires ordered { AreOrdered 0 course.plan.now.turns }
    requires own { AllByRecursion (λ entry. IsOwn entry.1) course.plan.now.turns }
    ensures { Serves (record {
      stack = stack_in course.entry;
      plan = course.entry.plan.now;
      words = node_words course.entry.turns course.entry.me.now patience (F.group feed.old).mode;
    })
        (whereabouts (around O.Sink N.Links out.old links.old) (C.told clock.old))
        (whereabouts (around O.Sink N.Links out.new links.new) (C.told clock.new)) result }
{
    law_stopped_goes_on();
    law_number_fits(course.plan.group);
    law_number_fits(course.plan.stamp);
    let mut desk = desk(alloc, course.stack.stack())?;
    let asking = receiving(alloc, course.me)?;
    listen_all(course.plan.peers.slice(), course.me, links)?;
    make_turns(
        feed, course, &asking, &mut desk, patience, out, links, clock,
    )?;
    let events = desk.events;
    write_end(&mut desk.tools.pen, events, out)?;
    Ok(())
}
