//! Counts of lines, in place of the lines.

ghost use Rattle.std.specs.Prelude.{◌≡◌, ◌+◌, ◌*◌, ◌^◌, ◌<◌, ◌≤◌, ◌++◌, ◌∷◌, [], OnOk, length, codes};
ghost use Rattle.std.specs.List.{fold};
ghost use Rattle.run_mean.specs.Report.{end_line};
ghost use Rattle.outside.specs.Lines.{Wrote};
ghost use Rattle.outside.specs.Tells.{tells_of};
ghost use Rattle.step_outputs.specs.Views.{output_meant};
ghost use Rattle.report_text.specs.Counts.{change_counted, with_event_counted, kinds_line, lines_counted, no_counts};
ghost use Rattle.report_text.specs.Counts.{output_counted, short_line, step_counted, tally_lines, total, count_text};

use crate::counts::Counts;
use crate::pen::Pen;
use msg_core::Memory;
use outside::{Sink, SinkError, put_line};
use packet_mean::Here;
use report_lines::Line;
use std::marker::Model;
use step_outputs::{OutputView, Outputs};
use view_core::{Change, Did, Stepped};

/// How many lines of each kind the events so far have. An event has at most 65,537 lines, and as many packets at most
/// are sent short.
#[derive(Drop)]
pub struct Tally {
    counts: Counts,
}

impl Model for Tally {
    ghost use Rattle.std.specs.Prelude.{◌*◌, ◌≤◌};
    ghost use Rattle.report_text.specs.Counts.{total};
    ghost use Rattle.report_text.specs.declared.counts.Counts.{Counts};

    ghost Value = { Counts };

    ghost view = { λ t. t.counts };

    ghost invariant = { λ t. total t.counts ≤ 131074 * t.counts.events };
}

impl Tally {
    /// Nothing is counted yet.
    pub fn new() -> Tally
        ensures { result ≡ no_counts }
    {
        Tally {
            counts: Counts {
                deliver: 0,
                packet: 0,
                timer: 0,
                block: 0,
                announce: 0,
                view: 0,
                out: 0,
                refused: 0,
                absent: 0,
                short: 0,
                events: 0,
            },
        }
    }

    /// What was counted.
    fn counts(&self) -> Counts
        ensures { result ≡ self.now }
    {
        self.counts
    }

    /// Counts an event, and the lines of what it yielded.
    pub fn count_event(&mut self, did: Did, outputs: &Outputs)
        requires events { self.old.events < 2 ^ 32 }
        requires few { length outputs.now.outputs ≤ 65536 }
        ensures { self.new ≡ with_event_counted self.old did outputs.now.outputs }
    {
        self.counts.events += 1;
        count_did(&mut self.counts, did, outputs);
    }
}

/// Counts the line of an output, and a packet that is sent short.
fn count_output(counts: &mut Counts, _here: &Here, output: &OutputView<'_>)
    requires { total counts.old + 2 < 2 ^ 64 }
    ensures is { counts.new ≡ output_counted counts.old (output_meant _here.now output.now) }
    ensures few { total counts.new ≤ total counts.old + 2 }
    ensures events { counts.new.events ≡ counts.old.events }
{
    match output {
        OutputView::Cast(_, _) => counts.deliver += 1,
        OutputView::Send(_, _) => counts.deliver += 1,
        OutputView::Block(_) => counts.block += 1,
        OutputView::Announce(_) => counts.announce += 1,
        OutputView::Timer(_) => counts.timer += 1,
        OutputView::Packet(packet) => {
            counts.packet += 1;
            if packet.plan.is_some() {
                counts.short += 1;
            }
        }
        OutputView::Nowhere(_) => {}
        OutputView::Quiet(_, _) => {}
    }
}

/// Counts the lines of a step's outputs.
fn count_outputs(counts: &mut Counts, outputs: &Outputs)
    requires { total counts.old + 2 * length outputs.now.outputs < 2 ^ 64 }
    ensures is { counts.new ≡ fold output_counted counts.old outputs.now.outputs }
    ensures few { total counts.new ≤ total counts.old + 2 * length outputs.now.outputs }
    ensures events { counts.new.events ≡ counts.old.events }
{
    let here = outputs.here();
    for k in 0..outputs.len() {
        count_output(counts, &here, &outputs.at(k));
    }
}

/// Counts the line of where a member is after a step.
fn count_change(counts: &mut Counts, change: Option<Change>)
    requires { total counts.old + 1 < 2 ^ 64 }
    ensures is { counts.new ≡ change_counted counts.old change }
    ensures few { total counts.new ≤ total counts.old + 1 }
    ensures events { counts.new.events ≡ counts.old.events }
{
    match change {
        None => {}
        Some(Change::Into(_)) => counts.view += 1,
        Some(Change::Out) => counts.out += 1,
    }
}

/// Counts the lines of a step.
fn count_step(counts: &mut Counts, stepped: Stepped, outputs: &Outputs)
    requires { total counts.old + 2 * length outputs.now.outputs + 1 < 2 ^ 64 }
    ensures is { counts.new ≡ step_counted counts.old stepped outputs.now.outputs }
    ensures few { total counts.new ≤ total counts.old + 2 * length outputs.now.outputs + 1 }
    ensures events { counts.new.events ≡ counts.old.events }
{
    match stepped {
        Stepped::Taken { common: _, change } => {
            count_outputs(counts, outputs);
            count_change(counts, change);
        }
        Stepped::Refused(_) => counts.refused += 1,
    }
}

/// Counts the lines of what an event yielded.
fn count_did(counts: &mut Counts, did: Did, outputs: &Outputs)
    requires { total counts.old + 2 * length outputs.now.outputs + 1 < 2 ^ 64 }
    ensures is { counts.new ≡ lines_counted counts.old did outputs.now.outputs }
    ensures few { total counts.new ≤ total counts.old + 2 * length outputs.now.outputs + 1 }
    ensures events { counts.new.events ≡ counts.old.events }
{
    match did {
        Did::Stepped(stepped) => count_step(counts, stepped, outputs),
        Did::Absent => counts.absent += 1,
        Did::Shown => {}
    }
}

/// Appends `WORD N ` to a line.
#[tactic(auto, unfolding(crate::specs::Counts::count_text))]
fn push_count(line: &mut Line, word: &[u8], count: u64) -> Result<(), Memory>
    ensures { OnOk result (line.new ≡ line.old ++ count_text word.now count) }
{
    line.text(word)?;
    line.text(b" ")?;
    line.number(count)?;
    line.text(b" ")
}

/// Appends the parts of the line of the kinds.
fn push_kinds(line: &mut Line, counts: &Counts) -> Result<(), Memory>
    ensures { OnOk result
        (line.new ≡ line.old ++
        (count_text (codes "deliver") counts.now.deliver ++ count_text (codes "packet") counts.now.packet
        ++ count_text (codes "timer") counts.now.timer ++ count_text (codes "block") counts.now.block
        ++ count_text (codes "announce") counts.now.announce ++ count_text (codes "view") counts.now.view ++
        count_text (codes "out") counts.now.out
        ++ count_text (codes "refused") counts.now.refused ++ count_text (codes "absent") counts.now.absent ++
        end_line counts.now.events)) }
{
    push_count(line, b"deliver", counts.deliver)?;
    push_count(line, b"packet", counts.packet)?;
    push_count(line, b"timer", counts.timer)?;
    push_count(line, b"block", counts.block)?;
    push_count(line, b"announce", counts.announce)?;
    push_count(line, b"view", counts.view)?;
    push_count(line, b"out", counts.out)?;
    push_count(line, b"refused", counts.refused)?;
    push_count(line, b"absent", counts.absent)?;
    report_lines::end_line(line, counts.events)
}

/// Builds the line of the kinds.
fn build_kinds(line: &mut Line, tally: &Tally) -> Result<(), Memory>
    ensures { OnOk result (line.new ≡ line.old ++ kinds_line tally.now) }
{
    let counts = tally.counts();
    push_kinds(line, &counts)
}

/// Puts the line of the kinds.
fn write_kinds<O: Sink>(pen: &mut Pen, tally: &Tally, out: &mut O) -> Result<(), SinkError>
    ensures { Wrote (kinds_line tally.now ∷ [])
        (tells_of O.Sink out.old) (tells_of O.Sink out.new) result }
{
    pen.line.clear();
    build_kinds(&mut pen.line, tally)?;
    put_line(pen.line.slice(), out)
}

/// Builds the line of the packets that are sent short.
fn build_short(line: &mut Line, tally: &Tally) -> Result<(), Memory>
    ensures { OnOk result (line.new ≡ line.old ++ short_line tally.now) }
{
    let counts = tally.counts();
    line.text(b"short ")?;
    line.number(counts.short)?;
    line.text(b"\n")
}

/// Puts the line of the packets that are sent short.
fn write_short<O: Sink>(pen: &mut Pen, tally: &Tally, out: &mut O) -> Result<(), SinkError>
    ensures { Wrote (short_line tally.now ∷ [])
        (tells_of O.Sink out.old) (tells_of O.Sink out.new) result }
{
    pen.line.clear();
    build_short(&mut pen.line, tally)?;
    put_line(pen.line.slice(), out)
}

/// Puts the two lines of a tally: the lines of each kind with the events, and the packets that are sent short.
pub fn write_tally<O: Sink>(pen: &mut Pen, tally: &Tally, out: &mut O) -> Result<(), SinkError>
    ensures { Wrote (tally_lines tally.now)
        (tells_of O.Sink out.old) (tells_of O.Sink out.new) result }
{
    write_kinds(pen, tally, out)?;
    write_short(pen, tally, out)
}
