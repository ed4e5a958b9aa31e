//! The lines of a step's outputs.

ghost use Rattle.std.specs.Prelude.{◌≡◌, ◌+◌, ◌^◌, ◌<◌, ◌≤◌, ◌++◌, [], true, IfOk, OnOk, length};
ghost use Rattle.stack_judge.specs.Answer.{stack_tree};
ghost use Rattle.packet_full.specs.Sent.{sent_packet};
ghost use Rattle.run_mean.specs.Common.{wire};
ghost use Rattle.run_mean.specs.Lines as report;
ghost use Rattle.run_mean.specs.Report.{lines_of_outputs, number_following, output_lines, wire_annex};
ghost use Rattle.outside.specs.Lines.{Wrote};
ghost use Rattle.outside.specs.Tells.{tells_of};
ghost use Rattle.step_outputs.specs.Views.{output_meant};
ghost use Rattle.stack_shapes.specs.Trees.{plans_tree};
ghost use Rattle.report_text.specs.Numbered.{line_if};
ghost use Rattle.report_text.specs.Told.{annex_of};

use crate::manner::{Issue, Issuer, Manner};
use crate::pen::Pen;
use crate::wire::spell;
use msg_core::Memory;
use outside::{Sink, SinkError, put_line};
use packet_full::PacketView;
use packet_mean::Here;
use report_lines::{
    Delivery, Line, NamedStack, announce_line, block_line, deliver_line, packet_line, timer_line,
    wire_line,
};
use stack_shapes::Plans;
use step_outputs::OutputView;

/// Builds the line of an output, if it has one, and answers whether it has.
fn build_output(
    line: &mut Line,
    stack: &NamedStack,
    issuer: Issuer<'_>,
    output: &OutputView<'_>,
) -> Result<bool, Memory>
    requires { line.old ≡ [] }
    ensures { IfOk result
        (λ has. line_if has line.new ≡
        output_lines (stack_tree stack.now) issuer.entry.id issuer.entry.number
        (output_meant issuer.entry.here.now output.now).0) }
{
    match output {
        OutputView::Cast(peer, body) => {
            deliver_line(line, issuer.id, Delivery::Cast, *peer, body)?
        }
        OutputView::Send(peer, body) => {
            deliver_line(line, issuer.id, Delivery::Send, *peer, body)?
        }
        OutputView::Block(a) => block_line(line, issuer.id, *a)?,
        OutputView::Announce(ranks) => announce_line(line, issuer.id, *ranks)?,
        OutputView::Timer(moment) => timer_line(line, issuer.id, *moment)?,
        OutputView::Packet(packet) => packet_line(line, stack, issuer.number, issuer.id, packet)?,
        OutputView::Nowhere(_) => return Ok(false),
        OutputView::Quiet(_, _) => return Ok(false),
    }
    Ok(true)
}

/// Puts the line of an output, if it has one. A packet's line has the issuer's number.
pub fn put_output<O: Sink>(
    pen: &mut Pen,
    stack: &NamedStack,
    issuer: Issuer<'_>,
    output: &OutputView<'_>,
    out: &mut O,
) -> Result<(), SinkError>
    ensures { Wrote (output_lines (stack_tree stack.now) issuer.entry.id issuer.entry.number
        (output_meant issuer.entry.here.now output.now).0)
        (tells_of O.Sink out.old) (tells_of O.Sink out.new) result }
{
    pen.line.clear();
    if build_output(&mut pen.line, stack, issuer, output)? {
        put_line(pen.line.slice(), out)
    } else {
        Ok(())
    }
}

/// Builds the line of a packet's bytes.
fn build_wire(
    line: &mut Line,
    bytes: &mut Vec<u8>,
    plans: &Plans,
    issuer: Issuer<'_>,
    packet: &PacketView<'_>,
) -> Result<(), Memory>
    ensures { OnOk result (line.new ≡ line.old ++ report.wire_line issuer.entry.number
        (wire (plans_tree plans.now)
        (sent_packet issuer.entry.here.now packet.now.dest packet.now.headers.now packet.now.body.now)
        packet.now.plan)) }
{
    spell(bytes, plans, issuer.here, packet)?;
    wire_line(line, issuer.number, bytes.as_slice())
}

/// Puts the line of an output's bytes, if it is a packet.
fn put_wire<O: Sink>(
    pen: &mut Pen,
    plans: &Plans,
    issuer: Issuer<'_>,
    output: &OutputView<'_>,
    out: &mut O,
) -> Result<(), SinkError>
    ensures { Wrote (wire_annex (plans_tree plans.now) issuer.entry.number
        (output_meant issuer.entry.here.now output.now))
        (tells_of O.Sink out.old) (tells_of O.Sink out.new) result }
{
    let OutputView::Packet(packet) = output else {
        return Ok(())
    };
    pen.line.clear();
    build_wire(&mut pen.line, &mut pen.bytes, plans, issuer, packet)?;
    put_line(pen.line.slice(), out)
}

/// Puts the lines of an output: its own, and where it is wanted that of its bytes.
fn write_output<O: Sink>(
    pen: &mut Pen,
    manner: Manner<'_>,
    issuer: Issuer<'_>,
    output: &OutputView<'_>,
    out: &mut O,
) -> Result<(), SinkError>
    ensures { Wrote (output_lines (stack_tree manner.entry.stack.now) issuer.entry.id issuer.entry.number
        (output_meant issuer.entry.here.now output.now).0
        ++ annex_of manner.entry.wire (plans_tree manner.entry.plans.now) issuer.entry.number
        (output_meant issuer.entry.here.now output.now))
        (tells_of O.Sink out.old) (tells_of O.Sink out.new) result }
{
    put_output(pen, manner.stack, issuer, output, out)?;
    if manner.wire {
        put_wire(pen, manner.plans, issuer, output, out)
    } else {
        Ok(())
    }
}

/// The number of the next packet after an output: one more after a packet, and after all others the same.
pub fn number_following(_here: &Here, number: u64, output: &OutputView<'_>) -> u64
    requires { number + 1 < 2 ^ 64 }
    ensures is { result ≡ number_following number (output_meant _here.now output.now).0 }
    ensures few { result ≤ number + 1 }
{
    match output {
        OutputView::Packet(_) => number + 1,
        _ => number,
    }
}

/// Puts the lines of a step's outputs.
pub(crate) fn write_outputs<O: Sink>(
    pen: &mut Pen,
    manner: Manner<'_>,
    issue: Issue<'_>,
    out: &mut O,
) -> Result<(), SinkError>
    requires { issue.first + length issue.outputs.now.outputs < 2 ^ 64 }
    ensures { Wrote (lines_of_outputs (stack_tree manner.entry.stack.now)
        (annex_of manner.entry.wire (plans_tree manner.entry.plans.now))
        issue.entry.id issue.entry.first issue.entry.outputs.now.outputs)
        (tells_of O.Sink out.old) (tells_of O.Sink out.new) result }
{
    let here = issue.outputs.here();
    let mut number = issue.first;
    for k in 0..issue.outputs.len() {
        let output = issue.outputs.at(k);
        let issuer = Issuer {
            here: &here,
            id: issue.id,
            number,
        };
        write_output(pen, manner, issuer, &output, out)?;
        number = number_following(&here, number, &output);
    }
    Ok(())
}
