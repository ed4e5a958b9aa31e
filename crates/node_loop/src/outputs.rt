//! The outputs of a step: their lines, and the packets among them handed on.

ghost use Rattle.std.specs.Prelude.{◌≡◌, ℕ, Bool, IsSomeAnd};
ghost use Rattle.std.specs.List.{AllByRecursion};
ghost use Rattle.stack_shapes.specs.Trees.{plans_tree};
ghost use Rattle.run_mean.specs.Journal.{handed_output};
ghost use Rattle.step_outputs.specs.Views.{output_meant};
ghost use Rattle.view_core.specs.declared.step.Stepped.TheVariants.{Taken};
ghost use Rattle.node_laws.specs.Groups.{IsSendable};
ghost use Rattle.node_loop.specs.Around.{around};
ghost use Rattle.node_loop.specs.Passing.{Handles};
ghost use Rattle.node_loop.specs.Source.{MayPass, acts_of_output, acts_of_outputs, acts_of_step};

use crate::sending::hand_on;
use crate::source::OutputSource;
use crate::tools::Tools;
use outside::{Links, Sink, SinkError};
use packet_mean::Here;
use report_text::{Issuer, number_following, put_output, write_change, write_refusal};
use step_outputs::{OutputView, Outputs};
use view_core::{Change, Stepped};

/// Puts the line of an output, and hands it on if it is a packet.
fn pass_output<O: Sink, N: Links>(
    tools: &mut Tools,
    source: OutputSource<'_>,
    here: &Here,
    output: &OutputView<'_>,
    out: &mut O,
    links: &mut N,
) -> Result<(), SinkError>
    requires sendable { IsSomeAnd (N.listening links.old source.id) (λ peers.
        AllByRecursion (IsSendable peers source.id)
        (handed_output (plans_tree source.plans.now) source.id (output_meant here.now output.now))) }
    ensures handed { Handles (acts_of_output source.entry (output_meant here.now output.now))
        (around O.Sink N.Links out.old links.old) (around O.Sink N.Links out.new links.new) result }
    ensures listening { (m : ℕ) → N.listening links.new m ≡ N.listening links.old m }
{
    let issuer = Issuer {
        here,
        id: source.id,
        number: source.number,
    };
    put_output(&mut tools.pen, source.stack, issuer, output, out)?;
    match output {
        OutputView::Packet(packet) => { hand_on(tools, source, here, packet, out, links) }
        _ => Ok(()),
    }
}

/// Puts the lines of a step's outputs, and hands its packets on.
fn pass_outputs<O: Sink, N: Links>(
    tools: &mut Tools,
    source: OutputSource<'_>,
    outputs: &Outputs,
    out: &mut O,
    links: &mut N,
) -> Result<(), SinkError>
    requires { MayPass source outputs.now.outputs (N.listening links.old) }
    ensures handed { Handles (acts_of_outputs source.entry outputs.now.outputs)
        (around O.Sink N.Links out.old links.old) (around O.Sink N.Links out.new links.new) result }
    ensures listening { (m : ℕ) → N.listening links.new m ≡ N.listening links.old m }
{
    let here = outputs.here();
    let mut number = source.number;
    for k in 0..outputs.len() {
        let output = outputs.at(k);
        pass_output(
            tools,
            OutputSource { number, ..source },
            &here,
            &output,
            out,
            links,
        )?;
        number = number_following(&here, number, &output);
    }
    Ok(())
}

/// Puts the lines of a step that was taken, and hands its packets on.
fn pass_taken<O: Sink, N: Links>(
    tools: &mut Tools,
    source: OutputSource<'_>,
    outputs: &Outputs,
    change: Option<Change>,
    out: &mut O,
    links: &mut N,
) -> Result<(), SinkError>
    requires { MayPass source outputs.now.outputs (N.listening links.old) }
    ensures handed { (common : Bool) → Handles (acts_of_step source.entry outputs.now.outputs (Taken common change))
        (around O.Sink N.Links out.old links.old) (around O.Sink N.Links out.new links.new) result }
    ensures listening { (m : ℕ) → N.listening links.new m ≡ N.listening links.old m }
{
    pass_outputs(tools, source, outputs, out, links)?;
    write_change(&mut tools.pen, source.id, change, out)
}

/// Puts the lines of a step, and hands its packets on.
pub(crate) fn pass_stepped<O: Sink, N: Links>(
    tools: &mut Tools,
    source: OutputSource<'_>,
    outputs: &Outputs,
    stepped: Stepped,
    out: &mut O,
    links: &mut N,
) -> Result<(), SinkError>
    requires { MayPass source outputs.now.outputs (N.listening links.old) }
    ensures handed { Handles (acts_of_step source.entry outputs.now.outputs stepped)
        (around O.Sink N.Links out.old links.old) (around O.Sink N.Links out.new links.new) result }
    ensures listening { (m : ℕ) → N.listening links.new m ≡ N.listening links.old m }
{
    match stepped {
        Stepped::Taken { common: _, change } => {
            pass_taken(tools, source, outputs, change, out, links)
        }
        Stepped::Refused(refusal) => write_refusal(&mut tools.pen, source.id, refusal, out),
    }
}
