//! Members that are given an input, with what holds of them then.

ghost use Rattle.std.specs.Prelude.{◌≡◌, ◌^◌, ◌≤◌};
ghost use Rattle.bypass_laws.specs.Making.{IsSound};
ghost use Rattle.group_member.specs.Placed.{Steps};
ghost use Rattle.group_member.specs.Probing.{ProbesMember};
ghost use Rattle.member_laws.specs.Members.{IsInput};
ghost use Rattle.miss_laws.specs.Told.{AreChecksOf};
ghost use Rattle.packet_mean.specs.ChainedState.{IsNumber};
ghost use Rattle.packet_mean.specs.Spelling.{AreBytes};
ghost use Rattle.run_mean.specs.Mode.{bypass};
ghost use Rattle.stack_mean.specs.Acceptance.{largest_weight};
ghost use Rattle.view_core.specs.Steps.{input_meant};
ghost use Rattle.group_world.specs.Given.{IsGiven};

use group_member::Member;
use guard_checks::StackChecks;
use step_misses::Probed;
use step_outputs::Outputs;
use view_core::{Input, Stepped};

/// That a number is one of 32 bits.
#[inline(always)]
fn law_number(_number: u32)
    ensures { IsNumber _number }
{}

/// That bytes are bytes.
#[inline(always)]
fn law_bytes(_bytes: &[u8])
    ensures { AreBytes _bytes.now }
{}

/// That what a member is given is made of bytes and numbers.
#[inline(always)]
fn law_in_range(input: &Input<'_>)
    ensures { IsInput (input_meant input.now) }
{
    match input {
        Input::Cast(body) => law_bytes(body),
        Input::Send(to, body) => {
            law_number(*to);
            law_bytes(body);
        }
        Input::Leave => {}
        Input::Tick(moment) => law_number(*moment),
        Input::Datagram(bytes) => law_bytes(bytes),
    }
}

/// That a member is where a step of the definitions begins.
#[inline(always)]
fn law_given(member: &Member, input: &Input<'_>)
    ensures { IsGiven member.now (input_meant input.now) }
{
    member.law_placed();
    member.law_chained();
    law_in_range(input);
}

/// A member takes an input, one step, or refuses it.
#[inline(always)]
pub(crate) fn step_member(
    member: &mut Member,
    input: Input<'_>,
    out: &mut Outputs,
    visits: &mut u64,
) -> Stepped
    requires out { out.old.places ≡ largest_weight member.old.stack }
    requires visits { visits.old ≤ 2 ^ 63 }
    ensures given { IsGiven member.old (input_meant input.entry) }
    ensures step { Steps member.old (input_meant input.entry) member.new out.new.outputs visits.old visits.new result }
    ensures places { out.new.places ≡ out.old.places }
{
    law_given(member, &input);
    member.step(input, out, visits)
}

/// A member tries an input as a common step, by the checks of its stack.
pub(crate) fn probe_member(
    member: &mut Member,
    checks: &mut StackChecks,
    input: Input<'_>,
    out: &mut Outputs,
) -> Probed
    requires mode { member.old.mode ≡ bypass }
    requires sound { IsSound member.old.stack }
    requires checks { AreChecksOf member.old.stack checks.old }
    requires out { out.old.places ≡ largest_weight member.old.stack }
    ensures given { IsGiven member.old (input_meant input.entry) }
    ensures probed { ProbesMember member.old (input_meant input.entry) member.new out.new.outputs result }
    ensures checks { checks.new ≡ checks.old }
    ensures places { out.new.places ≡ out.old.places }
{
    law_given(member, &input);
    member.probe(checks, input, out)
}
