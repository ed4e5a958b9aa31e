//! What a member is given is in range.

ghost use Rattle.group_world.specs.Given.{IsGiven};
ghost use Rattle.member_laws.specs.Members.{IsInput};
ghost use Rattle.packet_mean.specs.ChainedState.{IsNumber};
ghost use Rattle.packet_mean.specs.Spelling.{AreBytes};
ghost use Rattle.view_core.specs.Steps.{input_meant};

use group_member::Member;
use view_core::Input;

/// That a number is one of 32 bits.
#[inline(always)]
fn law_number(_number: u32)
    ensures { IsNumber _number }
{}

/// That bytes are bytes.
#[inline(always)]
fn law_bytes(_bytes: &[u8])
    ensures { AreBytes _bytes.now }
{}

/// That what a member is given is made of bytes and numbers.
#[inline(always)]
fn law_in_range(input: &Input<'_>)
    ensures { IsInput (input_meant input.now) }
{
    match input {
        Input::Cast(body) => law_bytes(body),
        Input::Send(to, body) => {
            law_number(*to);
            law_bytes(body);
        }
        Input::Leave => {}
        Input::Tick(moment) => law_number(*moment),
        Input::Datagram(bytes) => law_bytes(bytes),
    }
}

/// That a member is where a step of the definitions begins.
#[inline(always)]
pub(crate) fn law_given(member: &Member, input: &Input<'_>)
    ensures { IsGiven member.now (input_meant input.now) }
{
    member.law_placed();
    member.law_chained();
    law_in_range(input);
}
