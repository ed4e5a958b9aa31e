//! What a member's input enters as.

ghost use Rattle.std.specs.Prelude.{◌≡◌, ◌≤◌, nat_lt, length, IfOk, vec_capacity};
ghost use Rattle.std.specs.List.{AllByRecursion};
ghost use Rattle.stack_judge.specs.Answer.{stack_tree};
ghost use Rattle.member_laws.specs.Members.{IsInput};
ghost use Rattle.msg_core.specs.Parts.{longest_body};
ghost use Rattle.packet_full.specs.Scanned.{Scans};
ghost use Rattle.packet_mean.specs.Plan.{kind_of};
ghost use Rattle.packet_mean.specs.Received.{received};
ghost use Rattle.packet_mean.specs.Spelling.{AreBytes};
ghost use Rattle.stack_shapes.specs.Trees.{plans_tree};
ghost use Rattle.packet_short.specs.Keeping.{HasAtMost};
ghost use Rattle.packet_short.specs.Layouts.{AreLaidOut, IsReadAs};
ghost use Rattle.run_mean.specs.Member.{entered_input};
ghost use Rattle.view_core.specs.Steps.{input_meant};
ghost use Rattle.group_member.specs.Judged.{IsKnown, Judges, LiesWithin};

use msg_core::{LONGEST_BODY, Stray};
use packet_full::Scan;
use packet_mean::Here;
use packet_short::{Known, scan_packet};
use view_core::{Input, Refusal};

/// An input that isn't refused.
#[derive(Drop)]
pub(crate) enum Entry<'b> {
    Cast(&'b [u8]),
    Send(u32, &'b [u8]),
    Leave,
    Tick(u32),
    /// What a datagram says; the datagram itself, in which the body lies; and the number of the least plan that its
    /// packet fits, if reading told this number.
    Packet(&'b Scan, &'b [u8], Option<u8>),
}

/// Whether a body has more bytes than one may have.
fn is_too_big(body: &[u8]) -> bool
    ensures big { result ≡ nat_lt longest_body (length body.now) }
    ensures bytes { AreBytes body.now }
{
    body.len() > LONGEST_BODY as usize
}

/// Reads what a datagram says to a member into `scan`, or tells the first cause for which it is refused.
fn read(
    known: &Known<'_>,
    here: &Here,
    bytes: &[u8],
    scan: &mut Scan,
    fields: &mut Vec<u32>,
) -> Result<Option<u8>, Stray>
    requires laid { AreLaidOut (stack_tree known.now.stack.now) (plans_tree known.now.plans.now)
        known.now.layouts.now }
    requires room { AllByRecursion (HasAtMost (vec_capacity fields.old)) (plans_tree known.now.plans.now) }
    ensures read { Scans here.now bytes.now
        (received (stack_tree known.now.stack.now) (plans_tree known.now.plans.now) here.now bytes.now)
        result scan.new }
    ensures within { IfOk result (λ _. scan.new.body ≤ length bytes.now) }
    ensures known { IfOk result (λ number. IsReadAs (plans_tree known.now.plans.now) number
        (kind_of scan.new.dest) scan.new.headers fields.new.items) }
    ensures capacity { vec_capacity fields.new ≡ vec_capacity fields.old }
    ensures bytes { AreBytes bytes.now }
{
    scan_packet(known, here, bytes, scan, fields)
}

/// What a member in a view makes of an input, or why it refuses it. A datagram is read into `scan`; where reading tells
/// the least plan that its packet fits, the fields that this plan leaves variable are kept.
#[inline(always)]
pub(crate) fn judge<'b>(
    known: &Known<'_>,
    here: &Here,
    input: Input<'b>,
    scan: &'b mut Scan,
    fields: &mut Vec<u32>,
) -> Result<Entry<'b>, Refusal>
    requires laid { AreLaidOut (stack_tree known.now.stack.now) (plans_tree known.now.plans.now)
        known.now.layouts.now }
    requires room { AllByRecursion (HasAtMost (vec_capacity fields.old)) (plans_tree known.now.plans.now) }
    ensures judged { Judges here.now (entered_input (stack_tree known.now.stack.now)
        (plans_tree known.now.plans.now) here.now (input_meant input.entry)) result }
    ensures lies { IfOk result LiesWithin }
    ensures known { IfOk result (IsKnown (plans_tree known.now.plans.now) fields.new.items) }
    ensures input { IsInput (input_meant input.entry) }
    ensures capacity { vec_capacity fields.new ≡ vec_capacity fields.old }
{
    match input {
        Input::Cast(body) => {
            if is_too_big(body) {
                return Err(Refusal::TooBig);
            }
            Ok(Entry::Cast(body))
        }
        Input::Send(to, body) => {
            if is_too_big(body) {
                return Err(Refusal::TooBig);
            }
            Ok(Entry::Send(to, body))
        }
        Input::Leave => Ok(Entry::Leave),
        Input::Tick(moment) => Ok(Entry::Tick(moment)),
        Input::Datagram(bytes) => match read(known, here, bytes, scan, fields) {
            Ok(number) => Ok(Entry::Packet(scan, bytes, number)),
            Err(cause) => Err(Refusal::Stray(cause)),
        },
    }
}
