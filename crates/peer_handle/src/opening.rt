//! The call that opens a member.

ghost use Rattle.std.specs.Prelude.{◌≡◌, true, None, Err};
ghost use Rattle.file_judge.specs.Answer.{Judges};
ghost use Rattle.group_mean.specs.Shown.{shown_mode};
ghost use Rattle.output_mean.specs.Judged.{Means};
ghost use Rattle.stack_judge.specs.Answer.{stack_tree};
ghost use Rattle.peer_handle.specs.Opens.{Makes, OpensStack, Opens, RefusesFile, error_opening, is_possible, mode_for};
ghost use Rattle.peer_handle.specs.Opens.{wanted};

use crate::answer::Opening;
use crate::fault::{ToldFault, error_fault, is_cause};
use crate::handle::Handle;
use crate::machine::Machine;
use crate::order::Order;
use crate::sentence::{error_sentence, put_beginning};
use file_judge::{FileError, judge};
use group_mean::Mode;
use group_member::OpenError;
use group_peer::Peer;
use msg_core::MOST_MEMBERS;
use stack_judge::Stack;
use std::alloc::Global;

/// Whether a group may have so many members, and has one of this id.
fn is_possible(members: u8, id: u8) -> bool
    ensures { result ≡ is_possible members id }
{
    members <= MOST_MEMBERS && id < members
}

/// The mode in which a member runs.
fn mode_for(bypass: bool) -> Mode
    ensures { shown_mode result ≡ mode_for bypass }
{
    if bypass { Mode::Bypass } else { Mode::Layered }
}

/// The answer where a member isn't opened over a stack.
fn error_opening(error: OpenError) -> Opening
    ensures { result ≡ error_opening error }
{
    match error {
        OpenError::TooLarge => Opening::TooLarge,
        OpenError::Memory => Opening::NoMemory,
    }
}

/// Opens a member over a stack that a file means.
#[tactic(auto, using(crate::proofs::Rules::of_make))]
fn make(alloc: Global, order: Order<'_>, stack: Stack) -> Result<Peer, OpenError>
    requires means { Means order.layers.now (stack_tree stack) }
    requires possible { is_possible order.line.members order.id ≡ true }
    ensures { Makes (wanted order.entry) result }
{
    let mode = mode_for(order.bypass);
    match Peer::open(alloc, mode, stack, order.line, order.id) {
        Ok(peer) => Ok(peer),
        Err(error) => Err(error),
    }
}

/// Opens a member over a stack that a file means, behind a handle that has none.
#[tactic(auto, using(crate::proofs::Opens::none_opened))]
fn open_over(alloc: Global, h: &mut Handle, order: Order<'_>, stack: Stack) -> Opening
    requires means { Means order.layers.now (stack_tree stack) }
    requires possible { is_possible order.line.members order.id ≡ true }
    requires empty { h.old.seal.value ≡ None }
    ensures { OpensStack (wanted order.entry) h.new.seal.value result }
{
    let peer = match make(alloc, order, stack) {
        Ok(peer) => peer,
        Err(error) => return error_opening(error),
    };
    match Box::new(alloc, Machine { peer }) {
        Ok(machine) => {
            *h = Handle::of(machine);
            Opening::Opened
        }
        Err(_) => Opening::NoMemory,
    }
}

/// Tells for which cause a file of these bytes is refused.
#[tactic(auto, using(crate::proofs::Opens::is_refused))]
fn refuse(
    alloc: Global,
    _text: &[u8],
    error: FileError,
    fault: &mut ToldFault,
    sentence: &mut [u8],
) -> Opening
    requires { Judges _text.now (Err error) }
    ensures { RefusesFile _text.now fault.old fault.new sentence.old sentence.new result }
{
    if !is_cause(error) {
        return Opening::NoMemory;
    }
    match error_sentence(alloc, error) {
        Ok(text) => {
            let length = put_beginning(text.as_bytes(), sentence);
            *fault = error_fault(error, length);
            Opening::Refused
        }
        Err(_) => Opening::NoMemory,
    }
}

/// Opens a member, behind a handle that has none, over the stack that the bytes of a layer file mean, in the first view
/// of its group. If the file is refused, it is told why.
#[tactic(auto, using(crate::proofs::Rules::of_open))]
pub fn open(
    alloc: Global,
    h: &mut Handle,
    order: Order<'_>,
    fault: &mut ToldFault,
    sentence: &mut [u8],
) -> Opening
    ensures { Opens (wanted order.entry) h.old.seal.value h.new.seal.value fault.old fault.new sentence.old sentence.new
        result }
{
    if h.full {
        return Opening::HasOne;
    }
    if !is_possible(order.line.members, order.id) {
        return Opening::NoMember;
    }
    match judge(alloc, order.layers) {
        Ok(stack) => open_over(alloc, h, order, stack),
        Err(error) => refuse(alloc, order.layers, error, fault, sentence),
    }
}
