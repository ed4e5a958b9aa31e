//! Rows and emissions, with numbers in place of names.

ghost use Rattle.std.specs.Prelude.{◌≡◌, ◌≤◌, ◌<◌, ◌+◌, if◌then◌else◌, drop, length, is_some, map, take, option_map};
ghost use Rattle.std.specs.Prelude.{option_to_list, IfOk, OnOk, Some};
ghost use Rattle.std.specs.List.{AllByRecursion, range_with_len};
ghost use Rattle.layer_ast.specs.View as written;
ghost use Rattle.fault_mean.specs.Declared.{names_in};
ghost use Rattle.fault_mean.specs.Uses.{arguments_in};
ghost use Rattle.file_mean.specs.Names.{message_among, numbers_among, with_messages, with_numbers};
ghost use Rattle.file_mean.specs.Values as values;
ghost use Rattle.file_mean.specs.Statements as spec;
ghost use Rattle.typed_layer.specs.View.{carried_tree, content_tree, emission_tree, message_tree, row_tree, taken_tree};
ghost use Rattle.file_laws.specs.Bounds.{HoldsContent, HoldsSlot, IsByte};
ghost use Rattle.file_slots.specs.Scope.{names_of};
ghost use Rattle.msg_core.specs.Headers.{most_fields};

use crate::made::made;
use file_scope::written;
use file_slots::{VisibleNames, argument_message, carries, few, fields, last, numbers, numbers_of};
use layer_ast as ast;
use layer_ast::{Arguments, Name, Pushed, Queue};
use layer_words::{Dir, Kind};
use std::alloc::{AllocError, Global};
use typed_layer::{
    Carried, Content, Emission, MessageExpression, RowExpression, Taken, TakenMessage,
};

/// The last of some arguments as a message, where one is carried.
fn last_message(
    alloc: Global,
    names: &VisibleNames,
    has_message: bool,
    arguments: &Arguments,
) -> Result<Option<MessageExpression>, AllocError>
    ensures { IfOk result (λ m. option_map message_tree m
        ≡ option_map (values.argument_message (names_of names.now))
        (message_among has_message (arguments_in (Some (written.arguments_tree arguments.now))))) }
{
    if has_message {
        Ok(Some(argument_message(alloc, names, last(arguments))?))
    } else {
        Ok(None)
    }
}

/// The tag of the header that an emission puts on; without one it is 0.
fn pushed_tag(names: &VisibleNames, pushed: &Option<Pushed>) -> u8
    ensures { result ≡ spec.pushed_tag (names_of names.now) (option_map written.pushed_tree pushed.now) }
{
    match pushed {
        None => 0,
        Some(pushed) => names.place.tag(&pushed.name),
    }
}

/// The message of an emission that carries this one, and its header.
fn content(
    alloc: Global,
    names: &VisibleNames,
    message: MessageExpression,
    pushed: &Option<Pushed>,
) -> Result<Content, AllocError>
    requires { length (spec.pushed_fields (names_of names.now) (option_map written.pushed_tree pushed.now)) ≤
        most_fields }
    ensures { IfOk result (λ c. content_tree c ≡ record {
      message = message_tree message;
      tag = spec.pushed_tag (names_of names.now) (option_map written.pushed_tree pushed.now);
      fields = spec.pushed_fields (names_of names.now) (option_map written.pushed_tree pushed.now);
    }) }
{
    let fields = match pushed {
        None => Vec::new(alloc),
        Some(pushed) => made!(fields(alloc, names, &pushed.fields), message),
    };
    Ok(Content {
        message,
        tag: pushed_tag(names, pushed),
        fields: few(fields),
    })
}

/// Where an event goes, and of which kind it is.
#[derive(Clone, Copy)]
pub struct Way {
    pub direction: Dir,
    pub kind: Kind,
}

/// An emission.
pub fn emission(
    alloc: Global,
    names: &VisibleNames,
    way: Way,
    arguments: &Arguments,
    pushed: &Option<Pushed>,
) -> Result<Emission, AllocError>
    requires numbers { length (spec.emission_of (names_of names.now) way.direction way.kind
        (arguments_in (Some (written.arguments_tree arguments.now)))
        (option_map written.pushed_tree pushed.now)).numbers ≤ most_fields }
    requires content { HoldsContent
        (spec.emission_of (names_of names.now) way.direction way.kind
        (arguments_in (Some (written.arguments_tree arguments.now)))
        (option_map written.pushed_tree pushed.now)).content }
    ensures { IfOk result (λ e. emission_tree e
        ≡ spec.emission_of (names_of names.now) way.direction way.kind
        (arguments_in (Some (written.arguments_tree arguments.now))) (option_map written.pushed_tree pushed.now)) }
{
    let has_message = carries(way.kind);
    let numbers = numbers(alloc, names, has_message, arguments)?;
    let content = match last_message(alloc, names, has_message, arguments)? {
        None => None,
        Some(message) => Some(content(alloc, names, message, pushed)?),
    };
    Ok(Emission {
        direction: way.direction,
        kind: way.kind,
        numbers: few(numbers),
        content,
    })
}

/// Whether the rows of a queue carry a message.
fn has_message(names: &VisibleNames, queue: &Queue) -> bool
    ensures { result ≡ is_some (values.queue_carries (names_of names.now) (written.queue_tree queue.now)) }
{
    names.place.carried(&queue.name).is_some()
}

/// The row that is pushed on a queue.
pub fn pushed_row(
    alloc: Global,
    names: &VisibleNames,
    queue: &Queue,
    items: &Arguments,
) -> Result<RowExpression, AllocError>
    requires { length (spec.pushed_row (names_of names.now) (written.queue_tree queue.now)
        (arguments_in (Some (written.arguments_tree items.now)))).numbers ≤ most_fields }
    ensures { IfOk result (λ r. row_tree r
        ≡ spec.pushed_row (names_of names.now) (written.queue_tree queue.now)
        (arguments_in (Some (written.arguments_tree items.now)))) }
{
    let has_message = has_message(names, queue);
    let numbers = numbers(alloc, names, has_message, items)?;
    let message = last_message(alloc, names, has_message, items)?;
    Ok(RowExpression {
        numbers: few(numbers),
        message,
    })
}

/// `count` slots, from `first` on.
fn slots(alloc: Global, first: u16, count: usize) -> Result<Vec<u8>, AllocError>
    requires { first + count ≤ 256 }
    ensures { IfOk result (λ all. all.items ≡ range_with_len first count) }
{
    let mut all = Vec::new(alloc);
    for k in 0..count {
        all.push((usize::from(first) + k) as u8)?;
    }
    Ok(all)
}

/// The slots that a taken row fills: n with numbers from a first one on, and one with a message where it carries
/// one.
fn taken_row(
    alloc: Global,
    first: u16,
    count: usize,
    slot: u16,
    carried: Option<Carried>,
) -> Result<Taken, AllocError>
    requires numbers { first + count ≤ 256 }
    requires message { HoldsSlot (option_map (λ c. (slot, c)) (option_map carried_tree carried)) }
    ensures { IfOk result (λ t. taken_tree t
        ≡ record {
          numbers = range_with_len first count;
          message = option_map (λ c. (slot, c)) (option_map carried_tree carried);
        }) }
{
    let numbers = slots(alloc, first, count)?;
    let message = match carried {
        None => None,
        Some(carried) => Some(TakenMessage {
            slot: slot as u8,
            carried,
        }),
    };
    Ok(Taken { numbers, message })
}

/// Makes visible the names that the parts of a taken row get.
#[tactic(auto, using(crate::proofs::Rows::numbers_are, crate::proofs::Rows::message_is))]
fn bring_row(names: &mut VisibleNames, has_message: bool, new: &[Name]) -> Result<(), AllocError>
    requires numbers { (names_of names.old).taken.numbers + length (numbers_among has_message new.now) ≤ 256 }
    requires message { (names_of names.old).taken.messages + length (option_to_list (message_among has_message new.now))
        ≤ 256 }
    ensures { OnOk result (names_of names.new
        ≡ with_messages (option_to_list (message_among has_message new.now))
        (with_numbers (numbers_among has_message new.now) (names_of names.old))) }
{
    let count = numbers_of(has_message, new.len());
    let (numbers, message) = new.split_at(count);
    names.bring_numbers(numbers)?;
    names.bring_messages(message)?;
    Ok(())
}

/// Takes slots for a row that is taken from a queue, and makes the names of its parts visible.
pub fn take_row(
    alloc: Global,
    names: &mut VisibleNames,
    queue: &Queue,
    new: &ast::Names,
) -> Result<Taken, AllocError>
    requires numbers { AllByRecursion IsByte
        (spec.taken_row (names_of names.old) (written.queue_tree queue.now)
        (names_in (Some (written.names_tree new.now)))).numbers }
    requires message { HoldsSlot
        (spec.taken_row (names_of names.old) (written.queue_tree queue.now)
        (names_in (Some (written.names_tree new.now)))).message }
    ensures taken { IfOk result (λ t. taken_tree t
        ≡ spec.taken_row (names_of names.old) (written.queue_tree queue.now)
        (names_in (Some (written.names_tree new.now)))) }
    ensures names { OnOk result (names_of names.new
        ≡ spec.with_taken (written.queue_tree queue.now) (names_in (Some (written.names_tree new.now)))
        (names_of names.old)) }
{
    let new = written(alloc, new)?;
    let has_message = has_message(names, queue);
    let carried = names.place.carried(&queue.name);
    let count = numbers_of(has_message, new.len());
    let taken = taken_row(
        alloc,
        names.numbers.taken(),
        count,
        names.messages.taken(),
        carried,
    )?;
    bring_row(names, has_message, &new)?;
    Ok(taken)
}
