//! Handlers of one event: of the same direction, kind and header.

ghost use Rattle.std.specs.Prelude.{◌≡◌, ◌++◌, [], map, option_map, OnOk, IfOk};
ghost use Rattle.layer_ast.specs.View.{handler_tree, popped_tree};
ghost use Rattle.fault_mean.specs.Faults as fault;
ghost use Rattle.fault_mean.specs.NameFaults.{repetitions, same_events};
ghost use Rattle.file_names.specs.Events.{event_code, popped_code};
ghost use Rattle.file_names.specs.Found.{Finds};

use crate::found::{Cause, Found, note_unless};
use indexmap::IndexSet;
use layer_ast::{Handler, Popped};
use std::alloc::{AllocError, Global};
use std::hash::{Hash, Hasher};
use std::marker::Model;

/// What a handler takes, as the key of a table: its direction and its kind, and after them the header that it takes
/// off.
#[derive(Drop)]
struct Event(Vec<u8>);

impl Model for Event {
    ghost use Rattle.std.specs.Prelude.{List, ℕ};

    ghost Value = { List ℕ };

    ghost view = { λ e. e.0.items };
}

impl PartialEq for Event {
    ghost use Rattle.std.specs.Cmp.Lexicographic.{pointwise, nat_list_eq_equiv};
    ghost use Rattle.std.specs.Cmp.{partial_equiv_from_equiv};
    ghost use Rattle.std.specs.Prelude.{nat_eq};

    ghost eq = { pointwise nat_eq };

    ghost laws = { partial_equiv_from_equiv nat_list_eq_equiv };

    fn eq(&self, other: &Self) -> bool {
        self.0.as_slice() == other.0.as_slice()
    }
}

impl Eq for Event {
    ghost use Rattle.std.specs.Cmp.Lexicographic.{nat_list_eq_equiv};

    ghost laws = { nat_list_eq_equiv };
}

impl Hash for Event {
    ghost use Rattle.std.specs.Prelude.{◌∷◌, []};
    ghost use Rattle.std.specs.Cmp.Rules.{hashing};
    ghost use Rattle.std.proofs.Common.{rules};

    ghost hash_input = { λ e. e ∷ [] };

    ghost respects_eq = { Prim.search (hashing, rules) };

    fn hash<H: Hasher>(&self, state: &mut H) {
        state.write(self.0.as_slice());
    }
}

/// Writes the header that a handler takes off, if it does.
fn put_header(code: &mut Vec<u8>, popped: &Option<Popped>) -> Result<(), AllocError>
    ensures { OnOk result (code.new.items ≡ code.old.items ++ popped_code (option_map popped_tree popped.now)) }
{
    match popped {
        None => Ok(()),
        Some(popped) => {
            code.push(1)?;
            code.extend_from_slice(popped.name.word.bytes())?;
            Ok(())
        }
    }
}

/// What a handler takes.
fn event_of(alloc: Global, handler: &Handler) -> Result<Event, AllocError>
    ensures { IfOk result (λ event. event ≡ event_code (handler_tree handler.now)) }
{
    let mut code = Vec::new(alloc);
    code.push(handler.direction as u8)?;
    code.push(handler.kind as u8)?;
    put_header(&mut code, &handler.popped)?;
    Ok(Event(code))
}

/// Judges handlers, no two of which may be of one event.
#[tactic(auto, using(file_scope::proofs::Finds::finds_none, crate::proofs::SameEvents::event_next))]
pub fn handlers_twice(
    alloc: Global,
    found: &mut Found,
    handlers: &[Handler],
) -> Result<(), AllocError>
    ensures { OnOk result
        (Finds found.old (map (λ h. fault.twice h.at) (repetitions same_events [] (map handler_tree handlers.now)))
        found.new) }
{
    let mut seen = IndexSet::new(alloc);
    for handler in handlers {
        let is_new = seen.insert(event_of(alloc, handler)?)?;
        note_unless(found, is_new, Cause::Twice, handler.at);
    }
    Ok(())
}
